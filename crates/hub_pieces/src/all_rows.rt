//! What the rows of a hub have to answer to be checked.
ghost use Rattle.std.specs.Prelude.{◌≡◌};
ghost use Rattle.hub_sound.specs.Finding.{hub_key, supplier_key, prefix_key, order_key, line_key, advice_key, pallet_key, content_key};
ghost use Rattle.hub_sound.specs.Finding.{receipt_key, remembered_key, mail_key};
ghost use Rattle.hub_sound.specs.HubRules.Sound.{was_received};
ghost use Rattle.hub_store.specs.Clean.{clean_hub, clean_key, clean_prefix, clean_order, clean_line, clean_advice, clean_pallet};
ghost use Rattle.hub_store.specs.Clean.{clean_content, clean_receipt, clean_remembered, clean_mail};
ghost use Rattle.hub_tables.specs.State.{knows_order, entry_at, contents_of, receipts_of};
ghost use Rattle.hub_tables.specs.Tables.{Tables, has_pallet, view};
ghost use Rattle.hub_founding.specs.Founding.{IsHeldBy};
ghost use Rattle.hub_pieces.specs.AllRows.{Tells, IsRead};
ghost use Rattle.hub_pieces.specs.Pieces.{IsNext, values_in};

use crate::piece_kind::PieceKind;
use edi_base::Items;
use gs1_ids::{Gln, Sscc};
use hub_register::Register;
use hub_sound::KeyCell;
use hub_store::StoreFault;
use hub_tables::{
    AdviceRow, ContentRow, HubRow, KeyRow, LineRow, MailRow, OrderRow, PalletRow, PrefixRow,
    ReceiptRow, RememberedRow,
};

/// Rows of a kind; or, if one of them does not have the form of its kind, its key.
#[derive(Drop)]
pub enum Read<T> {
    /// The rows, in the order of their keys.
    Rows(Items<T>),
    /// The key of a row without the form of its kind.
    Unclean(Items<KeyCell>),
}

/// The rows of a hub, which are looked up and read: those of the register whole, and all others in pieces. A call that
/// answers has not changed them. A call fails with `Memory` or `Disk`.
pub trait AllRows {
    /// The rows.
    ghost content: { Self → Tables };

    /// What is below has returned what was written, so far, and the rows can still be read.
    ghost honest: { Self → Type 0 };

    /// The register that the rows hold, if they hold one.
    fn register(&mut self) -> Result<Option<Register>, StoreFault>
        ensures { Tells content honest IsHeldBy self.old self.new result };

    /// The hub's rows.
    fn every_hub(&mut self) -> Result<Read<HubRow>, StoreFault>
        ensures { Tells content honest (λ t. IsRead hub_key clean_hub t.hubs) self.old self.new result };

    /// The keys of suppliers.
    fn every_supplier(&mut self) -> Result<Read<KeyRow>, StoreFault>
        ensures { Tells content honest (λ t. IsRead supplier_key clean_key t.keys) self.old self.new result };

    /// The company prefixes.
    fn every_prefix(&mut self) -> Result<Read<PrefixRow>, StoreFault>
        ensures { Tells content honest (λ t. IsRead prefix_key clean_prefix t.prefixes) self.old self.new result };

    /// The lowest value above `value`, byte by byte, in the column that divides the rows of a kind into pieces.
    fn next_value(&mut self, kind: PieceKind, value: &[u8]) -> Result<Option<Items<u8>>, StoreFault>
        ensures { Tells content honest (λ t. IsNext value.now (values_in kind t)) self.old self.new result };

    /// The orders with these bytes as their supplier.
    fn orders_of(&mut self, supplier: &[u8]) -> Result<Read<OrderRow>, StoreFault>
        ensures { Tells content honest (λ t. IsRead order_key clean_order (view supplier.now t).orders)
            self.old self.new result };

    /// The lines with these bytes as their supplier.
    fn lines_of(&mut self, supplier: &[u8]) -> Result<Read<LineRow>, StoreFault>
        ensures { Tells content honest (λ t. IsRead line_key clean_line (view supplier.now t).lines)
            self.old self.new result };

    /// The despatch advices with these bytes as their supplier.
    fn advices_of(&mut self, supplier: &[u8]) -> Result<Read<AdviceRow>, StoreFault>
        ensures { Tells content honest (λ t. IsRead advice_key clean_advice (view supplier.now t).advices)
            self.old self.new result };

    /// The pallets with these bytes as their supplier.
    fn pallets_of(&mut self, supplier: &[u8]) -> Result<Read<PalletRow>, StoreFault>
        ensures { Tells content honest (λ t. IsRead pallet_key clean_pallet (view supplier.now t).pallets)
            self.old self.new result };

    /// The contents with these bytes as the SSCC of their pallet.
    fn contents_on(&mut self, sscc: &[u8]) -> Result<Read<ContentRow>, StoreFault>
        ensures { Tells content honest (λ t. IsRead content_key clean_content (contents_of t sscc.now))
            self.old self.new result };

    /// The receipts with these bytes as the SSCC of their pallet.
    fn receipts_on(&mut self, sscc: &[u8]) -> Result<Read<ReceiptRow>, StoreFault>
        ensures { Tells content honest (λ t. IsRead receipt_key clean_receipt (receipts_of t sscc.now))
            self.old self.new result };

    /// The accepted messages and cancellations with these bytes as their supplier.
    fn remembered_of(&mut self, supplier: &[u8]) -> Result<Read<RememberedRow>, StoreFault>
        ensures { Tells content honest (λ t. IsRead remembered_key clean_remembered (view supplier.now t).remembered)
            self.old self.new result };

    /// The entries of mailboxes with these bytes as their supplier.
    fn mail_of(&mut self, supplier: &[u8]) -> Result<Read<MailRow>, StoreFault>
        ensures { Tells content honest (λ t. IsRead mail_key clean_mail (view supplier.now t).mail)
            self.old self.new result };

    /// Whether the supplier has an order of this number.
    fn order_known(&mut self, supplier: &Gln, number: &[u8]) -> Result<bool, StoreFault>
        ensures { Tells content honest (λ t known. known ≡ knows_order (view supplier.now t) number.now)
            self.old self.new result };

    /// Whether a pallet has the SSCC.
    fn used(&mut self, sscc: &Sscc) -> Result<bool, StoreFault>
        ensures { Tells content honest (λ t used. used ≡ has_pallet t sscc.now) self.old self.new result };

    /// Whether a pallet with the SSCC was received.
    fn received(&mut self, sscc: &Sscc) -> Result<bool, StoreFault>
        ensures { Tells content honest (λ t received. received ≡ was_received t sscc.now) self.old self.new result };

    /// The entry of a number of the supplier's mailbox.
    fn mail_item(&mut self, supplier: &Gln, number: u64) -> Result<Option<MailRow>, StoreFault>
        ensures { Tells content honest (λ t found. found ≡ entry_at (view supplier.now t) number)
            self.old self.new result };
}
