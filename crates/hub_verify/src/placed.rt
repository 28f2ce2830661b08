//! Says of a row whether what it names is there.
ghost use Rattle.std.specs.Prelude.{◌≡◌, Bool, IfOk};
ghost use Rattle.std.proofs.Common.{inl};
ghost use Rattle.hub_sound.specs.Finding as keys;
ghost use Rattle.hub_sound.specs.Showing as showing;
ghost use Rattle.hub_tables.specs.Tables.{Tables};
ghost use Rattle.hub_pieces.specs.AllRows.{Tells};

use edi_base::MemoryFault;
use hub_pieces::{AllRows, PieceRow};
use hub_sound::{Finding, content_finding, line_finding, mail_finding, receipt_finding};
use hub_store::StoreFault;
use hub_tables::{ContentRow, LineRow, MailRow, ReceiptRow};
use std::alloc::Global;

/// A row that names others.
pub(crate) trait Placed: PieceRow {
    /// Whether what the row names is there.
    ghost in_place: { Tables → Self → Bool };

    /// Whether what the row names is there.
    fn is_placed<S: AllRows>(&self, store: &mut S) -> Result<bool, StoreFault>
        ensures { Tells S.content S.honest (λ t placed. placed ≡ in_place t self.now) store.old store.new result };

    /// Names the row.
    fn finding(&self, alloc: Global) -> Result<Finding, MemoryFault>
        ensures { IfOk result (λ found. (found.kind ≡ Self.named) × (found.key ≡ Self.key_of self.now)) };

    /// One that is not in its place shows it.
    ghost shows_unsound: { (t : Tables) (key : keys.RowKey) →
        showing.FailsTest Self.key_of (in_place t) (Self.rows t) key → showing.ShowsUnsound t Self.named key };
}

impl Placed for LineRow {
    ghost in_place = { showing.has_order };

    ghost shows_unsound = { λ t key it. inl it };

    fn is_placed<S: AllRows>(&self, store: &mut S) -> Result<bool, StoreFault> {
        let number = self.number.as_slice();
        store.order_known(&self.supplier, number)
    }

    fn finding(&self, alloc: Global) -> Result<Finding, MemoryFault> {
        line_finding(alloc, self)
    }
}

impl Placed for ContentRow {
    ghost in_place = { showing.is_on_pallet };

    ghost shows_unsound = { λ t key it. inl it };

    fn is_placed<S: AllRows>(&self, store: &mut S) -> Result<bool, StoreFault> {
        store.used(&self.sscc)
    }

    fn finding(&self, alloc: Global) -> Result<Finding, MemoryFault> {
        content_finding(alloc, self)
    }
}

impl Placed for ReceiptRow {
    ghost in_place = { showing.is_of_received };

    ghost shows_unsound = { λ t key it. it };

    fn is_placed<S: AllRows>(&self, store: &mut S) -> Result<bool, StoreFault> {
        store.received(&self.sscc)
    }

    fn finding(&self, alloc: Global) -> Result<Finding, MemoryFault> {
        receipt_finding(alloc, self)
    }
}

impl Placed for MailRow {
    ghost in_place = { showing.goes_on };

    ghost shows_unsound = { λ t key it. it };

    fn is_placed<S: AllRows>(&self, store: &mut S) -> Result<bool, StoreFault> {
        if self.number == 1 {
            return Ok(true);
        }
        let before = store.mail_item(&self.supplier, self.number.saturating_sub(1))?;
        Ok(before.is_some())
    }

    fn finding(&self, alloc: Global) -> Result<Finding, MemoryFault> {
        mail_finding(alloc, self)
    }
}
