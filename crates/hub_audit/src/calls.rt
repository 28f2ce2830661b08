//! Answers what a check of all rows asks, each by a query.
ghost use Rattle.hub_pieces.specs.AllRows.{IsReadFault};

use crate::kinds;
use crate::next::next_value;
use crate::received::has_received_pallet;
use crate::register::register;
use crate::rows::HubRows;
use edi_base::Items;
use gs1_ids::{Gln, Sscc};
use hub_pieces::{AllRows, PieceKind, Read};
use hub_register::Register;
use hub_store::StoreFault;
use hub_tables::{
    AdviceRow, ContentRow, HubRow, KeyRow, LineRow, MailRow, OrderRow, PalletRow, PrefixRow,
    ReceiptRow, RememberedRow,
};
use sqlite::Alter;

// What a look-up fails with: a row that cannot be taken is not what the disk held when the file was opened or checked.
fn read_fault(fault: StoreFault) -> StoreFault
    ensures { IsReadFault result }
{
    match fault {
        StoreFault::Memory => StoreFault::Memory,
        StoreFault::Disk | StoreFault::Unclean | StoreFault::Version => StoreFault::Disk,
    }
}

impl<S: Alter> AllRows for HubRows<S> {
    ghost use Rattle.hub_audit.specs.Rows.{content, honest};

    ghost content = { content S.Store };

    ghost honest = { honest S.Store };

    fn register(&mut self) -> Result<Option<Register>, StoreFault> {
        register(&mut self.conn, self.alloc)
    }

    fn every_hub(&mut self) -> Result<Read<HubRow>, StoreFault> {
        kinds::every_hub(&mut self.conn, self.alloc)
    }

    fn every_supplier(&mut self) -> Result<Read<KeyRow>, StoreFault> {
        kinds::every_supplier(&mut self.conn, self.alloc)
    }

    fn every_prefix(&mut self) -> Result<Read<PrefixRow>, StoreFault> {
        kinds::every_prefix(&mut self.conn, self.alloc)
    }

    fn next_value(
        &mut self,
        kind: PieceKind,
        value: &[u8],
    ) -> Result<Option<Items<u8>>, StoreFault> {
        match next_value(&mut self.conn, kind, value) {
            Ok(found) => Ok(found),
            Err(fault) => Err(read_fault(fault)),
        }
    }

    fn orders_of(&mut self, supplier: &[u8]) -> Result<Read<OrderRow>, StoreFault> {
        kinds::orders_of(&mut self.conn, self.alloc, supplier)
    }

    fn lines_of(&mut self, supplier: &[u8]) -> Result<Read<LineRow>, StoreFault> {
        kinds::lines_of(&mut self.conn, self.alloc, supplier)
    }

    fn advices_of(&mut self, supplier: &[u8]) -> Result<Read<AdviceRow>, StoreFault> {
        kinds::advices_of(&mut self.conn, self.alloc, supplier)
    }

    fn pallets_of(&mut self, supplier: &[u8]) -> Result<Read<PalletRow>, StoreFault> {
        kinds::pallets_of(&mut self.conn, self.alloc, supplier)
    }

    fn contents_on(&mut self, sscc: &[u8]) -> Result<Read<ContentRow>, StoreFault> {
        kinds::contents_on(&mut self.conn, self.alloc, sscc)
    }

    fn receipts_on(&mut self, sscc: &[u8]) -> Result<Read<ReceiptRow>, StoreFault> {
        kinds::receipts_on(&mut self.conn, self.alloc, sscc)
    }

    fn remembered_of(&mut self, supplier: &[u8]) -> Result<Read<RememberedRow>, StoreFault> {
        kinds::remembered_of(&mut self.conn, self.alloc, supplier)
    }

    fn mail_of(&mut self, supplier: &[u8]) -> Result<Read<MailRow>, StoreFault> {
        kinds::mail_of(&mut self.conn, self.alloc, supplier)
    }

    fn order_known(&mut self, supplier: &Gln, number: &[u8]) -> Result<bool, StoreFault> {
        match hub_reads::order_known(&mut self.conn, supplier, number) {
            Ok(known) => Ok(known),
            Err(fault) => Err(read_fault(fault)),
        }
    }

    fn used(&mut self, sscc: &Sscc) -> Result<bool, StoreFault> {
        match hub_reads::used(&mut self.conn, sscc) {
            Ok(used) => Ok(used),
            Err(fault) => Err(read_fault(fault)),
        }
    }

    fn received(&mut self, sscc: &Sscc) -> Result<bool, StoreFault> {
        match has_received_pallet(&mut self.conn, sscc) {
            Ok(received) => Ok(received),
            Err(fault) => Err(read_fault(fault)),
        }
    }

    fn mail_item(&mut self, supplier: &Gln, number: u64) -> Result<Option<MailRow>, StoreFault> {
        match hub_reads::mail_item(&mut self.conn, supplier, number) {
            Ok(entry) => Ok(entry),
            Err(fault) => Err(read_fault(fault)),
        }
    }
}
