//! Implements the calls of the store: each look-up by one of the connection's, and each commit as one transaction.
ghost use Rattle.std.specs.Prelude.{false};
ghost use Rattle.std.proofs.Common.{inl, refl};
ghost use Rattle.std.proofs.lemmas.Bool.{false≢true};

use crate::mailbox::list_after;
use crate::marks::lower_marks;
use crate::register::held_register;
use crate::store::{SqliteStore, again, settle};
use edi_base::Items;
use gs1_ids::{Gln, Sscc};
use hub_register::Register;
use hub_store::{LastingFault, MailHead, Store, StoreFault};
use hub_tables::{Change, ContentRow, LineRow, MailRow, PalletRow, ReceiptRow, Side};
use sqlite::Alter;
use std::collections::BTreeSet;

impl<S: Alter> Store for SqliteStore<S> {
    ghost use Rattle.hub_sql.specs.Stored.{content, honest, left};

    ghost content = { content S.Store };

    ghost honest = { honest S.Store };

    ghost left = { left S.Store };

    ghost broken = { λ s. s.fault };

    ghost plain = { false };

    ghost there = { λ store clean. inl refl };

    ghost plainly = { λ is store. absurd (false≢true is) };

    ghost kept = { λ is store t _. absurd (false≢true is) };

    fn fault(&self) -> Option<LastingFault> {
        self.fault
    }

    fn register(&mut self) -> Result<Register, StoreFault> {
        if let Some(lasting) = self.fault {
            return Err(again(lasting));
        }
        if let Some(register) = self.register.take() {
            return Ok(register);
        }
        let found = held_register(&mut self.conn, self.alloc);
        settle(found, self.conn.schema(), &mut self.fault)
    }

    fn remembered(
        &mut self,
        supplier: &Gln,
        side: Side,
        control: &[u8],
        message: &[u8],
    ) -> Result<Option<Items<u8>>, StoreFault> {
        if let Some(lasting) = self.fault {
            return Err(again(lasting));
        }
        let found = hub_reads::remembered_content(&mut self.conn, supplier, side, control, message);
        settle(found, self.conn.schema(), &mut self.fault)
    }

    fn matches_remembered(
        &mut self,
        supplier: &Gln,
        side: Side,
        control: &[u8],
        message: &[u8],
        text: &[u8],
    ) -> Result<Option<bool>, StoreFault> {
        if let Some(lasting) = self.fault {
            return Err(again(lasting));
        }
        let conn = &mut self.conn;
        let found = hub_reads::matches_remembered(conn, supplier, side, control, message, text);
        settle(found, self.conn.schema(), &mut self.fault)
    }

    fn order_known(&mut self, supplier: &Gln, number: &[u8]) -> Result<bool, StoreFault> {
        if let Some(lasting) = self.fault {
            return Err(again(lasting));
        }
        let found = hub_reads::order_known(&mut self.conn, supplier, number);
        settle(found, self.conn.schema(), &mut self.fault)
    }

    fn lines_of(&mut self, supplier: &Gln, number: &[u8]) -> Result<Items<LineRow>, StoreFault> {
        if let Some(lasting) = self.fault {
            return Err(again(lasting));
        }
        let found = hub_reads::lines_of(&mut self.conn, self.alloc, supplier, number);
        settle(found, self.conn.schema(), &mut self.fault)
    }

    fn lines_at(
        &mut self,
        supplier: &Gln,
        number: &[u8],
        lines: &BTreeSet<u32>,
    ) -> Result<Items<LineRow>, StoreFault> {
        if let Some(lasting) = self.fault {
            return Err(again(lasting));
        }
        let found = hub_reads::lines_at(&mut self.conn, self.alloc, supplier, number, lines);
        settle(found, self.conn.schema(), &mut self.fault)
    }

    fn advice_known(&mut self, supplier: &Gln, number: &[u8]) -> Result<bool, StoreFault> {
        if let Some(lasting) = self.fault {
            return Err(again(lasting));
        }
        let found = hub_reads::advice_known(&mut self.conn, supplier, number);
        settle(found, self.conn.schema(), &mut self.fault)
    }

    fn pallet(&mut self, supplier: &Gln, sscc: &Sscc) -> Result<Option<PalletRow>, StoreFault> {
        if let Some(lasting) = self.fault {
            return Err(again(lasting));
        }
        let found = hub_reads::pallet_of(&mut self.conn, supplier, sscc);
        settle(found, self.conn.schema(), &mut self.fault)
    }

    fn last_mail(&mut self, supplier: &Gln) -> Result<u64, StoreFault> {
        if let Some(lasting) = self.fault {
            return Err(again(lasting));
        }
        let found = hub_reads::last_mail(&mut self.conn, supplier);
        settle(found, self.conn.schema(), &mut self.fault)
    }

    fn mail_item(&mut self, supplier: &Gln, number: u64) -> Result<Option<MailRow>, StoreFault> {
        if let Some(lasting) = self.fault {
            return Err(again(lasting));
        }
        let found = hub_reads::mail_item(&mut self.conn, supplier, number);
        settle(found, self.conn.schema(), &mut self.fault)
    }

    fn mail_after(
        &mut self,
        supplier: &Gln,
        number: u64,
        limit: usize,
    ) -> Result<Items<MailHead>, StoreFault> {
        if let Some(lasting) = self.fault {
            return Err(again(lasting));
        }
        let found = list_after(
            &mut self.conn,
            self.alloc,
            &mut self.marks,
            supplier,
            number,
            limit,
        );
        settle(found, self.conn.schema(), &mut self.fault)
    }

    fn all_lines(&mut self, supplier: &Gln) -> Result<Items<LineRow>, StoreFault> {
        if let Some(lasting) = self.fault {
            return Err(again(lasting));
        }
        let found = hub_reads::all_lines(&mut self.conn, self.alloc, supplier);
        settle(found, self.conn.schema(), &mut self.fault)
    }

    fn all_pallets(&mut self, supplier: &Gln) -> Result<Items<PalletRow>, StoreFault> {
        if let Some(lasting) = self.fault {
            return Err(again(lasting));
        }
        let found = hub_reads::all_pallets(&mut self.conn, self.alloc, supplier);
        settle(found, self.conn.schema(), &mut self.fault)
    }

    fn contents_of(
        &mut self,
        supplier: &Gln,
        sscc: &Sscc,
    ) -> Result<Items<ContentRow>, StoreFault> {
        if let Some(lasting) = self.fault {
            return Err(again(lasting));
        }
        let found = hub_reads::contents_of(&mut self.conn, self.alloc, supplier, sscc);
        settle(found, self.conn.schema(), &mut self.fault)
    }

    fn contents_on(&mut self, sscc: &Sscc) -> Result<Items<ContentRow>, StoreFault> {
        if let Some(lasting) = self.fault {
            return Err(again(lasting));
        }
        let found = hub_reads::contents_on(&mut self.conn, self.alloc, sscc);
        settle(found, self.conn.schema(), &mut self.fault)
    }

    fn receipts_of(
        &mut self,
        supplier: &Gln,
        sscc: &Sscc,
    ) -> Result<Items<ReceiptRow>, StoreFault> {
        if let Some(lasting) = self.fault {
            return Err(again(lasting));
        }
        let found = hub_reads::receipts_of(&mut self.conn, self.alloc, supplier, sscc);
        settle(found, self.conn.schema(), &mut self.fault)
    }

    fn receipts_on(&mut self, sscc: &Sscc) -> Result<Items<ReceiptRow>, StoreFault> {
        if let Some(lasting) = self.fault {
            return Err(again(lasting));
        }
        let found = hub_reads::receipts_on(&mut self.conn, self.alloc, sscc);
        settle(found, self.conn.schema(), &mut self.fault)
    }

    fn used(&mut self, sscc: &Sscc) -> Result<bool, StoreFault> {
        if let Some(lasting) = self.fault {
            return Err(again(lasting));
        }
        let found = hub_reads::used(&mut self.conn, sscc);
        settle(found, self.conn.schema(), &mut self.fault)
    }

    fn commit(&mut self, changes: &[Change]) -> Result<(), StoreFault> {
        if let Some(lasting) = self.fault {
            return Err(again(lasting));
        }
        match hub_writes::commit(&mut self.conn, changes) {
            Ok(()) => {
                self.register = None;
                lower_marks(&mut self.marks, changes);
                self.past = self.past.and(&self.conn, &true);
                Ok(())
            }
            Err(fault) => settle(Err(fault), self.conn.schema(), &mut self.fault),
        }
    }
}
