//! Stores the tables of a hub in plain lists.
ghost use Rattle.std.specs.Prelude.{◌≡◌, IfOk};
ghost use Rattle.hub_tables.specs.Register.{founded};
ghost use Rattle.hub_tables.specs.Tables.{empty};
ghost use Rattle.trial_lists.specs.Lists.{tables_in, AreInOrder};

use crate::key::{AboveNumber, ByReference};
use crate::lists::{Lists, apply_each, copies_of, take_room};
use crate::look;
use edi_base::{Items, MemoryFault};
use gs1_ids::{Gln, Sscc};
use hub_founding::{register_changes, register_of};
use hub_register::Register;
use hub_store::{LastingFault, MailHead, Store, StoreFault};
use hub_tables::{Change, ContentRow, LineRow, MailRow, PalletRow, ReceiptRow, Side};
use std::alloc::Global;
use std::collections::BTreeSet;
use std::marker::Model;

/// A store of plain lists, in memory. Its faults are `StoreFault::Memory`, of a look-up whose result finds no memory
/// and of a commit whose changes find none, and `StoreFault::Unclean`, of `register` if the rows do not form a
/// register. A commit leaves out rows to add whose key exists already, and rows to set whose key does not exist.
///
/// A look-up takes a binary search and a copy of its result; `lines_at` searches for each number, and `all_pallets` and
/// `mail_after` search in an index, and then for each row of their result. A commit moves the rows and keys that come
/// after a new one.
#[derive(Debug, Drop)]
pub struct VecStore {
    alloc: Global,
    lists: Lists,
}

impl Model for VecStore {
    ghost use Rattle.hub_tables.specs.Tables.{Tables};
    ghost use Rattle.trial_lists.specs.Lists.{tables_in, AreInOrder};

    ghost Value = { Tables };

    ghost view = { λ store. tables_in store.lists };

    ghost invariant = { λ store. AreInOrder store.lists };
}

// Makes lists without rows, without allocating memory.
fn no_rows(alloc: Global) -> Lists
    ensures none { tables_in result ≡ empty }
    ensures kept { AreInOrder result }
{
    Lists {
        hubs: Vec::new(alloc),
        keys: Vec::new(alloc),
        prefixes: Vec::new(alloc),
        orders: Vec::new(alloc),
        lines: Vec::new(alloc),
        advices: Vec::new(alloc),
        pallets: Vec::new(alloc),
        contents: Vec::new(alloc),
        receipts: Vec::new(alloc),
        remembered: Vec::new(alloc),
        mail: Vec::new(alloc),
        untaken: Vec::new(alloc),
        owned: Vec::new(alloc),
    }
}

impl VecStore {
    /// Makes a store that has only the rows of a register.
    pub fn new(alloc: Global, register: &Register) -> Result<VecStore, MemoryFault>
        ensures { IfOk result (λ store. store ≡ founded register.now) }
    {
        let changes = register_changes(alloc, register)?;
        let mut lists = no_rows(alloc);
        take_room(&mut lists, changes.len())?;
        apply_each(&mut lists, changes);
        Ok(VecStore { alloc, lists })
    }
}

impl Store for VecStore {
    ghost use Rattle.std.specs.Prelude.{◌≡◌, true, None, ⊤, refl};

    ghost content = { λ t. t };

    ghost honest = { λ t. ⊤ };

    ghost left = { λ t u. u ≡ t };

    ghost broken = { λ t. None };

    ghost plain = { true };

    fn fault(&self) -> Option<LastingFault> {
        None
    }

    fn register(&mut self) -> Result<Register, StoreFault> {
        let hubs = self.lists.hubs.as_slice();
        let keys = self.lists.keys.as_slice();
        let prefixes = self.lists.prefixes.as_slice();
        let Some(register) = register_of(self.alloc, hubs, keys, prefixes)? else {
            // The store is not broken by this: later calls still read the rows as they are.
            return Err(StoreFault::Unclean);
        };
        Ok(register)
    }

    fn remembered(
        &mut self,
        supplier: &Gln,
        side: Side,
        control: &[u8],
        message: &[u8],
    ) -> Result<Option<Items<u8>>, StoreFault> {
        let rows = self.lists.remembered.as_slice();
        let reference = ByReference {
            supplier,
            side,
            control,
            message,
        };
        Ok(look::remembered_with(self.alloc, rows, &reference)?)
    }

    fn matches_remembered(
        &mut self,
        supplier: &Gln,
        side: Side,
        control: &[u8],
        message: &[u8],
        text: &[u8],
    ) -> Result<Option<bool>, StoreFault> {
        let remembered = self.lists.remembered.as_slice();
        let reference = ByReference {
            supplier,
            side,
            control,
            message,
        };
        Ok(look::matches_remembered(remembered, &reference, text))
    }

    fn order_known(&mut self, supplier: &Gln, number: &[u8]) -> Result<bool, StoreFault> {
        let orders = self.lists.orders.as_slice();
        Ok(look::has_order(orders, supplier, number))
    }

    fn lines_of(&mut self, supplier: &Gln, number: &[u8]) -> Result<Items<LineRow>, StoreFault> {
        let lines = self.lists.lines.as_slice();
        Ok(look::lines_with(self.alloc, lines, supplier, number)?)
    }

    fn lines_at(
        &mut self,
        supplier: &Gln,
        number: &[u8],
        lines: &BTreeSet<u32>,
    ) -> Result<Items<LineRow>, StoreFault> {
        let rows = self.lists.lines.as_slice();
        Ok(look::lines_at(self.alloc, rows, supplier, number, lines)?)
    }

    fn advice_known(&mut self, supplier: &Gln, number: &[u8]) -> Result<bool, StoreFault> {
        let advices = self.lists.advices.as_slice();
        Ok(look::has_advice(advices, supplier, number))
    }

    fn pallet(&mut self, supplier: &Gln, sscc: &Sscc) -> Result<Option<PalletRow>, StoreFault> {
        let pallets = self.lists.pallets.as_slice();
        Ok(look::pallet_with(self.alloc, pallets, supplier, sscc)?)
    }

    fn last_mail(&mut self, supplier: &Gln) -> Result<u64, StoreFault> {
        let mail = self.lists.mail.as_slice();
        Ok(look::last_number(mail, supplier))
    }

    fn mail_item(&mut self, supplier: &Gln, number: u64) -> Result<Option<MailRow>, StoreFault> {
        let mail = self.lists.mail.as_slice();
        Ok(look::entry_with(self.alloc, mail, supplier, number)?)
    }

    fn mail_after(
        &mut self,
        supplier: &Gln,
        number: u64,
        limit: usize,
    ) -> Result<Items<MailHead>, StoreFault> {
        let mail = self.lists.mail.as_slice();
        let untaken = self.lists.untaken.as_slice();
        let above = AboveNumber { supplier, number };
        Ok(look::heads_after(self.alloc, mail, untaken, &above, limit)?)
    }

    fn all_lines(&mut self, supplier: &Gln) -> Result<Items<LineRow>, StoreFault> {
        let lines = self.lists.lines.as_slice();
        Ok(look::lines_from(self.alloc, lines, supplier)?)
    }

    fn all_pallets(&mut self, supplier: &Gln) -> Result<Items<PalletRow>, StoreFault> {
        let pallets = self.lists.pallets.as_slice();
        let owned = self.lists.owned.as_slice();
        Ok(look::pallets_from(self.alloc, pallets, owned, supplier)?)
    }

    fn contents_of(
        &mut self,
        supplier: &Gln,
        sscc: &Sscc,
    ) -> Result<Items<ContentRow>, StoreFault> {
        let contents = self.lists.contents.as_slice();
        let pallets = self.lists.pallets.as_slice();
        Ok(look::contents_of(self.alloc, contents, pallets, supplier, sscc)?)
    }

    fn contents_on(&mut self, sscc: &Sscc) -> Result<Items<ContentRow>, StoreFault> {
        let contents = self.lists.contents.as_slice();
        Ok(look::contents_on(self.alloc, contents, sscc)?)
    }

    fn receipts_of(
        &mut self,
        supplier: &Gln,
        sscc: &Sscc,
    ) -> Result<Items<ReceiptRow>, StoreFault> {
        let receipts = self.lists.receipts.as_slice();
        let pallets = self.lists.pallets.as_slice();
        Ok(look::receipts_of(self.alloc, receipts, pallets, supplier, sscc)?)
    }

    fn receipts_on(&mut self, sscc: &Sscc) -> Result<Items<ReceiptRow>, StoreFault> {
        let receipts = self.lists.receipts.as_slice();
        Ok(look::receipts_on(self.alloc, receipts, sscc)?)
    }

    fn used(&mut self, sscc: &Sscc) -> Result<bool, StoreFault> {
        Ok(look::has_sscc(self.lists.pallets.as_slice(), sscc))
    }

    fn commit(&mut self, changes: &[Change]) -> Result<(), StoreFault> {
        let copies = copies_of(self.alloc, changes)?;
        take_room(&mut self.lists, copies.len())?;
        apply_each(&mut self.lists, copies);
        Ok(())
    }

    ghost there = { λ store _. refl };

    ghost plainly = { λ _ store. tt };

    ghost kept = { λ _ store t same. same };
}
