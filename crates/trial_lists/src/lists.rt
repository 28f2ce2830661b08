//! Keeps a list of rows for each kind, and changes the lists.
ghost use Rattle.std.specs.Prelude.{◌≡◌, ℕ, ◌+◌, length, IfOk, OnOk};
ghost use Rattle.hub_tables.specs.Change.{apply, apply_all};
ghost use Rattle.hub_tables.specs.Sets.{Rising, Fit};
ghost use Rattle.trial_lists.specs.Lists.{tables_in, AreInOrder, Room};

use crate::index::{EntryKey, PalletKey, put_indexed, set_indexed};
use crate::table::{clear_receipts, put_row, set_row};
use edi_base::MemoryFault;
use hub_tables::{
    AdviceRow, Change, ContentRow, HubRow, KeyRow, LineRow, MailRow, OrderRow, PalletRow,
    PrefixRow, ReceiptRow, RememberedRow,
};
use std::alloc::Global;
use trial_rows::Row;

/// A list of rows for each kind, and two indexes: the mailbox entries that are not taken, and each supplier's pallets.
#[derive(Debug, Drop)]
pub(crate) struct Lists {
    pub(crate) hubs: Vec<HubRow>,
    pub(crate) keys: Vec<KeyRow>,
    pub(crate) prefixes: Vec<PrefixRow>,
    pub(crate) orders: Vec<OrderRow>,
    pub(crate) lines: Vec<LineRow>,
    pub(crate) advices: Vec<AdviceRow>,
    pub(crate) pallets: Vec<PalletRow>,
    pub(crate) contents: Vec<ContentRow>,
    pub(crate) receipts: Vec<ReceiptRow>,
    pub(crate) remembered: Vec<RememberedRow>,
    pub(crate) mail: Vec<MailRow>,
    pub(crate) untaken: Vec<EntryKey>,
    pub(crate) owned: Vec<PalletKey>,
}

/// Reserves room for `count` more rows of each kind.
pub(crate) fn take_room(lists: &mut Lists, count: usize) -> Result<(), MemoryFault>
    requires kept { AreInOrder lists.old }
    ensures kept { AreInOrder lists.new }
    ensures same { tables_in lists.new ≡ tables_in lists.old }
    ensures room { OnOk result (Room count lists.new) }
{
    lists.hubs.try_reserve(count)?;
    lists.keys.try_reserve(count)?;
    lists.prefixes.try_reserve(count)?;
    lists.orders.try_reserve(count)?;
    lists.lines.try_reserve(count)?;
    lists.advices.try_reserve(count)?;
    lists.pallets.try_reserve(count)?;
    lists.contents.try_reserve(count)?;
    lists.receipts.try_reserve(count)?;
    lists.remembered.try_reserve(count)?;
    lists.mail.try_reserve(count)?;
    lists.untaken.try_reserve(count)?;
    lists.owned.try_reserve(count)?;
    Ok(())
}

/// Copies a change.
pub(crate) fn copy_of(alloc: Global, change: &Change) -> Result<Change, MemoryFault>
    ensures { IfOk result (λ copy. copy ≡ change.now) }
{
    Ok(match change {
        Change::AddHub(row) => Change::AddHub(row.copy(alloc)?),
        Change::SetHub(row) => Change::SetHub(row.copy(alloc)?),
        Change::AddKey(row) => Change::AddKey(row.copy(alloc)?),
        Change::SetKey(row) => Change::SetKey(row.copy(alloc)?),
        Change::AddPrefix(row) => Change::AddPrefix(row.copy(alloc)?),
        Change::AddOrder(row) => Change::AddOrder(row.copy(alloc)?),
        Change::AddLine(row) => Change::AddLine(row.copy(alloc)?),
        Change::SetLine(row) => Change::SetLine(row.copy(alloc)?),
        Change::AddAdvice(row) => Change::AddAdvice(row.copy(alloc)?),
        Change::AddPallet(row) => Change::AddPallet(row.copy(alloc)?),
        Change::SetPallet(row) => Change::SetPallet(row.copy(alloc)?),
        Change::AddContent(row) => Change::AddContent(row.copy(alloc)?),
        Change::AddReceipt(row) => Change::AddReceipt(row.copy(alloc)?),
        Change::ClearReceipts(sscc) => Change::ClearReceipts(*sscc),
        Change::Remember(row) => Change::Remember(row.copy(alloc)?),
        Change::AddMail(row) => Change::AddMail(row.copy(alloc)?),
        Change::SetMail(row) => Change::SetMail(row.copy(alloc)?),
    })
}

/// Makes a change, for which there is room. Where it does not fit to the rows, it is left out.
pub(crate) fn apply_one(lists: &mut Lists, change: Change)
    requires room { Room 1 lists.old }
    requires kept { AreInOrder lists.old }
    ensures kept { AreInOrder lists.new }
    ensures tables { Rising (apply change (tables_in lists.old)) →
        tables_in lists.new ≡ apply change (tables_in lists.old) }
    ensures room { (n : ℕ) → Room (n + 1) lists.old → Room n lists.new }
{
    match change {
        Change::AddHub(row) => put_row(&mut lists.hubs, row),
        Change::SetHub(row) => set_row(&mut lists.hubs, row),
        Change::AddKey(row) => put_row(&mut lists.keys, row),
        Change::SetKey(row) => set_row(&mut lists.keys, row),
        Change::AddPrefix(row) => put_row(&mut lists.prefixes, row),
        Change::AddOrder(row) => put_row(&mut lists.orders, row),
        Change::AddLine(row) => put_row(&mut lists.lines, row),
        Change::SetLine(row) => set_row(&mut lists.lines, row),
        Change::AddAdvice(row) => put_row(&mut lists.advices, row),
        Change::AddPallet(row) => put_indexed(&mut lists.pallets, &mut lists.owned, row),
        Change::SetPallet(row) => set_indexed(&mut lists.pallets, &mut lists.owned, row),
        Change::AddContent(row) => put_row(&mut lists.contents, row),
        Change::AddReceipt(row) => put_row(&mut lists.receipts, row),
        Change::ClearReceipts(sscc) => clear_receipts(&mut lists.receipts, &sscc),
        Change::Remember(row) => put_row(&mut lists.remembered, row),
        Change::AddMail(row) => put_indexed(&mut lists.mail, &mut lists.untaken, row),
        Change::SetMail(row) => set_indexed(&mut lists.mail, &mut lists.untaken, row),
    }
}

/// Copies changes.
pub(crate) fn copies_of(alloc: Global, changes: &[Change]) -> Result<Vec<Change>, MemoryFault>
    ensures { IfOk result (λ copies. copies.items ≡ changes.now) }
{
    let mut copies = Vec::new(alloc);
    for change in changes {
        copies.push(copy_of(alloc, change)?)?;
    }
    Ok(copies)
}

/// Makes changes for which there is room, one after another. Each that does not fit the rows is left out.
pub(crate) fn apply_each(lists: &mut Lists, changes: Vec<Change>)
    requires room { Room (length changes.items) lists.old }
    requires kept { AreInOrder lists.old }
    ensures kept { AreInOrder lists.new }
    ensures tables { Fit changes.items (tables_in lists.old) →
        tables_in lists.new ≡ apply_all changes.items (tables_in lists.old) }
{
    for change in changes {
        apply_one(lists, change);
    }
}
