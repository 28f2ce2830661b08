//! Looks up rows in lists that are sorted by key.
ghost use Rattle.std.specs.Prelude.{◌≡◌, ◌≤◌, ◌==◌, ◌&&◌, true, None, filter, find, length};
ghost use Rattle.std.specs.Prelude.{◌++◌, map, take, slice_get, option_map, nat_lt, not, IfOk, OnOk};
ghost use Rattle.std.specs.List.{list_any, last_or, filter_map, flat_map};
ghost use Rattle.std.specs.Option.{unwrap_or};
ghost use Rattle.hub_tables.specs.Cases.{side_letter};
ghost use Rattle.hub_tables.specs.Rows.{same, order_cmp, line_cmp, advice_cmp, pallet_cmp, content_cmp, receipt_cmp, remembered_cmp};
ghost use Rattle.hub_tables.specs.Rows.{mail_cmp};
ghost use Rattle.hub_parties.specs.KeyOrder.{Rises};
ghost use Rattle.hub_tables.specs.State.{is_taken};
ghost use Rattle.hub_tables.specs.Tables.{holds};
ghost use Rattle.hub_store.specs.Heads.{head_of};
ghost use Rattle.trial_lists.specs.Index.{IsIndex, entry_cmp, entry_key, is_untaken, owned_cmp, owned_key};

use crate::index::{EntryKey, PalletKey};
use crate::key::{AboveNumber, ByPallet, ByReference, BySupplier, LineAt, WithNumber};
use edi_base::{Items, MemoryFault, copy_bytes};
use gs1_ids::{Gln, Sscc};
use hub_store::MailHead;
use hub_tables::{
    AdviceRow, Column, ContentRow, LineRow, MailRow, OrderRow, PalletRow, ReceiptRow,
    RememberedRow, Side,
};
use std::alloc::Global;
use std::collections::BTreeSet;
use trial_rows::{Row, SearchKey, rows_at};

// Copies rows.
fn copies<T: Row>(alloc: Global, rows: &[T]) -> Result<Items<T>, MemoryFault>
    ensures { IfOk result (λ copies. copies ≡ rows.now) }
{
    let mut copies = Items::new(alloc);
    for row in rows {
        copies.push(row.copy(alloc)?)?;
    }
    Ok(copies)
}

// Copies the first row.
fn first_copy<T: Row>(alloc: Global, rows: &[T]) -> Result<Option<T>, MemoryFault>
    ensures { IfOk result (λ first. first ≡ slice_get rows.now 0) }
{
    match rows.first() {
        Some(row) => Ok(Some(row.copy(alloc)?)),
        None => Ok(None),
    }
}

// Copies the rows that the keys search for, the first for each key.
fn copies_at<T: Row, K: SearchKey<T>>(
    alloc: Global,
    rows: &[T],
    keys: &[K],
) -> Result<Items<T>, MemoryFault>
    requires { Rises T.compared rows.now }
    ensures { IfOk result (λ found. found ≡ filter_map (λ key. find (K.wanted key) rows.now) keys.now) }
{
    let mut found = Items::new(alloc);
    for key in keys {
        if let Some(row) = rows_at(rows, key).first() {
            found.push(row.copy(alloc)?)?;
        }
    }
    Ok(found)
}

// Returns what a list shows of a mailbox entry.
fn head(alloc: Global, entry: &MailRow) -> Result<MailHead, MemoryFault>
    ensures { IfOk result (λ head. head ≡ head_of entry.now) }
{
    Ok(MailHead {
        number: entry.number,
        kind: Column::of(entry.kind.case()),
        document: copy_bytes(alloc, entry.document.as_slice())?,
    })
}

// Returns what a list shows of the entries that the keys search for, the first for each key.
fn heads_at(
    alloc: Global,
    mail: &[MailRow],
    keys: &[EntryKey],
) -> Result<Items<MailHead>, MemoryFault>
    requires { Rises mail_cmp mail.now }
    ensures { IfOk result (λ heads. heads ≡ map head_of (filter_map (λ key. find (λ row.
        same row.supplier key.supplier && (row.number == key.number)) mail.now) keys.now)) }
{
    let mut heads = Items::new(alloc);
    for key in keys {
        if let Some(entry) = rows_at(mail, key).first() {
            heads.push(head(alloc, entry)?)?;
        }
    }
    Ok(heads)
}

/// Returns the content that is remembered for a side of a supplier under two references.
pub(crate) fn remembered_with(
    alloc: Global,
    rows: &[RememberedRow],
    reference: &ByReference<'_>,
) -> Result<Option<Items<u8>>, MemoryFault>
    requires { Rises remembered_cmp rows.now }
    ensures { IfOk result (λ found.
        found ≡ option_map (λ row. row.content) (find (λ row. (row.side == side_letter reference.now.side)
        && (same row.control reference.now.control.now && same row.message reference.now.message.now))
        (filter (λ row. same row.supplier reference.now.supplier.now) rows.now))) }
{
    match rows_at(rows, reference).first() {
        Some(row) => Ok(Some(copy_bytes(alloc, row.content.as_slice())?)),
        None => Ok(None),
    }
}

/// Returns whether this text is the content that is remembered for a side of a supplier under two references, or
/// `None` if nothing is remembered.
pub(crate) fn matches_remembered(
    rows: &[RememberedRow],
    reference: &ByReference<'_>,
    text: &[u8],
) -> Option<bool>
    requires { Rises remembered_cmp rows.now }
    ensures { result ≡ option_map (λ there. same there text.now)
        (option_map (λ row. row.content) (find (λ row. (row.side == side_letter reference.now.side)
        && (same row.control reference.now.control.now && same row.message reference.now.message.now))
        (filter (λ row. same row.supplier reference.now.supplier.now) rows.now))) }
{
    match rows_at(rows, reference).first() {
        Some(row) => Some(row.content.as_slice() == text),
        None => None,
    }
}

/// Whether the supplier has an order with this number.
#[tactic(auto, using(crate::proofs::Filters::any_of_both))]
pub(crate) fn has_order(orders: &[OrderRow], supplier: &Gln, number: &[u8]) -> bool
    requires { Rises order_cmp orders.now }
    ensures { result ≡ list_any (λ order. same order.number number.now)
        (filter (λ row. same row.supplier supplier.now) orders.now) }
{
    !rows_at(orders, &WithNumber { supplier, number }).is_empty()
}

/// Whether the supplier has an advice with this number.
#[tactic(auto, using(crate::proofs::Filters::any_of_both))]
pub(crate) fn has_advice(advices: &[AdviceRow], supplier: &Gln, number: &[u8]) -> bool
    requires { Rises advice_cmp advices.now }
    ensures { result ≡ list_any (λ advice. same advice.number number.now)
        (filter (λ row. same row.supplier supplier.now) advices.now) }
{
    !rows_at(advices, &WithNumber { supplier, number }).is_empty()
}

/// Returns the lines of a supplier's order.
pub(crate) fn lines_with(
    alloc: Global,
    lines: &[LineRow],
    supplier: &Gln,
    number: &[u8],
) -> Result<Items<LineRow>, MemoryFault>
    requires { Rises line_cmp lines.now }
    ensures { IfOk result (λ found. found ≡ filter (λ line.
        same line.number number.now) (filter (λ row. same row.supplier supplier.now) lines.now)) }
{
    copies(alloc, rows_at(lines, &WithNumber { supplier, number }))
}

// Returns the lines of a supplier's order that have this line number.
fn lines_at_number(
    alloc: Global,
    lines: &[LineRow],
    at: &LineAt<'_>,
) -> Result<Items<LineRow>, MemoryFault>
    requires { Rises line_cmp lines.now }
    ensures { IfOk result (λ found. found ≡ filter (λ line. line.line == at.now.line)
        (filter (λ line. same line.number at.now.number.now)
        (filter (λ row. same row.supplier at.now.supplier.now) lines.now))) }
{
    copies(alloc, rows_at(lines, at))
}

fn put_rows(found: &mut Items<LineRow>, rows: Items<LineRow>) -> Result<(), MemoryFault>
    ensures { OnOk result (found.new ≡ found.old ++ rows) }
{
    for row in rows.into_vec() {
        found.push(row)?;
    }
    Ok(())
}

/// Returns the lines of a supplier's order that have one of these line numbers, number by number.
pub(crate) fn lines_at(
    alloc: Global,
    lines: &[LineRow],
    supplier: &Gln,
    number: &[u8],
    numbers: &BTreeSet<u32>,
) -> Result<Items<LineRow>, MemoryFault>
    requires { Rises line_cmp lines.now }
    ensures { IfOk result (λ found. found ≡ flat_map (λ n. filter (λ line. line.line == n)
        (filter (λ line. same line.number number.now)
        (filter (λ row. same row.supplier supplier.now) lines.now))) numbers.now.keys) }
{
    let mut found = Items::new(alloc);
    for line in numbers {
        let at = LineAt {
            supplier,
            number,
            line: *line,
        };
        put_rows(&mut found, lines_at_number(alloc, lines, &at)?)?;
    }
    Ok(found)
}

/// Returns the lines of a supplier.
pub(crate) fn lines_from(
    alloc: Global,
    lines: &[LineRow],
    supplier: &Gln,
) -> Result<Items<LineRow>, MemoryFault>
    requires { Rises line_cmp lines.now }
    ensures { IfOk result (λ found. found ≡ filter (λ row. same row.supplier supplier.now) lines.now) }
{
    copies(alloc, rows_at(lines, &BySupplier { supplier }))
}

/// Whether any supplier has a pallet with this SSCC.
#[tactic(auto, using(crate::proofs::Filters::any_filtered))]
pub(crate) fn has_sscc(pallets: &[PalletRow], sscc: &Sscc) -> bool
    requires { Rises pallet_cmp pallets.now }
    ensures { result ≡ list_any (λ pallet. same pallet.sscc sscc.now) pallets.now }
{
    !rows_at(pallets, &ByPallet { sscc }).is_empty()
}

// Whether one of the pallets is the supplier's.
fn any_from(pallets: &[PalletRow], supplier: &Gln) -> bool
    ensures { result ≡ list_any (λ pallet. same pallet.supplier supplier.now) pallets.now }
{
    pallets.iter().any(|pallet| pallet.supplier == *supplier)
}

// Whether the supplier has a pallet with this SSCC.
fn holds_pallet(pallets: &[PalletRow], supplier: &Gln, sscc: &Sscc) -> bool
    requires { Rises pallet_cmp pallets.now }
    ensures { result ≡ holds supplier.now pallets.now sscc.now }
{
    any_from(rows_at(pallets, &ByPallet { sscc }), supplier)
}

// Returns the first pallet of a supplier.
fn first_from<'a>(pallets: &'a [PalletRow], supplier: &Gln) -> Option<&'a PalletRow>
    ensures { option_map (λ pallet. pallet.now) result
        ≡ find (λ pallet. same pallet.supplier supplier.now) pallets.now }
{
    pallets.iter().find(|pallet| pallet.supplier == *supplier)
}

/// Returns the pallet with an SSCC, if it is the supplier's.
#[tactic(auto, using(crate::proofs::Filters::find_of_either))]
pub(crate) fn pallet_with(
    alloc: Global,
    pallets: &[PalletRow],
    supplier: &Gln,
    sscc: &Sscc,
) -> Result<Option<PalletRow>, MemoryFault>
    requires { Rises pallet_cmp pallets.now }
    ensures { IfOk result (λ found. found ≡ find (λ pallet.
        same pallet.sscc sscc.now) (filter (λ row. same row.supplier supplier.now) pallets.now)) }
{
    match first_from(rows_at(pallets, &ByPallet { sscc }), supplier) {
        Some(pallet) => Ok(Some(pallet.copy(alloc)?)),
        None => Ok(None),
    }
}

/// Returns the pallets of a supplier, using an index of each supplier's pallets.
pub(crate) fn pallets_from(
    alloc: Global,
    pallets: &[PalletRow],
    owned: &[PalletKey],
    supplier: &Gln,
) -> Result<Items<PalletRow>, MemoryFault>
    requires pallets { Rises pallet_cmp pallets.now }
    requires owned { IsIndex owned_cmp (λ key. key.supplier) owned_key
        (λ pallet. true) owned.now pallets.now }
    ensures { IfOk result (λ found. found ≡ filter (λ row. same row.supplier supplier.now) pallets.now) }
{
    copies_at(alloc, pallets, rows_at(owned, &BySupplier { supplier }))
}

/// Returns the contents of a pallet, whichever supplier has it.
pub(crate) fn contents_on(
    alloc: Global,
    contents: &[ContentRow],
    sscc: &Sscc,
) -> Result<Items<ContentRow>, MemoryFault>
    requires { Rises content_cmp contents.now }
    ensures { IfOk result (λ found. found ≡ filter (λ content. same content.sscc sscc.now) contents.now) }
{
    copies(alloc, rows_at(contents, &ByPallet { sscc }))
}

/// Returns the contents of a pallet, if it is the supplier's.
pub(crate) fn contents_of(
    alloc: Global,
    contents: &[ContentRow],
    pallets: &[PalletRow],
    supplier: &Gln,
    sscc: &Sscc,
) -> Result<Items<ContentRow>, MemoryFault>
    requires contents { Rises content_cmp contents.now }
    requires pallets { Rises pallet_cmp pallets.now }
    ensures { IfOk result (λ found. found ≡ filter (λ content.
        same content.sscc sscc.now) (filter (λ row. holds supplier.now pallets.now row.sscc) contents.now)) }
{
    if !holds_pallet(pallets, supplier, sscc) {
        return Ok(Items::new(alloc));
    }
    contents_on(alloc, contents, sscc)
}

/// Returns the receipts of a pallet, whichever supplier has it.
pub(crate) fn receipts_on(
    alloc: Global,
    receipts: &[ReceiptRow],
    sscc: &Sscc,
) -> Result<Items<ReceiptRow>, MemoryFault>
    requires { Rises receipt_cmp receipts.now }
    ensures { IfOk result (λ found. found ≡ filter (λ receipt. same receipt.sscc sscc.now) receipts.now) }
{
    copies(alloc, rows_at(receipts, &ByPallet { sscc }))
}

/// Returns the receipts of a pallet, if it is the supplier's.
pub(crate) fn receipts_of(
    alloc: Global,
    receipts: &[ReceiptRow],
    pallets: &[PalletRow],
    supplier: &Gln,
    sscc: &Sscc,
) -> Result<Items<ReceiptRow>, MemoryFault>
    requires receipts { Rises receipt_cmp receipts.now }
    requires pallets { Rises pallet_cmp pallets.now }
    ensures { IfOk result (λ found. found ≡ filter (λ receipt.
        same receipt.sscc sscc.now) (filter (λ row. holds supplier.now pallets.now row.sscc) receipts.now)) }
{
    if !holds_pallet(pallets, supplier, sscc) {
        return Ok(Items::new(alloc));
    }
    receipts_on(alloc, receipts, sscc)
}

/// Returns the number of the last entry of a supplier's mailbox, or 0 if there is none.
#[tactic(auto, using(crate::proofs::Filters::last_is))]
pub(crate) fn last_number(mail: &[MailRow], supplier: &Gln) -> u64
    requires { Rises mail_cmp mail.now }
    ensures { result ≡ unwrap_or (option_map (λ entry.
        entry.number) (last_or None (filter (λ row. same row.supplier supplier.now) mail.now))) 0 }
{
    match rows_at(mail, &BySupplier { supplier }).last() {
        Some(entry) => entry.number,
        None => 0,
    }
}

/// Returns the entry with this number in a supplier's mailbox.
pub(crate) fn entry_with(
    alloc: Global,
    mail: &[MailRow],
    supplier: &Gln,
    number: u64,
) -> Result<Option<MailRow>, MemoryFault>
    requires { Rises mail_cmp mail.now }
    ensures { IfOk result (λ found. found ≡ find (λ entry.
        entry.number == number) (filter (λ row. same row.supplier supplier.now) mail.now)) }
{
    let key = EntryKey {
        supplier: *supplier,
        number,
    };
    first_copy(alloc, rows_at(mail, &key))
}

/// Returns what a list shows of the first `limit` entries above a number in a supplier's mailbox that are not taken,
/// using an index of these.
pub(crate) fn heads_after(
    alloc: Global,
    mail: &[MailRow],
    untaken: &[EntryKey],
    above: &AboveNumber<'_>,
    limit: usize,
) -> Result<Items<MailHead>, MemoryFault>
    requires mail { Rises mail_cmp mail.now }
    requires untaken { IsIndex entry_cmp (λ key. key.supplier) entry_key is_untaken untaken.now mail.now }
    ensures heads { IfOk result (λ heads.
        heads ≡ take limit (map head_of (filter (λ entry. nat_lt above.now.number entry.number
        && not (is_taken entry)) (filter (λ row. same row.supplier above.now.supplier.now) mail.now)))) }
    ensures limit { IfOk result (λ heads. length heads ≤ limit) }
{
    let keys = rows_at(untaken, above);
    heads_at(alloc, mail, &keys[..limit.min(keys.len())])
}
