//! Keeps up to which number all entries of a supplier's mailbox are taken, so that no list passes over them again.
ghost use Rattle.std.specs.Prelude.{◌≡◌, ◌≤◌, List, ℕ, OnOk, OnErr, false};
ghost use Rattle.std.specs.BTreeMap.{btree_map_len, get, IsUnchanged};
ghost use Rattle.std.specs.Cmp.Lexicographic.{slice_cmp};
ghost use Rattle.std.specs.Option.{is_some};
ghost use Rattle.std.specs.Ordering.{nat_cmp};
ghost use Rattle.hub_sql.specs.Marks.{IsSet, Forgets, KeepsMarks, Notes, count_with, most_marks};
ghost use Rattle.hub_sql.specs.Marks.{mark_after, mark_after_all, mark_with};
ghost use Rattle.hub_sql.specs.Marks as spec;

use edi_base::MemoryFault;
use edi_envelope::LAST_MAIL_NUMBER;
use gs1_ids::Gln;
use hub_store::MailHead;
use hub_tables::{Change, MailRow};
use std::collections::BTreeMap;

/// The marks of suppliers: the entries of each are taken up to its mark.
pub(crate) type TakenMarks = BTreeMap<Gln, u64>;

// The greatest number of suppliers in a register, so enough marks for all.
const MOST_MARKS: usize = 1_000;

// Returns the mark of a supplier, 0 if none is kept.
fn mark_of(marks: &TakenMarks, supplier: &Gln) -> u64
    ensures { result ≡ spec.mark_of marks.now supplier.now }
{
    match marks.get(supplier) {
        Some(mark) => *mark,
        None => 0,
    }
}

// Sets the mark of a supplier. Takes memory only if it has none.
fn set_mark(marks: &mut TakenMarks, supplier: &Gln, mark: u64) -> Result<(), MemoryFault>
    ensures set { OnOk result (IsSet marks.old supplier.now mark marks.new) }
    ensures count { OnOk result (btree_map_len marks.new ≡ count_with marks.old supplier.now) }
    ensures refused { OnErr result (is_some (get (slice_cmp nat_cmp) marks.old supplier.now) ≡ false) }
    ensures stays { OnErr result (IsUnchanged marks.old marks.new) }
{
    marks.insert(*supplier, mark)?;
    Ok(())
}

// Forgets all marks if one for this supplier would be too many.
fn make_room(marks: &mut TakenMarks, supplier: &Gln)
    requires { btree_map_len marks.old ≤ most_marks }
    ensures room { count_with marks.new supplier.now ≤ most_marks }
    ensures stays { count_with marks.old supplier.now ≤ most_marks → IsUnchanged marks.old marks.new }
    ensures forgets { Forgets marks.old marks.new }
{
    if marks.len() >= MOST_MARKS && !marks.contains_key(supplier) {
        marks.clear();
    }
}

// Keeps a mark for a supplier.
fn keep_mark(marks: &mut TakenMarks, supplier: &Gln, mark: u64) -> Result<(), MemoryFault>
    requires { btree_map_len marks.old ≤ most_marks }
    ensures few { btree_map_len marks.new ≤ most_marks }
    ensures kept { OnOk result (spec.mark_of marks.new supplier.now ≡ mark) }
    ensures keeps { KeepsMarks marks.old supplier.now mark marks.new }
{
    make_room(marks, supplier);
    set_mark(marks, supplier, mark)
}

// Returns the number up to which all entries are taken, as a list from `mark` shows it.
fn shown_mark(heads: &[MailHead], limit: usize, mark: u64) -> u64
    ensures { result ≡ spec.shown_mark heads.now limit mark }
{
    match heads.first() {
        Some(head) => head.number.saturating_sub(1),
        None if limit == 0 => mark,
        None => LAST_MAIL_NUMBER,
    }
}

/// Returns where a list above a number begins: at the supplier's mark, up to which all is taken, if that is higher.
pub(crate) fn list_start(marks: &TakenMarks, supplier: &Gln, number: u64) -> u64
    ensures { result ≡ spec.list_start marks.now supplier.now number }
{
    let mark = mark_of(marks, supplier);
    if number <= mark { mark } else { number }
}

/// Raises the mark of a supplier to what a list shows, if the list was asked for from the mark or from before it. If
/// there is no memory for it, no mark is kept.
pub(crate) fn note_shown(
    marks: &mut TakenMarks,
    supplier: &Gln,
    number: u64,
    heads: &[MailHead],
    limit: usize,
)
    requires { btree_map_len marks.old ≤ most_marks }
    ensures few { btree_map_len marks.new ≤ most_marks }
    ensures notes { Notes marks.old supplier.now number heads.now limit marks.new }
{
    let mark = mark_of(marks, supplier);
    let shown = shown_mark(heads, limit, mark);
    if number <= mark && mark < shown {
        let _ = keep_mark(marks, supplier, shown);
    }
}

// Lowers the mark of an entry's supplier below the entry, if it is not taken.
fn lower_mark(marks: &mut TakenMarks, entry: &MailRow)
    ensures few { btree_map_len marks.new ≤ btree_map_len marks.old }
    ensures lowers { (supplier : List ℕ) → spec.mark_of marks.new supplier
        ≡ mark_with supplier entry.now (spec.mark_of marks.old supplier) }
{
    let mark = mark_of(marks, &entry.supplier);
    if entry.taken.case() || mark == 0 || mark < entry.number {
        return;
    }
    // Cannot fail: the supplier has a mark.
    let _ = set_mark(marks, &entry.supplier, entry.number.saturating_sub(1));
}

// Lowers the mark below an entry that a change adds or sets.
fn lower_by(marks: &mut TakenMarks, change: &Change)
    ensures few { btree_map_len marks.new ≤ btree_map_len marks.old }
    ensures lowers { (supplier : List ℕ) → spec.mark_of marks.new supplier
        ≡ mark_after supplier change.now (spec.mark_of marks.old supplier) }
{
    match change {
        Change::AddMail(entry) | Change::SetMail(entry) => lower_mark(marks, entry),
        _ => {}
    }
}

/// Lowers the marks below the entries that changes add or set, if these are not taken.
pub(crate) fn lower_marks(marks: &mut TakenMarks, changes: &[Change])
    ensures few { btree_map_len marks.new ≤ btree_map_len marks.old }
    ensures lowers { (supplier : List ℕ) → spec.mark_of marks.new supplier
        ≡ mark_after_all supplier changes.now (spec.mark_of marks.old supplier) }
{
    for change in changes {
        lower_by(marks, change);
    }
}
