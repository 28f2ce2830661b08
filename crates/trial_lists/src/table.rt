//! Changes the rows of one kind, which are sorted by key.
ghost use Rattle.std.specs.Prelude.{◌≡◌, ◌+◌, ◌<◌, ◌≤◌, false, not, filter, vec_len, vec_capacity};
ghost use Rattle.std.specs.List.{insert, list_any};
ghost use Rattle.std.specs.Ordering.{is_eq};
ghost use Rattle.hub_parties.specs.KeyOrder.{put, replace, Rises};
ghost use Rattle.hub_tables.specs.Rows.{same, receipt_cmp};

use crate::key::OwnKey;
use gs1_ids::Sscc;
use hub_tables::ReceiptRow;
use trial_rows::{Row, Settable, count_below, rows_at};

/// Whether some row has the key of this one.
#[tactic(auto, using(crate::proofs::Filters::any_filtered))]
pub(crate) fn has_key<T: Row>(rows: &[T], row: &T) -> bool
    requires { Rises T.compared rows.now }
    ensures { result ≡ list_any (λ old. is_eq (T.compared old row.now)) rows.now }
{
    !rows_at(rows, &OwnKey { row }).is_empty()
}

// Inserts a row for which there is room.
fn insert_at<T>(rows: &mut Vec<T>, at: usize, row: T)
    requires place { at ≤ vec_len rows.old }
    requires room { vec_len rows.old < vec_capacity rows.old }
    ensures items { rows.new.items ≡ insert rows.old.items at row }
    ensures len { vec_len rows.new ≡ vec_len rows.old + 1 }
    ensures capacity { vec_capacity rows.new ≡ vec_capacity rows.old }
{
    rows.insert(at, row).unwrap();
}

/// Inserts a row for which there is room at its place. If the row's key exists already, the row is left out.
pub(crate) fn put_row<T: Row>(rows: &mut Vec<T>, row: T)
    requires room { vec_len rows.old < vec_capacity rows.old }
    requires rises { Rises T.compared rows.old.items }
    ensures rises { Rises T.compared rows.new.items }
    ensures items { Rises T.compared (put T.compared row rows.old.items) →
        rows.new.items ≡ put T.compared row rows.old.items }
    ensures new { list_any (λ old. is_eq (T.compared old row)) rows.old.items ≡ false →
        rows.new.items ≡ put T.compared row rows.old.items }
    ensures len { vec_len rows.new ≤ vec_len rows.old + 1 }
    ensures capacity { vec_capacity rows.new ≡ vec_capacity rows.old }
{
    let old = rows.as_slice();
    let at = count_below(old, &OwnKey { row: &row });
    let is_there = has_key(old, &row);
    if !is_there {
        insert_at(rows, at, row);
    }
}

/// Removes the row that has the key of this one, if there is one.
pub(crate) fn drop_row<T: Row>(rows: &mut Vec<T>, row: &T)
    requires { Rises T.compared rows.old.items }
    ensures rises { Rises T.compared rows.new.items }
    ensures items { rows.new.items ≡ filter (λ old. not (is_eq (T.compared old row.now))) rows.old.items }
    ensures len { vec_len rows.new ≤ vec_len rows.old }
    ensures capacity { vec_capacity rows.new ≡ vec_capacity rows.old }
{
    let old = rows.as_slice();
    let at = count_below(old, &OwnKey { row });
    let is_there = has_key(old, row);
    if is_there {
        drop(rows.remove(at));
    }
}

/// Removes all receipts of a pallet.
pub(crate) fn clear_receipts(receipts: &mut Vec<ReceiptRow>, sscc: &Sscc)
    requires { Rises receipt_cmp receipts.old.items }
    ensures rises { Rises receipt_cmp receipts.new.items }
    ensures items { receipts.new.items ≡ filter (λ row. not (same row.sscc sscc.now)) receipts.old.items }
    ensures len { vec_len receipts.new ≤ vec_len receipts.old }
    ensures capacity { vec_capacity receipts.new ≡ vec_capacity receipts.old }
{
    receipts.retain(|row| row.sscc != *sscc);
}

/// Replaces the row with the same key. If there is none, the new row is left out.
pub(crate) fn set_row<T: Settable>(rows: &mut Vec<T>, row: T)
    requires { Rises T.compared rows.old.items }
    ensures rises { Rises T.compared rows.new.items }
    ensures items { rows.new.items ≡ replace (T.alike row) row rows.old.items }
    ensures len { vec_len rows.new ≡ vec_len rows.old }
    ensures capacity { vec_capacity rows.new ≡ vec_capacity rows.old }
{
    let old = rows.as_slice();
    let at = count_below(old, &OwnKey { row: &row });
    let is_there = has_key(old, &row);
    if is_there {
        rows[at] = row;
    }
}
