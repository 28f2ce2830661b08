//! Keeps indexes: the keys of all rows, or of some, in another order than the rows.
ghost use Rattle.std.specs.Prelude.{◌≡◌, ℕ, ◌+◌, ◌<◌, ◌≤◌, Bool, true, false, if◌then◌else◌, refl, List, vec_len, vec_capacity};
ghost use Rattle.std.specs.List.{list_any};
ghost use Rattle.std.specs.Ordering.{is_eq};
ghost use Rattle.hub_parties.specs.KeyOrder.{put, replace, Rises};
ghost use Rattle.trial_lists.specs.Index.{IsIndex};

use crate::key::OwnKey;
use crate::table::{drop_row, has_key, put_row, set_row};
use edi_base::MemoryFault;
use gs1_ids::{Gln, Sscc};
use hub_tables::{MailRow, PalletRow};
use std::alloc::Global;
use std::cmp::Ordering;
use trial_rows::{Row, Settable, rows_at};

/// The key of a supplier's mailbox entry.
#[derive(Clone, Copy, Debug)]
pub(crate) struct EntryKey {
    pub(crate) supplier: Gln,
    pub(crate) number: u64,
}

/// A supplier, and the SSCC of one of its pallets.
#[derive(Clone, Copy, Debug)]
pub(crate) struct PalletKey {
    pub(crate) supplier: Gln,
    pub(crate) sscc: Sscc,
}

impl Row for EntryKey {
    ghost use Rattle.trial_lists.specs.Index.{entry_cmp, entry_total};

    ghost compared = { entry_cmp };

    fn compare(&self, other: &Self) -> Ordering {
        self.supplier
            .cmp(&other.supplier)
            .then(self.number.cmp(&other.number))
    }

    fn copy(&self, _alloc: Global) -> Result<Self, MemoryFault> {
        Ok(*self)
    }

    ghost total = { entry_total };
}

impl Row for PalletKey {
    ghost use Rattle.trial_lists.specs.Index.{owned_cmp, owned_total};

    ghost compared = { owned_cmp };

    fn compare(&self, other: &Self) -> Ordering {
        self.supplier
            .cmp(&other.supplier)
            .then(self.sscc.cmp(&other.sscc))
    }

    fn copy(&self, _alloc: Global) -> Result<Self, MemoryFault> {
        Ok(*self)
    }

    ghost total = { owned_total };
}

/// A row that an index may list.
pub(crate) trait IndexedRow<K: Row>: Settable {
    /// The key that the index lists for a row.
    ghost key: { Self → K };

    /// Whether the index lists the row.
    ghost listed: { Self → Bool };

    /// The supplier to whom a key belongs.
    ghost supplier: { K → List ℕ };

    /// Returns the key that the index lists for the row.
    fn index_key(&self) -> K
        ensures { result ≡ key self.now };

    /// Whether the index lists the row.
    fn is_listed(&self) -> bool
        ensures { result ≡ listed self.now };

    /// Keys that compare as equal belong to the same supplier.
    ghost tied: { (a b : K) → is_eq (K.compared a b) ≡ true → supplier a ≡ supplier b };

    /// The keys of one supplier are in the order of its rows.
    ghost in_order: { (x y : Self) → supplier (key x) ≡ supplier (key y) →
        K.compared (key x) (key y) ≡ Self.compared x y };
}

impl IndexedRow<EntryKey> for MailRow {
    ghost use Rattle.trial_lists.specs.Index.{entry_key, is_untaken, entry_tied};

    ghost key = { entry_key };

    ghost listed = { is_untaken };

    ghost supplier = { λ key. key.supplier };

    fn index_key(&self) -> EntryKey {
        EntryKey {
            supplier: self.supplier,
            number: self.number,
        }
    }

    fn is_listed(&self) -> bool {
        !self.taken.case()
    }

    ghost tied = { entry_tied };

    ghost in_order = { λ x y _. refl };
}

impl IndexedRow<PalletKey> for PalletRow {
    ghost use Rattle.trial_lists.specs.Index.{owned_key, owned_tied, owned_in_order};

    ghost key = { owned_key };

    ghost listed = { λ pallet. true };

    ghost supplier = { λ key. key.supplier };

    fn index_key(&self) -> PalletKey {
        PalletKey {
            supplier: self.supplier,
            sscc: self.sscc,
        }
    }

    fn is_listed(&self) -> bool {
        true
    }

    ghost tied = { owned_tied };

    ghost in_order = { owned_in_order };
}

// Adds a row's key to an index that has room for it, if the index lists the row.
fn list_key<T: IndexedRow<K>, K: Row>(index: &mut Vec<K>, row: &T)
    requires room { vec_len index.old < vec_capacity index.old }
    requires rises { Rises K.compared index.old.items }
    ensures items { list_any (λ old. is_eq (K.compared old (T.key row.now))) index.old.items ≡ false →
        index.new.items ≡ (if T.listed row.now
        then put K.compared (T.key row.now) index.old.items else index.old.items) }
    ensures len { vec_len index.new ≤ vec_len index.old + 1 }
    ensures capacity { vec_capacity index.new ≡ vec_capacity index.old }
{
    if row.is_listed() {
        put_row(index, row.index_key());
    }
}

/// Inserts a row at its place, and into the index if that lists it; both must have room. If the row's key exists
/// already, the row is left out.
pub(crate) fn put_indexed<T: IndexedRow<K>, K: Row>(rows: &mut Vec<T>, index: &mut Vec<K>, row: T)
    requires room { vec_len rows.old < vec_capacity rows.old }
    requires index_room { vec_len index.old < vec_capacity index.old }
    requires rises { Rises T.compared rows.old.items }
    requires index { IsIndex K.compared T.supplier T.key T.listed index.old.items rows.old.items }
    ensures rises { Rises T.compared rows.new.items }
    ensures index { IsIndex K.compared T.supplier T.key T.listed index.new.items rows.new.items }
    ensures items { Rises T.compared (put T.compared row rows.old.items) →
        rows.new.items ≡ put T.compared row rows.old.items }
    ensures len { vec_len rows.new ≤ vec_len rows.old + 1 }
    ensures capacity { vec_capacity rows.new ≡ vec_capacity rows.old }
    ensures index_len { vec_len index.new ≤ vec_len index.old + 1 }
    ensures index_capacity { vec_capacity index.new ≡ vec_capacity index.old }
{
    let is_there = has_key(rows.as_slice(), &row);
    if is_there {
        return;
    }
    list_key(index, &row);
    put_row(rows, row);
}

/// Replaces the row with the same key, also in the index, which must have room for one more. If no row has the key, the
/// new row is left out.
pub(crate) fn set_indexed<T: IndexedRow<K>, K: Row>(rows: &mut Vec<T>, index: &mut Vec<K>, row: T)
    requires index_room { vec_len index.old < vec_capacity index.old }
    requires rises { Rises T.compared rows.old.items }
    requires index { IsIndex K.compared T.supplier T.key T.listed index.old.items rows.old.items }
    ensures rises { Rises T.compared rows.new.items }
    ensures index { IsIndex K.compared T.supplier T.key T.listed index.new.items rows.new.items }
    ensures items { rows.new.items ≡ replace (T.alike row) row rows.old.items }
    ensures len { vec_len rows.new ≡ vec_len rows.old }
    ensures capacity { vec_capacity rows.new ≡ vec_capacity rows.old }
    ensures index_len { vec_len index.new ≤ vec_len index.old + 1 }
    ensures index_capacity { vec_capacity index.new ≡ vec_capacity index.old }
{
    let Some(old) = rows_at(rows.as_slice(), &OwnKey { row: &row }).first() else {
        return;
    };
    drop_row(index, &old.index_key());
    list_key(index, &row);
    set_row(rows, row);
}
