//! Searches sorted rows for a key.
ghost use Rattle.std.specs.Prelude.{◌≡◌, ◌≤◌, Bool, length, filter};
ghost use Rattle.std.specs.List.{prefix_len};
ghost use Rattle.std.specs.Ordering.{is_eq, is_lt, is_le};
ghost use Rattle.std.specs.declared.cmp.Ordering.{Ordering as Order};
ghost use Rattle.hub_parties.specs.KeyOrder.{Rises};
ghost use Rattle.trial_rows.specs.Search.{KeepsPlaces};

use crate::row::Row;
use std::cmp::Ordering;

/// What is searched for: a key, the first part of one, or all keys above one.
pub trait SearchKey<T: Row> {
    /// The place of a row relative to the key.
    ghost place: { Self → T → Order };

    /// Whether the row is searched for.
    ghost wanted: { Self → T → Bool };

    /// Returns the place of a row: below what is searched for, at it or above it.
    fn place_of(&self, row: &T) -> Ordering
        ensures { result ≡ place self.now row.now };

    /// The rows at it are those that are searched for.
    ghost exact: { (key : Self) (row : T) → is_eq (place key row) ≡ wanted key row };

    /// Sorted rows are also in the order of their places.
    ghost kept: { (key : Self) → KeepsPlaces T.compared (place key) };
}

// The number of rows at the start that are searched first.
const NEAR: usize = 16;

// Whether a row is below a key.
fn is_below<T: Row, K: SearchKey<T>>(row: &T, key: &K) -> bool
    ensures { result ≡ is_lt (K.place key.now row.now) }
{
    key.place_of(row).is_lt()
}

// Whether a row is below a key or at it.
fn is_within<T: Row, K: SearchKey<T>>(row: &T, key: &K) -> bool
    ensures { result ≡ is_le (K.place key.now row.now) }
{
    key.place_of(row).is_le()
}

/// Returns how many rows are below a key.
pub fn count_below<T: Row, K: SearchKey<T>>(rows: &[T], key: &K) -> usize
    requires { Rises T.compared rows.now }
    ensures within { result ≤ length rows.now }
    ensures count { result ≡ prefix_len (λ row. is_lt (K.place key.now row)) rows.now }
{
    rows.partition_point(|row| is_below(row, key))
}

// Returns how many rows are below a key or at it, by a search among all rows.
fn count_among<T: Row, K: SearchKey<T>>(rows: &[T], key: &K) -> usize
    requires { Rises T.compared rows.now }
    ensures within { result ≤ length rows.now }
    ensures count { result ≡ prefix_len (λ row. is_le (K.place key.now row)) rows.now }
{
    rows.partition_point(|row| is_within(row, key))
}

// Returns how many rows are below a key or at it, by a search among the first rows, because usually they are few.
#[tactic(auto, using(crate::proofs::Searching::rises_take))]
fn count_within<T: Row, K: SearchKey<T>>(rows: &[T], key: &K) -> usize
    requires { Rises T.compared rows.now }
    ensures within { result ≤ length rows.now }
    ensures count { result ≡ prefix_len (λ row. is_le (K.place key.now row)) rows.now }
{
    let near = &rows[..NEAR.min(rows.len())];
    let count = count_among(near, key);
    if count < NEAR {
        return count;
    }
    count_among(rows, key)
}

/// Returns the rows that a key searches for, in their order.
#[tactic(auto, using(crate::proofs::Searching::rises_drop))]
pub fn rows_at<'a, T: Row, K: SearchKey<T>>(rows: &'a [T], key: &K) -> &'a [T]
    requires { Rises T.compared rows.now }
    ensures { result.now ≡ filter (K.wanted key.now) rows.now }
{
    let start = count_below(rows, key);
    let rest = &rows[start..];
    let count = count_within(rest, key);
    &rest[..count]
}
