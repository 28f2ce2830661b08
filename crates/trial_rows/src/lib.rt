//! Compares, copies and searches rows that a store keeps in vectors, and tells which have the same key.
#![tactic(auto)]

mod row;
mod search;

pub use row::{Row, Settable};
pub use search::{SearchKey, count_below, rows_at};
