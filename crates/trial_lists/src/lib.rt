//! Keeps the tables of a hub in memory, in plain lists.
#![tactic(auto)]

mod index;
mod key;
mod lists;
mod look;
mod table;
mod vec_store;

pub use vec_store::VecStore;
