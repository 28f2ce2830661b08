//! Tests what is built on a store: counts the calls of another store, and fails at one of them.
//!
//! A call that fails does so before it reaches the store below. So a commit that is made and then fails cannot be
//! tested: its content would have changed, which a store may not do after a fault.
#![tactic(auto)]

mod gate;
mod trial_store;

pub use trial_store::TrialStore;
