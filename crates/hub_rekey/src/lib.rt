//! Changes the key of one party: of the retailer or of a supplier.
#![tactic(auto)]

mod key_change;
mod laws;

pub use key_change::{KeyOwner, Rekeyed, rekey};
pub use laws::{rekeyed_tables_are_sound, rekeying_keeps_suppliers_apart};
