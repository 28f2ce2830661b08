//! Defines the rules of a hub, with their laws: the code with which a message, a cancellation or a join is refused, the
//! changes of its supplier's rows if it is accepted, and what these changes preserve.
#![tactic(auto)]

mod cancel;
mod code;
mod incoming;
mod join;
mod laws;
mod verdict;

pub use cancel::Cancel;
pub use code::Code;
pub use incoming::IncomingMessage;
pub use join::Join;
pub use laws::{
    accepted_changes_fit, accepted_is_remembered, empty_tables_are_rooted,
    founded_tables_are_sound, joins_keep_suppliers_apart, migrated_tables_are_sound,
    pallet_is_its_prefixes_suppliers, rules_keep_rows, rules_keep_suppliers_apart,
};
pub use verdict::Verdict;
