//! Defines the hub's tables in SQL: their schema, how their rows are read, and how they are made.
#![tactic(auto)]

mod compare;
mod definitions;
mod faults;
mod making;
mod number;
mod standing;

pub use compare::{is_hub_schema, is_no_schema, is_old_schema};
pub use faults::fault_by;
pub use making::{make_party_tables, make_tables, set_number};
pub use number::StoredNumber;
pub use standing::{has_hub_tables, has_old_tables};
