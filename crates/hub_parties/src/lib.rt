//! Defines the parties of a hub: the rows of a register, and how a caller's GLN and key show that it is the retailer or
//! a supplier.
#![tactic(auto)]

mod key;
mod overlap;
mod prefixes;
mod role;
mod row;

pub use key::Key;
pub use overlap::first_overlap;
pub use prefixes::CompanyPrefixes;
pub use role::Role;
pub use row::SupplierRow;
