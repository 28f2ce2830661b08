//! Reads, checks and keeps the register: the hub's GLN, the retailer with its key, and the suppliers, each with a GLN,
//! one to eight company prefixes and a key.
//!
//! A register is made from a TOML text by `Register::from_toml`, or from rows by `Register::of_rows`. So its GLNs,
//! prefixes and keys are always valid, no GLN occurs twice, and no prefix of one supplier begins a prefix of another.
#![tactic(auto)]

mod caller;
mod columns;
mod document;
mod fault;
mod register;
mod rows;

pub use caller::Caller;
pub use fault::RegisterFault;
pub use hub_parties::{CompanyPrefixes, Key, Role, SupplierRow};
pub use register::{Register, register_has_its_rows, register_of_text_is_prefix_free};
