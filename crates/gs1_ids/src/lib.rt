//! Defines GS1 identification keys: GLN, GTIN and SSCC with their check digit, and company prefixes.
//!
//! Each type holds its ASCII digits, and contracts see a value as the list of them. A value comes
//! from `parse` alone, so its digits are always valid. Nothing here allocates.
#![tactic(auto)]

mod digits;
mod gln;
mod gtin;
mod overlap;
mod prefix;
mod sscc;

pub use digits::check_digit;
pub use gln::Gln;
pub use gtin::Gtin;
pub use overlap::{
    first_overlap, none_overlap, overlap_some, prefixes_of_one_overlap, sscc_has_one_supplier,
};
pub use prefix::Prefix;
pub use sscc::Sscc;
