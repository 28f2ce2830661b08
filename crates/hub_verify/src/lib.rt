//! Decides whether the rows of a hub are a sound start, and which row shows it if they are not.
#![tactic(auto)]

mod clean;
mod counts;
mod cross;
mod goods;
mod placed;
mod verdict;
mod whole;

pub use counts::{Counts, count};
pub use verdict::RowsVerdict;
pub use whole::verify;
