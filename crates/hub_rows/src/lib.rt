//! Queries a connection by a fixed text, and reads the rows of the answer as rows of the hub.
#![tactic(auto)]

mod ask;
mod shown;
mod values;

pub use ask::{first_of, has_row, query, rows_of};
pub use shown::ShownRow;
pub use values::{blob_at, gln_at, number_at, sscc_at};
