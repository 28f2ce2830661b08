//! Reads all rows of a database file, decides whether they are a sound start, and says so in lines. Changes no row.
//!
//! What takes a connection and gives it back is `inline(never)`, which spares LLVM minutes.
#![tactic(auto)]

mod audit;
mod calls;
mod every;
mod file;
mod key;
mod kinds;
mod next;
mod received;
mod register;
mod report;
mod rows;

pub use audit::{Audit, check_database};
pub use file::check_file;
pub use report::{report_status, report_text};
pub use rows::HubRows;
