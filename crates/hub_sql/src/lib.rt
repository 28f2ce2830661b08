//! Keeps a hub in the tables of an SQL database, in memory or in a file.
//!
//! A function that takes a connection and gives it back is `inline(never)`: inlined, a few of them took LLVM minutes. A
//! result that is named `_idle`, `_was_idle` or `_hub` is there for its call's contract.
#![tactic(auto)]

mod calls;
mod fault;
mod file;
mod founding;
mod mailbox;
mod marks;
mod migrating;
mod opening;
mod register;
mod reopening;
mod returned;
mod store;
mod version;

pub use fault::FoundFault;
pub use file::{LeftOfFile, open_file};
pub use reopening::{of_hub, of_version};
pub use returned::Returned;
pub use store::SqliteStore;
pub use version::Version;
