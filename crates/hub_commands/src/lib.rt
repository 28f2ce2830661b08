//! Does what the commands of the program do: checks a register, prints the lines of an interchange, imports files,
//! reads the key in a file, and prints one reply and what became of a key.
#![tactic(auto)]

mod check;
mod files;
mod folder;
mod import;
mod key;
mod key_change;
mod print;
mod reply;
mod show;

pub use check::{CheckReport, RegisterTextFault, check_run, print_report, read_register_text};
pub use files::{Files, NamedFile, NextFile};
pub use folder::Folder;
pub use hub_core::{Hub, Input, Join, Reply, Request, Role};
pub use import::import_run;
pub use key::{key_in, read_key};
pub use key_change::{KeyOutcome, key_change_run};
pub use reply::reply_run;
pub use show::show_run;
