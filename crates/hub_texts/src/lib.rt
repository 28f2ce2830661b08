//! Writes the texts of a hub's replies from rows and records: lines of replies, mailbox entries and lists of them, and
//! the status report. Also reads and writes cancellations.
#![tactic(auto)]

mod articles;
mod cancel;
mod decision;
mod fault;
mod fields;
mod laws;
mod lines;
mod mail;
mod number;
mod pallets;
mod replies;
mod totals;

pub use cancel::{CancelFields, cancel_text, cancel_with, read_cancel};
pub use decision::Decision;
pub use fault::TextFault;
pub use hub_law::{Cancel, Code, Join, Outcome, Reply};
pub use laws::{
    cancel_is_five_lines, cancel_is_given_by_its_texts, cancel_is_written_back,
    status_is_given_what_it_asks,
};
pub use lines::with_lines;
pub use mail::{LIST_LIMIT, entry_text, list_text};
pub use number::number_of;
pub use pallets::with_pallet;
pub use replies::{STOPPED, interchange_line, message_line, refused_line, told_line};
