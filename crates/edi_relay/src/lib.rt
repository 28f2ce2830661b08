//! Turns an interchange into the mail texts of its messages, in one pass over its segments.
#![tactic(auto)]

mod error_lines;
mod mails;
mod relay;
mod relaying;
mod run;

pub use error_lines::tell;
pub use relay::{RelayFault, RelayWords, relay_lent, relay_text};
pub use run::{READ_LIMIT, relay_run, tell_read_fault};
