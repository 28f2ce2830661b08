//! Reads and checks the envelope of an interchange, UNB to UNZ, and of each message in it, UNH to UNT (ISO 9735, syntax
//! version 3).
#![tactic(auto)]

mod check;
mod fault;
mod gathering;
mod header;
mod interchange;
mod law;
mod limits;
mod mail;
mod message;
mod opening;
mod reference;
mod tally;

pub use check::{EnvelopeCheck, Place};
pub use edi_moment::{Moment, date_digits, time_digits};
pub use edi_tokens::Segment;
pub use fault::{EnvelopeFault, OpenFault};
pub use interchange::{Head, Interchange, RawMessage};
pub use law::lowest_condition;
pub use mail::{LAST_MAIL_NUMBER, mail_message_text, wrap};
pub use opening::{open, open_feed, open_lent};
