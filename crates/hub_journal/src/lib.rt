//! Writes the journal of a served hub: one line for each connection, from wrappers around its reader and its writer.
#![tactic(auto)]

mod front;
mod journaled;
mod line;
mod moment_text;
mod reader;
mod reply;
mod request;
mod writer;

pub use front::Front;
pub use journaled::{Journal, Journaled};
pub use line::{ConnectionEnd, Entry, line_examples, line_of};
pub use reader::RecordingReader;
pub use writer::RecordingWriter;
