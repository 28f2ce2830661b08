//! Says what is in an interchange, as a value and in plain lines: its service characters, its header, and each message
//! as a record or with its fault and what shows it.
#![tactic(auto)]

mod content;
mod fault;
mod goods;
mod lines;
mod messages;
mod orders;
mod shown;
mod text;

pub use content::{Content, ShownMessage};
pub use edi_places::TextPlace;
pub use fault::WholeFault;
pub use shown::{Shown, ShownInterchange, show_text};
