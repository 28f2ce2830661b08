//! Finds which byte of a text shows its fault, and which segment shows that of an interchange or a message, by its
//! number.
#![tactic(auto)]

mod counting;
mod envelope;
mod goods;
mod groups;
mod header;
mod laws;
mod numbers;
mod orders;
mod text;

pub use envelope::envelope_place;
pub use goods::{despatch_place, receipt_place};
pub use laws::place_is_of_what_shows;
pub use orders::{order_place, response_place};
pub use text::{TextPlace, text_place};
