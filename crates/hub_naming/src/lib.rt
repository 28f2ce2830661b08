//! Finds the orders that a supplier's message names, and their lines that it names by number.
#![tactic(auto)]

mod lines;
mod orders;

pub use lines::{LinesNamed, LinesOfOrders, lines_named, numbers_alone, numbers_named};
pub use orders::orders_named;
