//! Keeps the orders and lines that a message or a cancellation names while it is checked. A message's lines are found
//! by number or by article without a walk over all lines, and are set one after another.
#![tactic(auto)]

mod book;
mod by_article;
mod by_number;
mod facts;
mod known_lines;
mod known_orders;
mod lines;
mod order_lines;
mod rising;

pub use book::Book;
pub use facts::LineFacts;
pub use known_lines::KnownLines;
pub use known_orders::KnownOrders;
pub use lines::copied_row;
pub use rising::rise;
