//! States what makes an order, an order response, a despatch advice and a receiving advice valid, in terms of the
//! positions and the content of segments and independently of how messages are read.
#![tactic(auto)]

mod despatch;
mod order;
mod receipt;
mod response;

pub use despatch::despatch_law;
pub use order::order_law;
pub use receipt::receipt_law;
pub use response::response_law;
