//! Reads and writes the messages of HTTP/1.1 (RFC 9112): the head of a request and its body, from a source, and a
//! response, to a sink.
#![tactic(auto)]

mod body;
mod fields;
mod head;
mod more;
mod response;

pub use body::read_body;
pub use fields::Values;
pub use head::{HeadFault, HttpHead, LONGEST_HEAD, read_head};
pub use response::write_response;
