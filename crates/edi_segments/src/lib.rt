//! Defines segments and the characters between them, and reads one segment after another (ISO 9735, syntax version 3).
#![tactic(auto)]

mod characters;
mod fault;
mod flat_segment;
mod machine;
mod open_segment;
mod segment;
mod segment_ref;
mod segment_text;
mod service;
mod service_table;

pub use fault::TokenFault;
pub use machine::Machine;
pub use segment::{Elements, Segment, Service, Tokens};
pub use segment_ref::SegmentRef;
pub use service::{COMPONENT, ELEMENT, RELEASE, TERMINATOR, is_usual};
pub use service_table::ServiceTable;
