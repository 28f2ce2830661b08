//! Reads what the messages of orders and goods share (EANCOM 2002 over UN/EDIFACT D.01B): their faults, parts, values,
//! header, lines, references and summary.
#![tactic(auto)]

mod fault;
pub mod header;
pub mod lines;
pub mod parts;
pub mod references;
pub mod summary;
mod values;

pub use edi_envelope::{RawMessage, Segment};
pub use fault::MessageFault;
pub use header::supplier_of;
