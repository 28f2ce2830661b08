//! Reads the four messages that the hub accepts, each by the type that UNH names, as one type of document.
#![tactic(auto)]

mod document;

pub use document::{Document, DocumentType};
