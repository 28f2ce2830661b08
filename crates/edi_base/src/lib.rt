//! Defines what all layers share: vectors that contracts see as lists, readers and writers with known bytes, the limits
//! of data elements, a test for repeated items, and exit statuses.
#![tactic(auto)]

mod buffer;
pub mod exit;
mod items;
mod limits;
mod memory;
mod seen;
mod sink;
mod source;

pub use buffer::Buffer;
pub use items::{Items, copy_bytes};
pub use limits::{
    GREATEST, all_printable, are_digits, count_of, has_length, is_count_of, value_of,
};
pub use memory::MemoryFault;
pub use seen::{Seen, number_twice};
pub use sink::{OfWrite, Sink, WriteFault, write_bytes};
pub use source::{OfRead, ReadFault, Source, read_to_limit};
