//! Reads the segments of an interchange's text, and writes the text of segments (ISO 9735, syntax version 3).
#![tactic(auto)]

mod appending;
mod feeder;
mod laws;
mod lender;
mod piece;
mod reading;
mod text;

pub use appending::{append_segment, append_segment_with};
pub use edi_base::{
    Items, MemoryFault, OfRead, OfWrite, ReadFault, Sink, Source, WriteFault, read_to_limit,
    write_bytes,
};
pub use edi_segments::{Elements, Segment, SegmentRef, Service, TokenFault, Tokens};
pub use feeder::{Feeder, Refused};
pub use laws::{
    canonical_text_spells_again, lent_segments_are_spelled, reading_is_the_grammar,
    service_is_settled, text_spells_one_list, text_spells_or_shows_a_fault,
};
pub use lender::Lender;
pub use piece::ReadFailed;
pub use reading::{TEXT_LIMIT, read_all};
pub use text::{append_segments, body_text, service_string, write_text};
