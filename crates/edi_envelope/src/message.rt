ghost use Rattle.std.specs.Prelude.{◌≡◌, IfOk};
ghost use Rattle.edi_segments.specs.SegmentRef.{segment_in};
ghost use Rattle.edi_envelope.specs.Segments.{component, first_segment};
ghost use Rattle.edi_envelope.specs.Message as spec;
ghost use Rattle.edi_envelope.specs.Check.{has_identity};

use crate::interchange::RawMessage;
use crate::limits;
use edi_base::copy_bytes;
use edi_tokens::{Items, MemoryFault, Segment, SegmentRef};
use std::alloc::Global;

// Returns a component of the first segment, element and place counted from 0.
fn first_component(segments: &[Segment], element: usize, place: usize) -> &[u8]
    ensures { result.now ≡ component (first_segment segments.now) element place }
{
    match segments.first() {
        Some(segment) => segment.component(element, place),
        None => &[],
    }
}

/// Whether a segment is not allowed between UNH and UNT.
pub(crate) fn is_frame(segment: &SegmentRef<'_>) -> bool
    ensures { result ≡ spec.is_frame (segment_in segment.now) }
{
    let tag = segment.tag();
    tag == *b"UNH" || tag == *b"UNT" || tag == *b"UNG" || tag == *b"UNE"
}

fn copied_component(
    alloc: Global,
    block: &Items<Segment>,
    element: usize,
    place: usize,
) -> Result<Items<u8>, MemoryFault>
    ensures { IfOk result (λ copy. copy ≡ component (first_segment block.now) element place) }
{
    copy_bytes(alloc, first_component(block.as_slice(), element, place))
}

/// Whether UNH's reference and message identifier are within their limits.
pub(crate) fn has_identity(unh: &SegmentRef<'_>) -> bool
    ensures { result ≡ has_identity (segment_in unh.now) }
{
    limits::is_reference(unh.component(0, 0))
        && limits::is_identifier(1, 6, unh.component(1, 0))
        && limits::is_identifier(1, 3, unh.component(1, 1))
        && limits::is_identifier(1, 3, unh.component(1, 2))
        && limits::is_identifier(1, 3, unh.component(1, 3))
        && limits::is_identifier(0, 6, unh.component(1, 4))
}

/// Returns the message of a block, whose segments it takes.
pub(crate) fn message_of(alloc: Global, block: Items<Segment>) -> Result<RawMessage, MemoryFault>
    ensures { IfOk result (λ message. message ≡ spec.message_of block) }
{
    let reference = copied_component(alloc, &block, 0, 0)?;
    let kind = copied_component(alloc, &block, 1, 0)?;
    let version = copied_component(alloc, &block, 1, 1)?;
    let release = copied_component(alloc, &block, 1, 2)?;
    let agency = copied_component(alloc, &block, 1, 3)?;
    let association = copied_component(alloc, &block, 1, 4)?;
    Ok(RawMessage {
        reference,
        kind,
        version,
        release,
        agency,
        association,
        segments: block,
    })
}
