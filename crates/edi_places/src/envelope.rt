//! Finds the segment that shows the fault of an interchange, by its number. UNB is number 1.
ghost use Rattle.std.specs.Prelude.{◌≡◌, ◌≤◌, ◌+◌, [], IfOk, false, length};
ghost use Rattle.std.specs.List.{list_all, list_any};
ghost use Rattle.edi_envelope.specs.Segments.{component, first_segment, last_segment};
ghost use Rattle.edi_envelope.specs.Interchange as interchange;
ghost use Rattle.edi_envelope.specs.Check as check;
ghost use Rattle.edi_envelope.specs.Limits as limits;
ghost use Rattle.edi_envelope.specs.Message as messages;
ghost use Rattle.edi_places.specs.Counting.{first_place};
ghost use Rattle.edi_places.specs.Envelope as spec;

use crate::counting::first_tag_place;
use edi_base::{Seen, all_printable, count_of, has_length, is_count_of};
use edi_envelope::EnvelopeFault;
use edi_tokens::{Items, MemoryFault, Segment};
use std::alloc::Global;

/// The most messages that an interchange has.
const MOST_MESSAGES: usize = 999;

// Whether a segment may only begin or end the interchange.
fn is_outer(segment: &Segment) -> bool
    ensures { result ≡ check.is_outer segment.now }
{
    segment.tag == *b"UNB" || segment.tag == *b"UNZ"
}

// Returns the number of the first UNB or UNZ, or of the last segment if there is none.
fn first_outer_place(segments: &[Segment]) -> usize
    ensures within { result ≤ length segments.now }
    ensures value { result ≡ first_place check.is_outer segments.now }
{
    for (index, segment) in segments.iter().enumerate() {
        if is_outer(segment) {
            return index + 1;
        }
    }
    segments.len()
}

fn frame_place(segments: &[Segment]) -> Option<usize>
    ensures { result ≡ spec.frame_place segments.now }
{
    let (first, rest) = segments.split_first()?;
    if first.tag != *b"UNB" {
        return Some(1);
    }
    Some(1 + first_outer_place(rest))
}

// Whether a segment may come next in a row of messages, by whether a message has begun.
fn may_stand(begun: bool, segment: &Segment) -> bool
    ensures { result ≡ spec.may_stand begun segment.now }
{
    let tag = segment.tag;
    if !begun {
        return tag == *b"UNH";
    }
    tag == *b"UNT"
        || !(tag == *b"UNH" || tag == *b"UNT" || tag == *b"UNG" || tag == *b"UNE" || tag == *b"UNZ")
}

// Returns the first segment that cannot come next in a row of messages.
fn first_break_place(segments: &[Segment]) -> usize
    ensures within { result ≤ length segments.now }
    ensures value { result ≡ spec.first_break_place false segments.now }
{
    let mut begun = false;
    for (index, segment) in segments.iter().enumerate() {
        if !may_stand(begun, segment) {
            return index + 1;
        }
        begun = segment.tag != *b"UNT";
    }
    segments.len()
}

// Returns the first segment after UNB that cannot come next in a row of messages.
fn row_place(segments: &[Segment]) -> usize
    ensures { result ≡ spec.row_place segments.now }
{
    match segments.split_first() {
        Some((_, rest)) => 1 + first_break_place(rest),
        None => 0,
    }
}

// Returns the segments of a message, UNH to UNT.
fn message_at(segments: &[Segment]) -> &[Segment]
    ensures { result.now ≡ spec.message_at segments.now }
{
    let (message, _) = segments.split_at(first_tag_place(b"UNT", segments));
    message
}

fn all_seven_bit(bytes: &[u8]) -> bool
    ensures { result ≡ list_all limits.is_seven_bit bytes.now }
{
    bytes.iter().all(|b| *b <= 0x7e)
}

// Whether the number of bytes is within these limits, and none is past 0x7E.
fn is_identifier(low: usize, high: usize, bytes: &[u8]) -> bool
    ensures { result ≡ limits.is_identifier low high bytes.now }
{
    has_length(low, high, bytes) && all_seven_bit(bytes)
}

// Whether UNH's reference and message identifier are within their limits.
fn has_identity(unh: &Segment) -> bool
    ensures { result ≡ check.has_identity unh.now }
{
    let reference = unh.component(0, 0);
    has_length(1, 14, reference)
        && all_printable(reference)
        && is_identifier(1, 6, unh.component(1, 0))
        && is_identifier(1, 3, unh.component(1, 1))
        && is_identifier(1, 3, unh.component(1, 2))
        && is_identifier(1, 3, unh.component(1, 3))
        && is_identifier(0, 6, unh.component(1, 4))
}

// Whether the first segment is a UNH whose reference and message identifier are within their limits.
fn is_identified(segments: &[Segment]) -> bool
    ensures { result ≡ check.has_identity (first_segment segments.now) }
{
    match segments.first() {
        Some(unh) => has_identity(unh),
        None => false,
    }
}

// Returns the first component of an element of the last segment.
fn last_component(segments: &[Segment], element: usize) -> &[u8]
    ensures { result.now ≡ component (last_segment segments.now) element 0 }
{
    match segments.last() {
        Some(segment) => segment.component(element, 0),
        None => &[],
    }
}

// Returns the message reference number in UNH.
fn reference_of(message: &[Segment]) -> &[u8]
    ensures { result.now ≡ messages.reference_of message.now }
{
    match message.first() {
        Some(unh) => unh.component(0, 0),
        None => &[],
    }
}

// Whether UNH and UNT are within their limits.
fn is_within_limits(message: &[Segment]) -> bool
    ensures { result ≡ messages.is_within_limits message.now }
{
    is_identified(message) && count_of(last_component(message, 0)).is_some()
}

// Whether a message has a fault.
fn shows(fault: EnvelopeFault, message: &[Segment]) -> bool
    ensures { result ≡ spec.shows fault message.now }
{
    match fault {
        EnvelopeFault::MessageHeader => !is_within_limits(message),
        EnvelopeFault::SegmentCount => !is_count_of(last_component(message, 0), message.len()),
        EnvelopeFault::MessageReference => last_component(message, 1) != reference_of(message),
        _ => false,
    }
}

// Returns the segment of a message that shows its fault.
fn place_in_message(fault: EnvelopeFault, segments: &[Segment]) -> usize
    ensures within { result ≤ length segments.now + 1 }
    ensures value { result ≡ spec.place_in_message fault segments.now }
{
    if fault == EnvelopeFault::MessageHeader && !is_identified(segments) {
        1
    } else {
        first_tag_place(b"UNT", segments)
    }
}

// Returns the segment that shows the fault of the first message that has it.
fn first_shown_place(fault: EnvelopeFault, segments: &[Segment]) -> usize
    ensures { result ≡ spec.first_shown_place fault segments.now }
{
    for (index, segment) in segments.iter().enumerate() {
        let rest = &segments[index..];
        if segment.tag == *b"UNH" && shows(fault, message_at(rest)) {
            return index + place_in_message(fault, rest);
        }
    }
    segments.len()
}

// Returns the first UNH with the reference of an earlier one.
fn first_repeat_place(alloc: Global, segments: &[Segment]) -> Result<usize, MemoryFault>
    ensures { IfOk result (λ place. place ≡ spec.first_repeat_place [] segments.now) }
{
    let mut seen = Seen::new(alloc);
    for (index, segment) in segments.iter().enumerate() {
        if segment.tag == *b"UNH" && !seen.insert(segment.component(0, 0))? {
            return Ok(index + 1);
        }
    }
    Ok(segments.len())
}

// Returns the UNH that comes after this many messages.
fn place_of_unh(before: usize, segments: &[Segment]) -> usize
    ensures { result ≡ spec.place_of_unh before segments.now }
{
    let mut before = before;
    for (index, segment) in segments.iter().enumerate() {
        if segment.tag == *b"UNH" {
            if before == 0 {
                return index + 1;
            }
            before -= 1;
        }
    }
    segments.len()
}

// Whether one of the bytes is 0xA0 or above.
fn has_high(bytes: &[u8]) -> bool
    ensures { result ≡ interchange.has_high bytes.now }
{
    bytes.iter().any(|b| *b >= 0xa0)
}

fn has_high_component(components: &[Items<u8>]) -> bool
    ensures { result ≡ list_any interchange.has_high components.now }
{
    components
        .iter()
        .any(|component| has_high(component.as_slice()))
}

fn has_high_data(segment: &Segment) -> bool
    ensures { result ≡ interchange.has_high_data segment.now }
{
    let elements = segment.elements.as_slice();
    elements
        .iter()
        .any(|element| has_high_component(element.as_slice()))
}

// Returns the first segment with a byte of 0xA0 or above in its data.
fn first_high_place(segments: &[Segment]) -> usize
    ensures { result ≡ first_place interchange.has_high_data segments.now }
{
    for (index, segment) in segments.iter().enumerate() {
        if has_high_data(segment) {
            return index + 1;
        }
    }
    segments.len()
}

/// Returns the number of the segment that shows the fault of an interchange (ISO 9735, structures) among all its
/// segments. UNB is number 1; `None` if there is no segment. For segments without this fault it is some number. Only
/// the comparison of references takes memory.
pub fn envelope_place(
    alloc: Global,
    fault: EnvelopeFault,
    segments: &[Segment],
) -> Result<Option<usize>, MemoryFault>
    ensures { IfOk result (λ place. place ≡ spec.envelope_place fault segments.now) }
{
    let place = match fault {
        EnvelopeFault::InterchangeFrame => return Ok(frame_place(segments)),
        EnvelopeFault::Memory => return Ok(None),
        EnvelopeFault::InterchangeHeader | EnvelopeFault::TestIndicator => 1,
        EnvelopeFault::MessageFrame => row_place(segments),
        EnvelopeFault::MessageHeader
        | EnvelopeFault::SegmentCount
        | EnvelopeFault::MessageReference => first_shown_place(fault, segments),
        EnvelopeFault::MessageCount | EnvelopeFault::ControlReference => segments.len(),
        EnvelopeFault::RepeatedReference => first_repeat_place(alloc, segments)?,
        EnvelopeFault::TooManyMessages => place_of_unh(MOST_MESSAGES, segments),
        EnvelopeFault::CharacterSet => first_high_place(segments),
    };
    Ok(Some(place))
}
