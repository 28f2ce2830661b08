//! Finds segments in a list by their numbers. The first is number 1.
ghost use Rattle.std.specs.Prelude.{◌≡◌, ◌≤◌, ◌+◌, length};
ghost use Rattle.std.specs.List.{list_any};
ghost use Rattle.edi_envelope.specs.Segments.{has_tag};
ghost use Rattle.edi_messages.specs.Parts.{is_qualified};
ghost use Rattle.edi_places.specs.Counting as spec;

use edi_messages::parts::has_qualified;
use edi_tokens::Segment;

pub(crate) fn has_tag(tag: &[u8; 3], segments: &[Segment]) -> bool
    ensures { result ≡ list_any (has_tag tag.now) segments.now }
{
    for segment in segments {
        if segment.tag == *tag {
            return true;
        }
    }
    false
}

/// Returns the number of the first segment with a tag, or the number of all segments if none has it.
pub(crate) fn first_tag_place(tag: &[u8; 3], segments: &[Segment]) -> usize
    ensures within { result ≤ length segments.now }
    ensures value { result ≡ spec.first_place (has_tag tag.now) segments.now }
{
    for (index, segment) in segments.iter().enumerate() {
        if segment.tag == *tag {
            return index + 1;
        }
    }
    segments.len()
}

/// Returns the number of the second segment with a tag, or else of the first, whose number is given.
pub(crate) fn second_or_first_place(tag: &[u8; 3], first: usize, segments: &[Segment]) -> usize
    requires { first ≤ length segments.now }
    ensures { result ≡ spec.second_or_first_place (has_tag tag.now) first segments.now }
{
    let rest = &segments[first..];
    if has_tag(tag, rest) {
        first + first_tag_place(tag, rest)
    } else {
        first
    }
}

// Returns the number of the first segment with a tag and a qualifier, or the number of all segments if none has them.
fn first_qualified_place(tag: &[u8; 3], qualifier: &[u8], segments: &[Segment]) -> usize
    ensures within { result ≤ length segments.now }
    ensures value { result ≡ spec.first_place (is_qualified tag.now qualifier.now) segments.now }
{
    for (index, segment) in segments.iter().enumerate() {
        if segment.tag == *tag && segment.component(0, 0) == qualifier {
            return index + 1;
        }
    }
    segments.len()
}

/// Returns the number of the second segment with a tag and a qualifier, which has to come once; or else of the only
/// one, or else `other`.
pub(crate) fn once_place(
    tag: &[u8; 3],
    qualifier: &[u8],
    other: usize,
    segments: &[Segment],
) -> usize
    requires { other ≤ 1 }
    ensures within { result ≤ length segments.now + 1 }
    ensures value { result ≡ spec.once_place (is_qualified tag.now qualifier.now) other segments.now }
{
    if !has_qualified(tag, qualifier, segments) {
        return other;
    }
    let first = first_qualified_place(tag, qualifier, segments);
    let rest = &segments[first..];
    if has_qualified(tag, qualifier, rest) {
        first + first_qualified_place(tag, qualifier, rest)
    } else {
        first
    }
}
