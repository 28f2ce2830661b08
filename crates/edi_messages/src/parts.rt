//! Splits a message into its parts, and finds the segments of a kind in a part.
ghost use Rattle.std.specs.Prelude.{◌≡◌, ◌≤◌, length, not, option_map};
ghost use Rattle.std.specs.List.{list_any, prefix_len};
ghost use Rattle.edi_messages.specs.Parts as spec;

use edi_envelope::Segment;

/// Whether a segment is a LIN, a line item.
pub fn is_lin(segment: &Segment) -> bool
    ensures { result ≡ spec.is_lin segment.now }
{
    segment.tag == *b"LIN"
}

/// Whether a segment is a UNS, a section control.
pub(crate) fn is_uns(segment: &Segment) -> bool
    ensures { result ≡ spec.is_uns segment.now }
{
    segment.tag == *b"UNS"
}

/// Whether a segment is a CPS, with which a packing group begins.
pub fn is_cps(segment: &Segment) -> bool
    ensures { result ≡ spec.is_cps segment.now }
{
    segment.tag == *b"CPS"
}

/// Whether one of the segments is a LIN.
pub fn has_lin(segments: &[Segment]) -> bool
    ensures { result ≡ list_any spec.is_lin segments.now }
{
    segments.iter().any(|segment| is_lin(segment))
}

// Whether a header or a line group ends before a segment.
fn ends_part(segment: &Segment) -> bool
    ensures { result ≡ spec.ends_part segment.now }
{
    is_lin(segment) || is_cps(segment) || is_uns(segment) || segment.tag == *b"UNT"
}

// Counts the segments before the first that ends a part.
fn part_len(segments: &[Segment]) -> usize
    ensures within { result ≤ length segments.now }
    ensures value { result ≡ prefix_len (λ segment. not (spec.ends_part segment)) segments.now }
{
    for (index, segment) in segments.iter().enumerate() {
        if ends_part(segment) {
            return index;
        }
    }
    segments.len()
}

// Returns the segments before the first that ends a part.
fn up_to_end(segments: &[Segment]) -> &[Segment]
    ensures { result.now ≡ spec.up_to_end segments.now }
{
    let (part, _) = segments.split_at(part_len(segments));
    part
}

/// Returns the header of a message.
pub fn header(message: &[Segment]) -> &[Segment]
    ensures { result.now ≡ spec.header message.now }
{
    match message.split_first() {
        Some((_, rest)) => up_to_end(rest),
        None => &[],
    }
}

/// Returns the first segment with what follows it, up to the next that ends a group.
pub fn group_of(segments: &[Segment]) -> &[Segment]
    ensures { result.now ≡ spec.group_of segments.now }
{
    match segments.split_first() {
        Some((_, rest)) => {
            let (group, _) = segments.split_at(1 + part_len(rest));
            group
        }
        None => &[],
    }
}

/// Whether a segment has this tag, and this qualifier as the first component of element 1.
pub(crate) fn is_qualified(tag: &[u8; 3], qualifier: &[u8], segment: &Segment) -> bool
    ensures { result ≡ spec.is_qualified tag.now qualifier.now segment.now }
{
    segment.tag == *tag && segment.component(0, 0) == qualifier
}

/// Whether a part has a segment with this tag and this qualifier.
pub fn has_qualified(tag: &[u8; 3], qualifier: &[u8], part: &[Segment]) -> bool
    ensures { result ≡ spec.has_qualified tag.now qualifier.now part.now }
{
    for segment in part {
        if is_qualified(tag, qualifier, segment) {
            return true;
        }
    }
    false
}

/// Returns the segment of a part with this tag and this qualifier, if there is exactly one.
pub fn only_qualified<'a>(
    tag: &[u8; 3],
    qualifier: &[u8],
    part: &'a [Segment],
) -> Option<&'a Segment>
    ensures { option_map (λ segment. segment.now) result
        ≡ spec.only_qualified tag.now qualifier.now part.now }
{
    let mut found = None;
    for segment in part {
        if is_qualified(tag, qualifier, segment) {
            if found.is_some() {
                return None;
            }
            found = Some(segment);
        }
    }
    found
}
