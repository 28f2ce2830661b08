//! Appends the text of a segment that is lent (ISO 9735, character sets and structures).

ghost use Rattle.std.specs.Prelude.{◌≡◌, [], ◌∷◌, ◌++◌, OnOk, OnErr};
ghost use Rattle.edi_segments.specs.Service.{usual_terminator};
ghost use Rattle.edi_segments.specs.Segment.{element_at};
ghost use Rattle.edi_segments.specs.SegmentRef.{segment_in};
ghost use Rattle.edi_tokens.specs.Text.{component_text, element_text, others_text, segment_text};
ghost use Rattle.edi_tokens.specs.Appending.{KeepsFront, with_first, with_component};

use crate::text::plain_len;
use edi_base::MemoryFault;
use edi_segments::{COMPONENT, ELEMENT, RELEASE, SegmentRef, TERMINATOR};

fn append_component(out: &mut Vec<u8>, component: &[u8]) -> Result<(), MemoryFault>
    ensures ok { OnOk result (out.new.items ≡ out.old.items ++ component_text component.now) }
    ensures kept { KeepsFront out.old.items out.new.items }
{
    let mut rest = component;
    loop {
        let (plain, after) = rest.split_at(plain_len(rest));
        out.extend_from_slice(plain)?;
        let Some((byte, after)) = after.split_first() else {
            return Ok(());
        };
        out.push(RELEASE)?;
        out.push(*byte)?;
        rest = after;
    }
}

/// Appends the components of an element after the first.
#[tactic(auto, using(crate::proofs::Kept::keeps))]
fn append_others(
    out: &mut Vec<u8>,
    segment: &SegmentRef<'_>,
    element: usize,
) -> Result<(), MemoryFault>
    ensures ok { OnOk result (out.new.items ≡ out.old.items
        ++ others_text (element_at (segment_in segment.now).elements element)) }
    ensures kept { KeepsFront out.old.items out.new.items }
{
    for place in 1..segment.components(element) {
        out.push(COMPONENT)?;
        append_component(out, segment.component(element, place))?;
    }
    Ok(())
}

#[tactic(auto, using(crate::proofs::Kept::keeps))]
fn append_element(
    out: &mut Vec<u8>,
    segment: &SegmentRef<'_>,
    element: usize,
) -> Result<(), MemoryFault>
    ensures ok { OnOk result (out.new.items ≡ out.old.items
        ++ element_text (element_at (segment_in segment.now).elements element)) }
    ensures kept { KeepsFront out.old.items out.new.items }
{
    out.push(ELEMENT)?;
    append_component(out, segment.component(element, 0))?;
    append_others(out, segment, element)
}

/// Appends an element with another first component, if it has one.
#[tactic(auto, using(crate::proofs::Kept::keeps))]
fn append_element_with(
    out: &mut Vec<u8>,
    segment: &SegmentRef<'_>,
    element: usize,
    first: &[u8],
) -> Result<(), MemoryFault>
    ensures ok { OnOk result (out.new.items ≡ out.old.items
        ++ element_text (with_first (element_at (segment_in segment.now).elements element) first.now)) }
    ensures kept { KeepsFront out.old.items out.new.items }
{
    out.push(ELEMENT)?;
    if segment.components(element) == 0 {
        return Ok(());
    }
    append_component(out, first)?;
    append_others(out, segment, element)
}

/// Appends the canonical text of a segment. If memory runs out, a part of it may be left there.
#[tactic(auto, using(crate::proofs::Kept::keeps))]
fn append_parts(out: &mut Vec<u8>, segment: &SegmentRef<'_>) -> Result<(), MemoryFault>
    ensures ok { OnOk result (out.new.items ≡ out.old.items ++ segment_text (segment_in segment.now)) }
    ensures kept { KeepsFront out.old.items out.new.items }
{
    out.extend_from_slice(&segment.tag())?;
    for element in 0..segment.elements() {
        append_element(out, segment, element)?;
    }
    out.push(TERMINATOR)?;
    Ok(())
}

/// Appends the canonical text of a segment, with another first component of an element. If memory runs out, a part of
/// it may be left there.
#[tactic(auto, using(crate::proofs::Kept::keeps))]
fn append_parts_with(
    out: &mut Vec<u8>,
    segment: &SegmentRef<'_>,
    place: usize,
    first: &[u8],
) -> Result<(), MemoryFault>
    ensures ok { OnOk result (out.new.items ≡ out.old.items
        ++ segment_text (with_component (segment_in segment.now) place first.now)) }
    ensures kept { KeepsFront out.old.items out.new.items }
{
    out.extend_from_slice(&segment.tag())?;
    for element in 0..segment.elements() {
        if element == place {
            append_element_with(out, segment, element, first)?;
        } else {
            append_element(out, segment, element)?;
        }
    }
    out.push(TERMINATOR)?;
    Ok(())
}

/// Appends the canonical text of a segment, of which all but the terminator is given.
#[tactic(auto, using(crate::proofs::Kept::keeps))]
fn append_front(out: &mut Vec<u8>, front: &[u8]) -> Result<(), MemoryFault>
    ensures ok { OnOk result (out.new.items ≡ out.old.items ++ (front.now ++ usual_terminator ∷ [])) }
    ensures kept { KeepsFront out.old.items out.new.items }
{
    out.extend_from_slice(front)?;
    out.push(TERMINATOR)?;
    Ok(())
}

/// Appends the canonical text of a segment, at once if it is kept. If memory runs out, a part of it may be left there.
fn append_whole(out: &mut Vec<u8>, segment: &SegmentRef<'_>) -> Result<(), MemoryFault>
    ensures ok { OnOk result (out.new.items ≡ out.old.items ++ segment_text (segment_in segment.now)) }
    ensures kept { KeepsFront out.old.items out.new.items }
{
    match segment.text() {
        Some(front) => append_front(out, front),
        None => append_parts(out, segment),
    }
}

/// Appends the canonical text of a segment.
pub fn append_segment(out: &mut Vec<u8>, segment: &SegmentRef<'_>) -> Result<(), MemoryFault>
    ensures ok { OnOk result (out.new.items ≡ out.old.items ++ segment_text (segment_in segment.now)) }
    ensures err { OnErr result (out.new.items ≡ out.old.items) }
{
    let length = out.len();
    let result = append_whole(out, segment);
    if result.is_err() {
        out.truncate(length);
    }
    result
}

/// Appends the canonical text of a segment, with another first component of the element with this number, counted from
/// 0. A segment without such a component stays as it is.
pub fn append_segment_with(
    out: &mut Vec<u8>,
    segment: &SegmentRef<'_>,
    place: usize,
    first: &[u8],
) -> Result<(), MemoryFault>
    ensures ok { OnOk result (out.new.items ≡ out.old.items
        ++ segment_text (with_component (segment_in segment.now) place first.now)) }
    ensures err { OnErr result (out.new.items ≡ out.old.items) }
{
    let length = out.len();
    let result = append_parts_with(out, segment, place, first);
    if result.is_err() {
        out.truncate(length);
    }
    result
}
