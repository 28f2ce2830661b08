ghost use Rattle.std.specs.Prelude.{◌≡◌, ◌≤◌, [], ◌∷◌, All, ◌++◌, map, IsTrue, IfOk, OnOk};
ghost use Rattle.edi_segments.specs.Characters.{is_digit};
ghost use Rattle.edi_tokens.specs.Text.{text};
ghost use Rattle.edi_moment.specs.Moment.{date_text, time_text};
ghost use Rattle.edi_envelope.specs.Mail.{unb_from, unz_of, with_one, renumbered, mail_segments, mail_interchange, last_number};

use crate::interchange::RawMessage;
use edi_base::copy_bytes;
use edi_moment::{Moment, date_digits, time_digits};
use edi_tokens::{Elements, Items, MemoryFault, Segment, append_segments};
use std::alloc::Global;
use std::array;

/// The greatest number of a mail text: 14 digits, as many as a control reference has.
pub const LAST_MAIL_NUMBER: u64 = 99_999_999_999_999;

fn copied_element(alloc: Global, components: &[Items<u8>]) -> Result<Items<Items<u8>>, MemoryFault>
    ensures { IfOk result (λ copy. copy ≡ components.now) }
{
    let mut copy = Items::new(alloc);
    for component in components {
        copy.push(copy_bytes(alloc, component.as_slice())?)?;
    }
    Ok(copy)
}

fn copied_elements(alloc: Global, elements: &[Items<Items<u8>>]) -> Result<Elements, MemoryFault>
    ensures { IfOk result (λ copy. copy ≡ elements.now) }
{
    let mut copy = Items::new(alloc);
    for element in elements {
        copy.push(copied_element(alloc, element.as_slice())?)?;
    }
    Ok(copy)
}

fn push_pair(
    alloc: Global,
    elements: &mut Elements,
    first: &[u8],
    second: &[u8],
) -> Result<(), MemoryFault>
    ensures { OnOk result (elements.new ≡ elements.old ++ (first.now ∷ second.now ∷ []) ∷ []) }
{
    let mut element = Items::new(alloc);
    element.push(copy_bytes(alloc, first)?)?;
    element.push(copy_bytes(alloc, second)?)?;
    elements.push(element)?;
    Ok(())
}

fn push_single(alloc: Global, elements: &mut Elements, only: &[u8]) -> Result<(), MemoryFault>
    ensures { OnOk result (elements.new ≡ elements.old ++ (only.now ∷ []) ∷ []) }
{
    let mut element = Items::new(alloc);
    element.push(copy_bytes(alloc, only)?)?;
    elements.push(element)?;
    Ok(())
}

fn header(
    alloc: Global,
    hub: &[u8; 13],
    owner: &[u8; 13],
    moment: Moment,
    reference: &[u8],
) -> Result<Segment, MemoryFault>
    ensures { IfOk result (λ segment.
        segment ≡ unb_from hub.now owner.now (date_text moment) (time_text moment) reference.now) }
{
    let mut elements = Items::new(alloc);
    push_pair(alloc, &mut elements, b"UNOC", b"3")?;
    push_pair(alloc, &mut elements, hub, b"14")?;
    push_pair(alloc, &mut elements, owner, b"14")?;
    push_pair(
        alloc,
        &mut elements,
        &date_digits(moment),
        &time_digits(moment),
    )?;
    push_single(alloc, &mut elements, reference)?;
    Ok(Segment {
        tag: *b"UNB",
        elements,
    })
}

fn trailer(alloc: Global, reference: &[u8]) -> Result<Segment, MemoryFault>
    ensures { IfOk result (λ segment. segment ≡ unz_of reference.now) }
{
    let mut elements = Items::new(alloc);
    push_single(alloc, &mut elements, b"1")?;
    push_single(alloc, &mut elements, reference)?;
    Ok(Segment {
        tag: *b"UNZ",
        elements,
    })
}

// Returns the elements, with `1` as the first component of the element at a place.
fn numbered_elements(
    alloc: Global,
    elements: Elements,
    place: usize,
) -> Result<Elements, MemoryFault>
    ensures { IfOk result (λ numbered. numbered ≡ with_one elements place) }
{
    let mut elements = elements.into_vec();
    if place < elements.len() {
        let mut element = copied_element(alloc, elements[place].as_slice())?.into_vec();
        if !element.is_empty() {
            element[0] = copy_bytes(alloc, b"1")?;
        }
        elements[place] = Items::from_vec(element);
    }
    Ok(Items::from_vec(elements))
}

// Returns a copy of a segment, with `1` as the message reference number of UNH and UNT.
fn numbered_segment(alloc: Global, segment: &Segment) -> Result<Segment, MemoryFault>
    ensures { IfOk result (λ numbered. numbered ≡ renumbered segment.now) }
{
    let mut elements = copied_elements(alloc, segment.elements.as_slice())?;
    if segment.tag == *b"UNH" {
        elements = numbered_elements(alloc, elements, 0)?;
    } else if segment.tag == *b"UNT" {
        elements = numbered_elements(alloc, elements, 1)?;
    }
    Ok(Segment {
        tag: segment.tag,
        elements,
    })
}

// Appends copies of segments, with `1` as the message reference number of UNH and UNT.
fn push_numbered(
    alloc: Global,
    out: &mut Items<Segment>,
    segments: &[Segment],
) -> Result<(), MemoryFault>
    ensures { OnOk result (out.new ≡ out.old ++ map renumbered segments.now) }
{
    for segment in segments {
        out.push(numbered_segment(alloc, segment)?)?;
    }
    Ok(())
}

/// Returns the segments of the hub's interchange to a supplier that carries one message: UNB from `hub` to `owner`
/// (GLNs of 13 digits) with date and time of `moment` at UTC and `number` as control reference, the message with the
/// message reference number `1`, and UNZ. Written after a service string they are the mail text. Fails only for memory.
pub fn wrap(
    alloc: Global,
    hub: &[u8; 13],
    owner: &[u8; 13],
    moment: Moment,
    number: u64,
    message: &RawMessage,
) -> Result<Items<Segment>, MemoryFault>
    requires hub { All (λ digit. IsTrue (is_digit digit)) hub.now }
    requires owner { All (λ digit. IsTrue (is_digit digit)) owner.now }
    requires number { (1 ≤ number) × (number ≤ last_number) }
    ensures segments { IfOk result (λ segments.
        segments ≡ mail_segments hub.now owner.now moment number message.now) }
    ensures text { IfOk result (λ segments.
        text segments ≡ mail_interchange hub.now owner.now moment number message.now) }
{
    let reference = format!(in alloc; "{number}")?;
    let mut segments = Items::new(alloc);
    segments.push(header(alloc, hub, owner, moment, reference.as_bytes())?)?;
    push_numbered(alloc, &mut segments, message.segments.as_slice())?;
    segments.push(trailer(alloc, reference.as_bytes())?)?;
    Ok(segments)
}

// Appends the text of a segment, with `1` as the message reference number of UNH and UNT.
fn put_numbered(alloc: Global, out: &mut Vec<u8>, segment: &Segment) -> Result<(), MemoryFault>
    ensures { OnOk result (out.new.items ≡ out.old.items ++ text (renumbered segment.now ∷ [])) }
{
    if segment.tag == *b"UNH" || segment.tag == *b"UNT" {
        let numbered = [numbered_segment(alloc, segment)?];
        append_segments(out, &numbered)?;
    } else {
        append_segments(out, array::from_ref(segment))?;
    }
    Ok(())
}

/// Returns the canonical text of a message from UNH to UNT, with the message reference number `1` in both, as a mailbox
/// has it. Fails only for memory.
pub fn mail_message_text(alloc: Global, message: &RawMessage) -> Result<Items<u8>, MemoryFault>
    ensures { IfOk result (λ body. body ≡ text (map renumbered message.now.segments)) }
{
    let mut body = Vec::new(alloc);
    for segment in message.segments.as_slice() {
        put_numbered(alloc, &mut body, segment)?;
    }
    Ok(Items::from_vec(body))
}
