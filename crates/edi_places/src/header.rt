//! Finds the segment that shows a fault of a message outside of its lines, by its number. UNH is number 1.
ghost use Rattle.std.specs.Prelude.{◌≡◌, ◌≤◌, length};
ghost use Rattle.edi_goods.specs.Parties.{has_buyer_or_none};
ghost use Rattle.edi_places.specs.Header as spec;

use crate::counting::{first_tag_place, has_tag, once_place, second_or_first_place};
use edi_messages::header::party;
use edi_messages::parts::{has_qualified, header};
use edi_tokens::Segment;

/// Returns the segment that shows a wrong beginning: another BGM, or else the segment after UNH.
pub(crate) fn beginning_place(message: &[Segment]) -> usize
    ensures { result ≡ spec.beginning_place message.now }
{
    if message.len() <= 2 {
        return 2;
    }
    let rest = &message[2..];
    if message[1].tag == *b"BGM" && has_tag(b"BGM", rest) {
        2 + first_tag_place(b"BGM", rest)
    } else {
        2
    }
}

// Returns the second segment of a kind that has to come once in the header, or else the only one, or else UNH.
fn header_place(tag: &[u8; 3], qualifier: &[u8], message: &[Segment]) -> usize
    ensures { result ≡ spec.header_place tag.now qualifier.now message.now }
{
    1 + once_place(tag, qualifier, 0, header(message))
}

/// Returns the DTM that shows a wrong document date, or else UNH.
pub(crate) fn date_place(message: &[Segment]) -> usize
    ensures { result ≡ spec.date_place message.now }
{
    header_place(b"DTM", b"137", message)
}

/// Returns the NAD that shows a wrong buyer or a wrong supplier, or else UNH.
pub(crate) fn parties_place(message: &[Segment]) -> usize
    ensures { result ≡ spec.parties_place message.now }
{
    if party(b"BY", message).is_some() {
        header_place(b"NAD", b"SU", message)
    } else {
        header_place(b"NAD", b"BY", message)
    }
}

fn has_buyer_or_none(message: &[Segment]) -> bool
    ensures { result ≡ has_buyer_or_none message.now }
{
    !has_qualified(b"NAD", b"BY", header(message)) || party(b"BY", message).is_some()
}

/// Like `parties_place`, for a message that may leave out the buyer.
pub(crate) fn goods_parties_place(message: &[Segment]) -> usize
    ensures { result ≡ spec.goods_parties_place message.now }
{
    if has_buyer_or_none(message) {
        header_place(b"NAD", b"SU", message)
    } else {
        header_place(b"NAD", b"BY", message)
    }
}

/// Returns the RFF that shows a wrong reference of the header, or else UNH.
pub(crate) fn reference_place(message: &[Segment]) -> usize
    ensures { result ≡ spec.reference_place message.now }
{
    header_place(b"RFF", b"ON", message)
}

// Returns what shows a wrong summary after the first UNS, whose number is given.
fn behind_section(first: usize, message: &[Segment]) -> usize
    requires { first ≤ length message.now }
    ensures { result ≡ spec.behind_section first message.now }
{
    let rest = &message[first..];
    if has_tag(b"UNS", rest) {
        first + first_tag_place(b"UNS", rest)
    } else {
        second_or_first_place(b"LIN", first, message)
    }
}

/// Returns the second UNS, or else a LIN after the only one, or else that one, or else UNH.
pub(crate) fn summary_place(message: &[Segment]) -> usize
    ensures { result ≡ spec.summary_place message.now }
{
    if has_tag(b"UNS", message) {
        behind_section(first_tag_place(b"UNS", message), message)
    } else {
        1
    }
}

/// Returns the CNT that shows a wrong number of lines.
pub(crate) fn control_place(message: &[Segment]) -> usize
    ensures { result ≡ spec.control_place message.now }
{
    once_place(b"CNT", b"2", 1, message)
}
