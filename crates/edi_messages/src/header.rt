//! Reads the header of a message.
ghost use Rattle.std.specs.Prelude.{◌≡◌, length, filter};
ghost use Rattle.edi_envelope.specs.Segments.{component};
ghost use Rattle.edi_messages.specs.Header as spec;

use crate::parts::{header, only_qualified};
use crate::values::{is_date, is_document_number};
use edi_envelope::{RawMessage, Segment};
use gs1_ids::Gln;

/// Whether a message is of this type, of the directory D.01B of UN.
pub fn is_type(kind: &[u8], message: &RawMessage) -> bool
    ensures { result ≡ spec.is_type kind.now message.now }
{
    message.kind.as_slice() == kind
        && message.version.as_slice() == b"D".as_slice()
        && message.release.as_slice() == b"01B".as_slice()
        && message.agency.as_slice() == b"UN".as_slice()
}

fn is_bgm(segment: &Segment) -> bool
    ensures { result ≡ spec.is_bgm segment.now }
{
    segment.tag == *b"BGM"
}

// Counts the BGM segments.
fn beginning_count(message: &[Segment]) -> usize
    ensures { result ≡ length (filter spec.is_bgm message.now) }
{
    message.iter().filter(|segment| is_bgm(segment)).count()
}

// Returns the first component of an element of the segment after UNH.
fn beginning_component(message: &[Segment], element: usize) -> &[u8]
    ensures { result.now ≡ component (spec.beginning message.now) element 0 }
{
    match message.get(1) {
        Some(beginning) => beginning.component(element, 0),
        None => &[],
    }
}

/// Returns the document number (BGM 1004).
pub fn document_number(message: &[Segment]) -> &[u8]
    ensures { result.now ≡ spec.document_number message.now }
{
    beginning_component(message, 1)
}

/// Returns the message function (BGM 1225).
pub fn function(message: &[Segment]) -> &[u8]
    ensures { result.now ≡ spec.function message.now }
{
    beginning_component(message, 2)
}

/// Whether BGM follows UNH and comes only there, with this code (1001) and a document number (1004).
pub fn begins_as(code: &[u8], message: &[Segment]) -> bool
    ensures { result ≡ spec.begins_as code.now message.now }
{
    match message.get(1) {
        Some(beginning) => {
            is_bgm(beginning)
                && beginning_count(message) == 1
                && beginning.component(0, 0) == code
                && is_document_number(beginning.component(1, 0))
        }
        None => false,
    }
}

/// Whether the header has exactly one document date (DTM with 2005 137), of format 102 or 203, and that day and
/// time exist.
pub fn has_date(message: &[Segment]) -> bool
    ensures { result ≡ spec.has_date message.now }
{
    match only_qualified(b"DTM", b"137", header(message)) {
        Some(date) => is_date(date.component(0, 2), date.component(0, 1)),
        None => false,
    }
}

// Returns the GLN of a party, if it is valid and 3055 says that it is one.
fn party_gln(party: &Segment) -> Option<Gln>
    ensures { result ≡ spec.party_gln party.now }
{
    let gln = Gln::parse(party.component(1, 0))?;
    if party.component(1, 2) == b"9".as_slice() {
        Some(gln)
    } else {
        None
    }
}

/// Returns the party that the header names in a role (NAD with 3035): there is exactly one such NAD, and it has a valid
/// GLN (3039) with 3055 9. `BY` is the buyer, `SU` the supplier.
pub fn party(role: &[u8], message: &[Segment]) -> Option<Gln>
    ensures { result ≡ spec.party role.now message.now }
{
    party_gln(only_qualified(b"NAD", role, header(message))?)
}

/// Returns the supplier that the header of a message names: there is exactly one NAD with 3035 SU, and it has a valid
/// GLN (3039) with 3055 9. Works for each type of message, and takes no memory.
pub fn supplier_of(message: &RawMessage) -> Option<Gln>
    ensures { result ≡ spec.supplier_of message.now.segments }
{
    party(b"SU", message.segments.as_slice())
}
