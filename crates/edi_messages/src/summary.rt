//! Reads the summary of a message.
ghost use Rattle.std.specs.Prelude.{◌≡◌, filter, option_map};
ghost use Rattle.edi_messages.specs.Parts as parts;
ghost use Rattle.edi_messages.specs.Summary as spec;

use crate::parts::{has_lin, has_qualified, is_lin, is_uns, only_qualified};
use edi_base::is_count_of;
use edi_envelope::Segment;

// Returns the UNS, if there is exactly one.
fn only_section(message: &[Segment]) -> Option<&Segment>
    ensures { option_map (λ segment. segment.now) result ≡ parts.only (filter parts.is_uns message.now) }
{
    let mut found = None;
    for segment in message {
        if is_uns(segment) {
            if found.is_some() {
                return None;
            }
            found = Some(segment);
        }
    }
    found
}

// Returns what follows the first UNS.
fn behind_uns(message: &[Segment]) -> &[Segment]
    ensures { result.now ≡ spec.behind_uns message.now }
{
    for (index, segment) in message.iter().enumerate() {
        if is_uns(segment) {
            return &message[index + 1..];
        }
    }
    &[]
}

/// Whether there is one UNS, whose element (0081) is S, and no LIN after it.
pub fn has_summary(message: &[Segment]) -> bool
    ensures { result ≡ spec.has_summary message.now }
{
    match only_section(message) {
        Some(section) => section.component(0, 0) == b"S".as_slice()
            && !has_lin(behind_uns(message)),
        None => false,
    }
}

/// Counts the LIN of a message.
pub fn line_count(message: &[Segment]) -> usize
    ensures { result ≡ spec.line_count message.now }
{
    message.iter().filter(|segment| is_lin(segment)).count()
}

/// Whether there is no control of the number of line items (CNT with 6069 2), or exactly one, with the number of LIN.
pub fn is_controlled(message: &[Segment]) -> bool
    ensures { result ≡ spec.is_controlled message.now }
{
    if !has_qualified(b"CNT", b"2", message) {
        return true;
    }
    match only_qualified(b"CNT", b"2", message) {
        Some(control) => is_count_of(control.component(0, 1), line_count(message)),
        None => false,
    }
}
