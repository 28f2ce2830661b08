//! Reads references to an order and its lines (RFF with 1153 ON).
ghost use Rattle.std.specs.Prelude.{◌≡◌, true, false, Some, option_map};
ghost use Rattle.std.specs.Option.{IfSome, IfNone};
ghost use Rattle.edi_messages.specs.References as spec;

use crate::parts::{has_qualified, header, only_qualified};
use crate::values::{is_document_number, line_number};
use edi_envelope::Segment;

/// Whether a part has a reference to an order.
pub fn has_reference(part: &[Segment]) -> bool
    ensures { result ≡ spec.has_reference part.now }
{
    has_qualified(b"RFF", b"ON", part)
}

/// Returns the reference to an order in a part, if there is exactly one.
pub fn reference(part: &[Segment]) -> Option<&Segment>
    ensures { option_map (λ rff. rff.now) result ≡ spec.reference part.now }
{
    only_qualified(b"RFF", b"ON", part)
}

/// Returns the order number of a reference (1154), if it is within its limits.
pub(crate) fn order_named(rff: &Segment) -> Option<&[u8]>
    ensures { option_map (λ number. number.now) result ≡ spec.order_named rff.now }
{
    let number = rff.component(0, 1);
    if is_document_number(number) {
        Some(number)
    } else {
        None
    }
}

/// Returns the order number of the one reference in the header of a message.
pub fn order(message: &[Segment]) -> Option<&[u8]>
    ensures { option_map (λ number. number.now) result ≡ spec.order message.now }
{
    order_named(reference(header(message))?)
}

// Returns the line number of a reference (1156), `Some(None)` if there is none, or `None` if it is wrong.
fn line_or_none(rff: &Segment) -> Option<Option<u32>>
    ensures some { IfSome result (λ line.
        (line ≡ spec.line_named rff.now) × (spec.has_line_or_none rff.now ≡ true)) }
    ensures none { IfNone result (spec.has_line_or_none rff.now ≡ false) }
{
    let bytes = rff.component(0, 2);
    if bytes.is_empty() {
        return Some(None);
    }
    let line = line_number(bytes)?;
    Some(Some(line))
}

/// What a reference names: an order, and perhaps a line of it.
#[derive(Clone, Copy)]
pub struct NamedOrder<'a> {
    /// The order number (1154), 1 to 35 bytes.
    pub order: &'a [u8],
    /// The line number (1156), if there is one.
    pub line: Option<u32>,
}

/// Returns what a reference names, if it has an order number, and a valid line number or none.
pub fn read_reference(rff: &Segment) -> Option<NamedOrder<'_>>
    ensures some { IfSome result (λ said. (spec.order_named rff.now ≡ Some said.order.now)
        × (said.line ≡ spec.line_named rff.now) × (spec.is_order_reference rff.now ≡ true)) }
    ensures none { IfNone result (spec.is_order_reference rff.now ≡ false) }
{
    let order = order_named(rff)?;
    let line = line_or_none(rff)?;
    Some(NamedOrder { order, line })
}
