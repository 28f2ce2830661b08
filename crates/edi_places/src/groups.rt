//! Finds the first line group of which a condition does not hold, and the segment in it that shows this.
ghost use Rattle.std.specs.Prelude.{◌≡◌, ◌≤◌, ◌+◌, length, is_some};
ghost use Rattle.edi_goods.specs.Receipt as receipt;
ghost use Rattle.edi_messages.specs.Lines as lines;
ghost use Rattle.edi_orders.specs.Response as response;
ghost use Rattle.edi_places.specs.Groups as spec;

use crate::counting::once_place;
use edi_goods::announced::group_reference;
use edi_goods::received::received_quantity;
use edi_messages::lines::{line_item, quantity_of};
use edi_messages::parts::{group_of, has_qualified, is_lin};
use edi_orders::answers::{action, answer_by, order_line};
use edi_tokens::Segment;

/// What is asked of each line group.
#[derive(Clone, Copy)]
pub(crate) enum Condition {
    /// Its LIN is valid.
    Line,
    /// Its LIN is valid and has an action.
    Action,
    /// It has a quantity ordered.
    Ordered,
    /// It has the quantity that its action needs.
    Answered,
    /// It has no reference, or one to the order of the header.
    SameOrder,
    /// It has a quantity despatched.
    Despatched,
    /// It has a valid reference, or none.
    ReferenceOrNone,
    /// It has a valid reference.
    Reference,
    /// It has quantities received.
    Received,
}

fn has_line(group: &[Segment]) -> bool
    ensures { result ≡ lines.is_line group.now }
{
    line_item(group).is_some()
}

fn has_answer(group: &[Segment]) -> bool
    ensures { result ≡ is_some (response.line_answer group.now) }
{
    match action(group) {
        Some(action) => answer_by(action, group).is_some(),
        None => true,
    }
}

fn is_received(group: &[Segment]) -> bool
    ensures { result ≡ receipt.is_received group.now }
{
    match (
        received_quantity(b"194", group),
        received_quantity(b"195", group),
        received_quantity(b"196", group),
    ) {
        (Ok(accepted), Ok(returned), Ok(destroyed)) => {
            accepted.is_some() || returned.is_some() || destroyed.is_some()
        }
        _ => false,
    }
}

// Whether a condition holds of a line group. The order is that of the header.
fn holds(condition: Condition, order: &[u8], group: &[Segment]) -> bool
    ensures { result ≡ spec.holds condition order.now group.now }
{
    match condition {
        Condition::Line => has_line(group),
        Condition::Action => has_line(group) && action(group).is_some(),
        Condition::Ordered => quantity_of(b"21", 1, group).is_some(),
        Condition::Answered => has_answer(group),
        Condition::SameOrder => order_line(order, group).is_ok(),
        Condition::Despatched => quantity_of(b"12", 1, group).is_some(),
        Condition::ReferenceOrNone => group_reference(true, group).is_ok(),
        Condition::Reference => group_reference(false, group).is_ok(),
        Condition::Received => is_received(group),
    }
}

// Returns the QTY of a kind that is wrong: the second, or else the only one, or else LIN.
fn quantity_place(kind: &[u8], group: &[Segment]) -> usize
    ensures within { result ≤ length group.now + 1 }
    ensures value { result ≡ spec.quantity_place kind.now group.now }
{
    once_place(b"QTY", kind, 1, group)
}

fn changed_place(group: &[Segment]) -> usize
    ensures within { result ≤ length group.now + 1 }
    ensures value { result ≡ spec.changed_place group.now }
{
    if has_qualified(b"QTY", b"113", group) {
        quantity_place(b"113", group)
    } else {
        quantity_place(b"21", group)
    }
}

// Returns the QTY of the first kind that is wrong, or else LIN.
fn received_place(group: &[Segment]) -> usize
    ensures within { result ≤ length group.now + 1 }
    ensures value { result ≡ spec.received_place group.now }
{
    if received_quantity(b"194", group).is_err() {
        quantity_place(b"194", group)
    } else if received_quantity(b"195", group).is_err() {
        quantity_place(b"195", group)
    } else {
        quantity_place(b"196", group)
    }
}

// Returns the segment of a line group that shows that a condition does not hold.
fn place_in_group(condition: Condition, group: &[Segment]) -> usize
    ensures within { result ≤ length group.now + 1 }
    ensures value { result ≡ spec.place_in_group condition group.now }
{
    match condition {
        Condition::Line | Condition::Action => 1,
        Condition::Ordered => quantity_place(b"21", group),
        Condition::Answered => changed_place(group),
        Condition::Despatched => quantity_place(b"12", group),
        Condition::Received => received_place(group),
        Condition::SameOrder | Condition::ReferenceOrNone | Condition::Reference => {
            once_place(b"RFF", b"ON", 1, group)
        }
    }
}

// Counts the segments before the first line group of which a condition does not hold.
fn before_wrong(condition: Condition, order: &[u8], segments: &[Segment]) -> usize
    ensures within { result ≤ length segments.now }
    ensures value { result ≡ spec.before_wrong condition order.now segments.now }
{
    for (index, segment) in segments.iter().enumerate() {
        if is_lin(segment) && !holds(condition, order, group_of(&segments[index..])) {
            return index;
        }
    }
    segments.len()
}

/// Returns the segment that shows that a condition does not hold of a line group, if there is such a group after this many segments:
/// that of the first one. The order is that of the header.
pub(crate) fn group_place(
    condition: Condition,
    order: &[u8],
    from: usize,
    message: &[Segment],
) -> Option<usize>
    requires { from ≤ length message.now }
    ensures { result ≡ spec.group_place condition order.now from message.now }
{
    let index = from + before_wrong(condition, order, &message[from..]);
    if index < message.len() {
        Some(index + place_in_group(condition, group_of(&message[index..])))
    } else {
        None
    }
}

/// Like `group_place`, but returns the last segment if the condition holds of each line group.
pub(crate) fn group_place_or_last(
    condition: Condition,
    order: &[u8],
    from: usize,
    message: &[Segment],
) -> usize
    requires { from ≤ length message.now }
    ensures { result ≡ spec.group_place_or_last condition order.now from message.now }
{
    group_place(condition, order, from, message).unwrap_or(message.len())
}
