//! Finds the segment that shows a fault of an order or a response, by its number. UNH is number 1.
ghost use Rattle.std.specs.Prelude.{◌≡◌, ℕ, [], IfOk, nat_eq, false};
ghost use Rattle.edi_base.specs.Seen.{comes_among};
ghost use Rattle.edi_places.specs.Orders as spec;

use crate::groups::{Condition, group_place_or_last};
use crate::header::{
    beginning_place, control_place, date_place, parties_place, reference_place, summary_place,
};
use crate::numbers::Numbers;
use edi_messages::MessageFault;
use edi_messages::lines::line_item;
use edi_messages::parts::is_lin;
use edi_messages::references::order;
use edi_tokens::{MemoryFault, Segment};
use std::alloc::Global;
use std::slice::from_ref;

// Whether a segment is a LIN that is wrong or has the number of an earlier one. The number of any other LIN is added.
fn shows_line(numbers: &mut Numbers, segment: &Segment) -> Result<bool, MemoryFault>
    ensures shows { IfOk result (λ shows. shows ≡ spec.shows_line numbers.old segment.now) }
    ensures seen { IfOk result (λ shows. shows ≡ false → (other : ℕ) →
        comes_among nat_eq other numbers.new
        ≡ comes_among nat_eq other (spec.numbers_with numbers.old segment.now)) }
{
    if !is_lin(segment) {
        return Ok(false);
    }
    let Some(item) = line_item(from_ref(segment)) else {
        return Ok(true);
    };
    let new = numbers.insert(item.number())?;
    Ok(!new)
}

// Returns the first LIN that is wrong or has the number of an earlier one.
fn first_line_place(alloc: Global, message: &[Segment]) -> Result<usize, MemoryFault>
    ensures { IfOk result (λ place. place ≡ spec.first_line_place [] message.now) }
{
    let mut numbers = Numbers::new(alloc);
    for (index, segment) in message.iter().enumerate() {
        if shows_line(&mut numbers, segment)? {
            return Ok(index + 1);
        }
    }
    Ok(message.len())
}

/// Returns the number of the segment that shows a fault of an order, ORDERS (EANCOM 2002). UNH is number 1, and shows a
/// fault that no one segment shows. For a message without this fault it is some number. Only the comparison of line
/// numbers takes memory.
pub fn order_place(
    alloc: Global,
    fault: MessageFault,
    message: &[Segment],
) -> Result<usize, MemoryFault>
    ensures { IfOk result (λ place. place ≡ spec.order_place fault message.now) }
{
    let place = match fault {
        MessageFault::Beginning => beginning_place(message),
        MessageFault::Function => 2,
        MessageFault::Date => date_place(message),
        MessageFault::Parties => parties_place(message),
        MessageFault::Summary => summary_place(message),
        MessageFault::Line => first_line_place(alloc, message)?,
        MessageFault::Quantity => group_place_or_last(Condition::Ordered, &[], 0, message),
        MessageFault::Control => control_place(message),
        _ => 1,
    };
    Ok(place)
}

// Returns the segment that shows a wrong reference: one of the header if it names no order, or else one of a line
// group.
fn response_reference_place(message: &[Segment]) -> usize
    ensures { result ≡ spec.response_place MessageFault.Reference message.now }
{
    match order(message) {
        Some(order) => group_place_or_last(Condition::SameOrder, order, 0, message),
        None => reference_place(message),
    }
}

/// Like `order_place`, for a response, ORDRSP. That takes no memory.
pub fn response_place(fault: MessageFault, message: &[Segment]) -> usize
    ensures { result ≡ spec.response_place fault message.now }
{
    match fault {
        MessageFault::Beginning => beginning_place(message),
        MessageFault::Function => 2,
        MessageFault::Date => date_place(message),
        MessageFault::Parties => parties_place(message),
        MessageFault::Summary => summary_place(message),
        MessageFault::Line => group_place_or_last(Condition::Action, &[], 0, message),
        MessageFault::Quantity => group_place_or_last(Condition::Answered, &[], 0, message),
        MessageFault::Reference => response_reference_place(message),
        MessageFault::Control => control_place(message),
        _ => 1,
    }
}
