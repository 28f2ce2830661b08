//! Reads the line groups of a response, one condition after another.
ghost use Rattle.std.specs.Prelude.{◌≡◌, ◌≢◌, IfOk, IfErr, Some, true, false, map, is_some};
ghost use Rattle.std.specs.List.{list_all};
ghost use Rattle.edi_messages.specs.References.{group_line};
ghost use Rattle.edi_orders.specs.Response as spec;

use crate::action::{Action, action_of};
use crate::response::{AnswerLine, LineAnswer};
use edi_base::Items;
use edi_messages::lines::{LineItem, quantity_of};
use edi_messages::parts::has_qualified;
use edi_messages::references::{has_reference, read_reference, reference};
use edi_messages::{MessageFault, Segment};
use std::alloc::Global;
use std::marker::Model;

/// A line item with its action.
#[derive(Drop)]
pub(crate) struct ActionItem<'a, 'b> {
    action: Action,
    item: &'b LineItem<'a>,
}

impl<'a, 'b> Model for ActionItem<'a, 'b> {
    ghost use Rattle.std.specs.Prelude.{◌≡◌, List, Some};
    ghost use Rattle.edi_messages.specs.EdiSegments.declared.segment.Segment.{Segment};
    ghost use Rattle.edi_orders.specs.Response as said;

    ghost Value = { List Segment };

    ghost view = { λ line. line.item.now };

    ghost invariant = { λ line. said.action line.item.now ≡ Some line.action };
}

/// A line item with its answer.
#[derive(Drop)]
pub(crate) struct AnsweredItem<'a, 'b> {
    answer: LineAnswer,
    item: &'b LineItem<'a>,
}

impl<'a, 'b> Model for AnsweredItem<'a, 'b> {
    ghost use Rattle.std.specs.Prelude.{◌≡◌, List, Some};
    ghost use Rattle.edi_messages.specs.EdiSegments.declared.segment.Segment.{Segment};
    ghost use Rattle.edi_orders.specs.Response as said;

    ghost Value = { List Segment };

    ghost view = { λ line. line.item.now };

    ghost invariant = { λ line. said.line_answer line.item.now ≡ Some line.answer };
}

/// Returns the action of a line group.
pub fn action(group: &[Segment]) -> Option<Action>
    ensures { result ≡ spec.action group.now }
{
    match group.first() {
        Some(lin) => action_of(lin.component(1, 0)),
        None => None,
    }
}

/// Returns the line items, each with its action. It is the fault `Line` if one has none.
pub(crate) fn action_items<'a, 'b>(
    alloc: Global,
    items: &'b [LineItem<'a>],
) -> Result<Vec<ActionItem<'a, 'b>>, MessageFault>
    ensures ok { IfOk result (λ lines.
        (lines.items ≡ items.now) × (list_all (λ group. is_some (spec.action group)) items.now ≡ true)) }
    ensures err { IfErr result (λ fault. fault ≢ MessageFault.Memory →
        (fault ≡ MessageFault.Line) × (list_all (λ group. is_some (spec.action group)) items.now ≡ false)) }
{
    let mut lines = Vec::new(alloc);
    for item in items {
        let action = action(item.group()).ok_or(MessageFault::Line)?;
        lines.push(ActionItem { action, item })?;
    }
    Ok(lines)
}

fn changed_quantity(group: &[Segment]) -> Option<u32>
    ensures { result ≡ spec.changed_quantity group.now }
{
    if has_qualified(b"QTY", b"113", group) {
        quantity_of(b"113", 0, group)
    } else {
        quantity_of(b"21", 0, group)
    }
}

/// Returns the answer to a line by its action; `None` if it is a change without a quantity.
pub fn answer_by(action: Action, group: &[Segment]) -> Option<LineAnswer>
    ensures { result ≡ spec.answer_by (Some action) group.now }
{
    match action {
        Action::Accept => Some(LineAnswer::Accepted),
        Action::Refuse => Some(LineAnswer::Refused),
        Action::Change => Some(LineAnswer::Changed(changed_quantity(group)?)),
    }
}

/// Returns the line items, each with its answer. It is the fault `Quantity` if a changed one has no quantity.
pub(crate) fn answered_items<'a, 'b>(
    alloc: Global,
    items: &[ActionItem<'a, 'b>],
) -> Result<Vec<AnsweredItem<'a, 'b>>, MessageFault>
    ensures ok { IfOk result (λ answered. (answered.items ≡ items.now)
        × (list_all (λ group. is_some (spec.line_answer group)) items.now ≡ true)) }
    ensures err { IfErr result (λ fault. fault ≢ MessageFault.Memory →
        (fault ≡ MessageFault.Quantity)
        × (list_all (λ group. is_some (spec.line_answer group)) items.now ≡ false)) }
{
    let mut answered = Vec::new(alloc);
    for line in items {
        let answer = answer_by(line.action, line.item.group()).ok_or(MessageFault::Quantity)?;
        answered.push(AnsweredItem {
            answer,
            item: line.item,
        })?;
    }
    Ok(answered)
}

/// Returns the order line that a group names, if it names one. It is the fault `Reference` if the group has a reference that is not
/// one to this order.
#[tactic(auto, using(edi_messages::proofs::Found::no_only))]
pub fn order_line(order: &[u8], group: &[Segment]) -> Result<Option<u32>, MessageFault>
    ensures ok { IfOk result (λ line.
        (line ≡ group_line group.now) × (spec.has_no_reference_or_one_to (Some order.now) group.now ≡ true)) }
    ensures err { IfErr result (λ fault.
        (fault ≡ MessageFault.Reference) × (spec.has_no_reference_or_one_to (Some order.now) group.now ≡ false)) }
{
    if !has_reference(group) {
        return Ok(None);
    }
    let rff = reference(group).ok_or(MessageFault::Reference)?;
    let said = read_reference(rff).ok_or(MessageFault::Reference)?;
    if said.order == order {
        Ok(said.line)
    } else {
        Err(MessageFault::Reference)
    }
}

/// Returns the answers to lines of this order. It is the fault `Reference` if a group names another one.
pub(crate) fn answer_lines(
    alloc: Global,
    order: &[u8],
    items: &[AnsweredItem<'_, '_>],
) -> Result<Items<AnswerLine>, MessageFault>
    ensures ok { IfOk result (λ lines. (lines ≡ map spec.line_of items.now)
        × (list_all (spec.has_no_reference_or_one_to (Some order.now)) items.now ≡ true)) }
    ensures err { IfErr result (λ fault. fault ≢ MessageFault.Memory →
        (fault ≡ MessageFault.Reference)
        × (list_all (spec.has_no_reference_or_one_to (Some order.now)) items.now ≡ false)) }
{
    let mut lines = Items::new(alloc);
    for line in items {
        lines.push(AnswerLine {
            order_line: order_line(order, line.item.group())?,
            gtin: line.item.gtin(),
            answer: line.answer,
        })?;
    }
    Ok(lines)
}
