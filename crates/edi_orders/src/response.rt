//! Reads responses to orders (ORDRSP).
ghost use Rattle.std.specs.Prelude.{◌≡◌, ◌≢◌, IfOk, IfErr, Ok, Err, Some, true, false, map, codes};
ghost use Rattle.std.specs.List.{list_all};
ghost use Rattle.edi_messages.specs.Fault.{faults, faults_from};
ghost use Rattle.edi_messages.specs.Header.{party};
ghost use Rattle.edi_messages.specs.Lines.{is_line};
ghost use Rattle.edi_messages.specs.References.{order};
ghost use Rattle.edi_orders.specs.Response as spec;

use crate::answers::{action_items, answer_lines, answered_items};
use crate::extent::{Extent, extent_of};
use edi_base::{Items, copy_bytes};
use edi_messages::header::{begins_as, document_number, function, has_date, is_type, party};
use edi_messages::lines::{LineItem, line_items};
use edi_messages::references::order;
use edi_messages::summary::{has_summary, is_controlled, line_count};
use edi_messages::{MessageFault, RawMessage, Segment};
use gs1_ids::{Gln, Gtin};
use std::alloc::Global;

/// A response to an order (ORDRSP).
#[derive(Debug, Drop)]
pub struct Response {
    /// The response's own number (BGM 1004), 1 to 35 bytes.
    pub number: Items<u8>,
    /// The buyer (NAD BY).
    pub buyer: Gln,
    /// The supplier (NAD SU).
    pub supplier: Gln,
    /// The order that is answered (RFF ON 1154), 1 to 35 bytes.
    pub order: Items<u8>,
    /// The answer.
    pub answer: Answer,
}

/// What a response answers.
#[derive(Debug, Drop)]
pub enum Answer {
    /// All lines of the order are accepted without amendment.
    AllAccepted,
    /// No line of the order is accepted.
    AllRefused,
    /// The answers to lines, in their order.
    Lines(Items<AnswerLine>),
}

/// The answer to a line of an order.
#[derive(Clone, Copy, Debug, PartialEq, Eq)]
pub struct AnswerLine {
    /// The line of the order (RFF ON 1156), if it is named.
    pub order_line: Option<u32>,
    /// The article.
    pub gtin: Gtin,
    /// What becomes of the line.
    pub answer: LineAnswer,
}

/// What becomes of a line of an order.
#[derive(Clone, Copy, Debug, PartialEq, Eq)]
pub enum LineAnswer {
    /// Accepted without amendment.
    Accepted,
    /// Not accepted.
    Refused,
    /// Accepted with this quantity, in pieces, at most 999,999,999.
    Changed(u32),
}

// Returns the line items that a response answers, or none if it answers all lines alike.
fn read_items(
    alloc: Global,
    extent: Extent,
    message: &[Segment],
) -> Result<Vec<LineItem<'_>>, MessageFault>
    requires { spec.extent message.now ≡ Some extent }
    ensures ok { IfOk result (λ items. (items.items ≡ spec.read_groups message.now)
        × (list_all is_line (spec.read_groups message.now) ≡ true)) }
    ensures err { IfErr result (λ fault. fault ≢ MessageFault.Memory →
        (fault ≡ MessageFault.Line) × (list_all is_line (spec.read_groups message.now) ≡ false)) }
{
    match extent {
        Extent::Lines => line_items(alloc, message),
        Extent::AllAccepted | Extent::AllRefused => Ok(Vec::new(alloc)),
    }
}

// Returns the answer of a response with these lines.
fn answer_of(extent: Extent, lines: Items<AnswerLine>) -> Answer
    ensures { result ≡ spec.answer_of (Some extent) lines }
{
    match extent {
        Extent::Lines => Answer::Lines(lines),
        Extent::AllAccepted => Answer::AllAccepted,
        Extent::AllRefused => Answer::AllRefused,
    }
}

/// What comes before the lines.
#[derive(Drop)]
struct ResponseHeading {
    extent: Extent,
    buyer: Gln,
    supplier: Gln,
}

/// The order that is answered, and the answers to its lines.
#[derive(Drop)]
struct Answers<'a> {
    order: &'a [u8],
    lines: Items<AnswerLine>,
}

// Returns what comes before the lines, or its lowest fault.
fn read_heading(message: &RawMessage) -> Result<ResponseHeading, MessageFault>
    ensures said { IfOk result (λ heading. (spec.extent message.now.segments ≡ Some heading.extent)
        × (party (codes "BY") message.now.segments ≡ Some heading.buyer)
        × (party (codes "SU") message.now.segments ≡ Some heading.supplier)) }
    ensures ok { IfOk result (λ _.
        spec.lowest faults message.now ≡ spec.lowest (faults_from MessageFault.Line) message.now) }
    ensures err { IfErr result (λ fault. spec.lowest faults message.now ≡ Some fault) }
{
    let segments = message.segments.as_slice();
    if !is_type(b"ORDRSP", message) {
        return Err(MessageFault::MessageType);
    }
    if !begins_as(b"231", segments) {
        return Err(MessageFault::Beginning);
    }
    let extent = extent_of(function(segments)).ok_or(MessageFault::Function)?;
    if !has_date(segments) {
        return Err(MessageFault::Date);
    }
    let buyer = party(b"BY", segments).ok_or(MessageFault::Parties)?;
    let supplier = party(b"SU", segments).ok_or(MessageFault::Parties)?;
    if !has_summary(segments) {
        return Err(MessageFault::Summary);
    }
    Ok(ResponseHeading {
        extent,
        buyer,
        supplier,
    })
}

// Returns the order that is answered and the answers to its lines, or their lowest fault.
fn read_answers(
    alloc: Global,
    extent: Extent,
    message: &RawMessage,
) -> Result<Answers<'_>, MessageFault>
    requires { spec.extent message.now.segments ≡ Some extent }
    ensures said { IfOk result (λ answers. (order message.now.segments ≡ Some answers.order.now)
        × (answers.lines ≡ map spec.line_of (spec.read_groups message.now.segments))) }
    ensures ok { IfOk result (λ _. spec.lowest (faults_from MessageFault.Line) message.now
        ≡ spec.lowest (faults_from MessageFault.Unit) message.now) }
    ensures err { IfErr result (λ fault. fault ≢ MessageFault.Memory →
        spec.lowest (faults_from MessageFault.Line) message.now ≡ Some fault) }
{
    let segments = message.segments.as_slice();
    let items = read_items(alloc, extent, segments)?;
    let actions = action_items(alloc, items.as_slice())?;
    let answered = answered_items(alloc, actions.as_slice())?;
    let order = order(segments).ok_or(MessageFault::Reference)?;
    let lines = answer_lines(alloc, order, answered.as_slice())?;
    Ok(Answers { order, lines })
}

impl Response {
    /// Reads the response that a message is: ORDRSP of the directory D.01B with BGM 1001 231 and 1225 4, 9, 27 or 29,
    /// one document date, one buyer and one supplier, one reference to an order, lines each with an article, an action,
    /// the quantity of a change and at most one reference to that order, and one UNS. Lines are not read with 27 and
    /// 29. Otherwise it returns the lowest fault of the message, wherever that is in it.
    #[tactic(auto, unfolding(crate::specs::Response::response_of))]
    pub fn read(alloc: Global, message: &RawMessage) -> Result<Response, MessageFault>
        ensures ok { IfOk result (λ response. spec.response_of message.now ≡ Ok response) }
        ensures err { IfErr result (λ fault.
            fault ≢ MessageFault.Memory → spec.response_of message.now ≡ Err fault) }
    {
        let heading = read_heading(message)?;
        let ResponseHeading {
            extent,
            buyer,
            supplier,
        } = heading;
        let answers = read_answers(alloc, extent, message)?;
        let segments = message.segments.as_slice();
        if !is_controlled(segments) {
            return Err(MessageFault::Control);
        }
        if extent == Extent::Lines && line_count(segments) == 0 {
            return Err(MessageFault::WithoutLines);
        }
        Ok(Response {
            number: copy_bytes(alloc, document_number(segments))?,
            buyer,
            supplier,
            order: copy_bytes(alloc, answers.order)?,
            answer: answer_of(extent, answers.lines),
        })
    }
}
