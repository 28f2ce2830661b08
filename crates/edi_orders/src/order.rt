//! Reads orders (ORDERS).
ghost use Rattle.std.specs.Prelude.{◌≡◌, ◌≢◌, IfOk, IfErr, Ok, Err, Some, true, false, codes, map, is_some};
ghost use Rattle.std.specs.List.{list_all};
ghost use Rattle.edi_base.specs.Seen.{has_number_twice as twice};
ghost use Rattle.edi_messages.specs.Fault.{faults, faults_from};
ghost use Rattle.edi_messages.specs.Header.{party};
ghost use Rattle.edi_messages.specs.Lines.{number_or_zero};
ghost use Rattle.edi_messages.specs.Parts.{line_groups};
ghost use Rattle.edi_orders.specs.Order as spec;

use edi_base::{Items, copy_bytes};
use edi_messages::header::{begins_as, document_number, function, has_date, is_type, party};
use edi_messages::lines::{LineItem, has_number_twice, line_items, quantity_of};
use edi_messages::summary::{has_summary, is_controlled, line_count};
use edi_messages::{MessageFault, RawMessage};
use gs1_ids::{Gln, Gtin};
use std::alloc::Global;

/// An order (ORDERS).
#[derive(Debug, Drop)]
pub struct Order {
    /// The order number (BGM 1004), 1 to 35 bytes.
    pub number: Items<u8>,
    /// The buyer (NAD BY).
    pub buyer: Gln,
    /// The supplier (NAD SU).
    pub supplier: Gln,
    /// The lines, in their order.
    pub lines: Items<OrderLine>,
}

/// A line of an order.
#[derive(Clone, Copy, Debug, PartialEq, Eq)]
pub struct OrderLine {
    /// The line number (LIN 1082), 1 to 999,999.
    pub line: u32,
    /// The article.
    pub gtin: Gtin,
    /// The quantity ordered, in pieces, 1 to 999,999,999.
    pub quantity: u32,
}

// Returns the lines of groups, each with the quantity ordered.
fn order_lines(alloc: Global, items: &[LineItem<'_>]) -> Result<Items<OrderLine>, MessageFault>
    ensures ok { IfOk result (λ lines. (lines ≡ map spec.line_of items.now)
        × (list_all (λ group. is_some (spec.ordered group)) items.now ≡ true)) }
    ensures err { IfErr result (λ fault. fault ≢ MessageFault.Memory →
        (fault ≡ MessageFault.Quantity)
        × (list_all (λ group. is_some (spec.ordered group)) items.now ≡ false)) }
{
    let mut lines = Items::new(alloc);
    for item in items {
        let quantity = quantity_of(b"21", 1, item.group()).ok_or(MessageFault::Quantity)?;
        lines.push(OrderLine {
            line: item.number(),
            gtin: item.gtin(),
            quantity,
        })?;
    }
    Ok(lines)
}

// The parties of an order.
#[derive(Drop)]
struct OrderHeading {
    buyer: Gln,
    supplier: Gln,
}

// Returns what comes before the lines, or its lowest fault.
fn read_heading(message: &RawMessage) -> Result<OrderHeading, MessageFault>
    ensures said { IfOk result (λ heading. (party (codes "BY") message.now.segments ≡ Some heading.buyer)
        × (party (codes "SU") message.now.segments ≡ Some heading.supplier)) }
    ensures ok { IfOk result (λ _.
        spec.lowest faults message.now ≡ spec.lowest (faults_from MessageFault.Line) message.now) }
    ensures err { IfErr result (λ fault. spec.lowest faults message.now ≡ Some fault) }
{
    let segments = message.segments.as_slice();
    if !is_type(b"ORDERS", message) {
        return Err(MessageFault::MessageType);
    }
    if !begins_as(b"220", segments) {
        return Err(MessageFault::Beginning);
    }
    if function(segments) != b"9".as_slice() {
        return Err(MessageFault::Function);
    }
    if !has_date(segments) {
        return Err(MessageFault::Date);
    }
    let buyer = party(b"BY", segments).ok_or(MessageFault::Parties)?;
    let supplier = party(b"SU", segments).ok_or(MessageFault::Parties)?;
    if !has_summary(segments) {
        return Err(MessageFault::Summary);
    }
    Ok(OrderHeading { buyer, supplier })
}

// Returns the lines, or their lowest fault.
fn read_lines(alloc: Global, message: &RawMessage) -> Result<Items<OrderLine>, MessageFault>
    ensures said { IfOk result (λ lines. lines ≡ map spec.line_of (line_groups message.now.segments)) }
    ensures apart { IfOk result (λ _. twice (map number_or_zero (line_groups message.now.segments)) ≡ false) }
    ensures ok { IfOk result (λ _. spec.lowest (faults_from MessageFault.Line) message.now
        ≡ spec.lowest (faults_from MessageFault.Reference) message.now) }
    ensures err { IfErr result (λ fault. fault ≢ MessageFault.Memory →
        spec.lowest (faults_from MessageFault.Line) message.now ≡ Some fault) }
{
    let items = line_items(alloc, message.segments.as_slice())?;
    if has_number_twice(alloc, items.as_slice())? {
        return Err(MessageFault::Line);
    }
    order_lines(alloc, items.as_slice())
}

impl Order {
    /// Reads the order that a message is: ORDERS of the directory D.01B with BGM 1001 220 and 1225 9, one document
    /// date, one buyer and one supplier, lines each with its own number, an article and a quantity ordered, and one
    /// UNS. Otherwise it returns the lowest fault of the message, wherever that is in it.
    #[tactic(auto, unfolding(crate::specs::Order::order_of))]
    pub fn read(alloc: Global, message: &RawMessage) -> Result<Order, MessageFault>
        ensures ok { IfOk result (λ order. spec.order_of message.now ≡ Ok order) }
        ensures apart { IfOk result (λ order. twice (map (λ line. line.line) order.lines) ≡ false) }
        ensures err { IfErr result (λ fault.
            fault ≢ MessageFault.Memory → spec.order_of message.now ≡ Err fault) }
    {
        let OrderHeading { buyer, supplier } = read_heading(message)?;
        let lines = read_lines(alloc, message)?;
        let segments = message.segments.as_slice();
        if !is_controlled(segments) {
            return Err(MessageFault::Control);
        }
        if line_count(segments) == 0 {
            return Err(MessageFault::WithoutLines);
        }
        Ok(Order {
            number: copy_bytes(alloc, document_number(segments))?,
            buyer,
            supplier,
            lines,
        })
    }
}
