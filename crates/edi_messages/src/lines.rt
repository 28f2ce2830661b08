//! Reads LIN and QTY of a line group.
ghost use Rattle.std.specs.Prelude.{◌≡◌, ◌≢◌, List, IfOk, IfErr, Some, true, false, map};
ghost use Rattle.std.specs.List.{list_all};
ghost use Rattle.std.specs.Option.{IfSome, IfNone};
ghost use Rattle.edi_base.specs.Seen.{has_number_twice};
ghost use Rattle.edi_messages.specs.Parts.{line_groups};
ghost use Rattle.edi_messages.specs.Lines as spec;

use crate::fault::MessageFault;
use crate::parts::{group_of, is_lin, only_qualified};
use crate::values::{line_number, quantity};
use edi_base::number_twice;
use edi_envelope::Segment;
use gs1_ids::Gtin;
use std::alloc::Global;
use std::marker::Model;

/// A line group whose LIN has a line number and an article and is not a sub-line, with these.
#[derive(Drop)]
pub struct LineItem<'a> {
    number: u32,
    gtin: Gtin,
    group: &'a [Segment],
}

impl<'a> Model for LineItem<'a> {
    ghost use Rattle.std.specs.Prelude.{List};
    ghost use Rattle.edi_envelope.specs.EdiSegments.declared.segment.Segment.{Segment};
    ghost use Rattle.edi_messages.specs.Items.{IsLineItem};

    ghost Value = { List Segment };

    ghost view = { λ item. item.group.now };

    ghost invariant = { λ item. IsLineItem item.group.now item.number item.gtin };
}

impl<'a> LineItem<'a> {
    /// Returns the segments of the line group.
    pub fn group(&self) -> &'a [Segment]
        ensures { result.now ≡ self.now }
    {
        self.group
    }

    /// Returns the line number (LIN 1082), 1 to 999,999.
    pub fn number(&self) -> u32
        ensures { spec.number self.now ≡ Some result }
    {
        self.number
    }

    /// Returns the article (LIN 7140).
    pub fn gtin(&self) -> Gtin
        ensures { spec.gtin self.now ≡ Some result }
    {
        self.gtin
    }
}

// Returns the article of a LIN, if it is valid and 7143 says that it is one.
fn gtin_of(lin: &Segment) -> Option<Gtin>
    ensures { result ≡ spec.gtin_in lin.now }
{
    if lin.component(2, 1) == b"SRV".as_slice() {
        Gtin::parse(lin.component(2, 0))
    } else {
        None
    }
}

/// Returns the line item of a line group, if its LIN has a line number and an article and is not a sub-line.
pub fn line_item(group: &[Segment]) -> Option<LineItem<'_>>
    ensures some { IfSome result (λ item. (item ≡ group.now) × (spec.is_line group.now ≡ true)) }
    ensures none { IfNone result (spec.is_line group.now ≡ false) }
{
    let lin = group.first()?;
    let number = line_number(lin.component(0, 0))?;
    let gtin = gtin_of(lin)?;
    if !lin.element(3).is_empty() {
        return None;
    }
    Some(LineItem {
        number,
        gtin,
        group,
    })
}

/// Returns the line items of all line groups of a message, in their order. It is the fault `Line` if a group has none.
pub fn line_items(alloc: Global, message: &[Segment]) -> Result<Vec<LineItem<'_>>, MessageFault>
    ensures ok { IfOk result (λ items. (items.items ≡ line_groups message.now)
        × (list_all spec.is_line (line_groups message.now) ≡ true)) }
    ensures err { IfErr result (λ fault. fault ≢ MessageFault.Memory →
        (fault ≡ MessageFault.Line) × (list_all spec.is_line (line_groups message.now) ≡ false)) }
{
    let mut items = Vec::new(alloc);
    for (index, segment) in message.iter().enumerate() {
        if is_lin(segment) {
            let group = group_of(&message[index..]);
            items.push(line_item(group).ok_or(MessageFault::Line)?)?;
        }
    }
    Ok(items)
}

/// Whether two items have the same line number.
pub fn has_number_twice(alloc: Global, items: &[LineItem<'_>]) -> Result<bool, MessageFault>
    ensures ok { IfOk result (λ found. found ≡ has_number_twice (map spec.number_or_zero items.now)) }
    ensures err { IfErr result (λ fault. fault ≡ MessageFault.Memory) }
{
    let mut numbers = Vec::new(alloc);
    for item in items {
        numbers.push(item.number())?;
    }
    Ok(number_twice(alloc, numbers.as_slice())?)
}

fn is_piece(unit: &[u8]) -> bool
    ensures { result ≡ spec.is_piece unit.now }
{
    unit.is_empty() || unit == b"PCE".as_slice()
}

// Returns the quantity of a QTY in pieces, if it is not below the least.
fn amount(least: u32, qty: &Segment) -> Option<u32>
    ensures { result ≡ spec.amount least qty.now }
{
    if !is_piece(qty.component(0, 2)) {
        return None;
    }
    let number = quantity(qty.component(0, 1))?;
    if least <= number { Some(number) } else { None }
}

/// Returns the quantity of the one QTY of a kind (6063) in a group, if it is not below the least.
pub fn quantity_of(kind: &[u8], least: u32, group: &[Segment]) -> Option<u32>
    ensures { result ≡ spec.quantity_of kind.now least group.now }
{
    amount(least, only_qualified(b"QTY", kind, group)?)
}
