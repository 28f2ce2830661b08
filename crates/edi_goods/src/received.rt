//! Reads the units and lines of a receiving advice, one condition after another.
ghost use Rattle.std.specs.Prelude.{◌≡◌, ◌≢◌, ◌||◌, IfOk, IfErr, true, false, map, is_some};
ghost use Rattle.std.specs.List.{list_all};
ghost use Rattle.edi_messages.specs.Lines.{quantity_of};
ghost use Rattle.edi_goods.specs.Receipt as spec;

use crate::kind::ReceivedKind;
use crate::receipt::ReceiptLine;
use crate::sums::{Amount, sums_within};
use crate::units::ItemUnit;
use edi_messages::lines::{LineItem, quantity_of};
use edi_messages::parts::has_qualified;
use edi_messages::{MessageFault, Segment};
use std::alloc::Global;
use std::marker::Model;

/// A unit with what was received in it.
#[derive(Drop)]
pub(crate) struct ReceivedUnit<'a, 'b> {
    unit: &'b ItemUnit<'a>,
    lines: Vec<ReceiptLine>,
}

impl<'a, 'b> Model for ReceivedUnit<'a, 'b> {
    ghost use Rattle.std.specs.Prelude.{◌≡◌, List};
    ghost use Rattle.edi_messages.specs.EdiSegments.declared.segment.Segment.{Segment};
    ghost use Rattle.edi_goods.specs.Receipt.{lines_in_unit};

    ghost Value = { List Segment };

    ghost view = { λ lined. lined.unit.now };

    ghost invariant = { λ lined. lined.lines.items ≡ lines_in_unit lined.unit.now };
}

impl<'a, 'b> ReceivedUnit<'a, 'b> {
    /// Returns what was received in it.
    pub(crate) fn lines(&self) -> &[ReceiptLine]
        ensures { result.now ≡ spec.lines_in_unit self.now }
    {
        self.lines.as_slice()
    }
}

/// Returns the quantity of a kind, if there is one. It is the fault `Quantity` if it comes twice or is not valid.
pub fn received_quantity(kind: &[u8], group: &[Segment]) -> Result<Option<u32>, MessageFault>
    ensures ok { IfOk result (λ quantity. (quantity ≡ quantity_of kind.now 0 group.now)
        × (spec.is_once_or_none kind.now group.now ≡ true)) }
    ensures err { IfErr result (λ fault.
        (fault ≡ MessageFault.Quantity) × (spec.is_once_or_none kind.now group.now ≡ false)) }
{
    match quantity_of(kind, 0, group) {
        Some(quantity) => Ok(Some(quantity)),
        None => {
            if has_qualified(b"QTY", kind, group) {
                Err(MessageFault::Quantity)
            } else {
                Ok(None)
            }
        }
    }
}

fn is_any(accepted: Option<u32>, returned: Option<u32>, destroyed: Option<u32>) -> bool
    ensures { result ≡ (is_some accepted || is_some returned || is_some destroyed) }
{
    accepted.is_some() || returned.is_some() || destroyed.is_some()
}

// Returns a line of the record.
fn receipt_line(item: &LineItem<'_>) -> Result<ReceiptLine, MessageFault>
    ensures ok { IfOk result (λ line. (line ≡ spec.line_of item.now) × (spec.is_received item.now ≡ true)) }
    ensures err { IfErr result (λ fault.
        (fault ≡ MessageFault.Quantity) × (spec.is_received item.now ≡ false)) }
{
    let accepted = received_quantity(b"194", item.group())?;
    let returned = received_quantity(b"195", item.group())?;
    let destroyed = received_quantity(b"196", item.group())?;
    if !is_any(accepted, returned, destroyed) {
        return Err(MessageFault::Quantity);
    }
    Ok(ReceiptLine {
        gtin: item.gtin(),
        accepted: accepted.unwrap_or(0),
        returned: returned.unwrap_or(0),
        destroyed: destroyed.unwrap_or(0),
    })
}

// Returns the lines of a unit. It is the fault `Quantity` if one has no quantities.
fn receipt_lines(alloc: Global, items: &[LineItem<'_>]) -> Result<Vec<ReceiptLine>, MessageFault>
    ensures ok { IfOk result (λ lines.
        (lines.items ≡ map spec.line_of items.now) × (list_all spec.is_received items.now ≡ true)) }
    ensures err { IfErr result (λ fault. fault ≢ MessageFault.Memory →
        (fault ≡ MessageFault.Quantity) × (list_all spec.is_received items.now ≡ false)) }
{
    let mut lines = Vec::new(alloc);
    for item in items {
        lines.push(receipt_line(item)?)?;
    }
    Ok(lines)
}

// Returns what a line says about one kind.
fn of_kind(kind: ReceivedKind, line: &ReceiptLine) -> u32
    ensures { result ≡ spec.of_kind kind line.now }
{
    match kind {
        ReceivedKind::Accepted => line.accepted,
        ReceivedKind::Returned => line.returned,
        ReceivedKind::Destroyed => line.destroyed,
    }
}

// Returns what was received on each line, of one kind.
fn amounts(
    alloc: Global,
    kind: ReceivedKind,
    lines: &[ReceiptLine],
) -> Result<Vec<Amount>, MessageFault>
    ensures ok { IfOk result (λ amounts. amounts.items ≡ spec.amounts kind lines.now) }
    ensures err { IfErr result (λ fault. fault ≡ MessageFault.Memory) }
{
    let mut amounts = Vec::new(alloc);
    for line in lines {
        amounts.push(Amount {
            gtin: line.gtin,
            quantity: of_kind(kind, line),
        })?;
    }
    Ok(amounts)
}

// Whether the sum of no kind over the lines of one article is too great.
fn has_sums(alloc: Global, lines: &[ReceiptLine]) -> Result<bool, MessageFault>
    ensures ok { IfOk result (λ within. within ≡ spec.has_sums lines.now) }
    ensures err { IfErr result (λ fault. fault ≡ MessageFault.Memory) }
{
    let accepted = amounts(alloc, ReceivedKind::Accepted, lines)?;
    let returned = amounts(alloc, ReceivedKind::Returned, lines)?;
    let destroyed = amounts(alloc, ReceivedKind::Destroyed, lines)?;
    Ok(
        sums_within(alloc, accepted.as_slice())?
            && sums_within(alloc, returned.as_slice())?
            && sums_within(alloc, destroyed.as_slice())?,
    )
}

// Returns a unit with what was received in it.
fn received_unit<'a, 'b>(
    alloc: Global,
    unit: &'b ItemUnit<'a>,
) -> Result<ReceivedUnit<'a, 'b>, MessageFault>
    ensures ok { IfOk result (λ received. (received ≡ unit.now) × (spec.has_quantities unit.now ≡ true)) }
    ensures err { IfErr result (λ fault. fault ≢ MessageFault.Memory →
        (fault ≡ MessageFault.Quantity) × (spec.has_quantities unit.now ≡ false)) }
{
    let lines = receipt_lines(alloc, unit.items())?;
    if has_sums(alloc, lines.as_slice())? {
        Ok(ReceivedUnit { unit, lines })
    } else {
        Err(MessageFault::Quantity)
    }
}

/// Returns the units, each with what was received in it. It is the fault `Quantity` if a line has no quantities, or a
/// sum is too great.
pub(crate) fn received_units<'a, 'b>(
    alloc: Global,
    units: &'b [ItemUnit<'a>],
) -> Result<Vec<ReceivedUnit<'a, 'b>>, MessageFault>
    ensures ok { IfOk result (λ received.
        (received.items ≡ units.now) × (list_all spec.has_quantities units.now ≡ true)) }
    ensures err { IfErr result (λ fault. fault ≢ MessageFault.Memory →
        (fault ≡ MessageFault.Quantity) × (list_all spec.has_quantities units.now ≡ false)) }
{
    let mut received = Vec::new(alloc);
    for unit in units {
        received.push(received_unit(alloc, unit)?)?;
    }
    Ok(received)
}
