//! Reads the units and lines of a despatch advice, one condition after another.
ghost use Rattle.std.specs.Prelude.{◌≡◌, ◌≢◌, IfOk, IfErr, true, false, is_some, option_map, option_and_then};
ghost use Rattle.std.specs.List.{list_all};
ghost use Rattle.edi_messages.specs.References.{group_order, group_line};
ghost use Rattle.edi_goods.specs.Despatch as spec;

use crate::despatch::DespatchLine;
use crate::units::ItemUnit;
use edi_base::{Items, copy_bytes};
use edi_messages::lines::{LineItem, quantity_of};
use edi_messages::references::{NamedOrder, has_reference, read_reference, reference};
use edi_messages::{MessageFault, Segment};
use std::alloc::Global;
use std::marker::Model;

/// A line with its quantity.
#[derive(Drop)]
pub(crate) struct DespatchItem<'a, 'b> {
    quantity: u32,
    item: &'b LineItem<'a>,
}

impl<'a, 'b> Model for DespatchItem<'a, 'b> {
    ghost use Rattle.std.specs.Prelude.{◌≡◌, List, Some};
    ghost use Rattle.edi_messages.specs.EdiSegments.declared.segment.Segment.{Segment};
    ghost use Rattle.edi_goods.specs.Despatch.{despatched};

    ghost Value = { List Segment };

    ghost view = { λ line. line.item.now };

    ghost invariant = { λ line. despatched line.item.now ≡ Some line.quantity };
}

/// A unit with the quantities of its lines.
#[derive(Drop)]
pub(crate) struct DespatchUnit<'a, 'b> {
    unit: &'b ItemUnit<'a>,
    items: Vec<DespatchItem<'a, 'b>>,
}

impl<'a, 'b> Model for DespatchUnit<'a, 'b> {
    ghost use Rattle.std.specs.Prelude.{◌≡◌, List};
    ghost use Rattle.edi_messages.specs.EdiSegments.declared.segment.Segment.{Segment};
    ghost use Rattle.edi_messages.specs.Parts.{line_groups};

    ghost Value = { List Segment };

    ghost view = { λ lined. lined.unit.now };

    ghost invariant = { λ lined. lined.items.items ≡ line_groups lined.unit.now };
}

// Returns the lines, each with its quantity. It is the fault `Quantity` if one has none.
fn despatch_items<'a, 'b>(
    alloc: Global,
    items: &'b [LineItem<'a>],
) -> Result<Vec<DespatchItem<'a, 'b>>, MessageFault>
    ensures ok { IfOk result (λ lines.
        (lines.items ≡ items.now) × (list_all (λ group. is_some (spec.despatched group)) items.now ≡ true)) }
    ensures err { IfErr result (λ fault. fault ≢ MessageFault.Memory →
        (fault ≡ MessageFault.Quantity)
        × (list_all (λ group. is_some (spec.despatched group)) items.now ≡ false)) }
{
    let mut lines = Vec::new(alloc);
    for item in items {
        let quantity = quantity_of(b"12", 1, item.group()).ok_or(MessageFault::Quantity)?;
        lines.push(DespatchItem { quantity, item })?;
    }
    Ok(lines)
}

/// Returns the units, each with the quantities of its lines. It is the fault `Quantity` if a line has none.
pub(crate) fn despatch_units<'a, 'b>(
    alloc: Global,
    units: &'b [ItemUnit<'a>],
) -> Result<Vec<DespatchUnit<'a, 'b>>, MessageFault>
    ensures ok { IfOk result (λ despatched.
        (despatched.items ≡ units.now) × (list_all spec.has_quantities units.now ≡ true)) }
    ensures err { IfErr result (λ fault. fault ≢ MessageFault.Memory →
        (fault ≡ MessageFault.Quantity) × (list_all spec.has_quantities units.now ≡ false)) }
{
    let mut despatched = Vec::new(alloc);
    for unit in units {
        let items = despatch_items(alloc, unit.items())?;
        despatched.push(DespatchUnit { unit, items })?;
    }
    Ok(despatched)
}

/// A line with its quantity, and with the order and its line that it names.
#[derive(Drop)]
pub(crate) struct ReferredItem<'a, 'b> {
    order: Option<&'a [u8]>,
    order_line: Option<u32>,
    quantity: u32,
    item: &'b LineItem<'a>,
}

impl<'a, 'b> Model for ReferredItem<'a, 'b> {
    ghost use Rattle.std.specs.Prelude.{List, option_map};
    ghost use Rattle.edi_messages.specs.EdiSegments.declared.segment.Segment.{Segment};
    ghost use Rattle.edi_goods.specs.Referred.{IsReferredItem};

    ghost Value = { List Segment };

    ghost view = { λ line. line.item.now };

    ghost invariant = { λ line. IsReferredItem line.item.now
        (option_map (λ number. number.now) line.order) line.order_line line.quantity };
}

/// A unit with the references of its lines.
#[derive(Drop)]
pub(crate) struct ReferredUnit<'a, 'b> {
    unit: &'b ItemUnit<'a>,
    items: Vec<ReferredItem<'a, 'b>>,
}

impl<'a, 'b> Model for ReferredUnit<'a, 'b> {
    ghost use Rattle.std.specs.Prelude.{◌≡◌, List};
    ghost use Rattle.edi_messages.specs.EdiSegments.declared.segment.Segment.{Segment};
    ghost use Rattle.edi_messages.specs.Parts.{line_groups};

    ghost Value = { List Segment };

    ghost view = { λ lined. lined.unit.now };

    ghost invariant = { λ lined. lined.items.items ≡ line_groups lined.unit.now };
}

/// Returns what the one reference of a group names, or `None` if it has none and inherits one. It is the fault `Reference` if the
/// reference is not valid, there are several, or there is none and none is inherited.
pub fn group_reference(
    inherited: bool,
    group: &[Segment],
) -> Result<Option<NamedOrder<'_>>, MessageFault>
    ensures order { IfOk result (λ named. option_map (λ one. one.order.now) named ≡ group_order group.now) }
    ensures line { IfOk result (λ named. option_and_then (λ one. one.line) named ≡ group_line group.now) }
    ensures ok { IfOk result (λ named. spec.has_reference_or_inherits inherited group.now ≡ true) }
    ensures err { IfErr result (λ fault.
        (fault ≡ MessageFault.Reference) × (spec.has_reference_or_inherits inherited group.now ≡ false)) }
{
    match reference(group) {
        Some(rff) => {
            let named = read_reference(rff).ok_or(MessageFault::Reference)?;
            Ok(Some(named))
        }
        None => {
            if has_reference(group) || !inherited {
                Err(MessageFault::Reference)
            } else {
                Ok(None)
            }
        }
    }
}

// Returns a line with what it names.
fn referred_item<'a, 'b>(
    inherited: bool,
    line: &DespatchItem<'a, 'b>,
) -> Result<ReferredItem<'a, 'b>, MessageFault>
    ensures ok { IfOk result (λ referred.
        (referred ≡ line.now) × (spec.has_reference_or_inherits inherited line.now ≡ true)) }
    ensures err { IfErr result (λ fault.
        (fault ≡ MessageFault.Reference) × (spec.has_reference_or_inherits inherited line.now ≡ false)) }
{
    let (order, order_line) = match group_reference(inherited, line.item.group())? {
        Some(named) => (Some(named.order), named.line),
        None => (None, None),
    };
    Ok(ReferredItem {
        order,
        order_line,
        quantity: line.quantity,
        item: line.item,
    })
}

// Returns the lines, each with what it names. It is the fault `Reference` if one of them has no valid reference and
// inherits none.
fn referred_items<'a, 'b>(
    alloc: Global,
    inherited: bool,
    items: &[DespatchItem<'a, 'b>],
) -> Result<Vec<ReferredItem<'a, 'b>>, MessageFault>
    ensures ok { IfOk result (λ lines.
        (lines.items ≡ items.now) × (list_all (spec.has_reference_or_inherits inherited) items.now ≡ true)) }
    ensures err { IfErr result (λ fault. fault ≢ MessageFault.Memory →
        (fault ≡ MessageFault.Reference)
        × (list_all (spec.has_reference_or_inherits inherited) items.now ≡ false)) }
{
    let mut lines = Vec::new(alloc);
    for item in items {
        lines.push(referred_item(inherited, item)?)?;
    }
    Ok(lines)
}

/// Returns the units, each with the references of its lines. It is the fault `Reference` if a line has no valid
/// reference and inherits none.
pub(crate) fn referred_units<'a, 'b>(
    alloc: Global,
    inherited: bool,
    units: &[DespatchUnit<'a, 'b>],
) -> Result<Vec<ReferredUnit<'a, 'b>>, MessageFault>
    ensures ok { IfOk result (λ referred.
        (referred.items ≡ units.now) × (list_all (spec.has_references inherited) units.now ≡ true)) }
    ensures err { IfErr result (λ fault. fault ≢ MessageFault.Memory →
        (fault ≡ MessageFault.Reference) × (list_all (spec.has_references inherited) units.now ≡ false)) }
{
    let mut referred = Vec::new(alloc);
    for lined in units {
        let items = referred_items(alloc, inherited, lined.items.as_slice())?;
        referred.push(ReferredUnit {
            unit: lined.unit,
            items,
        })?;
    }
    Ok(referred)
}

// Returns a line of the record. A line that names no order belongs to that of the header.
fn line_of(
    alloc: Global,
    header_order: &[u8],
    line: &ReferredItem<'_, '_>,
) -> Result<DespatchLine, MessageFault>
    ensures ok { IfOk result (λ read. read ≡ spec.line_of header_order.now line.now) }
    ensures err { IfErr result (λ fault. fault ≡ MessageFault.Memory) }
{
    let order = match line.order {
        Some(order) => order,
        None => header_order,
    };
    Ok(DespatchLine {
        order: copy_bytes(alloc, order)?,
        order_line: line.order_line,
        gtin: line.item.gtin(),
        quantity: line.quantity,
    })
}

/// Returns the lines of a unit of the record.
pub(crate) fn lines_in_unit(
    alloc: Global,
    header_order: &[u8],
    unit: &ReferredUnit<'_, '_>,
) -> Result<Items<DespatchLine>, MessageFault>
    ensures ok { IfOk result (λ lines. lines ≡ spec.lines_in_unit header_order.now unit.now) }
    ensures err { IfErr result (λ fault. fault ≡ MessageFault.Memory) }
{
    let mut lines = Items::new(alloc);
    for line in unit.items.as_slice() {
        lines.push(line_of(alloc, header_order, line)?)?;
    }
    Ok(lines)
}
