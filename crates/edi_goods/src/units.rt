//! Splits a message into its units: CPS and what follows it.
ghost use Rattle.std.specs.Prelude.{◌≡◌, ◌≢◌, ◌≤◌, true, false, not, length, map, IfOk, IfErr};
ghost use Rattle.std.specs.List.{list_all, prefix_len};
ghost use Rattle.edi_base.specs.Seen as twice;
ghost use Rattle.edi_messages.specs.Parts.{is_lin, is_cps, line_groups};
ghost use Rattle.edi_goods.specs.Units as spec;

use edi_base::Seen;
use edi_messages::lines::{LineItem, line_items};
use edi_messages::parts::{has_lin, is_cps, is_lin, only_qualified};
use edi_messages::{MessageFault, Segment};
use gs1_ids::Sscc;
use std::alloc::Global;
use std::marker::Model;

/// A unit with its line items.
#[derive(Drop)]
pub(crate) struct ItemUnit<'a> {
    unit: &'a [Segment],
    items: Vec<LineItem<'a>>,
}

impl<'a> Model for ItemUnit<'a> {
    ghost use Rattle.std.specs.Prelude.{◌≡◌, List};
    ghost use Rattle.edi_messages.specs.EdiSegments.declared.segment.Segment.{Segment};
    ghost use Rattle.edi_messages.specs.Parts.{line_groups};

    ghost Value = { List Segment };

    ghost view = { λ lined. lined.unit.now };

    ghost invariant = { λ lined. lined.items.items ≡ line_groups lined.unit.now };
}

impl<'a> ItemUnit<'a> {
    /// Returns its line items.
    pub(crate) fn items(&self) -> &[LineItem<'a>]
        ensures { result.now ≡ line_groups self.now }
    {
        self.items.as_slice()
    }
}

// Counts the segments before the first that ends a unit.
fn rest_len(segments: &[Segment]) -> usize
    ensures within { result ≤ length segments.now }
    ensures value { result ≡ prefix_len (λ segment. not (spec.ends_unit segment)) segments.now }
{
    for (index, segment) in segments.iter().enumerate() {
        if is_cps(segment) || segment.tag == *b"UNT" {
            return index;
        }
    }
    segments.len()
}

/// Returns the first segment with what follows it, up to the next that ends a unit.
pub fn unit_of(segments: &[Segment]) -> &[Segment]
    ensures { result.now ≡ spec.unit_of segments.now }
{
    match segments.split_first() {
        Some((_, rest)) => {
            let (unit, _) = segments.split_at(1 + rest_len(rest));
            unit
        }
        None => &[],
    }
}

/// Returns the units of a message that have lines, in their order, each with its line items. It is the fault `Line` if
/// one of its LIN is not valid.
pub(crate) fn item_units(
    alloc: Global,
    message: &[Segment],
) -> Result<Vec<ItemUnit<'_>>, MessageFault>
    ensures ok { IfOk result (λ units. (units.items ≡ spec.read_units message.now)
        × (list_all spec.has_lines (spec.read_units message.now) ≡ true)) }
    ensures err { IfErr result (λ fault. fault ≢ MessageFault.Memory →
        (fault ≡ MessageFault.Line) × (list_all spec.has_lines (spec.read_units message.now) ≡ false)) }
{
    let mut units = Vec::new(alloc);
    for (index, segment) in message.iter().enumerate() {
        if is_cps(segment) {
            let unit = unit_of(&message[index..]);
            if has_lin(unit) {
                let items = line_items(alloc, unit)?;
                units.push(ItemUnit { unit, items })?;
            }
        }
    }
    Ok(units)
}

// Counts the segments before the first LIN.
fn head_len(unit: &[Segment]) -> usize
    ensures within { result ≤ length unit.now }
    ensures value { result ≡ prefix_len (λ segment. not (is_lin segment)) unit.now }
{
    for (index, segment) in unit.iter().enumerate() {
        if is_lin(segment) {
            return index;
        }
    }
    unit.len()
}

/// Returns what comes before the first LIN of a unit.
pub fn head(unit: &[Segment]) -> &[Segment]
    ensures { result.now ≡ spec.head unit.now }
{
    let (head, _) = unit.split_at(head_len(unit));
    head
}

// Returns the one SSCC of a GIN, the only component after the qualifier.
fn sscc_in(gin: &Segment) -> Option<Sscc>
    ensures { result ≡ spec.sscc_in gin.now }
{
    if gin.elements.len() == 2 && gin.element(1).len() == 1 {
        Sscc::parse(gin.component(1, 0))
    } else {
        None
    }
}

// Returns the SSCC of the one GIN with 7405 BJ in the head of a unit.
fn sscc(unit: &[Segment]) -> Option<Sscc>
    ensures { result ≡ spec.sscc unit.now }
{
    sscc_in(only_qualified(b"GIN", b"BJ", head(unit))?)
}

/// Whether CPS has an identifier.
pub fn has_identifier(unit: &[Segment]) -> bool
    ensures { result ≡ spec.has_identifier unit.now }
{
    match unit.first() {
        Some(packing) => !packing.component(0, 0).is_empty(),
        None => false,
    }
}

// Returns the SSCC of a unit with an identifier.
fn unit_sscc(unit: &[Segment]) -> Result<Sscc, MessageFault>
    ensures ok { IfOk result (λ sscc. (sscc ≡ spec.sscc_or_none unit.now) × (spec.is_unit unit.now ≡ true)) }
    ensures err { IfErr result (λ fault. (fault ≡ MessageFault.Unit) × (spec.is_unit unit.now ≡ false)) }
{
    if !has_identifier(unit) {
        return Err(MessageFault::Unit);
    }
    sscc(unit).ok_or(MessageFault::Unit)
}

/// Counts the segments before the first CPS.
pub fn outside_len(message: &[Segment]) -> usize
    ensures within { result ≤ length message.now }
    ensures value { result ≡ prefix_len (λ segment. not (is_cps segment)) message.now }
{
    for (index, segment) in message.iter().enumerate() {
        if is_cps(segment) {
            return index;
        }
    }
    message.len()
}

// Whether a LIN comes before the first CPS.
fn has_line_outside(message: &[Segment]) -> bool
    ensures { result ≡ spec.has_line_outside message.now }
{
    let (outside, _) = message.split_at(outside_len(message));
    has_lin(outside)
}

// Returns the SSCC of each unit.
fn unit_ssccs(alloc: Global, units: &[ItemUnit<'_>]) -> Result<Vec<Sscc>, MessageFault>
    ensures ok { IfOk result (λ ssccs.
        (ssccs.items ≡ map spec.sscc_or_none units.now) × (list_all spec.is_unit units.now ≡ true)) }
    ensures err { IfErr result (λ fault. fault ≢ MessageFault.Memory →
        (fault ≡ MessageFault.Unit) × (list_all spec.is_unit units.now ≡ false)) }
{
    let mut ssccs = Vec::new(alloc);
    for unit in units {
        ssccs.push(unit_sscc(unit.unit)?)?;
    }
    Ok(ssccs)
}

// Whether two of the SSCC are the same.
fn has_twice(alloc: Global, ssccs: &[Sscc]) -> Result<bool, MessageFault>
    ensures ok { IfOk result (λ found. found ≡ twice.has_twice ssccs.now) }
    ensures err { IfErr result (λ fault. fault ≡ MessageFault.Memory) }
{
    let mut seen = Seen::new(alloc);
    for sscc in ssccs {
        if !seen.insert(sscc.digits())? {
            return Ok(true);
        }
    }
    Ok(false)
}

/// Returns the SSCC of each unit that is read. It is the fault `Unit` if a LIN comes outside of units, a unit has no
/// identifier or not exactly one SSCC, or two units have the same SSCC.
pub(crate) fn ssccs(
    alloc: Global,
    units: &[ItemUnit<'_>],
    message: &[Segment],
) -> Result<Vec<Sscc>, MessageFault>
    requires { units.now ≡ spec.read_units message.now }
    ensures ok { IfOk result (λ ssccs.
        (ssccs.items ≡ map spec.sscc_or_none units.now) × (spec.has_units message.now ≡ true)) }
    ensures err { IfErr result (λ fault. fault ≢ MessageFault.Memory →
        (fault ≡ MessageFault.Unit) × (spec.has_units message.now ≡ false)) }
{
    if has_line_outside(message) {
        return Err(MessageFault::Unit);
    }
    let ssccs = unit_ssccs(alloc, units)?;
    if has_twice(alloc, ssccs.as_slice())? {
        return Err(MessageFault::Unit);
    }
    Ok(ssccs)
}
