//! Finds the segment that shows a fault of a despatch advice or a receiving advice, by its number. UNH is number 1.
ghost use Rattle.std.specs.Prelude.{◌≡◌, ◌≤◌, ◌+◌, ◌&&◌, ◌||◌, ℕ, List, [], IfOk, OnOk, length, is_some, true, false, option_map};
ghost use Rattle.std.specs.Str.{bytes_eq};
ghost use Rattle.edi_base.specs.Seen.{is_among};
ghost use Rattle.edi_goods.specs.Despatch as despatch;
ghost use Rattle.edi_goods.specs.Units as units;
ghost use Rattle.edi_places.specs.Goods as spec;

use crate::counting::{first_tag_place, once_place};
use crate::groups::{Condition, group_place, group_place_or_last};
use crate::header::{
    beginning_place, control_place, date_place, goods_parties_place, reference_place,
};
use edi_base::Seen;
use edi_goods::units::{has_identifier, head, outside_len, unit_of};
use edi_messages::MessageFault;
use edi_messages::parts::{has_lin, header, is_cps, only_qualified};
use edi_messages::references::{has_reference, order};
use edi_tokens::{MemoryFault, Segment};
use gs1_ids::Sscc;
use std::alloc::Global;

// Whether the header of a despatch advice has no reference, or one with an order number.
fn has_header_reference_or_none(message: &[Segment]) -> bool
    ensures { result ≡ despatch.has_header_reference_or_none message.now }
{
    !has_reference(header(message)) || order(message).is_some()
}

// Whether these segments begin with a unit that has lines. Others are not read.
fn begins_unit(segments: &[Segment]) -> bool
    ensures { result ≡ spec.begins_unit segments.now }
{
    match segments.first() {
        Some(packing) => is_cps(packing) && has_lin(unit_of(segments)),
        None => false,
    }
}

// Returns the bytes of the one SSCC of a GIN, the only component after the qualifier.
fn gin_sscc(gin: &Segment) -> Option<&[u8]>
    ensures { option_map (λ sscc. sscc.now) result ≡ units.sscc_in gin.now }
{
    if gin.elements.len() != 2 || gin.element(1).len() != 1 {
        return None;
    }
    let bytes = gin.component(1, 0);
    if Sscc::parse(bytes).is_some() {
        Some(bytes)
    } else {
        None
    }
}

fn sscc(unit: &[Segment]) -> Option<&[u8]>
    ensures { option_map (λ sscc. sscc.now) result ≡ units.sscc unit.now }
{
    gin_sscc(only_qualified(b"GIN", b"BJ", head(unit))?)
}

// Whether a unit has an SSCC that no earlier unit has. The SSCC is added to those that were seen.
fn is_new_unit<'a>(seen: &mut Seen<'a>, unit: &'a [Segment]) -> Result<bool, MemoryFault>
    ensures new { IfOk result (λ new. new ≡ spec.is_new_unit seen.old unit.now) }
    ensures seen { OnOk result (is_some (units.sscc unit.now) ≡ true → (other : List ℕ) →
        is_among other seen.new ≡ (bytes_eq other (units.sscc_or_none unit.now) || is_among other seen.old)) }
{
    let Some(sscc) = sscc(unit) else {
        return Ok(false);
    };
    seen.insert(sscc)
}

// Returns the GIN that shows a wrong SSCC of a unit: the second in its head, or else the only one, or else CPS.
fn sscc_place(unit: &[Segment]) -> usize
    ensures within { result ≤ length unit.now + 1 }
    ensures value { result ≡ spec.sscc_place unit.now }
{
    let head = head(unit);
    once_place(b"GIN", b"BJ", 1, head)
}

// Whether these segments begin with a unit that is read, but has no identifier or no SSCC of its own. Its SSCC is added
// otherwise.
fn begins_wrong_unit<'a>(seen: &mut Seen<'a>, segments: &'a [Segment]) -> Result<bool, MemoryFault>
    ensures wrong { IfOk result (λ wrong. wrong ≡ spec.begins_wrong_unit seen.old segments.now) }
    ensures seen { IfOk result (λ wrong. wrong ≡ false → (other : List ℕ) →
        is_among other seen.new ≡ is_among other (spec.ssccs_with seen.old segments.now)) }
{
    if !begins_unit(segments) {
        return Ok(false);
    }
    let unit = unit_of(segments);
    if !has_identifier(unit) {
        return Ok(true);
    }
    let new = is_new_unit(seen, unit)?;
    Ok(!new)
}

// Returns the segment that shows a wrong unit: CPS if it has no identifier, or else GIN.
fn place_in_unit(unit: &[Segment]) -> usize
    ensures within { result ≤ length unit.now + 1 }
    ensures value { result ≡ spec.place_in_unit unit.now }
{
    if has_identifier(unit) {
        sscc_place(unit)
    } else {
        1
    }
}

// Returns the segment that shows the first unit that is wrong or has the SSCC of an earlier one.
fn first_unit_place(alloc: Global, message: &[Segment]) -> Result<usize, MemoryFault>
    ensures { IfOk result (λ place. place ≡ spec.first_unit_place [] message.now) }
{
    let mut seen = Seen::new(alloc);
    for index in 0..message.len() {
        let rest = &message[index..];
        if begins_wrong_unit(&mut seen, rest)? {
            return Ok(index + place_in_unit(unit_of(rest)));
        }
    }
    Ok(message.len())
}

// Returns the segment that shows a wrong unit: a LIN before the first CPS, or else one of the first unit that is wrong
// or has the SSCC of an earlier one.
fn unit_place(alloc: Global, message: &[Segment]) -> Result<usize, MemoryFault>
    ensures { IfOk result (λ place. place ≡ spec.unit_place message.now) }
{
    let (before, _) = message.split_at(outside_len(message));
    if has_lin(before) {
        return Ok(first_tag_place(b"LIN", message));
    }
    first_unit_place(alloc, message)
}

// Returns the segment that shows that a condition does not hold of a line group of a unit.
fn unit_group_place(condition: Condition, message: &[Segment]) -> usize
    ensures { result ≡ spec.unit_group_place condition message.now }
{
    group_place_or_last(condition, &[], outside_len(message), message)
}

fn reference_condition(inherited: bool) -> Condition
    ensures { result ≡ spec.reference_condition inherited }
{
    if inherited {
        Condition::ReferenceOrNone
    } else {
        Condition::Reference
    }
}

// Returns the segment that shows a wrong reference of a despatch advice.
fn despatch_reference_place(message: &[Segment]) -> usize
    ensures { result ≡ spec.despatch_place MessageFault.Reference message.now }
{
    if has_header_reference_or_none(message) {
        let inherited = has_reference(header(message));
        unit_group_place(reference_condition(inherited), message)
    } else {
        reference_place(message)
    }
}

/// Returns the number of the segment that shows a fault of a despatch advice, DESADV (EANCOM 2002). UNH is number 1,
/// and shows a fault that no one segment shows. For a message without this fault it is some number. Only the comparison
/// of SSCC takes memory.
pub fn despatch_place(
    alloc: Global,
    fault: MessageFault,
    message: &[Segment],
) -> Result<usize, MemoryFault>
    ensures { IfOk result (λ place. place ≡ spec.despatch_place fault message.now) }
{
    let place = match fault {
        MessageFault::Beginning => beginning_place(message),
        MessageFault::Function => 2,
        MessageFault::Date => date_place(message),
        MessageFault::Parties => goods_parties_place(message),
        MessageFault::Line => unit_group_place(Condition::Line, message),
        MessageFault::Quantity => unit_group_place(Condition::Despatched, message),
        MessageFault::Reference => despatch_reference_place(message),
        MessageFault::Unit => unit_place(alloc, message)?,
        MessageFault::Control => control_place(message),
        _ => 1,
    };
    Ok(place)
}

// Returns the segment that shows a wrong quantity of a receiving advice; UNH if a sum is too great.
fn receipt_quantity_place(message: &[Segment]) -> usize
    ensures { result ≡ spec.receipt_quantity_place message.now }
{
    group_place(Condition::Received, &[], outside_len(message), message).unwrap_or(1)
}

/// Like `despatch_place`, for a receiving advice, RECADV.
pub fn receipt_place(
    alloc: Global,
    fault: MessageFault,
    message: &[Segment],
) -> Result<usize, MemoryFault>
    ensures { IfOk result (λ place. place ≡ spec.receipt_place fault message.now) }
{
    let place = match fault {
        MessageFault::Beginning => beginning_place(message),
        MessageFault::Function => 2,
        MessageFault::Date => date_place(message),
        MessageFault::Parties => goods_parties_place(message),
        MessageFault::Line => unit_group_place(Condition::Line, message),
        MessageFault::Quantity => receipt_quantity_place(message),
        MessageFault::Unit => unit_place(alloc, message)?,
        MessageFault::Control => control_place(message),
        _ => 1,
    };
    Ok(place)
}
