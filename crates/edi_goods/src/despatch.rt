//! Reads despatch advices (DESADV).
ghost use Rattle.std.specs.Prelude.{◌≡◌, ◌≢◌, IfOk, IfErr, Ok, Err, Some, None, true, false, map, codes};
ghost use Rattle.edi_base.specs.Seen.{has_twice};
ghost use Rattle.edi_messages.specs.Fault.{faults, faults_from};
ghost use Rattle.edi_messages.specs.Header.{party};
ghost use Rattle.edi_goods.specs.Despatch as spec;
ghost use Rattle.edi_goods.specs.Parties.{buyer};
ghost use Rattle.edi_goods.specs.Units.{has_units, read_units, sscc_or_none};

use crate::announced::{DespatchUnit, ReferredUnit, despatch_units, lines_in_unit, referred_units};
use crate::parties::{HeaderParties, read_parties};
use crate::units::{ItemUnit, item_units, ssccs};
use edi_base::{Items, copy_bytes};
use edi_messages::header::{begins_as, document_number, function, has_date, is_type};
use edi_messages::parts::header;
use edi_messages::references::{has_reference, order};
use edi_messages::summary::{is_controlled, line_count};
use edi_messages::{MessageFault, RawMessage, Segment};
use gs1_ids::{Gln, Gtin, Sscc};
use std::alloc::Global;

/// A despatch advice (DESADV).
#[derive(Debug, Drop)]
pub struct Despatch {
    /// The advice number (BGM 1004), 1 to 35 bytes.
    pub number: Items<u8>,
    /// The buyer (NAD BY), if it is named.
    pub buyer: Option<Gln>,
    /// The supplier (NAD SU).
    pub supplier: Gln,
    /// The units that have lines, in their order.
    pub units: Items<Unit>,
}

/// A logistic unit.
#[derive(Debug, Drop)]
pub struct Unit {
    /// The unit's SSCC (GIN BJ).
    pub sscc: Sscc,
    /// What is in it, in its order.
    pub lines: Items<DespatchLine>,
}

/// A line of a unit.
#[derive(Debug, Drop)]
pub struct DespatchLine {
    /// The order (RFF ON 1154) that the line names, or else the header, 1 to 35 bytes.
    pub order: Items<u8>,
    /// The line of the order (RFF ON 1156), if the line names one.
    pub order_line: Option<u32>,
    /// The article.
    pub gtin: Gtin,
    /// The quantity despatched, in pieces, 1 to 999,999,999.
    pub quantity: u32,
}

// Returns the order that the header names, or nothing. It is the fault `Reference` if it names several, or one that is
// not valid.
fn header_order(message: &[Segment]) -> Result<&[u8], MessageFault>
    ensures ok { IfOk result (λ order. (order.now ≡ spec.header_order message.now)
        × (spec.has_header_reference_or_none message.now ≡ true)) }
    ensures err { IfErr result (λ fault.
        (fault ≡ MessageFault.Reference) × (spec.has_header_reference_or_none message.now ≡ false)) }
{
    match order(message) {
        Some(order) => Ok(order),
        None => {
            if has_reference(header(message)) {
                Err(MessageFault::Reference)
            } else {
                Ok(&[])
            }
        }
    }
}

// Returns the units of the record, each with its SSCC.
fn units_of(
    alloc: Global,
    header_order: &[u8],
    units: &[ReferredUnit<'_, '_>],
    ssccs: &[Sscc],
) -> Result<Items<Unit>, MessageFault>
    requires { ssccs.now ≡ map sscc_or_none units.now }
    ensures ok { IfOk result (λ read. read ≡ map (spec.unit_from header_order.now) units.now) }
    ensures err { IfErr result (λ fault. fault ≡ MessageFault.Memory) }
{
    let mut read = Items::new(alloc);
    for (index, unit) in units.iter().enumerate() {
        let sscc = ssccs[index];
        let lines = lines_in_unit(alloc, header_order, unit)?;
        read.push(Unit { sscc, lines })?;
    }
    Ok(read)
}

// Returns the parties, or the lowest fault of what comes before the lines.
fn read_heading(message: &RawMessage) -> Result<HeaderParties, MessageFault>
    ensures said { IfOk result (λ parties. (parties.buyer ≡ buyer message.now.segments)
        × (party (codes "SU") message.now.segments ≡ Some parties.supplier)) }
    ensures ok { IfOk result (λ _.
        spec.lowest faults message.now ≡ spec.lowest (faults_from MessageFault.Line) message.now) }
    ensures err { IfErr result (λ fault. spec.lowest faults message.now ≡ Some fault) }
{
    let segments = message.segments.as_slice();
    if !is_type(b"DESADV", message) {
        return Err(MessageFault::MessageType);
    }
    if !begins_as(b"351", segments) {
        return Err(MessageFault::Beginning);
    }
    if function(segments) != b"9".as_slice() {
        return Err(MessageFault::Function);
    }
    if !has_date(segments) {
        return Err(MessageFault::Date);
    }
    read_parties(segments)
}

// Returns the units of the record, or the lowest fault of the references and of what is checked after them.
fn read_referred(
    alloc: Global,
    message: &RawMessage,
    items: &[ItemUnit<'_>],
    despatched: &[DespatchUnit<'_, '_>],
) -> Result<Items<Unit>, MessageFault>
    requires items { items.now ≡ read_units message.now.segments }
    requires despatched { despatched.now ≡ read_units message.now.segments }
    ensures said { IfOk result
        (λ units. units ≡ map (spec.unit_from (spec.header_order message.now.segments))
        (read_units message.now.segments)) }
    ensures units { IfOk result (λ _. has_units message.now.segments ≡ true) }
    ensures ok { IfOk result (λ _. spec.lowest (faults_from MessageFault.Reference) message.now ≡ None) }
    ensures err { IfErr result (λ fault. fault ≢ MessageFault.Memory →
        spec.lowest (faults_from MessageFault.Reference) message.now ≡ Some fault) }
{
    let segments = message.segments.as_slice();
    let order = header_order(segments)?;
    let inherited = has_reference(header(segments));
    let referred = referred_units(alloc, inherited, despatched)?;
    let ssccs = ssccs(alloc, items, segments)?;
    if !is_controlled(segments) {
        return Err(MessageFault::Control);
    }
    if line_count(segments) == 0 {
        return Err(MessageFault::WithoutLines);
    }
    let units = units_of(alloc, order, referred.as_slice(), ssccs.as_slice())?;
    Ok(units)
}

// Returns the units of the record, or the lowest fault of them and of what is checked after them.
fn read_announced(alloc: Global, message: &RawMessage) -> Result<Items<Unit>, MessageFault>
    ensures said { IfOk result
        (λ units. units ≡ map (spec.unit_from (spec.header_order message.now.segments))
        (read_units message.now.segments)) }
    ensures units { IfOk result (λ _. has_units message.now.segments ≡ true) }
    ensures ok { IfOk result (λ _. spec.lowest (faults_from MessageFault.Line) message.now ≡ None) }
    ensures err { IfErr result (λ fault. fault ≢ MessageFault.Memory →
        spec.lowest (faults_from MessageFault.Line) message.now ≡ Some fault) }
{
    let items = item_units(alloc, message.segments.as_slice())?;
    let despatched = despatch_units(alloc, items.as_slice())?;
    read_referred(alloc, message, items.as_slice(), despatched.as_slice())
}

impl Despatch {
    /// Reads the despatch advice that a message is: DESADV of the directory D.01B with BGM 1001 351 and 1225 9, one
    /// document date, one supplier and at most one buyer, and units with lines, each unit with an identifier and an
    /// SSCC of its own, each line with an article, a quantity despatched and an order. Otherwise it returns the lowest
    /// fault of the message, wherever that is in it.
    #[tactic(auto, unfolding(crate::specs::Despatch::despatch_of))]
    pub fn read(alloc: Global, message: &RawMessage) -> Result<Despatch, MessageFault>
        ensures ok { IfOk result (λ despatch. spec.despatch_of message.now ≡ Ok despatch) }
        ensures apart { IfOk result (λ despatch. has_twice (map (λ unit. unit.sscc) despatch.units) ≡ false) }
        ensures err { IfErr result (λ fault.
            fault ≢ MessageFault.Memory → spec.despatch_of message.now ≡ Err fault) }
    {
        let parties = read_heading(message)?;
        let units = read_announced(alloc, message)?;
        let number = copy_bytes(alloc, document_number(message.segments.as_slice()))?;
        Ok(Despatch {
            number,
            buyer: parties.buyer,
            supplier: parties.supplier,
            units,
        })
    }
}
