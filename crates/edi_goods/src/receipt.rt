//! Reads receiving advices (RECADV).
ghost use Rattle.std.specs.Prelude.{◌≡◌, ◌≢◌, IfOk, IfErr, Ok, Err, Some, None, true, false, codes, map};
ghost use Rattle.std.specs.List.{list_all};
ghost use Rattle.edi_base.specs.Seen.{has_twice};
ghost use Rattle.edi_messages.specs.Fault.{faults, faults_from};
ghost use Rattle.edi_messages.specs.Header.{party};
ghost use Rattle.edi_goods.specs.Parties.{buyer};
ghost use Rattle.edi_goods.specs.Receipt as spec;
ghost use Rattle.edi_goods.specs.Units.{has_units, read_units, sscc_or_none};

use crate::parties::{HeaderParties, read_parties};
use crate::received::{ReceivedUnit, received_units};
use crate::units::{ItemUnit, item_units, ssccs};
use edi_base::{Items, copy_bytes};
use edi_messages::header::{begins_as, document_number, function, has_date, is_type};
use edi_messages::summary::{is_controlled, line_count};
use edi_messages::{MessageFault, RawMessage, Segment};
use gs1_ids::{Gln, Gtin, Sscc};
use std::alloc::Global;

/// A receiving advice (RECADV).
#[derive(Debug, Drop)]
pub struct Receipt {
    /// The advice number (BGM 1004), 1 to 35 bytes.
    pub number: Items<u8>,
    /// The buyer (NAD BY), if it is named.
    pub buyer: Option<Gln>,
    /// The supplier (NAD SU).
    pub supplier: Gln,
    /// Whether it replaces what was received of its units (BGM 1225 5), or is an original (9).
    pub replaces: bool,
    /// The units that have lines, in their order.
    pub units: Items<ReceiptUnit>,
}

/// A logistic unit that was received.
#[derive(Debug, Drop)]
pub struct ReceiptUnit {
    /// The unit's SSCC (GIN BJ).
    pub sscc: Sscc,
    /// What was received in it, a line for each LIN, in its order.
    pub lines: Items<ReceiptLine>,
}

/// What a line says about an article, in pieces, each 0 to 999,999,999; a kind that is not named is 0. In one unit no
/// article's sum of a kind is above 999,999,999.
#[derive(Clone, Copy, Debug, PartialEq, Eq)]
pub struct ReceiptLine {
    /// The article.
    pub gtin: Gtin,
    /// Received and accepted (QTY 194).
    pub accepted: u32,
    /// Received, not accepted, to be returned (QTY 195).
    pub returned: u32,
    /// Received, not accepted, to be destroyed (QTY 196).
    pub destroyed: u32,
}

// Returns the units of the record, each with its SSCC.
fn units_of(
    alloc: Global,
    units: &[ReceivedUnit<'_, '_>],
    ssccs: &[Sscc],
) -> Result<Items<ReceiptUnit>, MessageFault>
    requires { ssccs.now ≡ map sscc_or_none units.now }
    ensures ok { IfOk result (λ read. read ≡ map spec.unit_from units.now) }
    ensures err { IfErr result (λ fault. fault ≡ MessageFault.Memory) }
{
    let mut read = Items::new(alloc);
    for (index, unit) in units.iter().enumerate() {
        let sscc = ssccs[index];
        let lines = Vec::from_slice(alloc, unit.lines())?;
        read.push(ReceiptUnit {
            sscc,
            lines: Items::from_vec(lines),
        })?;
    }
    Ok(read)
}

// Whether the advice replaces what was received.
fn replaces(message: &[Segment]) -> bool
    ensures { result ≡ spec.replaces message.now }
{
    function(message) == b"5".as_slice()
}

fn has_function(message: &[Segment]) -> bool
    ensures { result ≡ spec.has_function message.now }
{
    function(message) == b"9".as_slice() || replaces(message)
}

// Returns the parties, or the lowest fault of what comes before the lines.
fn read_heading(message: &RawMessage) -> Result<HeaderParties, MessageFault>
    ensures said { IfOk result (λ parties. (parties.buyer ≡ buyer message.now.segments)
        × (party (codes "SU") message.now.segments ≡ Some parties.supplier)) }
    ensures ok { IfOk result (λ _.
        spec.lowest faults message.now ≡ spec.lowest (faults_from MessageFault.Line) message.now) }
    ensures err { IfErr result (λ fault. spec.lowest faults message.now ≡ Some fault) }
{
    let segments = message.segments.as_slice();
    if !is_type(b"RECADV", message) {
        return Err(MessageFault::MessageType);
    }
    if !begins_as(b"632", segments) {
        return Err(MessageFault::Beginning);
    }
    if !has_function(segments) {
        return Err(MessageFault::Function);
    }
    if !has_date(segments) {
        return Err(MessageFault::Date);
    }
    read_parties(segments)
}

// Returns the units of the record, or the lowest fault of them and of what is checked after them.
fn read_identified(
    alloc: Global,
    message: &RawMessage,
    items: &[ItemUnit<'_>],
    received: &[ReceivedUnit<'_, '_>],
) -> Result<Items<ReceiptUnit>, MessageFault>
    requires items { items.now ≡ read_units message.now.segments }
    requires received { received.now ≡ read_units message.now.segments }
    ensures said { IfOk result (λ units. units ≡ map spec.unit_from (read_units message.now.segments)) }
    ensures units { IfOk result (λ _. has_units message.now.segments ≡ true) }
    ensures ok { IfOk result (λ _. spec.lowest (faults_from MessageFault.Reference) message.now ≡ None) }
    ensures err { IfErr result (λ fault. fault ≢ MessageFault.Memory →
        spec.lowest (faults_from MessageFault.Reference) message.now ≡ Some fault) }
{
    let segments = message.segments.as_slice();
    let ssccs = ssccs(alloc, items, segments)?;
    if !is_controlled(segments) {
        return Err(MessageFault::Control);
    }
    if line_count(segments) == 0 {
        return Err(MessageFault::WithoutLines);
    }
    let units = units_of(alloc, received, ssccs.as_slice())?;
    Ok(units)
}

// Returns the units of the record, or the lowest fault of their lines and of what is checked after these.
fn read_received(alloc: Global, message: &RawMessage) -> Result<Items<ReceiptUnit>, MessageFault>
    ensures said { IfOk result (λ units. units ≡ map spec.unit_from (read_units message.now.segments)) }
    ensures units { IfOk result (λ _. has_units message.now.segments ≡ true) }
    ensures quantities { IfOk result (λ _.
        list_all spec.has_quantities (read_units message.now.segments) ≡ true) }
    ensures ok { IfOk result (λ _. spec.lowest (faults_from MessageFault.Line) message.now ≡ None) }
    ensures err { IfErr result (λ fault. fault ≢ MessageFault.Memory →
        spec.lowest (faults_from MessageFault.Line) message.now ≡ Some fault) }
{
    let items = item_units(alloc, message.segments.as_slice())?;
    let received = received_units(alloc, items.as_slice())?;
    read_identified(alloc, message, items.as_slice(), received.as_slice())
}

impl Receipt {
    /// Reads the receiving advice that a message is: RECADV of the directory D.01B with BGM 1001 632 and 1225 9 or 5,
    /// one document date, one supplier and at most one buyer, and units with lines, each unit with an identifier and an
    /// SSCC of its own, each line with an article and at least one of the quantities 194, 195 and 196, none twice.
    /// Otherwise it returns the lowest fault of the message, wherever that is in it.
    #[tactic(auto, unfolding(crate::specs::Receipt::receipt_of))]
    pub fn read(alloc: Global, message: &RawMessage) -> Result<Receipt, MessageFault>
        ensures ok { IfOk result (λ receipt. spec.receipt_of message.now ≡ Ok receipt) }
        ensures apart { IfOk result (λ receipt. has_twice (map (λ unit. unit.sscc) receipt.units) ≡ false) }
        ensures sums { IfOk result (λ receipt.
            list_all (λ unit. spec.has_sums unit.lines) receipt.units ≡ true) }
        ensures err { IfErr result (λ fault.
            fault ≢ MessageFault.Memory → spec.receipt_of message.now ≡ Err fault) }
    {
        let parties = read_heading(message)?;
        let units = read_received(alloc, message)?;
        let number = copy_bytes(alloc, document_number(message.segments.as_slice()))?;
        Ok(Receipt {
            number,
            buyer: parties.buyer,
            supplier: parties.supplier,
            replaces: replaces(message.segments.as_slice()),
            units,
        })
    }
}
