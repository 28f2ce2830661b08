//! Defines the rows of the eleven kinds. Contracts see texts as lists of numbers and enum columns as numbers, so they
//! can also describe stored rows that these types do not allow.
use crate::cases::{Arrival, LineState, MailKind, Side};
use crate::column::Column;
use edi_base::Items;
use edi_envelope::Moment;
use gs1_ids::{Gln, Gtin, Prefix, Sscc};
use hub_parties::Key;

/// The hub, with its retailer. Key: the hub's GLN.
#[derive(Debug, Drop)]
pub struct HubRow {
    /// The hub's GLN.
    pub hub: Gln,
    /// The retailer's GLN.
    pub retailer: Gln,
    /// The retailer's key.
    pub key: Key,
}

/// A supplier's key. Key of the row: the supplier.
#[derive(Debug, Drop)]
pub struct KeyRow {
    /// The supplier.
    pub supplier: Gln,
    /// The key with which it identifies itself to the hub.
    pub key: Key,
}

/// A company prefix. Key: the prefix alone, over all suppliers.
#[derive(Debug, Drop)]
pub struct PrefixRow {
    /// The prefix.
    pub prefix: Prefix,
    /// The supplier that has it.
    pub supplier: Gln,
}

/// An order. Key: supplier and number.
#[derive(Debug, Drop)]
pub struct OrderRow {
    /// The supplier.
    pub supplier: Gln,
    /// The order number, 1 to 35 bytes.
    pub number: Items<u8>,
}

/// An order line, with quantities in pieces. Key: supplier, number and line.
#[derive(Debug, Drop)]
pub struct LineRow {
    /// The supplier.
    pub supplier: Gln,
    /// The order number.
    pub number: Items<u8>,
    /// The line number, 1 to 999,999.
    pub line: u32,
    /// The article.
    pub gtin: Gtin,
    /// The quantity ordered, 1 to 999,999,999.
    pub ordered: u32,
    /// The quantity that is still to be despatched.
    pub open_qty: u32,
    /// The quantity that the supplier refused.
    pub refused: u32,
    /// The quantity that the retailer cancelled.
    pub cancelled: u32,
    /// The supplier's answer to the line.
    pub answer: Column<LineState>,
}

/// A despatch advice. Key: supplier and number.
#[derive(Debug, Drop)]
pub struct AdviceRow {
    /// The supplier.
    pub supplier: Gln,
    /// The advice number, 1 to 35 bytes.
    pub number: Items<u8>,
}

/// A pallet. Key: the SSCC alone, over all suppliers.
#[derive(Debug, Drop)]
pub struct PalletRow {
    /// The pallet's SSCC.
    pub sscc: Sscc,
    /// The supplier.
    pub supplier: Gln,
    /// The number of the advice that announced it.
    pub advice: Items<u8>,
    /// Whether it is announced or received.
    pub received: Column<Arrival>,
}

/// What an advice says is on a pallet, for one order line. Key: the pallet's SSCC and the place.
#[derive(Debug, Drop)]
pub struct ContentRow {
    /// The pallet's SSCC.
    pub sscc: Sscc,
    /// The place on the pallet, from 1.
    pub place: u64,
    /// The order number.
    pub number: Items<u8>,
    /// The line number.
    pub line: u32,
    /// The quantity despatched, 1 to 999,999,999.
    pub quantity: u32,
}

/// What was received of an article on a pallet, in pieces. Key: the pallet's SSCC and the GTIN.
#[derive(Debug, Drop)]
pub struct ReceiptRow {
    /// The pallet's SSCC.
    pub sscc: Sscc,
    /// The article.
    pub gtin: Gtin,
    /// Received and accepted.
    pub accepted: u32,
    /// Received, not accepted, to be returned.
    pub returned: u32,
    /// Received, not accepted, to be destroyed.
    pub destroyed: u32,
}

/// A message or a cancellation that was accepted. Key: supplier, side and both references.
#[derive(Debug, Drop)]
pub struct RememberedRow {
    /// The supplier.
    pub supplier: Gln,
    /// Whether the retailer or the supplier sent it, or it is a cancellation.
    pub side: Column<Side>,
    /// The control reference of its interchange, or the cancellation's reference, 1 to 14 bytes.
    pub control: Items<u8>,
    /// The message reference, 1 to 14 bytes; empty for a cancellation.
    pub message: Items<u8>,
    /// Its content: the canonical text of the message from UNH to UNT, or the five lines of the cancellation.
    pub content: Items<u8>,
}

/// An entry of a supplier's mailbox. Key: supplier and number.
#[derive(Debug, Drop)]
pub struct MailRow {
    /// The supplier.
    pub supplier: Gln,
    /// The entry's number in the mailbox, from 1.
    pub number: u64,
    /// When the message arrived.
    pub moment: Moment,
    /// The decimal mark of the message's interchange.
    pub decimal: u8,
    /// The type of the message.
    pub kind: Column<MailKind>,
    /// The document number of the message (BGM 1004).
    pub document: Items<u8>,
    /// The canonical text of the message from UNH to UNT, with `1` as the reference in both.
    pub body: Items<u8>,
    /// Whether the supplier has taken it.
    pub taken: Column<bool>,
}
