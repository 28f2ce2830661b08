//! Defines cancellations.
use edi_base::Items;
use gs1_ids::Gln;

/// A cancellation by the retailer: this quantity of what is open of an order line.
#[derive(Debug, Drop)]
pub struct Cancel {
    /// The supplier.
    pub supplier: Gln,
    /// The cancellation's own reference, 1 to 14 bytes.
    pub reference: Items<u8>,
    /// The order number, 1 to 35 bytes.
    pub order: Items<u8>,
    /// The line number, 1 to 999,999.
    pub line: u32,
    /// The quantity, in pieces, 1 to 999,999,999.
    pub quantity: u32,
}
