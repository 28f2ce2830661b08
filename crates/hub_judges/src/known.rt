//! Defines what a judge knows of the tables.
use edi_base::Items;
use hub_order_lines::KnownOrders;
use hub_tables::PalletRow;

/// What is known of one supplier's rows when a message or a cancellation is checked. A judge reads only what its checks
/// need.
#[derive(Debug, Drop)]
pub struct Known {
    /// Whether the content remembered under the references is that of the message or the cancellation; `None` if nothing
    /// is remembered.
    pub remembered: Option<bool>,
    /// For each order that is named, whether the supplier has it, and its lines. Of an order whose lines are named only
    /// by their numbers, the lines named may be the only ones there.
    pub orders: KnownOrders,
    /// Whether the supplier already has an order (ORDERS) or an advice (DESADV) with this number.
    pub number_known: bool,
    /// The number of entries in the supplier's mailbox.
    pub mails: u64,
    /// For each unit of a DESADV, in its order, whether its SSCC is used.
    pub used: Items<bool>,
    /// For each unit of a RECADV, in its order, the supplier's pallet.
    pub pallets: Items<Option<PalletRow>>,
}
