//! Names the kinds of rows that are read in pieces.

/// A kind of row that is read in pieces. A piece has the rows with one value in a column: that of the supplier, or for
/// contents and receipts that of the SSCC.
#[derive(Clone, Copy)]
pub enum PieceKind {
    /// Orders.
    Order,
    /// Lines of orders.
    Line,
    /// Despatch advices.
    Advice,
    /// Pallets.
    Pallet,
    /// Contents of pallets.
    Content,
    /// What was received of pallets.
    Receipt,
    /// Messages and cancellations that were accepted.
    Remembered,
    /// Entries of mailboxes.
    Mail,
}
