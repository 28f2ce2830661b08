//! Defines what is known of an order line.
use hub_tables::LineRow;

/// An order line, and the quantity of it that was despatched.
#[derive(Debug, Drop)]
pub struct LineFacts {
    /// The row of the line.
    pub row: LineRow,
    /// The despatched quantity, in pieces. In sound tables it is the sum of the contents that name the line.
    pub despatched: u32,
}
