//! Defines the verdict on a message, a cancellation or a join.
use crate::code::Code;
use edi_base::Items;
use hub_tables::Change;

/// The verdict on a message, a cancellation or a join.
#[derive(Debug, Drop)]
pub enum Verdict {
    /// Accepted, with these changes in this order. Without changes it repeats one that is already remembered; a join
    /// always has some.
    Accept(Items<Change>),
    /// Refused; nothing changes.
    Refuse(Code),
}
