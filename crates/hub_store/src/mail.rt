//! Defines what a list shows of a mailbox.
use edi_base::Items;
use hub_tables::{Column, MailKind};

/// What a list shows of one mailbox entry.
#[derive(Debug, Drop)]
pub struct MailHead {
    /// The entry's number in the mailbox, from 1.
    pub number: u64,
    /// The type of the message.
    pub kind: Column<MailKind>,
    /// The document number of the message (BGM 1004).
    pub document: Items<u8>,
}
