//! Defines what the rules need of a message beside the document in it.
use edi_base::Items;
use edi_moment::Moment;

/// A message as the rules see it beside the document that was read from it: its references, its content, and when it
/// arrived.
#[derive(Debug, Drop)]
pub struct IncomingMessage {
    /// The control reference of its interchange (UNB 0020).
    pub control: Items<u8>,
    /// Its own reference (UNH 0062).
    pub message: Items<u8>,
    /// Its content: the canonical text from UNH to UNT.
    pub content: Items<u8>,
    /// When its interchange arrived.
    pub moment: Moment,
    /// The decimal mark of its interchange.
    pub decimal: u8,
}
