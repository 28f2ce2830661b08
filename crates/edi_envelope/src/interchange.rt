use edi_tokens::{Items, Segment};

/// What the interchange header UNB says (ISO 9735, structures and service segments).
#[derive(Debug, Drop)]
pub struct Head {
    /// The syntax identifier, `UNOA`, `UNOB` or `UNOC`.
    pub syntax: [u8; 4],
    /// The identification of the sender, 1 to 35 bytes.
    pub sender: Items<u8>,
    /// The identification of the recipient, 1 to 35 bytes.
    pub recipient: Items<u8>,
    /// The date of preparation, YYMMDD: six digits that need be no day of the calendar.
    pub date: [u8; 6],
    /// The time of preparation, HHMM: four digits that need be no time of day.
    pub time: [u8; 4],
    /// The interchange control reference, 1 to 14 bytes of 0x20 to 0x7E.
    pub reference: Items<u8>,
}

/// One message of an interchange, with what its header UNH says.
#[derive(Debug, Drop)]
pub struct RawMessage {
    /// The message reference number, 1 to 14 bytes of 0x20 to 0x7E.
    pub reference: Items<u8>,
    /// The message type, 1 to 6 bytes.
    pub kind: Items<u8>,
    /// The message version number, 1 to 3 bytes.
    pub version: Items<u8>,
    /// The message release number, 1 to 3 bytes.
    pub release: Items<u8>,
    /// The controlling agency, 1 to 3 bytes.
    pub agency: Items<u8>,
    /// The association assigned code, at most 6 bytes.
    pub association: Items<u8>,
    /// The segments from UNH to UNT, both with it.
    pub segments: Items<Segment>,
}

/// An interchange: what its header says, and its messages in their order.
#[derive(Debug, Drop)]
pub struct Interchange {
    /// The decimal mark of the text, a full stop or a comma.
    pub decimal: u8,
    /// What UNB says.
    pub head: Head,
    /// The messages, none if UNZ follows UNB.
    pub messages: Items<RawMessage>,
}
