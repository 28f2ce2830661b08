//! Describes faults by their names in words.
ghost use Rattle.std.specs.Prelude.{◌≡◌};
ghost use Rattle.edi_show.specs.Fault as spec;

use edi_envelope::EnvelopeFault;
use edi_messages::MessageFault;
use edi_places::TextPlace;
use edi_tokens::TokenFault;

/// Why a text is refused as a whole.
#[derive(Clone, Copy, Debug, PartialEq, Eq)]
pub enum WholeFault {
    /// The text spells no segments: its fault, and the byte that shows it or the end of the text.
    Token(TokenFault, TextPlace),
    /// The segments are not an interchange: the fault, and the number of the segment that shows it, or `None` if there
    /// is no segment. UNB is number 1.
    Envelope(EnvelopeFault, Option<usize>),
}

// Returns the name of a fault of a text.
fn token_words(fault: TokenFault) -> &'static str
    ensures { result.now ≡ spec.token_words fault }
{
    match fault {
        TokenFault::TooLong => "text too long",
        TokenFault::ServiceString => "service string",
        TokenFault::Byte => "byte in a segment",
        TokenFault::Cut => "text cut",
        TokenFault::Tag => "tag",
        TokenFault::LongSegment => "segment too long",
        TokenFault::Read => "read",
        TokenFault::Memory => "memory",
    }
}

// Returns the name of a fault of an envelope.
fn envelope_words(fault: EnvelopeFault) -> &'static str
    ensures { result.now ≡ spec.envelope_words fault }
{
    match fault {
        EnvelopeFault::InterchangeFrame => "frame of the interchange",
        EnvelopeFault::InterchangeHeader => "header of the interchange",
        EnvelopeFault::MessageFrame => "frame of a message",
        EnvelopeFault::MessageHeader => "header of a message",
        EnvelopeFault::SegmentCount => "count of segments",
        EnvelopeFault::MessageReference => "message reference",
        EnvelopeFault::MessageCount => "count of messages",
        EnvelopeFault::ControlReference => "control reference",
        EnvelopeFault::RepeatedReference => "repeated message reference",
        EnvelopeFault::TestIndicator => "test indicator",
        EnvelopeFault::TooManyMessages => "too many messages",
        EnvelopeFault::CharacterSet => "character set",
        EnvelopeFault::Memory => "memory",
    }
}

/// Returns the name of a fault of a message, as `quantity` for M08; `memory` for out of memory.
pub(crate) fn message_words(fault: MessageFault) -> &'static str
    ensures { result.now ≡ spec.message_words fault }
{
    match fault {
        MessageFault::MessageType => "message type",
        MessageFault::Beginning => "beginning of the message",
        MessageFault::Function => "message function",
        MessageFault::Date => "document date",
        MessageFault::Parties => "parties",
        MessageFault::Summary => "section control",
        MessageFault::Line => "line",
        MessageFault::Quantity => "quantity",
        MessageFault::Reference => "reference to an order",
        MessageFault::Unit => "despatch unit",
        MessageFault::Control => "control count",
        MessageFault::WithoutLines => "no line",
        MessageFault::Memory => "memory",
    }
}

impl WholeFault {
    /// Returns the code that is printed, as `E12`.
    pub fn code(self) -> &'static str
        ensures { result.now ≡ spec.whole_code self }
    {
        match self {
            WholeFault::Token(fault, _) => fault.code(),
            WholeFault::Envelope(fault, _) => fault.code(),
        }
    }

    /// Returns the name in words, as `count of segments` for E12.
    pub fn words(self) -> &'static str
        ensures { result.now ≡ spec.whole_words self }
    {
        match self {
            WholeFault::Token(fault, _) => token_words(fault),
            WholeFault::Envelope(fault, _) => envelope_words(fault),
        }
    }
}
