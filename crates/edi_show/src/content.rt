//! Reads each message of an interchange, or finds what it is refused for and where.
ghost use Rattle.std.specs.Prelude.{◌≡◌, ◌+◌, Some, IfOk};
ghost use Rattle.edi_show.specs.Content as spec;

use edi_base::copy_bytes;
use edi_documents::{Document, DocumentType};
use edi_envelope::RawMessage;
use edi_messages::MessageFault;
use edi_places::{despatch_place, order_place, receipt_place, response_place};
use edi_tokens::{Items, MemoryFault, Segment};
use std::alloc::{AllocError, Global};

/// What a message says: the document that it is, or the fault that it is refused for.
#[derive(Debug, Drop)]
pub enum Content {
    /// It was read.
    Read(Document),
    /// The message is not one that the hub reads, or has a fault; with the number in the interchange of the segment
    /// that shows it, or of UNH if no one segment does. UNB is number 1.
    Refused(MessageFault, usize),
}

/// A message of an interchange, with what it says.
#[derive(Debug, Drop)]
pub struct ShownMessage {
    /// The message reference number in UNH, 1 to 14 bytes.
    pub reference: Items<u8>,
    /// The message type in UNH, 1 to 6 bytes.
    pub kind: Items<u8>,
    /// What the message says.
    pub content: Content,
}

// Returns the sum of two numbers of segments. No memory has as many as would be too many to count.
fn sum(one: usize, other: usize) -> Result<usize, MemoryFault>
    ensures { IfOk result (λ sum. sum ≡ one + other) }
{
    one.checked_add(other).ok_or(AllocError)
}

// Returns the segment of a message of a type that shows a fault, counted from UNH as 1.
fn fault_place(
    alloc: Global,
    kind: DocumentType,
    fault: MessageFault,
    segments: &[Segment],
) -> Result<usize, MemoryFault>
    ensures { IfOk result (λ place. place ≡ spec.place_as kind fault segments.now) }
{
    match kind {
        DocumentType::Order => order_place(alloc, fault, segments),
        DocumentType::Response => Ok(response_place(fault, segments)),
        DocumentType::Despatch => despatch_place(alloc, fault, segments),
        DocumentType::Receipt => receipt_place(alloc, fault, segments),
    }
}

// Reads a message of a type that comes after this many segments.
fn content_as(
    alloc: Global,
    kind: DocumentType,
    before: usize,
    message: &RawMessage,
) -> Result<Content, MemoryFault>
    ensures { IfOk result (λ content. content ≡ spec.content_by (Some kind) before message.now) }
{
    match Document::read_as(alloc, kind, message) {
        Ok(document) => Ok(Content::Read(document)),
        Err(MessageFault::Memory) => Err(AllocError),
        Err(fault) => {
            let place = fault_place(alloc, kind, fault, message.segments.as_slice())?;
            Ok(Content::Refused(fault, sum(before, place)?))
        }
    }
}

// Reads a message by its type, after this many segments.
fn content_of(alloc: Global, before: usize, message: &RawMessage) -> Result<Content, MemoryFault>
    ensures { IfOk result (λ content. content ≡ spec.content_of before message.now) }
{
    match DocumentType::of(message.kind.as_slice()) {
        Some(kind) => content_as(alloc, kind, before, message),
        None => Ok(Content::Refused(MessageFault::MessageType, sum(before, 1)?)),
    }
}

// Returns a message after this many segments, with what it says.
fn shown_message(
    alloc: Global,
    before: usize,
    message: &RawMessage,
) -> Result<ShownMessage, MemoryFault>
    ensures { IfOk result (λ shown. shown ≡ spec.shown_message before message.now) }
{
    let content = content_of(alloc, before, message)?;
    let reference = copy_bytes(alloc, message.reference.as_slice())?;
    let kind = copy_bytes(alloc, message.kind.as_slice())?;
    Ok(ShownMessage {
        reference,
        kind,
        content,
    })
}

/// Reads the messages of an interchange, in their order. UNB is counted before the first.
pub(crate) fn shown_messages(
    alloc: Global,
    messages: &[RawMessage],
) -> Result<Items<ShownMessage>, MemoryFault>
    ensures { IfOk result (λ shown. shown ≡ spec.shown_messages 1 messages.now) }
{
    let mut shown = Items::new(alloc);
    let mut before = 1;
    for message in messages {
        shown.push(shown_message(alloc, before, message)?)?;
        before = sum(before, message.segments.len())?;
    }
    Ok(shown)
}

impl ShownMessage {
    /// Whether the message is refused.
    pub fn is_refused(&self) -> bool
        ensures { result ≡ spec.is_refused_message self.now }
    {
        matches!(&self.content, Content::Refused(_, _))
    }
}
