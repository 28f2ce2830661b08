//! Writes the lines of messages.
ghost use Rattle.std.specs.Prelude.{◌≡◌, ◌++◌, OnOk};
ghost use Rattle.edi_show.specs.Messages as spec;

use crate::content::{Content, ShownMessage};
use crate::fault::message_words;
use crate::goods::{put_despatch, put_receipt};
use crate::lines::put_line;
use crate::orders::{put_order, put_response};
use edi_documents::Document;
use edi_messages::MessageFault;
use edi_tokens::MemoryFault;
use std::alloc::Global;

// Appends the line of a message that is refused.
#[tactic(auto, unfolding(crate::specs::Messages::message_fault_line))]
fn put_fault(
    alloc: Global,
    out: &mut Vec<u8>,
    fault: MessageFault,
    place: usize,
) -> Result<(), MemoryFault>
    ensures { OnOk result (out.new.items ≡ out.old.items ++ spec.message_fault_line fault place) }
{
    let code = fault.code();
    let words = message_words(fault);
    let text = format!(in alloc; "  refused {code} {words} at segment {place}\n")?;
    out.extend_from_slice(text.as_bytes())?;
    Ok(())
}

// Appends what a document says.
fn put_document(alloc: Global, out: &mut Vec<u8>, document: &Document) -> Result<(), MemoryFault>
    ensures { OnOk result (out.new.items ≡ out.old.items ++ spec.document_lines document.now) }
{
    match document {
        Document::Order(order) => put_order(alloc, out, order),
        Document::Response(response) => put_response(alloc, out, response),
        Document::Despatch(despatch) => put_despatch(alloc, out, despatch),
        Document::Receipt(receipt) => put_receipt(alloc, out, receipt),
    }
}

// Appends what a message says.
fn put_content(alloc: Global, out: &mut Vec<u8>, content: &Content) -> Result<(), MemoryFault>
    ensures { OnOk result (out.new.items ≡ out.old.items ++ spec.content_lines content.now) }
{
    match content {
        Content::Read(document) => put_document(alloc, out, document),
        Content::Refused(fault, place) => put_fault(alloc, out, *fault, *place),
    }
}

// Appends a message of this number.
#[tactic(auto, unfolding(crate::specs::Messages::message_lines))]
fn put_message(
    alloc: Global,
    out: &mut Vec<u8>,
    number: usize,
    message: &ShownMessage,
) -> Result<(), MemoryFault>
    ensures { OnOk result (out.new.items ≡ out.old.items ++ spec.message_lines number message.now) }
{
    let text = format!(in alloc; "message {number}\n")?;
    out.extend_from_slice(text.as_bytes())?;
    put_line(out, b"  reference ", message.reference.as_slice())?;
    put_line(out, b"  type ", message.kind.as_slice())?;
    put_content(alloc, out, &message.content)?;
    Ok(())
}

/// Appends the messages, numbered from 1 on.
pub(crate) fn put_messages(
    alloc: Global,
    out: &mut Vec<u8>,
    messages: &[ShownMessage],
) -> Result<(), MemoryFault>
    ensures { OnOk result (out.new.items ≡ out.old.items ++ spec.messages_lines 1 messages.now) }
{
    for (place, message) in messages.iter().enumerate() {
        put_message(alloc, out, place + 1, message)?;
    }
    Ok(())
}
