//! Writes the lines of replies to uploads and cancellations.
ghost use Rattle.std.specs.Prelude.{◌≡◌, ◌++◌, ◌∷◌, [], codes, IfOk, OnOk};
ghost use Rattle.hub_law.specs.Replies as spec;
ghost use Rattle.hub_law.specs.Replies.{told_words};
ghost use Rattle.hub_law.specs.Widths.{line};
ghost use Rattle.hub_texts.specs.Decision.{told_of};

use crate::decision::Decision;
use crate::fields::{put_end, put_line, put_next};
use edi_base::{Items, MemoryFault};
use edi_envelope::{Interchange, RawMessage};
use itoa::Buffer;
use std::alloc::Global;

/// The line that reports a stop.
pub const STOPPED: &[u8] = b"stopped\n";

// Appends the line that reports a refusal with its code.
fn put_refused(out: &mut Vec<u8>, code: &str) -> Result<(), MemoryFault>
    ensures { OnOk result (out.new.items ≡ out.old.items ++ line (codes "refused" ∷ code.now ∷ [])) }
{
    out.extend_from_slice(b"refused")?;
    put_next(out, code.as_bytes())?;
    put_end(out)?;
    Ok(())
}

// Appends the line that reports a decision.
fn put_told(out: &mut Vec<u8>, told: Decision) -> Result<(), MemoryFault>
    ensures { OnOk result (out.new.items ≡ out.old.items ++ line (told_words (told_of told))) }
{
    match told {
        Decision::Accepted => put_line(out, b"accepted"),
        Decision::Repeated => put_line(out, b"repeated"),
        Decision::Refused(code) => put_refused(out, code.code()),
        Decision::Unread(fault) => put_refused(out, fault.code()),
    }
}

/// Returns the first line of the reply to an upload: the reference of its interchange, and how many messages it has.
pub fn interchange_line(alloc: Global, interchange: &Interchange) -> Result<Vec<u8>, MemoryFault>
    ensures { IfOk result (λ text. text.items ≡ spec.interchange_line interchange.now) }
{
    let mut digits = Buffer::new();
    let count = digits.format(interchange.messages.len());
    let mut out = Vec::from_slice(alloc, b"interchange")?;
    put_next(&mut out, interchange.head.reference.as_slice())?;
    put_next(&mut out, b"messages")?;
    put_next(&mut out, count.as_bytes())?;
    put_end(&mut out)?;
    Ok(out)
}

/// Returns the line of a message in the reply to its upload: its reference, its type and the decision.
pub fn message_line(
    alloc: Global,
    message: &RawMessage,
    told: Decision,
) -> Result<Vec<u8>, MemoryFault>
    ensures { IfOk result (λ text.
        text.items ≡ line (message.now.reference ∷ message.now.kind ∷ told_words (told_of told))) }
{
    let mut out = Vec::from_slice(alloc, message.reference.as_slice())?;
    put_next(&mut out, message.kind.as_slice())?;
    out.push(b' ')?;
    put_told(&mut out, told)?;
    Ok(out)
}

/// Returns the line that reports the decision on a cancellation.
pub fn told_line(alloc: Global, told: Decision) -> Result<Items<u8>, MemoryFault>
    ensures { IfOk result (λ text. text ≡ line (told_words (told_of told))) }
{
    let mut text = Vec::new(alloc);
    put_told(&mut text, told)?;
    Ok(Items::from_vec(text))
}

/// Returns the line that reports a refusal with its code.
pub fn refused_line(alloc: Global, code: &str) -> Result<Items<u8>, MemoryFault>
    ensures { IfOk result (λ text. text ≡ line (codes "refused" ∷ code.now ∷ [])) }
{
    let mut out = Vec::new(alloc);
    put_refused(&mut out, code)?;
    Ok(Items::from_vec(out))
}
