//! Writes the text of a response.

ghost use Rattle.std.specs.Prelude.{◌≡◌};
ghost use Rattle.std.specs.List.{flat_map};
ghost use Rattle.edi_base.specs.Buffer.{Puts, Flags};
ghost use Rattle.http_messages.specs.Response.{http_text, head_text, phrase_of, Writes};

use edi_base::{Buffer, Sink, WriteFault};
use http::StatusCode;

// What comes between the status, its phrase, the length and the body.
const VERSION: &[u8] = b"HTTP/1.1 ";

const BLANK: &[u8] = b" ";

const TYPE_AND_LENGTH: &[u8] = b"\r\nContent-Type: application/octet-stream\r\nContent-Length: ";

const END: &[u8] = b"\r\nConnection: close\r\n\r\n";

// Puts pieces one after another.
fn put_all<W: Sink>(out: &mut W, waiting: &mut Buffer, pieces: &[&[u8]]) -> Result<(), WriteFault>
    ensures bytes { Puts result (W.contents out.old) (W.contents out.new) waiting.old waiting.new
        (flat_map (λ piece. piece.now) pieces.now) }
    ensures flag { Flags result (W.failed out.old) (W.failed out.new) }
{
    for piece in pieces {
        waiting.put(out, *piece)?;
    }
    Ok(())
}

// Returns the phrase of a status, if it has one.
fn phrase(status: StatusCode) -> &'static str
    ensures { result.now ≡ phrase_of status }
{
    match status.canonical_reason() {
        Some(text) => text,
        None => "",
    }
}

// Puts the head of a response with a body of this many bytes.
fn put_head<W: Sink>(
    out: &mut W,
    waiting: &mut Buffer,
    status: StatusCode,
    size: usize,
) -> Result<(), WriteFault>
    ensures bytes { Puts result (W.contents out.old) (W.contents out.new) waiting.old waiting.new
        (head_text status size) }
    ensures flag { Flags result (W.failed out.old) (W.failed out.new) }
{
    let code = status.as_str().as_bytes();
    let words = phrase(status).as_bytes();
    let pieces = [VERSION, code, BLANK, words, TYPE_AND_LENGTH];
    put_all(out, waiting, &pieces)?;
    let mut digits = itoa::Buffer::new();
    waiting.put(out, digits.format(size).as_bytes())?;
    waiting.put(out, END)
}

/// Writes a response (RFC 9112, sections 2.1 and 4): `HTTP/1.1` with the status and its phrase, if it has one; the
/// fields `Content-Type: application/octet-stream`, `Content-Length` with the bytes of the body, and `Connection:
/// close`; an empty line; and the body. At `WriteFault` a prefix of that was written. Takes no memory.
pub fn write_response<W: Sink>(
    out: &mut W,
    status: StatusCode,
    body: &[u8],
) -> Result<(), WriteFault>
    ensures bytes { Writes result (W.contents out.old) (W.contents out.new) (http_text status body.now) }

    // The fault comes only from the sink, and else the sink's flag stays.
    ensures flag { Flags result (W.failed out.old) (W.failed out.new) }
{
    let mut waiting = Buffer::new();
    put_head(out, &mut waiting, status, body.len())?;
    waiting.put(out, body)?;
    waiting.flush(out)
}
