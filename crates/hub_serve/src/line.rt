//! Prints the line that reports how a connection ended.
ghost use Rattle.std.specs.Prelude.{◌≡◌, ◌++◌, decimal};
ghost use Rattle.edi_base.specs.Buffer.{Puts, Flags};
ghost use Rattle.http_messages.specs.Response.{Writes};
ghost use Rattle.hub_serve.specs.Line as spec;
ghost use Rattle.hub_serve.specs.Line.{end_of, ending_status, line_of, port_line};

use edi_base::exit::{DONE, FAILED, REFUSED};
use edi_base::{Buffer, Sink, WriteFault};
use hub_http::{IoFault, Served};

/// How a connection ended.
#[derive(Clone, Copy, Debug, PartialEq, Eq)]
pub enum Ending {
    /// A response was written.
    Answered(Served),
    /// Its client disconnected before it was taken.
    Gone,
    /// A read failed. Nothing was asked of the hub, and nothing written.
    ReadFailed,
    /// A write failed. The hub had done what was asked.
    WriteFailed,
}

/// Returns how a connection with this result ended.
pub(crate) fn ending_of(served: Result<Served, IoFault>) -> Ending
    ensures { result ≡ spec.ending_of served }
{
    match served {
        Ok(served) => Ending::Answered(served),
        Err(IoFault::Read) => Ending::ReadFailed,
        Err(IoFault::Write) => Ending::WriteFailed,
    }
}

impl Ending {
    /// Returns the exit status: 0 if it was answered 200, 3 if it failed or was answered 503, and 1 otherwise.
    pub(crate) fn status(self) -> u8
        ensures { result ≡ ending_status self }
    {
        match self {
            Ending::Answered(Served { status: 200, .. }) => DONE,
            Ending::Answered(Served { status: 503, .. }) => FAILED,
            Ending::Answered(_) => REFUSED,
            Ending::Gone | Ending::ReadFailed | Ending::WriteFailed => FAILED,
        }
    }
}

// Writes a number between two texts.
fn put_number<W: Sink>(
    out: &mut W,
    waiting: &mut Buffer,
    before: &[u8],
    number: u64,
    after: &[u8],
) -> Result<(), WriteFault>
    ensures bytes { Puts result (W.contents out.old) (W.contents out.new) waiting.old waiting.new
        (before.now ++ (decimal number ++ after.now)) }
    ensures flag { Flags result (W.failed out.old) (W.failed out.new) }
{
    let mut digits = itoa::Buffer::new();
    waiting.put(out, before)?;
    waiting.put(out, digits.format(number).as_bytes())?;
    waiting.put(out, after)
}

// Writes the end of a connection's line.
fn put_end<W: Sink>(out: &mut W, waiting: &mut Buffer, ending: Ending) -> Result<(), WriteFault>
    ensures bytes { Puts result (W.contents out.old) (W.contents out.new) waiting.old waiting.new
        (end_of ending) }
    ensures flag { Flags result (W.failed out.old) (W.failed out.new) }
{
    match ending {
        Ending::Answered(Served { status, .. }) => {
            put_number(out, waiting, b"", u64::from(status), b"\n")
        }
        Ending::Gone | Ending::ReadFailed | Ending::WriteFailed => waiting.put(out, b"fault\n"),
    }
}

/// Prints the line of a connection, without delay.
pub(crate) fn print_line<W: Sink>(
    out: &mut W,
    number: u64,
    ending: Ending,
) -> Result<(), WriteFault>
    ensures bytes { Writes result (W.contents out.old) (W.contents out.new) (line_of number ending) }
    ensures flag { Flags result (W.failed out.old) (W.failed out.new) }
{
    let mut waiting = Buffer::new();
    put_number(out, &mut waiting, b"connection ", number, b" ")?;
    put_end(out, &mut waiting, ending)?;
    waiting.flush(out)
}

/// Prints which port the hub listens on, as `listening 8080`, without delay.
pub fn print_listening<W: Sink>(out: &mut W, port: u16) -> Result<(), WriteFault>
    ensures bytes { Writes result (W.contents out.old) (W.contents out.new) (port_line port) }
    ensures flag { Flags result (W.failed out.old) (W.failed out.new) }
{
    let mut waiting = Buffer::new();
    put_number(out, &mut waiting, b"listening ", u64::from(port), b"\n")?;
    waiting.flush(out)
}
