//! Defines what text is written to.

ghost use Rattle.std.specs.Prelude.{◌≡◌, ◌||◌, Option, List, ℕ, Bool, None, IsTrue, OnOk, OnErr};
ghost use Rattle.std.specs.Io.{WritesAtMost};
ghost use Rattle.std.specs.Io.KnownBytes.{WriteAppends, Appends};
ghost use Rattle.edi_base.specs.Buffer.{AppendsFront};
ghost use Rattle.edi_base.specs.Sink.{write_failed};

use crate::buffer::write_whole;
use std::error::Error;
use std::io::Write;
use std::marker::Model;
use std::{fmt, io};

/// A writer that knows whether a write failed.
pub trait Sink {
    // The bytes that the sink holds, if they are known.
    ghost contents: { Self → Option (List ℕ) } = { λ _. None };

    // Whether a write has failed so far: it returned an error, or accepted none of some bytes.
    ghost failed: { Self → Bool };

    /// Writes some of the bytes, beginning with the first, and returns how many.
    fn write(&mut self, bytes: &[u8]) -> io::Result<usize>
        ensures bound { WritesAtMost result bytes.now }
        ensures bytes { WriteAppends (contents self.old) (contents self.new) result bytes.now }
        ensures flag { failed self.new ≡ (failed self.old || write_failed result bytes.now) };
}

/// A writer returned an error, or accepted no bytes.
#[derive(Clone, Copy, Debug, PartialEq, Eq, Hash)]
pub struct WriteFault;

impl fmt::Display for WriteFault {
    ghost use Rattle.std.specs.Prelude.{Some};
    ghost use Rattle.edi_base.specs.Sink.{write_fault_text};

    ghost output = { λ _. Some write_fault_text };

    fn fmt<W: fmt::Write>(&self, f: &mut fmt::Formatter<W>) -> fmt::Result {
        f.write_str("write")
    }
}

impl Error for WriteFault {}

/// A writer of std, which notes whether a write has failed so far.
#[derive(Debug, Drop)]
pub struct OfWrite<W> {
    writer: W,
    failed: bool,
}

impl<W> Model for OfWrite<W> {
    ghost use Rattle.std.specs.Prelude.{Bool};

    ghost Value = { W × Bool };

    ghost view = { λ w. (w.writer, w.failed) };
}

impl<W> OfWrite<W> {
    ghost use Rattle.std.specs.Prelude.{false};

    /// Wraps a writer of which no write has failed.
    pub fn new(writer: W) -> Self
        ensures { result ≡ (writer, false) }
    {
        OfWrite {
            writer,
            failed: false,
        }
    }

    pub fn into_inner(self) -> W
        ensures { result ≡ self.0 }
    {
        let OfWrite { writer, failed: _ } = self;
        writer
    }

    /// Whether a write has failed so far.
    pub fn has_failed(&self) -> bool
        ensures { result ≡ self.now.1 }
    {
        self.failed
    }
}

impl<W: Write> Sink for OfWrite<W> {
    ghost contents = { λ w. W.contents w.0 };

    ghost failed = { λ w. w.1 };

    fn write(&mut self, bytes: &[u8]) -> io::Result<usize> {
        let OfWrite { writer, failed } = self;
        let result = writer.write(bytes);
        *failed = match &result {
            Ok(count) => *failed || (*count == 0 && !bytes.is_empty()),
            Err(_) => true,
        };
        result
    }
}

/// Writes all of the bytes, in as many writes as the sink needs.
pub fn write_bytes<W: Sink>(bytes: &[u8], out: &mut W) -> Result<(), WriteFault>
    ensures ok { OnOk result (Appends (W.contents out.old) (W.contents out.new) bytes.now) }
    ensures err { OnErr result (AppendsFront (W.contents out.old) (W.contents out.new) bytes.now) }

    // The fault comes only from the sink; otherwise the sink's flag stays as it is.
    ensures kept { OnOk result (W.failed out.new ≡ W.failed out.old) }
    ensures failed { OnErr result (IsTrue (W.failed out.new)) }
{
    write_whole(out, bytes)
}
