//! Prints the lines on standard error that go with an exit status.

ghost use Rattle.edi_relay.specs.ErrorLines.{WritesLine};

use edi_tokens::{Sink, write_bytes};

/// Prints a line. If the writer fails, only the exit status says so.
pub fn tell<E: Sink>(line: &[u8], err: &mut E)
    ensures { WritesLine (E.contents err.old) (E.contents err.new) (E.failed err.new) line.now }
{
    let _ = write_bytes(line, err);
}
