//! Prints what became of a key that was to be changed.
ghost use Rattle.std.specs.Prelude.{◌≡◌};
ghost use Rattle.hub_commands.specs.KeyChange.{change_line, change_status};
ghost use Rattle.hub_commands.specs.Output.{Prints};

use crate::print::print;
use edi_base::Sink;
use edi_base::exit::{DONE, FAILED, REFUSED};

/// What became of a key that was to be changed.
#[derive(Clone, Copy, Debug, PartialEq, Eq)]
pub enum KeyOutcome {
    /// The key is changed.
    Done,
    /// The hub has no such supplier.
    Unknown,
    /// The new one is not 8 to 64 bytes of 0x21 to 0x7E.
    NoKey,
}

impl KeyOutcome {
    // Returns the line that says so.
    fn line(self) -> &'static [u8]
        ensures { result.now ≡ change_line self }
    {
        match self {
            KeyOutcome::Done => b"ok\n",
            KeyOutcome::Unknown => b"unknown\n",
            KeyOutcome::NoKey => b"fault key\n",
        }
    }

    // Returns the exit status: 0 if it is changed, else 1.
    fn status(self) -> u8
        ensures { result ≡ change_status self }
    {
        match self {
            KeyOutcome::Done => DONE,
            KeyOutcome::Unknown | KeyOutcome::NoKey => REFUSED,
        }
    }
}

/// Prints what became of a key that was to be changed: `ok`, `unknown` or `fault key`. Returns the exit status: 0 if it
/// is changed; 3 if a write failed, and then a prefix of the line was written; or else 1.
pub fn key_change_run<W: Sink>(change: KeyOutcome, out: &mut W) -> u8
    ensures { Prints (W.contents out.old) (W.contents out.new)
        (W.failed out.old) (W.failed out.new) (change_line change)
        (change_status change) result }
{
    match print(change.line(), out) {
        Ok(()) => change.status(),
        Err(_) => FAILED,
    }
}
