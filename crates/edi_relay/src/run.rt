//! Runs `relay` between a reader and two writers.

ghost use Rattle.std.specs.Prelude.{◌≡◌, ◌⊎◌, true, take, codes, Err, OnOk, OnErr, IsTrue, IfSome};
ghost use Rattle.std.specs.Io.KnownBytes.{Appends, Consumes, Keeps};
ghost use Rattle.edi_base.specs.Buffer.{AppendsFront};
ghost use Rattle.edi_base.specs.Source.{TakesAtMost};
ghost use Rattle.edi_relay.specs.declared.relay.RelayFault.{RelayFault};
ghost use Rattle.edi_relay.specs.Relay.{AreRelayWords};
ghost use Rattle.edi_relay.specs.ErrorLines.{StaysOrTellsFile, WritesLine};
ghost use Rattle.edi_relay.specs.Run.{Delivers, DeliversFront, IsRefused, Ran, read_limit, refusal};

use crate::error_lines::tell;
use crate::relay::{RelayFault, RelayWords, relay_lent};
use edi_base::exit::{DONE, FAILED, REFUSED};
use edi_tokens::{
    Lender, ReadFault, Sink, Source, TEXT_LIMIT, TokenFault, WriteFault, write_bytes,
};
use std::alloc::Global;

/// One byte more than the longest text is read, so that a longer one shows.
pub const READ_LIMIT: usize = TEXT_LIMIT + 1;

// Writes the line that a refusal prints.
fn write_refusal<E: Sink>(fault: RelayFault, err: &mut E) -> Result<(), WriteFault>
    ensures ok { OnOk result (Appends (E.contents err.old) (E.contents err.new) (refusal fault)) }
    ensures err { OnErr result (AppendsFront (E.contents err.old) (E.contents err.new) (refusal fault)) }
    ensures failed { OnErr result (IsTrue (E.failed err.new)) }
{
    write_bytes(b"refused ", err)?;
    write_bytes(fault.code().as_bytes(), err)?;
    write_bytes(b"\n", err)
}

// Prints the line of a refusal. If the writer fails, only the exit status says so.
fn tell_refusal<E: Sink>(fault: RelayFault, err: &mut E)
    ensures { WritesLine (E.contents err.old) (E.contents err.new) (E.failed err.new) (refusal fault) }
{
    let _ = write_refusal(fault, err);
}

/// Prints why an interchange was not read, and answers the exit status.
pub fn tell_read_fault<E: Sink>(fault: ReadFault, err: &mut E) -> u8
    ensures status { result ≡ 3 }
    ensures file { fault ≡ ReadFault.Read →
        WritesLine (E.contents err.old) (E.contents err.new) (E.failed err.new) (codes "file\n") }
    ensures memory { fault ≡ ReadFault.Memory →
        WritesLine (E.contents err.old) (E.contents err.new) (E.failed err.new) (codes "memory\n") }
{
    match fault {
        ReadFault::Read => tell(b"file\n", err),
        ReadFault::Memory => tell(b"memory\n", err),
    }
    FAILED
}

// Whether a read has failed.
fn is_failed_read(relayed: &Result<Vec<u8>, RelayFault>) -> bool
    ensures { IsTrue result → relayed.now ≡ Err (RelayFault.Token TokenFault.Read) }
{
    matches!(relayed, Err(RelayFault::Token(TokenFault::Read)))
}

// Returns the mail texts of an interchange, of which at most 1,048,577 bytes are read; or why it is refused, or that a
// read failed. Unless memory ran out or a read failed, that many bytes are read, or the reader has ended.
fn relay_input<R: Source>(
    alloc: Global,
    words: &RelayWords,
    input: &mut R,
) -> Result<Vec<u8>, RelayFault>
    ensures { Ran (λ out. out.items) words.now (R.remaining input.old) (R.remaining input.new)
        (R.failed input.old)
        (R.failed input.new) result }
{
    let mut lender = Lender::new(alloc)?;
    let relayed = relay_lent(alloc, &mut lender, input, words);
    let failed = is_failed_read(&relayed);
    if failed {
        return relayed;
    }
    match lender.skip_rest(input) {
        Ok(_) => relayed,
        Err(_) => Err(RelayFault::Token(TokenFault::Read)),
    }
}

/// Reads an interchange, at most 1,048,577 bytes, and writes its mail texts to `out`. Returns the exit status: 0 if
/// they were written; 1 if the interchange is refused, and then `refused` with the code is a line on `err`; 3 if a read
/// or write failed, with the line `file`, or memory ran out, with the line `memory`.
pub fn relay_run<R: Source, W: Sink, E: Sink>(
    alloc: Global,
    words: &RelayWords,
    input: &mut R,
    out: &mut W,
    err: &mut E,
) -> u8
    requires { AreRelayWords words.now }
    ensures taken { TakesAtMost (R.remaining input.old) (R.remaining input.new) read_limit }
    ensures status { (result ≡ 0) ⊎ ((result ≡ 1) ⊎ (result ≡ 3)) }
    ensures read { StaysOrTellsFile (R.failed input.old) (R.failed input.new) result
        (E.contents err.old) (E.contents err.new) (E.failed err.new) }
    ensures written { StaysOrTellsFile (W.failed out.old) (W.failed out.new) result
        (E.contents err.old) (E.contents err.new) (E.failed err.new) }
    ensures stands { ((result ≡ 0) ⊎ (result ≡ 1)) →
        IfSome (R.remaining input.old) (λ known.
        Consumes (R.remaining input.old) (R.remaining input.new) (take read_limit known)) }
    ensures done { result ≡ 0 →
        Delivers (R.remaining input.old) words.now (W.contents out.old) (W.contents out.new)
        × Keeps (E.contents err.old) (E.contents err.new) }
    ensures refused { result ≡ 1 →
        Keeps (W.contents out.old) (W.contents out.new)
        × (fault : RelayFault) × IsRefused (R.remaining input.old) words.now fault
        × WritesLine (E.contents err.old) (E.contents err.new) (E.failed err.new) (refusal fault) }
    ensures failed { result ≡ 3 →
        (WritesLine (E.contents err.old) (E.contents err.new) (E.failed err.new) (codes "file\n")
        × (((R.failed input.new ≡ true) × Keeps (W.contents out.old) (W.contents out.new))
        ⊎ ((W.failed out.new ≡ true)
        × DeliversFront (R.remaining input.old) words.now (W.contents out.old) (W.contents out.new))))
        ⊎ (WritesLine (E.contents err.old) (E.contents err.new) (E.failed err.new) (codes "memory\n")
        × Keeps (W.contents out.old) (W.contents out.new)) }
{
    match relay_input(alloc, words, input) {
        Ok(mail) => {
            if write_bytes(mail.as_slice(), out).is_ok() {
                return DONE;
            }
            tell(b"file\n", err);
            FAILED
        }
        Err(RelayFault::Memory) => {
            tell(b"memory\n", err);
            FAILED
        }
        Err(RelayFault::Token(fault)) => match fault {
            TokenFault::Read => {
                tell(b"file\n", err);
                FAILED
            }
            _ => {
                tell_refusal(RelayFault::Token(fault), err);
                REFUSED
            }
        },
        Err(RelayFault::Envelope(fault)) => {
            tell_refusal(RelayFault::Envelope(fault), err);
            REFUSED
        }
    }
}
