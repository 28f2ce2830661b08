//! Runs `show` between a reader and two writers.

ghost use Rattle.std.specs.Prelude.{◌≡◌, ◌≢◌, ◌⊎◌, take, IfOk, IfSome};
ghost use Rattle.std.specs.Io.KnownBytes.{Consumes, Keeps};
ghost use Rattle.edi_base.specs.Source.{TakesAtMost};
ghost use Rattle.edi_relay.specs.Run.{read_limit};
ghost use Rattle.edi_relay.specs.ErrorLines.{StaysOrTellsFile};
ghost use Rattle.hub_commands.specs.Show.{FailsToShow, ShowsLines, lines_shown, status_of};

use edi_base::exit::{DONE, FAILED, REFUSED};
use edi_relay::{READ_LIMIT, tell, tell_read_fault};
use edi_show::show_text;
use edi_tokens::{MemoryFault, Sink, Source, read_to_limit, write_bytes};
use std::alloc::Global;

// What is written of a text, and the exit status that comes of it.
#[derive(Drop)]
struct Report {
    lines: Vec<u8>,
    status: u8,
}

// Returns the lines and the exit status of a text.
fn report_of(alloc: Global, text: &[u8]) -> Result<Report, MemoryFault>
    ensures lines { IfOk result (λ report. report.lines.items ≡ lines_shown text.now) }
    ensures status { IfOk result (λ report. report.status ≡ status_of text.now) }
{
    let shown = show_text(alloc, text)?;
    let lines = shown.to_lines(alloc)?;
    let status = if shown.is_refused() { REFUSED } else { DONE };
    Ok(Report { lines, status })
}

/// Reads an interchange, at most 1,048,577 bytes, and writes what it says to `out`, in lines. Returns the exit status:
/// 0 if nothing is refused; 1 if the text, the interchange or a message is refused, which the lines say; 3 if a read or
/// write failed, with the line `file` on `err`, or memory ran out, with the line `memory`.
pub fn show_run<R: Source, W: Sink, E: Sink>(
    alloc: Global,
    input: &mut R,
    out: &mut W,
    err: &mut E,
) -> u8
    ensures taken { TakesAtMost (R.remaining input.old) (R.remaining input.new) read_limit }
    ensures status { (result ≡ 0) ⊎ ((result ≡ 1) ⊎ (result ≡ 3)) }
    ensures read { StaysOrTellsFile (R.failed input.old) (R.failed input.new) result
        (E.contents err.old) (E.contents err.new) (E.failed err.new) }
    ensures written { StaysOrTellsFile (W.failed out.old) (W.failed out.new) result
        (E.contents err.old) (E.contents err.new) (E.failed err.new) }
    ensures stands { result ≢ 3 → IfSome (R.remaining input.old) (λ known.
        Consumes (R.remaining input.old) (R.remaining input.new) (take read_limit known)) }
    ensures shown { result ≢ 3 →
        ShowsLines (R.remaining input.old) result (W.contents out.old) (W.contents out.new)
        × Keeps (E.contents err.old) (E.contents err.new) }
    ensures failed { result ≡ 3 → FailsToShow (R.remaining input.old) (R.failed input.new)
        (W.contents out.old) (W.contents out.new) (W.failed out.new)
        (E.contents err.old) (E.contents err.new) (E.failed err.new) }
{
    let text = match read_to_limit(alloc, input, READ_LIMIT) {
        Ok(text) => text,
        Err(fault) => return tell_read_fault(fault, err),
    };
    let Ok(report) = report_of(alloc, text.as_slice()) else {
        tell(b"memory\n", err);
        return FAILED;
    };
    let lines = report.lines.as_slice();
    match write_bytes(lines, out) {
        Ok(()) => report.status,
        Err(_) => {
            tell(b"file\n", err);
            FAILED
        }
    }
}
