//! Does what `edihub check` does: checks the text of a register.

ghost use Rattle.std.specs.Prelude.{◌≡◌, ◌≢◌, ◌⊎◌, Ok, Err, true, codes, string_bytes, IfOk, IfSome};
ghost use Rattle.std.specs.Io.KnownBytes.{Appends, Keeps};
ghost use Rattle.edi_base.specs.Source.{TakesAtMost};
ghost use Rattle.hub_commands.specs.Check.{FailsToPrint, IsRegisterText, PrintsReport, fault_line, check_line, check_status};
ghost use Rattle.edi_relay.specs.Run.{read_limit};
ghost use Rattle.edi_relay.specs.ErrorLines.{StaysOrTellsFile};
ghost use Rattle.hub_register.specs.Register.{register_of};

use edi_base::exit::{DONE, FAILED, REFUSED};
use edi_relay::{READ_LIMIT, tell};
use edi_tokens::{MemoryFault, ReadFault, Sink, Source, TEXT_LIMIT, read_to_limit, write_bytes};
use hub_register::{Register, RegisterFault};
use std::alloc::{AllocError, Global};
use std::error::Error;
use std::fmt;

/// Why the text of a register was not read.
#[derive(Clone, Copy, Debug)]
pub enum RegisterTextFault {
    /// The source failed, is longer than 1,048,576 bytes, or is not UTF-8.
    File,
    /// Out of memory.
    Memory,
}

impl fmt::Display for RegisterTextFault {
    ghost use Rattle.std.specs.Prelude.{Some};
    ghost use Rattle.hub_commands.specs.Check.{text_fault_line};

    ghost output = { λ fault. Some (text_fault_line fault) };

    fn fmt<W: fmt::Write>(&self, f: &mut fmt::Formatter<W>) -> fmt::Result {
        match self {
            RegisterTextFault::File => f.write_str("file"),
            RegisterTextFault::Memory => f.write_str("memory"),
        }
    }
}

impl Error for RegisterTextFault {}

impl From<ReadFault> for RegisterTextFault {
    ghost use Rattle.std.specs.Prelude.{◌≡◌};
    ghost use Rattle.hub_commands.specs.Check.{told_read_fault};

    ghost from_gives = { λ fault text. text ≡ told_read_fault fault };

    fn from(fault: ReadFault) -> RegisterTextFault {
        match fault {
            ReadFault::Read => RegisterTextFault::File,
            ReadFault::Memory => RegisterTextFault::Memory,
        }
    }
}

/// Returns the text of a register: all that a source holds, if that is UTF-8 of at most 1,048,576 bytes. At most one
/// byte more is read.
pub fn read_register_text<R: Source>(
    alloc: Global,
    input: &mut R,
) -> Result<String, RegisterTextFault>
    ensures taken { TakesAtMost (R.remaining input.old) (R.remaining input.new) read_limit }
    ensures text { IfOk result (λ text. IsRegisterText (string_bytes text)) }
    ensures whole { IfOk result (λ text.
        IfSome (R.remaining input.old) (λ bytes. bytes ≡ string_bytes text)) }
    ensures file { result ≡ Err RegisterTextFault.File → (R.failed input.new ≡ true)
        ⊎ IfSome (R.remaining input.old) (λ bytes. ¬ IsRegisterText bytes) }
    ensures kept { result ≢ Err RegisterTextFault.File → R.failed input.new ≡ R.failed input.old }
{
    let bytes = read_to_limit(alloc, input, READ_LIMIT)?;
    if bytes.len() > TEXT_LIMIT {
        return Err(RegisterTextFault::File);
    }
    match String::from_utf8(bytes) {
        Ok(text) => Ok(text),
        Err(_) => Err(RegisterTextFault::File),
    }
}

/// What is printed of a register or of a founding: a line, with the exit status.
#[derive(Debug, Drop)]
pub struct CheckReport {
    /// The line, with its line end.
    pub line: String,
    /// The exit status.
    pub status: u8,
}

impl CheckReport {
    /// Of a register: `ok N suppliers`, with status 0.
    pub fn ok(alloc: Global, register: &Register) -> Result<CheckReport, MemoryFault>
        ensures line { IfOk result (λ report. string_bytes report.line ≡ check_line (Ok register.now)) }
        ensures status { IfOk result (λ report. report.status ≡ check_status (Ok register.now)) }
    {
        let count = register.supplier_count();
        let line = format!(in alloc; "ok {count} suppliers\n")?;
        Ok(CheckReport { line, status: DONE })
    }

    /// Of a register's fault: `fault` and its name, with status 1.
    pub fn of_fault(alloc: Global, fault: RegisterFault) -> Result<CheckReport, MemoryFault>
        ensures line { IfOk result (λ report. string_bytes report.line ≡ check_line (Err fault)) }
        ensures status { IfOk result (λ report. report.status ≡ check_status (Err fault)) }
    {
        let line = format!(in alloc; "fault {fault}\n")?;
        Ok(CheckReport {
            line,
            status: REFUSED,
        })
    }

    /// Of a register that does not fit to the rows of a database: `fault rows`, with status 1.
    pub fn of_rows(alloc: Global) -> Result<CheckReport, MemoryFault>
        ensures line { IfOk result (λ report. string_bytes report.line ≡ fault_line (codes "rows")) }
        ensures status { IfOk result (λ report. report.status ≡ 1) }
    {
        let line = format!(in alloc; "fault rows\n")?;
        Ok(CheckReport {
            line,
            status: REFUSED,
        })
    }
}

// Returns what the text of a register is.
fn report_of(alloc: Global, text: &str) -> Result<CheckReport, MemoryFault>
    ensures line { IfOk result (λ report. string_bytes report.line ≡ check_line (register_of text.now)) }
    ensures status { IfOk result (λ report. report.status ≡ check_status (register_of text.now)) }
{
    match Register::from_toml(alloc, text) {
        Ok(register) => CheckReport::ok(alloc, &register),
        Err(RegisterFault::Memory) => Err(AllocError),
        Err(fault) => CheckReport::of_fault(alloc, fault),
    }
}

/// Writes a report to `out`. Returns its exit status; or 3 if the write failed, with the line `file` on `err`.
pub fn print_report<W: Sink, E: Sink>(report: &CheckReport, out: &mut W, err: &mut E) -> u8
    ensures told { PrintsReport (W.contents out.old) (W.contents out.new) (W.failed out.old) (W.failed out.new)
        (E.contents err.old) (E.contents err.new) (E.failed err.new)
        (string_bytes report.now.line) report.now.status result }
{
    if write_bytes(report.line.as_bytes(), out).is_ok() {
        return report.status;
    }
    tell(b"file\n", err);
    FAILED
}

/// Checks the text of a register and writes one line to `out`: `ok N suppliers`, or `fault` and the fault. Returns the
/// exit status: 0 for a register; 1 for a fault; 3 if the write failed, with the line `file` on `err`, or memory ran
/// out, with the line `memory`.
pub fn check_run<W: Sink, E: Sink>(alloc: Global, text: &str, out: &mut W, err: &mut E) -> u8
    ensures checked { result ≢ 3 →
        (result ≡ check_status (register_of text.now))
        × Appends (W.contents out.old) (W.contents out.new) (check_line (register_of text.now))
        × Keeps (E.contents err.old) (E.contents err.new) }
    ensures written { StaysOrTellsFile (W.failed out.old) (W.failed out.new) result
        (E.contents err.old) (E.contents err.new) (E.failed err.new) }
    ensures failed { result ≡ 3 → FailsToPrint (W.contents out.old) (W.contents out.new) (W.failed out.new)
        (E.contents err.old) (E.contents err.new) (E.failed err.new) (check_line (register_of text.now)) }
{
    let Ok(report) = report_of(alloc, text) else {
        tell(b"memory\n", err);
        return FAILED;
    };
    print_report(&report, out, err)
}
