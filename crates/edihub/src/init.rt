//! Founds a hub.
use crate::fault::BeginFault;
use crate::hub_file::close;
use crate::register::register_text;
use crate::tell;
use crate::unopened::fault_at;
use edi_base::OfWrite;
use edi_base::exit::FAILED;
use hub_app::InitWords;
use hub_commands::{CheckReport, print_report};
use hub_register::{Register, RegisterFault};
use hub_sql::{FoundFault, SqliteStore};
use hub_store::StoreFault;
use sqlite_disk::{Start, Unknown};
use sqlite_std_file::FileFrom;
use sqlite_store::FileStore;
use std::fs::OpenOptions;
use std::os::unix::fs::OpenOptionsExt;

// The mode of a new database file: only its owner may read and write it. The log beside it gets the same mode.
const OWNER_ALONE: u32 = 0o600;

// Makes an empty database file, if there is nothing at the path. If that fails, opening the file will say why.
fn make_missing(rt: &HostRuntime, path: &str) {
    let _ = OpenOptions::new()
        .write(true)
        .create_new(true)
        .mode(OWNER_ALONE)
        .open(rt, path);
}

// Puts the register into the database file, beside the rows of a file of schema 1, and closes it.
#[inline(never)]
fn found_file<S: Start>(
    rt: &HostRuntime,
    path: &str,
    register: &Register,
    start: S,
) -> Result<(), FoundFault> {
    make_missing(rt, path);
    let tables = match SqliteStore::<FileStore<FileFrom<S>>>::found_at(rt, path, start, register) {
        Ok(tables) => tables,
        Err((fault, _left)) => return Err(fault),
    };
    close(tables);
    Ok(())
}

// Founds a hub with a register, and returns what to report. Memory for the report of a success is taken before, so that
// nothing fails once the register is in the file.
fn found_and_report(
    rt: &HostRuntime,
    path: &str,
    register: &Register,
) -> Result<CheckReport, BeginFault> {
    let report = CheckReport::ok(rt.alloc(), register)?;
    // Opening a file that is no database would leave a log beside it.
    if let Some(StoreFault::Disk) = fault_at(rt, path) {
        return Err(BeginFault::Store(StoreFault::Disk));
    }
    match found_file(rt, path, register, Unknown) {
        Ok(()) => Ok(report),
        Err(FoundFault::Rows) => Ok(CheckReport::of_rows(rt.alloc())?),
        Err(FoundFault::Store(fault)) => Err(BeginFault::Store(fault)),
    }
}

// Does what the words ask, and returns what to report.
fn report_on(rt: &HostRuntime, words: &InitWords<'_>) -> Result<CheckReport, BeginFault> {
    let text = register_text(rt, words.register)?;
    match Register::from_toml(rt.alloc(), text.as_str()) {
        Ok(register) => found_and_report(rt, words.db, &register),
        Err(RegisterFault::Memory) => Err(BeginFault::Memory),
        Err(fault) => Ok(CheckReport::of_fault(rt.alloc(), fault)?),
    }
}

/// Founds a hub with the register and in the database file that the words name, and returns the exit status. The
/// register is checked first: a database file is made only for one without a fault.
pub(crate) fn init(rt: &HostRuntime, words: &InitWords<'_>) -> u8 {
    match report_on(rt, words) {
        Ok(report) => print_report(
            &report,
            &mut OfWrite::new(rt.stdout()),
            &mut OfWrite::new(rt.stderr()),
        ),
        Err(fault) => tell(rt, fault, FAILED),
    }
}
