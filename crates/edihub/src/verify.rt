//! Checking whether a database is a sound start.
use crate::fault::BeginFault;
use crate::status_of;
use crate::tasks::status_if_written;
use crate::unopened::fault_at;
use edi_base::{OfWrite, write_bytes};
use hub_app::VerifyWords;
use hub_audit::{Audit, check_file, report_status, report_text};
use hub_store::StoreFault;
use sqlite_disk::{Start, Unknown};
use std::fs;

// Reads all that is in the database file. No file is made, and no row is changed.
fn audit_file<S: Start>(rt: &HostRuntime, path: &str, start: S) -> Result<Audit, StoreFault> {
    if let Some(fault) = fault_at(rt, path) {
        return Err(fault);
    }
    let (audit, _conn) = check_file(rt, path, start)?;
    Ok(audit)
}

// Bytes that a file has.
fn size_of(rt: &HostRuntime, path: &str) -> Result<u64, BeginFault> {
    match fs::metadata(rt, path) {
        Ok(found) => Ok(found.len()),
        Err(_error) => Err(BeginFault::File),
    }
}

// Checks the database that the words name, and prints what was found.
fn print_audit(rt: &HostRuntime, words: &VerifyWords<'_>) -> Result<u8, BeginFault> {
    let audit = audit_file(rt, words.db, Unknown)?;
    let size = size_of(rt, words.db)?;
    let Ok(text) = report_text(rt.alloc(), &audit, size) else {
        return Err(BeginFault::Memory);
    };
    let mut out = OfWrite::new(rt.stdout());
    let _ = write_bytes(text.as_slice(), &mut out);
    status_if_written(&out, report_status(&audit))
}

/// Checks the database file that the words name, and returns the exit status.
pub(crate) fn verify_database(rt: &HostRuntime, words: &VerifyWords<'_>) -> u8 {
    status_of(rt, print_audit(rt, words))
}
