//! Decides what a database file holds.
ghost use Rattle.std.specs.Prelude.{IfOk};
ghost use Rattle.hub_audit.specs.File.{ChecksFile};
ghost use Rattle.sqlite_wal.specs.Files.{image_at};

use crate::audit::{Audit, check_database};
use hub_sql::open_file;
use hub_store::StoreFault;
use sqlite::Connection;
use sqlite_disk::Start;
use sqlite_std_file::FileFrom;
use sqlite_store::FileStore;

/// Opens a database file, which is made if there is none, and decides what it holds. No row is changed. `start` says
/// what a crash may have done to the file.
///
/// # Errors
///
/// `Memory`; `Disk` if the file cannot be opened or read, is no database, or another program has it open; `Version` if
/// it has no tables, others than a hub's or another number of the schema.
#[inline(never)]
pub fn check_file<S: Start>(
    rt: &HostRuntime,
    path: &str,
    start: S,
) -> Result<(Audit, Connection<FileStore<FileFrom<S>>>), StoreFault>
    ensures { IfOk result (ChecksFile (image_at S.Start)) }
{
    match open_file(rt, path, start) {
        Ok(conn) => check_database(rt.alloc(), conn),
        Err((fault, _left)) => Err(fault),
    }
}
