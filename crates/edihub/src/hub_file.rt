//! Opens the hub in a database file, and closes it.
ghost use Rattle.std.specs.Prelude.{IfOk};
ghost use Rattle.sqlite_wal.specs.Files.{image_at};
ghost use Rattle.hub_sql.specs.File.{AdoptsFiles};

use crate::unopened::fault_at;
use hub_sql::SqliteStore;
use hub_store::StoreFault;
use sqlite_disk::{Disk, Start};
use sqlite_std_file::FileFrom;
use sqlite_store::FileStore;

/// Opens the hub in a file. No file is made: only `init` founds a hub.
#[inline(never)]
pub(crate) fn opened<S: Start>(
    rt: &HostRuntime,
    path: &str,
    start: S,
) -> Result<SqliteStore<FileStore<FileFrom<S>>>, StoreFault>
    ensures { IfOk result (AdoptsFiles (image_at S.Start)) }
{
    if let Some(fault) = fault_at(rt, path) {
        return Err(fault);
    }
    match SqliteStore::at_path(rt, path, start) {
        Ok(tables) => Ok(tables),
        Err((fault, _left)) => Err(fault),
    }
}

/// Closes the file of a hub, together with everything in the log beside it. If that fails, what was accepted is kept.
#[inline(never)]
pub(crate) fn close<D: Disk + Drop>(tables: SqliteStore<FileStore<D>>) {
    let _ = tables.into_connection().close();
}
