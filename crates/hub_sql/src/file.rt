//! Opens and founds hubs in files.
ghost use Rattle.std.specs.Prelude.{◌≡◌, true, false, IfOk, IfErr};
ghost use Rattle.sqlite_std_file.specs.File.{IsFresh};
ghost use Rattle.sqlite_wal.specs.Files.{image_at};
ghost use Rattle.sqlite.specs.Files.{file_state};
ghost use Rattle.sqlite.specs.State.{HasCleanDisk};
ghost use Rattle.hub_sql.specs.File.{AdoptsFiles, FoundsFiles, IsOver, LeavesFile, LeavesUnfounded, LeavesUnopened};
ghost use Rattle.hub_sql.specs.Opening.{IsReady};
ghost use Rattle.hub_sql.specs.Version.{AreRising};

use crate::fault::FoundFault;
use crate::returned::Returned;
use crate::store::SqliteStore;
use hub_register::Register;
use hub_schema::fault_by;
use hub_store::StoreFault;
use sqlite::{Connection, Leftover};
use sqlite_disk::{Disk, Start};
use sqlite_std_file::FileFrom;
use sqlite_store::FileStore;

/// A new file keeps a checksum of each page, so that opening it finds a byte that has changed.
const NEW_HAS_SUMS: bool = true;

/// What is left after a hub in a file could not be opened.
#[derive(Drop)]
pub enum LeftOfFile<D: Disk + Drop> {
    /// No file was opened.
    Nothing,
    /// The files, in which no database could be read. Nothing that they held is lost.
    Files(Leftover<D>),
    /// A connection over the files, or the storage that was below it, as `adopt` returns it.
    Returned(Returned<FileStore<D>>),
}

/// Opens a connection to a file, which is made if it does not exist.
#[inline(never)]
pub fn open_file<S: Start>(
    rt: &HostRuntime,
    path: &str,
    start: S,
) -> Result<Connection<FileStore<FileFrom<S>>>, (StoreFault, LeftOfFile<FileFrom<S>>)>
    ensures over { IfOk result (IsOver (image_at S.Start)) }
    ensures idle { IfOk result (λ conn. conn.in_transaction ≡ false) }
    ensures ready { IfOk result (λ conn. HasCleanDisk (file_state conn) → IsReady (file_state conn)) }
    ensures rising { IfOk result (λ conn.
        HasCleanDisk (file_state conn) → AreRising (file_state conn).now.trees conn.schema.tables) }
    ensures leaves { IfErr result (λ e.
        LeavesUnopened (λ files. IsFresh true files.log × IsFresh false files.db) e.0 e.1) }
{
    match Connection::open_from(rt, path, NEW_HAS_SUMS, start) {
        Ok(conn) => Ok(conn),
        Err((error, None)) => Err((fault_by(&error), LeftOfFile::Nothing)),
        Err((error, Some(left))) => Err((fault_by(&error), LeftOfFile::Files(left))),
    }
}

impl<S: Start> SqliteStore<FileStore<FileFrom<S>>> {
    /// Opens the hub in a file, with a log beside it, and raises schema 2 to schema 3. `start` says what a crash may
    /// have done to the file. If opening fails, no committed row is lost, and what is left comes back with the fault:
    ///
    /// `Disk`: the disk failed, another program has the file open, or it is not a database. `Version`: it has no
    /// tables, tables that are not a hub's, or another number of the schema; a file that did not exist is made, and is
    /// empty. `Unclean`: its rows hold no register; the file keeps its schema.
    #[inline(never)]
    pub fn at_path(
        rt: &HostRuntime,
        path: &str,
        start: S,
    ) -> Result<Self, (StoreFault, LeftOfFile<FileFrom<S>>)>
        ensures adopts { IfOk result (AdoptsFiles (image_at S.Start)) }
        ensures leaves { IfErr result (λ e.
            LeavesFile (λ files. IsFresh true files.log × IsFresh false files.db)
            (image_at S.Start) e.0 e.1) }
    {
        let conn = open_file(rt, path, start)?;
        match SqliteStore::adopt_opened(rt.alloc(), conn) {
            Ok(store) => Ok(store),
            Err((back, fault)) => Err((fault, LeftOfFile::Returned(back))),
        }
    }

    /// Founds a hub in a file, which is made if it does not exist, as `found` does; in a file of schema 1 beside its
    /// rows. If founding fails, no committed row is lost, and what is left comes back with the fault:
    ///
    /// `Rows`: the register does not fit the rows of schema 1. `Version`: the file has other tables or another number
    /// of the schema. `Disk`: the disk failed, another program has the file open, or it is not a database.
    #[inline(never)]
    pub fn found_at(
        rt: &HostRuntime,
        path: &str,
        start: S,
        register: &Register,
    ) -> Result<Self, (FoundFault, LeftOfFile<FileFrom<S>>)>
        ensures founds { IfOk result (FoundsFiles register.now (image_at S.Start)) }
        ensures leaves { IfErr result (λ e.
            LeavesUnfounded (λ files. IsFresh true files.log × IsFresh false files.db) register.now
            (image_at S.Start) e.0 e.1) }
    {
        let conn = match open_file(rt, path, start) {
            Ok(conn) => conn,
            Err((fault, left)) => return Err((FoundFault::Store(fault), left)),
        };
        match SqliteStore::found_opened(rt.alloc(), conn, register) {
            Ok(store) => Ok(store),
            Err((back, fault)) => Err((fault, LeftOfFile::Returned(back))),
        }
    }
}
