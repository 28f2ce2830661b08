//! Keeps files in memory that fail from some call on, as if the machine had stopped, and that can come back afterwards.
ghost use Rattle.std.specs.Prelude.{◌≡◌, false, None, IfOk, IsTrue};

use crate::opening::Opener;
use hub_register::Register;
use hub_schema::{is_no_schema, is_old_schema};
use hub_sql::{FoundFault, Returned, SqliteStore};
use hub_store::StoreFault;
use sqlite::{Alter, Connection, Options};
use sqlite_disk::{Crash, Disk, Files, Fuse, Memory};
use sqlite_store::FileStore;
use std::alloc::Global;
use std::io;

/// A file whose calls all fail after the first `calls`, until the machine comes back.
pub trait Stopping: Crash + Drop {
    /// Makes a file that holds these bytes.
    fn stopping(alloc: Global, bytes: &[u8], calls: u64) -> io::Result<Self>;
}

impl Stopping for Fuse<Memory> {
    fn stopping(alloc: Global, bytes: &[u8], calls: u64) -> io::Result<Fuse<Memory>> {
        let mut memory = Memory::new(alloc);
        memory.write_at(0, bytes)?;
        memory.sync()?;
        Ok(Fuse::new(memory, calls))
    }
}

// Makes a usable file that holds these bytes.
fn file_of<D: Stopping>(alloc: Global, bytes: &[u8], calls: u64) -> Result<D, StoreFault>
    ensures { IfOk result (λ file. IsTrue (D.Disk.is_usable file)) }
{
    let Ok(file) = D::stopping(alloc, bytes, calls) else {
        return Err(StoreFault::Memory);
    };
    if !file.may_be_used() {
        return Err(StoreFault::Disk);
    }
    Ok(file)
}

/// A database file and its log, of which one stops.
#[derive(Drop)]
pub struct StoppingFiles<D: Stopping> {
    /// The calls of the database file before it fails.
    pub of_file: u64,
    /// The calls of its log before it fails.
    pub of_log: u64,
    /// What the database file holds at first.
    pub held: Vec<u8>,
    /// What a failed opening left.
    pub left: Option<Files<D>>,
}

// Returns the files after the machine has come back: what a crash leaves of them.
#[inline(never)]
fn crashed<D: Stopping>(files: Files<D>) -> Files<D>
    ensures log { IsTrue (D.Disk.is_usable result.log) }
    ensures db { IsTrue (D.Disk.is_usable result.db) }
{
    let Files { mut log, mut db } = files;
    log.crash();
    db.crash();
    Files { log, db }
}

// Returns the pages of what came back with a fault. Of any pages, which costs the prover less than of those in files.
#[inline(never)]
fn pages_of<A: Alter + Drop>(back: Returned<A>) -> A {
    match back {
        Returned::Connection(conn) => conn.into_store(),
        Returned::Store(pages) => pages,
    }
}

// Returns the pages of a store.
#[inline(never)]
fn taken<A: Alter + Drop>(store: SqliteStore<A>) -> A {
    pages_of(Returned::Connection(store.into_connection()))
}

// Returns the files of pages.
#[inline(never)]
fn closed<D: Stopping>(pages: FileStore<D>) -> Files<D> {
    pages.close()
}

// Copies the log into the file often, so that both are written while the script runs.
fn options() -> Options {
    let mut options = Options::new(0);
    options.checkpoint_frames = 16;
    options
}

// Returns the store over a connection: with the rows that it has, or founded with those of a register if it has no
// tables or those of schema 1. If that fails, the pages come back.
#[inline(never)]
fn found_store<A: Alter + Drop>(
    alloc: Global,
    conn: Connection<A>,
    register: &Register,
) -> Result<SqliteStore<A>, (A, FoundFault)>
    requires idle { conn.in_transaction ≡ false }
    requires unlimited { conn.step_limit ≡ None }
{
    if is_no_schema(conn.schema()) || is_old_schema(conn.schema()) {
        return match SqliteStore::found(alloc, conn, register) {
            Ok(store) => Ok(store),
            Err((back, fault)) => Err((pages_of(back), fault)),
        };
    }
    match SqliteStore::adopt(alloc, conn) {
        Ok(store) => Ok(store),
        Err((back, fault)) => Err((pages_of(back), FoundFault::Store(fault))),
    }
}

impl<D: Stopping> StoppingFiles<D> {
    // Returns the files that were left, or new ones.
    #[inline(never)]
    fn next_files(&mut self, alloc: Global) -> Result<Files<D>, StoreFault>
        ensures log { IfOk result (λ files. IsTrue (D.Disk.is_usable files.log)) }
        ensures db { IfOk result (λ files. IsTrue (D.Disk.is_usable files.db)) }
    {
        if let Some(files) = self.left.take() {
            return Ok(crashed(files));
        }
        let log = file_of(alloc, &[], self.of_log)?;
        let db = file_of(alloc, self.held.as_slice(), self.of_file)?;
        Ok(Files { log, db })
    }

    // Keeps the files of a store.
    #[inline(never)]
    fn keep_files(&mut self, store: SqliteStore<FileStore<D>>) {
        self.left = Some(closed(taken(store)));
    }
}

impl<D: Stopping> Opener<SqliteStore<FileStore<D>>> for StoppingFiles<D> {
    fn open(
        &mut self,
        rt: &HostRuntime,
        register: &Register,
    ) -> Result<SqliteStore<FileStore<D>>, FoundFault> {
        let files = match self.next_files(rt.alloc()) {
            Ok(files) => files,
            Err(fault) => return Err(FoundFault::Store(fault)),
        };
        let conn = match Connection::open_files(rt.alloc(), files, options()) {
            Ok(conn) => conn,
            Err((_, left)) => {
                self.left = Some(left.into_files());
                return Err(FoundFault::Store(StoreFault::Disk));
            }
        };
        match found_store(rt.alloc(), conn, register) {
            Ok(store) => Ok(store),
            Err((pages, fault)) => {
                self.left = Some(closed(pages));
                Err(fault)
            }
        }
    }

    fn again(
        &mut self,
        rt: &HostRuntime,
        register: &Register,
        store: SqliteStore<FileStore<D>>,
    ) -> Result<SqliteStore<FileStore<D>>, FoundFault> {
        self.keep_files(store);
        self.open(rt, register)
    }

    fn take_back(&mut self, store: SqliteStore<FileStore<D>>) -> Option<SqliteStore<FileStore<D>>> {
        self.keep_files(store);
        None
    }
}
