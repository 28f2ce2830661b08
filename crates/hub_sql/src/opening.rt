//! Opens hubs in connections that may hold tables.
ghost use Rattle.std.specs.Prelude.{◌≡◌, ◌≢◌, ◌⊎◌, false, None, IfOk, IfErr, IsTrue};
ghost use Rattle.sqlite.specs.Held.{state};
ghost use Rattle.sqlite.specs.State.{HasCleanDisk};
ghost use Rattle.hub_schema.specs.Rows.{tables_in};
ghost use Rattle.hub_schema.specs.Schema.{hub_schema};
ghost use Rattle.hub_schema.specs.State.{AreOrdered, HasNumber, HasTables, IsHub, Never};
ghost use Rattle.hub_founding.specs.Founding.{HoldsNone};
ghost use Rattle.hub_tables.specs.Register.{HoldsRegister};
ghost use Rattle.hub_sql.specs.Opening.{Adopts, IsAsBefore, IsReady, MayBeRenumbered, Refuses, SparesConnection};
ghost use Rattle.hub_sql.specs.Stored.{content, honest, HasRegister, HoldsRows};
ghost use Rattle.hub_sql.specs.Version.{AreRising, number_of};

use crate::fault::laying_fault;
use crate::reopening::{of_hub, reopen};
use crate::returned::Returned;
use crate::store::SqliteStore;
use crate::version::Version;
use hub_reads::register;
use hub_register::Register;
use hub_schema::is_hub_schema;
use hub_store::StoreFault;
use hub_writes::renumber;
use sqlite::{Alter, Connection};
use std::alloc::Global;

// Returns the fault of a look-up; the faults of opening are not among them.
fn look_fault(fault: StoreFault) -> StoreFault
    ensures not_version { result ≢ StoreFault.Version }
    ensures unclean { result ≡ StoreFault.Unclean → fault ≡ StoreFault.Unclean }
{
    match fault {
        StoreFault::Memory => StoreFault::Memory,
        StoreFault::Unclean => StoreFault::Unclean,
        StoreFault::Disk | StoreFault::Version => StoreFault::Disk,
    }
}

// Returns the connection and the register of its rows, if it still lists all tables and these hold one.
#[inline(never)]
fn with_register<S: Alter + Drop>(
    alloc: Global,
    mut conn: Connection<S>,
) -> Result<(Connection<S>, Register), (Connection<S>, StoreFault)>
    requires idle { conn.in_transaction ≡ false }
    requires ordered { HasCleanDisk (state S.Store conn) → AreOrdered (state S.Store conn).now.trees }
    requires ready { HasCleanDisk (state S.Store conn) → IsReady (state S.Store conn) }
    ensures idle { IfOk result (λ found. found.0.in_transaction ≡ false) }
    ensures tables { IfOk result (λ found.
        HasCleanDisk (state S.Store found.0) → HasTables (state S.Store found.0)) }
    ensures open { IfOk result (λ found.
        HasCleanDisk (state S.Store found.0) → IsTrue (state S.Store found.0).is_open) }
    ensures limit { IfOk result (λ found. found.0.step_limit ≡ conn.step_limit) }
    ensures schema { IfOk result (λ _. conn.schema ≡ hub_schema) }
    ensures before { IfOk result (λ found. HasCleanDisk (state S.Store found.0) →
        IsAsBefore (state S.Store conn) (state S.Store found.0)) }
    ensures clean { IfOk result (λ found.
        HasCleanDisk (state S.Store found.0) → HasCleanDisk (state S.Store conn)) }
    ensures register { IfOk result (λ found. HasCleanDisk (state S.Store found.0) →
        HasRegister (tables_in (state S.Store conn).now.trees) found.1) }
    ensures not_version { IfErr result (λ e. e.1 ≢ StoreFault.Version) }
    ensures known { IfErr result (λ e. (conn.schema ≡ hub_schema) ⊎ (e.1 ≡ StoreFault.Disk)) }
    ensures unclean { IfErr result (λ e. e.1 ≡ StoreFault.Unclean →
        HasCleanDisk (state S.Store e.0) → HoldsNone (tables_in (state S.Store conn).now.trees)) }
    ensures spared { IfErr result (λ e. SparesConnection S.Store ⊥ Never (state S.Store conn) e.0) }
{
    let _was_idle = conn.is_autocommit();
    if !is_hub_schema(conn.schema()) {
        return Err((conn, StoreFault::Disk));
    }
    match register(&mut conn, alloc) {
        Ok(Some(register)) => {
            let _idle = conn.is_autocommit();
            Ok((conn, register))
        }
        Ok(None) => Err((conn, StoreFault::Unclean)),
        Err(fault) => Err((conn, look_fault(fault))),
    }
}

// Makes a store of a connection with the tables of schema 2, after setting their number.
#[inline(never)]
fn renumber_tables<S: Alter + Drop>(
    alloc: Global,
    mut conn: Connection<S>,
    register: Register,
) -> Result<SqliteStore<S>, (Connection<S>, StoreFault)>
    requires idle { conn.in_transaction ≡ false }
    requires tables { HasCleanDisk (state S.Store conn) → HasTables (state S.Store conn) }
    requires number { HasCleanDisk (state S.Store conn) → HasNumber 2 (state S.Store conn).now.trees }
    requires theirs { HasCleanDisk (state S.Store conn) →
        HasRegister (tables_in (state S.Store conn).now.trees) register }
    ensures holds { IfOk result (HoldsRows S.Store (state S.Store conn)
        (tables_in (state S.Store conn).now.trees)) }
    ensures fails { IfErr result (λ e. (e.1 ≡ StoreFault.Memory) ⊎ (e.1 ≡ StoreFault.Disk)) }
    ensures spared { IfErr result (λ e. SparesConnection S.Store ⊥
        (MayBeRenumbered Version.Second (tables_in (state S.Store conn).now.trees)) (state S.Store conn) e.0) }
{
    let _was_idle = conn.is_autocommit();
    match renumber(&mut conn) {
        Ok(()) => Ok(SqliteStore::from_tables(alloc, conn, Some(register))),
        Err(fault) => Err((conn, laying_fault(fault))),
    }
}

// Makes a store of a connection with the tables of schema 2 or 3.
#[inline(never)]
fn raise_version<S: Alter + Drop>(
    alloc: Global,
    conn: Connection<S>,
    version: Version,
    register: Register,
) -> Result<SqliteStore<S>, (Connection<S>, StoreFault)>
    requires idle { conn.in_transaction ≡ false }
    requires later { version ≢ Version.First }
    requires tables { HasCleanDisk (state S.Store conn) → HasTables (state S.Store conn) }
    requires open { HasCleanDisk (state S.Store conn) → IsTrue (state S.Store conn).is_open }
    requires number { HasCleanDisk (state S.Store conn) →
        HasNumber (number_of version) (state S.Store conn).now.trees }
    requires theirs { HasCleanDisk (state S.Store conn) →
        HasRegister (tables_in (state S.Store conn).now.trees) register }
    ensures holds { IfOk result (HoldsRows S.Store (state S.Store conn)
        (tables_in (state S.Store conn).now.trees)) }
    ensures fails { IfErr result (λ e. (e.1 ≡ StoreFault.Memory) ⊎ (e.1 ≡ StoreFault.Disk)) }
    ensures spared { IfErr result (λ e. SparesConnection S.Store ⊥
        (MayBeRenumbered version (tables_in (state S.Store conn).now.trees)) (state S.Store conn) e.0) }
{
    let _idle = conn.is_autocommit();
    match version {
        Version::Second => renumber_tables(alloc, conn, register),
        Version::First | Version::Third => Ok(SqliteStore::from_tables(
            alloc,
            conn,
            Some(register),
        )),
    }
}

// Makes a store of a connection if its rows hold a register.
#[inline(never)]
fn store_of_rows<S: Alter + Drop>(
    alloc: Global,
    conn: Connection<S>,
    version: Version,
) -> Result<SqliteStore<S>, (Connection<S>, StoreFault)>
    requires idle { conn.in_transaction ≡ false }
    requires later { version ≢ Version.First }
    requires ordered { HasCleanDisk (state S.Store conn) → AreOrdered (state S.Store conn).now.trees }
    requires number { HasCleanDisk (state S.Store conn) →
        HasNumber (number_of version) (state S.Store conn).now.trees }
    requires ready { HasCleanDisk (state S.Store conn) → IsReady (state S.Store conn) }
    ensures holds { IfOk result (HoldsRows S.Store (state S.Store conn)
        (tables_in (state S.Store conn).now.trees)) }
    ensures register { IfOk result (λ store.
        honest S.Store store → HoldsRegister (tables_in (state S.Store conn).now.trees)) }
    ensures not_version { IfErr result (λ e. e.1 ≢ StoreFault.Version) }
    ensures known { IfErr result (λ e. (conn.schema ≡ hub_schema) ⊎ (e.1 ≡ StoreFault.Disk)) }
    ensures unclean { IfErr result (λ e. e.1 ≡ StoreFault.Unclean →
        (HasCleanDisk (state S.Store e.0) → HoldsNone (tables_in (state S.Store conn).now.trees))
        × SparesConnection S.Store ⊥ Never (state S.Store conn) e.0) }
    ensures spared { IfErr result (λ e. SparesConnection S.Store ⊥
        (MayBeRenumbered version (tables_in (state S.Store conn).now.trees)) (state S.Store conn) e.0) }
{
    match with_register(alloc, conn) {
        Ok((conn, register)) => raise_version(alloc, conn, version, register),
        Err((conn, fault)) => Err((conn, fault)),
    }
}

impl<S: Alter + Drop> SqliteStore<S> {
    /// Opens the hub in a connection in which no transaction is open and no statement is limited. Schema 2 becomes
    /// schema 3: its number is set, and no other row changes. With any fault no committed row is lost:
    ///
    /// `Version`: the connection has no tables, tables that are not a hub's, or another number of the schema; it comes
    /// back as it was. `Unclean`: its rows hold no register; they stay as they are, with their number. A malformed row
    /// of another kind is found when it is looked up.
    #[inline(never)]
    pub fn adopt(
        alloc: Global,
        conn: Connection<S>,
    ) -> Result<SqliteStore<S>, (Returned<S>, StoreFault)>
        requires idle { conn.in_transaction ≡ false }
        requires unlimited { conn.step_limit ≡ None }
        ensures adopts { IfOk result (Adopts S.Store (state S.Store conn)) }
        ensures refuses { IfErr result (λ e. Refuses S.Store (state S.Store conn) e.0 e.1) }
    {
        let (conn, version) = match of_hub(conn) {
            Ok((conn, version)) => (conn, version),
            Err((conn, fault)) => return Err((Returned::Connection(conn), fault)),
        };
        let conn = match reopen(alloc, conn, version) {
            Ok(conn) => conn,
            Err((fault, store)) => return Err((Returned::Store(store), fault)),
        };
        match store_of_rows(alloc, conn, version) {
            Ok(store) => Ok(store),
            Err((conn, fault)) => Err((Returned::Connection(conn), fault)),
        }
    }

    /// Like `adopt`, for a connection just opened, in whose tables the row numbers rise: no storage is checked again.
    #[inline(never)]
    pub(crate) fn adopt_opened(
        alloc: Global,
        conn: Connection<S>,
    ) -> Result<SqliteStore<S>, (Returned<S>, StoreFault)>
        requires idle { conn.in_transaction ≡ false }
        requires ready { HasCleanDisk (state S.Store conn) → IsReady (state S.Store conn) }
        requires rising { HasCleanDisk (state S.Store conn) →
            AreRising (state S.Store conn).now.trees conn.schema.tables }
        ensures adopts { IfOk result (Adopts S.Store (state S.Store conn)) }
        ensures refuses { IfErr result (λ e. Refuses S.Store (state S.Store conn) e.0 e.1) }
    {
        let (conn, version) = match of_hub(conn) {
            Ok((conn, version)) => (conn, version),
            Err((conn, fault)) => return Err((Returned::Connection(conn), fault)),
        };
        match store_of_rows(alloc, conn, version) {
            Ok(store) => Ok(store),
            Err((conn, fault)) => Err((Returned::Connection(conn), fault)),
        }
    }

    /// Gives the connection back. Unless it is shut, its tables have the content's rows, even after a lasting fault.
    pub fn into_connection(self) -> Connection<S>
        ensures held { result ≡ self.held }
        ensures idle { result.in_transaction ≡ false }
        ensures hub { HasCleanDisk (state S.Store result) → IsTrue (state S.Store result).is_open →
            IsHub (state S.Store result) }
        ensures rows { HasCleanDisk (state S.Store result) → IsTrue (state S.Store result).is_open →
            tables_in (state S.Store result).now.trees ≡ content S.Store self }
    {
        let SqliteStore {
            conn,
            alloc: _,
            fault: _,
            register: _,
            marks: _,
            past: _,
        } = self;
        conn
    }
}
