//! Founds hubs.
ghost use Rattle.std.specs.Prelude.{◌≡◌, ◌⊎◌, false, None, IfOk, IfErr};
ghost use Rattle.sqlite.specs.Held.{state};
ghost use Rattle.sqlite.specs.State.{HasCleanDisk};
ghost use Rattle.sqlite.specs.Steps.{over_memory};
ghost use Rattle.hub_schema.specs.Schema.{no_schema};
ghost use Rattle.hub_parties.specs.Rows.{IsRegister};
ghost use Rattle.hub_tables.specs.Register.{HoldsRegister, founded};
ghost use Rattle.hub_tables.specs.Tables.{Tables, empty};
ghost use Rattle.hub_sql.specs.Founding.{Founds, MayBeBeside, RefusesFounding};
ghost use Rattle.hub_sql.specs.Opening.{IsReady, SparesConnection};
ghost use Rattle.hub_sql.specs.Stored.{content, left, HoldsRows};
ghost use Rattle.hub_sql.specs.Version.{AreRising};

use crate::fault::{FoundFault, laying_fault};
use crate::migrating::{migrate_hub, migrate_opened_hub};
use crate::returned::Returned;
use crate::store::SqliteStore;
use hub_founding::register_changes;
use hub_register::Register;
use hub_rules::migrated_tables_are_sound;
use hub_schema::is_no_schema;
use hub_store::StoreFault;
use hub_tables::founded_tables_hold_their_register;
use hub_writes::found;
use sqlite::{Alter, Connection};
use sqlite_trees::memory::MemStore;
use std::alloc::Global;

// Makes a store with the rows of a register alone, in a database without tables.
#[inline(never)]
fn found_with_register<S: Alter + Drop>(
    alloc: Global,
    mut conn: Connection<S>,
    register: &Register,
) -> Result<SqliteStore<S>, (Connection<S>, StoreFault)>
    requires idle { conn.in_transaction ≡ false }
    requires bare { HasCleanDisk (state S.Store conn) → conn.schema ≡ no_schema }
    ensures holds { IfOk result (HoldsRows S.Store (state S.Store conn) (founded register.now)) }
    ensures register { IsRegister register.now }
    ensures fails { IfErr result (λ e. (e.1 ≡ StoreFault.Memory) ⊎ (e.1 ≡ StoreFault.Disk)) }
    ensures spared { IfErr result (λ e.
        SparesConnection S.Store ⊥ (MayBeBeside empty register.now) (state S.Store conn) e.0) }
{
    let _idle = conn.is_autocommit();
    let _hub = register.hub();
    let Ok(changes) = register_changes(alloc, register) else {
        return Err((conn, StoreFault::Memory));
    };
    match found(&mut conn, changes.as_slice()) {
        Ok(()) => Ok(SqliteStore::from_tables(alloc, conn, None)),
        Err(fault) => Err((conn, laying_fault(fault))),
    }
}

// Founds a hub in a database without tables.
#[inline(never)]
fn found_bare<S: Alter + Drop>(
    alloc: Global,
    conn: Connection<S>,
    register: &Register,
) -> Result<SqliteStore<S>, (Returned<S>, FoundFault)>
    requires idle { conn.in_transaction ≡ false }
    requires bare { conn.schema ≡ no_schema }
    ensures founds { IfOk result (Founds S.Store register.now (state S.Store conn)) }
    ensures refuses { IfErr result (λ e. RefusesFounding S.Store register.now (state S.Store conn) e.0 e.1) }
{
    founded_tables_hold_their_register();
    migrated_tables_are_sound();
    match found_with_register(alloc, conn, register) {
        Ok(store) => Ok(store),
        Err((conn, fault)) => Err((Returned::Connection(conn), FoundFault::Store(fault))),
    }
}

impl<S: Alter + Drop> SqliteStore<S> {
    /// Founds a hub in a connection in which no transaction is open and no statement is limited: makes its tables with
    /// the rows of the register, in one transaction. In a database of schema 1 the existing rows stay as they are
    /// beside them. With any fault no committed row is lost:
    ///
    /// `Rows`: the register does not fit the rows of schema 1. `Version`: the database has other tables or another
    /// number of the schema, and the connection comes back as it was.
    pub fn found(
        alloc: Global,
        conn: Connection<S>,
        register: &Register,
    ) -> Result<SqliteStore<S>, (Returned<S>, FoundFault)>
        requires idle { conn.in_transaction ≡ false }
        requires unlimited { conn.step_limit ≡ None }
        ensures founds { IfOk result (Founds S.Store register.now (state S.Store conn)) }
        ensures refuses { IfErr result (λ e.
            RefusesFounding S.Store register.now (state S.Store conn) e.0 e.1) }
    {
        if is_no_schema(conn.schema()) {
            found_bare(alloc, conn, register)
        } else {
            migrate_hub(alloc, conn, register)
        }
    }

    /// Like `found`, for a connection that was just opened, in whose tables the row numbers rise.
    #[inline(never)]
    pub(crate) fn found_opened(
        alloc: Global,
        conn: Connection<S>,
        register: &Register,
    ) -> Result<SqliteStore<S>, (Returned<S>, FoundFault)>
        requires idle { conn.in_transaction ≡ false }
        requires ready { HasCleanDisk (state S.Store conn) → IsReady (state S.Store conn) }
        requires rising { HasCleanDisk (state S.Store conn) →
            AreRising (state S.Store conn).now.trees conn.schema.tables }
        ensures founds { IfOk result (Founds S.Store register.now (state S.Store conn)) }
        ensures refuses { IfErr result (λ e.
            RefusesFounding S.Store register.now (state S.Store conn) e.0 e.1) }
    {
        if is_no_schema(conn.schema()) {
            found_bare(alloc, conn, register)
        } else {
            migrate_opened_hub(alloc, conn, register)
        }
    }
}

impl SqliteStore<MemStore> {
    /// Makes a store in memory, with the rows of the register alone. Fails with `Memory`, or without cause with `Disk`.
    pub fn in_memory(
        alloc: Global,
        register: &Register,
    ) -> Result<SqliteStore<MemStore>, StoreFault>
        ensures whole { IfOk result (λ store. store.fault ≡ None) }
        ensures rows { IfOk result (λ store. content over_memory store ≡ founded register.now) }
        ensures register { IfOk result (λ store. HoldsRegister (content over_memory store)) }
        ensures crash { IfOk result (λ store.
            (t : Tables) → left over_memory store t → t ≡ founded register.now) }
        ensures fails { IfErr result (λ fault. (fault ≡ StoreFault.Memory) ⊎ (fault ≡ StoreFault.Disk)) }
    {
        founded_tables_hold_their_register();
        let Ok(conn) = Connection::open_in_memory(alloc) else {
            return Err(StoreFault::Memory);
        };
        match found_with_register(alloc, conn, register) {
            Ok(store) => Ok(store),
            Err((_conn, fault)) => Err(fault),
        }
    }
}
