//! Founds hubs in databases of schema 1.
ghost use Rattle.std.specs.Prelude.{◌≡◌, ◌≢◌, ◌⊎◌, true, false, None, IfOk, IfErr};
ghost use Rattle.sqlite.specs.Held.{state};
ghost use Rattle.sqlite.specs.State.{HasCleanDisk};
ghost use Rattle.hub_founding.specs.Fits.{fits as does_fit, founded_beside};
ghost use Rattle.hub_parties.specs.Rows.{IsRegister};
ghost use Rattle.hub_rows.specs.Asks.{HasDiskCause};
ghost use Rattle.hub_schema.specs.Rows.{traffic_in};
ghost use Rattle.hub_schema.specs.Schema.{old_schema, no_schema};
ghost use Rattle.hub_schema.specs.State.{HasNumber, IsOldHub, Never};
ghost use Rattle.hub_sql.specs.Founding.{Founds, IsOfFounding, MayBeBeside, RefusesFounding};
ghost use Rattle.hub_sql.specs.Opening.{IsAsBefore, IsReady, SparesConnection};
ghost use Rattle.hub_sql.specs.Stored.{honest, HoldsRows};
ghost use Rattle.hub_sql.specs.Version.{AreRising, AreShaped};

use crate::fault::{FoundFault, laying_fault};
use crate::reopening::{of_version, reopen};
use crate::returned::Returned;
use crate::store::SqliteStore;
use crate::version::Version;
use hub_founding::{register_changes, rows_beside_stay};
use hub_reads::fits;
use hub_register::Register;
use hub_rules::migrated_tables_are_sound;
use hub_schema::is_old_schema;
use hub_store::StoreFault;
use hub_writes::migrate;
use sqlite::{Alter, Connection};
use std::alloc::Global;

// Returns the connection if it still lists the tables of schema 1 and the register fits their rows.
#[inline(never)]
fn connection_if_fits<S: Alter + Drop>(
    mut conn: Connection<S>,
    register: &Register,
) -> Result<Connection<S>, (Connection<S>, FoundFault)>
    requires idle { conn.in_transaction ≡ false }
    requires shaped { HasCleanDisk (state S.Store conn) → AreShaped Version.First (state S.Store conn).now.trees }
    requires number { HasCleanDisk (state S.Store conn) → HasNumber 1 (state S.Store conn).now.trees }
    requires ready { HasCleanDisk (state S.Store conn) → IsReady (state S.Store conn) }
    ensures idle { IfOk result (λ c. c.in_transaction ≡ false) }
    ensures hub { IfOk result (λ c. HasCleanDisk (state S.Store c) → IsOldHub (state S.Store c)) }
    ensures limit { IfOk result (λ c. c.step_limit ≡ conn.step_limit) }
    ensures schema { IfOk result (λ _. conn.schema ≡ old_schema) }
    ensures before { IfOk result (λ c.
        HasCleanDisk (state S.Store c) → IsAsBefore (state S.Store conn) (state S.Store c)) }
    ensures clean { IfOk result (λ c. HasCleanDisk (state S.Store c) → HasCleanDisk (state S.Store conn)) }
    ensures fits { IfOk result (λ c. HasCleanDisk (state S.Store c) →
        does_fit register.now (traffic_in (state S.Store conn).now.trees) ≡ true) }
    ensures rows { IfErr result (λ e. e.1 ≡ FoundFault.Rows → HasCleanDisk (state S.Store e.0) →
        (e.0.schema ≡ old_schema)
        × (does_fit register.now (traffic_in (state S.Store conn).now.trees) ≡ false)) }
    ensures known { IfErr result (λ e. (conn.schema ≡ old_schema) ⊎ (e.1 ≡ FoundFault.Store StoreFault.Disk)) }
    ensures unfit { IfErr result (λ e. HasCleanDisk (state S.Store e.0) →
        does_fit register.now (traffic_in (state S.Store conn).now.trees) ≡ false →
        e.1 ≢ FoundFault.Rows → e.1 ≢ FoundFault.Store StoreFault.Memory →
        (conn.schema ≢ old_schema) ⊎ HasDiskCause (state S.Store conn) (state S.Store e.0)) }
    ensures fails { IfErr result (λ e. IsOfFounding e.1) }
    ensures spared { IfErr result (λ e. SparesConnection S.Store ⊥ Never (state S.Store conn) e.0) }
{
    let _was_idle = conn.is_autocommit();
    if !is_old_schema(conn.schema()) {
        return Err((conn, FoundFault::Store(StoreFault::Disk)));
    }
    match fits(&mut conn, register) {
        Ok(true) => {
            let _idle = conn.is_autocommit();
            Ok(conn)
        }
        Ok(false) => Err((conn, FoundFault::Rows)),
        Err(fault) => Err((conn, FoundFault::Store(laying_fault(fault)))),
    }
}

// Makes a store with the rows of the register beside those of schema 1, which it fits.
#[inline(never)]
fn found_beside<S: Alter + Drop>(
    alloc: Global,
    mut conn: Connection<S>,
    register: &Register,
) -> Result<SqliteStore<S>, (Connection<S>, FoundFault)>
    requires idle { conn.in_transaction ≡ false }
    requires hub { HasCleanDisk (state S.Store conn) → IsOldHub (state S.Store conn) }
    requires fits { HasCleanDisk (state S.Store conn) →
        does_fit register.now (traffic_in (state S.Store conn).now.trees) ≡ true }
    ensures holds { IfOk result (HoldsRows S.Store (state S.Store conn)
        (founded_beside (traffic_in (state S.Store conn).now.trees) register.now)) }
    ensures register { IsRegister register.now }
    ensures fails { IfErr result (λ e. IsOfFounding e.1 × (e.1 ≢ FoundFault.Rows)) }
    ensures spared { IfErr result (λ e. SparesConnection S.Store ⊥
        (MayBeBeside (traffic_in (state S.Store conn).now.trees) register.now) (state S.Store conn) e.0) }
{
    let _idle = conn.is_autocommit();
    let _hub = register.hub();
    let Ok(changes) = register_changes(alloc, register) else {
        return Err((conn, FoundFault::Store(StoreFault::Memory)));
    };
    match migrate(&mut conn, changes.as_slice()) {
        Ok(()) => Ok(SqliteStore::from_tables(alloc, conn, None)),
        Err(fault) => Err((conn, FoundFault::Store(laying_fault(fault)))),
    }
}

// Like `found_beside`, for a connection that still lists the tables of schema 1, if the register fits.
#[inline(never)]
fn beside<S: Alter + Drop>(
    alloc: Global,
    conn: Connection<S>,
    register: &Register,
) -> Result<SqliteStore<S>, (Connection<S>, FoundFault)>
    requires idle { conn.in_transaction ≡ false }
    requires shaped { HasCleanDisk (state S.Store conn) → AreShaped Version.First (state S.Store conn).now.trees }
    requires number { HasCleanDisk (state S.Store conn) → HasNumber 1 (state S.Store conn).now.trees }
    requires ready { HasCleanDisk (state S.Store conn) → IsReady (state S.Store conn) }
    ensures holds { IfOk result (HoldsRows S.Store (state S.Store conn)
        (founded_beside (traffic_in (state S.Store conn).now.trees) register.now)) }
    ensures fits { IfOk result (λ store. honest S.Store store →
        does_fit register.now (traffic_in (state S.Store conn).now.trees) ≡ true) }
    ensures register { IfOk result (λ _. IsRegister register.now) }
    ensures none { IfErr result (λ e. e.1 ≡ FoundFault.Rows → HasCleanDisk (state S.Store e.0) →
        (e.0.schema ≡ old_schema)
        × (does_fit register.now (traffic_in (state S.Store conn).now.trees) ≡ false)) }
    ensures known { IfErr result (λ e. (conn.schema ≡ old_schema) ⊎ (e.1 ≡ FoundFault.Store StoreFault.Disk)) }
    ensures unfit { IfErr result (λ e. HasCleanDisk (state S.Store e.0) →
        does_fit register.now (traffic_in (state S.Store conn).now.trees) ≡ false →
        e.1 ≢ FoundFault.Rows → e.1 ≢ FoundFault.Store StoreFault.Memory →
        (conn.schema ≢ old_schema) ⊎ HasDiskCause (state S.Store conn) (state S.Store e.0)) }
    ensures fails { IfErr result (λ e. IsOfFounding e.1) }
    ensures spared { IfErr result (λ e. SparesConnection S.Store ⊥
        (MayBeBeside (traffic_in (state S.Store conn).now.trees) register.now) (state S.Store conn) e.0) }
{
    match connection_if_fits(conn, register) {
        Ok(conn) => found_beside(alloc, conn, register),
        Err((conn, fault)) => Err((conn, fault)),
    }
}

/// Founds a hub in a database that has tables, if they are those of schema 1 and the register fits their rows.
#[inline(never)]
pub(crate) fn migrate_hub<S: Alter + Drop>(
    alloc: Global,
    conn: Connection<S>,
    register: &Register,
) -> Result<SqliteStore<S>, (Returned<S>, FoundFault)>
    requires idle { conn.in_transaction ≡ false }
    requires unlimited { conn.step_limit ≡ None }
    requires tables { conn.schema ≢ no_schema }
    ensures founds { IfOk result (Founds S.Store register.now (state S.Store conn)) }
    ensures refuses { IfErr result (λ e. RefusesFounding S.Store register.now (state S.Store conn) e.0 e.1) }
{
    rows_beside_stay();
    migrated_tables_are_sound();
    let conn = match of_version(conn, Version::First) {
        Ok(conn) => conn,
        Err((conn, fault)) => return Err((Returned::Connection(conn), FoundFault::Store(fault))),
    };
    let conn = match reopen(alloc, conn, Version::First) {
        Ok(conn) => conn,
        Err((fault, store)) => return Err((Returned::Store(store), FoundFault::Store(fault))),
    };
    match beside(alloc, conn, register) {
        Ok(store) => Ok(store),
        Err((conn, fault)) => Err((Returned::Connection(conn), fault)),
    }
}

/// Like `migrate_hub`, for a connection that was just opened, in whose tables the row numbers rise.
#[inline(never)]
pub(crate) fn migrate_opened_hub<S: Alter + Drop>(
    alloc: Global,
    conn: Connection<S>,
    register: &Register,
) -> Result<SqliteStore<S>, (Returned<S>, FoundFault)>
    requires idle { conn.in_transaction ≡ false }
    requires tables { conn.schema ≢ no_schema }
    requires ready { HasCleanDisk (state S.Store conn) → IsReady (state S.Store conn) }
    requires rising { HasCleanDisk (state S.Store conn) → AreRising (state S.Store conn).now.trees conn.schema.tables }
    ensures founds { IfOk result (Founds S.Store register.now (state S.Store conn)) }
    ensures refuses { IfErr result (λ e. RefusesFounding S.Store register.now (state S.Store conn) e.0 e.1) }
{
    rows_beside_stay();
    migrated_tables_are_sound();
    let conn = match of_version(conn, Version::First) {
        Ok(conn) => conn,
        Err((conn, fault)) => return Err((Returned::Connection(conn), FoundFault::Store(fault))),
    };
    match beside(alloc, conn, register) {
        Ok(store) => Ok(store),
        Err((conn, fault)) => Err((Returned::Connection(conn), fault)),
    }
}
