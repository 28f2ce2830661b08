//! Checks that the tables of a connection are of one version, and opens it again.
ghost use Rattle.std.specs.Prelude.{◌≡◌, ◌≢◌, ◌⊎◌, false, IfOk, IfErr};
ghost use Rattle.sqlite.specs.Held.{state, IsNew};
ghost use Rattle.sqlite.specs.State.{HasCleanDisk};
ghost use Rattle.sqlite_trees.specs.View.{IsClean};
ghost use Rattle.hub_rows.specs.Asks.{HasDiskCause};
ghost use Rattle.hub_schema.specs.State.{HasNumber, Never};
ghost use Rattle.hub_sql.specs.Opening.{CountsOn, IsAsBefore, IsReady, SparesConnection, SparesStore, StaysShut};
ghost use Rattle.hub_schema.specs.Schema.{hub_schema};
ghost use Rattle.hub_sql.specs.Version.{schema_of, number_of, AreShaped, HoldsHub, HoldsTables};

use crate::version::Version;
use hub_reads::is_numbered;
use hub_schema::fault_by;
use hub_store::StoreFault;
use sqlite::{Alter, Connection};
use std::alloc::Global;

/// Returns the connection if both its tables and their number are of this version.
#[inline(never)]
pub fn of_version<S: Alter + Drop>(
    mut conn: Connection<S>,
    version: Version,
) -> Result<Connection<S>, (Connection<S>, StoreFault)>
    requires idle { conn.in_transaction ≡ false }
    ensures idle { IfOk result (λ c. c.in_transaction ≡ false) }
    ensures limit { IfOk result (λ c. c.step_limit ≡ conn.step_limit) }
    ensures ready { IfOk result (λ c.
        HasCleanDisk (state S.Store c) → IsReady (state S.Store conn) → IsReady (state S.Store c)) }
    ensures schema { IfOk result (λ _. conn.schema ≡ schema_of version) }
    ensures holds { IfOk result (λ c. HasCleanDisk (state S.Store c) →
        HoldsTables version (state S.Store conn).now × IsAsBefore (state S.Store conn) (state S.Store c)) }
    ensures number { IfOk result (λ c. HasCleanDisk (state S.Store c) →
        HasNumber (number_of version) (state S.Store c).committed.trees) }
    ensures clean { IfOk result (λ c. HasCleanDisk (state S.Store c) → HasCleanDisk (state S.Store conn)) }
    ensures counted { IfOk result (λ c.
        HasCleanDisk (state S.Store c) → CountsOn (state S.Store conn) (state S.Store c)) }
    ensures refuses { IfErr result (λ e. e.1 ≡ StoreFault.Version → HasCleanDisk (state S.Store e.0) →
        ¬ HoldsTables version (state S.Store conn).now
        × IsAsBefore (state S.Store conn) (state S.Store e.0)) }
    ensures stays { IfErr result (λ e. e.1 ≡ StoreFault.Version → HasCleanDisk (state S.Store e.0) →
        IsReady (state S.Store conn) → IsReady (state S.Store e.0)) }
    ensures other { IfErr result (λ e. conn.schema ≢ schema_of version → e.1 ≡ StoreFault.Version) }
    ensures unread { IfErr result (λ e. (conn.schema ≡ schema_of version) ⊎ (e.0 ≡ conn)) }
    ensures disk { IfErr result (λ e. e.1 ≡ StoreFault.Disk → HasCleanDisk (state S.Store e.0) →
        HasDiskCause (state S.Store conn) (state S.Store e.0)) }
    ensures counts { IfErr result (λ e. e.1 ≡ StoreFault.Version → HasCleanDisk (state S.Store e.0) →
        CountsOn (state S.Store conn) (state S.Store e.0)) }
    ensures unclean { IfErr result (λ e. e.1 ≢ StoreFault.Unclean) }
    ensures spared { IfErr result (λ e. SparesConnection S.Store ⊥ Never (state S.Store conn) e.0) }
{
    let _was_idle = conn.is_autocommit();
    if !version.is_of(conn.schema()) {
        return Err((conn, StoreFault::Version));
    }
    match is_numbered(&mut conn, version.number()) {
        Ok(true) => {
            let _idle = conn.is_autocommit();
            Ok(conn)
        }
        Ok(false) => Err((conn, StoreFault::Version)),
        Err(fault) => Err((conn, fault)),
    }
}

/// Returns the connection and the version of its tables, if that is schema 3 or 2.
#[inline(never)]
pub fn of_hub<S: Alter + Drop>(
    conn: Connection<S>,
) -> Result<(Connection<S>, Version), (Connection<S>, StoreFault)>
    requires idle { conn.in_transaction ≡ false }
    ensures idle { IfOk result (λ found. found.0.in_transaction ≡ false) }
    ensures limit { IfOk result (λ found. found.0.step_limit ≡ conn.step_limit) }
    ensures ready { IfOk result (λ found. HasCleanDisk (state S.Store found.0) →
        IsReady (state S.Store conn) → IsReady (state S.Store found.0)) }
    ensures schema { IfOk result (λ _. conn.schema ≡ hub_schema) }
    ensures known { IfOk result (λ found. conn.schema ≡ schema_of found.1) }
    ensures later { IfOk result (λ found. found.1 ≢ Version.First) }
    ensures holds { IfOk result (λ found. HasCleanDisk (state S.Store found.0) →
        HoldsTables found.1 (state S.Store conn).now
        × IsAsBefore (state S.Store conn) (state S.Store found.0)) }
    ensures number { IfOk result (λ found. HasCleanDisk (state S.Store found.0) →
        HasNumber (number_of found.1) (state S.Store found.0).committed.trees) }
    ensures clean { IfOk result (λ found.
        HasCleanDisk (state S.Store found.0) → HasCleanDisk (state S.Store conn)) }
    ensures counted { IfOk result (λ found.
        HasCleanDisk (state S.Store found.0) → CountsOn (state S.Store conn) (state S.Store found.0)) }
    ensures refuses { IfErr result (λ e. e.1 ≡ StoreFault.Version → HasCleanDisk (state S.Store e.0) →
        ¬ HoldsHub (state S.Store conn).now × IsAsBefore (state S.Store conn) (state S.Store e.0)) }
    ensures other { IfErr result (λ e. conn.schema ≢ hub_schema → e.1 ≡ StoreFault.Version) }
    ensures disk { IfErr result (λ e. e.1 ≡ StoreFault.Disk → HasCleanDisk (state S.Store e.0) →
        HasDiskCause (state S.Store conn) (state S.Store e.0)) }
    ensures unclean { IfErr result (λ e. e.1 ≢ StoreFault.Unclean) }
    ensures spared { IfErr result (λ e. SparesConnection S.Store ⊥ Never (state S.Store conn) e.0) }
{
    let _was_idle = conn.is_autocommit();
    match of_version(conn, Version::Third) {
        Ok(conn) => Ok((conn, Version::Third)),
        Err((conn, StoreFault::Version)) => match of_version(conn, Version::Second) {
            Ok(conn) => Ok((conn, Version::Second)),
            Err((conn, fault)) => Err((conn, fault)),
        },
        Err((conn, fault)) => Err((conn, fault)),
    }
}

/// Opens the connection again, if its storage reports that it is not broken and that it has the tables of this version.
#[inline(never)]
pub(crate) fn reopen<S: Alter + Drop>(
    alloc: Global,
    conn: Connection<S>,
    version: Version,
) -> Result<Connection<S>, (StoreFault, S)>
    ensures shaped { IfOk result (λ c.
        HasCleanDisk (state S.Store c) → AreShaped version (state S.Store c).now.trees) }
    ensures rows { IfOk result (λ c. HasCleanDisk (state S.Store c) →
        (state S.Store c).now.trees ≡ (state S.Store conn).committed.trees) }
    ensures ready { IfOk result (λ c. HasCleanDisk (state S.Store c) → IsReady (state S.Store c)) }
    ensures fresh { IfOk result IsNew }
    ensures clean { IfOk result (λ c. HasCleanDisk (state S.Store c) → HasCleanDisk (state S.Store conn)) }
    ensures fails { IfErr result (λ e. (e.0 ≡ StoreFault.Memory) ⊎ (e.0 ≡ StoreFault.Disk)) }
    ensures shut { IfErr result (λ e. IsClean (S.Store.view e.1) → StaysShut S.Store (state S.Store conn) version e.1 e.0) }
    ensures spared { IfErr result (λ e. SparesStore S.Store (state S.Store conn) e.1) }
{
    let store = conn.into_store();
    if store.is_broken() {
        return Err((StoreFault::Disk, store));
    }
    if !version.has_tables(&store) {
        return Err((StoreFault::Disk, store));
    }
    match Connection::over(alloc, store) {
        Ok(conn) => Ok(conn),
        Err((error, store)) => Err((fault_by(&error), store)),
    }
}
