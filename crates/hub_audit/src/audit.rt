//! Decides what a database holds: whether its rows are a sound start, and how many there are.
ghost use Rattle.std.specs.Prelude.{◌≡◌, false, IfOk, IsTrue};
ghost use Rattle.hub_audit.specs.Audit.{Checks, IsAudit, IsAuditIfRising};
ghost use Rattle.hub_audit.specs.Rows.{content, honest};
ghost use Rattle.hub_schema.specs.Rows.{tables_in};
ghost use Rattle.hub_schema.specs.State.{IsHub};
ghost use Rattle.hub_sql.specs.Opening.{IsReady};
ghost use Rattle.hub_sql.specs.Version.{AreRising};
ghost use Rattle.hub_pieces.specs.AllRows.{Tells};
ghost use Rattle.sqlite.specs.Held.{state};
ghost use Rattle.sqlite.specs.State.{HasCleanDisk};

use crate::rows::HubRows;
use hub_sound::Finding;
use hub_sql::{Version, of_hub, of_version};
use hub_store::StoreFault;
use hub_verify::{Counts, RowsVerdict, count, verify};
use sqlite::{Alter, Connection};
use std::alloc::Global;

/// What a database holds.
#[derive(Drop)]
pub enum Audit {
    /// A hub whose rows are a sound start, and how many there are.
    Sound(Counts),
    /// A hub with this row, which does not have the form of its kind.
    Unclean(Finding),
    /// A hub whose rows are clean, with this one that shows that they are not a sound start.
    Unsound(Finding),
    /// The tables of an earlier schema, which has this number. Their rows were not read.
    Earlier(u32),
}

// Decides whether the rows are a sound start, and counts them if they are.
fn audit_rows<S: Alter>(rows: &mut HubRows<S>, alloc: Global) -> Result<Audit, StoreFault>
    ensures { Tells (content S.Store) (honest S.Store) IsAuditIfRising rows.old rows.new result }
{
    let verdict = verify(rows, alloc)?;
    match verdict {
        RowsVerdict::Sound => {
            let counts = count(rows, alloc)?;
            Ok(Audit::Sound(counts))
        }
        RowsVerdict::Unclean(found) => Ok(Audit::Unclean(found)),
        RowsVerdict::Unsound(found) => Ok(Audit::Unsound(found)),
    }
}

// Decides what the rows behind a connection to a hub are, and counts them if they are a sound start.
#[inline(never)]
fn audit_hub<S: Alter + Drop>(
    alloc: Global,
    conn: Connection<S>,
) -> Result<(Audit, Connection<S>), StoreFault>
    requires idle { conn.in_transaction ≡ false }
    requires hub { HasCleanDisk (state S.Store conn) → IsHub (state S.Store conn) }
    requires ready { HasCleanDisk (state S.Store conn) → IsReady (state S.Store conn) }
    ensures { IfOk result (λ found. HasCleanDisk (state S.Store found.1) →
        HasCleanDisk (state S.Store conn) × IsAudit (tables_in (state S.Store conn).now.trees) found.0
        × (tables_in (state S.Store found.1).now.trees ≡ tables_in (state S.Store conn).now.trees)) }
{
    let mut rows = HubRows { conn, alloc };
    let audit = audit_rows(&mut rows, alloc)?;
    Ok((audit, rows.conn))
}

// The number of schema 1, if the tables are those of schema 1.
#[inline(never)]
fn audit_earlier<S: Alter + Drop>(conn: Connection<S>) -> Result<(Audit, Connection<S>), StoreFault>
    requires idle { conn.in_transaction ≡ false }
    ensures { IfOk result (λ found. HasCleanDisk (state S.Store found.1) →
        Checks (state S.Store conn) (state S.Store found.1) found.0) }
{
    match of_version(conn, Version::First) {
        Ok(conn) => Ok((Audit::Earlier(1), conn)),
        Err((_conn, fault)) => Err(fault),
    }
}

/// Decides what a database holds, and gives the connection back. No row is changed. The contract asks for a connection
/// that was just opened, in whose tables the row numbers rise.
///
/// # Errors
///
/// `Memory`; `Version` if it has no tables, others than a hub's or another number of the schema; or `Disk` if a read
/// failed.
#[inline(never)]
pub fn check_database<S: Alter + Drop>(
    alloc: Global,
    conn: Connection<S>,
) -> Result<(Audit, Connection<S>), StoreFault>
    requires idle { conn.in_transaction ≡ false }
    requires ready { HasCleanDisk (state S.Store conn) → IsReady (state S.Store conn) }
    requires rising { HasCleanDisk (state S.Store conn) →
        AreRising (state S.Store conn).now.trees conn.schema.tables }
    ensures { IfOk result (λ found. HasCleanDisk (state S.Store found.1) →
        Checks (state S.Store conn) (state S.Store found.1) found.0) }
{
    match of_hub(conn) {
        Ok((conn, Version::Third)) => audit_hub(alloc, conn),
        Ok((conn, Version::First | Version::Second)) => Ok((Audit::Earlier(2), conn)),
        Err((conn, StoreFault::Version)) => audit_earlier(conn),
        Err((_conn, fault)) => Err(fault),
    }
}
