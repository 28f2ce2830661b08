//! Founds a hub: makes its tables and their first rows in one transaction, in an empty database or beside the rows of
//! schema 1. Also turns schema 2 into schema 3.
ghost use Rattle.std.specs.Prelude.{◌≡◌, IsTrue, OnOk, false};
ghost use Rattle.sqlite.specs.Held.{state};
ghost use Rattle.sqlite.specs.State.{HasCleanDisk, KeepsCommit, Survives};
ghost use Rattle.sqlite_trees.specs.Tree.{no_trees};
ghost use Rattle.hub_tables.specs.Change.{apply_all as all_applied};
ghost use Rattle.hub_tables.specs.Tables.{empty};
ghost use Rattle.hub_schema.specs.Making.{HasMade};
ghost use Rattle.hub_schema.specs.Schema.{no_schema};
ghost use Rattle.hub_schema.specs.State.{FoundsTo, HasNumber, HasTables, IsOldHub, Makes, Never};
ghost use Rattle.hub_schema.specs.Rows.{tables_in, traffic_in};

use crate::changes::apply_all;
use crate::faults::{call_ended, statement_ended};
use hub_schema::{make_party_tables, make_tables, set_number};
use hub_store::StoreFault;
use hub_tables::Change;
use sqlite::{Alter, Connection, Transaction};

// Makes the tables, then the changes in them.
fn lay<S: Alter>(tx: &mut Transaction<'_, S>, changes: &[Change]) -> Result<(), StoreFault>
    ensures same_reference { tx.new.conn.ghost_name ≡ tx.old.conn.ghost_name }
    ensures makes { HasCleanDisk (state S.Store tx.new.conn.now) →
        HasMade no_trees no_schema (state S.Store tx.old.conn.now) →
        OnOk result (Makes (λ _. all_applied changes.now empty) (state S.Store tx.old.conn.now)
        (state S.Store tx.new.conn.now)) }
    ensures kept { HasCleanDisk (state S.Store tx.new.conn.now) →
        KeepsCommit (state S.Store tx.old.conn.now) (state S.Store tx.new.conn.now) }
    ensures survives { Survives (state S.Store tx.old.conn.now) (state S.Store tx.new.conn.now) Never }
{
    call_ended(make_tables(tx))?;
    apply_all(tx, changes)
}

// Makes the tables of the register beside those of schema 1, then the changes in all of them.
fn lay_beside<S: Alter>(tx: &mut Transaction<'_, S>, changes: &[Change]) -> Result<(), StoreFault>
    ensures same_reference { tx.new.conn.ghost_name ≡ tx.old.conn.ghost_name }
    ensures makes { HasCleanDisk (state S.Store tx.new.conn.now) → IsOldHub (state S.Store tx.old.conn.now) →
        IsTrue (state S.Store tx.old.conn.now).in_transaction →
        OnOk result (Makes (λ _.
        all_applied changes.now (traffic_in (state S.Store tx.old.conn.now).now.trees))
        (state S.Store tx.old.conn.now) (state S.Store tx.new.conn.now)) }
    ensures kept { HasCleanDisk (state S.Store tx.new.conn.now) →
        KeepsCommit (state S.Store tx.old.conn.now) (state S.Store tx.new.conn.now) }
    ensures survives { Survives (state S.Store tx.old.conn.now) (state S.Store tx.new.conn.now) Never }
{
    call_ended(make_party_tables(tx))?;
    apply_all(tx, changes)
}

// Raises the schema's number from 2 to 3.
fn raise<S: Alter>(tx: &mut Transaction<'_, S>) -> Result<(), StoreFault>
    ensures same_reference { tx.new.conn.ghost_name ≡ tx.old.conn.ghost_name }
    ensures makes { HasCleanDisk (state S.Store tx.new.conn.now) → HasTables (state S.Store tx.old.conn.now) →
        HasNumber 2 (state S.Store tx.old.conn.now).now.trees →
        IsTrue (state S.Store tx.old.conn.now).in_transaction →
        OnOk result (Makes (λ _. tables_in (state S.Store tx.old.conn.now).now.trees)
        (state S.Store tx.old.conn.now) (state S.Store tx.new.conn.now)) }
    ensures kept { HasCleanDisk (state S.Store tx.new.conn.now) →
        KeepsCommit (state S.Store tx.old.conn.now) (state S.Store tx.new.conn.now) }
    ensures survives { Survives (state S.Store tx.old.conn.now) (state S.Store tx.new.conn.now) Never }
{
    statement_ended(set_number(tx))
}

/// Founds a hub in a database that has no tables: makes all tables, then the changes in them. After a fault, nothing is
/// done.
pub fn found<S: Alter>(conn: &mut Connection<S>, changes: &[Change]) -> Result<(), StoreFault>
    requires { (state S.Store conn.old).in_transaction ≡ false }
    ensures { FoundsTo ((state S.Store conn.old).now.schema ≡ no_schema) (all_applied changes.now empty)
        (state S.Store conn.old) (state S.Store conn.new) result }
{
    // Only the contract of this call says whether a transaction is open.
    let _idle = conn.is_autocommit();
    let mut tx = conn.transaction();
    lay(&mut tx, changes)?;
    call_ended(tx.commit())
}

/// Brings a database from schema 1 to schema 3: makes the missing tables, sets the number, and makes the changes, all
/// in one transaction. After a fault, nothing is done.
pub fn migrate<S: Alter>(conn: &mut Connection<S>, changes: &[Change]) -> Result<(), StoreFault>
    requires { (state S.Store conn.old).in_transaction ≡ false }
    ensures { FoundsTo (IsOldHub (state S.Store conn.old))
        (all_applied changes.now (traffic_in (state S.Store conn.old).now.trees)) (state S.Store conn.old)
        (state S.Store conn.new) result }
{
    // Only the contract of this call says whether a transaction is open.
    let _idle = conn.is_autocommit();
    let mut tx = conn.transaction();
    lay_beside(&mut tx, changes)?;
    call_ended(tx.commit())
}

/// Brings a database from schema 2 to schema 3: sets the number in one transaction, and changes no other row. After a
/// fault, nothing is done.
pub fn renumber<S: Alter>(conn: &mut Connection<S>) -> Result<(), StoreFault>
    requires { (state S.Store conn.old).in_transaction ≡ false }
    ensures { FoundsTo (HasTables (state S.Store conn.old) × HasNumber 2 (state S.Store conn.old).now.trees)
        (tables_in (state S.Store conn.old).now.trees) (state S.Store conn.old) (state S.Store conn.new) result }
{
    // Only the contract of this call says whether a transaction is open.
    let _idle = conn.is_autocommit();
    let mut tx = conn.transaction();
    raise(&mut tx)?;
    call_ended(tx.commit())
}
