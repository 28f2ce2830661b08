//! Makes the hub's tables.
ghost use Rattle.std.specs.Prelude.{◌≡◌, ◌⊎◌, ◌++◌, ℕ, List, false, IsTrue, OnOk, OnErr, []};
ghost use Rattle.sqlite.specs.State.{HasCleanDisk, Survives, KeepsCommit};
ghost use Rattle.sqlite.specs.Schema.{Schema};
ghost use Rattle.sqlite.specs.Table.{Table};
ghost use Rattle.sqlite.specs.Held.{state};
ghost use Rattle.sqlite_trees.specs.Tree.{Trees, no_trees};
ghost use Rattle.sqlite_catalog.specs.Change.{created, next_tree};
ghost use Rattle.hub_tables.specs.Tables.{empty};
ghost use Rattle.hub_schema.specs.Definitions.{Make};
ghost use Rattle.hub_schema.specs.Making.{HasMade, HaveNoRows, Defines, MakesOn, MakesFirstTables, LeavesTables};
ghost use Rattle.hub_schema.specs.Making.{schema_with, traffic_rows};
ghost use Rattle.hub_schema.specs.Rows.{tables_in, traffic_in};
ghost use Rattle.hub_schema.specs.Schema.{no_schema, hub_schema, hub_tables, traffic_tables};
ghost use Rattle.hub_schema.specs.State.{AreOrdered, HasNumber, IsOldHub, IsUndone, Makes, Never, ShowsTheSame};
ghost use Rattle.hub_schema.specs.State.{StatementLeaves};

use crate::definitions::{Definition, all, parties};
use sqlite::{Alter, Error, Transaction};

fn create<S: Alter>(tx: &mut Transaction<'_, S>, text: &str) -> Result<usize, Error>
    ensures same_reference { tx.new.conn.ghost_name ≡ tx.old.conn.ghost_name }
    ensures makes { HasCleanDisk (state S.Store tx.new.conn.now) →
        (rows : Trees) (schema : Schema) (table : Table) →
        Defines text.now schema table → rows (next_tree schema) ≡ [] →
        HasMade rows schema (state S.Store tx.old.conn.now) →
        OnOk result (MakesOn rows (created schema table) (state S.Store tx.old.conn.now)
        (state S.Store tx.new.conn.now)) }
    ensures kept { HasCleanDisk (state S.Store tx.new.conn.now) →
        KeepsCommit (state S.Store tx.old.conn.now) (state S.Store tx.new.conn.now) }
    ensures survives { Survives (state S.Store tx.old.conn.now) (state S.Store tx.new.conn.now) Never }
    ensures leaves { StatementLeaves (state S.Store tx.old.conn.now) (state S.Store tx.new.conn.now) result }
{
    tx.execute(text, &[])
}

// Makes these tables one after another.
fn make_all<S: Alter>(tx: &mut Transaction<'_, S>, definitions: &[Definition]) -> Result<(), Error>
    ensures same_reference { tx.new.conn.ghost_name ≡ tx.old.conn.ghost_name }
    ensures makes { HasCleanDisk (state S.Store tx.new.conn.now) →
        (rows : Trees) (begun tables : List Table) →
        Make begun definitions.now tables → HaveNoRows tables rows →
        HasMade rows (schema_with begun) (state S.Store tx.old.conn.now) →
        OnOk result (MakesOn rows (schema_with (begun ++ tables)) (state S.Store tx.old.conn.now)
        (state S.Store tx.new.conn.now)) }
    ensures kept { HasCleanDisk (state S.Store tx.new.conn.now) →
        KeepsCommit (state S.Store tx.old.conn.now) (state S.Store tx.new.conn.now) }
    ensures survives { Survives (state S.Store tx.old.conn.now) (state S.Store tx.new.conn.now) Never }
    ensures fault { (rows : Trees) (begun tables rest : List Table) → Make begun definitions.now tables →
        HaveNoRows tables rows → hub_tables ≡ begun ++ (tables ++ rest) →
        HasCleanDisk (state S.Store tx.new.conn.now) →
        HasMade rows (schema_with begun) (state S.Store tx.old.conn.now) →
        OnErr result (MakesFirstTables rows (state S.Store tx.old.conn.now) (state S.Store tx.new.conn.now)
        ⊎ IsUndone (state S.Store tx.old.conn.now) (state S.Store tx.new.conn.now)) }
    ensures ended { (state S.Store tx.old.conn.now).in_transaction ≡ false →
        OnOk result (definitions.now ≡ [])
        × ShowsTheSame (state S.Store tx.old.conn.now) (state S.Store tx.new.conn.now) }
{
    let [definition, definitions @ ..] = definitions else {
        return Ok(());
    };
    create(tx, definition.text)?;
    make_all(tx, definitions)
}

// Inserts the number of the schema into its table.
fn put_number<S: Alter>(tx: &mut Transaction<'_, S>) -> Result<usize, Error>
    ensures same_reference { tx.new.conn.ghost_name ≡ tx.old.conn.ghost_name }
    ensures makes { HasCleanDisk (state S.Store tx.new.conn.now) →
        HasMade no_trees hub_schema (state S.Store tx.old.conn.now) →
        OnOk result (Makes (λ _. empty) (state S.Store tx.old.conn.now) (state S.Store tx.new.conn.now)) }
    ensures kept { HasCleanDisk (state S.Store tx.new.conn.now) →
        KeepsCommit (state S.Store tx.old.conn.now) (state S.Store tx.new.conn.now) }
    ensures survives { Survives (state S.Store tx.old.conn.now) (state S.Store tx.new.conn.now) Never }
    ensures leaves { LeavesTables no_trees hub_tables
        (state S.Store tx.old.conn.now) (state S.Store tx.new.conn.now)
        result }
{
    tx.execute("INSERT INTO schema (number) VALUES (3)", &[])
}

/// Sets the number of the schema, the only row of its table, to 3. No other row changes.
pub fn set_number<S: Alter>(tx: &mut Transaction<'_, S>) -> Result<usize, Error>
    ensures same_reference { tx.new.conn.ghost_name ≡ tx.old.conn.ghost_name }
    ensures makes { HasCleanDisk (state S.Store tx.new.conn.now) → (number : ℕ) (rows : Trees) →
        HasNumber number rows → AreOrdered rows → HasMade rows hub_schema (state S.Store tx.old.conn.now) →
        OnOk result (Makes (λ _. tables_in rows)
        (state S.Store tx.old.conn.now) (state S.Store tx.new.conn.now)) }
    ensures kept { HasCleanDisk (state S.Store tx.new.conn.now) →
        KeepsCommit (state S.Store tx.old.conn.now) (state S.Store tx.new.conn.now) }
    ensures survives { Survives (state S.Store tx.old.conn.now) (state S.Store tx.new.conn.now) Never }
    ensures leaves { (rows : Trees) →
        LeavesTables rows hub_tables (state S.Store tx.old.conn.now) (state S.Store tx.new.conn.now) result }
{
    tx.execute("UPDATE schema SET number = 3", &[])
}

/// Makes the tables of schema 3 in a database that has no tables. Their only row is the schema's number.
pub fn make_tables<S: Alter>(tx: &mut Transaction<'_, S>) -> Result<(), Error>
    ensures same_reference { tx.new.conn.ghost_name ≡ tx.old.conn.ghost_name }
    ensures makes { HasCleanDisk (state S.Store tx.new.conn.now) →
        HasMade no_trees no_schema (state S.Store tx.old.conn.now) →
        OnOk result (Makes (λ _. empty) (state S.Store tx.old.conn.now) (state S.Store tx.new.conn.now)) }
    ensures kept { HasCleanDisk (state S.Store tx.new.conn.now) →
        KeepsCommit (state S.Store tx.old.conn.now) (state S.Store tx.new.conn.now) }
    ensures survives { Survives (state S.Store tx.old.conn.now) (state S.Store tx.new.conn.now) Never }
    ensures leaves { LeavesTables no_trees []
        (state S.Store tx.old.conn.now) (state S.Store tx.new.conn.now) result }
{
    make_all(tx, all())?;
    put_number(tx)?;
    Ok(())
}

/// Makes the missing tables of the register in a database of schema 1, without rows, and sets the schema's number to 3.
pub fn make_party_tables<S: Alter>(tx: &mut Transaction<'_, S>) -> Result<(), Error>
    ensures same_reference { tx.new.conn.ghost_name ≡ tx.old.conn.ghost_name }
    ensures makes { HasCleanDisk (state S.Store tx.new.conn.now) → IsOldHub (state S.Store tx.old.conn.now) →
        IsTrue (state S.Store tx.old.conn.now).in_transaction →
        OnOk result (Makes (λ _. traffic_in (state S.Store tx.old.conn.now).now.trees)
        (state S.Store tx.old.conn.now) (state S.Store tx.new.conn.now)) }
    ensures kept { HasCleanDisk (state S.Store tx.new.conn.now) →
        KeepsCommit (state S.Store tx.old.conn.now) (state S.Store tx.new.conn.now) }
    ensures survives { Survives (state S.Store tx.old.conn.now) (state S.Store tx.new.conn.now) Never }
    ensures leaves { LeavesTables (traffic_rows (state S.Store tx.old.conn.now).now.trees) traffic_tables
        (state S.Store tx.old.conn.now) (state S.Store tx.new.conn.now) result }
{
    make_all(tx, parties())?;
    set_number(tx)?;
    Ok(())
}
