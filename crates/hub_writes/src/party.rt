//! Writes the hub's row, the suppliers' keys and their company prefixes.
ghost use Rattle.std.specs.Prelude.{◌≡◌, ◌∷◌, []};
ghost use Rattle.sqlite.specs.Held.{state};
ghost use Rattle.hub_tables.specs.declared.change.Change.TheVariants.{AddHub, SetHub, AddKey, SetKey, AddPrefix};
ghost use Rattle.hub_writes.specs.Acts.{Acts};
ghost use Rattle.hub_writes.specs.Party as spec;
ghost use Rattle.sqlite.specs.Values.{bound};

use crate::faults::{insert_ended, update_ended};
use crate::values::{gln_value, key_value, prefix_value};
use hub_store::StoreFault;
use hub_tables::{HubRow, KeyRow, PrefixRow};
use sqlite::{Alter, Transaction};
use sqlite_value::value::ValueRef;

fn hub_cells(row: &HubRow) -> [ValueRef<'_>; 3]
    ensures { bound result ≡ spec.hub_cells row.now }
{
    let hub = gln_value(&row.hub);
    let retailer = gln_value(&row.retailer);
    let key = key_value(&row.key);
    [hub, retailer, key]
}

/// Adds the hub's row.
pub fn add_hub<S: Alter>(tx: &mut Transaction<'_, S>, row: &HubRow) -> Result<(), StoreFault>
    ensures same_reference { tx.new.conn.ghost_name ≡ tx.old.conn.ghost_name }
    ensures acts { Acts (AddHub row.now ∷ [])
        (state S.Store tx.old.conn.now) (state S.Store tx.new.conn.now) result }
{
    insert_ended(tx.execute(
        "INSERT INTO hub (hub, retailer, \"key\") VALUES (?1, ?2, ?3)",
        &hub_cells(row),
    ))
}

/// Replaces the values of the hub's row with this key.
pub fn set_hub<S: Alter>(tx: &mut Transaction<'_, S>, row: &HubRow) -> Result<(), StoreFault>
    ensures same_reference { tx.new.conn.ghost_name ≡ tx.old.conn.ghost_name }
    ensures acts { Acts (SetHub row.now ∷ [])
        (state S.Store tx.old.conn.now) (state S.Store tx.new.conn.now) result }
{
    update_ended(tx.execute(
        "UPDATE hub SET retailer = ?2, \"key\" = ?3 WHERE hub = ?1",
        &hub_cells(row),
    ))
}

fn key_cells(row: &KeyRow) -> [ValueRef<'_>; 2]
    ensures { bound result ≡ spec.key_cells row.now }
{
    let supplier = gln_value(&row.supplier);
    let key = key_value(&row.key);
    [supplier, key]
}

/// Adds the key of a supplier.
pub fn add_key<S: Alter>(tx: &mut Transaction<'_, S>, row: &KeyRow) -> Result<(), StoreFault>
    ensures same_reference { tx.new.conn.ghost_name ≡ tx.old.conn.ghost_name }
    ensures acts { Acts (AddKey row.now ∷ [])
        (state S.Store tx.old.conn.now) (state S.Store tx.new.conn.now) result }
{
    insert_ended(tx.execute(
        "INSERT INTO supplier (supplier, \"key\") VALUES (?1, ?2)",
        &key_cells(row),
    ))
}

/// Sets the key of a supplier.
pub fn set_key<S: Alter>(tx: &mut Transaction<'_, S>, row: &KeyRow) -> Result<(), StoreFault>
    ensures same_reference { tx.new.conn.ghost_name ≡ tx.old.conn.ghost_name }
    ensures acts { Acts (SetKey row.now ∷ [])
        (state S.Store tx.old.conn.now) (state S.Store tx.new.conn.now) result }
{
    update_ended(tx.execute(
        "UPDATE supplier SET \"key\" = ?2 WHERE supplier = ?1",
        &key_cells(row),
    ))
}

/// Adds a company prefix.
pub fn add_prefix<S: Alter>(tx: &mut Transaction<'_, S>, row: &PrefixRow) -> Result<(), StoreFault>
    ensures same_reference { tx.new.conn.ghost_name ≡ tx.old.conn.ghost_name }
    ensures acts { Acts (AddPrefix row.now ∷ []) (state S.Store tx.old.conn.now)
        (state S.Store tx.new.conn.now) result }
{
    let prefix = prefix_value(&row.prefix);
    let supplier = gln_value(&row.supplier);
    insert_ended(tx.execute(
        "INSERT INTO prefix (prefix, supplier) VALUES (?1, ?2)",
        &[prefix, supplier],
    ))
}
