//! Looks up the register: the hub's row, the keys of suppliers and their company prefixes.
ghost use Rattle.std.specs.Prelude.{◌≡◌, false, IsTrue, IfOk};
ghost use Rattle.std.specs.List.{list_all};
ghost use Rattle.sqlite.specs.Held.{state};
ghost use Rattle.hub_store.specs.Clean.{clean_hub, clean_key, clean_prefix};
ghost use Rattle.hub_founding.specs.Founding.{IsHeldBy, HoldsNone};
ghost use Rattle.hub_schema.specs.State.{LooksIn};
ghost use Rattle.hub_tables.specs.Sets.{Rising};

use edi_base::Items;
use hub_founding::register_of;
use hub_register::Register;
use hub_rows::rows_of;
use hub_store::StoreFault;
use hub_tables::{HubRow, KeyRow, PrefixRow};
use sqlite::{Alter, Connection};
use std::alloc::Global;

/// Returns the hub's rows, by GLN.
pub fn all_hubs<S: Alter>(
    conn: &mut Connection<S>,
    alloc: Global,
) -> Result<Items<HubRow>, StoreFault>
    ensures looks { LooksIn (λ t rows. rows ≡ t.hubs) (λ t. list_all clean_hub t.hubs ≡ false)
        (state S.Store conn.old) (state S.Store conn.new) result }
    ensures clean { IfOk result (λ rows. IsTrue (list_all clean_hub rows)) }
{
    rows_of(
        conn,
        alloc,
        "SELECT hub, retailer, \"key\" FROM hub ORDER BY hub",
        &[],
    )
}

/// Returns the keys of all suppliers, by supplier.
pub fn all_keys<S: Alter>(
    conn: &mut Connection<S>,
    alloc: Global,
) -> Result<Items<KeyRow>, StoreFault>
    ensures looks { LooksIn (λ t rows. rows ≡ t.keys) (λ t. list_all clean_key t.keys ≡ false)
        (state S.Store conn.old) (state S.Store conn.new) result }
    ensures clean { IfOk result (λ rows. IsTrue (list_all clean_key rows)) }
{
    rows_of(
        conn,
        alloc,
        "SELECT supplier, \"key\" FROM supplier ORDER BY supplier",
        &[],
    )
}

/// Returns the company prefixes of all suppliers, by prefix.
pub fn all_prefixes<S: Alter>(
    conn: &mut Connection<S>,
    alloc: Global,
) -> Result<Items<PrefixRow>, StoreFault>
    ensures looks { LooksIn (λ t rows. rows ≡ t.prefixes) (λ t. list_all clean_prefix t.prefixes ≡ false)
        (state S.Store conn.old) (state S.Store conn.new) result }
    ensures clean { IfOk result (λ rows. IsTrue (list_all clean_prefix rows)) }
{
    rows_of(
        conn,
        alloc,
        "SELECT prefix, supplier FROM prefix ORDER BY prefix",
        &[],
    )
}

// Makes the register of the hub's rows and keys, with the prefixes that exist.
fn register_by<S: Alter>(
    conn: &mut Connection<S>,
    alloc: Global,
    hubs: &[HubRow],
    keys: &[KeyRow],
) -> Result<Option<Register>, StoreFault>
    ensures { LooksIn (λ t register. t.hubs ≡ hubs.now → t.keys ≡ keys.now → Rising t →
        IsHeldBy t register) HoldsNone
        (state S.Store conn.old) (state S.Store conn.new) result }
{
    let prefixes = all_prefixes(conn, alloc)?;
    Ok(register_of(alloc, hubs, keys, prefixes.as_slice())?)
}

// Makes the register of the hub's rows, with the keys and prefixes that exist.
fn register_of_hubs<S: Alter>(
    conn: &mut Connection<S>,
    alloc: Global,
    hubs: &[HubRow],
) -> Result<Option<Register>, StoreFault>
    ensures { LooksIn (λ t register. t.hubs ≡ hubs.now → Rising t → IsHeldBy t register) HoldsNone
        (state S.Store conn.old) (state S.Store conn.new) result }
{
    let keys = all_keys(conn, alloc)?;
    register_by(conn, alloc, hubs, keys.as_slice())
}

/// Returns the register that the rows hold, or `None` if they hold none.
pub fn register<S: Alter>(
    conn: &mut Connection<S>,
    alloc: Global,
) -> Result<Option<Register>, StoreFault>
    ensures { LooksIn IsHeldBy HoldsNone (state S.Store conn.old) (state S.Store conn.new) result }
{
    let hubs = all_hubs(conn, alloc)?;
    register_of_hubs(conn, alloc, hubs.as_slice())
}
