//! Reads the register that the rows hold.
ghost use Rattle.std.specs.Prelude.{◌≡◌, IfErr};
ghost use Rattle.hub_schema.specs.State.{LooksFor, Never};
ghost use Rattle.hub_tables.specs.Sets.{Rising};
ghost use Rattle.hub_founding.specs.Founding.{IsHeldBy};
ghost use Rattle.hub_pieces.specs.AllRows.{IsReadFault};
ghost use Rattle.sqlite.specs.Held.{state};

use crate::kinds::{every_hub, every_prefix, every_supplier};
use hub_founding::register_of;
use hub_pieces::Read;
use hub_register::Register;
use hub_store::StoreFault;
use hub_tables::{HubRow, KeyRow};
use sqlite::{Alter, Connection};
use std::alloc::Global;

// The register of the hub's rows and keys, with the prefixes that are there.
fn register_by<S: Alter>(
    conn: &mut Connection<S>,
    alloc: Global,
    hubs: &[HubRow],
    keys: &[KeyRow],
) -> Result<Option<Register>, StoreFault>
    ensures looks { LooksFor
        (λ t register. t.hubs ≡ hubs.now → t.keys ≡ keys.now → Rising t → IsHeldBy t register) Never
        (state S.Store conn.old) (state S.Store conn.new) result }
    ensures fails { IfErr result IsReadFault }
{
    match every_prefix(conn, alloc)? {
        Read::Rows(prefixes) => Ok(register_of(alloc, hubs, keys, prefixes.as_slice())?),
        Read::Unclean(_key) => Ok(None),
    }
}

// The register of the hub's rows, with the keys and prefixes that are there.
fn register_of_hubs<S: Alter>(
    conn: &mut Connection<S>,
    alloc: Global,
    hubs: &[HubRow],
) -> Result<Option<Register>, StoreFault>
    ensures looks { LooksFor (λ t register. t.hubs ≡ hubs.now → Rising t → IsHeldBy t register) Never
        (state S.Store conn.old) (state S.Store conn.new) result }
    ensures fails { IfErr result IsReadFault }
{
    match every_supplier(conn, alloc)? {
        Read::Rows(keys) => register_by(conn, alloc, hubs, keys.as_slice()),
        Read::Unclean(_key) => Ok(None),
    }
}

/// Returns the register that the rows hold; `None` if they hold none, for example if one of them lacks
/// the form of its kind.
pub(crate) fn register<S: Alter>(
    conn: &mut Connection<S>,
    alloc: Global,
) -> Result<Option<Register>, StoreFault>
    ensures looks { LooksFor IsHeldBy Never (state S.Store conn.old) (state S.Store conn.new) result }
    ensures fails { IfErr result IsReadFault }
{
    match every_hub(conn, alloc)? {
        Read::Rows(hubs) => register_of_hubs(conn, alloc, hubs.as_slice()),
        Read::Unclean(_key) => Ok(None),
    }
}
