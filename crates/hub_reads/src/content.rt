//! Looks up the contents of pallets.
ghost use Rattle.std.specs.Prelude.{IsTrue, IfOk};
ghost use Rattle.std.specs.List.{list_all};
ghost use Rattle.sqlite.specs.Held.{state};
ghost use Rattle.hub_store.specs.Clean.{clean_content};
ghost use Rattle.hub_schema.specs.State.{LooksUp};
ghost use Rattle.hub_tables.specs.State.{contents_of as contents};
ghost use Rattle.hub_tables.specs.Tables.{view};

use crate::pallet::is_held;
use edi_base::Items;
use gs1_ids::{Gln, Sscc};
use hub_rows::rows_of;
use hub_store::StoreFault;
use hub_tables::ContentRow;
use sqlite::types::ValueRef;
use sqlite::{Alter, Connection};
use std::alloc::Global;

/// Returns the contents of a pallet of any supplier, by place.
pub fn contents_on<S: Alter>(
    conn: &mut Connection<S>,
    alloc: Global,
    sscc: &Sscc,
) -> Result<Items<ContentRow>, StoreFault>
    ensures looks { LooksUp (λ t. contents t sscc.now)
        (state S.Store conn.old) (state S.Store conn.new) result }
    ensures clean { IfOk result (λ rows. IsTrue (list_all clean_content rows)) }
{
    rows_of(
        conn,
        alloc,
        "SELECT sscc, place, number, line, quantity FROM content WHERE sscc = ?1 ORDER BY sscc, place",
        &[ValueRef::Blob(sscc.digits())],
    )
}

/// Returns the contents of a pallet, by place. There are none if the pallet is another supplier's.
pub fn contents_of<S: Alter>(
    conn: &mut Connection<S>,
    alloc: Global,
    supplier: &Gln,
    sscc: &Sscc,
) -> Result<Items<ContentRow>, StoreFault>
    ensures looks { LooksUp (λ t. contents (view supplier.now t) sscc.now)
        (state S.Store conn.old) (state S.Store conn.new) result }
    ensures clean { IfOk result (λ rows. IsTrue (list_all clean_content rows)) }
{
    let held = is_held(conn, supplier, sscc)?;
    if !held {
        return Ok(Items::new(alloc));
    }
    contents_on(conn, alloc, sscc)
}
