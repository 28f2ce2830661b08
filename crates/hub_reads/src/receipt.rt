//! Looks up what was received of pallets.
ghost use Rattle.std.specs.Prelude.{IsTrue, IfOk};
ghost use Rattle.std.specs.List.{list_all};
ghost use Rattle.sqlite.specs.Held.{state};
ghost use Rattle.hub_store.specs.Clean.{clean_receipt};
ghost use Rattle.hub_schema.specs.State.{LooksUp};
ghost use Rattle.hub_tables.specs.State.{receipts_of as receipts};
ghost use Rattle.hub_tables.specs.Tables.{view};

use crate::pallet::is_held;
use edi_base::Items;
use gs1_ids::{Gln, Sscc};
use hub_rows::rows_of;
use hub_store::StoreFault;
use hub_tables::ReceiptRow;
use sqlite::types::ValueRef;
use sqlite::{Alter, Connection};
use std::alloc::Global;

/// Returns what was received of a pallet of any supplier, by item.
pub fn receipts_on<S: Alter>(
    conn: &mut Connection<S>,
    alloc: Global,
    sscc: &Sscc,
) -> Result<Items<ReceiptRow>, StoreFault>
    ensures looks { LooksUp (λ t. receipts t sscc.now)
        (state S.Store conn.old) (state S.Store conn.new) result }
    ensures clean { IfOk result (λ rows. IsTrue (list_all clean_receipt rows)) }
{
    rows_of(
        conn,
        alloc,
        "SELECT sscc, gtin, accepted, returned, destroyed FROM receipt WHERE sscc = ?1 ORDER BY sscc, gtin",
        &[ValueRef::Blob(sscc.digits())],
    )
}

/// Returns what was received of a pallet, by item. There is nothing if the pallet is another supplier's.
pub fn receipts_of<S: Alter>(
    conn: &mut Connection<S>,
    alloc: Global,
    supplier: &Gln,
    sscc: &Sscc,
) -> Result<Items<ReceiptRow>, StoreFault>
    ensures looks { LooksUp (λ t. receipts (view supplier.now t) sscc.now)
        (state S.Store conn.old) (state S.Store conn.new) result }
    ensures clean { IfOk result (λ rows. IsTrue (list_all clean_receipt rows)) }
{
    let own = is_held(conn, supplier, sscc)?;
    if !own {
        return Ok(Items::new(alloc));
    }
    receipts_on(conn, alloc, sscc)
}
