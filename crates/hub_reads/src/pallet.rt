//! Looks up pallets.
ghost use Rattle.std.specs.Prelude.{IsTrue, IfOk, IfSome};
ghost use Rattle.std.specs.List.{list_all};
ghost use Rattle.sqlite.specs.Held.{state};
ghost use Rattle.hub_store.specs.Clean.{clean_pallet};
ghost use Rattle.hub_schema.specs.State.{LooksUp};
ghost use Rattle.hub_tables.specs.State.{pallet_of as pallet};
ghost use Rattle.hub_tables.specs.Tables.{holds, view, has_pallet};

use edi_base::Items;
use gs1_ids::{Gln, Sscc};
use hub_rows::{first_of, has_row, rows_of};
use hub_store::StoreFault;
use hub_tables::PalletRow;
use sqlite::types::ValueRef;
use sqlite::{Alter, Connection};
use std::alloc::Global;

/// Whether any supplier has a pallet with this SSCC.
pub fn used<S: Alter>(conn: &mut Connection<S>, sscc: &Sscc) -> Result<bool, StoreFault>
    ensures looks { LooksUp (λ t. has_pallet t sscc.now)
        (state S.Store conn.old) (state S.Store conn.new) result }
{
    has_row(
        conn,
        "SELECT supplier FROM pallet WHERE sscc = ?1",
        &[ValueRef::Blob(sscc.digits())],
    )
}

/// Whether the supplier has a pallet with this SSCC.
pub(crate) fn is_held<S: Alter>(
    conn: &mut Connection<S>,
    supplier: &Gln,
    sscc: &Sscc,
) -> Result<bool, StoreFault>
    ensures looks { LooksUp (λ t. holds supplier.now t.pallets sscc.now)
        (state S.Store conn.old) (state S.Store conn.new) result }
{
    has_row(
        conn,
        "SELECT supplier FROM pallet WHERE sscc = ?1 AND supplier = ?2",
        &[
            ValueRef::Blob(sscc.digits()),
            ValueRef::Blob(supplier.digits()),
        ],
    )
}

/// Returns the supplier's pallet with an SSCC, if it has one.
pub fn pallet_of<S: Alter>(
    conn: &mut Connection<S>,
    supplier: &Gln,
    sscc: &Sscc,
) -> Result<Option<PalletRow>, StoreFault>
    ensures looks { LooksUp (λ t. pallet (view supplier.now t) sscc.now)
        (state S.Store conn.old) (state S.Store conn.new) result }
    ensures clean { IfOk result (λ found. IfSome found (λ row. IsTrue (clean_pallet row))) }
{
    first_of(
        conn,
        "SELECT sscc, supplier, advice, received FROM pallet WHERE sscc = ?1 AND supplier = ?2",
        &[
            ValueRef::Blob(sscc.digits()),
            ValueRef::Blob(supplier.digits()),
        ],
    )
}

/// Returns the pallets of the supplier, by SSCC.
pub fn all_pallets<S: Alter>(
    conn: &mut Connection<S>,
    alloc: Global,
    supplier: &Gln,
) -> Result<Items<PalletRow>, StoreFault>
    ensures looks { LooksUp (λ t. (view supplier.now t).pallets)
        (state S.Store conn.old) (state S.Store conn.new) result }
    ensures clean { IfOk result (λ rows. IsTrue (list_all clean_pallet rows)) }
{
    rows_of(
        conn,
        alloc,
        "SELECT sscc, supplier, advice, received FROM pallet WHERE supplier = ?1 ORDER BY sscc",
        &[ValueRef::Blob(supplier.digits())],
    )
}
