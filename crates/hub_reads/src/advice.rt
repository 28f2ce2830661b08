//! Looks up despatch advices.
ghost use Rattle.sqlite.specs.Held.{state};
ghost use Rattle.hub_schema.specs.State.{LooksUp};
ghost use Rattle.hub_tables.specs.State.{knows_advice};
ghost use Rattle.hub_tables.specs.Tables.{view};

use gs1_ids::Gln;
use hub_rows::has_row;
use hub_store::StoreFault;
use sqlite::types::ValueRef;
use sqlite::{Alter, Connection};

/// Whether the supplier has a despatch advice of this number.
pub fn advice_known<S: Alter>(
    conn: &mut Connection<S>,
    supplier: &Gln,
    number: &[u8],
) -> Result<bool, StoreFault>
    ensures looks { LooksUp (λ t. knows_advice (view supplier.now t) number.now)
        (state S.Store conn.old) (state S.Store conn.new) result }
{
    has_row(
        conn,
        "SELECT number FROM advice WHERE supplier = ?1 AND number = ?2",
        &[ValueRef::Blob(supplier.digits()), ValueRef::Blob(number)],
    )
}
