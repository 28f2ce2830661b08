//! Reads the register that the rows hold.
ghost use Rattle.std.specs.Prelude.{Some};
ghost use Rattle.sqlite.specs.Held.{state};
ghost use Rattle.hub_founding.specs.Founding.{HoldsNone, IsHeldBy};
ghost use Rattle.hub_schema.specs.State.{LooksFor};

use hub_register::Register;
use hub_store::StoreFault;
use sqlite::{Alter, Connection};
use std::alloc::Global;

/// Returns the register that the rows hold. If they hold none any more, the storage has not returned what was written.
pub(crate) fn held_register<S: Alter>(
    conn: &mut Connection<S>,
    alloc: Global,
) -> Result<Register, StoreFault>
    ensures { LooksFor (λ t register. IsHeldBy t (Some register)) HoldsNone
        (state S.Store conn.old) (state S.Store conn.new)
        result }
{
    match hub_reads::register(conn, alloc) {
        Ok(Some(register)) => Ok(register),
        Ok(None) => Err(StoreFault::Unclean),
        Err(fault) => Err(fault),
    }
}
