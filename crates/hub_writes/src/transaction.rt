//! Makes all changes of a commit in one transaction.
ghost use Rattle.std.specs.Prelude.{◌≡◌, false};
ghost use Rattle.sqlite.specs.Held.{state};
ghost use Rattle.hub_schema.specs.State.{CommitsTo};

use crate::changes::apply_all;
use crate::faults::call_ended;
use hub_store::StoreFault;
use hub_tables::Change;
use sqlite::{Alter, Connection};

/// Makes the changes: all of them at `Ok`, none after a fault.
pub fn commit<S: Alter>(conn: &mut Connection<S>, changes: &[Change]) -> Result<(), StoreFault>
    requires { (state S.Store conn.old).in_transaction ≡ false }
    ensures { CommitsTo changes.now (state S.Store conn.old) (state S.Store conn.new) result }
{
    // Only the contract of this call says whether a transaction is open.
    let _idle = conn.is_autocommit();
    let mut tx = conn.transaction();
    apply_all(&mut tx, changes)?;
    call_ended(tx.commit())
}
