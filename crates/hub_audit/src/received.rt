//! Looks up whether a pallet was received.
ghost use Rattle.hub_schema.specs.State.{LooksFor, Never};
ghost use Rattle.hub_sound.specs.HubRules.Sound.{was_received};
ghost use Rattle.sqlite.specs.Held.{state};
ghost use Rattle.std.specs.Prelude.{◌≡◌};

use gs1_ids::Sscc;
use hub_rows::has_row;
use hub_store::StoreFault;
use sqlite::types::ValueRef;
use sqlite::{Alter, Connection};

/// Whether a pallet with the SSCC was received.
pub(crate) fn has_received_pallet<S: Alter>(
    conn: &mut Connection<S>,
    sscc: &Sscc,
) -> Result<bool, StoreFault>
    ensures { LooksFor (λ t received. received ≡ was_received t sscc.now) Never
        (state S.Store conn.old) (state S.Store conn.new) result }
{
    has_row(
        conn,
        "SELECT supplier FROM pallet WHERE sscc = ?1 AND received <> 0",
        &[ValueRef::Blob(sscc.digits())],
    )
}
