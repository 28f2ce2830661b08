//! Remembers messages and cancellations.
ghost use Rattle.std.specs.Prelude.{◌≡◌, ◌∷◌, []};
ghost use Rattle.sqlite.specs.Held.{state};
ghost use Rattle.hub_tables.specs.declared.change.Change.TheVariants.{Remember};
ghost use Rattle.hub_writes.specs.Acts.{Acts};

use crate::faults::insert_ended;
use crate::values::{gln_value, side_value, text_value};
use hub_store::StoreFault;
use hub_tables::RememberedRow;
use sqlite::{Alter, Transaction};

/// Remembers a message or a cancellation.
pub fn remember<S: Alter>(
    tx: &mut Transaction<'_, S>,
    row: &RememberedRow,
) -> Result<(), StoreFault>
    ensures same_reference { tx.new.conn.ghost_name ≡ tx.old.conn.ghost_name }
    ensures acts { Acts (Remember row.now ∷ [])
        (state S.Store tx.old.conn.now) (state S.Store tx.new.conn.now) result }
{
    let supplier = gln_value(&row.supplier);
    let side = side_value(&row.side);
    let control = text_value(&row.control);
    let message = text_value(&row.message);
    let content = text_value(&row.content);
    insert_ended(tx.execute(
        "INSERT INTO remembered (supplier, side, control, message, content) VALUES (?1, ?2, ?3, ?4, ?5)",
        &[supplier, side, control, message, content],
    ))
}
