//! Writes contents of pallets.
ghost use Rattle.std.specs.Prelude.{◌≡◌, ◌∷◌, []};
ghost use Rattle.sqlite.specs.Held.{state};
ghost use Rattle.hub_tables.specs.declared.change.Change.TheVariants.{AddContent};
ghost use Rattle.hub_writes.specs.Acts.{Acts};

use crate::faults::insert_ended;
use crate::values::{count_value, sscc_value, text_value};
use hub_schema::StoredNumber;
use hub_store::StoreFault;
use hub_tables::ContentRow;
use sqlite::{Alter, Transaction};

/// Adds a content of a pallet.
pub fn add_content<S: Alter>(
    tx: &mut Transaction<'_, S>,
    row: &ContentRow,
) -> Result<(), StoreFault>
    ensures same_reference { tx.new.conn.ghost_name ≡ tx.old.conn.ghost_name }
    ensures acts { Acts (AddContent row.now ∷ []) (state S.Store tx.old.conn.now)
        (state S.Store tx.new.conn.now) result }
{
    let Some(stored) = StoredNumber::of(row.place) else {
        return Err(StoreFault::Unclean);
    };
    let sscc = sscc_value(&row.sscc);
    let place = stored.value();
    let number = text_value(&row.number);
    let line = count_value(row.line);
    let quantity = count_value(row.quantity);
    insert_ended(tx.execute(
        "INSERT INTO content (sscc, place, number, line, quantity) VALUES (?1, ?2, ?3, ?4, ?5)",
        &[sscc, place, number, line, quantity],
    ))
}
