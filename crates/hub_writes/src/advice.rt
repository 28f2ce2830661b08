//! Writes despatch advices.
ghost use Rattle.std.specs.Prelude.{◌≡◌, ◌∷◌, []};
ghost use Rattle.sqlite.specs.Held.{state};
ghost use Rattle.hub_tables.specs.declared.change.Change.TheVariants.{AddAdvice};
ghost use Rattle.hub_writes.specs.Acts.{Acts};

use crate::faults::insert_ended;
use crate::values::{gln_value, text_value};
use hub_store::StoreFault;
use hub_tables::AdviceRow;
use sqlite::{Alter, Transaction};

/// Adds a despatch advice.
pub fn add_advice<S: Alter>(tx: &mut Transaction<'_, S>, row: &AdviceRow) -> Result<(), StoreFault>
    ensures same_reference { tx.new.conn.ghost_name ≡ tx.old.conn.ghost_name }
    ensures acts { Acts (AddAdvice row.now ∷ []) (state S.Store tx.old.conn.now)
        (state S.Store tx.new.conn.now) result }
{
    let supplier = gln_value(&row.supplier);
    let number = text_value(&row.number);
    insert_ended(tx.execute(
        "INSERT INTO advice (supplier, number) VALUES (?1, ?2)",
        &[supplier, number],
    ))
}
