//! Writes order lines.
ghost use Rattle.std.specs.Prelude.{◌≡◌, ◌∷◌, []};
ghost use Rattle.sqlite.specs.Held.{state};
ghost use Rattle.hub_tables.specs.declared.change.Change.TheVariants.{AddLine, SetLine};
ghost use Rattle.hub_writes.specs.Acts.{Acts};
ghost use Rattle.hub_writes.specs.Line as spec;
ghost use Rattle.sqlite.specs.Values.{bound};

use crate::faults::{insert_ended, update_ended};
use crate::values::{answer_value, count_value, gln_value, gtin_value, text_value};
use hub_store::StoreFault;
use hub_tables::LineRow;
use sqlite::{Alter, Transaction};
use sqlite_value::value::ValueRef;

// Returns the values of a line.
fn cells(row: &LineRow) -> [ValueRef<'_>; 9]
    ensures cells { bound result ≡ spec.cells row.now }
    ensures low { spec.IsLowLine row.now }
{
    let supplier = gln_value(&row.supplier);
    let number = text_value(&row.number);
    let line = count_value(row.line);
    let gtin = gtin_value(&row.gtin);
    let ordered = count_value(row.ordered);
    let open_qty = count_value(row.open_qty);
    let refused = count_value(row.refused);
    let cancelled = count_value(row.cancelled);
    let answer = answer_value(&row.answer);
    [
        supplier, number, line, gtin, ordered, open_qty, refused, cancelled, answer,
    ]
}

/// Adds an order line.
pub fn add_line<S: Alter>(tx: &mut Transaction<'_, S>, row: &LineRow) -> Result<(), StoreFault>
    ensures same_reference { tx.new.conn.ghost_name ≡ tx.old.conn.ghost_name }
    ensures acts { Acts (AddLine row.now ∷ [])
        (state S.Store tx.old.conn.now) (state S.Store tx.new.conn.now) result }
{
    insert_ended(tx.execute(
        "INSERT INTO line (supplier, number, line, gtin, ordered, open_qty, refused, cancelled, answer) \
            VALUES (?1, ?2, ?3, ?4, ?5, ?6, ?7, ?8, ?9)",
        &cells(row),
    ))
}

/// Replaces the values of the line with this key.
pub fn set_line<S: Alter>(tx: &mut Transaction<'_, S>, row: &LineRow) -> Result<(), StoreFault>
    ensures same_reference { tx.new.conn.ghost_name ≡ tx.old.conn.ghost_name }
    ensures acts { Acts (SetLine row.now ∷ [])
        (state S.Store tx.old.conn.now) (state S.Store tx.new.conn.now) result }
{
    update_ended(tx.execute(
        "UPDATE line SET gtin = ?4, ordered = ?5, open_qty = ?6, refused = ?7, cancelled = ?8, answer = ?9 \
            WHERE supplier = ?1 AND number = ?2 AND line = ?3",
        &cells(row),
    ))
}
