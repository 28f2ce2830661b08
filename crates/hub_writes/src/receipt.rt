//! Writes receipts of articles.
ghost use Rattle.std.specs.Prelude.{◌≡◌, ◌∷◌, []};
ghost use Rattle.sqlite.specs.Held.{state};
ghost use Rattle.hub_tables.specs.declared.change.Change.TheVariants.{AddReceipt, ClearReceipts};
ghost use Rattle.hub_writes.specs.Acts.{Acts};

use crate::faults::{insert_ended, statement_ended};
use crate::values::{count_value, gtin_value, sscc_value};
use gs1_ids::Sscc;
use hub_store::StoreFault;
use hub_tables::ReceiptRow;
use sqlite::{Alter, Transaction};

/// Adds a receipt of an article on a pallet.
pub fn add_receipt<S: Alter>(
    tx: &mut Transaction<'_, S>,
    row: &ReceiptRow,
) -> Result<(), StoreFault>
    ensures same_reference { tx.new.conn.ghost_name ≡ tx.old.conn.ghost_name }
    ensures acts { Acts (AddReceipt row.now ∷ []) (state S.Store tx.old.conn.now)
        (state S.Store tx.new.conn.now) result }
{
    let sscc = sscc_value(&row.sscc);
    let gtin = gtin_value(&row.gtin);
    let accepted = count_value(row.accepted);
    let returned = count_value(row.returned);
    let destroyed = count_value(row.destroyed);
    insert_ended(tx.execute(
        "INSERT INTO receipt (sscc, gtin, accepted, returned, destroyed) VALUES (?1, ?2, ?3, ?4, ?5)",
        &[sscc, gtin, accepted, returned, destroyed],
    ))
}

/// Deletes all receipts of a pallet.
pub fn clear_receipts<S: Alter>(tx: &mut Transaction<'_, S>, sscc: &Sscc) -> Result<(), StoreFault>
    ensures same_reference { tx.new.conn.ghost_name ≡ tx.old.conn.ghost_name }
    ensures acts { Acts (ClearReceipts sscc.now ∷ []) (state S.Store tx.old.conn.now)
        (state S.Store tx.new.conn.now) result }
{
    let sscc = sscc_value(sscc);
    statement_ended(tx.execute("DELETE FROM receipt WHERE sscc = ?1", &[sscc]))
}
