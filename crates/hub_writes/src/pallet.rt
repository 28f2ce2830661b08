//! Writes pallets.
ghost use Rattle.std.specs.Prelude.{◌≡◌, ◌∷◌, []};
ghost use Rattle.sqlite.specs.Held.{state};
ghost use Rattle.hub_tables.specs.declared.change.Change.TheVariants.{AddPallet, SetPallet};
ghost use Rattle.hub_writes.specs.Acts.{Acts};
ghost use Rattle.hub_writes.specs.Pallet as spec;
ghost use Rattle.sqlite.specs.Values.{bound};

use crate::faults::{insert_ended, update_ended};
use crate::values::{arrival_value, gln_value, sscc_value, text_value};
use hub_store::StoreFault;
use hub_tables::PalletRow;
use sqlite::{Alter, Transaction};
use sqlite_value::value::ValueRef;

// Returns the values of a pallet.
fn cells(row: &PalletRow) -> [ValueRef<'_>; 4]
    ensures cells { bound result ≡ spec.cells row.now }
    ensures low { spec.IsLowPallet row.now }
{
    let sscc = sscc_value(&row.sscc);
    let supplier = gln_value(&row.supplier);
    let advice = text_value(&row.advice);
    let received = arrival_value(&row.received);
    [sscc, supplier, advice, received]
}

/// Adds a pallet.
pub fn add_pallet<S: Alter>(tx: &mut Transaction<'_, S>, row: &PalletRow) -> Result<(), StoreFault>
    ensures same_reference { tx.new.conn.ghost_name ≡ tx.old.conn.ghost_name }
    ensures acts { Acts (AddPallet row.now ∷ []) (state S.Store tx.old.conn.now)
        (state S.Store tx.new.conn.now) result }
{
    insert_ended(tx.execute(
        "INSERT INTO pallet (sscc, supplier, advice, received) VALUES (?1, ?2, ?3, ?4)",
        &cells(row),
    ))
}

/// Replaces the values of the pallet with this key.
pub fn set_pallet<S: Alter>(tx: &mut Transaction<'_, S>, row: &PalletRow) -> Result<(), StoreFault>
    ensures same_reference { tx.new.conn.ghost_name ≡ tx.old.conn.ghost_name }
    ensures acts { Acts (SetPallet row.now ∷ []) (state S.Store tx.old.conn.now)
        (state S.Store tx.new.conn.now) result }
{
    update_ended(tx.execute(
        "UPDATE pallet SET supplier = ?2, advice = ?3, received = ?4 WHERE sscc = ?1",
        &cells(row),
    ))
}
