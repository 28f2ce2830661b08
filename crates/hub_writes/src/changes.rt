//! Makes changes, each with one statement.
ghost use Rattle.std.specs.Prelude.{◌≡◌, ◌∷◌, [], IsTrue, OnOk};
ghost use Rattle.sqlite.specs.Held.{state};
ghost use Rattle.sqlite.specs.State.{HasCleanDisk};
ghost use Rattle.hub_writes.specs.Acts.{Acts};

use crate::advice::add_advice;
use crate::content::add_content;
use crate::faults::statement_ended;
use crate::line::{add_line, set_line};
use crate::mail::{add_mail, set_mail};
use crate::order::add_order;
use crate::pallet::{add_pallet, set_pallet};
use crate::party::{add_hub, add_key, add_prefix, set_hub, set_key};
use crate::receipt::{add_receipt, clear_receipts};
use crate::remembered::remember;
use hub_store::StoreFault;
use hub_tables::Change;
use sqlite::{Alter, Transaction};

/// Runs a statement that does nothing, which succeeds only if the connection is open and in a transaction.
fn touch<S: Alter>(tx: &mut Transaction<'_, S>) -> Result<(), StoreFault>
    ensures same_reference { tx.new.conn.ghost_name ≡ tx.old.conn.ghost_name }
    ensures acts { Acts [] (state S.Store tx.old.conn.now) (state S.Store tx.new.conn.now) result }
    ensures was_open { HasCleanDisk (state S.Store tx.new.conn.now) →
        OnOk result (IsTrue (state S.Store tx.old.conn.now).is_open
        × IsTrue (state S.Store tx.old.conn.now).in_transaction) }
{
    statement_ended(tx.execute("", &[]))
}

/// Makes one change.
pub fn apply<S: Alter>(tx: &mut Transaction<'_, S>, change: &Change) -> Result<(), StoreFault>
    ensures same_reference { tx.new.conn.ghost_name ≡ tx.old.conn.ghost_name }
    ensures acts { Acts (change.now ∷ [])
        (state S.Store tx.old.conn.now) (state S.Store tx.new.conn.now) result }
{
    match change {
        Change::AddHub(row) => add_hub(tx, row),
        Change::SetHub(row) => set_hub(tx, row),
        Change::AddKey(row) => add_key(tx, row),
        Change::SetKey(row) => set_key(tx, row),
        Change::AddPrefix(row) => add_prefix(tx, row),
        Change::AddOrder(row) => add_order(tx, row),
        Change::AddLine(row) => add_line(tx, row),
        Change::SetLine(row) => set_line(tx, row),
        Change::AddAdvice(row) => add_advice(tx, row),
        Change::AddPallet(row) => add_pallet(tx, row),
        Change::SetPallet(row) => set_pallet(tx, row),
        Change::AddContent(row) => add_content(tx, row),
        Change::AddReceipt(row) => add_receipt(tx, row),
        Change::ClearReceipts(sscc) => clear_receipts(tx, sscc),
        Change::Remember(row) => remember(tx, row),
        Change::AddMail(row) => add_mail(tx, row),
        Change::SetMail(row) => set_mail(tx, row),
    }
}

/// Makes the changes in order, up to the first that fails.
pub fn apply_all<S: Alter>(
    tx: &mut Transaction<'_, S>,
    changes: &[Change],
) -> Result<(), StoreFault>
    ensures same_reference { tx.new.conn.ghost_name ≡ tx.old.conn.ghost_name }
    ensures acts { Acts changes.now (state S.Store tx.old.conn.now) (state S.Store tx.new.conn.now) result }
    ensures was_open { HasCleanDisk (state S.Store tx.new.conn.now) →
        OnOk result (IsTrue (state S.Store tx.old.conn.now).is_open) }
{
    touch(tx)?;
    'changes: for change in changes {
        apply(tx, change)?;
    }
    Ok(())
}
