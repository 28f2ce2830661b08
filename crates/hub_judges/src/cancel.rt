//! Decides on cancellations.
ghost use Rattle.std.specs.Prelude.{◌≡◌, [], ◌∷◌, IfOk, option_copied};
ghost use Rattle.hub_tables.specs.Tables.{Tables};
ghost use Rattle.hub_tables.specs.declared.change.Change.TheVariants.{Remember, SetLine};
ghost use Rattle.hub_rules.specs.RepeatRules.{remembered};
ghost use Rattle.hub_rules.specs.Rules as rules;
ghost use Rattle.hub_judges.specs.FromFacts.{of_line, cancelled_from};
ghost use Rattle.hub_judges.specs.Known.{TellsForCancel};

use crate::changes::both;
use crate::known::Known;
use crate::party::registered_supplier;
use crate::remembering::repeats;
use edi_base::{Items, MemoryFault, copy_bytes};
use hub_order_lines::copied_row;
use hub_parties::SupplierRow;
use hub_rules::{Cancel, Code, Verdict};
use hub_tables::{Change, Column, LineRow, RememberedRow, Side};
use std::alloc::Global;

// Returns the cancelled line as it is afterwards, or the rule that the cancellation breaks: B05, B06 or B17.
fn cancelled_line(
    alloc: Global,
    known: &Known,
    cancel: &Cancel,
) -> Result<Result<LineRow, Code>, MemoryFault>
    ensures { IfOk result (λ line. of_line line ≡ cancelled_from cancel.now known.now) }
{
    let order = cancel.order.as_slice();
    if !known.orders.has(order) {
        return Ok(Err(Code::NoOrder));
    }
    let line = match known.orders.line_numbered(order, cancel.line) {
        Some(line) => line,
        None => return Ok(Err(Code::NoLine)),
    };
    if line.row.open_qty < cancel.quantity {
        return Ok(Err(Code::CancelsMoreThanOpen));
    }
    let mut after = copied_row(alloc, &line.row)?;
    after.open_qty -= cancel.quantity;
    after.cancelled += cancel.quantity;
    Ok(Ok(after))
}

// Returns the changes for a cancellation that is accepted: it is remembered, and its line is set.
fn remember_and_set(
    alloc: Global,
    row: &SupplierRow,
    cancel: &Cancel,
    content: Items<u8>,
    after: LineRow,
) -> Result<Items<Change>, MemoryFault>
    ensures { IfOk result (λ changes.
        changes ≡ Remember (remembered (rules.cancelled_by row.now cancel.now) content) ∷ SetLine after ∷ []) }
{
    let remembered = RememberedRow {
        supplier: row.gln,
        side: Column::of(Side::Cancellation),
        control: copy_bytes(alloc, cancel.reference.as_slice())?,
        message: Items::new(alloc),
        content,
    };
    let changes = both(alloc, Change::Remember(remembered), Change::SetLine(after))?;
    Ok(changes)
}

/// Decides on a cancellation: checks B02, B03, B05, B06 and B17 in this order. `MemoryFault` if memory ran out.
#[tactic(auto, using(crate::proofs::Cancelled::cancel_alike))]
pub fn judge_cancel(
    alloc: Global,
    supplier: Option<&SupplierRow>,
    known: &Known,
    content: Items<u8>,
    cancel: &Cancel,
) -> Result<Verdict, MemoryFault>
    ensures { IfOk result (λ verdict. (state : Tables) → TellsForCancel known.now content cancel.now state →
        verdict ≡ rules.judge_cancel (option_copied supplier.entry) content cancel.now state) }
{
    let row = match registered_supplier(supplier, &cancel.supplier) {
        Ok(row) => row,
        Err(code) => return Ok(Verdict::Refuse(code)),
    };
    if let Some(verdict) = repeats(alloc, known.remembered) {
        return Ok(verdict);
    }
    let after = match cancelled_line(alloc, known, cancel)? {
        Ok(after) => after,
        Err(code) => return Ok(Verdict::Refuse(code)),
    };
    let changes = remember_and_set(alloc, row, cancel, content, after)?;
    Ok(Verdict::Accept(changes))
}
