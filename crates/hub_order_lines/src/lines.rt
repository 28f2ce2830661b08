//! Copies rows of order lines.
ghost use Rattle.std.specs.Prelude.{◌≡◌, IfOk};

use edi_base::{Items, MemoryFault, copy_bytes};
use hub_tables::{Column, LineRow};
use std::alloc::Global;

/// Copies a row.
pub fn copied_row(alloc: Global, row: &LineRow) -> Result<LineRow, MemoryFault>
    ensures { IfOk result (λ copy. copy ≡ row.now) }
{
    Ok(LineRow {
        supplier: row.supplier,
        number: copy_bytes(alloc, row.number.as_slice())?,
        line: row.line,
        gtin: row.gtin,
        ordered: row.ordered,
        open_qty: row.open_qty,
        refused: row.refused,
        cancelled: row.cancelled,
        answer: Column::of(row.answer.case()),
    })
}
