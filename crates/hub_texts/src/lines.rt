//! Writes the order lines of the status report.
ghost use Rattle.std.specs.Prelude.{◌≡◌, ◌++◌, IfOk, OnOk};
ghost use Rattle.std.specs.List.{AllByRecursion, flat_map};
ghost use Rattle.hub_tables.specs.Tables.{Tables};
ghost use Rattle.hub_law.specs.HubRules.Sound.{Balanced};
ghost use Rattle.hub_law.specs.StatusText.{line_text};
ghost use Rattle.hub_texts.specs.Lines as spec;

use crate::fields::{put_end, put_left, put_next, put_number};
use edi_base::MemoryFault;
use hub_tables::LineRow;

// Returns what is neither open nor refused nor cancelled of a line.
fn rest_of(row: &LineRow) -> u32
    ensures { result ≡ spec.rest_of row.now }
{
    row.ordered
        .saturating_sub(row.open_qty)
        .saturating_sub(row.refused)
        .saturating_sub(row.cancelled)
}

// Appends the beginning of a line's text, up to the answer.
fn put_place(out: &mut Vec<u8>, row: &LineRow) -> Result<(), MemoryFault>
    ensures { OnOk result (out.new.items ≡ out.old.items ++ spec.place_text row.now) }
{
    out.push(b'L')?;
    put_left(out, 35, row.number.as_slice())?;
    put_number(out, 6, row.line as u64)?;
    put_next(out, row.gtin.digits())?;
    put_next(out, &[row.answer.code()])?;
    Ok(())
}

// Appends the quantities of a line's text.
fn put_quantities(out: &mut Vec<u8>, row: &LineRow) -> Result<(), MemoryFault>
    ensures { OnOk result (out.new.items ≡ out.old.items
        ++ spec.quantities_text row.now (spec.rest_of row.now)) }
{
    put_number(out, 9, row.ordered as u64)?;
    put_number(out, 9, row.open_qty as u64)?;
    put_number(out, 9, row.refused as u64)?;
    put_number(out, 9, row.cancelled as u64)?;
    put_number(out, 9, rest_of(row) as u64)?;
    Ok(())
}

// Appends the text of a line.
fn put_row(out: &mut Vec<u8>, row: &LineRow) -> Result<(), MemoryFault>
    ensures { OnOk result (out.new.items ≡ out.old.items ++ spec.text_with row.now (spec.rest_of row.now)) }
{
    put_place(out, row)?;
    put_quantities(out, row)?;
    put_end(out)?;
    Ok(())
}

// Appends the texts of lines.
fn put_rows(out: &mut Vec<u8>, rows: &[LineRow]) -> Result<(), MemoryFault>
    ensures { OnOk result (out.new.items ≡ out.old.items
        ++ flat_map (λ row. spec.text_with row (spec.rest_of row)) rows.now) }
{
    for row in rows {
        put_row(out, row)?;
    }
    Ok(())
}

/// Appends the status report's lines for order lines to a text. Each order line must be balanced: what is despatched of
/// it is what is neither open nor refused nor cancelled. If memory runs out, the text is lost.
pub fn with_lines(lines: &[LineRow], text: Vec<u8>) -> Result<Vec<u8>, MemoryFault>
    ensures { (state : Tables) → AllByRecursion (Balanced state) lines.now →
        IfOk result (λ whole. whole.items ≡ text.items ++ flat_map (line_text state) lines.now) }
{
    let mut whole = text;
    put_rows(&mut whole, lines)?;
    Ok(whole)
}
