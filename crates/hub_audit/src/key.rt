//! Reads the key of a row, whatever its cells hold.
ghost use Rattle.std.specs.Prelude.{◌≡◌, IfOk, IfErr};
ghost use Rattle.hub_audit.specs.Key as spec;
ghost use Rattle.hub_schema.specs.Cells.{bytes_in, number_in};
ghost use Rattle.hub_sound.specs.Finding as finding;
ghost use Rattle.sqlite_value.specs.Order.{column};

use edi_base::Items;
use hub_rows::{blob_at, number_at};
use hub_sound::{KeyCell, bytes_cell, number_cell, with_cell};
use hub_store::StoreFault;
use sqlite::Row;
use std::alloc::Global;

/// What a column of a key has to hold.
#[derive(Clone, Copy)]
pub(crate) enum Part {
    /// A text.
    Text,
    /// A number.
    Number,
}

// The text of a column; `Other` if it holds none.
fn text_at(alloc: Global, row: &Row, at: usize) -> Result<KeyCell, StoreFault>
    ensures value { IfOk result (λ cell. cell ≡ finding.bytes_cell (bytes_in (column row.now at))) }
    ensures memory { IfErr result (λ fault. fault ≡ StoreFault.Memory) }
{
    let Ok(bytes) = blob_at(row, at) else {
        return Ok(KeyCell::Other);
    };
    let cell = bytes_cell(alloc, bytes)?;
    Ok(cell)
}

// The number of a column; `Other` if it holds none of 64 bits.
#[tactic(auto, using(crate::proofs::Keys::no_number))]
fn count_at(row: &Row, at: usize) -> Result<KeyCell, StoreFault>
    ensures value { IfOk result (λ cell. cell ≡ finding.number_cell (number_in (column row.now at))) }
    ensures memory { IfErr result (λ fault. fault ≡ StoreFault.Memory) }
{
    match number_at(row, at) {
        Ok(number) => Ok(number_cell(number)),
        Err(StoreFault::Unclean) => Ok(KeyCell::Other),
        Err(_refused) => Err(StoreFault::Memory),
    }
}

// A column of a key.
fn cell_at(alloc: Global, row: &Row, at: usize, part: Part) -> Result<KeyCell, StoreFault>
    ensures value { IfOk result (λ cell. cell ≡ spec.cell_in part (column row.now at)) }
    ensures memory { IfErr result (λ fault. fault ≡ StoreFault.Memory) }
{
    match part {
        Part::Text => text_at(alloc, row, at),
        Part::Number => count_at(row, at),
    }
}

/// Returns the key of a row, whose columns come first.
pub(crate) fn key_of(alloc: Global, row: &Row, parts: &[Part]) -> Result<Items<KeyCell>, StoreFault>
    ensures value { IfOk result (λ key. key ≡ spec.key_from 0 parts.now row.now) }
    ensures memory { IfErr result (λ fault. fault ≡ StoreFault.Memory) }
{
    let mut key = Items::new(alloc);
    'parts: for (at, part) in parts.iter().enumerate() {
        let cell = cell_at(alloc, row, at, *part)?;
        key = with_cell(key, cell)?;
    }
    Ok(key)
}
