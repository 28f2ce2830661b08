//! Makes the changes that add a register's rows.
ghost use Rattle.std.specs.Prelude.{◌≡◌, ◌++◌, IfOk, OnOk};
ghost use Rattle.hub_tables.specs.Register as spec;

use crate::change::Change;
use crate::rows::{KeyRow, PrefixRow};
use edi_base::MemoryFault;
use gs1_ids::{Gln, Prefix};
use hub_parties::SupplierRow;
use std::alloc::Global;

// Appends a change for each prefix.
fn put_prefixes(
    supplier: Gln,
    prefixes: &[Prefix],
    changes: &mut Vec<Change>,
) -> Result<(), MemoryFault>
    ensures { OnOk result (changes.new.items ≡ changes.old.items
        ++ spec.prefix_changes supplier prefixes.now) }
{
    for prefix in prefixes {
        changes.push(Change::AddPrefix(PrefixRow {
            prefix: *prefix,
            supplier,
        }))?;
    }
    Ok(())
}

/// Appends the changes that add a supplier: its key, then each of its prefixes.
pub fn put_row_changes(row: &SupplierRow, changes: &mut Vec<Change>) -> Result<(), MemoryFault>
    ensures { OnOk result (changes.new.items ≡ changes.old.items ++ spec.row_changes row.now) }
{
    changes.push(Change::AddKey(KeyRow {
        supplier: row.gln,
        key: row.key.copy(),
    }))?;
    put_prefixes(row.gln, row.prefixes.as_slice(), changes)
}

/// Returns the changes that add a supplier: its key, then each of its prefixes.
pub fn row_changes(alloc: Global, row: &SupplierRow) -> Result<Vec<Change>, MemoryFault>
    ensures { IfOk result (λ changes. changes.items ≡ spec.row_changes row.now) }
{
    let mut changes = Vec::new(alloc);
    put_row_changes(row, &mut changes)?;
    Ok(changes)
}
