//! Collects the prefixes of each supplier from the prefix rows.
ghost use Rattle.std.specs.Prelude.{◌≡◌, ◌<◌, [], true, false, length, map, is_some, IfOk, OnOk};
ghost use Rattle.std.specs.Option.{IfNone, IfSome};
ghost use Rattle.std.specs.List.{HoldsAt};
ghost use Rattle.hub_parties.specs.KeyOrder.{Rises};
ghost use Rattle.hub_tables.specs.Register.{has_key};
ghost use Rattle.hub_tables.specs.Rows.{key_cmp};
ghost use Rattle.hub_founding.specs.Gathered as spec;

use edi_base::MemoryFault;
use gs1_ids::{Gln, Prefix};
use hub_tables::{KeyRow, PrefixRow};
use std::alloc::Global;

// Returns the position of the supplier's key.
fn place_of(keys: &[KeyRow], supplier: &Gln) -> Option<usize>
    ensures some { IfSome result (λ place.
        (place < length keys.now) × HoldsAt (λ row. row.supplier ≡ supplier.now) keys.now place) }
    ensures none { IfNone result (Rises key_cmp keys.now → has_key keys.now supplier.now ≡ false) }
{
    keys.binary_search_by(|row| row.supplier.cmp(supplier)).ok()
}

// Makes an empty list of prefixes for each key.
fn empty_lists(alloc: Global, keys: &[KeyRow]) -> Result<Vec<Vec<Prefix>>, MemoryFault>
    ensures { IfOk result (λ lists. map (λ list. list.items) lists.items ≡ map (λ row. []) keys.now) }
{
    let mut lists = Vec::new(alloc);
    for _key in keys {
        lists.push(Vec::new(alloc))?;
    }
    Ok(lists)
}

// Adds a prefix after the others of its supplier, and returns whether that supplier has a key.
fn put_prefix(
    row: &PrefixRow,
    keys: &[KeyRow],
    lists: &mut Vec<Vec<Prefix>>,
) -> Result<bool, MemoryFault>
    requires { length lists.old.items ≡ length keys.now }
    ensures length { OnOk result (length lists.new.items ≡ length keys.now) }
    ensures had { IfOk result (λ had. Rises key_cmp keys.now → had ≡ has_key keys.now row.now.supplier) }
    ensures put { IfOk result (λ had.
        had ≡ true → Rises key_cmp keys.now → map (λ list. list.items) lists.new.items
        ≡ spec.with_prefix row.now keys.now (map (λ list. list.items) lists.old.items)) }
{
    let Some(place) = place_of(keys, &row.supplier) else {
        return Ok(false);
    };
    lists[place].push(row.prefix)?;
    Ok(true)
}

/// Returns the prefixes of each supplier that has a key, in the order of the keys; `None` if some prefix belongs to no
/// such supplier.
pub(crate) fn gather_prefixes(
    alloc: Global,
    keys: &[KeyRow],
    prefixes: &[PrefixRow],
) -> Result<Option<Vec<Vec<Prefix>>>, MemoryFault>
    ensures length { IfOk result (λ found. IfSome found (λ lists. length lists.items ≡ length keys.now)) }
    ensures had { IfOk result (λ found.
        Rises key_cmp keys.now → is_some found ≡ spec.all_had keys.now prefixes.now) }
    ensures some { IfOk result (λ found. IfSome found (λ lists. Rises key_cmp keys.now →
        map (λ list. list.items) lists.items ≡ spec.gathered prefixes.now keys.now)) }
{
    let mut lists = empty_lists(alloc, keys)?;
    for row in prefixes {
        if !put_prefix(row, keys, &mut lists)? {
            return Ok(None);
        }
    }
    Ok(Some(lists))
}
