//! Reads the register that tables hold.
ghost use Rattle.std.specs.Prelude.{◌≡◌, false, length, map, IfOk};
ghost use Rattle.std.specs.Option.{IfNone, IfSome};
ghost use Rattle.hub_parties.specs.KeyOrder.{Rises};
ghost use Rattle.hub_parties.specs.Prefixes.{are_company_prefixes, by_bytes};
ghost use Rattle.hub_tables.specs.Rows.{key_cmp, prefix_cmp};
ghost use Rattle.hub_tables.specs.Tables.{Tables};
ghost use Rattle.hub_founding.specs.Founding.{IsHeldBy};
ghost use Rattle.hub_founding.specs.Gathered as spec;

use crate::gathered::gather_prefixes;
use edi_base::MemoryFault;
use gs1_ids::Prefix;
use hub_parties::{CompanyPrefixes, SupplierRow};
use hub_register::Register;
use hub_tables::{HubRow, KeyRow, PrefixRow};
use std::alloc::Global;

// Makes the row of a supplier; `None` if it cannot have these prefixes.
fn row_with(
    alloc: Global,
    key: &KeyRow,
    prefixes: &[Prefix],
) -> Result<Option<SupplierRow>, MemoryFault>
    ensures some { IfOk result (λ found. IfSome found (λ row. row ≡ spec.row_with key.now prefixes.now)) }
    ensures none { IfOk result (λ found.
        IfNone found (are_company_prefixes (by_bytes prefixes.now) ≡ false)) }
{
    let Some(prefixes) = CompanyPrefixes::of(alloc, prefixes)? else {
        return Ok(None);
    };
    Ok(Some(SupplierRow {
        gln: key.supplier,
        prefixes,
        key: key.key.copy(),
    }))
}

// Makes the rows of all suppliers; `None` if one of them cannot have its prefixes.
fn rows_with(
    alloc: Global,
    keys: &[KeyRow],
    lists: &[Vec<Prefix>],
) -> Result<Option<Vec<SupplierRow>>, MemoryFault>
    requires { length lists.now ≡ length keys.now }
    ensures some { IfOk result (λ found.
        IfSome found (λ rows. rows.items ≡ spec.rows_with keys.now (map (λ list. list.items) lists.now))) }
    ensures none { IfOk result (λ found.
        IfNone found (spec.all_company_prefixes (map (λ list. list.items) lists.now) ≡ false)) }
{
    let mut rows = Vec::new(alloc);
    for (place, key) in keys.iter().enumerate() {
        let Some(row) = row_with(alloc, key, lists[place].as_slice())? else {
            return Ok(None);
        };
        rows.push(row)?;
    }
    Ok(Some(rows))
}

/// Returns the register that tables hold, from the rows of its three kinds, each sorted by key. Returns `None` exactly
/// if they hold none: there is not exactly one hub row, some prefix belongs to no supplier that has a key, or the rows
/// do not form a register.
pub fn register_of(
    alloc: Global,
    hubs: &[HubRow],
    keys: &[KeyRow],
    prefixes: &[PrefixRow],
) -> Result<Option<Register>, MemoryFault>
    ensures { (t : Tables) → t.hubs ≡ hubs.now → t.keys ≡ keys.now → t.prefixes ≡ prefixes.now →
        Rises key_cmp t.keys → Rises prefix_cmp t.prefixes → IfOk result (IsHeldBy t) }
{
    let [hub] = hubs else {
        return Ok(None);
    };
    let Some(lists) = gather_prefixes(alloc, keys, prefixes)? else {
        return Ok(None);
    };
    let Some(suppliers) = rows_with(alloc, keys, lists.as_slice())? else {
        return Ok(None);
    };
    Register::of_rows(alloc, hub.hub, hub.retailer, hub.key.copy(), suppliers)
}
