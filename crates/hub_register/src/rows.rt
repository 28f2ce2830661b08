//! Decides whether rows form a register.

ghost use Rattle.std.specs.Prelude.{◌≡◌, true, [], IfOk, IsTrue, OnOk, map};
ghost use Rattle.std.specs.BTreeMap.{keys, values};
ghost use Rattle.std.specs.List.{list_all, flat_map};
ghost use Rattle.std.specs.Ordering.{is_lt};
ghost use Rattle.hub_parties.specs.KeyOrder.{bytes_cmp, Rises};
ghost use Rattle.hub_register.specs.InOrder.{put, put_all};
ghost use Rattle.hub_register.specs.Kept as spec;

use edi_base::MemoryFault;
use gs1_ids::{Gln, Prefix, none_overlap, overlap_some};
use hub_parties::SupplierRow;
use std::alloc::Global;
use std::collections::BTreeMap;

/// The most suppliers that a register may have.
pub(crate) const MOST_SUPPLIERS: usize = 1000;

// Whether a supplier's GLN is lower than another's.
fn is_below(row: &SupplierRow, other: &SupplierRow) -> bool
    ensures { result ≡ is_lt (bytes_cmp row.now.gln other.now.gln) }
{
    row.gln < other.gln
}

// Whether a supplier may come before another.
fn goes_before(row: &SupplierRow, other: &SupplierRow) -> bool
    ensures { result ≡ spec.goes_before row.now other.now }
{
    is_below(row, other) && !overlap_some(row.prefixes.as_slice(), other.prefixes.as_slice())
}

// Whether a supplier may come before all of these.
fn goes_before_all(row: &SupplierRow, later: &[SupplierRow]) -> bool
    ensures { result ≡ list_all (spec.goes_before row.now) later.now }
{
    later.iter().all(|other| goes_before(row, other))
}

// Whether each supplier may come before all after it.
fn are_in_order(rows: &[SupplierRow]) -> bool
    ensures { result ≡ spec.are_in_order rows.now }
{
    for (place, row) in rows.iter().enumerate() {
        if !goes_before_all(row, &rows[place + 1..]) {
            return false;
        }
    }
    true
}

// Whether each supplier's GLN is lower than the next one's.
fn glns_rise(rows: &[SupplierRow]) -> bool
    ensures { IsTrue result → Rises bytes_cmp (map (λ row. row.gln) rows.now) }
{
    for place in 1..rows.len() {
        if !is_below(&rows[place - 1], &rows[place]) {
            return false;
        }
    }
    true
}

// Returns the prefixes of all suppliers.
fn all_prefixes(alloc: Global, rows: &[SupplierRow]) -> Result<Vec<Prefix>, MemoryFault>
    ensures { IfOk result (λ prefixes. prefixes.items ≡ flat_map (λ row. row.prefixes) rows.now) }
{
    let mut prefixes = Vec::new(alloc);
    for row in rows {
        prefixes.extend_from_slice(row.prefixes.as_slice())?;
    }
    Ok(prefixes)
}

// Whether the GLNs rise and no two prefixes overlap, not even two of the same supplier. If so, each supplier may come
// before all after it, without comparing every two suppliers, which takes long for a thousand of them.
fn rise_without_overlap(alloc: Global, rows: &[SupplierRow]) -> Result<bool, MemoryFault>
    ensures { IfOk result (λ rise. IsTrue rise → spec.are_in_order rows.now ≡ true) }
{
    if !glns_rise(rows) {
        return Ok(false);
    }
    let mut prefixes = all_prefixes(alloc, rows)?;
    Ok(none_overlap(prefixes.as_mut_slice()))
}

// Whether a supplier is neither the hub nor the retailer.
fn is_other(hub: &Gln, retailer: &Gln, row: &SupplierRow) -> bool
    ensures { result ≡ spec.is_other hub.now retailer.now row.now }
{
    *hub != row.gln && *retailer != row.gln
}

// Whether no supplier is the hub or the retailer.
fn are_all_other(hub: &Gln, retailer: &Gln, rows: &[SupplierRow]) -> bool
    ensures { result ≡ list_all (spec.is_other hub.now retailer.now) rows.now }
{
    rows.iter().all(|row| is_other(hub, retailer, row))
}

// Whether the hub and the retailer differ, and no supplier is one of them.
fn are_others(hub: &Gln, retailer: &Gln, rows: &[SupplierRow]) -> bool
    ensures { result ≡ spec.are_others hub.now retailer.now rows.now }
{
    hub != retailer && are_all_other(hub, retailer, rows)
}

/// Whether these can be the suppliers of a register with this hub and this retailer, in this order.
pub(crate) fn keep_all(
    alloc: Global,
    hub: &Gln,
    retailer: &Gln,
    rows: &[SupplierRow],
) -> Result<bool, MemoryFault>
    ensures { IfOk result (λ kept. kept ≡ spec.keep_all hub.now retailer.now rows.now) }
{
    if rows.len() > MOST_SUPPLIERS || !are_others(hub, retailer, rows) {
        return Ok(false);
    }
    Ok(rise_without_overlap(alloc, rows)? || are_in_order(rows))
}

// Stores the row of a supplier under its GLN.
fn put_row(row: SupplierRow, suppliers: &mut BTreeMap<Gln, SupplierRow>) -> Result<(), MemoryFault>
    requires { keys suppliers.old ≡ map (λ row. row.gln) (values suppliers.old) }
    ensures rows { OnOk result (values suppliers.new ≡ put row (values suppliers.old)) }
    ensures at_gln { OnOk result (keys suppliers.new ≡ map (λ row. row.gln) (values suppliers.new)) }
    ensures valid { spec.is_valid row ≡ true }
{
    // The contracts of these calls say that the parts of the row are valid.
    let _gln = row.gln.digits();
    let _prefixes = row.prefixes.as_slice();
    let _key = row.key.bytes();
    suppliers.insert(row.gln, row)?;
    Ok(())
}

/// Returns the rows by their GLNs.
pub(crate) fn by_gln(
    alloc: Global,
    rows: Vec<SupplierRow>,
) -> Result<BTreeMap<Gln, SupplierRow>, MemoryFault>
    ensures rows { IfOk result (λ suppliers. values suppliers ≡ put_all rows.items []) }
    ensures at_gln { IfOk result (λ suppliers. keys suppliers ≡ map (λ row. row.gln) (values suppliers)) }
    ensures valid { IfOk result (λ suppliers. list_all spec.is_valid rows.items ≡ true) }
{
    let mut suppliers = BTreeMap::new(alloc);
    for row in rows {
        put_row(row, &mut suppliers)?;
    }
    Ok(suppliers)
}
