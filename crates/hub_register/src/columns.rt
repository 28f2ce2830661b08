//! Checks the columns of a document's rows, each column as a whole.

ghost use Rattle.std.specs.Prelude.{◌≡◌, ◌≢◌, true, false, [], IfOk, IfErr, OnOk, map};
ghost use Rattle.std.specs.BTreeMap.{keys, values};
ghost use Rattle.std.specs.List.{list_all};
ghost use Rattle.edi_base.specs.Seen as twice;
ghost use Rattle.gs1_ids.specs.Gln.{is_gln};
ghost use Rattle.gs1_ids.specs.Prefix.{is_prefix};
ghost use Rattle.hub_parties.specs.Key.{is_party_key};
ghost use Rattle.hub_parties.specs.Prefixes.{are_company_prefixes, by_bytes};
ghost use Rattle.hub_parties.specs.Rows as spec;
ghost use Rattle.hub_register.specs.Entries.{row_in, rows_from, texts_of};
ghost use Rattle.hub_register.specs.Document.{row_with};
ghost use Rattle.hub_register.specs.InOrder.{put, put_all, with_sorted_prefixes};

use crate::document::{RegisterStrings, SupplierStrings};
use crate::fault::RegisterFault;
use edi_base::Seen;
use gs1_ids::{Gln, Prefix};
use hub_parties::{CompanyPrefixes, Key, SupplierRow};
use std::alloc::Global;
use std::collections::BTreeMap;

fn gln_of(text: &str) -> Result<Gln, RegisterFault>
    ensures ok { IfOk result (λ gln. (gln ≡ text.now) × (is_gln text.now ≡ true)) }
    ensures err { IfErr result (λ fault. (fault ≡ RegisterFault.Gln) × (is_gln text.now ≡ false)) }
{
    Gln::parse(text.as_bytes()).ok_or(RegisterFault::Gln)
}

fn prefix_of(text: &str) -> Result<Prefix, RegisterFault>
    ensures ok { IfOk result (λ prefix. (prefix ≡ text.now) × (is_prefix text.now ≡ true)) }
    ensures err { IfErr result (λ fault. (fault ≡ RegisterFault.Prefix) × (is_prefix text.now ≡ false)) }
{
    Prefix::parse(text.as_bytes()).ok_or(RegisterFault::Prefix)
}

/// Returns the key that a text writes.
pub(crate) fn key_of(text: &str) -> Result<Key, RegisterFault>
    ensures ok { IfOk result (λ key. (key ≡ text.now) × (is_party_key text.now ≡ true)) }
    ensures err { IfErr result (λ fault. (fault ≡ RegisterFault.Key) × (is_party_key text.now ≡ false)) }
{
    Key::parse(text.as_bytes()).ok_or(RegisterFault::Key)
}

/// Returns all GLNs, the hub's and the retailer's first.
pub(crate) fn glns(alloc: Global, document: &RegisterStrings<'_>) -> Result<Vec<Gln>, RegisterFault>
    ensures ok { IfOk result (λ glns. (glns.items ≡ spec.glns (rows_from document.now))
        × (list_all is_gln (spec.glns (rows_from document.now)) ≡ true)) }
    ensures err { IfErr result (λ fault. fault ≢ RegisterFault.Memory →
        (fault ≡ RegisterFault.Gln) × (list_all is_gln (spec.glns (rows_from document.now)) ≡ false)) }
{
    let mut glns = Vec::new(alloc);
    glns.push(gln_of(document.hub)?)?;
    glns.push(gln_of(document.retailer)?)?;
    for entry in &document.suppliers {
        glns.push(gln_of(entry.gln)?)?;
    }
    Ok(glns)
}

/// Whether some GLN occurs twice.
pub(crate) fn has_twice(alloc: Global, glns: &[Gln]) -> Result<bool, RegisterFault>
    ensures ok { IfOk result (λ found. found ≡ twice.has_twice glns.now) }
    ensures err { IfErr result (λ fault. fault ≡ RegisterFault.Memory) }
{
    let mut seen = Seen::new(alloc);
    for gln in glns {
        if !seen.insert(gln.digits())? {
            return Ok(true);
        }
    }
    Ok(false)
}

// Returns the prefixes that texts write.
fn prefixes_of(alloc: Global, texts: &[&str]) -> Result<Vec<Prefix>, RegisterFault>
    ensures ok { IfOk result (λ prefixes. prefixes.items ≡ texts_of texts.now) }
    ensures err { IfErr result (λ fault. fault ≢ RegisterFault.Memory →
        (fault ≡ RegisterFault.Prefix) × (list_all is_prefix (texts_of texts.now) ≡ false)) }
{
    let mut prefixes = Vec::new(alloc);
    for text in texts {
        prefixes.push(prefix_of(text)?)?;
    }
    Ok(prefixes)
}

// Returns the prefixes of a supplier.
fn company_prefixes(alloc: Global, texts: &[&str]) -> Result<CompanyPrefixes, RegisterFault>
    ensures ok { IfOk result (λ held. (held ≡ by_bytes (texts_of texts.now))
        × (are_company_prefixes (by_bytes (texts_of texts.now)) ≡ true)) }
    ensures err { IfErr result (λ fault. fault ≢ RegisterFault.Memory →
        (fault ≡ RegisterFault.Prefix) × (are_company_prefixes (by_bytes (texts_of texts.now)) ≡ false)) }
{
    let prefixes = prefixes_of(alloc, texts)?;
    let found = CompanyPrefixes::of(alloc, prefixes.as_slice())?;
    found.ok_or(RegisterFault::Prefix)
}

/// Returns the prefixes of each supplier.
pub(crate) fn prefixes(
    alloc: Global,
    entries: &[SupplierStrings<'_>],
) -> Result<Vec<CompanyPrefixes>, RegisterFault>
    ensures ok { IfOk result (λ prefixes.
        (prefixes.items ≡ map (λ row. by_bytes row.prefixes) (map row_in entries.now))
        × (list_all (λ row. are_company_prefixes (by_bytes row.prefixes)) (map row_in entries.now) ≡ true)) }
    ensures err { IfErr result (λ fault. fault ≢ RegisterFault.Memory → (fault ≡ RegisterFault.Prefix)
        × (list_all (λ row. are_company_prefixes (by_bytes row.prefixes)) (map row_in entries.now) ≡ false)) }
{
    let mut prefixes = Vec::new(alloc);
    for entry in entries {
        prefixes.push(company_prefixes(alloc, entry.prefixes.as_slice())?)?;
    }
    Ok(prefixes)
}

// Makes the row of a supplier.
fn row_by(
    alloc: Global,
    gln: Gln,
    prefixes: &CompanyPrefixes,
    key: Key,
) -> Result<SupplierRow, RegisterFault>
    ensures ok { IfOk result (λ row. row ≡ row_with gln prefixes.now key) }
    ensures err { IfErr result (λ fault. fault ≡ RegisterFault.Memory) }
{
    let prefixes = prefixes.copy(alloc)?;
    Ok(SupplierRow { gln, prefixes, key })
}

// Stores the row of a supplier under its GLN, if its key is valid.
fn put_supplier(
    alloc: Global,
    gln: Gln,
    prefixes: &CompanyPrefixes,
    key: &str,
    suppliers: &mut BTreeMap<Gln, SupplierRow>,
) -> Result<(), RegisterFault>
    requires { keys suppliers.old ≡ map (λ row. row.gln) (values suppliers.old) }
    ensures rows { OnOk result (values suppliers.new
        ≡ put (row_with gln prefixes.now key.now) (values suppliers.old)) }
    ensures at_gln { OnOk result (keys suppliers.new ≡ map (λ row. row.gln) (values suppliers.new)) }
    ensures key { OnOk result (is_party_key key.now ≡ true) }
    ensures err { IfErr result (λ fault. fault ≢ RegisterFault.Memory →
        (fault ≡ RegisterFault.Key) × (is_party_key key.now ≡ false)) }
{
    let Some(key) = Key::parse(key.as_bytes()) else {
        return Err(RegisterFault::Key);
    };
    let row = row_by(alloc, gln, prefixes, key)?;
    suppliers.insert(gln, row)?;
    Ok(())
}

/// Returns the rows of the suppliers by their GLNs, after checking each one's key.
pub(crate) fn suppliers(
    alloc: Global,
    entries: &[SupplierStrings<'_>],
    glns: &[Gln],
    prefixes: &[CompanyPrefixes],
) -> Result<BTreeMap<Gln, SupplierRow>, RegisterFault>
    requires glns { glns.now ≡ map (λ row. row.gln) (map row_in entries.now) }
    requires prefixes { prefixes.now ≡ map (λ row. by_bytes row.prefixes) (map row_in entries.now) }
    ensures rows { IfOk result (λ suppliers.
        values suppliers ≡ put_all (map with_sorted_prefixes (map row_in entries.now)) []) }
    ensures at_gln { IfOk result (λ suppliers. keys suppliers ≡ map (λ row. row.gln) (values suppliers)) }
    ensures keys { IfOk result (λ suppliers.
        list_all is_party_key (map (λ row. row.key) (map row_in entries.now)) ≡ true) }
    ensures err { IfErr result (λ fault. fault ≢ RegisterFault.Memory → (fault ≡ RegisterFault.Key)
        × (list_all is_party_key (map (λ row. row.key) (map row_in entries.now)) ≡ false)) }
{
    let mut suppliers = BTreeMap::new(alloc);
    for (place, entry) in entries.iter().enumerate() {
        let gln = glns[place];
        put_supplier(alloc, gln, &prefixes[place], entry.key, &mut suppliers)?;
    }
    Ok(suppliers)
}
