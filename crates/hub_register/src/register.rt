ghost use Rattle.toml.specs.Parse.{parse_document};
ghost use Rattle.toml.specs.View.{table_view};
ghost use Rattle.std.specs.Prelude.{◌≡◌, ◌≢◌, ◌+◌, ◌==◌, not, filter, zip, true, false, nat_lt, nat_le, IfOk, IfErr, OnOk};
ghost use Rattle.std.specs.Prelude.{OnErr, Ok, Err, Some, None, length, map, option_map, option_copied};
ghost use Rattle.std.specs.BTreeMap.{keys, values};
ghost use Rattle.std.specs.List.{list_all, list_any};
ghost use Rattle.std.specs.Option.{IfNone, IfSome};
ghost use Rattle.std.specs.Str.{bytes_eq};
ghost use Rattle.gs1_ids.specs.Gln.{is_gln};
ghost use Rattle.gs1_ids.specs.Overlap.{first_overlap_between, overlap_some, PrefixFree};
ghost use Rattle.hub_parties.specs.Rows as spec;
ghost use Rattle.hub_parties.specs.Rows.{IsRegister, most_suppliers, rows_by, row_of, role_of};
ghost use Rattle.hub_register.specs.Caller.{IsCaller};
ghost use Rattle.hub_register.specs.Entries.{rows_from};
ghost use Rattle.hub_register.specs.Fault.{fault_of};
ghost use Rattle.hub_register.specs.Joined.{joined_by, left_by};
ghost use Rattle.hub_register.specs.Kept as kept;
ghost use Rattle.hub_register.specs.declared.fault.RegisterFault.TheVariants.{Overlap};
ghost use Rattle.hub_register.specs.Register.{register_of, register_of_rows, RegisterHasItsRows, RegisterOfTextIsPrefixFree};

use crate::caller::Caller;
use crate::columns;
use crate::document::RegisterStrings;
use crate::fault::RegisterFault;
use crate::rows::{MOST_SUPPLIERS, by_gln, keep_all};
use edi_base::MemoryFault;
use gs1_ids::{Gln, overlap_some};
use hub_parties::{CompanyPrefixes, Key, Role, SupplierRow, first_overlap};
use std::alloc::Global;
use std::collections::BTreeMap;
use std::collections::btree_map::Values;
use std::marker::Model;
use toml::Table;

/// The register: the parties that may send requests to the hub, and their keys.
#[derive(Debug, Drop)]
pub struct Register {
    hub: Gln,
    retailer: Gln,
    retailer_key: Key,
    suppliers: BTreeMap<Gln, SupplierRow>,
}

impl Model for Register {
    ghost use Rattle.hub_parties.specs.Rows.{RegisterRows};

    ghost Value = { RegisterRows };

    ghost use Rattle.hub_register.specs.Held.{rows_of, IsHeld};

    ghost view = { rows_of };

    ghost invariant = { IsHeld };
}

// Makes the register of these parties, for which all facts of a register hold.
fn register_of_parties(
    hub: Gln,
    retailer: Gln,
    retailer_key: Key,
    suppliers: BTreeMap<Gln, SupplierRow>,
) -> Register
    requires at_gln { keys suppliers ≡ map (λ row. row.gln) (values suppliers) }
    requires right { IsRegister (rows_by hub retailer retailer_key (values suppliers)) }
    ensures value { result ≡ rows_by hub retailer retailer_key (values suppliers) }
    ensures register { IsRegister result }
{
    Register {
        hub,
        retailer,
        retailer_key,
        suppliers,
    }
}

// Makes the register of rows that are known to form one.
fn make_register(
    alloc: Global,
    hub: Gln,
    retailer: Gln,
    retailer_key: Key,
    suppliers: Vec<SupplierRow>,
) -> Result<Register, MemoryFault>
    requires { kept.keep_all hub retailer suppliers.items ≡ true }
    ensures value { IfOk result (λ register. register ≡ rows_by hub retailer retailer_key suppliers.items) }
    ensures register { IfOk result IsRegister }
{
    // The contracts of these calls say that the parties' GLNs and key are valid.
    let _hub = hub.digits();
    let _retailer = retailer.digits();
    let _key = retailer_key.bytes();
    let suppliers = by_gln(alloc, suppliers)?;
    Ok(register_of_parties(hub, retailer, retailer_key, suppliers))
}

// Returns all GLNs of a document, the hub's and the retailer's first, if it does not have too many suppliers.
fn glns_of(alloc: Global, document: &RegisterStrings<'_>) -> Result<Vec<Gln>, RegisterFault>
    ensures few { IfOk result (λ glns.
        nat_lt most_suppliers (length (rows_from document.now).suppliers) ≡ false) }
    ensures ok { IfOk result (λ glns. (glns.items ≡ spec.glns (rows_from document.now))
        × (list_all is_gln (spec.glns (rows_from document.now)) ≡ true)) }
    ensures err { IfErr result (λ fault.
        fault ≢ RegisterFault.Memory → fault_of (rows_from document.now) ≡ Some fault) }
{
    if document.suppliers.len() > MOST_SUPPLIERS {
        return Err(RegisterFault::Many);
    }
    let glns = columns::glns(alloc, document)?;
    Ok(glns)
}

// Returns the fault of two suppliers of which a prefix of one begins a prefix of the other. Its positions count from 1.
fn overlap_in(suppliers: &[CompanyPrefixes]) -> Option<RegisterFault>
    ensures value { result
        ≡ option_map (λ places. Overlap (places.0 + 1) (places.1 + 1)) (first_overlap_between suppliers.now) }
    ensures free { IfNone result (PrefixFree suppliers.now) }
{
    match first_overlap(suppliers) {
        Some((first, second)) => Some(RegisterFault::Overlap(first + 1, second + 1)),
        None => None,
    }
}

// Makes the register of a document.
fn register_of_document(
    alloc: Global,
    document: &RegisterStrings<'_>,
) -> Result<Register, RegisterFault>
    ensures ok { IfOk result (λ register. register_of_rows (Some (rows_from document.now)) ≡ Ok register) }
    ensures err { IfErr result (λ fault.
        fault ≢ RegisterFault.Memory → register_of_rows (Some (rows_from document.now)) ≡ Err fault) }
    ensures register { IfOk result IsRegister }
{
    let entries = document.suppliers.as_slice();
    let glns = glns_of(alloc, document)?;
    if columns::has_twice(alloc, glns.as_slice())? {
        return Err(RegisterFault::Twice);
    }
    let prefixes = columns::prefixes(alloc, entries)?;
    let prefixes = prefixes.as_slice();
    let retailer_key = columns::key_of(document.retailer_key)?;
    let suppliers = columns::suppliers(alloc, entries, &glns[2..], prefixes)?;
    if let Some(fault) = overlap_in(prefixes) {
        return Err(fault);
    }
    Ok(register_of_parties(glns[0], glns[1], retailer_key, suppliers))
}

// Reads a text as a TOML table.
fn table_of(alloc: Global, text: &str) -> Result<Table, RegisterFault>
    ensures ok { IfOk result (λ table. parse_document text.now ≡ Some (table_view table)) }
    ensures err { IfErr result (λ fault. fault ≢ RegisterFault.Memory →
        (fault ≡ RegisterFault.Text) × (parse_document text.now ≡ None)) }
{
    match toml::table_from_str(alloc, text) {
        Ok(table) => Ok(table),
        Err(error) => {
            if error.is_memory() {
                Err(RegisterFault::Memory)
            } else {
                Err(RegisterFault::Text)
            }
        }
    }
}

// Returns how many bytes of two texts of the same length differ. It compares all bytes, so the time does not reveal
// where the first difference is.
fn differing(one: &[u8], other: &[u8]) -> usize
    ensures { result ≡ length (filter (λ pair. not (pair.0 == pair.1)) (zip one.now other.now)) }
{
    one.iter().zip(other).filter(|(a, b)| a != b).count()
}

// Whether these bytes are the party's key.
fn is_key(key: &Key, bytes: &[u8]) -> bool
    ensures { result ≡ bytes_eq key.now bytes.now }
{
    let own = key.bytes();
    own.len() == bytes.len() && differing(own, bytes) == 0
}

impl Register {
    /// Reads a register from a TOML text: a string `hub`, a table `retailer` with the strings `gln` and `key`, and any
    /// number of tables `supplier`, each with the strings `gln` and `key` and with `prefix`, a string or an array of
    /// strings. Otherwise returns the first fault of the text in the order of `RegisterFault`, wherever it is in the
    /// list.
    pub fn from_toml(alloc: Global, text: &str) -> Result<Register, RegisterFault>
        ensures ok { IfOk result (λ register. register_of text.now ≡ Ok register) }
        ensures err { IfErr result (λ fault.
            fault ≢ RegisterFault.Memory → register_of text.now ≡ Err fault) }
        ensures register { IfOk result IsRegister }
    {
        let table = table_of(alloc, text)?;
        let document = RegisterStrings::read(alloc, &table)?;
        register_of_document(alloc, &document)
    }

    /// Makes the register of these rows, with the suppliers in this order; `None` exactly if they do not form a
    /// register.
    pub fn of_rows(
        alloc: Global,
        hub: Gln,
        retailer: Gln,
        retailer_key: Key,
        suppliers: Vec<SupplierRow>,
    ) -> Result<Option<Register>, MemoryFault>
        ensures some { IfOk result (λ found.
            IfSome found (λ register. (register ≡ rows_by hub retailer retailer_key suppliers.items)
            × IsRegister register)) }
        ensures none { IfOk result (λ found.
            IfNone found (IsRegister (rows_by hub retailer retailer_key suppliers.items) → ⊥)) }
    {
        let kept = keep_all(alloc, &hub, &retailer, suppliers.as_slice())?;
        if !kept {
            return Ok(None);
        }
        let register = make_register(alloc, hub, retailer, retailer_key, suppliers)?;
        Ok(Some(register))
    }

    /// Returns the hub's GLN.
    pub fn hub(&self) -> &Gln
        ensures value { result.now ≡ self.now.hub }
        ensures register { IsRegister self.now }
    {
        &self.hub
    }

    /// Returns the retailer's GLN.
    pub fn retailer(&self) -> &Gln
        ensures value { result.now ≡ self.now.retailer }
        ensures register { IsRegister self.now }
    {
        &self.retailer
    }

    /// Returns the retailer's key.
    pub fn retailer_key(&self) -> &Key
        ensures value { result.now ≡ self.now.retailer_key }
        ensures register { IsRegister self.now }
    {
        &self.retailer_key
    }

    /// Returns how many suppliers there are, at most 1,000.
    pub fn supplier_count(&self) -> usize
        ensures value { result ≡ length self.now.suppliers }
        ensures register { IsRegister self.now }
    {
        self.suppliers.len()
    }

    /// Returns the row of the supplier with this GLN.
    pub fn supplier(&self, gln: &Gln) -> Option<&SupplierRow>
        ensures value { option_copied result ≡ row_of self.now gln.now }
        ensures register { IsRegister self.now }
    {
        self.suppliers.get(gln)
    }

    /// Returns the rows of the suppliers, sorted by GLN.
    pub fn suppliers(&self) -> Values<'_, Gln, SupplierRow>
        ensures value { result ≡ self.now.suppliers }
        ensures register { IsRegister self.now }
    {
        self.suppliers.values()
    }

    /// Whether the GLN is the hub's, the retailer's or a supplier's.
    pub fn knows(&self, gln: &Gln) -> bool
        ensures { result ≡ list_any (bytes_eq gln.now) (spec.glns self.now) }
    {
        *gln == self.hub || *gln == self.retailer || self.has_supplier(gln)
    }

    // Whether the GLN is a supplier's.
    fn has_supplier(&self, gln: &Gln) -> bool
        ensures { result ≡ list_any (bytes_eq gln.now) (map (λ row. row.gln) self.now.suppliers) }
    {
        self.supplier(gln).is_some()
    }

    /// Whether one of these prefixes begins a prefix of a supplier, or begins with one.
    pub fn overlaps(&self, prefixes: &CompanyPrefixes) -> bool
        ensures { result ≡ list_any (λ other. overlap_some prefixes.now other.prefixes) self.now.suppliers }
    {
        self.suppliers.values().any(|other| overlap_some(
            prefixes.as_slice(),
            other.prefixes.as_slice(),
        ))
    }

    /// Whether the register already has the most suppliers allowed.
    pub fn is_full(&self) -> bool
        ensures { result ≡ nat_le most_suppliers (length self.now.suppliers) }
    {
        MOST_SUPPLIERS <= self.suppliers.len()
    }

    /// Adds a supplier. If memory is refused, the register stays as it is.
    pub fn join(&mut self, row: SupplierRow) -> Result<(), MemoryFault>
        requires { IsRegister (joined_by row self.old) }
        ensures ok { OnOk result (self.new ≡ joined_by row self.old) }
        ensures err { OnErr result (self.new ≡ self.old) }
    {
        self.suppliers.insert(row.gln, row)?;
        Ok(())
    }

    /// Removes the supplier with this GLN, as if it had never joined, without allocating memory.
    pub fn leave(&mut self, gln: &Gln)
        requires { IsRegister (left_by gln.now self.old) }
        ensures { self.new ≡ left_by gln.now self.old }
    {
        self.suppliers.remove(gln);
    }

    /// Returns the caller with this GLN, if the key is its own. `None` if the register does not have the two together.
    pub fn caller(&self, gln: &Gln, key: &[u8]) -> Option<Caller<'_>>
        ensures some { IfSome result (IsCaller self.now gln.now key.now) }
        ensures none { IfNone result (role_of self.now gln.now key.now ≡ None) }
        ensures register { IsRegister self.now }
    {
        if let Some(row) = self.supplier(gln) {
            if is_key(&row.key, key) {
                return Some(Caller::Supplier(row));
            }
            return None;
        }
        if self.retailer == *gln && is_key(&self.retailer_key, key) {
            return Some(Caller::Retailer);
        }
        None
    }

    /// Returns the role of a caller from its GLN and its key, which must belong to the same party. `None` if the
    /// register does not have the two together.
    pub fn may(&self, gln: &Gln, key: &[u8]) -> Option<Role>
        ensures value { result ≡ role_of self.now gln.now key.now }
        ensures register { IsRegister self.now }
    {
        match self.caller(gln, key)? {
            Caller::Supplier(_row) => Some(Role::Supplier),
            Caller::Retailer => Some(Role::Retailer),
        }
    }
}

/// The register of a text has each row of the text once, and these rows have no fault.
pub fn register_has_its_rows()
    ensures { RegisterHasItsRows }
{}

/// In the register of a text, no prefix of one supplier begins a prefix of another.
pub fn register_of_text_is_prefix_free()
    ensures { RegisterOfTextIsPrefixFree }
{}
