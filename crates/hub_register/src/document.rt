//! Reads the strings in the text of a register, before they are checked.

ghost use Rattle.toml.specs.Data.{get_member, as_str};
ghost use Rattle.toml.specs.View.{table_view, items_view, view};
ghost use Rattle.std.specs.Prelude.{◌≡◌, ◌≢◌, ◌∷◌, ◌++◌, [], Some, None, IfOk, IfErr, OnOk, map, option_map, codes};
ghost use Rattle.hub_register.specs.Document as spec;
ghost use Rattle.hub_register.specs.Entries.{row_in, rows_from, texts_of};

use crate::fault::RegisterFault;
use std::alloc::Global;
use toml::{Table, Value};

/// The strings of a supplier's table.
#[derive(Drop)]
pub(crate) struct SupplierStrings<'a> {
    pub(crate) gln: &'a str,
    pub(crate) prefixes: Vec<&'a str>,
    pub(crate) key: &'a str,
}

/// The strings of a register text.
#[derive(Drop)]
pub(crate) struct RegisterStrings<'a> {
    pub(crate) hub: &'a str,
    pub(crate) retailer: &'a str,
    pub(crate) retailer_key: &'a str,
    pub(crate) suppliers: Vec<SupplierStrings<'a>>,
}

// Returns the value at a key of a table.
fn value_at<'a>(table: &'a Table, key: &str) -> Option<&'a Value>
    ensures { option_map (λ value. view value.now) result ≡ get_member key.now (table_view table.now) }
{
    table.get(key)
}

// Returns the string at a key of a table.
fn string_at<'a>(table: &'a Table, key: &str) -> Option<&'a str>
    ensures { option_map (λ text. text.now) result ≡ spec.string_at key.now (table_view table.now) }
{
    value_at(table, key)?.as_str()
}

// Returns the table at a key of a table.
fn table_at<'a>(table: &'a Table, key: &str) -> Option<&'a Table>
    ensures { option_map (λ found. table_view found.now) result
        ≡ spec.table_at key.now (table_view table.now) }
{
    value_at(table, key)?.as_table()
}

// Appends a value to the texts, if it is a string.
fn put_string<'a>(value: &'a Value, texts: &mut Vec<&'a str>) -> Result<(), RegisterFault>
    ensures ok { OnOk result (option_map (λ text. texts_of texts.old.items ++ text ∷ [])
        (as_str (view value.now)) ≡ Some (texts_of texts.new.items)) }
    ensures err { IfErr result (λ fault. fault ≢ RegisterFault.Memory →
        (fault ≡ RegisterFault.Text) × (as_str (view value.now) ≡ None)) }
{
    let Some(text) = value.as_str() else {
        return Err(RegisterFault::Text);
    };
    texts.push(text)?;
    Ok(())
}

// Returns the strings of an array.
fn strings_in<'a>(alloc: Global, values: &'a [Value]) -> Result<Vec<&'a str>, RegisterFault>
    ensures ok { IfOk result (λ texts.
        spec.strings_in (items_view values.now) ≡ Some (texts_of texts.items)) }
    ensures err { IfErr result (λ fault. fault ≢ RegisterFault.Memory →
        (fault ≡ RegisterFault.Text) × (spec.strings_in (items_view values.now) ≡ None)) }
{
    let mut texts = Vec::new(alloc);
    for value in values {
        put_string(value, &mut texts)?;
    }
    Ok(texts)
}

fn one_string<'a>(alloc: Global, text: &'a str) -> Result<Vec<&'a str>, RegisterFault>
    ensures ok { IfOk result (λ texts. texts_of texts.items ≡ text.now ∷ []) }
    ensures err { IfErr result (λ fault. fault ≡ RegisterFault.Memory) }
{
    let mut texts = Vec::new(alloc);
    texts.push(text)?;
    Ok(texts)
}

// Returns the prefixes that a value gives: a string gives one, an array any number.
fn prefixes_from<'a>(alloc: Global, value: &'a Value) -> Result<Vec<&'a str>, RegisterFault>
    ensures ok { IfOk result (λ texts. spec.prefixes_from (view value.now) ≡ Some (texts_of texts.items)) }
    ensures err { IfErr result (λ fault. fault ≢ RegisterFault.Memory →
        (fault ≡ RegisterFault.Text) × (spec.prefixes_from (view value.now) ≡ None)) }
{
    match value {
        Value::String(text) => one_string(alloc, text.as_str()),
        Value::Array(values) => strings_in(alloc, values.as_slice()),
        _ => Err(RegisterFault::Text),
    }
}

// Returns the prefixes at the key `prefix` of a table.
fn prefixes_in<'a>(alloc: Global, table: &'a Table) -> Result<Vec<&'a str>, RegisterFault>
    ensures ok { IfOk result (λ texts.
        spec.prefixes_at (codes "prefix") (table_view table.now) ≡ Some (texts_of texts.items)) }
    ensures err { IfErr result (λ fault. fault ≢ RegisterFault.Memory →
        (fault ≡ RegisterFault.Text) × (spec.prefixes_at (codes "prefix") (table_view table.now) ≡ None)) }
{
    let Some(value) = value_at(table, "prefix") else {
        return Err(RegisterFault::Text);
    };
    prefixes_from(alloc, value)
}

// Reads a supplier's table.
fn entry_in<'a>(alloc: Global, table: &'a Table) -> Result<SupplierStrings<'a>, RegisterFault>
    ensures ok { IfOk result (λ entry. spec.supplier_in (table_view table.now) ≡ Some (row_in entry)) }
    ensures err { IfErr result (λ fault. fault ≢ RegisterFault.Memory →
        (fault ≡ RegisterFault.Text) × (spec.supplier_in (table_view table.now) ≡ None)) }
{
    let gln = string_at(table, "gln").ok_or(RegisterFault::Text)?;
    let key = string_at(table, "key").ok_or(RegisterFault::Text)?;
    let prefixes = prefixes_in(alloc, table)?;
    Ok(SupplierStrings { gln, prefixes, key })
}

// Appends the strings of a supplier's table.
fn put_entry<'a>(
    alloc: Global,
    value: &'a Value,
    entries: &mut Vec<SupplierStrings<'a>>,
) -> Result<(), RegisterFault>
    ensures ok { OnOk result (option_map (λ row. map row_in entries.old.items ++ row ∷ [])
        (spec.supplier_from (view value.now)) ≡ Some (map row_in entries.new.items)) }
    ensures err { IfErr result (λ fault. fault ≢ RegisterFault.Memory →
        (fault ≡ RegisterFault.Text) × (spec.supplier_from (view value.now) ≡ None)) }
{
    let Some(table) = value.as_table() else {
        return Err(RegisterFault::Text);
    };
    let entry = entry_in(alloc, table)?;
    entries.push(entry)?;
    Ok(())
}

// Reads the suppliers' tables.
fn entries_in<'a>(
    alloc: Global,
    values: &'a [Value],
) -> Result<Vec<SupplierStrings<'a>>, RegisterFault>
    ensures ok { IfOk result (λ entries.
        spec.suppliers_in (items_view values.now) ≡ Some (map row_in entries.items)) }
    ensures err { IfErr result (λ fault. fault ≢ RegisterFault.Memory →
        (fault ≡ RegisterFault.Text) × (spec.suppliers_in (items_view values.now) ≡ None)) }
{
    let mut entries = Vec::new(alloc);
    for value in values {
        put_entry(alloc, value, &mut entries)?;
    }
    Ok(entries)
}

// Reads all suppliers' tables; there are none if there is no key `supplier`.
fn suppliers_in<'a>(
    alloc: Global,
    table: &'a Table,
) -> Result<Vec<SupplierStrings<'a>>, RegisterFault>
    ensures ok { IfOk result (λ entries.
        spec.suppliers_at (codes "supplier") (table_view table.now) ≡ Some (map row_in entries.items)) }
    ensures err { IfErr result (λ fault. fault ≢ RegisterFault.Memory →
        (fault ≡ RegisterFault.Text) × (spec.suppliers_at (codes "supplier") (table_view table.now) ≡ None)) }
{
    let Some(value) = value_at(table, "supplier") else {
        return Ok(Vec::new(alloc));
    };
    let Some(values) = value.as_array() else {
        return Err(RegisterFault::Text);
    };
    entries_in(alloc, values.as_slice())
}

impl<'a> RegisterStrings<'a> {
    /// Reads the table of a text.
    pub(crate) fn read(
        alloc: Global,
        table: &'a Table,
    ) -> Result<RegisterStrings<'a>, RegisterFault>
        ensures ok { IfOk result (λ document.
            spec.rows_in (table_view table.now) ≡ Some (rows_from document)) }
        ensures err { IfErr result (λ fault. fault ≢ RegisterFault.Memory →
            (fault ≡ RegisterFault.Text) × (spec.rows_in (table_view table.now) ≡ None)) }
    {
        let hub = string_at(table, "hub").ok_or(RegisterFault::Text)?;
        let party = table_at(table, "retailer").ok_or(RegisterFault::Text)?;
        let retailer = string_at(party, "gln").ok_or(RegisterFault::Text)?;
        let retailer_key = string_at(party, "key").ok_or(RegisterFault::Text)?;
        let suppliers = suppliers_in(alloc, table)?;
        Ok(RegisterStrings {
            hub,
            retailer,
            retailer_key,
            suppliers,
        })
    }
}
