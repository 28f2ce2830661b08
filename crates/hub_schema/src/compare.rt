//! Decides whether a schema is one of the hub's.
ghost use Rattle.std.specs.Prelude.{◌≡◌, ◌+◌, ◌↔◌, IsTrue, [], map};
ghost use Rattle.sql_rows.specs.Tables.{strict_column, plain_table};
ghost use Rattle.sqlite_value.specs.Keys.{plain};
ghost use Rattle.hub_schema.specs.Definitions.{strict_columns, place_of, places_of, first_of, defined_at, numbered};
ghost use Rattle.hub_schema.specs.Definitions.{index_of, own_indexes, all_indexes};
ghost use Rattle.hub_schema.specs.Schema.{next_to, hub_schema, old_schema, no_schema};

use crate::definitions::{Definition, TableKey, all, traffic};
use sqlite_items::Items;
use sqlite_schema::code::Terms;
use sqlite_schema::schema::{Column, Index, Kind, Schema, Stamps, Table};
use sqlite_value::keys::{Collation, Order};
use sqlite_value::value::Value;

// Whether the column has this name and type, and rejects NULL.
fn is_column(column: &Column, name: &[u8], kind: Kind) -> bool
    ensures { IsTrue result ↔ (column.now ≡ strict_column name.now kind) }
{
    let Value::Null = column.default else {
        return false;
    };
    let Collation::Binary = column.collation else {
        return false;
    };
    column.name.as_slice() == name && column.kind == kind && column.is_strict && column.not_null
}

// Whether there are no expressions.
fn is_none(terms: &Terms) -> bool
    ensures { IsTrue result ↔ (terms.now ≡ []) }
{
    terms.roots.is_empty()
}

// Whether no column is stamped.
fn is_unstamped(stamps: &Stamps) -> bool
    ensures { IsTrue result ↔ (stamps.now ≡ record { places = []; terms = []; formats = [] }) }
{
    stamps.places.is_empty() && is_none(&stamps.terms) && stamps.formats.is_empty()
}

// Whether the columns are these, in this order.
fn are_columns(columns: &[Column], expected: &[(&str, Kind)]) -> bool
    ensures { IsTrue result ↔ (columns.now ≡ strict_columns expected.now) }
{
    let [column, columns @ ..] = columns else {
        return expected.is_empty();
    };
    let [(name, kind), expected @ ..] = expected else {
        return false;
    };
    is_column(column, name.as_bytes(), *kind) && are_columns(columns, expected)
}

// Whether the column with this name is at this position.
fn is_place(place: usize, name: &str, columns: &[(&str, Kind)]) -> bool
    ensures { IsTrue result ↔ (place ≡ place_of (strict_columns columns.now) name.now) }
{
    let [(column, _), columns @ ..] = columns else {
        return place == 1;
    };
    if *column == name {
        place == 1
    } else {
        place > 0 && is_place(place - 1, name, columns)
    }
}

// Whether the columns with these names are at these positions.
fn are_places(places: &[usize], names: &[&str], columns: &[(&str, Kind)]) -> bool
    ensures { IsTrue result ↔ (places.now
        ≡ map (λ name. place_of (strict_columns columns.now) name.now) names.now) }
{
    let [place, places @ ..] = places else {
        return names.is_empty();
    };
    let [name, names @ ..] = names else {
        return false;
    };
    is_place(*place, name, columns) && are_places(places, names, columns)
}

// Whether this is the key, in ascending order of its bytes.
fn is_key(places: &Items<usize>, order: Order, key: &TableKey, columns: &[(&str, Kind)]) -> bool
    ensures { IsTrue result ↔
        ((places.now ≡ places_of (strict_columns columns.now) key.now) × (order ≡ plain)) }
{
    are_places(places.as_slice(), key.columns, columns) && order.digits == 0
}

// Whether these are the keys.
fn are_keys(
    keys: &[Items<usize>],
    orders: &[Order],
    expected: &[TableKey],
    columns: &[(&str, Kind)],
) -> bool
    ensures { IsTrue result ↔
        ((keys.now ≡ map (places_of (strict_columns columns.now)) expected.now)
        × (orders.now ≡ map (λ _. plain) expected.now)) }
{
    let [key, keys @ ..] = keys else {
        return orders.is_empty() && expected.is_empty();
    };
    let [order, orders @ ..] = orders else {
        return false;
    };
    let [wanted, expected @ ..] = expected else {
        return false;
    };
    is_key(key, *order, wanted, columns) && are_keys(keys, orders, expected, columns)
}

// Whether the primary key is the first one.
fn is_first(primary: &Items<usize>, keys: &[Items<usize>]) -> bool
    ensures { IsTrue result ↔ (primary.now ≡ first_of keys.now) }
{
    let [key, ..] = keys else {
        return primary.is_empty();
    };
    primary.as_slice() == key.as_slice()
}

// Whether the table has columns and keys, and no other rules.
fn is_plain(table: &Table, name: &[u8]) -> bool
    ensures { IsTrue result ↔ (table.now
        ≡ plain_table table.now.tree name.now table.now.columns table.now.primary table.now.uniques
        table.now.orders) }
{
    table.name.as_slice() == name
        && table.key.is_none()
        && table.references.is_empty()
        && table.computed.is_empty()
        && !table.is_counted
        && is_none(&table.checks)
        && is_unstamped(&table.stamps)
}

// Whether the table is the one of the definition, whatever its number.
fn is_table(table: &Table, definition: &Definition) -> bool
    ensures { IsTrue result ↔ (table.now ≡ defined_at table.now.tree definition.now) }
{
    is_plain(table, definition.name.as_bytes())
        && are_columns(table.columns.as_slice(), definition.columns)
        && are_keys(
            table.uniques.as_slice(),
            table.orders.as_slice(),
            definition.keys,
            definition.columns,
        )
        && is_first(&table.primary, table.uniques.as_slice())
}

// Whether the table has the next free number after another table and its keys.
fn is_next(table: &Table, before: &Table) -> bool
    ensures { IsTrue result ↔ (table.now.tree ≡ next_to before.now) }
{
    table.tree > before.tree && (table.tree - before.tree - 1) as usize == before.uniques.len()
}

// Whether the tables are those of the definitions, numbered after the table `before`.
fn are_behind(before: &Table, tables: &[Table], definitions: &[Definition]) -> bool
    ensures { IsTrue result ↔ (tables.now ≡ numbered (next_to before.now) definitions.now) }
{
    let [table, tables @ ..] = tables else {
        return definitions.is_empty();
    };
    let [definition, definitions @ ..] = definitions else {
        return false;
    };
    is_next(table, before) && is_table(table, definition) && are_behind(table, tables, definitions)
}

// Whether the tables are those of the definitions, numbered from 0.
fn are_tables(tables: &[Table], definitions: &[Definition]) -> bool
    ensures { IsTrue result ↔ (tables.now ≡ numbered 0 definitions.now) }
{
    let [table, tables @ ..] = tables else {
        return definitions.is_empty();
    };
    let [definition, definitions @ ..] = definitions else {
        return false;
    };
    table.tree == 0 && is_table(table, definition) && are_behind(table, tables, definitions)
}

// Whether the index is that of a key of a table, with the number after `before`.
fn is_index(
    index: &Index,
    table: u32,
    before: u32,
    key: &TableKey,
    columns: &[(&str, Kind)],
) -> bool
    ensures { IsTrue result ↔ (index.now ≡ index_of table (before + 1) (strict_columns columns.now) key.now) }
{
    index.name.as_slice() == key.index.as_bytes()
        && index.table == table
        && index.tree > before
        && index.tree - before == 1
        && index.is_unique
        && is_key(&index.columns, index.order, key, columns)
}

// Whether these are the indexes of the keys of a table, with the numbers after `before`.
fn are_own(
    indexes: &[Index],
    table: u32,
    before: u32,
    keys: &[TableKey],
    columns: &[(&str, Kind)],
) -> bool
    ensures { IsTrue result ↔ (indexes.now
        ≡ own_indexes table (before + 1) (strict_columns columns.now) keys.now) }
{
    let [index, indexes @ ..] = indexes else {
        return keys.is_empty();
    };
    let [key, keys @ ..] = keys else {
        return false;
    };
    is_index(index, table, before, key, columns)
        && are_own(indexes, table, index.tree, keys, columns)
}

// Whether each key of these tables has its index, and there are no others.
fn are_indexes(indexes: &[Index], tables: &[Table], definitions: &[Definition]) -> bool
    ensures { IsTrue result ↔ (indexes.now ≡ all_indexes tables.now definitions.now) }
{
    let [table, tables @ ..] = tables else {
        return indexes.is_empty();
    };
    let [definition, definitions @ ..] = definitions else {
        return indexes.is_empty();
    };
    let (own, others) = indexes.split_at(indexes.len().min(definition.keys.len()));
    are_own(
        own,
        table.tree,
        table.tree,
        definition.keys,
        definition.columns,
    ) && are_indexes(others, tables, definitions)
}

// Whether the schema has the tables of the definitions and their keys, in the order in which they are made, and nothing
// else.
fn is_of(schema: &Schema, definitions: &[Definition]) -> bool
    ensures { IsTrue result ↔ (schema.now ≡ record {
      tables = numbered 0 definitions.now;
      indexes = all_indexes (numbered 0 definitions.now) definitions.now;
      views = [];
    }) }
{
    are_tables(schema.tables.as_slice(), definitions)
        && are_indexes(
            schema.indexes.as_slice(),
            schema.tables.as_slice(),
            definitions,
        )
        && schema.views.is_empty()
}

/// Whether the schema is the hub's: its tables and their keys, in the order in which they are made, and nothing else.
pub fn is_hub_schema(schema: &Schema) -> bool
    ensures { IsTrue result ↔ (schema.now ≡ hub_schema) }
{
    is_of(schema, all())
}

/// Whether the schema is schema 1: the tables of orders, goods and messages with their keys, and nothing else.
pub fn is_old_schema(schema: &Schema) -> bool
    ensures { IsTrue result ↔ (schema.now ≡ old_schema) }
{
    is_of(schema, traffic())
}

/// Whether the schema is empty.
pub fn is_no_schema(schema: &Schema) -> bool
    ensures { IsTrue result ↔ (schema.now ≡ no_schema) }
{
    schema.tables.is_empty() && schema.indexes.is_empty() && schema.views.is_empty()
}
