//! Defines the hub's tables: these definitions are used both to make tables and to compare a schema with them.
ghost use Rattle.std.specs.Prelude.{◌≡◌, ◌<◌, ◌^◌, [], take, drop};
ghost use Rattle.hub_schema.specs.Definitions.{Make, all_indexes, numbered, trees_of};
ghost use Rattle.hub_schema.specs.Schema.{hub_tables, indexes_of, party_tables, traffic_tables};

use sqlite_schema::schema::Kind;

/// A key: the name of its index, and its columns.
#[derive(Clone, Copy, Drop)]
pub(crate) struct TableKey {
    pub(crate) index: &'static str,
    pub(crate) columns: &'static [&'static str],
}

/// A table: its name, the statement that makes it, its columns, and its keys with the primary key first.
#[derive(Clone, Copy, Drop)]
pub(crate) struct Definition {
    pub(crate) name: &'static str,
    pub(crate) text: &'static str,
    pub(crate) columns: &'static [(&'static str, Kind)],
    pub(crate) keys: &'static [TableKey],
}

macro_rules! kind {
    ("BLOB") => {
        Kind::Blob
    };
    ("INTEGER") => {
        Kind::Integer
    };
}

// Defines a table by its name, its columns, its primary key and its other keys. Names are quoted because some are SQL
// keywords.
macro_rules! table {
    (
        $name:tt: $head:tt $first:tt $(, $column:tt $kind:tt)*;
        $(primary $key:tt $(, $part:tt)*;)?
        $(unique $one:tt $(, $other:tt)*;)?
    ) => {
        Definition {
            name: $name,
            text: concat!(
                "CREATE TABLE \"", $name, "\" (\"", $head, "\" ", $first, " NOT NULL"
                $(, ", \"", $column, "\" ", $kind, " NOT NULL")*
                $(, ", PRIMARY KEY (\"", $key, "\"" $(, ", \"", $part, "\"")*, ")")?
                $(, ", UNIQUE (\"", $one, "\"" $(, ", \"", $other, "\"")*, ")")?,
                ") STRICT"
            ),
            columns: &[($head, kind!($first)) $(, ($column, kind!($kind)))*],
            keys: &[
                $(TableKey {
                    index: concat!("sqlite_autoindex_", $name, "_1"),
                    columns: &[$key $(, $part)*],
                },)?
                $(TableKey {
                    index: concat!("sqlite_autoindex_", $name, "_2"),
                    columns: &[$one $(, $other)*],
                },)?
            ],
        }
    };
}

// In the order in which they are made: those of orders, goods and messages, then those of the register.
static TABLES: [Definition; 12] = [
    table!("schema":
        "number" "INTEGER";
    ),
    table!("order":
        "supplier" "BLOB",
        "number" "BLOB";
        primary "supplier", "number";
    ),
    table!("line":
        "supplier" "BLOB",
        "number" "BLOB",
        "line" "INTEGER",
        "gtin" "BLOB",
        "ordered" "INTEGER",
        "open_qty" "INTEGER",
        "refused" "INTEGER",
        "cancelled" "INTEGER",
        "answer" "INTEGER";
        primary "supplier", "number", "line";
    ),
    table!("advice":
        "supplier" "BLOB",
        "number" "BLOB";
        primary "supplier", "number";
    ),
    table!("pallet":
        "sscc" "BLOB",
        "supplier" "BLOB",
        "advice" "BLOB",
        "received" "INTEGER";
        primary "sscc";
        unique "supplier", "sscc";
    ),
    table!("content":
        "sscc" "BLOB",
        "place" "INTEGER",
        "number" "BLOB",
        "line" "INTEGER",
        "quantity" "INTEGER";
        primary "sscc", "place";
    ),
    table!("receipt":
        "sscc" "BLOB",
        "gtin" "BLOB",
        "accepted" "INTEGER",
        "returned" "INTEGER",
        "destroyed" "INTEGER";
        primary "sscc", "gtin";
    ),
    table!("remembered":
        "supplier" "BLOB",
        "side" "INTEGER",
        "control" "BLOB",
        "message" "BLOB",
        "content" "BLOB";
        primary "supplier", "side", "control", "message";
    ),
    table!("mail":
        "supplier" "BLOB",
        "number" "INTEGER",
        "moment" "INTEGER",
        "decimal" "INTEGER",
        "kind" "INTEGER",
        "document" "BLOB",
        "body" "BLOB",
        "taken" "INTEGER";
        primary "supplier", "number";
    ),
    table!("hub":
        "hub" "BLOB",
        "retailer" "BLOB",
        "key" "BLOB";
        primary "hub";
    ),
    table!("supplier":
        "supplier" "BLOB",
        "key" "BLOB";
        primary "supplier";
    ),
    table!("prefix":
        "prefix" "BLOB",
        "supplier" "BLOB";
        primary "prefix";
    ),
];

const TRAFFIC: usize = 9;

/// Returns all tables.
pub(crate) fn all() -> &'static [Definition]
    ensures tables { numbered 0 result.now ≡ hub_tables }
    ensures indexes { all_indexes hub_tables result.now ≡ indexes_of hub_tables }
    ensures texts { Make [] result.now hub_tables }
    ensures trees { trees_of result.now < 2 ^ 32 }
    ensures traffic { numbered 0 (take 9 result.now) ≡ traffic_tables }
    ensures traffic_indexes { all_indexes traffic_tables (take 9 result.now) ≡ indexes_of traffic_tables }
    ensures parties { Make traffic_tables (drop 9 result.now) party_tables }
{
    &TABLES
}

/// Returns the tables of orders, goods and messages.
pub(crate) fn traffic() -> &'static [Definition]
    ensures tables { numbered 0 result.now ≡ traffic_tables }
    ensures indexes { all_indexes traffic_tables result.now ≡ indexes_of traffic_tables }
    ensures trees { trees_of result.now < 2 ^ 32 }
{
    &all()[..TRAFFIC]
}

/// Returns the tables of the register.
pub(crate) fn parties() -> &'static [Definition]
    ensures { Make traffic_tables result.now party_tables }
{
    &all()[TRAFFIC..]
}
