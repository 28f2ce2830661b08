//! Looks up the lines of orders.
ghost use Rattle.std.specs.Prelude.{◌≡◌, ◌++◌, pos, IsTrue, IfOk, OnOk};
ghost use Rattle.std.specs.List.{list_all};
ghost use Rattle.sqlite.specs.Held.{state};
ghost use Rattle.sqlite_value.specs.Value.{owned};
ghost use Rattle.sqlite_value.specs.declared.value.Value.TheVariants.{Int};
ghost use Rattle.hub_store.specs.Clean.{clean_line};
ghost use Rattle.hub_store.specs.Lines.{lines_at as at, lines_numbered as numbered};
ghost use Rattle.hub_schema.specs.State.{LooksUp};
ghost use Rattle.hub_tables.specs.State.{lines_of as lines};
ghost use Rattle.hub_tables.specs.Tables.{view};

use crate::order::order_known;
use edi_base::{Items, MemoryFault};
use gs1_ids::Gln;
use hub_rows::rows_of;
use hub_store::StoreFault;
use hub_tables::LineRow;
use sqlite::types::ValueRef;
use sqlite::{Alter, Connection};
use std::alloc::Global;
use std::collections::BTreeSet;

/// Returns the lines of an order, by line number.
pub fn lines_of<S: Alter>(
    conn: &mut Connection<S>,
    alloc: Global,
    supplier: &Gln,
    number: &[u8],
) -> Result<Items<LineRow>, StoreFault>
    ensures looks { LooksUp (λ t. lines (view supplier.now t) number.now)
        (state S.Store conn.old) (state S.Store conn.new) result }
    ensures clean { IfOk result (λ rows. IsTrue (list_all clean_line rows)) }
{
    rows_of(
        conn,
        alloc,
        "SELECT supplier, number, line, gtin, ordered, open_qty, refused, cancelled, answer FROM line \
            WHERE supplier = ?1 AND number = ?2 ORDER BY supplier, number, line",
        &[ValueRef::Blob(supplier.digits()), ValueRef::Blob(number)],
    )
}

// Returns a line number as a parameter.
fn value_of<'a>(line: u32) -> ValueRef<'a>
    ensures { owned result ≡ Int (pos line) }
{
    ValueRef::Int(i64::from(line))
}

// Returns the lines of an order with a line number: one or none, if the tables are sound.
fn lines_numbered<S: Alter>(
    conn: &mut Connection<S>,
    alloc: Global,
    supplier: &Gln,
    number: &[u8],
    line: u32,
) -> Result<Items<LineRow>, StoreFault>
    ensures looks { LooksUp (λ t. numbered (view supplier.now t) number.now line)
        (state S.Store conn.old) (state S.Store conn.new) result }
    ensures clean { IfOk result (λ rows. IsTrue (list_all clean_line rows)) }
{
    let value = value_of(line);
    rows_of(
        conn,
        alloc,
        "SELECT supplier, number, line, gtin, ordered, open_qty, refused, cancelled, answer FROM line \
            WHERE supplier = ?1 AND number = ?2 AND line = ?3 ORDER BY supplier, number, line",
        &[
            ValueRef::Blob(supplier.digits()),
            ValueRef::Blob(number),
            value,
        ],
    )
}

// Appends rows to others.
fn put_lines(found: &mut Items<LineRow>, rows: Items<LineRow>) -> Result<(), MemoryFault>
    ensures { OnOk result (found.new ≡ found.old ++ rows) }
{
    for row in rows.into_vec() {
        found.push(row)?;
    }
    Ok(())
}

/// Returns the lines of an order with one of these line numbers, by number: for each number one or none, if the tables
/// are sound.
pub fn lines_at<S: Alter>(
    conn: &mut Connection<S>,
    alloc: Global,
    supplier: &Gln,
    number: &[u8],
    lines: &BTreeSet<u32>,
) -> Result<Items<LineRow>, StoreFault>
    ensures looks { LooksUp (λ t. at (view supplier.now t) number.now lines.now.keys)
        (state S.Store conn.old) (state S.Store conn.new) result }
    ensures clean { IfOk result (λ rows. IsTrue (list_all clean_line rows)) }
{
    let mut numbers = lines.iter();
    let Some(first) = numbers.next() else {
        // Without numbers there is nothing to find, but a connection that is shut has to fail here too.
        order_known(conn, supplier, number)?;
        return Ok(Items::new(alloc));
    };
    let mut found = lines_numbered(conn, alloc, supplier, number, *first)?;
    for line in numbers {
        let rows = lines_numbered(conn, alloc, supplier, number, *line)?;
        put_lines(&mut found, rows)?;
    }
    Ok(found)
}

/// Returns the lines of all orders of the supplier, by order number and line number.
pub fn all_lines<S: Alter>(
    conn: &mut Connection<S>,
    alloc: Global,
    supplier: &Gln,
) -> Result<Items<LineRow>, StoreFault>
    ensures looks { LooksUp (λ t. (view supplier.now t).lines)
        (state S.Store conn.old) (state S.Store conn.new) result }
    ensures clean { IfOk result (λ rows. IsTrue (list_all clean_line rows)) }
{
    rows_of(
        conn,
        alloc,
        "SELECT supplier, number, line, gtin, ordered, open_qty, refused, cancelled, answer FROM line \
            WHERE supplier = ?1 ORDER BY supplier, number, line",
        &[ValueRef::Blob(supplier.digits())],
    )
}
