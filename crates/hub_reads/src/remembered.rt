//! Looks up what is remembered under references.
ghost use Rattle.std.specs.Prelude.{◌≡◌, ◌↔◌, ◌==◌, pos, length, option_map, slice_get, IsTrue, IfOk, IfSome};
ghost use Rattle.sqlite.specs.Held.{state};
ghost use Rattle.sqlite.specs.Values.{bound};
ghost use Rattle.sqlite_value.specs.Order.{column};
ghost use Rattle.sqlite_value.specs.Value.{owned};
ghost use Rattle.sqlite_value.specs.declared.value.Value.TheVariants.{Int};
ghost use Rattle.hub_store.specs.Clean.{are_bytes};
ghost use Rattle.hub_schema.specs.State.{LooksUp, Never};
ghost use Rattle.hub_rows.specs.Asks.{Asks};
ghost use Rattle.hub_tables.specs.Cases.{side_letter};
ghost use Rattle.hub_tables.specs.Rows.{same};
ghost use Rattle.hub_tables.specs.State.{remembered_content as remembered};
ghost use Rattle.hub_tables.specs.Tables.{view};
ghost use Rattle.hub_reads.specs.Length.{is_number};

use edi_base::Items;
use gs1_ids::Gln;
use hub_rows::{first_of, query};
use hub_store::StoreFault;
use hub_tables::{Case, Side};
use sqlite::types::ValueRef;
use sqlite::{Alter, Connection, Row};

// Returns the letter of a side, as a parameter.
fn letter_of<'a>(side: Side) -> ValueRef<'a>
    ensures { owned result ≡ Int (pos (side_letter side)) }
{
    ValueRef::Int(i64::from(side.code()))
}

/// Returns the content remembered for a side under two references; a cancellation has no message reference.
pub fn remembered_content<'a, S: Alter>(
    conn: &mut Connection<S>,
    supplier: &'a Gln,
    side: Side,
    control: &'a [u8],
    message: &'a [u8],
) -> Result<Option<Items<u8>>, StoreFault>
    ensures looks { LooksUp (λ t. remembered (view supplier.now t) side control.now message.now)
        (state S.Store conn.old) (state S.Store conn.new) result }
    ensures clean { IfOk result (λ found. IfSome found (λ content. IsTrue (are_bytes content))) }
{
    let letter = letter_of(side);
    first_of(
        conn,
        "SELECT content FROM remembered WHERE supplier = ?1 AND side = ?2 AND control = ?3 AND message = ?4",
        &[
            ValueRef::Blob(supplier.digits()),
            letter,
            ValueRef::Blob(control),
            ValueRef::Blob(message),
        ],
    )
}

// Whether the first column is this number.
fn shows_number(row: &Row, number: i64) -> bool
    ensures { IsTrue result ↔ (column row.now 0 ≡ Int number) }
{
    match row.get_ref(0) {
        Ok(ValueRef::Int(found)) => found == number,
        _ => false,
    }
}

// Whether the first row shows the length of these bytes; `None` if there is no row.
fn first_shows_length(rows: &[Row], bytes: &[u8]) -> Option<bool>
    ensures { result ≡ option_map (λ row. is_number (length bytes.now) (column row 0)) (slice_get rows.now 0) }
{
    match rows.first() {
        Some(row) => Some(shows_number(row, bytes.len() as i64)),
        None => None,
    }
}

// Whether the first row of an answer shows the length of these bytes; `None` if there is no row.
fn answer_shows_length<S: Alter>(
    conn: &mut Connection<S>,
    text: &str,
    params: &[ValueRef<'_>],
    bytes: &[u8],
) -> Result<Option<bool>, StoreFault>
    ensures asks { Asks (λ rows is. is ≡ option_map (λ row.
        is_number (length bytes.now) (column row 0)) (slice_get rows 0)) Never text.now
        (bound params.now) (state S.Store conn.old) (state S.Store conn.new) result }
{
    let rows = query(conn, text, params)?;
    Ok(first_shows_length(rows.as_slice(), bytes))
}

// Whether the content remembered for a side under two references is as long as this text; `None` if nothing is
// remembered. The content is not copied.
fn is_as_long<'a, S: Alter>(
    conn: &mut Connection<S>,
    supplier: &'a Gln,
    side: Side,
    control: &'a [u8],
    message: &'a [u8],
    text: &[u8],
) -> Result<Option<bool>, StoreFault>
    ensures looks { LooksUp (λ t. option_map (λ there. length there == length text.now)
        (remembered (view supplier.now t) side control.now message.now))
        (state S.Store conn.old) (state S.Store conn.new) result }
{
    let letter = letter_of(side);
    answer_shows_length(
        conn,
        "SELECT length(content) FROM remembered WHERE supplier = ?1 AND side = ?2 AND control = ?3 AND message = ?4",
        &[
            ValueRef::Blob(supplier.digits()),
            letter,
            ValueRef::Blob(control),
            ValueRef::Blob(message),
        ],
        text,
    )
}

// Like `matches_remembered`, but always copies the content.
fn matches_content<'a, S: Alter>(
    conn: &mut Connection<S>,
    supplier: &'a Gln,
    side: Side,
    control: &'a [u8],
    message: &'a [u8],
    text: &[u8],
) -> Result<Option<bool>, StoreFault>
    ensures looks { LooksUp (λ t. option_map (λ there. same there text.now)
        (remembered (view supplier.now t) side control.now message.now))
        (state S.Store conn.old) (state S.Store conn.new) result }
{
    match remembered_content(conn, supplier, side, control, message)? {
        Some(there) => Ok(Some(there.as_slice() == text)),
        None => Ok(None),
    }
}

/// Returns whether this text is the content remembered for a side under two references, or `None` if nothing is
/// remembered. The content is copied only if it is as long as the text, which takes a second query.
pub fn matches_remembered<'a, S: Alter>(
    conn: &mut Connection<S>,
    supplier: &'a Gln,
    side: Side,
    control: &'a [u8],
    message: &'a [u8],
    text: &[u8],
) -> Result<Option<bool>, StoreFault>
    ensures looks { LooksUp (λ t. option_map (λ there. same there text.now)
        (remembered (view supplier.now t) side control.now message.now))
        (state S.Store conn.old) (state S.Store conn.new) result }
{
    match is_as_long(conn, supplier, side, control, message, text)? {
        Some(true) => matches_content(conn, supplier, side, control, message, text),
        Some(false) => Ok(Some(false)),
        None => Ok(None),
    }
}
