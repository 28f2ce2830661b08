//! Asks a connection with a fixed text.
ghost use Rattle.std.specs.Prelude.{◌≡◌, ◌⊎◌, ◌==◌, false, not, length, map, slice_get, IsTrue, IfOk, IfErr, IfSome};
ghost use Rattle.std.specs.List.{list_all};
ghost use Rattle.sqlite.specs.Held.{state};
ghost use Rattle.sqlite.specs.Values.{bound};
ghost use Rattle.hub_schema.specs.State.{Never};
ghost use Rattle.hub_rows.specs.Asks.{Asks};

use crate::shown::{ShownRow, all_shown, first_shown};
use edi_base::Items;
use hub_schema::fault_by;
use hub_store::StoreFault;
use sqlite::types::ValueRef;
use sqlite::{Alter, Connection, Row};
use std::alloc::Global;

/// Returns the rows of an answer.
pub fn query<S: Alter>(
    conn: &mut Connection<S>,
    text: &str,
    params: &[ValueRef<'_>],
) -> Result<Vec<Row>, StoreFault>
    ensures asks { Asks (λ rows answer. answer.items ≡ rows) Never text.now
        (bound params.now) (state S.Store conn.old) (state S.Store conn.new) result }
    ensures fails { IfErr result (λ fault. (fault ≡ StoreFault.Memory) ⊎ (fault ≡ StoreFault.Disk)) }
{
    // This contract says whether a transaction is open.
    let _ = conn.is_autocommit();
    match conn.query_all(text, params) {
        Ok(rows) => Ok(rows),
        Err(error) => Err(fault_by(&error)),
    }
}

/// Whether the answer has a row.
pub fn has_row<S: Alter>(
    conn: &mut Connection<S>,
    text: &str,
    params: &[ValueRef<'_>],
) -> Result<bool, StoreFault>
    ensures asks { Asks (λ rows answer. answer ≡ not (length rows == 0)) Never text.now
        (bound params.now) (state S.Store conn.old) (state S.Store conn.new) result }
{
    let rows = query(conn, text, params)?;
    Ok(!rows.is_empty())
}

/// Returns the rows of an answer; `Unclean` if one does not have the form of its kind.
pub fn rows_of<S: Alter, T: ShownRow>(
    conn: &mut Connection<S>,
    alloc: Global,
    text: &str,
    params: &[ValueRef<'_>],
) -> Result<Items<T>, StoreFault>
    ensures asks { Asks (λ rows items. items ≡ map T.shown rows)
        (λ rows. list_all T.clean (map T.shown rows) ≡ false) text.now
        (bound params.now) (state S.Store conn.old) (state S.Store conn.new) result }
    ensures clean { IfOk result (λ items. IsTrue (list_all T.clean items)) }
{
    let rows = query(conn, text, params)?;
    all_shown(alloc, rows.as_slice())
}

/// Returns the first row of an answer, if there is one; `Unclean` if it does not have the form of its kind.
pub fn first_of<S: Alter, T: ShownRow>(
    conn: &mut Connection<S>,
    text: &str,
    params: &[ValueRef<'_>],
) -> Result<Option<T>, StoreFault>
    ensures asks { Asks (λ rows first. first ≡ slice_get (map T.shown rows) 0)
        (λ rows. list_all T.clean (map T.shown rows) ≡ false)
        text.now (bound params.now) (state S.Store conn.old) (state S.Store conn.new) result }
    ensures clean { IfOk result (λ first. IfSome first (λ x. IsTrue (T.clean x))) }
{
    let rows = query(conn, text, params)?;
    first_shown(rows.as_slice())
}
