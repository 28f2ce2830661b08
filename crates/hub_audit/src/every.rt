//! Reads rows of a kind.
ghost use Rattle.std.specs.Prelude.{◌≡◌, IfOk, IfErr};
ghost use Rattle.hub_audit.specs.Every.{AreRead};
ghost use Rattle.hub_rows.specs.Asks.{Asks};
ghost use Rattle.hub_schema.specs.State.{Never};
ghost use Rattle.hub_pieces.specs.AllRows.{IsReadFault};
ghost use Rattle.sqlite.specs.Held.{state};
ghost use Rattle.sqlite.specs.Values.{bound};

use crate::key::{Part, key_of};
use edi_base::Items;
use hub_pieces::Read;
use hub_rows::{ShownRow, query};
use hub_store::StoreFault;
use sqlite::types::ValueRef;
use sqlite::{Alter, Connection, Row};
use std::alloc::Global;

// Returns the rows, or the key of the first without the form of its kind.
fn read_rows<T: ShownRow>(
    alloc: Global,
    rows: &[Row],
    parts: &[Part],
) -> Result<Read<T>, StoreFault>
    ensures read { IfOk result (AreRead T.shown T.clean parts.now rows.now) }
    ensures memory { IfErr result (λ fault. fault ≡ StoreFault.Memory) }
{
    let mut items = Items::new(alloc);
    'rows: for row in rows {
        let shown = T::of_row(row, items.as_slice().last());
        match shown {
            Ok(item) => {
                if items.push(item).is_err() {
                    return Err(StoreFault::Memory);
                }
            }
            Err(StoreFault::Unclean) => {
                let key = key_of(alloc, row, parts)?;
                return Ok(Read::Unclean(key));
            }
            Err(_refused) => return Err(StoreFault::Memory),
        }
    }
    Ok(Read::Rows(items))
}

/// Returns the rows that a text selects, or the key of the first without the form of its kind. The columns of the key
/// come first.
pub(crate) fn every<S: Alter, T: ShownRow>(
    conn: &mut Connection<S>,
    alloc: Global,
    text: &str,
    params: &[ValueRef<'_>],
    parts: &[Part],
) -> Result<Read<T>, StoreFault>
    ensures asks { Asks (AreRead T.shown T.clean parts.now) Never text.now (bound params.now)
        (state S.Store conn.old) (state S.Store conn.new) result }
    ensures fails { IfErr result IsReadFault }
{
    let rows = query(conn, text, params)?;
    read_rows(alloc, rows.as_slice(), parts)
}
