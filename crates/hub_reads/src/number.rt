//! Looks up the number of the schema.
ghost use Rattle.std.specs.Prelude.{◌≡◌, ◌↔◌, ◌∷◌, [], pos, IsTrue};
ghost use Rattle.sqlite.specs.Held.{state};
ghost use Rattle.sqlite_value.specs.declared.value.Value.TheVariants.{Int};
ghost use Rattle.hub_reads.specs.Numbered.{TellsNumber};

use hub_rows::query;
use hub_store::StoreFault;
use sqlite::types::ValueRef;
use sqlite::{Alter, Connection, Row};

// Whether the answer is this number alone.
fn is_alone(number: u32, rows: &[Row]) -> bool
    ensures { IsTrue result ↔ (rows.now ≡ (Int (pos number) ∷ []) ∷ []) }
{
    let [row] = rows else {
        return false;
    };
    let Ok(ValueRef::Int(found)) = row.get_ref(0) else {
        return false;
    };
    row.column_count() == 1 && found == i64::from(number)
}

/// Whether the schema has this number, in a database with the tables of a hub or with those of schema 1.
pub fn is_numbered<S: Alter>(conn: &mut Connection<S>, number: u32) -> Result<bool, StoreFault>
    ensures number { TellsNumber number (state S.Store conn.old) (state S.Store conn.new) result }
{
    let rows = query(conn, "SELECT number FROM schema", &[])?;
    Ok(is_alone(number, rows.as_slice()))
}
