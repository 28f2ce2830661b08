//! Looks up the lowest value above another, in the column that divides the rows of a kind into pieces.
ghost use Rattle.std.specs.Prelude.{◌≡◌};
ghost use Rattle.hub_audit.specs.Next as spec;
ghost use Rattle.hub_schema.specs.State.{LooksFor};
ghost use Rattle.hub_pieces.specs.Pieces.{IsNext, values_in};
ghost use Rattle.sqlite.specs.Held.{state};

use edi_base::Items;
use hub_pieces::PieceKind;
use hub_rows::first_of;
use hub_store::StoreFault;
use sqlite::types::ValueRef;
use sqlite::{Alter, Connection};

// The text that selects the lowest value above a parameter.
fn next_text(kind: PieceKind) -> &'static str
    ensures { result.now ≡ spec.next_text kind }
{
    match kind {
        PieceKind::Order => {
            "SELECT supplier FROM \"order\" WHERE supplier > ?1 ORDER BY supplier LIMIT 1"
        }
        PieceKind::Line => {
            "SELECT supplier FROM line WHERE supplier > ?1 ORDER BY supplier LIMIT 1"
        }
        PieceKind::Advice => {
            "SELECT supplier FROM advice WHERE supplier > ?1 ORDER BY supplier LIMIT 1"
        }
        PieceKind::Pallet => {
            "SELECT supplier FROM pallet WHERE supplier > ?1 ORDER BY supplier LIMIT 1"
        }
        PieceKind::Content => { "SELECT sscc FROM content WHERE sscc > ?1 ORDER BY sscc LIMIT 1" }
        PieceKind::Receipt => { "SELECT sscc FROM receipt WHERE sscc > ?1 ORDER BY sscc LIMIT 1" }
        PieceKind::Remembered => {
            "SELECT supplier FROM remembered WHERE supplier > ?1 ORDER BY supplier LIMIT 1"
        }
        PieceKind::Mail => {
            "SELECT supplier FROM mail WHERE supplier > ?1 ORDER BY supplier LIMIT 1"
        }
    }
}

/// Returns the lowest value above `value`.
pub(crate) fn next_value<S: Alter>(
    conn: &mut Connection<S>,
    kind: PieceKind,
    value: &[u8],
) -> Result<Option<Items<u8>>, StoreFault>
    ensures { LooksFor (λ t. IsNext value.now (values_in kind t)) spec.Any
        (state S.Store conn.old) (state S.Store conn.new) result }
{
    let text = next_text(kind);
    first_of(conn, text, &[ValueRef::Blob(value)])
}
