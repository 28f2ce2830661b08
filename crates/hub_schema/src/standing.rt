//! Checks that the storage below a connection has the hub's tables under their numbers.
ghost use Rattle.std.specs.Prelude.{◌+◌, ◌<◌, ◌^◌, ◌↔◌, IsTrue};
ghost use Rattle.hub_schema.specs.Definitions.{numbered, trees_of};
ghost use Rattle.hub_schema.specs.Schema.{hub_tables, traffic_tables};
ghost use Rattle.hub_schema.specs.State.{AreTables};

use crate::definitions::{Definition, all, traffic};
use sqlite::Alter;
use sqlite_trees::store::Shape;

// Whether each of these tables exists under its number; `tree` is the number of the first.
fn stand<S: Alter>(store: &S, tree: u32, definitions: &[Definition]) -> bool
    requires { tree + trees_of definitions.now < 2 ^ 32 }
    ensures { IsTrue result ↔ AreTables (S.Store.view store.now).shape (numbered tree definitions.now) }
{
    let [definition, definitions @ ..] = definitions else {
        return true;
    };
    let next = tree + 1 + definition.keys.len() as u32;
    matches!(store.shape(tree), Shape::Table) && stand(store, next, definitions)
}

/// Whether each table of the hub exists under its number.
pub fn has_hub_tables<S: Alter>(store: &S) -> bool
    ensures { IsTrue result ↔ AreTables (S.Store.view store.now).shape hub_tables }
{
    stand(store, 0, all())
}

/// Whether each table of schema 1 exists under its number.
pub fn has_old_tables<S: Alter>(store: &S) -> bool
    ensures { IsTrue result ↔ AreTables (S.Store.view store.now).shape traffic_tables }
{
    stand(store, 0, traffic())
}
