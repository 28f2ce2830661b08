//! The rows of a hub over a connection.
use sqlite::{Alter, Connection};
use std::alloc::Global;
use std::marker::Model;

/// The rows of a hub in a database of SQL, to read them alone. Clauses see its connection.
#[derive(Drop)]
pub struct HubRows<S: Alter> {
    pub(crate) conn: Connection<S>,
    pub(crate) alloc: Global,
}

impl<S: Alter> Model for HubRows<S> {
    ghost use Rattle.sqlite.specs.Held.{Held, held_code};
    ghost use Rattle.hub_audit.specs.Rows.{IsQuiet};

    ghost Value = { Held S };

    ghost coded = { held_code S.code };

    ghost view = { λ rows. rows.conn };

    ghost invariant = { λ rows. IsQuiet S.Store rows.conn };
}
