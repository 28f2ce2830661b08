//! Defines a store over an SQL connection.
ghost use Rattle.std.specs.Prelude.{◌≡◌, ◌∷◌, [], true, false, None};
ghost use Rattle.std.specs.Option.{IfSome};
ghost use Rattle.sqlite.specs.Held.{state};
ghost use Rattle.sqlite.specs.State.{HasCleanDisk};
ghost use Rattle.hub_schema.specs.Rows.{tables_in};
ghost use Rattle.hub_schema.specs.State.{IsHub};
ghost use Rattle.hub_store.specs.Calls.{fault_of};
ghost use Rattle.hub_sql.specs.Settling.{Settles};
ghost use Rattle.hub_sql.specs.Stored.{HasRegister};

use crate::marks::TakenMarks;
use http_server::Log;
use hub_register::Register;
use hub_schema::is_hub_schema;
use hub_store::{LastingFault, StoreFault};
use sqlite::{Alter, Connection};
use sqlite_schema::schema::Schema;
use std::alloc::Global;
use std::collections::BTreeMap;
use std::marker::Model;

/// A store that keeps a hub's rows in an SQL database.
#[derive(Drop)]
pub struct SqliteStore<S: Alter> {
    pub(crate) conn: Connection<S>,
    pub(crate) alloc: Global,
    pub(crate) fault: Option<LastingFault>,
    // The register of the rows, until someone asks for it or the rows change.
    pub(crate) register: Option<Register>,
    // The marks of suppliers that asked for a list: all entries up to a mark are taken.
    pub(crate) marks: TakenMarks,
    // The connection as it was after opening and after each commit. Only contracts read it; it takes no memory.
    pub(crate) past: Log<Connection<S>, bool>,
}

impl<S: Alter> Model for SqliteStore<S> {
    ghost use Rattle.hub_sql.specs.Stored.{Stored, stored_code, IsSoundStore};

    ghost Value = { Stored S };

    ghost coded = { stored_code S.code };

    ghost view = { λ s. record { held = s.conn; fault = s.fault; past = s.past.items } };

    ghost invariant = { λ s. IsSoundStore S.Store s.register s.marks
        (record { held = s.conn; fault = s.fault; past = s.past.items }) };
}

/// Returns the lasting fault as each call reports it.
pub(crate) fn again(lasting: LastingFault) -> StoreFault
    ensures { result ≡ fault_of lasting }
{
    match lasting {
        LastingFault::Disk => StoreFault::Disk,
        LastingFault::Unclean => StoreFault::Unclean,
    }
}

/// Returns what a call on the connection found, and the lasting fault if the call caused one. `Memory` causes none
/// while the connection has the hub's tables.
pub(crate) fn settle<X>(
    found: Result<X, StoreFault>,
    schema: &Schema,
    fault: &mut Option<LastingFault>,
) -> Result<X, StoreFault>
    requires { fault.old ≡ None }
    ensures settles { Settles found schema.now result fault.new }
{
    match found {
        Ok(value) => Ok(value),
        Err(StoreFault::Memory) if is_hub_schema(schema) => Err(StoreFault::Memory),
        Err(StoreFault::Unclean) => {
            *fault = Some(LastingFault::Unclean);
            Err(StoreFault::Unclean)
        }
        Err(StoreFault::Memory | StoreFault::Disk | StoreFault::Version) => {
            *fault = Some(LastingFault::Disk);
            Err(StoreFault::Disk)
        }
    }
}

impl<S: Alter> SqliteStore<S> {
    // Makes the store of a connection that holds the hub's tables, with the register of its rows if that is known.
    pub(crate) fn from_tables(
        alloc: Global,
        conn: Connection<S>,
        register: Option<Register>,
    ) -> SqliteStore<S>
        requires idle { conn.in_transaction ≡ false }
        requires hub { HasCleanDisk (state S.Store conn) → IsHub (state S.Store conn) }
        requires theirs { HasCleanDisk (state S.Store conn) →
            IfSome register (HasRegister (tables_in (state S.Store conn).now.trees)) }
        ensures { result ≡ record { held = conn; fault = None; past = (conn, true) ∷ [] } }
    {
        let past = Log::new().and(&conn, &true);
        SqliteStore {
            conn,
            alloc,
            fault: None,
            register,
            marks: BTreeMap::new(alloc),
            past,
        }
    }
}
