//! Defines the versions of the tables.
ghost use Rattle.std.specs.Prelude.{◌≡◌, ◌↔◌, IsTrue};
ghost use Rattle.hub_schema.specs.State.{AreTables};
ghost use Rattle.hub_sql.specs.Version.{schema_of, number_of, tables_of};

use hub_schema::{has_hub_tables, has_old_tables, is_hub_schema, is_old_schema};
use sqlite::Alter;
use sqlite_schema::schema::Schema;

/// A version of the tables.
#[derive(Clone, Copy, Debug, PartialEq, Eq)]
pub enum Version {
    /// Schema 1, which has no register.
    First,
    /// Schema 2, in which no receipt replaces another.
    Second,
    /// Schema 3.
    Third,
}

impl Version {
    /// Returns the number in the table `schema`.
    pub(crate) fn number(self) -> u32
        ensures { result ≡ number_of self }
    {
        match self {
            Version::First => 1,
            Version::Second => 2,
            Version::Third => 3,
        }
    }

    /// Whether the schema is of this version.
    pub(crate) fn is_of(self, schema: &Schema) -> bool
        ensures { IsTrue result ↔ (schema.now ≡ schema_of self) }
    {
        match self {
            Version::First => is_old_schema(schema),
            Version::Second | Version::Third => is_hub_schema(schema),
        }
    }

    /// Whether each table of this version exists.
    pub(crate) fn has_tables<S: Alter>(self, store: &S) -> bool
        ensures { IsTrue result ↔ AreTables (S.Store.view store.now).shape (tables_of self) }
    {
        match self {
            Version::First => has_old_tables(store),
            Version::Second | Version::Third => has_hub_tables(store),
        }
    }
}
