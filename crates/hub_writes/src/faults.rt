//! Maps the results of statements, and their errors, to faults of the store.
ghost use Rattle.std.specs.Prelude.{◌≡◌};
ghost use Rattle.hub_writes.specs.Faults.{refusal_of, inserted, placed, ended};

use hub_schema::fault_by;
use hub_store::StoreFault;
use sqlite::{Error, ErrorCode};
use sqlite_schema::schema::Constraint;

/// Returns the fault for an error; a row whose key exists already does not fit.
fn refusal_by(error: &Error) -> StoreFault
    ensures { result ≡ refusal_of error.now }
{
    match error {
        Error::SqliteFailure(ErrorCode::ConstraintViolation(Constraint::Unique)) => {
            StoreFault::Unclean
        }
        _ => fault_by(error),
    }
}

/// Returns the result of an INSERT.
pub(crate) fn insert_ended(given: Result<usize, Error>) -> Result<(), StoreFault>
    ensures { result ≡ inserted given }
{
    match given {
        Ok(_) => Ok(()),
        Err(error) => Err(refusal_by(&error)),
    }
}

/// Returns the result of an UPDATE that must find a row: `Unclean` if it finds none.
pub(crate) fn update_ended(given: Result<usize, Error>) -> Result<(), StoreFault>
    ensures { result ≡ placed given }
{
    match given {
        Ok(0) => Err(StoreFault::Unclean),
        Ok(_) => Ok(()),
        Err(error) => Err(fault_by(&error)),
    }
}

/// Returns the result of a statement that may find any number of rows.
pub(crate) fn statement_ended(given: Result<usize, Error>) -> Result<(), StoreFault>
    ensures { result ≡ ended given }
{
    match given {
        Ok(_) => Ok(()),
        Err(error) => Err(fault_by(&error)),
    }
}

/// Returns the result of a call that gives no count: making tables, or a COMMIT.
pub(crate) fn call_ended(given: Result<(), Error>) -> Result<(), StoreFault>
    ensures { result ≡ ended given }
{
    match given {
        Ok(()) => Ok(()),
        Err(error) => Err(fault_by(&error)),
    }
}
