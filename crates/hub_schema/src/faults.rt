//! Maps SQL errors to faults of the store.
ghost use Rattle.std.specs.Prelude.{◌≡◌, ◌⊎◌};
ghost use Rattle.hub_schema.specs.Faults.{fault_of};

use hub_store::StoreFault;
use sqlite::{Error, ErrorCode};

/// Returns `Memory` if memory ran out, and `Disk` for any other error.
pub fn fault_by(error: &Error) -> StoreFault
    ensures exact { result ≡ fault_of error.now }
    ensures either { (result ≡ StoreFault.Memory) ⊎ (result ≡ StoreFault.Disk) }
{
    match error {
        Error::SqliteFailure(ErrorCode::OutOfMemory) => StoreFault::Memory,
        _ => StoreFault::Disk,
    }
}
