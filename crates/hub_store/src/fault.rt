//! Says why a call of a store failed.
ghost use Rattle.std.specs.Prelude.{◌≡◌};
ghost use Rattle.hub_store.specs.declared.fault.StoreFault.TheVariants.{Memory};

use edi_base::MemoryFault;

/// Why a call of a store failed. After `Disk` and `Unclean` the store returns the same fault until it is opened again; of
/// `Unclean` returned by `register` this is not promised.
#[derive(Clone, Copy, Debug, PartialEq, Eq)]
pub enum StoreFault {
    /// Memory ran out. The store stays as it is, and the same call may succeed later.
    Memory,
    /// A call of the store below failed for another reason.
    Disk,
    /// A stored row does not have the form of its kind; or the changes would make such a row, or do not fit the rows.
    Unclean,
    /// The stored tables are of an unknown version. Only opening reports it.
    Version,
}

impl From<MemoryFault> for StoreFault {
    ghost from_gives = { λ _ fault. fault ≡ Memory };

    fn from(_refused: MemoryFault) -> StoreFault {
        StoreFault::Memory
    }
}

/// A fault that each call returns until the store is opened again.
#[derive(Clone, Copy, Debug, PartialEq, Eq)]
pub enum LastingFault {
    /// `StoreFault::Disk`.
    Disk,
    /// `StoreFault::Unclean`.
    Unclean,
}
