//! Says why founding a hub failed.
ghost use Rattle.std.specs.Prelude.{◌≡◌, ◌⊎◌};
ghost use Rattle.hub_sql.specs.Founding.{laying_of};

use hub_store::StoreFault;

/// Why founding a hub failed.
#[derive(Clone, Copy, Debug, PartialEq, Eq)]
pub enum FoundFault {
    /// The register does not fit the rows that are there: the supplier of a row is not registered, or a pallet's SSCC
    /// is under none of its supplier's company prefixes.
    Rows,
    /// A call of the store failed. `Version` means that the database has tables, but not those of schema 1.
    Store(StoreFault),
}

/// Returns the fault of a failed founding, or of a number that was not set. No row of a register is `Unclean`.
pub(crate) fn laying_fault(fault: StoreFault) -> StoreFault
    ensures exact { result ≡ laying_of fault }
    ensures either { (result ≡ StoreFault.Memory) ⊎ (result ≡ StoreFault.Disk) }
{
    match fault {
        StoreFault::Memory => StoreFault::Memory,
        StoreFault::Disk | StoreFault::Unclean | StoreFault::Version => StoreFault::Disk,
    }
}
