ghost use Rattle.std.specs.Prelude.{◌≡◌, IfOk};

use crate::key::Key;
use crate::prefixes::CompanyPrefixes;
use edi_base::MemoryFault;
use gs1_ids::Gln;
use std::alloc::Global;

/// A supplier's row of a register.
#[derive(Debug, Drop)]
pub struct SupplierRow {
    /// The supplier's GLN.
    pub gln: Gln,
    /// The GS1 company prefixes under which the supplier numbers its logistic units.
    pub prefixes: CompanyPrefixes,
    /// The key with which the supplier identifies itself to the hub.
    pub key: Key,
}

impl SupplierRow {
    /// Returns a copy of the row.
    pub fn copy(&self, alloc: Global) -> Result<Self, MemoryFault>
        ensures { IfOk result (λ copy. copy ≡ self.now) }
    {
        Ok(SupplierRow {
            gln: self.gln,
            prefixes: self.prefixes.copy(alloc)?,
            key: self.key.copy(),
        })
    }
}
