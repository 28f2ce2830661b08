//! Defines joins.
ghost use Rattle.std.specs.Prelude.{◌≡◌, IfOk, IsTrue};
ghost use Rattle.hub_rules.specs.JoinRules as spec;

use edi_base::MemoryFault;
use gs1_ids::{Gln, Prefix};
use hub_parties::{CompanyPrefixes, Key, SupplierRow};
use std::alloc::Global;
use std::marker::Model;

/// A supplier that the retailer registers: its GLN, its key and its company prefixes.
#[derive(Debug, Drop)]
pub struct Join {
    row: SupplierRow,
}

impl Model for Join {
    ghost use Rattle.std.specs.Prelude.{IsTrue};
    ghost use Rattle.hub_parties.specs.declared.row.SupplierRow.{SupplierRow};
    ghost use Rattle.hub_rules.specs.JoinRules.{is_join};

    ghost Value = { SupplierRow };

    ghost view = { λ join. join.row };

    ghost invariant = { λ join. IsTrue (is_join join.row) };
}

impl Join {
    /// Makes the join of a supplier with this key and these prefixes, which may be in any order. Returns `None` if the
    /// key is not 8 to 64 bytes of 0x21 to 0x7E, if there are no prefixes or more than eight, or if two of them are
    /// equal.
    pub fn new(
        alloc: Global,
        supplier: Gln,
        key: &[u8],
        prefixes: &[Prefix],
    ) -> Result<Option<Self>, MemoryFault>
        ensures { IfOk result (λ found. found ≡ spec.join_of supplier key.now prefixes.now) }
    {
        let Some(key) = Key::parse(key) else {
            return Ok(None);
        };
        let Some(prefixes) = CompanyPrefixes::of(alloc, prefixes)? else {
            return Ok(None);
        };
        Ok(Some(Join {
            row: SupplierRow {
                gln: supplier,
                prefixes,
                key,
            },
        }))
    }

    /// Returns the row that the supplier gets.
    pub fn row(&self) -> &SupplierRow
        ensures value { result.now ≡ self.now }
        ensures right { IsTrue (spec.is_join self.now) }
    {
        &self.row
    }
}
