//! Checks the rows of a kind piece by piece.
ghost use Rattle.std.specs.Prelude.{ℕ, List};
ghost use Rattle.hub_sound.specs.declared.finding.Finding.{Finding};
ghost use Rattle.hub_tables.specs.Sets.{Has};
ghost use Rattle.hub_tables.specs.Tables.{Tables};
ghost use Rattle.hub_pieces.specs.AllRows.{Tells};
ghost use Rattle.hub_pieces.specs.Pieces.{values_in};
ghost use Rattle.hub_pieces.specs.Walk.{Told};

use crate::all_rows::AllRows;
use crate::piece_kind::PieceKind;
use edi_base::Items;
use hub_sound::Finding;
use hub_store::StoreFault;
use std::alloc::Global;

/// A check of the rows with one value.
pub trait PieceCheck {
    /// What holds of the rows with a value if nothing is found.
    ghost holds: { Self → Tables → List ℕ → Type 0 };

    /// What a finding shows.
    ghost shows: { Self → Tables → Finding → Type 0 };

    /// Returns what is wrong with the rows with this value.
    fn check<S: AllRows>(
        &self,
        store: &mut S,
        alloc: Global,
        value: &[u8],
    ) -> Result<Option<Finding>, StoreFault>
        ensures { Tells S.content S.honest (λ t. Told (holds self.now t value.now) (shows self.now t))
            store.old store.new result };
}

/// Checks the rows with each value of a kind, from the lowest value upwards, up to the first finding.
///
/// # Errors
///
/// Those of the rows and of the check, and `Memory` after 2^64 - 1 pieces.
pub fn walk_pieces<S: AllRows, C: PieceCheck>(
    store: &mut S,
    alloc: Global,
    kind: PieceKind,
    check: &C,
) -> Result<Option<Finding>, StoreFault>
    ensures { Tells S.content S.honest
        (λ t. Told ((value : List ℕ) → Has (values_in kind t) value → C.holds check.now t value)
        (C.shows check.now t)) store.old store.new result }
{
    let mut value: Items<u8> = Items::new(alloc);
    'pieces: for _ in 0..u64::MAX {
        let here = value.as_slice();
        let found = check.check(store, alloc, here)?;
        if found.is_some() {
            return Ok(found);
        }
        let next = store.next_value(kind, here)?;
        let Some(above) = next else {
            return Ok(None);
        };
        value = above;
    }
    Err(StoreFault::Memory)
}
