//! Puts changes into lists.
ghost use Rattle.std.specs.Prelude.{◌≡◌, ◌++◌, [], ◌∷◌, IfOk};

use edi_base::{Items, MemoryFault};
use hub_tables::Change;
use std::alloc::Global;

/// Appends a change.
pub(crate) fn append(changes: &mut Items<Change>, change: Change) -> Result<(), MemoryFault>
    ensures { IfOk result (λ _. changes.new ≡ changes.old ++ change ∷ []) }
{
    changes.push(change)?;
    Ok(())
}

/// Returns two changes in this order.
pub(crate) fn both(
    alloc: Global,
    first: Change,
    second: Change,
) -> Result<Items<Change>, MemoryFault>
    ensures { IfOk result (λ changes. changes ≡ first ∷ second ∷ []) }
{
    let changes = vec![in alloc; first, second]?;
    Ok(Items::from_vec(changes))
}
