//! Decides whether all rows are a sound start.
ghost use Rattle.hub_tables.specs.Sets.{Rising};
ghost use Rattle.hub_pieces.specs.AllRows.{Tells};
ghost use Rattle.hub_verify.specs.Verdict.{IsVerdict};

use crate::clean::unclean_row;
use crate::cross::unsound_row;
use crate::goods::unsound_goods;
use crate::verdict::RowsVerdict;
use hub_pieces::AllRows;
use hub_store::StoreFault;
use std::alloc::Global;

/// Returns `Sound` exactly if the rows are clean and a sound start, and otherwise the row that shows that they are not.
/// This is promised if the keys of each kind rise, as they do in a database file. Apart from the register it keeps at
/// most the rows of one supplier at a time.
///
/// # Errors
///
/// `Memory` or `Disk`; what was found before is then lost.
pub fn verify<S: AllRows>(store: &mut S, alloc: Global) -> Result<RowsVerdict, StoreFault>
    ensures { Tells S.content S.honest (λ t verdict. Rising t → IsVerdict t verdict)
        store.old store.new result }
{
    let unclean = unclean_row(store, alloc)?;
    if let Some(found) = unclean {
        return Ok(RowsVerdict::Unclean(found));
    }
    let lacking = unsound_row(store, alloc)?;
    if let Some(found) = lacking {
        return Ok(RowsVerdict::Unsound(found));
    }
    let misfit = unsound_goods(store, alloc)?;
    if let Some(found) = misfit {
        return Ok(RowsVerdict::Unsound(found));
    }
    Ok(RowsVerdict::Sound)
}
