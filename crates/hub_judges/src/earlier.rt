//! Keeps the SSCCs of the earlier units of a message.
ghost use Rattle.std.specs.Prelude.{◌≡◌, ℕ, List, IfOk, OnOk};
ghost use Rattle.edi_base.specs.Seen.{is_among};
ghost use Rattle.hub_judges.specs.FromFacts.{and_sscc};

use edi_base::{MemoryFault, Seen};
use gs1_ids::Sscc;

/// Returns whether an earlier unit has this SSCC, and remembers it for the following units. The SSCCs are kept in an
/// ordered set, so with n units the time grows as n log n.
pub(crate) fn has_come<'a>(seen: &mut Seen<'a>, sscc: &'a Sscc) -> Result<bool, MemoryFault>
    ensures came { IfOk result (λ came. came ≡ is_among sscc.now seen.old) }
    ensures seen { OnOk result ((other : List ℕ) →
        is_among other seen.new ≡ and_sscc (λ one. is_among one seen.old) sscc.now other) }
{
    let is_new = seen.insert(sscc.digits())?;
    Ok(!is_new)
}
