//! Decides on joins.
ghost use Rattle.std.specs.Prelude.{◌≡◌, IfOk};
ghost use Rattle.hub_rules.specs.JoinRules as rules;

use edi_base::{Items, MemoryFault};
use hub_register::Register;
use hub_rules::{Code, Join, Verdict};
use hub_tables::row_changes;
use std::alloc::Global;

/// Decides on a join: checks B18, B19 and B20 in this order; if all pass, the supplier's rows are added. `MemoryFault`
/// if memory ran out.
pub fn judge_join(alloc: Global, register: &Register, join: &Join) -> Result<Verdict, MemoryFault>
    ensures { IfOk result (λ verdict. verdict ≡ rules.judge_join register.now join.now) }
{
    let row = join.row();
    if register.knows(&row.gln) {
        return Ok(Verdict::Refuse(Code::GlnKnown));
    }
    if register.overlaps(&row.prefixes) {
        return Ok(Verdict::Refuse(Code::PrefixOverlaps));
    }
    if register.is_full() {
        return Ok(Verdict::Refuse(Code::RegisterFull));
    }
    let changes = row_changes(alloc, row)?;
    Ok(Verdict::Accept(Items::from_vec(changes)))
}
