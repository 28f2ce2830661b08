//! Registers a supplier that joins.
ghost use Rattle.std.specs.Prelude.{◌≡◌, true, false, IfOk, Ok, OnOk, OnErr};
ghost use Rattle.std.specs.Option.{IfSome};
ghost use Rattle.hub_parties.specs.Rows.{IsRegister};
ghost use Rattle.hub_register.specs.Joined.{joined_by, left_by};
ghost use Rattle.hub_tables.specs.Change.{apply_all};
ghost use Rattle.hub_tables.specs.Register.{register_of, row_changes};
ghost use Rattle.hub_tables.specs.Sets.{Fit};
ghost use Rattle.hub_tables.specs.Tables.{Tables};
ghost use Rattle.hub_store.specs.Clean.{are_clean};
ghost use Rattle.hub_texts.specs.HubRules.JoinRules.{joins, judge_join};
ghost use Rattle.hub_texts.specs.HubRules.Laws.{SoundHub};
ghost use Rattle.hub_texts.specs.HubRules.declared.verdict.Verdict.TheVariants.{Accept};
ghost use Rattle.hub_clean.specs.HubLaw.Mark.{Whole};
ghost use Rattle.hub_clean.specs.HubLaw.Replies.{act_reply};
ghost use Rattle.hub_clean.specs.HubLaw.Requests.{joined};
ghost use Rattle.hub_clean.specs.HubLaw.Told.{Accepted, act, told};
ghost use Rattle.hub_acts.specs.Acts.{Carried, FailsOver, NoCause, OfAny, Unharmed, as_told, no_answer};
ghost use Rattle.hub_acts.specs.Joins.{MovesBy, after_join};
ghost use Rattle.hub_acts.specs.StaysClean.{StaysClean};

use crate::carrying::{reply_to_act, told_of_verdict};
use hub_judges::{Verdict, judge_join};
use hub_parties::SupplierRow;
use hub_register::Register;
use hub_store::{Store, StoreFault};
use hub_tables::Change;
use hub_texts::{Join, Reply};
use std::alloc::Global;

// Adds a supplier to the register and to the store with these changes; after a fault, to neither. Memory for the
// register is taken before the commit, so that nothing can fail after it.
fn add_supplier<S: Store>(
    alloc: Global,
    register: &mut Register,
    store: &mut S,
    row: &SupplierRow,
    changes: &[Change],
) -> Result<(), StoreFault>
    requires rows { changes.now ≡ row_changes row.now }
    requires right { IsRegister register.old }
    requires takes { IsRegister (joined_by row.now register.old) }
    requires goes { left_by row.now.gln (joined_by row.now register.old) ≡ register.old }
    ensures carried { Fit changes.now (S.content store.old) →
        Carried S.Store store.old store.new (act (Accept changes.now))
        (λ _. Accepted) result }
    ensures taken { OnOk result (register.new ≡ joined_by row.now register.old) }
    ensures register_stays { OnErr result (register.new ≡ register.old) }
    ensures fails { FailsOver S.Store NoCause no_answer store.old store.new result }
    ensures unharmed { Unharmed S.Store store.old store.new result }
    ensures clean { Fit changes.now (S.content store.old) → are_clean (apply_all changes.now (S.content store.old)) ≡ true →
        StaysClean S.Store store.old store.new result }
{
    let copy = row.copy(alloc)?;
    register.join(copy)?;
    if let Err(fault) = store.commit(changes) {
        register.leave(&row.gln);
        return Err(fault);
    }
    Ok(())
}

// Shows that a register's rows are those of a register.
fn is_register(register: &Register)
    ensures { IsRegister register.now }
{
    // This contract says so.
    let _hub = register.hub();
}

// Carries out the verdict on a join, and returns its reply. A refused join changes nothing and needs no memory.
fn carry_out_join<S: Store>(
    alloc: Global,
    register: &mut Register,
    store: &mut S,
    join: &Join,
    verdict: &Verdict,
    reply: Reply,
) -> Result<Reply, StoreFault>
    requires judged { verdict.now ≡ judge_join register.old join.now }
    requires says { reply ≡ act_reply (told verdict.now) }
    requires right { IsRegister register.old }
    ensures refused { joins register.old join.now ≡ false →
        (result ≡ Ok reply) × (register.new ≡ register.old) × (store.new ≡ store.old) }
    ensures carried { SoundHub (S.content store.old) → register.old ≡ register_of (S.content store.old) →
        Carried S.Store store.old store.new (joined register.old Whole join.now) as_told result }
    ensures same { S.honest store.new → SoundHub (S.content store.old) →
        register.old ≡ register_of (S.content store.old) →
        register.new ≡ register_of (S.content store.new) }
    ensures told { IfOk result (λ reply. (t : Tables) → (joined register.old Whole join.now t).0 ≡ reply) }
    ensures moves { IfOk result (MovesBy join.now register.old register.new) }
    ensures taken { OnOk result (register.new ≡ after_join join.now register.old) }
    ensures register_stays { OnErr result (register.new ≡ register.old) }
    ensures broken { IfSome (S.broken store.old) (λ _. register.new ≡ register.old) }
    ensures fails { FailsOver S.Store NoCause (OfAny (joined register.old Whole join.now) as_told)
        store.old store.new result }
    ensures unharmed { Unharmed S.Store store.old store.new result }
    ensures clean { SoundHub (S.content store.old) → register.old ≡ register_of (S.content store.old) →
        StaysClean S.Store store.old store.new result }
{
    let row = join.row();
    let changes = match verdict {
        Verdict::Refuse(_) => return Ok(reply),
        Verdict::Accept(changes) => changes,
    };
    add_supplier(alloc, register, store, row, changes.as_slice())?;
    Ok(reply)
}

/// Registers a supplier at the retailer's request: checks the join against the register, and commits its rows as one
/// act. The reply is made before the commit. The register has the supplier afterwards exactly if the reply says that
/// the join is accepted. After a fault nothing is done. A refused join reads no row of the store, and commits nothing.
pub fn take_join<S: Store>(
    alloc: Global,
    register: &mut Register,
    store: &mut S,
    join: &Join,
) -> Result<Reply, StoreFault>
    ensures carried { SoundHub (S.content store.old) → register.old ≡ register_of (S.content store.old) →
        Carried S.Store store.old store.new (joined register.old Whole join.now) as_told result }
    ensures same { S.honest store.new → SoundHub (S.content store.old) →
        register.old ≡ register_of (S.content store.old) →
        register.new ≡ register_of (S.content store.new) }
    ensures told { IfOk result (λ reply. (t : Tables) → (joined register.old Whole join.now t).0 ≡ reply) }
    ensures moves { IfOk result (MovesBy join.now register.old register.new) }
    ensures taken { OnOk result (register.new ≡ after_join join.now register.old) }
    ensures register_stays { OnErr result (register.new ≡ register.old) }
    ensures broken { IfSome (S.broken store.old) (λ _. register.new ≡ register.old) }
    ensures refused { joins register.old join.now ≡ false → store.new ≡ store.old }
    ensures fails { FailsOver S.Store NoCause (OfAny (joined register.old Whole join.now) as_told)
        store.old store.new result }
    ensures unharmed { Unharmed S.Store store.old store.new result }
    ensures clean { SoundHub (S.content store.old) → register.old ≡ register_of (S.content store.old) →
        StaysClean S.Store store.old store.new result }
{
    is_register(register);
    let verdict = judge_join(alloc, register, join)?;
    let reply = reply_to_act(alloc, told_of_verdict(&verdict))?;
    carry_out_join(alloc, register, store, join, &verdict, reply)
}
