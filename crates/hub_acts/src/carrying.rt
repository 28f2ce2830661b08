//! Carries out what the rules decide.
ghost use Rattle.std.specs.Prelude.{◌≡◌, ◌⊎◌, true, IfOk, OnOk, OnErr};
ghost use Rattle.hub_tables.specs.Change.{apply_all};
ghost use Rattle.hub_tables.specs.Sets.{Fit};
ghost use Rattle.hub_tables.specs.Tables.{Tables};
ghost use Rattle.hub_store.specs.Calls.{have_places};
ghost use Rattle.hub_store.specs.Clean.{are_clean};
ghost use Rattle.hub_texts.specs.HubRules.declared.verdict.Verdict.TheVariants.{Accept};
ghost use Rattle.hub_clean.specs.HubLaw.Replies.{act_reply};
ghost use Rattle.hub_clean.specs.HubLaw.Told.{act, told};
ghost use Rattle.hub_acts.specs.Acts.{Carried, FailsOver, NoCause, Unharmed, any_answer};
ghost use Rattle.hub_acts.specs.Verdicts.{VerdictFits};
ghost use Rattle.hub_clean.specs.Clean.{VerdictClean};
ghost use Rattle.hub_acts.specs.StaysClean.{StaysClean};
ghost use Rattle.hub_texts.specs.Decision.{told_of};

use edi_base::MemoryFault;
use hub_judges::Verdict;
use hub_store::{Store, StoreFault};
use hub_tables::Change;
use hub_texts::{Decision, Outcome, Reply, told_line};
use std::alloc::Global;

// Decides between accepted and repeated by the changes of an accepted message.
fn told_of_changes(changes: &[Change]) -> Decision
    ensures { told (Accept changes.now) ≡ told_of result }
{
    if changes.is_empty() {
        Decision::Repeated
    } else {
        Decision::Accepted
    }
}

/// Returns the decision that reports a verdict.
pub fn told_of_verdict(verdict: &Verdict) -> Decision
    ensures { told verdict.now ≡ told_of result }
{
    match verdict {
        Verdict::Refuse(code) => Decision::Refused(*code),
        Verdict::Accept(changes) => told_of_changes(changes.as_slice()),
    }
}

/// Makes the reply to an act other than a message: a cancellation or a join.
pub fn reply_to_act(alloc: Global, told: Decision) -> Result<Reply, MemoryFault>
    ensures { IfOk result (λ reply. reply ≡ act_reply (told_of told)) }
{
    Ok(Reply {
        outcome: Outcome::Done,
        refused: told.is_refused(),
        body: told_line(alloc, told)?,
    })
}

/// Commits the changes, if there are any.
pub(crate) fn commit_if_any<S: Store>(store: &mut S, changes: &[Change]) -> Result<(), StoreFault>
    ensures done { Fit changes.now (S.content store.old) → S.honest store.new →
        OnOk result (S.content store.new ≡ apply_all changes.now (S.content store.old)) }
    ensures durable { S.honest store.new → OnOk result ((t : Tables) → S.left store.new t →
        (t ≡ S.content store.new) ⊎ ((S.content store.new ≡ S.content store.old) × S.left store.old t)) }
    ensures crash { S.honest store.new → OnErr result ((t : Tables) → S.left store.new t →
        S.left store.old t ⊎ (t ≡ apply_all changes.now (S.content store.old))) }
    ensures fails { FailsOver S.Store NoCause any_answer store.old store.new result }
    ensures unharmed { Unharmed S.Store store.old store.new result }
    ensures clean { Fit changes.now (S.content store.old) → have_places changes.now (S.content store.old) ≡ true →
        are_clean (apply_all changes.now (S.content store.old)) ≡ true →
        StaysClean S.Store store.old store.new result }
{
    if changes.is_empty() {
        return Ok(());
    }
    store.commit(changes)
}

/// Carries out a verdict: commits the changes that it accepts, if there are any.
pub fn carry_out<S: Store>(store: &mut S, verdict: &Verdict) -> Result<(), StoreFault>
    ensures carried { VerdictFits verdict.now (S.content store.old) →
        Carried S.Store store.old store.new (act verdict.now) (λ _. told verdict.now) result }
    ensures fails { FailsOver S.Store NoCause any_answer store.old store.new result }
    ensures unharmed { Unharmed S.Store store.old store.new result }
    ensures clean { VerdictFits verdict.now (S.content store.old) → VerdictClean verdict.now (S.content store.old) →
        StaysClean S.Store store.old store.new result }
{
    match verdict {
        Verdict::Refuse(_) => Ok(()),
        Verdict::Accept(changes) => commit_if_any(store, changes.as_slice()),
    }
}
