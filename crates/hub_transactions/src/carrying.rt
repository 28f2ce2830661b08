//! Carries out the decision on a message.
ghost use Rattle.std.specs.Prelude.{◌≡◌};
ghost use Rattle.hub_tables.specs.Tables.{Tables};
ghost use Rattle.hub_acts.specs.Acts.{Carried, FailsOver, NoCause, Unharmed, any_answer};
ghost use Rattle.hub_transactions.specs.Judged.{act_of, told_judged, JudgedFits};
ghost use Rattle.hub_acts.specs.StaysClean.{StaysClean};
ghost use Rattle.hub_transactions.specs.JudgesClean.{JudgedClean};
ghost use Rattle.hub_acts.specs.HubTexts.Decision.{told_of};

use crate::judged::Judged;
use hub_acts::texts::Decision;
use hub_acts::{carry_out, told_of_verdict};
use hub_store::{Store, StoreFault};

/// Returns the decision that the reply reports.
pub(crate) fn told_of_judged(judged: &Judged) -> Decision
    ensures told { told_judged judged.now ≡ told_of result }
    ensures act { (t : Tables) → (act_of judged.now t).0 ≡ told_of result }
{
    match judged {
        Judged::Read(verdict) => told_of_verdict(verdict),
        Judged::Unread(fault) => Decision::Unread(*fault),
    }
}

/// Carries out the decision on a message.
pub(crate) fn carry_out_judged<S: Store>(store: &mut S, judged: &Judged) -> Result<(), StoreFault>
    ensures carried { JudgedFits judged.now (S.content store.old) →
        Carried S.Store store.old store.new (act_of judged.now) (λ _. told_judged judged.now) result }
    ensures fails { FailsOver S.Store NoCause any_answer store.old store.new result }
    ensures unharmed { Unharmed S.Store store.old store.new result }
    ensures clean { JudgedFits judged.now (S.content store.old) → JudgedClean judged.now (S.content store.old) →
        StaysClean S.Store store.old store.new result }
{
    match judged {
        Judged::Read(verdict) => carry_out(store, verdict),
        Judged::Unread(_) => Ok(()),
    }
}
