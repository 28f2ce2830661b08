//! Handles a cancellation.
ghost use Rattle.std.specs.Prelude.{◌≡◌, true, None, Err, IfOk};
ghost use Rattle.hub_parties.specs.Rows.{IsRegister, supplier_row};
ghost use Rattle.hub_order_lines.specs.KnownLines.{AreUnclean};
ghost use Rattle.hub_tables.specs.State.{lines_of};
ghost use Rattle.hub_tables.specs.Tables.{view};
ghost use Rattle.hub_store.specs.Clean.{are_clean};
ghost use Rattle.hub_store.specs.declared.fault.StoreFault.TheVariants.{Unclean};
ghost use Rattle.hub_rules.specs.Laws.{SoundUnder, PartiesRise};
ghost use Rattle.hub_rules.specs.Rules as rules;
ghost use Rattle.hub_acts.specs.HubLaw.CancelText as spec;
ghost use Rattle.hub_acts.specs.HubLaw.Mark.{Whole};
ghost use Rattle.hub_acts.specs.HubLaw.Replies.{act_reply};
ghost use Rattle.hub_acts.specs.HubLaw.Requests.{cancel_named, answered, replied_by};
ghost use Rattle.hub_acts.specs.HubLaw.Told.{act, told};
ghost use Rattle.hub_acts.specs.Acts.{Carried, FailsOver, NoCause, Stays, Unharmed, any_answer, as_told, no_answer};
ghost use Rattle.hub_acts.specs.HubClean.Clean.{WithinCancel};
ghost use Rattle.hub_acts.specs.Verdicts.{VerdictFits};
ghost use Rattle.hub_acts.specs.HubClean.Clean.{VerdictClean};
ghost use Rattle.hub_acts.specs.StaysClean.{StaysClean};

use crate::knowing::known_for_cancel;
use crate::laws::lines_of_sound_tables_are_known;
use hub_acts::texts::cancel_text;
use hub_acts::{Reply, carry_out, reply_to_act, told_of_verdict};
use hub_judges::{Cancel, Verdict, judge_cancel};
use hub_register::Register;
use hub_rules::accepted_changes_fit;
use hub_store::{Store, StoreFault};
use std::alloc::Global;

// Looks up what the rules need for a cancellation, and decides on it.
fn decide_cancel<S: Store>(
    alloc: Global,
    register: &Register,
    store: &mut S,
    cancel: &Cancel,
) -> Result<Verdict, StoreFault>
    ensures verdict { S.honest store.new → IfOk result (λ verdict. verdict ≡ rules.judge_cancel
        (supplier_row register.now.suppliers cancel.now.supplier) (spec.cancel_text cancel.now) cancel.now
        (view cancel.now.supplier (S.content store.old))) }
    ensures unclean { S.honest store.new → S.broken store.old ≡ None →
        are_clean (S.content store.old) ≡ true →
        result ≡ Err Unclean →
        AreUnclean (lines_of (view cancel.now.supplier (S.content store.old)) cancel.now.order) }
    ensures register { IsRegister register.now }
    ensures fails { FailsOver S.Store (S.honest store.new →
        AreUnclean (lines_of (view cancel.now.supplier (S.content store.old)) cancel.now.order))
        no_answer store.old store.new result }
    ensures stays { Stays S.Store store.old store.new }
{
    let supplier = register.supplier(&cancel.supplier);
    let content = cancel_text(alloc, cancel)?;
    let known = known_for_cancel(alloc, store, cancel, content.as_slice())?;
    let verdict = judge_cancel(alloc, supplier, &known, content, cancel)?;
    Ok(verdict)
}

// Carries out the verdict on a cancellation, and returns its reply.
fn commit_and_reply<S: Store>(
    store: &mut S,
    verdict: &Verdict,
    reply: Reply,
) -> Result<Reply, StoreFault>
    requires { reply ≡ act_reply (told verdict.now) }
    ensures carried { VerdictFits verdict.now (S.content store.old) →
        Carried S.Store store.old store.new (λ t.
        replied_by act_reply (act verdict.now t)) as_told result }
    ensures fails { FailsOver S.Store NoCause any_answer store.old store.new result }
    ensures unharmed { Unharmed S.Store store.old store.new result }
    ensures clean { VerdictFits verdict.now (S.content store.old) → VerdictClean verdict.now (S.content store.old) →
        StaysClean S.Store store.old store.new result }
{
    carry_out(store, verdict)?;
    Ok(reply)
}

/// Handles a cancellation from the retailer: checks it, and commits its changes as one act. The reply is made before
/// the commit. After a fault nothing is done.
pub fn take_cancel<S: Store>(
    alloc: Global,
    register: &Register,
    store: &mut S,
    cancel: &Cancel,
) -> Result<Reply, StoreFault>
    ensures carried { SoundUnder register.now.suppliers (S.content store.old) →
        PartiesRise (S.content store.old) →
        Carried S.Store store.old store.new (λ t.
        answered Whole (cancel_named register.now cancel.now t) t) as_told result }
    ensures fails { FailsOver S.Store (S.honest store.new →
        AreUnclean (lines_of (view cancel.now.supplier (S.content store.old)) cancel.now.order))
        no_answer store.old store.new result }
    ensures unharmed { Unharmed S.Store store.old store.new result }
    ensures clean { SoundUnder register.now.suppliers (S.content store.old) → PartiesRise (S.content store.old) →
        WithinCancel cancel.now → StaysClean S.Store store.old store.new result }
{
    accepted_changes_fit();
    lines_of_sound_tables_are_known();
    let verdict = decide_cancel(alloc, register, store, cancel)?;
    let reply = reply_to_act(alloc, told_of_verdict(&verdict))?;
    commit_and_reply(store, &verdict, reply)
}
