//! States laws of hubs that ran, each as the contract of a function that does nothing.
ghost use Rattle.std.specs.Prelude.{◌≡◌, ℕ, ◌+◌, List, Some};
ghost use Rattle.edi_envelope.specs.declared.interchange.RawMessage.{RawMessage};
ghost use Rattle.hub_rules.specs.declared.cancel.Cancel.{Cancel};
ghost use Rattle.hub_tables.specs.Sets.{Has};
ghost use Rattle.hub_tables.specs.Tables.{Tables, view};
ghost use Rattle.hub_law.specs.Again.{AcceptedAt, AsksCancel, Reaches, tables_before};
ghost use Rattle.hub_law.specs.Machine.{replies_to, shared_step};
ghost use Rattle.hub_law.specs.Mark.{Mark, Whole};
ghost use Rattle.hub_law.specs.Replies.{act_reply};
ghost use Rattle.hub_law.specs.Told.{Accepted, Repeated};
ghost use Rattle.hub_requests.specs.declared.reply.Reply.{Reply};
ghost use Rattle.hub_requests.specs.declared.request.Input.{Input};
ghost use Rattle.hub_core.specs.Laws.{OfTheMachine, ReportsResult, HubRun, WholeInput, AgreeOn, AgreeAndAsk, reply_after};
ghost use Rattle.hub_core.specs.Laws.{AcceptedEarlier, ComesAgain, ComesAgainIn, CancelledAgain, CancelledEarlier};
ghost use Rattle.hub_core.specs.Laws.{inputs_around, inputs_to, remembered_row};

use hub_law::{
    accepted_stays_remembered, each_line_balances, hub_stays_sound, repeated_in_runs, run_is_own,
    runs_alike, step_is_own, stops_are_told, stops_cut_uploads,
};

/// Two runs, each of a hub and a store of its own, that agree on a GLN show it the same: it sees the same in the end,
/// and all replies to it are the same, byte for byte. To agree means: the same GLNs of hub and retailer, the same rows
/// of the GLN at the start, among them its prefixes and its key or that it has none, and the same items. The other
/// suppliers, the retailer's key, all other rows and all other inputs may differ. And a status of it for which the
/// retailer asks after equally many of its items is the same in both.
pub fn hubs_isolate_suppliers()
    ensures seen { (gln : List ℕ) (one other : HubRun) → AgreeOn gln one other →
        view gln one.after ≡ view gln other.after }
    ensures told { (gln : List ℕ) (one other : HubRun) → AgreeOn gln one other →
        replies_to gln one.ran.marked one.replies ≡ replies_to gln other.ran.marked other.replies }
    ensures status { (gln : List ℕ) (one other : HubRun) (x : WholeInput one) (y : WholeInput other) →
        AgreeAndAsk gln one other x y → reply_after one x.before ≡ reply_after other y.before }
{
    runs_alike();
}

/// The reply to a message that was accepted reports it as accepted, and the hub's tables remember it, under its
/// references and with its content, after that step and whatever steps and runs follow.
pub fn steps_remember_accepted_messages()
    ensures told { (t : Tables) (input : Input) (mark : Mark) (place : ℕ) (message : RawMessage)
        (one : AcceptedAt t input mark place message) →
        ReportsResult one.comes.upload.interchange place Accepted (shared_step t input mark).0 }
    ensures remembered { (t u : Tables) (first : AcceptedEarlier t u) → Has u.remembered (remembered_row first) }
{
    accepted_stays_remembered();
    stops_cut_uploads();
}

/// A message that was accepted and comes again is reported as repeated, and its act changes nothing; so is a
/// cancellation. Any steps and runs of a hub may lie between, and any crashes: each leaves the tables of the machine
/// after some inputs, stopped in some way. The step to which it comes again must not be stopped before it.
pub fn steps_report_repeated_messages()
    ensures told { (t u : Tables) (again : ComesAgain t u) (mark : Mark) →
        Reaches mark again.input again.comes.upload again.place →
        ReportsResult again.comes.upload.interchange again.place Repeated (shared_step u again.input mark).0 }
    ensures stays { (t u : Tables) (again : ComesAgain t u) →
        tables_before u again.input again.comes.upload (again.place + 1) ≡
        tables_before u again.input again.comes.upload again.place }
    ensures cancellation { (t u : Tables) (c : Cancel) (second : Input) →
        CancelledEarlier t u c → AsksCancel u c second →
        shared_step u second Whole ≡ (act_reply Repeated, u) }
{
    repeated_in_runs();
    stops_cut_uploads();
}

/// In a run of a hub, a message that was accepted and comes again in a later upload is reported as repeated, if that
/// upload's messages are handled and it was not stopped before it; likewise a cancellation that was accepted and comes
/// again, if it was not stopped.
pub fn hubs_report_repeated_messages()
    ensures message { (run : HubRun) (x : ComesAgainIn run) (reply : Reply) →
        reply_after run (inputs_to x.again.first) ≡ Some reply →
        ReportsResult x.again.comes.upload.interchange x.again.place Repeated reply }
    ensures cancellation { (run : HubRun) (c : Cancel) (again : CancelledAgain run c) →
        reply_after run (inputs_around again.first) ≡ Some (act_reply Repeated) }
{
    repeated_in_runs();
    stops_cut_uploads();
}

/// States what the laws say of the shared machine.
pub(crate) fn laws_of_the_machine()
    ensures { OfTheMachine }
{
    step_is_own();
    run_is_own();
    hub_stays_sound();
    stops_are_told();
    each_line_balances();
}
