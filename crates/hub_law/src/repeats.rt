//! States laws of accepted messages that are sent again, each as the contract of a function without a body.
ghost use Rattle.std.specs.Prelude.{◌≡◌, ℕ, ◌+◌, List, ◌∷◌, ◌++◌, Some};
ghost use Rattle.edi_envelope.specs.declared.interchange.RawMessage.{RawMessage};
ghost use Rattle.hub_parties.specs.Rows.{Parties, RegisterRows};
ghost use Rattle.hub_parties.specs.declared.row.SupplierRow.{SupplierRow};
ghost use Rattle.hub_tables.specs.Register.{register_of, row_at};
ghost use Rattle.hub_tables.specs.Sets.{Has};
ghost use Rattle.hub_tables.specs.Tables.{Tables, view};
ghost use Rattle.hub_rules.specs.declared.incoming.IncomingMessage.{IncomingMessage};
ghost use Rattle.hub_rules.specs.declared.cancel.Cancel.{Cancel};
ghost use Rattle.hub_law.specs.Again.{MessageAt, AcceptedAt, AcceptedBefore, SameReference, AsksCancel};
ghost use Rattle.hub_law.specs.Again.{tables_before, told_at};
ghost use Rattle.hub_rules.specs.Laws.{SoundHub};
ghost use Rattle.hub_law.specs.Machine.{Inputs, shared_step, shared_run};
ghost use Rattle.hub_law.specs.Mark.{Mark, Whole};
ghost use Rattle.hub_law.specs.Messages.{deliver_suppliers, incoming};
ghost use Rattle.hub_law.specs.Remembered.{StaysRemembered, row_of_message, row_of_cancel};
ghost use Rattle.hub_law.specs.Replies.{act_reply};
ghost use Rattle.hub_requests.specs.declared.request.Input.{Input};
ghost use Rattle.hub_law.specs.Requests.{deliver_named, cancel_named};
ghost use Rattle.hub_law.specs.Told.{Accepted, Repeated, in_row};

/// If something that was accepted is sent again, the reply is `repeated` and nothing changes. This holds for a message
/// of the retailer or of a supplier with the same control reference and the same segments, at any time and with any
/// decimal mark, and for the same cancellation. The tables may be any sound ones that still remember all that was
/// remembered after it was accepted.
pub fn accepted_is_repeated()
    ensures retailers { (register : RegisterRows) (message : RawMessage) (incoming : IncomingMessage)
        (moment decimal : ℕ) (t u : Tables) →
        AcceptedBefore (deliver_named register (message, incoming) t) register.suppliers u →
        deliver_named register (message, record incoming { moment = moment; decimal = decimal }) u
        ≡ (Repeated, u) }
    ensures suppliers { (suppliers : List SupplierRow) (parties : Parties) (s : SupplierRow)
        (message : RawMessage)
        (incoming : IncomingMessage) (moment decimal : ℕ) (t u : Tables) →
        AcceptedBefore (deliver_suppliers (view s.gln) parties s (message, incoming) t) suppliers u →
        deliver_suppliers (view s.gln) parties s
        (message, record incoming { moment = moment; decimal = decimal }) u ≡
        (Repeated, u) }
    ensures cancellation { (register : RegisterRows) (c : Cancel) (t u : Tables) →
        AcceptedBefore (cancel_named register c t) register.suppliers u →
        cancel_named register c u ≡ (Repeated, u) }
{}

/// What is remembered stays remembered, whatever follows: further messages of an upload, of the retailer or of a
/// supplier, and any inputs of anyone, stopped or not.
pub fn remembered_stays()
    ensures retailers { (register : RegisterRows) (sents : List (RawMessage × IncomingMessage)) (t : Tables) →
        StaysRemembered t (in_row (deliver_named register) sents t).1 }
    ensures suppliers { (parties : Parties) (s : SupplierRow) (sents : List (RawMessage × IncomingMessage))
        (t : Tables) →
        StaysRemembered t (in_row (deliver_suppliers (view s.gln) parties s) sents t).1 }
    ensures run { (t : Tables) (inputs : Inputs) → StaysRemembered t (shared_run t inputs).1 }
{}

/// What was accepted in a run is remembered under its references with its content, from then on and whatever follows: a
/// message, and a cancellation whose reply says `accepted`.
pub fn accepted_stays_remembered()
    ensures message { (t : Tables) (before between : Inputs) (input : Input) (mark : Mark) (place : ℕ)
        (message : RawMessage) (one : AcceptedAt (shared_run t before).1 input mark place message) →
        Has (shared_run t (before ++ (input, mark) ∷ between)).1.remembered
        (row_of_message (row_at input.caller (shared_run t before).1) message
        (incoming input.moment one.comes.upload.interchange message)) }
    ensures cancellation { (t : Tables) (before between : Inputs) (input : Input) (c : Cancel) →
        AsksCancel (shared_run t before).1 c input →
        (shared_step (shared_run t before).1 input Whole).0 ≡ act_reply Accepted →
        Has (shared_run t (before ++ (input, Whole) ∷ between)).1.remembered (row_of_cancel c) }
{}

/// In a run on sound tables, an accepted message that is sent again in a later upload gets the result `repeated`, if
/// the upload is handled, and its act leaves the tables as they are, whoever joined in between; `stops_cut_uploads`
/// says which results the reply shows. An accepted cancellation that is sent again gets the reply `repeated`.
pub fn repeated_in_runs()
    ensures message { (t : Tables) (before between : Inputs) (first second : Input) (mark : Mark)
        (place later : ℕ)
        (message : RawMessage) (one : AcceptedAt (shared_run t before).1 first mark place message)
        (other : MessageAt (shared_run t (before ++ (first, mark) ∷ between)).1 second later message) →
        SameReference first second one.comes.upload other.upload →
        told_at (shared_run t (before ++ (first, mark) ∷ between)).1 second other.upload later
        ≡ Some Repeated }
    ensures stays { (t : Tables) (before between : Inputs) (first second : Input) (mark : Mark)
        (place later : ℕ)
        (message : RawMessage) (one : AcceptedAt (shared_run t before).1 first mark place message)
        (other : MessageAt (shared_run t (before ++ (first, mark) ∷ between)).1 second later message) →
        SameReference first second one.comes.upload other.upload →
        tables_before (shared_run t (before ++ (first, mark) ∷ between)).1 second other.upload (later + 1) ≡
        tables_before (shared_run t (before ++ (first, mark) ∷ between)).1 second other.upload later }
    ensures cancellation { (t : Tables) (before between : Inputs) (first second : Input) (c : Cancel) →
        SoundHub (shared_run t before).1 → AsksCancel (shared_run t before).1 c first →
        AsksCancel (shared_run t (before ++ (first, Whole) ∷ between)).1 c second →
        (cancel_named (register_of (shared_run t before).1) c (shared_run t before).1).0 ≡ Accepted →
        shared_step (shared_run t (before ++ (first, Whole) ∷ between)).1 second Whole ≡
        (act_reply Repeated, (shared_run t (before ++ (first, Whole) ∷ between)).1) }
{}
