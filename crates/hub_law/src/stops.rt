//! States laws of inputs that are stopped, each as the contract of a function without a body.
ghost use Rattle.std.specs.Prelude.{◌≡◌, ◌≢◌, ◌↔◌, ◌<◌, ◌≤◌, ℕ, [], length, Some, None};
ghost use Rattle.hub_tables.specs.Register.{register_of};
ghost use Rattle.hub_tables.specs.Tables.{Tables};
ghost use Rattle.hub_law.specs.Machine.{shared_step};
ghost use Rattle.hub_law.specs.Mark.{Mark, Whole, StoppedEmpty, StoppedBare, StoppedAfter};
ghost use Rattle.hub_law.specs.Replies.{reply, stopped, whole_reply};
ghost use Rattle.hub_law.specs.Requests.{replied_by};
ghost use Rattle.hub_law.specs.Stops.{Upload, upload_of, all_acts, first_acts, reply_behind};
ghost use Rattle.hub_requests.specs.declared.reply.Outcome.TheVariants.{Stopped};
ghost use Rattle.hub_requests.specs.declared.request.Input.{Input};

/// A reply says that its input was stopped exactly if it was. An input that was stopped before anything was done leaves
/// the tables as they were, and its reply is empty or just `stopped`.
pub fn stops_are_told()
    ensures outcome { (t : Tables) (input : Input) (mark : Mark) →
        ((shared_step t input mark).0.outcome ≡ Stopped) ↔ (mark ≢ Whole) }
    ensures empty { (t : Tables) (input : Input) →
        shared_step t input StoppedEmpty ≡ (reply Stopped [], t) }
    ensures bare { (t : Tables) (input : Input) →
        shared_step t input StoppedBare ≡ (stopped, t) }
{}

/// The reply to an upload whose messages are handled has the line of its interchange and a line for each message, and
/// each message is one act, in their order. If the upload is stopped after k of more than k messages, the reply has the
/// line of the interchange, the lines of the first k messages and `stopped`, and the tables are those after the first k
/// acts. A stop after k messages of any other input, or of an upload of at most k messages, means that nothing was
/// done.
pub fn stops_cut_uploads()
    ensures whole { (t : Tables) (input : Input) (upload : Upload) →
        upload_of (register_of t) input ≡ Some upload →
        shared_step t input Whole ≡
        replied_by (whole_reply upload.interchange) (all_acts upload input.moment t) }
    ensures behind { (t : Tables) (input : Input) (k : ℕ) (upload : Upload) →
        upload_of (register_of t) input ≡ Some upload → k < length upload.interchange.messages →
        shared_step t input (StoppedAfter k) ≡
        (reply_behind k upload.interchange (all_acts upload input.moment t).0, (first_acts k upload input.moment t).1) }
    ensures too_far { (t : Tables) (input : Input) (k : ℕ) (upload : Upload) →
        upload_of (register_of t) input ≡ Some upload → length upload.interchange.messages ≤ k →
        shared_step t input (StoppedAfter k) ≡ (stopped, t) }
    ensures no_upload { (t : Tables) (input : Input) (k : ℕ) →
        upload_of (register_of t) input ≡ None → shared_step t input (StoppedAfter k) ≡ (stopped, t) }
{}
