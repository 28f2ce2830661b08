//! Makes the one answer to a connection.
ghost use Rattle.std.specs.Prelude.{◌≡◌, ◌≢◌, ◌+◌, ◌-◌, ◌++◌, ◌≤◌, ℕ, List, length, true, Ok, Err, Some, IfOk, IfSome};
ghost use Rattle.std.specs.Prelude.{OnErr, IfErr};
ghost use Rattle.edi_base.specs.Source.{TakesAtMost};
ghost use Rattle.edi_envelope.specs.Opened.{opened, Opens};
ghost use Rattle.http_messages.specs.Head.{before, longest_head};
ghost use Rattle.http_messages.specs.Body.{body_in};
ghost use Rattle.hub_core.specs.HubLaw.Replies.{stopped_line};
ghost use Rattle.hub_core.specs.Steps.{IsNoJoin};
ghost use Rattle.hub_http.specs.Answer as spec;
ghost use Rattle.hub_http.specs.Asked.{asked_by, is_single, longest_body};
ghost use Rattle.hub_http.specs.Extent.{TellsBody, TellsEnd, body_size as size_of_body};
ghost use Rattle.hub_http.specs.Question.{question_as, question_of, uploading, with_body};
ghost use Rattle.hub_http.specs.Refusal.{status_of as refusal_status, text_of};
ghost use Rattle.hub_http.specs.Wording.{asked_as};

use crate::asked::{Asked, check_head};
use crate::extent::{body_size, is_read, is_whole};
use crate::paths::Paths;
use crate::question::request_of;
use crate::refusal::Refusal;
use crate::route::Route;
use crate::upload::{OpenResult, open_body};
use edi_base::{Items, ReadFault, Source};
use edi_envelope::{Moment, OpenFault};
use edi_tokens::TokenFault;
use http::StatusCode;
use http_messages::{HeadFault, HttpHead, read_body, read_head};
use hub_core::{Hub, Outcome, Reply, Request, STOPPED};
use hub_store::Store;
use std::alloc::Global;

/// The body of a response.
#[derive(Drop)]
pub(crate) enum Text {
    Fixed(&'static [u8]),
    Made(Items<u8>),
}

/// A response without its head.
#[derive(Drop)]
pub(crate) struct HttpAnswer {
    pub status: StatusCode,
    pub text: Text,
}

/// The answer to a request, and whether exactly the request was read.
#[derive(Drop)]
pub(crate) struct AnswerAfterRead {
    pub answer: HttpAnswer,
    pub read_to_end: bool,
}

// Returns the answer if nothing is asked of the hub.
fn refusal_answer(refusal: Refusal) -> HttpAnswer
    ensures { spec.StatusAndText (refusal_status refusal) (text_of refusal) result }
{
    HttpAnswer {
        status: refusal.status(),
        text: Text::Fixed(refusal.text()),
    }
}

// Returns the answer if memory was refused before anything was asked.
fn stopped_answer() -> HttpAnswer
    ensures { spec.StatusAndText 503 stopped_line result }
{
    HttpAnswer {
        status: StatusCode::SERVICE_UNAVAILABLE,
        text: Text::Fixed(STOPPED),
    }
}

// Returns the status for the outcome of a request.
fn status_of(outcome: Outcome) -> StatusCode
    ensures { result ≡ spec.outcome_status outcome }
{
    match outcome {
        Outcome::Done => StatusCode::OK,
        Outcome::Bad => StatusCode::BAD_REQUEST,
        Outcome::Denied => StatusCode::FORBIDDEN,
        Outcome::Unknown => StatusCode::NOT_FOUND,
        Outcome::Stopped => StatusCode::SERVICE_UNAVAILABLE,
    }
}

// Returns the answer with a reply.
fn reply_answer(reply: Reply) -> HttpAnswer
    ensures { spec.StatusAndText (spec.outcome_status reply.outcome) reply.body result }
{
    HttpAnswer {
        status: status_of(reply.outcome),
        text: Text::Made(reply.body),
    }
}

// Asks the hub, and returns its answer.
fn ask<S: Store>(
    hub: &mut Hub<S>,
    moment: Moment,
    asked: &Asked<'_>,
    request: Request,
) -> HttpAnswer
    requires { IsNoJoin request }
    ensures asked { spec.RepliesTo (spec.HubReplies S.Store moment hub.old hub.new)
        (hub.new ≡ hub.old) (Ok (question_as (asked_as asked.now) request)) result }
    ensures stays { spec.KeepsHub S.Store hub.old hub.new }
{
    let reply = hub.step(moment, &asked.gln, asked.key, request);
    reply_answer(reply)
}

// Answers what is asked for, with the body, or `None` if it breaks off.
fn answer_body<S: Store>(
    alloc: Global,
    hub: &mut Hub<S>,
    moment: Moment,
    asked: &Asked<'_>,
    body: Option<Items<u8>>,
) -> HttpAnswer
    ensures answers { spec.AnswersQuestion (spec.HubReplies S.Store moment hub.old hub.new)
        (hub.new ≡ hub.old)
        true (with_body (asked_as asked.now) body) result }
    ensures refused { IfErr (with_body (asked_as asked.now) body) (λ refusal.
        spec.StatusAndText (refusal_status refusal) (text_of refusal) result) }
    ensures stays { spec.KeepsHub S.Store hub.old hub.new }
{
    match request_of(alloc, asked, body) {
        Ok(Ok(request)) => ask(hub, moment, asked, request),
        Ok(Err(refusal)) => refusal_answer(refusal),
        Err(_) => stopped_answer(),
    }
}

// Asks the hub with an upload that was opened.
fn ask_opened<S: Store>(
    hub: &mut Hub<S>,
    moment: Moment,
    asked: &Asked<'_>,
    upload: OpenResult,
) -> HttpAnswer
    requires { upload ≢ Err (OpenFault.Token TokenFault.Read) }
    ensures asked { (bytes : List ℕ) → Opens upload (opened bytes) →
        spec.RepliesTo (spec.HubReplies S.Store moment hub.old hub.new) (hub.new ≡ hub.old)
        (Ok (uploading (asked_as asked.now) bytes)) result }
    ensures stays { (bytes : List ℕ) → Opens upload (opened bytes) →
        spec.KeepsHub S.Store hub.old hub.new }
{
    let reply = hub.step_opened(moment, &asked.gln, asked.key, upload);
    reply_answer(reply)
}

// Answers an upload whose body begins with these bytes, without keeping the body. `sent` is the size of the body, if it
// is known.
fn answer_upload<R: Source, S: Store>(
    alloc: Global,
    hub: &mut Hub<S>,
    moment: Moment,
    reader: &mut R,
    front: &[u8],
    sent: Option<usize>,
    asked: &Asked<'_>,
) -> Result<AnswerAfterRead, HeadFault>
    requires route { asked.now.route ≡ Route.Interchanges }
    requires short { asked.now.size ≤ longest_body }
    requires sized { IfSome sent (λ size. size ≡ asked.now.size) }
    ensures answers { IfOk result (λ answered. IfSome (R.remaining reader.old) (λ left.
        spec.AnswersQuestion (spec.HubReplies S.Store moment hub.old hub.new) (hub.new ≡ hub.old) true
        (with_body (asked_as asked.now) (body_in (asked_as asked.now).size (front.now ++ left))) answered.answer)) }
    ensures or_fails { spec.AnswersOrFails (spec.HubReplies S.Store moment hub.old hub.new)
        (hub.new ≡ hub.old) (R.failed reader.old) (R.failed reader.new) result }
    ensures stays { spec.KeepsHub S.Store hub.old hub.new }
    ensures front { TakesAtMost (R.remaining reader.old) (R.remaining reader.new)
        (asked.now.size - length front.now) }
    ensures to_end { IfOk result (λ answered.
        TellsBody sent front.now (R.remaining reader.old) (R.remaining reader.new) answered.read_to_end) }
{
    match open_body(alloc, reader, front, asked.size) {
        Ok(Some(upload)) => Ok(AnswerAfterRead {
            answer: ask_opened(hub, moment, asked, upload),
            read_to_end: is_whole(sent, front.len().max(asked.size)),
        }),
        Ok(None) => Ok(AnswerAfterRead {
            answer: refusal_answer(Refusal::BadRequest),
            read_to_end: false,
        }),
        Err(ReadFault::Read) => Err(HeadFault),
        Err(ReadFault::Memory) => Ok(AnswerAfterRead {
            answer: stopped_answer(),
            read_to_end: is_whole(sent, front.len()),
        }),
    }
}

// Answers what is asked for, with a body that begins with these bytes. Any body but an upload's is read as a whole.
fn answer_asked<R: Source, S: Store>(
    alloc: Global,
    hub: &mut Hub<S>,
    moment: Moment,
    reader: &mut R,
    front: &[u8],
    sent: Option<usize>,
    asked: &Asked<'_>,
) -> Result<AnswerAfterRead, HeadFault>
    requires short { asked.now.size ≤ longest_body }
    requires sized { IfSome sent (λ size. size ≡ asked.now.size) }
    ensures answers { IfOk result (λ answered. IfSome (R.remaining reader.old) (λ left.
        spec.AnswersQuestion (spec.HubReplies S.Store moment hub.old hub.new) (hub.new ≡ hub.old) true
        (with_body (asked_as asked.now) (body_in (asked_as asked.now).size (front.now ++ left))) answered.answer)) }
    ensures or_fails { spec.AnswersOrFails (spec.HubReplies S.Store moment hub.old hub.new)
        (hub.new ≡ hub.old) (R.failed reader.old) (R.failed reader.new) result }
    ensures stays { spec.KeepsHub S.Store hub.old hub.new }
    ensures front { TakesAtMost (R.remaining reader.old) (R.remaining reader.new)
        (asked.now.size - length front.now) }
    ensures to_end { IfOk result (λ answered.
        TellsBody sent front.now (R.remaining reader.old) (R.remaining reader.new) answered.read_to_end) }
{
    if let Route::Interchanges = asked.route {
        return answer_upload(alloc, hub, moment, reader, front, sent, asked);
    }
    match read_body(alloc, reader, front, asked.size) {
        Ok(body) => Ok(AnswerAfterRead {
            read_to_end: is_read(&body, sent, front.len().max(asked.size)),
            answer: answer_body(alloc, hub, moment, asked, body),
        }),
        Err(ReadFault::Read) => Err(HeadFault),
        Err(ReadFault::Memory) => Ok(AnswerAfterRead {
            answer: stopped_answer(),
            read_to_end: is_whole(sent, front.len()),
        }),
    }
}

// Answers a head and what follows it.
fn answer_head<R: Source, S: Store>(
    alloc: Global,
    paths: &Paths,
    hub: &mut Hub<S>,
    moment: Moment,
    reader: &mut R,
    head: &HttpHead,
) -> Result<AnswerAfterRead, HeadFault>
    ensures answers { IfOk result (λ answered. IfSome (R.remaining reader.old) (λ left.
        spec.AnswersQuestion (spec.HubReplies S.Store moment hub.old hub.new) (hub.new ≡ hub.old)
        (is_single head.now) (question_of hub.old.0 (Some (before left head.now))) answered.answer)) }
    ensures or_fails { spec.AnswersOrFails (spec.HubReplies S.Store moment hub.old hub.new)
        (hub.new ≡ hub.old) (R.failed reader.old) (R.failed reader.new) result }
    ensures stays { spec.KeepsHub S.Store hub.old hub.new }
    ensures front { TakesAtMost (R.remaining reader.old) (R.remaining reader.new)
        (spec.size_asked (asked_by hub.old.0 head.now) - length head.now.rest) }
    ensures to_end { IfOk result (λ answered. TellsBody (size_of_body head.now) head.now.rest
        (R.remaining reader.old) (R.remaining reader.new) answered.read_to_end) }
{
    let sent = body_size(head);
    match check_head(paths, hub, head) {
        Ok(asked) => answer_asked(alloc, hub, moment, reader, head.rest(), sent, &asked),
        Err(refusal) => Ok(AnswerAfterRead {
            answer: refusal_answer(refusal),
            read_to_end: is_whole(sent, head.rest().len()),
        }),
    }
}

/// Answers a connection.
pub(crate) fn answer_one<R: Source, S: Store>(
    alloc: Global,
    paths: &Paths,
    hub: &mut Hub<S>,
    moment: Moment,
    reader: &mut R,
) -> Result<AnswerAfterRead, HeadFault>
    ensures answered { IfOk result (λ answered. IfSome (R.remaining reader.old) (λ known.
        spec.AnswersBytes (spec.HubReplies S.Store moment hub.old hub.new)
        (hub.new ≡ hub.old) hub.old.0 known
        (R.remaining reader.new) answered.answer)) }
    ensures or_fails { spec.AnswersOrFails (spec.HubReplies S.Store moment hub.old hub.new)
        (hub.new ≡ hub.old) (R.failed reader.old) (R.failed reader.new) result }
    ensures stays { spec.KeepsHub S.Store hub.old hub.new }
    ensures front { TakesAtMost (R.remaining reader.old) (R.remaining reader.new)
        (longest_head + longest_body) }
    ensures cut { OnErr result (IfSome (R.remaining reader.old) (λ known.
        spec.ReadsWithin hub.old.0 known (R.remaining reader.new))) }
    ensures to_end { IfOk result (λ answered.
        TellsEnd (R.remaining reader.old) (R.remaining reader.new) answered.read_to_end) }
{
    match read_head(reader)? {
        Some(head) => answer_head(alloc, paths, hub, moment, reader, &head),
        None => Ok(AnswerAfterRead {
            answer: refusal_answer(Refusal::BadRequest),
            read_to_end: false,
        }),
    }
}
