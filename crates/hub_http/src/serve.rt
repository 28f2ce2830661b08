//! Serves one connection.
ghost use Rattle.std.specs.Prelude.{◌≡◌, ◌≢◌, ◌+◌, true, Err, IfOk, IfSome};
ghost use Rattle.edi_base.specs.Buffer.{Flags};
ghost use Rattle.edi_base.specs.Source.{TakesAtMost};
ghost use Rattle.http_messages.specs.Head.{longest_head};
ghost use Rattle.http_messages.specs.Response.{Writes};
ghost use Rattle.hub_core.specs.Hub.{StaysSound};
ghost use Rattle.hub_http.specs.Answer.{AnswersWhatever, OneStep, ReadsWithin, HubReplies};
ghost use Rattle.hub_http.specs.Asked.{longest_body};
ghost use Rattle.hub_http.specs.Extent.{TellsEnd};
ghost use Rattle.hub_http.specs.Serve as spec;

use crate::answer::{AnswerAfterRead, HttpAnswer, Text, answer_one};
use crate::paths::Paths;
use edi_base::{Sink, Source, WriteFault};
use edi_envelope::Moment;
use http_messages::write_response;
use hub_core::Hub;
use hub_store::Store;
use std::alloc::Global;
use std::error::Error;
use std::fmt;

/// What serving a connection returns.
#[derive(Clone, Copy, Debug, PartialEq, Eq)]
pub struct Served {
    /// The status that was written.
    pub status: u16,
    /// Whether the request was read to its end: its head and its whole body, and nothing after it. If not, its client
    /// may still be sending. A body that is not read, or whose length is not known, was not read to its end.
    pub read_to_end: bool,
}

/// Why a connection was not served.
#[derive(Clone, Copy, Debug, PartialEq, Eq)]
pub enum IoFault {
    /// A read failed. Nothing was written, and nothing asked of the hub.
    Read,
    /// A write failed, or took nothing. What was asked of the hub was done.
    Write,
}

impl fmt::Display for IoFault {
    ghost use Rattle.std.specs.Prelude.{Some};
    ghost use Rattle.hub_http.specs.Serve.{io_fault_text};

    ghost output = { λ fault. Some (io_fault_text fault) };

    fn fmt<W: fmt::Write>(&self, f: &mut fmt::Formatter<W>) -> fmt::Result {
        match self {
            IoFault::Read => f.write_str("read"),
            IoFault::Write => f.write_str("write"),
        }
    }
}

impl Error for IoFault {}

// Writes an answer.
fn write_answer<W: Sink>(writer: &mut W, answer: &HttpAnswer) -> Result<(), WriteFault>
    ensures bytes { Writes result (W.contents writer.old) (W.contents writer.new) (spec.response answer.now) }
    ensures flag { Flags result (W.failed writer.old) (W.failed writer.new) }
{
    match &answer.text {
        Text::Fixed(bytes) => write_response(writer, answer.status, *bytes),
        Text::Made(bytes) => write_response(writer, answer.status, bytes.as_slice()),
    }
}

/// Serves one connection of HTTP/1.1 that arrives at a moment: reads one request, asks the hub on behalf of the party
/// in its path, if the request has that party's key, and writes the response. The connection has to be closed after
/// that.
///
/// A connection without a request, or one refused before anything is asked of the hub, gets 400, 403, 404, 405, 411 or
/// 413. A reply gets 200 if it is done, 400 if bad, 403 if denied, 404 if unknown, and 503 if stopped. If memory is
/// refused before anything is asked, the response is 503 with `stopped`; this cannot happen before the head is read. A
/// head has at most 8,192 bytes and 32 fields, a body at most 1,048,576 bytes, and no more is read than a head and the
/// announced body, even if a read fails.
pub fn serve_one<S: Store, R: Source, W: Sink>(
    alloc: Global,
    paths: &Paths,
    hub: &mut Hub<S>,
    moment: Moment,
    reader: &mut R,
    writer: &mut W,
) -> Result<Served, IoFault>
    ensures served { spec.Ended (HubReplies S.Store moment hub.old hub.new)
        (hub.new ≡ hub.old) hub.old.0
        (R.remaining reader.old) (R.remaining reader.new) (W.contents writer.old) (W.contents writer.new) result }

    // Even if nothing is known of the bytes, some question was answered, and the hub is as before or was asked once.
    ensures written { spec.ResponseWritten
        (AnswersWhatever (HubReplies S.Store moment hub.old hub.new)
        (hub.new ≡ hub.old)) (W.contents writer.old) (W.contents writer.new) result }
    ensures stepped { OneStep (HubReplies S.Store moment hub.old hub.new) (hub.new ≡ hub.old) }
    ensures held { StaysSound S.Store hub.old hub.new }
    ensures register { hub.new.0 ≡ hub.old.0 }
    ensures was_honest { S.honest hub.new.1 → S.honest hub.old.1 }

    ensures front { TakesAtMost (R.remaining reader.old) (R.remaining reader.new)
        (longest_head + longest_body) }
    ensures cut { result ≡ Err IoFault.Read → IfSome (R.remaining reader.old) (λ known.
        ReadsWithin hub.old.0 known (R.remaining reader.new)) }
    ensures to_end { IfOk result (λ served.
        TellsEnd (R.remaining reader.old) (R.remaining reader.new) served.read_to_end) }

    // Only the reader or the writer causes a fault; otherwise their flags stay.
    ensures read { result ≡ Err IoFault.Read → R.failed reader.new ≡ true }
    ensures read_kept { result ≢ Err IoFault.Read → R.failed reader.new ≡ R.failed reader.old }
    ensures write { result ≡ Err IoFault.Write → W.failed writer.new ≡ true }
    ensures write_kept { result ≢ Err IoFault.Write → W.failed writer.new ≡ W.failed writer.old }
{
    let Ok(answered) = answer_one(alloc, paths, hub, moment, reader) else {
        return Err(IoFault::Read);
    };
    let AnswerAfterRead {
        answer,
        read_to_end,
    } = answered;
    match write_answer(writer, &answer) {
        Ok(()) => Ok(Served {
            status: answer.status.as_u16(),
            read_to_end,
        }),
        Err(WriteFault) => Err(IoFault::Write),
    }
}
