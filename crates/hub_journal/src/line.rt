//! Makes the line of a connection.
ghost use Rattle.std.specs.Prelude.{◌≡◌, ◌≤◌, [], ◌++◌, length, option_map, decimal, codes, Some, None};
ghost use Rattle.hub_journal.specs.Front.{kept};
ghost use Rattle.hub_journal.specs.Line as spec;
ghost use Rattle.hub_journal.specs.Request.{words_of};
ghost use Rattle.hub_journal.specs.declared.line.ConnectionEnd.TheVariants.{Answered, TimedOut};

use crate::front::Front;
use crate::moment_text::rfc3339;
use crate::reply::{keep_shown, reply_in};
use crate::request::RequestWords;
use edi_moment::Moment;

/// How a connection ended.
#[derive(Clone, Copy, Debug, PartialEq, Eq)]
pub enum ConnectionEnd {
    /// It got a response with this status.
    Answered(u16),
    /// Its client disconnected before the connection was accepted.
    Gone,
    /// A read failed. The hub got no request.
    ReadFailed,
    /// The client did not send its request in time. The hub got no request.
    TimedOut,
    /// A write failed. The request was carried out.
    WriteFailed,
}

/// What the journal shows of a connection.
#[derive(Clone, Copy)]
pub struct Entry<'a> {
    /// When it arrived, if that is known.
    pub moment: Option<Moment>,
    /// Its number; the first connection has 1.
    pub number: u64,
    /// The first bytes that its client sent.
    pub read: &'a [u8],
    /// The first bytes that were sent to its client.
    pub sent: &'a [u8],
    /// How it ended.
    pub outcome: ConnectionEnd,
}

/// The most bytes of method and target that are shown.
const LONGEST_REQUEST: usize = 200;

// Writes a moment.
fn keep_moment(line: &mut Front, moment: Option<Moment>)
    ensures { line.new ≡ kept line.old (spec.moment_text moment) }
{
    match moment {
        Some(moment) => line.keep(&rfc3339(moment)),
        None => line.keep(b"-"),
    }
}

// Writes a number.
fn keep_number(line: &mut Front, number: u64)
    ensures value { line.new ≡ kept line.old (decimal number) }
    ensures short { length (decimal number) ≤ 40 }
{
    let mut digits = itoa::Buffer::new();
    line.keep(digits.format(number).as_bytes());
}

// Writes method and target.
fn keep_request(line: &mut Front, request: Option<RequestWords<'_>>)
    ensures { line.new ≡ kept line.old (spec.request_text (option_map words_of request.entry)) }
{
    match request {
        Some(request) => {
            let mut shown = Front::new();
            keep_shown(&mut shown, request.method);
            shown.keep(b" ");
            keep_shown(&mut shown, request.target);
            shown.cut(LONGEST_REQUEST);
            line.keep(shown.as_slice());
        }
        None => line.keep(b"-"),
    }
}

// Writes the status, or the word for why there was no complete response.
fn keep_outcome(line: &mut Front, outcome: ConnectionEnd)
    ensures value { line.new ≡ kept line.old (spec.outcome_text outcome) }
    ensures short { length (spec.outcome_text outcome) ≤ 40 }
{
    match outcome {
        ConnectionEnd::Answered(status) => keep_number(line, u64::from(status)),
        ConnectionEnd::Gone => line.keep(b"gone"),
        ConnectionEnd::ReadFailed => line.keep(b"read"),
        ConnectionEnd::TimedOut => line.keep(b"timeout"),
        ConnectionEnd::WriteFailed => line.keep(b"write"),
    }
}

// Writes a text after a space, unless it is empty.
fn keep_spaced(line: &mut Front, text: &[u8])
    ensures { line.new ≡ kept line.old (spec.spaced text.now) }
{
    if !text.is_empty() {
        line.keep(b" ");
        line.keep(text);
    }
}

// Writes the reply, if the request is an upload or a cancellation.
fn keep_reply(line: &mut Front, request: Option<RequestWords<'_>>, sent: &[u8])
    ensures { line.new ≡ kept line.old (spec.reply_text (option_map words_of request.entry) sent.now) }
{
    let Some(request) = request else {
        return;
    };
    if request.is_told() {
        let reply = reply_in(sent);
        keep_spaced(line, reply.as_slice());
    }
}

/// Returns the line of a connection.
pub fn line_of(entry: &Entry<'_>) -> Front
    ensures { result ≡ spec.line entry.now.moment entry.now.number entry.now.read.now entry.now.sent.now entry.now.outcome }
{
    let request = RequestWords::read_from(entry.read);
    let mut line = Front::new();
    keep_moment(&mut line, entry.moment);
    line.keep(b" ");
    keep_number(&mut line, entry.number);
    line.keep(b" ");
    keep_request(&mut line, request);
    line.keep(b" ");
    keep_outcome(&mut line, entry.outcome);
    keep_reply(&mut line, request, entry.sent);
    line.keep(b"\n");
    line
}

/// Shows three lines byte for byte: an upload of which one message was refused; a request whose target has a byte that
/// is not printable, and whose reply is not shown; and a client that did not send its request in time.
pub fn line_examples()
    ensures upload { spec.line (Some 97445) 17
        (codes "POST /p/4012345500004/interchanges HTTP/1.1\r\nX-Hub-Key: alpha-key-1\r\n\r\nUNB")
        (codes "HTTP/1.1 200 OK\r\nContent-Length: 59\r\n\r\ninterchange A1 messages 2\n1 ORDRSP accepted\n2 ORDRSP refused B03\n")
        (Answered 200)
        ≡ codes "1970-01-02T03:04:05Z 17 POST /p/4012345500004/interchanges 200 "
        ++ codes "interchange A1 messages 2; 1 ORDRSP accepted; 2 ORDRSP refused B03\n" }
    ensures untold { spec.line (Some 97445) 18 (codes "\r\nGET /p/\t/status HTTP/1.1\r\nX-Hub-Key: alpha-key-1\r\n\r\n")
        (codes "HTTP/1.1 404 Not Found\r\n\r\nunknown\n") (Answered 404)
        ≡ codes "1970-01-02T03:04:05Z 18 GET /p/?/status 404\n" }
    ensures late { spec.line None 19 (codes "X-Hub-Key: alpha-key-1") [] TimedOut ≡ codes "- 19 - timeout\n" }
{}
