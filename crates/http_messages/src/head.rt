//! Reads the head of a request.

ghost use Rattle.std.specs.Prelude.{◌≡◌, true, IfOk, OnOk, OnErr};
ghost use Rattle.http_messages.specs.Head.{Heading, Finds, longest_head};
ghost use Rattle.edi_base.specs.Source.{TakesAtMost};
ghost use Rattle.http_messages.specs.Fields.{AreValues, values_of};

use crate::fields::{Values, values_in};
use crate::more::read_more;
use edi_base::Source;
use httparse::Status;
use httparse::spans::{EMPTY_HEADER_SPAN, HeaderSpan, RequestSpans, parse_request};
use std::marker::Model;

/// How many bytes a head has at most, the empty line at its end among them.
pub const LONGEST_HEAD: usize = 8192;

/// How many fields a head has at most.
const FIELDS: usize = 32;

/// The source answered an error before the head was read.
#[derive(Clone, Copy, Debug, PartialEq, Eq)]
pub struct HeadFault;

/// The head of a request, with the bytes that were read after it. Contracts see it as a `Heading`. It holds its own
/// bytes, and takes no memory of an allocator.
#[derive(Drop)]
pub struct HttpHead {
    bytes: [u8; LONGEST_HEAD],
    filled: usize,
    fields: [HeaderSpan; FIELDS],
    spans: RequestSpans,
}

impl Model for HttpHead {
    ghost use Rattle.std.specs.Prelude.{◌≤◌, take};
    ghost use Rattle.http_messages.specs.Head.{Heading, ShowsHead, longest_head, shown};

    ghost Value = { Heading };

    ghost view = { λ h. shown (take h.filled h.bytes) h.fields h.spans };

    ghost invariant = { λ h. (h.filled ≤ longest_head) × ShowsHead (take h.filled h.bytes) h.fields h.spans };
}

impl HttpHead {
    /// Returns the method, as it was sent: its letters have their case (RFC 9110, section 9.1).
    pub fn method(&self) -> &[u8]
        ensures { result.now ≡ self.now.method }
    {
        self.spans.method.of(&self.bytes[..self.filled])
    }

    /// Returns the target, with its query if it has one (RFC 9112, section 3.2).
    pub fn target(&self) -> &str
        ensures { result.now ≡ self.now.target }
    {
        str::from_utf8(self.spans.path.of(&self.bytes[..self.filled])).unwrap()
    }

    /// Returns the bytes that were read after the head: a prefix of the body, if there is one.
    pub fn rest(&self) -> &[u8]
        ensures { result.now ≡ self.now.rest }
    {
        let read = &self.bytes[..self.filled];
        &read[self.spans.len..]
    }

    /// Returns the values of the fields of a name, whose letters may be of either case (RFC 9110, section 5.1).
    pub fn values(&self, name: &[u8]) -> Values<'_>
        ensures { AreValues result (values_of name.now self.now.fields) }
    {
        values_in(
            &self.bytes[..self.filled],
            &self.fields[..self.spans.headers],
            name,
        )
    }
}

/// Reads the head of a request (RFC 9112, sections 2 to 5, as `httparse` accepts them: lines may end with LF alone, the
/// version may be HTTP/1.0, and empty lines may come before it). `None` if it is wrong, cut, longer than 8,192 bytes,
/// or has more than 32 fields. At most 8,192 bytes are read; those after the head are its `rest`.
pub fn read_head<R: Source>(source: &mut R) -> Result<Option<HttpHead>, HeadFault>
    ensures head { IfOk result (Finds (R.remaining source.old) (R.remaining source.new)) }

    // Whatever is answered, no more than that was taken from the source.
    ensures limit { TakesAtMost (R.remaining source.old) (R.remaining source.new) longest_head }

    // The fault comes only from the source, and else the source's flag stays.
    ensures kept { OnOk result (R.failed source.new ≡ R.failed source.old) }
    ensures failed { OnErr result (R.failed source.new ≡ true) }
{
    let mut bytes = [0u8; LONGEST_HEAD];
    let mut filled = 0;
    'reading: loop {
        let mut fields = [EMPTY_HEADER_SPAN; FIELDS];
        match parse_request(&bytes[..filled], &mut fields) {
            Ok(Status::Complete(spans)) => {
                return Ok(Some(HttpHead {
                    bytes,
                    filled,
                    fields,
                    spans,
                }));
            }
            Ok(Status::Partial) => {}
            Err(_) => return Ok(None),
        }
        if filled == LONGEST_HEAD {
            return Ok(None);
        }
        let Ok(count) = read_more(source, &mut bytes, filled) else {
            return Err(HeadFault);
        };
        if count == 0 {
            return Ok(None);
        }
        filled += count;
    }
}
