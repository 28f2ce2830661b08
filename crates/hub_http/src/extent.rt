//! Finds out how many bytes the body of a request has, and whether a request was read to its end.
ghost use Rattle.std.specs.Prelude.{◌≡◌, ◌↔◌, true, false, Some, None, IfSome};
ghost use Rattle.hub_http.specs.Extent as spec;
ghost use Rattle.http_messages.specs.Fields.{values_of};
ghost use Rattle.hub_http.specs.Asked.{length_field};

use crate::asked::{posted_length, size_in};
use http_messages::{HttpHead, Values};

// Whether the lengths in the head announce no body.
fn is_none_announced(head: &HttpHead) -> bool
    ensures { result ≡ spec.none_announced (values_of length_field head.now.fields) }
{
    match head.values(b"Content-Length") {
        Values::Absent => true,
        Values::One(value) => matches!(size_in(value), Ok(0)),
        Values::Several => false,
    }
}

// Whether a head announces no body: it has no length above 0, and no pieces.
fn has_no_body(head: &HttpHead) -> bool
    ensures { result ≡ spec.has_no_body head.now.fields }
{
    match head.values(b"Transfer-Encoding") {
        Values::Absent => is_none_announced(head),
        _ => false,
    }
}

/// Returns how many bytes the body of a request has, or `None` if that is not known: for a POST without a right length,
/// and for any other request whose head announces a body, because such a body is not read.
pub(crate) fn body_size(head: &HttpHead) -> Option<usize>
    ensures { result ≡ spec.body_size head.now }
{
    if head.method() == b"POST".as_slice() {
        return posted_length(head).ok();
    }
    if has_no_body(head) { Some(0) } else { None }
}

/// Whether this many bytes, read after a head, are its whole body, and no more.
pub(crate) fn is_whole(size: Option<usize>, read: usize) -> bool
    ensures { (result ≡ true) ↔ (size ≡ Some read) }
{
    size == Some(read)
}

/// Like `is_whole`, for a body that was asked for, or `None` if it breaks off.
pub(crate) fn is_read<T>(body: &Option<T>, size: Option<usize>, read: usize) -> bool
    ensures whole { IfSome body.now (λ _. (result ≡ true) ↔ (size ≡ Some read)) }
    ensures cut { body.now ≡ None → result ≡ false }
{
    match body {
        Some(_) => is_whole(size, read),
        None => false,
    }
}
