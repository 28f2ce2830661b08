//! Defines why nothing is asked of the hub.
ghost use Rattle.std.specs.Prelude.{◌≡◌};
ghost use Rattle.hub_http.specs.Refusal as spec;

use http::StatusCode;

/// Why the bytes of a connection ask nothing of the hub.
#[derive(Clone, Copy, Debug, PartialEq, Eq)]
pub(crate) enum Refusal {
    /// The head is wrong, too long, incomplete, or has too many fields; a key or a length occurs in it twice; the
    /// length is not a number; the body breaks off, or is not a cancellation.
    BadRequest,
    /// There is no such path, or no such supplier.
    Unknown,
    /// The path needs another method.
    Method,
    /// The caller is not identified by the key, or may not ask this.
    Denied,
    /// No length is announced, or the body comes in pieces.
    Length,
    /// The body is longer than the longest upload.
    TooLarge,
}

impl Refusal {
    /// Returns the status of the response.
    pub(crate) fn status(self) -> StatusCode
        ensures { result ≡ spec.status_of self }
    {
        match self {
            Refusal::BadRequest => StatusCode::BAD_REQUEST,
            Refusal::Unknown => StatusCode::NOT_FOUND,
            Refusal::Method => StatusCode::METHOD_NOT_ALLOWED,
            Refusal::Denied => StatusCode::FORBIDDEN,
            Refusal::Length => StatusCode::LENGTH_REQUIRED,
            Refusal::TooLarge => StatusCode::PAYLOAD_TOO_LARGE,
        }
    }

    /// Returns the body of the response.
    pub(crate) fn text(self) -> &'static [u8]
        ensures { result.now ≡ spec.text_of self }
    {
        match self {
            Refusal::BadRequest => b"bad request\n",
            Refusal::Unknown => b"unknown\n",
            Refusal::Method => b"method\n",
            Refusal::Denied => b"denied\n",
            Refusal::Length => b"length\n",
            Refusal::TooLarge => b"too large\n",
        }
    }
}
