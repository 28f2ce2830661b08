//! Defines connections, and the moments at which they arrive.
use crate::line::Ending;
use edi_base::{Sink, Source};
use edi_envelope::Moment;

/// The two sides of a connection.
#[derive(Drop)]
pub struct Sides<R, W> {
    /// What its client sends.
    pub reader: R,
    /// What is sent to its client.
    pub writer: W,
}

/// Why there is no connection.
#[derive(Clone, Copy, Debug, PartialEq, Eq)]
pub enum NoConnection {
    /// The client of the next one disconnected before it was taken. Others may follow.
    Gone,
    /// No more can be taken.
    Over,
}

/// Connections that arrive one after another.
pub trait Connections {
    ghost use Rattle.std.specs.Prelude.{◌≡◌, ◌||◌, ℕ, Bool, List, [], ◌∷◌, Option, None, IfOk};
    ghost use Rattle.hub_serve.specs.Connections as spec;

    type Reader: Source + Drop;

    type Writer: Sink + Drop;

    // What the clients of the connections to come will send, if it is known which come: for each its bytes, if they are
    // known.
    ghost coming: { Self → Option (List (Option (List ℕ))) } = { λ _. None };

    // How the connections ended, in their order, if that is known: what was left of what each client sent, what it was
    // sent, whether a read or a write failed, and how the connection was reported to have ended.
    ghost closed: { Self → Option (List spec.Closed) } = { λ _. None };

    // Whether no more can be taken.
    ghost failed: { Self → Bool };

    /// Waits for the next connection and returns it. Nothing has been read of it yet, and nothing written to it.
    fn next(&mut self) -> Result<Sides<Self::Reader, Self::Writer>, NoConnection>
        ensures takes { spec.TakesConnection Self.Reader.remaining (coming self.old) (coming self.new) result }
        ensures is_new { IfOk result (λ sides. spec.IsNew (Self.Writer.contents sides.writer)
            (Self.Reader.failed sides.reader) (Self.Writer.failed sides.writer)) }
        ensures closed { closed self.new ≡ closed self.old }
        ensures flag { failed self.new ≡ (failed self.old || spec.is_over result) };

    /// Ends a connection, which ended in this way. If it was answered and its request was not read to its end, more of
    /// what the client sends is read and dropped, within limits, so that the client reads the response instead of
    /// finding the connection reset.
    fn end(&mut self, sides: Sides<Self::Reader, Self::Writer>, ending: Ending)
        ensures coming { coming self.new ≡ coming self.old }
        ensures closed { spec.Adds (closed self.old) (closed self.new)
            (spec.closed (Self.Reader.remaining sides.reader) (Self.Writer.contents sides.writer)
            (Self.Reader.failed sides.reader) (Self.Writer.failed sides.writer) ending ∷ []) }
        ensures flag { failed self.new ≡ failed self.old };
}

/// The moments at which connections arrive.
pub trait Moments {
    ghost use Rattle.std.specs.Prelude.{◌≡◌, ◌||◌, ℕ, Bool, List, Option, None, is_none};
    ghost use Rattle.hub_serve.specs.Connections.{TakesMoment};

    // The moments of the connections to come, if they are known.
    ghost coming: { Self → Option (List ℕ) } = { λ _. None };

    // Whether a moment was not known.
    ghost failed: { Self → Bool };

    /// Returns the moment of the connection that arrived last, or `None` if it is not known.
    fn next(&mut self) -> Option<Moment>
        ensures takes { TakesMoment (coming self.old) (coming self.new) result }
        ensures flag { failed self.new ≡ (failed self.old || is_none result) };
}
