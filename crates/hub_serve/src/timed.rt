//! Limits the total time of one side of a connection.
ghost use Rattle.std.specs.Prelude.{◌≡◌, IfOk, OnErr, Some, None};
ghost use Rattle.std.specs.Duration.{as_nanos};
ghost use Rattle.hub_serve.specs.Timed.{AsksOnly, TimeGoesOn, TimeLeft};

use crate::sockets::Socket;
use std::io;
use std::io::{Error, ErrorKind, Read, Write};
use std::marker::Model;
use std::time::{Duration, Instant};

/// One side of a connection, whose reads and writes fail once a given time has passed since it began: no call waits
/// longer. So a client that sends or reads nothing, or a byte now and then, is cut off. A side begins with the
/// connection, or with its own first read or write.
#[derive(Drop)]
pub struct Timed<T> {
    socket: T,
    begun: Option<Instant>,
    whole: Duration,
}

impl<T> Model for Timed<T> {
    ghost use Rattle.std.specs.Prelude.{Option};
    ghost use Rattle.std.specs.declared.time.Duration.{Duration};
    ghost use Rattle.std.specs.declared.time.Instant.{Instant};

    ghost Value = { T × (Option Instant × Duration) };

    ghost view = { λ t. (t.socket, (t.begun, t.whole)) };
}

impl<T: Socket> Timed<T> {
    /// Makes a side of this socket that began at a moment of its clock and lasts this long.
    pub fn since(socket: T, begun: Instant, whole: Duration) -> Self
        ensures { result ≡ (socket, (Some begun, whole)) }
    {
        Timed {
            socket,
            begun: Some(begun),
            whole,
        }
    }

    /// Makes a side of this socket that begins with its first read or write and lasts this long.
    pub fn from_first_use(socket: T, whole: Duration) -> Self
        ensures { result ≡ (socket, (None, whole)) }
    {
        let begun = None;
        Timed {
            socket,
            begun,
            whole,
        }
    }

    /// Returns the socket.
    pub fn into_inner(self) -> T
        ensures { result ≡ self.0 }
    {
        let Timed {
            socket,
            begun: _,
            whole: _,
        } = self;
        socket
    }

    // Asks the clock how much of the time is left; the time begins now if it has not. It is an error if nothing is
    // left, because a socket takes a timeout of zero as a wait without end.
    fn time_left(&mut self) -> io::Result<Duration>
        ensures left { IfOk result (λ left.
            TimeLeft (as_nanos left) self.old.1 self.new.1 (T.uses self.old.0) (T.uses self.new.0)) }
        ensures asks { OnErr result (AsksOnly (T.uses self.old.0) (T.uses self.new.0)) }
        ensures time { TimeGoesOn self.old.1 self.new.1 }
        ensures remaining { T.remaining self.new.0 ≡ T.remaining self.old.0 }
        ensures contents { T.contents self.new.0 ≡ T.contents self.old.0 }
    {
        let now = self.socket.instant()?;
        let begun = self.begun.unwrap_or(now);
        self.begun = Some(begun);
        let passed = now.duration_since(begun);
        match self.whole.checked_sub(passed) {
            Some(left) if !left.is_zero() => Ok(left),
            _ => Err(Error::from(ErrorKind::TimedOut)),
        }
    }
}

impl<T: Socket> Read for Timed<T> {
    ghost use Rattle.std.specs.Prelude.{IfOk};
    ghost use Rattle.std.specs.Io.{ReadsAtMost};
    ghost use Rattle.std.specs.Io.KnownBytes.{ReadConsumes};
    ghost use Rattle.hub_serve.specs.Timed.{TimeGoesOn, HasBegun, IsTimed};
    ghost use Rattle.hub_serve.specs.Uses as uses;

    ghost remaining = { λ t. T.remaining t.0 };

    // Reads from the socket, as long as there is time; the time begins if it has not.
    fn read(&mut self, buffer: &mut [u8]) -> io::Result<usize>
        ensures bound { ReadsAtMost result buffer.new }
        ensures bytes { ReadConsumes (T.remaining self.old.0) (T.remaining self.new.0) result buffer.new }
        ensures time { TimeGoesOn self.old.1 self.new.1 }
        ensures begun { IfOk result (λ _. HasBegun self.new.1) }
        ensures timed { IsTimed uses.read_wait uses.read self.old.1 self.new.1
            (T.uses self.old.0) (T.uses self.new.0) result }
    {
        let left = self.time_left()?;
        self.socket.set_read_wait(left)?;
        self.socket.read(buffer)
    }
}

impl<T: Socket> Write for Timed<T> {
    ghost use Rattle.std.specs.Prelude.{◌≡◌, None, IfOk};
    ghost use Rattle.std.specs.Io.{WritesAtMost};
    ghost use Rattle.std.specs.Io.KnownBytes.{Keeps, WriteAppends};
    ghost use Rattle.hub_serve.specs.Timed.{TimeGoesOn, HasBegun, IsTimed};
    ghost use Rattle.hub_serve.specs.Uses as uses;

    // Writes to the socket, as long as there is time; the time begins if it has not.
    fn write(&mut self, bytes: &[u8]) -> io::Result<usize>
        ensures bound { WritesAtMost result bytes.now }
        ensures bytes { WriteAppends None None result bytes.now }
        ensures handed { WriteAppends (T.contents self.old.0) (T.contents self.new.0) result bytes.now }
        ensures time { TimeGoesOn self.old.1 self.new.1 }
        ensures begun { IfOk result (λ _. HasBegun self.new.1) }
        ensures timed { IsTimed uses.write_wait uses.write self.old.1 self.new.1
            (T.uses self.old.0) (T.uses self.new.0) result }
    {
        let left = self.time_left()?;
        self.socket.set_write_wait(left)?;
        self.socket.write(bytes)
    }

    fn flush(&mut self) -> io::Result<()>
        ensures bytes { Keeps None None }
        ensures same { self.new ≡ self.old }
    {
        Ok(())
    }
}
