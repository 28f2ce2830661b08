//! Reaches listeners, sockets and the clock that times them, by traits whose contracts record how these are used.
use std::io;
use std::io::{Read, Write};
use std::net::{OpenListener, OpenStream, Shutdown};
use std::time::{Clock, Duration, Instant};

/// A socket, and the clock that times it.
pub trait Socket {
    ghost use Rattle.std.specs.Prelude.{◌≡◌, ℕ, List, [], ◌∷◌, Option, None};
    ghost use Rattle.std.specs.Duration.{as_nanos};
    ghost use Rattle.std.specs.Io.{ReadsAtMost, WritesAtMost};
    ghost use Rattle.std.specs.Io.KnownBytes.{ReadConsumes, WriteAppends};
    ghost use Rattle.hub_serve.specs.Connections.{Adds};
    ghost use Rattle.hub_serve.specs.Uses as spec;

    // How it was used so far, in order, if that is known.
    ghost uses: { Self → spec.Uses } = { λ _. None };

    // The bytes that reads will give, if they are known.
    ghost remaining: { Self → Option (List ℕ) } = { λ _. None };

    // The bytes that were written, if they are known.
    ghost contents: { Self → Option (List ℕ) } = { λ _. None };

    /// Returns the current moment of the clock.
    fn instant(&mut self) -> io::Result<Instant>
        ensures uses { Adds (uses self.old) (uses self.new) (spec.told_by result) }
        ensures unknown { uses self.old ≡ None → uses self.new ≡ None }
        ensures remaining { remaining self.new ≡ remaining self.old }
        ensures contents { contents self.new ≡ contents self.old };

    /// Sets how long each read waits from now on. Fails for a wait of zero.
    fn set_read_wait(&mut self, wait: Duration) -> io::Result<()>
        ensures uses { Adds (uses self.old) (uses self.new) (spec.set_by result (spec.read_wait (as_nanos wait))) }
        ensures remaining { remaining self.new ≡ remaining self.old }
        ensures contents { contents self.new ≡ contents self.old };

    /// Sets how long each write waits from now on. Fails for a wait of zero.
    fn set_write_wait(&mut self, wait: Duration) -> io::Result<()>
        ensures uses { Adds (uses self.old) (uses self.new) (spec.set_by result (spec.write_wait (as_nanos wait))) }
        ensures remaining { remaining self.new ≡ remaining self.old }
        ensures contents { contents self.new ≡ contents self.old };

    /// Reads bytes into the front of the buffer, and returns how many.
    fn read(&mut self, buffer: &mut [u8]) -> io::Result<usize>
        ensures bound { ReadsAtMost result buffer.new }
        ensures bytes { ReadConsumes (remaining self.old) (remaining self.new) result buffer.new }
        ensures uses { Adds (uses self.old) (uses self.new) (spec.read ∷ []) };

    /// Writes some of the bytes, beginning with the first, and returns how many.
    fn write(&mut self, bytes: &[u8]) -> io::Result<usize>
        ensures bound { WritesAtMost result bytes.now }
        ensures bytes { WriteAppends (contents self.old) (contents self.new) result bytes.now }
        ensures uses { Adds (uses self.old) (uses self.new) (spec.write ∷ []) };

    /// Tells the client that nothing more is sent.
    fn end_sending(&mut self) -> io::Result<()>
        ensures uses { Adds (uses self.old) (uses self.new) (spec.end_sending ∷ []) }
        ensures remaining { remaining self.new ≡ remaining self.old };

    /// Whether bytes have arrived that were not read, or this is not known. It does not wait for any.
    fn has_more(&mut self) -> bool
        ensures uses { Adds (uses self.old) (uses self.new) (spec.has_more result ∷ []) }
        ensures remaining { remaining self.new ≡ remaining self.old };

    /// Opens a second handle of the same connection.
    fn second(&self) -> io::Result<Self>
    where
        Self: Sized;
}

/// A listener that hands out sockets, and closes each at its end.
pub trait Listener {
    ghost use Rattle.std.specs.Prelude.{[], ◌∷◌, None, IfOk};
    ghost use Rattle.hub_serve.specs.Connections.{Adds};
    ghost use Rattle.hub_serve.specs.Uses as spec;

    type Socket: Socket + Drop;

    // What it did so far, in order, if that is known.
    ghost deeds: { Self → spec.Deeds } = { λ _. None };

    /// Waits for the next connection.
    fn accept(&mut self) -> io::Result<Self::Socket>
        ensures deeds { Adds (deeds self.old) (deeds self.new) (spec.deed_of result ∷ []) }
        ensures unused { IfOk result (λ socket. spec.IsUnused (Self.Socket.uses socket)) };

    /// Closes a socket.
    fn close(&mut self, socket: Self::Socket)
        ensures deeds { Adds (deeds self.old) (deeds self.new) (spec.closed (Self.Socket.uses socket) ∷ []) };
}

/// A socket of the network, timed by a clock. It does not report how it was used, because the standard library's
/// contracts do not describe clocks, timeouts and `shutdown`.
#[derive(Drop)]
pub struct NetSocket<'c, C, T> {
    clock: &'c C,
    stream: T,
}

impl<'c, C: Clock, T: OpenStream + Read + Write> Socket for NetSocket<'c, C, T> {
    ghost remaining = { λ s. T.Read.remaining s.stream };

    ghost contents = { λ s. T.Write.contents s.stream };

    fn instant(&mut self) -> io::Result<Instant> {
        Instant::now(self.clock)
    }

    fn set_read_wait(&mut self, wait: Duration) -> io::Result<()> {
        self.stream.set_read_timeout(Some(wait))
    }

    fn set_write_wait(&mut self, wait: Duration) -> io::Result<()> {
        self.stream.set_write_timeout(Some(wait))
    }

    fn read(&mut self, buffer: &mut [u8]) -> io::Result<usize> {
        self.stream.read(buffer)
    }

    fn write(&mut self, bytes: &[u8]) -> io::Result<usize> {
        self.stream.write(bytes)
    }

    fn end_sending(&mut self) -> io::Result<()> {
        self.stream.shutdown(Shutdown::Write)
    }

    fn has_more(&mut self) -> bool {
        if self.stream.set_nonblocking(true).is_err() {
            return true;
        }
        let mut byte = [0u8; 1];
        let has_come = matches!(self.stream.peek(&mut byte), Ok(1));
        self.stream.set_nonblocking(false).is_err() || has_come
    }

    fn second(&self) -> io::Result<Self> {
        Ok(NetSocket {
            clock: self.clock,
            stream: self.stream.try_clone()?,
        })
    }
}

/// A listener of the network, whose sockets are timed by a clock. Like its sockets, it does not report how it was used.
#[derive(Drop)]
pub struct NetListener<'c, C, L> {
    clock: &'c C,
    listener: L,
}

impl<'c, C, L> NetListener<'c, C, L> {
    // Wraps a listener and a clock.
    pub(crate) fn of(clock: &'c C, listener: L) -> Self {
        NetListener { clock, listener }
    }
}

impl<'c, C: Clock, L: OpenListener> Listener for NetListener<'c, C, L>
where
    L::Stream: OpenStream + Read + Write,
{
    type Socket = NetSocket<'c, C, L::Stream>;

    fn accept(&mut self) -> io::Result<Self::Socket> {
        let (stream, _) = self.listener.accept()?;
        Ok(NetSocket {
            clock: self.clock,
            stream,
        })
    }

    fn close(&mut self, socket: Self::Socket) {
        drop(socket);
    }
}
