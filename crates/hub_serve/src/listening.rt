//! Takes connections from the network.
ghost use Rattle.std.specs.Prelude.{◌≡◌, ◌∷◌, [], false, IfOk, Some, None};
ghost use Rattle.std.specs.Duration.{as_nanos};
ghost use Rattle.std.specs.IoError.{error_kind};
ghost use Rattle.std.specs.Time.{instant_nanos};
ghost use Rattle.edi_base.specs.Source.{TakesAtMost};
ghost use Rattle.hub_serve.specs.Connections.{Adds};
ghost use Rattle.hub_serve.specs.Listening as spec;
ghost use Rattle.hub_serve.specs.Listening.{AtBegin, LingersAfter, LingersIfMore};
ghost use Rattle.hub_serve.specs.Timed.{Lingers, ReadsOn};
ghost use Rattle.hub_serve.specs.Uses.{told};

use crate::connections::{Connections, NoConnection, Sides};
use crate::line::Ending;
use crate::sockets::{Listener, NetListener, Socket};
use crate::timed::Timed;
use edi_base::{OfRead, OfWrite};
use std::io;
use std::io::{ErrorKind, Read};
use std::marker::Model;
use std::net::{Ipv4Addr, Net, SocketAddr, SocketAddrV4, TcpListener};
use std::time::{Clock, Duration, Instant};

/// The seconds that a client has to send its request, and again to read the response.
const WHOLE: u64 = 10;

/// The seconds for which more is read at most, after a response to a request that was not read to its end.
const LINGER: u64 = 1;

/// The number of bytes of which no more are read then.
const LINGER_BYTES: usize = 1_048_576;

/// The number of bytes read at a time.
const PIECE: usize = 4096;

/// Connections that arrive at a listener over the network. Each client has 10 seconds to send its request, from when
/// its connection was taken, and 10 seconds to read the response, from when the hub begins to write it. The time that
/// the hub takes in between does not count.
#[derive(Drop)]
pub struct Listening<L> {
    listener: L,
    failed: bool,
}

impl<L> Model for Listening<L> {
    ghost use Rattle.std.specs.Prelude.{Bool};

    ghost Value = { L × Bool };

    ghost view = { λ l. (l.listener, l.failed) };
}

impl<'c, N: Net + Clock> Listening<NetListener<'c, N, N::Listener>> {
    /// Listens on a port of 127.0.0.1.
    pub fn on(net: &'c N, port: u16) -> io::Result<Self>
        ensures { IfOk result (λ listening. listening.1 ≡ false) }
    {
        let address = SocketAddr::V4(SocketAddrV4::new(Ipv4Addr::new(127, 0, 0, 1), port));
        Ok(Listening {
            listener: NetListener::of(net, TcpListener::bind(net, address)?),
            failed: false,
        })
    }
}

impl<L> Listening<L> {
    /// Whether connections ended because no more could be taken.
    pub fn has_failed(&self) -> bool
        ensures { result ≡ self.now.1 }
    {
        self.failed
    }
}

// Returns whether an error of `accept` concerns only one client, which disconnected, or means that none can be taken
// any more.
fn no_connection(error: &io::Error) -> NoConnection
    ensures { result ≡ spec.no_connection (error_kind error.now) }
{
    match error.kind() {
        ErrorKind::ConnectionAborted | ErrorKind::ConnectionReset => NoConnection::Gone,
        _ => NoConnection::Over,
    }
}

// Asks the clock when the client begins to send, and opens a second socket to write to.
fn begin<T: Socket>(socket: &mut T) -> io::Result<(Instant, T)>
    ensures told { IfOk result (λ begun.
        Adds (T.uses socket.old) (T.uses socket.new) (told (instant_nanos begun.0) ∷ [])) }
    ensures unknown { T.uses socket.old ≡ None → T.uses socket.new ≡ None }
{
    let begun = socket.instant()?;
    let second = socket.second()?;
    Ok((begun, second))
}

// Makes the two sides of a connection whose client begins to send at this moment.
fn sides_of<T: Socket>(
    socket: T,
    second: T,
    begun: Instant,
) -> Sides<OfRead<Timed<T>>, OfWrite<Timed<T>>>
    ensures begin { AtBegin 10_000_000_000 result.reader result.writer }
    ensures reader { result.reader.0.0 ≡ socket }
    ensures begun { result.reader.0.1.0 ≡ Some begun }
{
    let whole = Duration::from_secs(WHOLE);
    Sides {
        reader: OfRead::new(Timed::since(socket, begun, whole)),
        writer: OfWrite::new(Timed::from_first_use(second, whole)),
    }
}

// Reads and drops bytes until the client ends, the limit is reached, or the time is over, which begins with the first
// read.
fn read_away<T: Socket>(timed: &mut Timed<T>, limit: usize) -> io::Result<()>
    requires { timed.old.1.0 ≡ None }
    ensures bytes { TakesAtMost (T.remaining timed.old.0) (T.remaining timed.new.0) limit }
    ensures reads { ReadsOn (as_nanos timed.old.1.1) [] (T.uses timed.old.0) (T.uses timed.new.0) }
{
    let mut piece = [0u8; PIECE];
    let mut left = limit;
    while left > 0 {
        let count = timed.read(&mut piece[..left.min(PIECE)])?;
        if count == 0 {
            return Ok(());
        }
        left -= count;
    }
    Ok(())
}

// Tells the client that nothing more is sent, and reads until it ends or a limit is reached.
fn linger<T: Socket>(mut socket: T) -> T
    ensures bytes { TakesAtMost (T.remaining socket) (T.remaining result) 1_048_576 }
    ensures uses { Lingers 1_000_000_000 (T.uses socket) (T.uses result) }
{
    if socket.end_sending().is_err() {
        return socket;
    }
    let mut timed = Timed::from_first_use(socket, Duration::from_secs(LINGER));
    let _ = read_away(&mut timed, LINGER_BYTES);
    timed.into_inner()
}

// Reads on if the client has sent more than was read. Otherwise closing would reset the connection, and lose the
// response.
fn linger_if_more<T: Socket>(mut socket: T) -> T
    ensures { LingersIfMore (T.uses socket) (T.uses result) }
{
    if socket.has_more() {
        return linger(socket);
    }
    socket
}

// Reads on if a response was written and the client may still be sending: the request was not read to its end, or more
// has arrived after it. Returns the socket, to be closed.
fn last_of<T: Socket>(socket: T, ending: Ending) -> T
    ensures { LingersAfter ending (T.uses socket) (T.uses result) }
{
    match ending {
        Ending::Answered(served) if served.read_to_end => linger_if_more(socket),
        Ending::Answered(_) => linger(socket),
        Ending::Gone | Ending::ReadFailed | Ending::WriteFailed => socket,
    }
}

impl<L: Listener> Connections for Listening<L> {
    ghost use Rattle.std.specs.Prelude.{◌≡◌, ◌||◌, None, IfOk};
    ghost use Rattle.hub_serve.specs.Connections.{IsNew, TakesConnection, is_over};
    ghost use Rattle.hub_serve.specs.Listening.{Accepts, AtBegin, BeginsNow, Closes};

    ghost failed = { λ l. l.1 };

    type Reader = OfRead<Timed<L::Socket>>;

    type Writer = OfWrite<Timed<L::Socket>>;

    fn next(&mut self) -> Result<Sides<Self::Reader, Self::Writer>, NoConnection>
        ensures takes { TakesConnection (λ reader. L.Socket.remaining reader.0.0) None None result }
        ensures is_new { IfOk result (λ sides. IsNew None sides.reader.1 sides.writer.1) }
        ensures begins { IfOk result (λ sides. AtBegin 10_000_000_000 sides.reader sides.writer) }
        ensures begins_now { IfOk result (λ sides. BeginsNow L.Socket.uses sides.reader) }
        ensures accepts { Accepts (L.deeds self.old.0) (L.deeds self.new.0) result }
        ensures flag { self.new.1 ≡ (self.old.1 || is_over result) }
    {
        let mut socket = match self.listener.accept() {
            Ok(socket) => socket,
            Err(error) => {
                let none = no_connection(&error);
                self.failed = self.failed || none == NoConnection::Over;
                return Err(none);
            }
        };
        match begin(&mut socket) {
            Ok((begun, second)) => Ok(sides_of(socket, second, begun)),
            Err(_) => {
                self.listener.close(socket);
                Err(NoConnection::Gone)
            }
        }
    }

    fn end(&mut self, sides: Sides<Self::Reader, Self::Writer>, ending: Ending)
        ensures failed { self.new.1 ≡ self.old.1 }
        ensures closes { Closes ending (L.Socket.uses sides.reader.0.0) (L.Socket.uses sides.writer.0.0)
            (L.deeds self.old.0) (L.deeds self.new.0) }
    {
        let Sides { reader, writer } = sides;
        self.listener.close(writer.into_inner().into_inner());
        let last = last_of(reader.into_inner().into_inner(), ending);
        self.listener.close(last);
    }
}
