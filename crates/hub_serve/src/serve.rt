//! Serves connections one after another.
ghost use Rattle.std.specs.Prelude.{◌≡◌, ◌≢◌, ◌⊎◌, IsTrue, true, false, [], None, OnErr, OnOk};
ghost use Rattle.hub_http.specs.HubCore.Hub.{StaysSound, StepsFrom};
ghost use Rattle.hub_serve.specs.Broken.{StopsBroken};
ghost use Rattle.hub_serve.specs.Connections.{known};
ghost use Rattle.hub_serve.specs.One.{ServesNext};
ghost use Rattle.hub_serve.specs.Serve.{StopsEarly};
ghost use Rattle.hub_serve.specs.Serving.{ServesHub};

use crate::connections::{Connections, Moments, NoConnection};
use crate::line::{Ending, ending_of, print_line};
use edi_base::Sink;
use edi_base::exit::{DONE, FAILED};
use hub_http::{Hub, Paths, serve_one};
use hub_store::Store;
use std::alloc::Global;

/// What to do once the store has failed for good: it then returns that fault until it is opened again.
#[derive(Clone, Copy, Debug, PartialEq, Eq)]
pub enum OnBroken {
    /// Serve further connections. A request that needs the store is answered 503.
    ServeOn,
    /// Serve no more connections.
    Stop,
}

// Whether the store has failed for good, and serving is to stop then.
fn is_over<S: Store>(hub: &Hub<S>, on_broken: OnBroken) -> bool
    ensures over { result ≡ true → StopsBroken on_broken (S.broken hub.now.1 ≢ None) }
    ensures on { result ≡ false → on_broken ≡ OnBroken.Stop → S.broken hub.now.1 ≡ None }
{
    match on_broken {
        OnBroken::ServeOn => false,
        OnBroken::Stop => hub.fault().is_some(),
    }
}

// Says that no more connections are served.
#[derive(Clone, Copy)]
struct NoMore;

// Serves the next connection.
fn serve_next<L: Connections, S: Store, M: Moments>(
    alloc: Global,
    paths: &Paths,
    connections: &mut L,
    hub: &mut Hub<S>,
    moments: &mut M,
) -> Result<Ending, NoMore>
    ensures served { ServesNext (StepsFrom S.Store hub.old hub.new)
        (hub.new ≡ hub.old) hub.old.0
        (known (L.coming connections.old) (L.closed connections.old) (M.coming moments.old))
        (known (L.coming connections.new) (L.closed connections.new) (M.coming moments.new)) result }

    // No more are served only if none could be taken, or the moment of the one that was taken is not known.
    ensures stopped { OnErr result (StopsEarly (IsTrue (L.failed connections.new)) (IsTrue (M.failed moments.new))
        (L.coming connections.old) (L.coming connections.new) []) }
    ensures going { OnOk result ((L.failed connections.new ≡ L.failed connections.old)
        × (M.failed moments.new ≡ M.failed moments.old)) }
    ensures held { StaysSound S.Store hub.old hub.new }
    ensures register { hub.new.0 ≡ hub.old.0 }
    ensures was_honest { S.honest hub.new.1 → S.honest hub.old.1 }
{
    let mut sides = match connections.next() {
        Ok(sides) => sides,
        Err(NoConnection::Gone) => return Ok(Ending::Gone),
        Err(NoConnection::Over) => return Err(NoMore),
    };
    let Some(moment) = moments.next() else {
        return Err(NoMore);
    };
    let ending = ending_of(serve_one(
        alloc,
        paths,
        hub,
        moment,
        &mut sides.reader,
        &mut sides.writer,
    ));
    connections.end(sides, ending);
    Ok(ending)
}

/// Serves `count` connections one after another. When each has ended, prints its number and the status of its answer,
/// as `connection 1 200`; or `connection 1 fault` if it failed: a read or a write failed, or its client disconnected
/// before it was taken. Each connection that was taken gets the next
/// moment.
///
/// Returns the exit status: 0 if all were answered 200; 3 if one failed or was answered 503, if no more could be taken
/// or a moment was not known, so that no more are served, or if a line could not be written; and 1 otherwise. If
/// serving is to stop once the store has failed for good, the connection at which that happened is the last, and the
/// status is 3.
pub fn serve_on<L: Connections, S: Store, M: Moments, W: Sink>(
    alloc: Global,
    paths: &Paths,
    connections: &mut L,
    hub: &mut Hub<S>,
    moments: &mut M,
    count: u64,
    on_broken: OnBroken,
    out: &mut W,
) -> u8
    ensures served { ServesHub S.Store L.Connections M.Moments on_broken hub.old hub.new
        (connections.old, moments.old) (connections.new, moments.new) count
        (W.contents out.old) (W.contents out.new) (W.failed out.old) (W.failed out.new) result }
    ensures goes_on { on_broken ≡ OnBroken.Stop → result ≢ 3 → (count ≡ 0) ⊎ (S.broken hub.new.1 ≡ None) }
    ensures held { StaysSound S.Store hub.old hub.new }
    ensures register { hub.new.0 ≡ hub.old.0 }
    ensures was_honest { S.honest hub.new.1 → S.honest hub.old.1 }
{
    hub.steps_are_a_run();
    let mut greatest = DONE;
    let mut number: u64 = 0;
    while number < count {
        let ending = match serve_next(alloc, paths, connections, hub, moments) {
            Ok(ending) => ending,
            Err(NoMore) => return FAILED,
        };
        number += 1;
        if print_line(out, number, ending).is_err() {
            return FAILED;
        }
        greatest = greatest.max(ending.status());
        if is_over(hub, on_broken) {
            return FAILED;
        }
    }
    greatest
}
