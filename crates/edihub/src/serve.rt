//! Serves a hub over the network.
use crate::fault::BeginFault;
use crate::journal::FileJournal;
use crate::tasks::status_if_written;
use edi_base::{OfWrite, Sink};
use hub_app::ServeWords;
use hub_commands::Hub;
use hub_journal::Journaled;
use hub_serve::{
    ClockMoments, Connections, Listener, Listening, Moments, NamedOr, OnBroken, Paths,
    print_listening, serve_on,
};
use hub_store::Store;

// Returns what to do once the store has failed for good.
fn on_broken(words: &ServeWords<'_>) -> OnBroken {
    if words.stop_when_broken {
        OnBroken::Stop
    } else {
        OnBroken::ServeOn
    }
}

// Serves connections, and gives them back with the exit status. If the words name a journal, each leaves a line in it.
fn serve_journaled<L: Connections + Drop, S: Store, M: Moments, W: Sink>(
    rt: &HostRuntime,
    paths: &Paths,
    mut connections: L,
    hub: &mut Hub<S>,
    moments: &mut M,
    words: &ServeWords<'_>,
    out: &mut W,
) -> (u8, L) {
    let alloc = rt.alloc();
    let Some(path) = words.journal else {
        let status = serve_on(
            alloc,
            paths,
            &mut connections,
            hub,
            moments,
            words.count,
            on_broken(words),
            out,
        );
        return (status, connections);
    };
    let times = NamedOr::new(words.moment, ClockMoments::new(rt));
    let mut journaled = Journaled::new(connections, times, FileJournal::at(rt, path, words.db));
    let status = serve_on(
        alloc,
        paths,
        &mut journaled,
        hub,
        moments,
        words.count,
        on_broken(words),
        out,
    );
    (status, journaled.into_connections())
}

// Returns the fault that ended serving, if one did.
fn check_ending<L, C, S: Store>(
    hub: &Hub<S>,
    words: &ServeWords<'_>,
    moments: &NamedOr<ClockMoments<'_, C>>,
    connections: &Listening<L>,
) -> Result<(), BeginFault> {
    if words.stop_when_broken {
        if let Some(fault) = hub.fault() {
            return Err(BeginFault::from(fault));
        }
    }
    if moments.clock().has_failed() {
        return Err(BeginFault::Clock);
    }
    if connections.has_failed() {
        return Err(BeginFault::Listen);
    }
    Ok(())
}

// Prints that the port is open, and serves its connections; a fault that ends that is returned.
fn serve_listening<L: Listener + Drop, S: Store>(
    rt: &HostRuntime,
    hub: &mut Hub<S>,
    words: &ServeWords<'_>,
    paths: &Paths,
    connections: Listening<L>,
) -> Result<u8, BeginFault> {
    let mut moments = NamedOr::new(words.moment, ClockMoments::new(rt));
    let mut out = OfWrite::new(rt.stdout());
    if print_listening(&mut out, words.port).is_err() {
        return Err(BeginFault::File);
    }
    let (status, connections) = serve_journaled(
        rt,
        paths,
        connections,
        hub,
        &mut moments,
        words,
        &mut out,
    );
    check_ending(hub, words, &moments, &connections)?;
    status_if_written(&out, status)
}

/// Serves connections from the network. If a fault ends that, it is returned.
pub(crate) fn serve_over<S: Store>(
    rt: &HostRuntime,
    hub: &mut Hub<S>,
    words: &ServeWords<'_>,
) -> Result<u8, BeginFault> {
    let paths = Paths::new(rt.alloc())?;
    let connections = Listening::on(rt, words.port).map_err(|_| BeginFault::Listen)?;
    serve_listening(rt, hub, words, &paths, connections)
}
