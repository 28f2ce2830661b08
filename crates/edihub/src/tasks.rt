//! Does what a command asks of a hub.
use crate::fault::BeginFault;
use crate::keys::{KeyRequest, Task};
use edi_base::OfWrite;
use edi_envelope::Moment;
use gs1_ids::Gln;
use hub_commands::{Folder, Hub, Request, import_run, reply_run};
use hub_serve::moment_now;
use hub_store::Store;

// Returns the current moment of the clock.
pub(crate) fn now(rt: &HostRuntime) -> Result<Moment, BeginFault> {
    moment_now(rt).ok_or(BeginFault::Clock)
}

// Returns the exit status, if everything was written.
pub(crate) fn status_if_written<W>(out: &OfWrite<W>, status: u8) -> Result<u8, BeginFault> {
    if out.has_failed() {
        return Err(BeginFault::File);
    }
    Ok(status)
}

// Uploads the files of a folder.
fn import<S: Store>(
    rt: &HostRuntime,
    hub: &mut Hub<S>,
    moment: Moment,
    caller: &Gln,
    key: &[u8],
    folder: &str,
) -> Result<u8, BeginFault> {
    let mut files = Folder::open(rt, folder)?;
    let mut out = OfWrite::new(rt.stdout());
    let status = import_run(rt.alloc(), hub, moment, caller, key, &mut files, &mut out);
    status_if_written(&out, status)
}

// Makes one request, and prints the reply.
fn ask<S: Store>(
    rt: &HostRuntime,
    hub: &mut Hub<S>,
    moment: Moment,
    caller: &Gln,
    key: &[u8],
    request: Request,
) -> Result<u8, BeginFault> {
    let reply = hub.step(moment, caller, key, request);
    let mut out = OfWrite::new(rt.stdout());
    let status = reply_run(&reply, &mut out);
    status_if_written(&out, status)
}

/// Does what a command asks of a hub.
pub(crate) fn obey<S: Store>(
    rt: &HostRuntime,
    hub: &mut Hub<S>,
    asked: KeyRequest<'_>,
) -> Result<u8, BeginFault> {
    let KeyRequest {
        db: _,
        caller,
        key,
        moment,
        task,
    } = asked;
    let moment = match moment {
        Some(moment) => moment,
        None => now(rt)?,
    };
    match task {
        Task::Import(folder) => import(rt, hub, moment, &caller, key.as_slice(), folder),
        Task::Ask(request) => ask(rt, hub, moment, &caller, key.as_slice(), request),
    }
}
