//! Prints one reply.
ghost use Rattle.std.specs.Prelude.{◌≡◌};
ghost use Rattle.hub_commands.specs.Output.{Prints};
ghost use Rattle.hub_commands.specs.Replies as spec;

use crate::print::print;
use edi_base::Sink;
use edi_base::exit::{DONE, FAILED, REFUSED};
use hub_core::{Outcome, Reply};

// Returns the exit status of a reply.
fn status_of(reply: &Reply) -> u8
    ensures { result ≡ spec.status_of reply.now }
{
    match reply.outcome {
        Outcome::Done if !reply.refused => DONE,
        Outcome::Stopped => FAILED,
        Outcome::Done | Outcome::Bad | Outcome::Denied | Outcome::Unknown => REFUSED,
    }
}

/// Prints the body of a reply. Returns the exit status: 0 if it is done and nothing was refused; 3 if it was stopped,
/// or a write failed, and then a prefix of the body was written; or else 1.
pub fn reply_run<W: Sink>(reply: &Reply, out: &mut W) -> u8
    ensures { Prints (W.contents out.old) (W.contents out.new)
        (W.failed out.old) (W.failed out.new) reply.now.body
        (spec.status_of reply.now) result }
{
    match print(reply.body.as_slice(), out) {
        Ok(()) => status_of(reply),
        Err(_) => FAILED,
    }
}
