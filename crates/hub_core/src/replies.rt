//! Makes the replies to what is denied, refused or stopped without an act.
ghost use Rattle.std.specs.Prelude.{◌≡◌, IfOk, OnErr};
ghost use Rattle.hub_law.specs.Replies.{denied, refused_reply, reply};
ghost use Rattle.hub_requests.specs.declared.reply.Outcome.TheVariants.{Stopped};

use edi_base::{Items, MemoryFault, copy_bytes};
use hub_requests::{Outcome, Reply};
use hub_store::StoreFault;
use hub_transactions::refused_line;
use std::alloc::Global;

/// Makes the reply to a caller that is not identified by its key, or may not ask this.
pub(crate) fn denied_reply(alloc: Global) -> Result<Reply, MemoryFault>
    ensures { IfOk result (λ reply. reply ≡ denied) }
{
    Ok(Reply {
        outcome: Outcome::Denied,
        refused: false,
        body: copy_bytes(alloc, b"denied\n")?,
    })
}

/// Makes the reply to an upload whose text, envelope or addresses have a fault.
pub(crate) fn refused_upload(alloc: Global, code: &str) -> Result<Reply, MemoryFault>
    ensures { IfOk result (λ reply. reply ≡ refused_reply code.now) }
{
    Ok(Reply {
        outcome: Outcome::Bad,
        refused: true,
        body: refused_line(alloc, code)?,
    })
}

/// Makes the reply to a request that was stopped before anything was done.
pub(crate) fn stopped_reply(body: Items<u8>) -> Reply
    ensures { result ≡ reply Stopped body }
{
    Reply {
        outcome: Outcome::Stopped,
        refused: false,
        body,
    }
}

/// Returns the reply; or `stopped`, if memory ran out or the store failed.
pub(crate) fn reply_or_stop(answered: Result<Reply, StoreFault>, stopped: Items<u8>) -> Reply
    ensures ok { IfOk answered (λ reply. result ≡ reply) }
    ensures err { OnErr answered (result ≡ reply Stopped stopped) }
{
    match answered {
        Ok(reply) => reply,
        Err(_) => stopped_reply(stopped),
    }
}
