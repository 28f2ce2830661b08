//! Describes the circumstances of a message that the rules look at.
ghost use Rattle.std.specs.Prelude.{◌≡◌, IfOk};
ghost use Rattle.hub_acts.specs.HubLaw.Messages.{incoming};

use edi_base::{Items, MemoryFault, copy_bytes};
use edi_envelope::{Interchange, Moment, RawMessage};
use edi_tokens::body_text;
use hub_judges::IncomingMessage;
use std::alloc::Global;

/// Returns a message of an interchange that arrives at a moment, as the rules see it.
pub(crate) fn incoming_of(
    alloc: Global,
    moment: Moment,
    interchange: &Interchange,
    message: &RawMessage,
) -> Result<IncomingMessage, MemoryFault>
    ensures { IfOk result (λ came. came ≡ incoming moment interchange.now message.now) }
{
    let content = body_text(alloc, message.segments.as_slice())?;
    Ok(IncomingMessage {
        control: copy_bytes(alloc, interchange.head.reference.as_slice())?,
        message: copy_bytes(alloc, message.reference.as_slice())?,
        content: Items::from_vec(content),
        moment,
        decimal: interchange.decimal,
    })
}
