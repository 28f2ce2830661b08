//! Reads the parties of a message that may leave out the buyer.
ghost use Rattle.std.specs.Prelude.{◌≡◌, true, false, Some, IfOk, IfErr, codes};
ghost use Rattle.edi_messages.specs.Header.{party};
ghost use Rattle.edi_goods.specs.Parties as spec;

use edi_messages::header::party;
use edi_messages::parts::{has_qualified, header};
use edi_messages::{MessageFault, Segment};
use gs1_ids::Gln;

/// The buyer (NAD BY) and the supplier (NAD SU) that the header names.
#[derive(Drop)]
pub(crate) struct HeaderParties {
    /// The buyer, if there is one.
    pub(crate) buyer: Option<Gln>,
    pub(crate) supplier: Gln,
}

// Returns the buyer, if there is one. It is the fault `Parties` if there are several or it is not valid.
fn buyer(message: &[Segment]) -> Result<Option<Gln>, MessageFault>
    ensures ok { IfOk result (λ buyer.
        (buyer ≡ spec.buyer message.now) × (spec.has_buyer_or_none message.now ≡ true)) }
    ensures err { IfErr result (λ fault.
        (fault ≡ MessageFault.Parties) × (spec.has_buyer_or_none message.now ≡ false)) }
{
    match party(b"BY", message) {
        Some(buyer) => Ok(Some(buyer)),
        None => {
            if has_qualified(b"NAD", b"BY", header(message)) {
                Err(MessageFault::Parties)
            } else {
                Ok(None)
            }
        }
    }
}

/// Returns the parties of a message. It is the fault `Parties` if one of them is not valid.
pub(crate) fn read_parties(message: &[Segment]) -> Result<HeaderParties, MessageFault>
    ensures ok { IfOk result (λ parties. (parties.buyer ≡ spec.buyer message.now)
        × (party (codes "SU") message.now ≡ Some parties.supplier) × (spec.has_parties message.now ≡ true)) }
    ensures err { IfErr result (λ fault.
        (fault ≡ MessageFault.Parties) × (spec.has_parties message.now ≡ false)) }
{
    let buyer = buyer(message)?;
    let supplier = party(b"SU", message).ok_or(MessageFault::Parties)?;
    Ok(HeaderParties { buyer, supplier })
}
