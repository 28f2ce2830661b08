//! Checks the sender and the recipient of an upload.
ghost use Rattle.std.specs.Prelude.{◌≡◌, Ok, Err};
ghost use Rattle.std.specs.List.{list_any};
ghost use Rattle.std.specs.Option.{IfSome, IfNone};
ghost use Rattle.hub_tables.specs.Rows.{same};
ghost use Rattle.hub_law.specs.Opening.{addressed};
ghost use Rattle.hub_core.specs.Callers.{addressed_by};

use edi_envelope::Interchange;
use gs1_ids::Gln;
use hub_register::{Caller, Register};

// Whether an identification is that of one of the recipients.
fn is_one_of(recipients: &[Gln], named: &[u8]) -> bool
    ensures { result ≡ list_any (same named.now) recipients.now }
{
    recipients
        .iter()
        .any(|gln| named == gln.digits().as_slice())
}

// Returns why this sender may not send an interchange to any of these recipients: E08 or E09.
fn address_fault(
    interchange: &Interchange,
    sender: &Gln,
    recipients: &[Gln],
) -> Option<&'static str>
    ensures some { IfSome result (λ code.
        addressed sender.now recipients.now (Ok interchange.now) ≡ Err code.now) }
    ensures none { IfNone result (addressed sender.now recipients.now (Ok interchange.now)
        ≡ Ok interchange.now) }
{
    if interchange.head.sender.as_slice() != sender.digits().as_slice() {
        return Some("E08");
    }
    if is_one_of(recipients, interchange.head.recipient.as_slice()) {
        return None;
    }
    Some("E09")
}

/// Returns why its caller may not send an interchange: E08 or E09.
pub(crate) fn address_fault_for(
    register: &Register,
    caller: Caller<'_>,
    interchange: &Interchange,
) -> Option<&'static str>
    ensures some { IfSome result (λ code.
        addressed_by register.now caller.entry (Ok interchange.now) ≡ Err code.now) }
    ensures none { IfNone result (addressed_by register.now caller.entry (Ok interchange.now)
        ≡ Ok interchange.now) }
{
    let hub = *register.hub();
    let retailer = *register.retailer();
    match caller {
        Caller::Retailer => address_fault(interchange, &retailer, &[hub]),
        Caller::Supplier(supplier) => {
            address_fault(interchange, &supplier.gln, &[hub, retailer])
        }
    }
}
