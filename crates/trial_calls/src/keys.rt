//! Tests that a key is not shown where a value that holds it is printed.
use crate::call_fault::{CallFault, right};
use edi_base::copy_bytes;
use edi_envelope::Moment;
use gs1_ids::Gln;
use hub_register::Key;
use hub_requests::{Input, Request};
use std::alloc::Global;

// Makes the retailer's request for a status.
fn asked(alloc: Global) -> Result<Input, CallFault> {
    let caller = Gln::parse(b"5412345000013").ok_or(CallFault::Wrong)?;
    let moment = Moment::new(1_748_942_400).ok_or(CallFault::Wrong)?;
    Ok(Input {
        moment,
        caller,
        key: copy_bytes(alloc, b"retail-key")?,
        request: Request::Status,
    })
}

/// The key of an input is not shown.
pub fn key_of_input(alloc: Global) -> Result<(), CallFault> {
    let input = asked(alloc)?;
    let shown = format!(in alloc; "{input:?}")?;
    right(shown.contains("key: Key(..), request: Status") && !shown.contains("114, 101, 116"))
}

/// A key is not shown.
pub fn key(alloc: Global) -> Result<(), CallFault> {
    let key = Key::parse(b"alpha-key-1").ok_or(CallFault::Wrong)?;
    let shown = format!(in alloc; "{key:?}")?;
    right(shown.as_str() == "Key(..)")
}
