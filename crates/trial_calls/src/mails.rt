//! Tests mails that are made by calls that no program makes.
ghost use Rattle.std.specs.Prelude.{◌≤◌, IfSome};
ghost use Rattle.edi_envelope.specs.Mail.{last_number};
ghost use Rattle.edi_relay.specs.Relay.{AreRelayWords};

use crate::call_fault::{CallFault, right};
use crate::tokens::{ORDERS, has_body, tokens};
use edi_base::{Items, MemoryFault};
use edi_envelope::{Interchange, Moment, RawMessage, open, wrap};
use edi_relay::{RelayWords, relay_text};
use edi_tokens::Segment;
use std::alloc::Global;

const MAIL: &[u8] =
    b"UNA:+.? 'UNB+UNOC:3+5412345000006:14+4012345500004:14+250603:0920+1'UNH+1+ORDERS:D:01B:UN:EAN010'\
        BGM+220+128576+9'DTM+137:20250603:102'NAD+BY+5412345000013::9'NAD+SU+4012345500004::9'\
        LIN+1++4000862141404:SRV'QTY+21:48'UNS+S'CNT+2:1'UNT+10+1'UNZ+1+1'";

fn words() -> Option<RelayWords>
    ensures { IfSome result AreRelayWords }
{
    RelayWords::new(
        "5412345000006",
        "4012345500004",
        Moment::new(1_748_942_400)?,
        1,
    )
}

/// An order becomes its mail.
pub fn relayed(alloc: Global) -> Result<(), CallFault> {
    let words = words().ok_or(CallFault::Wrong)?;
    let mail = relay_text(alloc, ORDERS, &words)?;
    right(mail.as_slice() == MAIL)
}

// A message to relay, and what it becomes.
const RELAYED: &[u8] =
    b"UNB+UNOC:3+5412345000013:14+5412345000006:14+250603:0915+1001'UNH+7:x+ORDERS:D:01B:UN:EAN010'BGM+220+128576+9'UNT+3+7:y'UNZ+1+1001'";

const LAST_MAIL: &[u8] =
    b"UNB+UNOC:3+5412345000006:14+4012345500004:14+250603:0920+99999999999999'UNH+1:x+ORDERS:D:01B:UN:EAN010'\
        BGM+220+128576+9'UNT+3+1:y'UNZ+1+99999999999999'";

const LAST_NUMBER: u64 = 99_999_999_999_999;

fn opened(alloc: Global, text: &[u8]) -> Result<Interchange, CallFault> {
    let tokens = tokens(alloc, text)?;
    Ok(open(alloc, tokens)?)
}

// Returns the last message of a text's interchange.
fn last_message(alloc: Global, text: &[u8]) -> Result<RawMessage, CallFault> {
    let mut messages = opened(alloc, text)?.messages.into_vec();
    messages.pop().ok_or(CallFault::Wrong)
}

// Makes the mail with this number from a message, at a moment.
fn mail(
    alloc: Global,
    moment: Moment,
    number: u64,
    message: &RawMessage,
) -> Result<Items<Segment>, MemoryFault>
    requires number { (1 ≤ number) × (number ≤ last_number) }
{
    let (hub, owner) = (b"5412345000006", b"4012345500004");
    wrap(alloc, hub, owner, moment, number, message)
}

/// The last mail that a supplier can have is made of a message.
pub fn last_mail(alloc: Global) -> Result<(), CallFault> {
    let message = last_message(alloc, RELAYED)?;
    let moment = Moment::new(1_748_942_400).ok_or(CallFault::Wrong)?;
    let mail = mail(alloc, moment, LAST_NUMBER, &message)?;
    right(has_body(alloc, mail.as_slice(), LAST_MAIL)?)
}
