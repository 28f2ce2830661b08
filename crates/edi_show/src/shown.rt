//! Reads what the text of an interchange says.
ghost use Rattle.std.specs.Prelude.{◌≡◌, IfOk, Ok};
ghost use Rattle.std.specs.List.{list_any};
ghost use Rattle.edi_segments.specs.Reading.{tokens_of};
ghost use Rattle.edi_show.specs.Content.{is_refused_message};
ghost use Rattle.edi_places.specs.Envelope.{envelope_place};
ghost use Rattle.edi_show.specs.Shown as spec;

use crate::content::{ShownMessage, shown_messages};
use crate::fault::WholeFault;
use edi_envelope::{EnvelopeFault, Head, open};
use edi_places::{envelope_place, text_place};
use edi_tokens::{
    Items, MemoryFault, Segment, Service, TokenFault, Tokens, read_all, reading_is_the_grammar,
};
use std::alloc::{AllocError, Global};

/// What a text says.
#[derive(Debug, Drop)]
pub enum Shown {
    /// The text is refused as a whole.
    Refused(WholeFault),
    /// The text is an interchange.
    Interchange(ShownInterchange),
}

/// An interchange, with what its messages say.
#[derive(Debug, Drop)]
pub struct ShownInterchange {
    /// The service characters of the text.
    pub service: Service,
    /// What UNB says.
    pub head: Head,
    /// The messages, in their order.
    pub messages: Items<ShownMessage>,
}

// Returns the segments of a text, read once more; none if it spells none.
fn segments_of(alloc: Global, text: &[u8]) -> Result<Items<Segment>, MemoryFault>
    ensures { IfOk result (λ segments. segments ≡ spec.segments_in (tokens_of text.now)) }
{
    match read_all(alloc, text) {
        Ok(tokens) => Ok(tokens.segments),
        Err(TokenFault::Memory) => Err(AllocError),
        Err(_) => Ok(Items::new(alloc)),
    }
}

// Returns the fault of an interchange, with the segment of its text that shows it.
fn refused_interchange(
    alloc: Global,
    text: &[u8],
    fault: EnvelopeFault,
) -> Result<Shown, MemoryFault>
    ensures { IfOk result (λ shown. shown ≡ Shown.Refused (WholeFault.Envelope fault
        (envelope_place fault (spec.segments_in (tokens_of text.now))))) }
{
    let segments = segments_of(alloc, text)?;
    let place = envelope_place(alloc, fault, segments.as_slice())?;
    Ok(Shown::Refused(WholeFault::Envelope(fault, place)))
}

// Returns what the segments of a text say.
fn shown_tokens(alloc: Global, text: &[u8], tokens: Tokens) -> Result<Shown, MemoryFault>
    requires { tokens_of text.now ≡ Ok tokens }
    ensures { IfOk result (λ shown. shown ≡ spec.shown_tokens tokens) }
{
    let service = tokens.service;
    let interchange = match open(alloc, tokens) {
        Ok(interchange) => interchange,
        Err(EnvelopeFault::Memory) => return Err(AllocError),
        Err(fault) => return refused_interchange(alloc, text, fault),
    };
    let messages = shown_messages(alloc, interchange.messages.as_slice())?;
    Ok(Shown::Interchange(ShownInterchange {
        service,
        head: interchange.head,
        messages,
    }))
}

/// Returns what a text says: the service characters, the header and each message of an interchange; or why the text is
/// refused as a whole, by the fault that its earliest byte shows, or else by the lowest fault of the interchange. A
/// message that is refused has the lowest of its faults; the others are as if it were not there. Each fault comes with
/// the place that shows it. A text that is refused is read twice.
pub fn show_text(alloc: Global, text: &[u8]) -> Result<Shown, MemoryFault>
    ensures { IfOk result (λ shown. shown ≡ spec.shown_of text.now) }
{
    reading_is_the_grammar();
    match read_all(alloc, text) {
        Ok(tokens) => shown_tokens(alloc, text, tokens),
        Err(TokenFault::Memory) => Err(AllocError),
        Err(fault) => {
            let place = text_place(alloc, text)?;
            Ok(Shown::Refused(WholeFault::Token(fault, place)))
        }
    }
}

impl Shown {
    /// Whether anything is refused: the whole text, or one of the messages.
    pub fn is_refused(&self) -> bool
        ensures { result ≡ spec.is_refused self.now }
    {
        match self {
            Shown::Refused(_) => true,
            Shown::Interchange(interchange) => { has_refused(interchange.messages.as_slice()) }
        }
    }
}

// Whether one of the messages is refused.
fn has_refused(messages: &[ShownMessage]) -> bool
    ensures { result ≡ list_any is_refused_message messages.now }
{
    messages.iter().any(|message| message.is_refused())
}
