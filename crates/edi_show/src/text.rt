//! Writes what a text says, in lines.
ghost use Rattle.std.specs.Prelude.{◌≡◌, ◌++◌, OnOk, IfOk, string_bytes};
ghost use Rattle.edi_show.specs.Text as spec;

use crate::fault::WholeFault;
use crate::lines::put_line;
use crate::messages::put_messages;
use crate::shown::{Shown, ShownInterchange};
use edi_envelope::Head;
use edi_places::TextPlace;
use edi_tokens::{MemoryFault, Service};
use std::alloc::Global;

// Appends a name and a character.
#[tactic(auto, unfolding(crate::specs::Text::mark_text))]
fn put_mark(out: &mut Vec<u8>, name: &[u8], mark: u8) -> Result<(), MemoryFault>
    ensures { OnOk result (out.new.items ≡ out.old.items ++ spec.mark_text name.now mark) }
{
    out.extend_from_slice(name)?;
    out.extend_from_slice(&[mark])?;
    Ok(())
}

// Appends the release character, or that there is none.
#[tactic(auto, unfolding(crate::specs::Text::release_text))]
fn put_release(out: &mut Vec<u8>, release: Option<u8>) -> Result<(), MemoryFault>
    ensures { OnOk result (out.new.items ≡ out.old.items ++ spec.release_text release) }
{
    match release {
        Some(release) => put_mark(out, b" release ", release),
        None => out.extend_from_slice(b" release none"),
    }
}

// Appends the separators.
#[tactic(auto, unfolding(crate::specs::Text::separators_text))]
fn put_separators(out: &mut Vec<u8>, service: &Service) -> Result<(), MemoryFault>
    ensures { OnOk result (out.new.items ≡ out.old.items ++ spec.separators_text service.now) }
{
    out.extend_from_slice(b"service")?;
    put_mark(out, b" component ", service.component)?;
    put_mark(out, b" element ", service.element)?;
    Ok(())
}

// Appends the decimal mark and the release character.
#[tactic(auto, unfolding(crate::specs::Text::signs_text))]
fn put_signs(out: &mut Vec<u8>, service: &Service) -> Result<(), MemoryFault>
    ensures { OnOk result (out.new.items ≡ out.old.items ++ spec.signs_text service.now) }
{
    put_mark(out, b" decimal ", service.decimal)?;
    put_release(out, service.release)?;
    Ok(())
}

// Appends the line of the service characters.
#[tactic(auto, unfolding(crate::specs::Text::service_line))]
fn put_service(out: &mut Vec<u8>, service: &Service) -> Result<(), MemoryFault>
    ensures { OnOk result (out.new.items ≡ out.old.items ++ spec.service_line service.now) }
{
    put_separators(out, service)?;
    put_signs(out, service)?;
    put_mark(out, b" terminator ", service.terminator)?;
    out.extend_from_slice(b"\n")?;
    Ok(())
}

// Appends the line of the date and the time of preparation.
#[tactic(auto, unfolding(crate::specs::Text::prepared_line))]
fn put_prepared(out: &mut Vec<u8>, head: &Head) -> Result<(), MemoryFault>
    ensures { OnOk result (out.new.items ≡ out.old.items ++ spec.prepared_line head.now) }
{
    out.extend_from_slice(b"  prepared ")?;
    out.extend_from_slice(&head.date)?;
    put_line(out, b" ", &head.time)?;
    Ok(())
}

// Appends the lines of the header.
#[tactic(auto, unfolding(crate::specs::Text::header_lines))]
fn put_header(out: &mut Vec<u8>, head: &Head) -> Result<(), MemoryFault>
    ensures { OnOk result (out.new.items ≡ out.old.items ++ spec.header_lines head.now) }
{
    put_line(out, b"interchange ", head.reference.as_slice())?;
    put_line(out, b"  sender ", head.sender.as_slice())?;
    put_line(out, b"  recipient ", head.recipient.as_slice())?;
    put_prepared(out, head)?;
    Ok(())
}

// Appends the line of the number of messages.
#[tactic(auto, unfolding(crate::specs::Text::count_line))]
fn put_count(alloc: Global, out: &mut Vec<u8>, count: usize) -> Result<(), MemoryFault>
    ensures { OnOk result (out.new.items ≡ out.old.items ++ spec.count_line count) }
{
    let text = format!(in alloc; "  messages {count}\n")?;
    out.extend_from_slice(text.as_bytes())?;
    Ok(())
}

// Appends what an interchange says.
#[tactic(auto, unfolding(crate::specs::Text::interchange_lines))]
fn put_interchange(
    alloc: Global,
    out: &mut Vec<u8>,
    interchange: &ShownInterchange,
) -> Result<(), MemoryFault>
    ensures { OnOk result (out.new.items ≡ out.old.items ++ spec.interchange_lines interchange.now) }
{
    let messages = interchange.messages.as_slice();
    put_service(out, &interchange.service)?;
    put_header(out, &interchange.head)?;
    put_count(alloc, out, messages.len())?;
    put_messages(alloc, out, messages)?;
    Ok(())
}

// Returns what shows a fault of the whole, and the end of its line.
fn place_text(alloc: Global, fault: WholeFault) -> Result<String, MemoryFault>
    ensures { IfOk result (λ text. string_bytes text ≡ spec.whole_place fault) }
{
    match fault {
        WholeFault::Token(_, place) => {
            let TextPlace {
                offset,
                line,
                segment,
            } = place;
            format!(in alloc; " at offset {offset} line {line} segment {segment}\n")
        }
        WholeFault::Envelope(_, Some(place)) => format!(in alloc; " at segment {place}\n"),
        WholeFault::Envelope(_, None) => String::from_str(alloc, "\n"),
    }
}

// Appends the line of a text that is refused as a whole.
#[tactic(auto, unfolding(crate::specs::Text::whole_fault_line))]
fn put_fault(alloc: Global, out: &mut Vec<u8>, fault: WholeFault) -> Result<(), MemoryFault>
    ensures { OnOk result (out.new.items ≡ out.old.items ++ spec.whole_fault_line fault) }
{
    let code = fault.code();
    let words = fault.words();
    let place = place_text(alloc, fault)?;
    let text = format!(in alloc; "refused {code} {words}{place}")?;
    out.extend_from_slice(text.as_bytes())?;
    Ok(())
}

// Appends what a text says.
fn put_shown(alloc: Global, out: &mut Vec<u8>, shown: &Shown) -> Result<(), MemoryFault>
    ensures { OnOk result (out.new.items ≡ out.old.items ++ spec.shown_lines shown.now) }
{
    match shown {
        Shown::Refused(fault) => put_fault(alloc, out, *fault),
        Shown::Interchange(interchange) => put_interchange(alloc, out, interchange),
    }
}

impl Shown {
    /// Returns what the text says, in lines that each end with a line feed. A text that is refused as a whole is one
    /// line: `refused`, its code, its name in words, and what shows it. An interchange is its service characters, its
    /// header and its messages; what belongs to one of them is indented by two more blanks. Numbers and references are
    /// printed as their bytes.
    pub fn to_lines(&self, alloc: Global) -> Result<Vec<u8>, MemoryFault>
        ensures { IfOk result (λ lines. lines.items ≡ spec.shown_lines self.now) }
    {
        let mut out = Vec::new(alloc);
        put_shown(alloc, &mut out, self)?;
        Ok(out)
    }
}
