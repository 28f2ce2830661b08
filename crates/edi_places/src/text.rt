//! Finds where a text shows its fault.
ghost use Rattle.std.specs.Prelude.{◌≡◌, [], IfOk};
ghost use Rattle.edi_segments.specs.Machine.{reading_of};
ghost use Rattle.edi_segments.specs.Reading.{start};
ghost use Rattle.edi_places.specs.Text as spec;

use edi_segments::Machine;
use edi_tokens::{MemoryFault, TEXT_LIMIT};
use std::alloc::Global;

/// The place of the byte that shows the fault of a text, or of the end of the text if that shows it.
#[derive(Clone, Copy, Debug, PartialEq, Eq)]
pub struct TextPlace {
    /// How many bytes come before it.
    pub offset: usize,
    /// Its line: one more than the line feeds before it.
    pub line: usize,
    /// Its segment: one more than the segments that ended before it. A service string is not a segment.
    pub segment: usize,
}

// Returns where the machine stops among these bytes, or their end.
fn stop_in(machine: &mut Machine, bytes: &[u8]) -> TextPlace
    requires { reading_of [] machine.old ≡ start }
    ensures { result ≡ spec.place_behind (spec.front start bytes.now) (spec.reached start bytes.now) }
{
    let mut line = 1;
    let mut segment = 1;
    for (offset, byte) in bytes.iter().enumerate() {
        let Ok((_, ended)) = machine.push_all(&bytes[offset..offset + 1]) else {
            return TextPlace {
                offset,
                line,
                segment,
            };
        };
        segment += ended as usize;
        line += (*byte == b'\n') as usize;
    }
    TextPlace {
        offset: bytes.len(),
        line,
        segment,
    }
}

/// Returns the place of the byte that shows the fault of a text (ISO 9735, syntax version 3), or of its end if that
/// shows it, or if the text has no fault. Memory can run out when the machine that reads the text is made.
pub fn text_place(alloc: Global, text: &[u8]) -> Result<TextPlace, MemoryFault>
    ensures { IfOk result (λ place. place ≡ spec.text_place text.now) }
{
    let mut machine = Machine::new(alloc)?;
    let front = &text[..text.len().min(TEXT_LIMIT)];
    Ok(stop_in(&mut machine, front))
}
