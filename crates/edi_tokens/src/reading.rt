//! Reads any bytes.

ghost use Rattle.std.specs.Prelude.{◌≢◌, List, IfOk, IfErr, Ok};
ghost use Rattle.edi_segments.specs.declared.segment.Service.{Service};
ghost use Rattle.edi_segments.specs.declared.segment.Segment.{Segment};
ghost use Rattle.edi_segments.specs.Spelling.{Spells};
ghost use Rattle.edi_tokens.specs.Fault.{Shows};
ghost use Rattle.edi_segments.specs.Reading.{GivesValue, run, tokens_of};
ghost use Rattle.edi_segments.specs.Machine.{reading_of};

use edi_base::Items;
use edi_segments::{Machine, Segment, TokenFault, Tokens};
use std::alloc::Global;

/// The longest text in bytes.
pub const TEXT_LIMIT: usize = 1_048_576;

/// Takes bytes, and puts each segment that ends after those before.
fn push_segments(
    alloc: Global,
    machine: &mut Machine,
    bytes: &[u8],
    segments: &mut Vec<Segment>,
) -> Result<(), TokenFault>
    ensures { GivesValue (λ _. reading_of segments.new.items machine.new) result
        (run (reading_of segments.old.items machine.old) bytes.now) }
{
    let mut rest = bytes;
    loop {
        let (count, ended) = machine.push_all(rest)?;
        if !ended {
            return Ok(());
        }
        segments.push(machine.lent_segment().to_segment(alloc)?)?;
        rest = &rest[count..];
    }
}

fn read(alloc: Global, text: &[u8]) -> Result<Tokens, TokenFault>
    ensures { GivesValue (λ tokens. tokens) result (tokens_of text.now) }
{
    let mut machine = Machine::new(alloc)?;
    let mut segments = Vec::new(alloc);
    let front = &text[..text.len().min(TEXT_LIMIT)];
    push_segments(alloc, &mut machine, front, &mut segments)?;
    if text.len() > TEXT_LIMIT {
        return Err(TokenFault::TooLong);
    }
    machine.finish()?;
    Ok(Tokens {
        service: machine.service.get(),
        segments: Items::from_vec(segments),
    })
}

/// Returns the service characters and the segments of a text (ISO 9735, syntax version 3), or the fault that its
/// earliest byte shows.
pub fn read_all(alloc: Global, text: &[u8]) -> Result<Tokens, TokenFault>
    // What is read is what the text spells.
    ensures spelled { IfOk result (λ tokens. Spells text.now tokens.service tokens.segments) }
    // What the text spells is read, unless memory runs out.
    ensures only { (service : Service) (segments : List Segment) → Spells text.now service segments →
        GivesValue (λ tokens. tokens) result (Ok (record { service = service; segments = segments })) }
    // A fault is the one that the text shows, unless memory ran out.
    ensures shown { IfErr result (λ fault. fault ≢ TokenFault.Memory → Shows text.now fault) }
    // In the words of the definitions of the layers above.
    ensures exact { GivesValue (λ tokens. tokens) result (tokens_of text.now) }
{
    read(alloc, text)
}
