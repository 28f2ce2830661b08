//! Writes the mail texts of the messages of an interchange while its segments come.

ghost use Rattle.std.specs.Prelude.{◌≡◌, ◌≢◌, ℕ, ◌+◌, ◌∷◌, ◌++◌, List, [], true, false, codes, IfOk, OnOk};
ghost use Rattle.std.specs.List.{flat_map};
ghost use Rattle.edi_segments.specs.declared.segment.Segment.{Segment};
ghost use Rattle.edi_segments.specs.SegmentRef.{segment_in};
ghost use Rattle.edi_tokens.specs.Text.{una};
ghost use Rattle.edi_envelope.specs.Check.{Placed};
ghost use Rattle.edi_relay.specs.Mails.{KeepsMails, HasAllMails, WritesMails, header_text, front_text, trailer_text};

use crate::relay::RelayWords;
use edi_envelope::{Place, date_digits, time_digits};
use edi_tokens::{MemoryFault, SegmentRef, append_segment, append_segment_with, service_string};
use std::alloc::{AllocError, Global};

/// The message reference number in each mail text.
const REFERENCE: &[u8; 1] = b"1";

/// What is written of the mail texts.
#[derive(Drop)]
pub(crate) struct Mails {
    /// The interchange header of each, up to its number.
    header: Vec<u8>,
    out: Vec<u8>,
    /// The number of the one that is begun, or of the next.
    number: u64,
    /// Whether one is begun.
    begun: bool,
}

// Appends parts, one after another.
fn append_all(out: &mut Vec<u8>, parts: &[&[u8]]) -> Result<(), MemoryFault>
    ensures { OnOk result (out.new.items ≡ out.old.items ++ flat_map (λ part. part.now) parts.now) }
{
    for part in parts {
        out.extend_from_slice(part)?;
    }
    Ok(())
}

// Returns the interchange header from one partner to another, up to its number.
fn header_text(alloc: Global, words: &RelayWords) -> Result<Vec<u8>, MemoryFault>
    ensures { IfOk result (λ header. header.items ≡ header_text words.now) }
{
    let mut header = Vec::new(alloc);
    let parts = [
        b"UNB+UNOC:3+".as_slice(),
        &words.hub,
        b":14+",
        &words.owner,
        b":14+",
        &date_digits(words.moment),
        b":",
        &time_digits(words.moment),
        b"+",
    ];
    append_all(&mut header, &parts)?;
    Ok(header)
}

// Returns the next number. No memory has room for so many mail texts that there is none.
fn next_number(number: u64) -> Result<u64, MemoryFault>
    ensures { IfOk result (λ next. next ≡ number + 1) }
{
    match number.checked_add(1) {
        Some(next) => Ok(next),
        None => Err(AllocError),
    }
}

// Appends UNZ of an interchange of one message.
fn append_trailer(alloc: Global, out: &mut Vec<u8>, number: u64) -> Result<(), MemoryFault>
    ensures { OnOk result (out.new.items ≡ out.old.items ++ trailer_text number) }
{
    let number = format!(in alloc; "{number}")?;
    append_all(out, &[b"UNZ+1+", number.as_bytes(), b"'"])
}

// Appends the service string with this decimal mark, and UNB, of which all up to the number is given.
fn append_front(
    out: &mut Vec<u8>,
    header: &[u8],
    mark: u8,
    number: &[u8],
) -> Result<(), MemoryFault>
    ensures { OnOk result (out.new.items
        ≡ out.old.items ++ (una mark ++ (header.now ++ (number.now ++ codes "'")))) }
{
    append_all(out, &[&service_string(mark), header, number, b"'"])
}

impl Mails {
    ghost use Rattle.edi_relay.specs.declared.relay.RelayWords.{RelayWords};

    /// Nothing has come.
    pub(crate) fn new(alloc: Global, words: &RelayWords) -> Result<Self, MemoryFault>
        ensures { IfOk result (λ mails. (mark : ℕ) → WritesMails words.now mark [] mails) }
    {
        Ok(Mails {
            header: header_text(alloc, words)?,
            out: Vec::new(alloc),
            number: words.number,
            begun: false,
        })
    }

    // Begins a mail text: the service string with this decimal mark, and UNB.
    fn begin(&mut self, alloc: Global, mark: u8) -> Result<(), MemoryFault>
        ensures out { OnOk result (self.new.out.items
            ≡ self.old.out.items ++ front_text self.old.header.items mark self.old.number) }
        ensures begun { OnOk result (self.new.begun ≡ true) }
        ensures header { self.new.header ≡ self.old.header }
        ensures number { self.new.number ≡ self.old.number }
    {
        let number = format!(in alloc; "{}", self.number)?;
        append_front(
            &mut self.out,
            self.header.as_slice(),
            mark,
            number.as_bytes(),
        )?;
        self.begun = true;
        Ok(())
    }

    // Ends the mail text that is begun, with UNZ.
    fn end(&mut self, alloc: Global) -> Result<(), MemoryFault>
        ensures { (words : RelayWords) (mark : ℕ) (lent : List Segment) → KeepsMails words mark lent self.old →
            OnOk result (HasAllMails words mark lent self.new) }
    {
        if !self.begun {
            return Ok(());
        }
        append_trailer(alloc, &mut self.out, self.number)?;
        self.number = next_number(self.number)?;
        self.begun = false;
        Ok(())
    }

    /// Takes one more segment, which has this position, of an interchange with this decimal mark. If it is refused, all
    /// that was written is dropped.
    pub(crate) fn take(
        &mut self,
        alloc: Global,
        place: Place,
        segment: &SegmentRef<'_>,
        mark: u8,
    ) -> Result<(), MemoryFault>
        ensures { (words : RelayWords) (lent : List Segment) → WritesMails words mark lent self.old →
            place ≢ Place.Refused → Placed place lent (segment_in segment.now) →
            OnOk result (WritesMails words mark (lent ++ segment_in segment.now ∷ []) self.new) }
    {
        match place {
            Place::Header => {}
            Place::MessageHeader => {
                self.end(alloc)?;
                self.begin(alloc, mark)?;
                append_segment_with(&mut self.out, segment, 0, REFERENCE)?;
            }
            Place::Inside => append_segment(&mut self.out, segment)?,
            Place::MessageTrailer => append_segment_with(&mut self.out, segment, 1, REFERENCE)?,
            Place::Trailer => self.end(alloc)?,
            Place::Refused => self.out = Vec::new(alloc),
        }
        Ok(())
    }

    /// Returns what was written.
    pub(crate) fn into_out(self) -> Vec<u8>
        ensures { result ≡ self.out }
    {
        let Mails {
            header: _,
            out,
            number: _,
            begun: _,
        } = self;
        out
    }
}
