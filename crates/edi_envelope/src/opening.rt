//! Opens an interchange: checks its segments as they come, and keeps them as long as no fault is certain.

ghost use Rattle.std.specs.Prelude.{◌≡◌, ◌≢◌, ◌≤◌, ◌∷◌, ◌++◌, ℕ, List, [], length, None, Ok, Err, IfOk, IfErr, OnOk};
ghost use Rattle.edi_segments.specs.declared.segment.Segment.{Segment};
ghost use Rattle.edi_segments.specs.declared.segment.Tokens.{Tokens};
ghost use Rattle.edi_segments.specs.SegmentRef.{segment_in};
ghost use Rattle.edi_tokens.specs.Lender.{AtEnd, Came, Fed, TakesOf, room_of, stopped};
ghost use Rattle.edi_tokens.specs.Stops.{Stops};
ghost use Rattle.edi_envelope.specs.Interchange as spec;
ghost use Rattle.edi_envelope.specs.Gathered.{OpeningStands, IsChecked, ReadsOpening, ReadsSome, OpenFaultHasCause};
ghost use Rattle.edi_envelope.specs.Opened.{opened, Opens, token_told};

use crate::check::{EnvelopeCheck, Place};
use crate::fault::{EnvelopeFault, OpenFault};
use crate::gathering::Gathered;
use crate::interchange::Interchange;
use edi_tokens::{Feeder, Lender, MemoryFault, Segment, SegmentRef, Source, Tokens};
use std::alloc::Global;

/// The check of the segments that have come, and what is kept of them.
#[derive(Drop)]
pub(crate) struct Opening {
    check: EnvelopeCheck,
    gathered: Gathered,
}

impl Opening {
    fn new(alloc: Global) -> Self
        ensures { OpeningStands [] result }
    {
        Opening {
            check: EnvelopeCheck::new(alloc),
            gathered: Gathered::new(alloc),
        }
    }

    // Takes the next segment, which is moved.
    fn take(&mut self, alloc: Global, segment: Segment) -> Result<(), MemoryFault>
        ensures { (lent : List Segment) → OpeningStands lent self.old →
            OnOk result (OpeningStands (lent ++ segment ∷ []) self.new) }
    {
        let place = self.check.next(&SegmentRef::of(&segment))?;
        self.gathered.keep(alloc, place, segment)
    }

    // Takes the next segment, which is copied if it is kept.
    fn copy(&mut self, alloc: Global, segment: &SegmentRef<'_>) -> Result<(), MemoryFault>
        ensures { (lent : List Segment) → OpeningStands lent self.old →
            OnOk result (OpeningStands (lent ++ segment_in segment.now ∷ []) self.new) }
    {
        let place = self.check.next(segment)?;
        match place {
            Place::Trailer => self.gathered.end(alloc),
            Place::Refused => {
                self.gathered = Gathered::new(alloc);
                Ok(())
            }
            _ => self.gathered.keep(alloc, place, segment.to_segment(alloc)?),
        }
    }

    // Returns the interchange, or its fault.
    fn finish(self, decimal: u8) -> Result<Interchange, EnvelopeFault>
        ensures { (tokens : Tokens) → OpeningStands tokens.segments self → tokens.service.decimal ≡ decimal →
            IsChecked result (spec.interchange_of tokens) }
    {
        if let Some(fault) = self.check.fault() {
            return Err(fault);
        }
        match self.gathered.interchange(decimal) {
            Some(interchange) => Ok(interchange),
            None => Err(EnvelopeFault::InterchangeFrame),
        }
    }
}

/// Returns the interchange of the segments of a text, which are moved into it (ISO 9735, structures), or the fault with
/// the lowest number that they have anywhere. After a refusal they are gone.
pub fn open(alloc: Global, tokens: Tokens) -> Result<Interchange, EnvelopeFault>
    ensures interchange { IfOk result (λ interchange. spec.interchange_of tokens ≡ Ok interchange) }
    ensures few { IfOk result (λ interchange. length interchange.messages ≤ 999) }
    ensures fault { IfErr result (λ fault.
        fault ≢ EnvelopeFault.Memory → spec.interchange_of tokens ≡ Err fault) }
{
    let Tokens { service, segments } = tokens;
    let mut opening = Opening::new(alloc);
    for segment in segments.into_vec() {
        opening.take(alloc, segment)?;
    }
    opening.finish(service.decimal)
}

// Reads to the end of the text.
fn read<R: Source>(alloc: Global, lender: &mut Lender, reader: &mut R) -> Result<Opening, OpenFault>
    ensures told { ReadsOpening (R.remaining reader.old) lender.old result lender.new }
    ensures some { ReadsSome lender.old result lender.new }
    ensures flag { stopped lender.old ≡ None → OpenFaultHasCause result (R.failed reader.old) (R.failed reader.new) }
    ensures bound { TakesOf (R.remaining reader.old) (R.remaining reader.new)
        (room_of lender.old) (room_of lender.new) }
    ensures ends { AtEnd (R.remaining reader.old) lender.old → AtEnd (R.remaining reader.new) lender.new }
    ensures stops { Stops R.remaining (token_told result) reader.old lender.old reader.new lender.new }
    ensures origin { R.origin reader.new ≡ R.origin reader.old }
{
    let mut opening = Opening::new(alloc);
    while lender.advance(reader)? {
        opening.copy(alloc, &lender.lent_segment())?;
    }
    Ok(opening)
}

/// Returns the interchange of a text whose segments are lent one after another as a reader is read (ISO 9735,
/// structures), or its fault. It reads to the end, so that a token fault is reported rather than an envelope fault.
/// Once a fault is certain, nothing is kept.
pub fn open_lent<R: Source>(
    alloc: Global,
    lender: &mut Lender,
    reader: &mut R,
) -> Result<Interchange, OpenFault>
    // The lender must not have lent anything yet.
    ensures interchange { (all : List ℕ) → Fed (R.remaining reader.old) all [] lender.old →
        Opens result (opened all) }
    // If nothing is known about the reader: holds for some text.
    ensures some { Came [] lender.old → (all : List ℕ) × Opens result (opened all) }
    ensures few { IfOk result (λ interchange. length interchange.messages ≤ 999) }
    // A failed read is reported only if the reader failed. Otherwise its flag stays.
    ensures flag { stopped lender.old ≡ None → OpenFaultHasCause result (R.failed reader.old) (R.failed reader.new) }
    ensures bound { TakesOf (R.remaining reader.old) (R.remaining reader.new)
        (room_of lender.old) (room_of lender.new) }
    ensures ends { AtEnd (R.remaining reader.old) lender.old → AtEnd (R.remaining reader.new) lender.new }
    // The lender stops with the fault that it reports, and continues after any other answer.
    ensures stops { Stops R.remaining (token_told result) reader.old lender.old reader.new lender.new }
    ensures origin { R.origin reader.new ≡ R.origin reader.old }
{
    let opening = read(alloc, lender, reader)?;
    let interchange = opening.finish(lender.decimal())?;
    Ok(interchange)
}

/// Like `open_lent`, for a `Feeder`.
pub fn open_feed<R: Source>(alloc: Global, feeder: &mut Feeder<R>) -> Result<Interchange, OpenFault>
    ensures interchange { (all : List ℕ) →
        Fed (R.remaining feeder.old.reader) all [] feeder.old.lender → Opens result (opened all) }
    ensures some { Came [] feeder.old.lender → (all : List ℕ) × Opens result (opened all) }
    ensures few { IfOk result (λ interchange. length interchange.messages ≤ 999) }
    ensures flag { stopped feeder.old.lender ≡ None →
        OpenFaultHasCause result (R.failed feeder.old.reader) (R.failed feeder.new.reader) }
    ensures bound { TakesOf (R.remaining feeder.old.reader) (R.remaining feeder.new.reader)
        (room_of feeder.old.lender) (room_of feeder.new.lender) }
    ensures ends { AtEnd (R.remaining feeder.old.reader) feeder.old.lender →
        AtEnd (R.remaining feeder.new.reader) feeder.new.lender }
    ensures stops { Stops R.remaining
        (token_told result) feeder.old.reader feeder.old.lender feeder.new.reader feeder.new.lender }
    ensures origin { R.origin feeder.new.reader ≡ R.origin feeder.old.reader }
{
    open_lent(alloc, &mut feeder.lender, &mut feeder.reader)
}
