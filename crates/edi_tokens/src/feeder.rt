//! Lends the segments of a text one after another, as it reads the bytes.

ghost use Rattle.std.specs.Prelude.{◌≡◌, ◌+◌, ℕ, List, [], IfOk, IfErr, Some};
ghost use Rattle.edi_segments.specs.Spelling.{text_limit};
ghost use Rattle.edi_tokens.specs.Lender.{Fed, HasReadNothing, answered, decimal_of, known_service, lent_by};

use crate::lender::Lender;
use edi_base::Source;
use edi_segments::{SegmentRef, Service, TokenFault};
use std::alloc::Global;

/// Reads a text and lends its segments one after another. Its buffers are made once: no later call takes memory.
#[derive(Drop)]
pub struct Feeder<R> {
    /// What is read from.
    pub reader: R,
    /// What was read of it and is not taken, and how far it was read.
    pub lender: Lender,
}

/// Out of memory: the reader, as it was.
#[derive(Debug, Drop)]
pub struct Refused<R> {
    pub reader: R,
}

impl<R: Source> Feeder<R> {
    ghost use Rattle.std.specs.Borrow.{follows_so, sem};
    ghost use Rattle.edi_tokens.specs.contracts.feeder.Feeder.{the_row};
    ghost use mathlib.Core.Option.{none};
    ghost use Rattle.std.specs.Prelude.{⊤};
    ghost use Rattle.edi_tokens.specs.Feeder.{FeedsOn};
    ghost use Rattle.edi_segments.specs.SegmentRef.{segment_in, segment_told};

    /// Nothing is read yet. If memory is refused, the reader is given back.
    pub fn new(alloc: Global, reader: R) -> Result<Self, Refused<R>>
        ensures fed { IfOk result (λ feeder. (known : List ℕ) → R.remaining reader ≡ Some known →
            Fed (R.remaining feeder.reader) known [] feeder.lender) }
        ensures kept { IfOk result (λ feeder. feeder.reader ≡ reader) }
        ensures begun { IfOk result (λ feeder. HasReadNothing feeder.lender (text_limit + 1)) }
        ensures refused { IfErr result (λ refused. refused.reader ≡ reader) }
    {
        match Lender::new(alloc) {
            Ok(lender) => Ok(Feeder { reader, lender }),
            Err(_) => Err(Refused { reader }),
        }
    }

    /// Goes on to the end of the next segment, or answers the fault that was answered before.
    fn advance(&mut self) -> Result<bool, TokenFault>
        ensures { FeedsOn R.remaining R.failed self.old (answered result self.new.lender) self.new }
    {
        self.lender.advance(&mut self.reader)
    }

    /// Reads to the end of the next segment and lends it; None at the end of the text. After a fault it answers the same
    /// fault for good, and reads nothing more. It takes no memory.
    pub fn next_segment(&mut self) -> Result<Option<SegmentRef<'_>>, TokenFault>
        ensures* { sem 𝓛 (follows_so (the_row R.row) (the_row R.row) self.entry.ghost_name none
            (λ _ _. ⊤) (λ new. FeedsOn R.remaining R.failed self.old (segment_told result) new)) }
    {
        if !self.advance()? {
            return Ok(None);
        }
        Ok(Some(self.lent_segment()))
    }

    /// Returns the segment that ended last.
    fn lent_segment(&self) -> SegmentRef<'_>
        ensures { segment_in result ≡ lent_by self.now.lender }
    {
        self.lender.lent_segment()
    }

    /// Returns the service characters, known from the first segment on.
    pub fn service(&self) -> Option<Service>
        ensures { result ≡ known_service self.now.lender }
    {
        self.lender.service()
    }

    /// Returns the decimal mark: a full stop, until a service string has said another.
    pub fn decimal(&self) -> u8
        ensures { result ≡ decimal_of self.now.lender }
    {
        self.lender.decimal()
    }

    /// Returns the reader, as far as it was read.
    pub fn into_reader(self) -> R
        ensures { result ≡ self.reader }
    {
        let Feeder { reader, lender: _ } = self;
        reader
    }
}
