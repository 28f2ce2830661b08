//! Keeps count of the headers and trailers of messages while they are read.

ghost use Rattle.std.specs.Prelude.{◌≡◌, ◌∷◌, ◌++◌, ◌+◌, true, length, List, [], IfOk, OnOk};
ghost use Rattle.edi_segments.specs.declared.segment.Segment.{Segment};
ghost use Rattle.edi_segments.specs.SegmentRef.{segment_in};
ghost use Rattle.edi_envelope.specs.Segments.{component};
ghost use Rattle.edi_envelope.specs.Reference as reference_spec;
ghost use Rattle.edi_envelope.specs.Check.{Heads, Trails, are_heads_sound, are_trails_sound};

use crate::message::has_identity;
use crate::reference::{References, filled_reference};
use edi_base::{are_digits, is_count_of};
use edi_tokens::{MemoryFault, SegmentRef};
use std::alloc::{AllocError, Global};

/// One more. No memory has as many segments as would be too many to count.
pub(crate) fn one_more(count: usize) -> Result<usize, MemoryFault>
    ensures { IfOk result (λ more. more ≡ count + 1) }
{
    match count.checked_add(1) {
        Some(more) => Ok(more),
        None => Err(AllocError),
    }
}

/// What the headers UNH say.
#[derive(Drop)]
pub(crate) struct Headers {
    /// The reference and the message identifier of each are within their limits.
    pub identified: bool,
    /// How many there are.
    pub messages: usize,
    /// Two have one reference.
    pub twice: bool,
    /// The references, as long as these are within their limits and none comes twice.
    seen: References,
}

impl Headers {
    pub(crate) fn new(alloc: Global) -> Self
        ensures { Heads [] result }
    {
        Headers {
            identified: true,
            messages: 0,
            twice: false,
            seen: References::new(alloc),
        }
    }

    /// Takes one more.
    pub(crate) fn take(&mut self, unh: &SegmentRef<'_>) -> Result<(), MemoryFault>
        ensures heads { (messages : List (List Segment)) → Heads messages self.old →
            OnOk result (Heads (messages ++ (segment_in unh.now ∷ []) ∷ []) self.new) }
        ensures falls { OnOk result (are_heads_sound self.new ≡ true → are_heads_sound self.old ≡ true) }
    {
        self.messages = one_more(self.messages)?;
        self.identified &= has_identity(unh);
        if !self.identified || self.twice {
            return Ok(());
        }
        let new = self.seen.insert(filled_reference(unh.component(0, 0)))?;
        self.twice = !new;
        Ok(())
    }
}

/// A message that is begun.
#[derive(Clone, Copy)]
pub(crate) struct Begun {
    /// Its reference, as it is kept.
    pub reference: [u8; 14],
    /// How many segments have come, UNH counted.
    pub count: usize,
}

/// What the trailers UNT say.
#[derive(Clone, Copy)]
pub(crate) struct Trailers {
    /// The count of each is within its limits.
    pub within: bool,
    /// The count of each is that of the segments.
    pub counted: bool,
    /// The reference of each is that of the header.
    pub closed: bool,
}

impl Trailers {
    pub(crate) fn new() -> Self
        ensures { Trails [] result }
    {
        Trailers {
            within: true,
            counted: true,
            closed: true,
        }
    }

    /// Takes one more.
    pub(crate) fn take(&mut self, begun: Begun, unt: &SegmentRef<'_>) -> Result<(), MemoryFault>
        ensures trails { (messages : List (List Segment)) (unh : Segment) (body : List Segment) →
            Trails messages self.old →
            begun.count ≡ length (unh ∷ body) → begun.reference ≡ reference_spec.filled_reference (component unh 0 0) →
            OnOk result (Trails (messages ++ (unh ∷ body ++ segment_in unt.now ∷ []) ∷ []) self.new) }
        ensures falls { OnOk result (are_trails_sound self.new ≡ true → are_trails_sound self.old ≡ true) }
    {
        let count = one_more(begun.count)?;
        let written = unt.component(0, 0);
        self.within &= are_digits(1, 6, written);
        self.counted &= is_count_of(written, count);
        self.closed &= filled_reference(unt.component(1, 0)) == begun.reference;
        Ok(())
    }
}
