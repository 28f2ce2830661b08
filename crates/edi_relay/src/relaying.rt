//! Checks an interchange, and writes its mail texts as long as no fault is certain.

ghost use Rattle.std.specs.Prelude.{ℕ, ◌∷◌, ◌++◌, List, [], IfOk, OnOk};
ghost use Rattle.edi_segments.specs.declared.segment.Segment.{Segment};
ghost use Rattle.edi_segments.specs.declared.segment.Tokens.{Tokens};
ghost use Rattle.edi_segments.specs.SegmentRef.{segment_in};
ghost use Rattle.edi_envelope.specs.Interchange as spec;
ghost use Rattle.edi_relay.specs.Relaying.{RelayingStands, IsMailed};

use crate::mails::Mails;
use crate::relay::RelayWords;
use edi_envelope::{EnvelopeCheck, EnvelopeFault};
use edi_tokens::{MemoryFault, SegmentRef};
use std::alloc::Global;

#[derive(Drop)]
pub(crate) struct Relaying {
    check: EnvelopeCheck,
    mails: Mails,
}

impl Relaying {
    ghost use Rattle.edi_relay.specs.declared.relay.RelayWords.{RelayWords};

    /// Nothing has come.
    pub(crate) fn new(alloc: Global, words: &RelayWords) -> Result<Self, MemoryFault>
        ensures { IfOk result (λ relaying. (mark : ℕ) → RelayingStands words.now mark [] relaying) }
    {
        Ok(Relaying {
            check: EnvelopeCheck::new(alloc),
            mails: Mails::new(alloc, words)?,
        })
    }

    /// Takes the next segment of an interchange with this decimal mark.
    pub(crate) fn take(
        &mut self,
        alloc: Global,
        segment: &SegmentRef<'_>,
        mark: u8,
    ) -> Result<(), MemoryFault>
        ensures { (words : RelayWords) (lent : List Segment) → RelayingStands words mark lent self.old →
            OnOk result (RelayingStands words mark (lent ++ segment_in segment.now ∷ []) self.new) }
    {
        let place = self.check.next(segment)?;
        self.mails.take(alloc, place, segment, mark)
    }

    /// Returns the mail texts, or the fault of the interchange.
    pub(crate) fn finish(self) -> Result<Vec<u8>, EnvelopeFault>
        ensures { (words : RelayWords) (tokens : Tokens) →
            RelayingStands words tokens.service.decimal tokens.segments self →
            IsMailed words (λ out. out.items) result (spec.interchange_of tokens) }
    {
        if let Some(fault) = self.check.fault() {
            return Err(fault);
        }
        Ok(self.mails.into_out())
    }
}
