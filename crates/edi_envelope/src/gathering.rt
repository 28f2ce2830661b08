//! Keeps the messages of an interchange while its segments come.

ghost use Rattle.std.specs.Prelude.{◌≡◌, ◌≢◌, ◌∷◌, ◌++◌, List, [], None, IsTrue, OnOk, MatchOption};
ghost use Rattle.edi_segments.specs.declared.segment.Segment.{Segment};
ghost use Rattle.edi_envelope.specs.Header.{is_valid_header};
ghost use Rattle.edi_envelope.specs.Check.{Placed};
ghost use Rattle.edi_envelope.specs.Gathered.{KeepsMessages, HasAllMessages, Gathers, IsInterchangeOf};

use crate::check::Place;
use crate::header::head_of;
use crate::interchange::{Head, Interchange, RawMessage};
use crate::message::message_of;
use edi_tokens::{Items, MemoryFault, Segment};
use std::alloc::Global;
use std::mem;

/// The head, and the messages as far as they have come.
#[derive(Drop)]
pub(crate) struct Gathered {
    head: Option<Head>,
    /// The messages before the last UNH.
    messages: Vec<RawMessage>,
    /// The segments from the last UNH on.
    last: Vec<Segment>,
}

impl Gathered {
    /// Nothing has come. Takes no memory.
    pub(crate) fn new(alloc: Global) -> Self
        ensures { Gathers [] result }
    {
        Gathered {
            head: None,
            messages: Vec::new(alloc),
            last: Vec::new(alloc),
        }
    }

    // Makes a message of the segments from the last UNH on.
    fn close(&mut self, alloc: Global) -> Result<(), MemoryFault>
        ensures { (lent : List Segment) → KeepsMessages lent self.old → OnOk result (HasAllMessages lent self.new) }
    {
        if self.last.is_empty() {
            return Ok(());
        }
        let segments = mem::replace(&mut self.last, Vec::new(alloc));
        let message = message_of(alloc, Items::from_vec(segments))?;
        self.messages.push(message)?;
        Ok(())
    }

    /// Ends the last message, once UNZ has come.
    pub(crate) fn end(&mut self, alloc: Global) -> Result<(), MemoryFault>
        ensures { (lent : List Segment) (unz : Segment) → Gathers lent self.old →
            Placed Place.Trailer lent unz →
            OnOk result (Gathers (lent ++ unz ∷ []) self.new) }
    {
        self.close(alloc)
    }

    /// Takes one more segment, which has this position. If it is refused, all is dropped.
    pub(crate) fn keep(
        &mut self,
        alloc: Global,
        place: Place,
        segment: Segment,
    ) -> Result<(), MemoryFault>
        requires { place ≡ Place.Header → IsTrue (is_valid_header segment) }
        ensures { (lent : List Segment) → Gathers lent self.old → place ≢ Place.Refused →
            Placed place lent segment →
            OnOk result (Gathers (lent ++ segment ∷ []) self.new) }
    {
        match place {
            Place::Header => self.head = Some(head_of(segment)),
            Place::MessageHeader => {
                self.close(alloc)?;
                self.last.push(segment)?;
            }
            Place::Inside | Place::MessageTrailer => self.last.push(segment)?,
            Place::Trailer => self.close(alloc)?,
            Place::Refused => *self = Gathered::new(alloc),
        }
        Ok(())
    }

    /// Returns the interchange, if UNB has come.
    pub(crate) fn interchange(self, decimal: u8) -> Option<Interchange>
        ensures { MatchOption result (self.head ≡ None) (IsInterchangeOf self decimal) }
    {
        let Gathered {
            head,
            messages,
            last: _,
        } = self;
        Some(Interchange {
            decimal,
            head: head?,
            messages: Items::from_vec(messages),
        })
    }
}
