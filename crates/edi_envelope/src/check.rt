//! Checks the envelope of an interchange: it takes the segments one after another, and knows at the end which fault
//! they have.

ghost use Rattle.std.specs.Prelude.{◌≡◌, ◌↔◌, ◌∷◌, ◌++◌, ◌&&◌, ◌||◌, true, false, List, [], None, IsTrue, IfOk, OnOk, OnErr};
ghost use Rattle.std.specs.List.{list_any};
ghost use Rattle.edi_segments.specs.declared.segment.Segment.{Segment};
ghost use Rattle.edi_segments.specs.Segment.{element_at};
ghost use Rattle.edi_segments.specs.SegmentRef.{segment_in};
ghost use Rattle.edi_envelope.specs.Segments.{has_tag};
ghost use Rattle.edi_envelope.specs.Header.{is_valid_header};
ghost use Rattle.edi_envelope.specs.Interchange.{fault_of, has_high, has_high_data};
ghost use Rattle.edi_envelope.specs.Check.{Checked, Placed, Steps, is_sound, is_fine, marks_at, lowest_of, lost_fault};

use crate::fault::EnvelopeFault;
use crate::header::HeaderMarks;
use crate::message::is_frame;
use crate::reference::filled_reference;
use crate::tally::{Begun, Headers, Trailers, one_more};
use edi_base::is_count_of;
use edi_tokens::{MemoryFault, SegmentRef};
use std::alloc::Global;

/// The most messages of an interchange.
const MOST_MESSAGES: usize = 999;

/// The position of a segment in an interchange.
#[derive(Clone, Copy, Debug, PartialEq, Eq)]
pub enum Place {
    /// The interchange header UNB.
    Header,
    /// A message header UNH.
    MessageHeader,
    /// A segment between UNH and UNT.
    Inside,
    /// A message trailer UNT.
    MessageTrailer,
    /// The interchange trailer UNZ.
    Trailer,
    /// A fault is certain: there is no interchange, whatever follows.
    Refused,
}

/// What comes next.
#[derive(Clone, Copy)]
pub(crate) enum Stage {
    /// UNB.
    Start,
    /// A message or UNZ.
    Between,
    /// More of a message.
    Message(Begun),
    /// A UNZ comes at some time, but what comes before it is not a row of messages.
    Lost,
    /// Nothing; the interchange has this fault.
    Ended(Option<EnvelopeFault>),
    /// The frame is broken.
    Broken,
}

/// Which conditions hold if UNB, messages and UNZ come in their order: E07 and E11 to E19.
#[derive(Clone, Copy)]
pub(crate) struct EnvelopeConditions {
    interchange_header: bool,
    message_header: bool,
    segment_count: bool,
    message_reference: bool,
    message_count: bool,
    control_reference: bool,
    repeated_reference: bool,
    test_indicator: bool,
    too_many_messages: bool,
    character_set: bool,
}

/// What the check remembers of the segments so far.
#[derive(Drop)]
pub struct EnvelopeCheck {
    stage: Stage,
    header: HeaderMarks,
    /// Data under UNOA or UNOB has a byte of 0xA0 or above.
    outside: bool,
    headers: Headers,
    trailers: Trailers,
}

// Whether a byte from 0xA0 on is among the bytes.
fn has_high(bytes: &[u8]) -> bool
    ensures { result ≡ has_high bytes.now }
{
    bytes.iter().any(|b| *b >= 0xa0)
}

fn has_high_element(segment: &SegmentRef<'_>, element: usize) -> bool
    ensures { result ≡ list_any has_high (element_at (segment_in segment.now).elements element) }
{
    for place in 0..segment.components(element) {
        if has_high(segment.component(element, place)) {
            return true;
        }
    }
    false
}

fn has_high_data(segment: &SegmentRef<'_>) -> bool
    ensures { result ≡ has_high_data (segment_in segment.now) }
{
    for element in 0..segment.elements() {
        if has_high_element(segment, element) {
            return true;
        }
    }
    false
}

fn has_tag(segment: &SegmentRef<'_>, tag: &[u8; 3]) -> bool
    ensures { result ≡ has_tag tag.now (segment_in segment.now) }
{
    segment.tag() == *tag
}

// Returns the fault with the lowest number, of those that are marked.
fn lowest(marks: EnvelopeConditions) -> Option<EnvelopeFault>
    ensures { result ≡ lowest_of marks }
{
    if marks.interchange_header {
        Some(EnvelopeFault::InterchangeHeader)
    } else if marks.message_header {
        Some(EnvelopeFault::MessageHeader)
    } else if marks.segment_count {
        Some(EnvelopeFault::SegmentCount)
    } else if marks.message_reference {
        Some(EnvelopeFault::MessageReference)
    } else if marks.message_count {
        Some(EnvelopeFault::MessageCount)
    } else if marks.control_reference {
        Some(EnvelopeFault::ControlReference)
    } else if marks.repeated_reference {
        Some(EnvelopeFault::RepeatedReference)
    } else if marks.test_indicator {
        Some(EnvelopeFault::TestIndicator)
    } else if marks.too_many_messages {
        Some(EnvelopeFault::TooManyMessages)
    } else if marks.character_set {
        Some(EnvelopeFault::CharacterSet)
    } else {
        None
    }
}

impl EnvelopeCheck {
    /// Starts a check before the first segment. Takes no memory.
    pub fn new(alloc: Global) -> Self
        ensures { Checked [] result }
    {
        EnvelopeCheck {
            stage: Stage::Start,
            header: HeaderMarks::none(),
            outside: false,
            headers: Headers::new(alloc),
            trailers: Trailers::new(),
        }
    }

    // Whether a byte is outside of the character set, of this segment or of one before.
    fn is_outside(&self, segment: &SegmentRef<'_>) -> bool
        ensures { result ≡ (self.now.outside ||
            (self.now.header.seven_bit && has_high_data (segment_in segment.now))) }
    {
        self.outside || (self.header.seven_bit && has_high_data(segment))
    }

    fn at_start(&mut self, segment: &SegmentRef<'_>) -> Place
        requires { self.old.stage ≡ Stage.Start }
        ensures { Steps self.old result (segment_in segment.now) self.new }
    {
        let unb = has_tag(segment, b"UNB");
        if !unb {
            self.stage = Stage::Broken;
            return Place::Refused;
        }
        self.header = HeaderMarks::of(segment);
        self.outside = self.is_outside(segment);
        self.stage = Stage::Between;
        Place::Header
    }

    // Returns which conditions hold once UNZ comes after a message.
    fn marks(&self, unz: &SegmentRef<'_>) -> EnvelopeConditions
        ensures { result ≡ marks_at self.now (segment_in unz.now) }
    {
        EnvelopeConditions {
            interchange_header: !self.header.taken,
            message_header: !(self.headers.identified && self.trailers.within),
            segment_count: !self.trailers.counted,
            message_reference: !self.trailers.closed,
            message_count: !is_count_of(unz.component(0, 0), self.headers.messages),
            control_reference: filled_reference(unz.component(1, 0)) != self.header.reference,
            repeated_reference: self.headers.twice,
            test_indicator: self.header.test,
            too_many_messages: self.headers.messages > MOST_MESSAGES,
            character_set: self.is_outside(unz),
        }
    }

    // Takes a segment at which a message or UNZ may begin.
    fn between(&mut self, segment: &SegmentRef<'_>) -> Result<Place, MemoryFault>
        requires { self.old.stage ≡ Stage.Between }
        ensures { IfOk result (λ place. Steps self.old place (segment_in segment.now) self.new) }
    {
        let unb = has_tag(segment, b"UNB");
        if unb {
            self.stage = Stage::Broken;
            return Ok(Place::Refused);
        }
        let unz = has_tag(segment, b"UNZ");
        if unz {
            self.stage = Stage::Ended(lowest(self.marks(segment)));
            return Ok(Place::Trailer);
        }
        let unh = has_tag(segment, b"UNH");
        if !unh {
            self.stage = Stage::Lost;
            return Ok(Place::Refused);
        }
        self.outside = self.is_outside(segment);
        self.headers.take(segment)?;
        self.stage = Stage::Message(Begun {
            reference: filled_reference(segment.component(0, 0)),
            count: 1,
        });
        Ok(Place::MessageHeader)
    }

    // Returns the fault of an interchange that is not a row of messages.
    fn lost_fault(&self) -> EnvelopeFault
        ensures { result ≡ lost_fault self.now.header }
    {
        if self.header.taken {
            EnvelopeFault::MessageFrame
        } else {
            EnvelopeFault::InterchangeHeader
        }
    }

    // Takes a segment of a message that has begun.
    fn in_message(&mut self, begun: Begun, segment: &SegmentRef<'_>) -> Result<Place, MemoryFault>
        requires { self.old.stage ≡ Stage.Message begun }
        ensures { IfOk result (λ place. Steps self.old place (segment_in segment.now) self.new) }
    {
        let unb = has_tag(segment, b"UNB");
        if unb {
            self.stage = Stage::Broken;
            return Ok(Place::Refused);
        }
        let unz = has_tag(segment, b"UNZ");
        if unz {
            self.stage = Stage::Ended(Some(self.lost_fault()));
            return Ok(Place::Refused);
        }
        self.outside = self.is_outside(segment);
        let unt = has_tag(segment, b"UNT");
        if unt {
            self.trailers.take(begun, segment)?;
            self.stage = Stage::Between;
            return Ok(Place::MessageTrailer);
        }
        let frame = is_frame(segment);
        if frame {
            self.stage = Stage::Lost;
            return Ok(Place::Refused);
        }
        let Begun { reference, count } = begun;
        let count = one_more(count)?;
        self.stage = Stage::Message(Begun { reference, count });
        Ok(Place::Inside)
    }

    // Takes a segment after what is not a row of messages.
    fn when_lost(&mut self, segment: &SegmentRef<'_>)
        requires { self.old.stage ≡ Stage.Lost }
        ensures { Steps self.old Place.Refused (segment_in segment.now) self.new }
    {
        let unb = has_tag(segment, b"UNB");
        if unb {
            self.stage = Stage::Broken;
            return;
        }
        let unz = has_tag(segment, b"UNZ");
        if unz {
            self.stage = Stage::Ended(Some(self.lost_fault()));
        }
    }

    // Takes the next segment. Returns its position, as long as no fault is certain.
    fn step(&mut self, segment: &SegmentRef<'_>) -> Result<Place, MemoryFault>
        ensures { IfOk result (λ place. Steps self.old place (segment_in segment.now) self.new) }
    {
        match self.stage {
            Stage::Start => Ok(self.at_start(segment)),
            Stage::Between => self.between(segment),
            Stage::Message(begun) => self.in_message(begun, segment),
            Stage::Lost => {
                self.when_lost(segment);
                Ok(Place::Refused)
            }
            Stage::Ended(_) | Stage::Broken => {
                self.stage = Stage::Broken;
                Ok(Place::Refused)
            }
        }
    }

    // Whether no fault of the headers, the trailers and the bytes so far is certain.
    fn is_sound(&self) -> bool
        ensures { result ≡ is_sound self.now }
    {
        self.header.taken
            && !self.header.test
            && !self.outside
            && self.headers.identified
            && !self.headers.twice
            && self.headers.messages <= MOST_MESSAGES
            && self.trailers.within
            && self.trailers.counted
            && self.trailers.closed
    }

    // Whether no fault is certain.
    fn is_fine(&self) -> bool
        ensures { result ≡ is_fine self.now }
    {
        match self.stage {
            Stage::Start => true,
            Stage::Between | Stage::Message(_) => self.is_sound(),
            Stage::Ended(fault) => fault.is_none(),
            Stage::Lost | Stage::Broken => false,
        }
    }

    /// Takes the next segment, and returns its position. Once a fault is certain, each segment is refused, and only
    /// `fault` says at the end which one it is. If memory runs out, each segment is refused from then on.
    pub fn next(&mut self, segment: &SegmentRef<'_>) -> Result<Place, MemoryFault>
        ensures checked { (lent : List Segment) → Checked lent self.old →
            OnOk result (Checked (lent ++ segment_in segment.now ∷ []) self.new) }
        ensures placed { (lent : List Segment) → Checked lent self.old →
            IfOk result (λ place. Placed place lent (segment_in segment.now)) }
        ensures taken { IfOk result (λ place.
            place ≡ Place.Header → IsTrue (is_valid_header (segment_in segment.now))) }
        ensures refused { IfOk result (λ place. (place ≡ Place.Refused) ↔ (is_fine self.new ≡ false)) }
        ensures for_good { is_fine self.new ≡ true → is_fine self.old ≡ true }
        ensures ran_out { OnErr result (is_fine self.new ≡ false) }
    {
        let place = match self.step(segment) {
            Ok(place) => place,
            Err(refused) => {
                self.stage = Stage::Broken;
                return Err(refused);
            }
        };
        if !self.is_fine() {
            return Ok(Place::Refused);
        }
        Ok(place)
    }

    /// Returns the fault of the segments that have come, if no more follow.
    pub fn fault(&self) -> Option<EnvelopeFault>
        ensures fault { (lent : List Segment) → Checked lent self.now → fault_of lent ≡ result }
        ensures fine { result ≡ None → is_fine self.now ≡ true }
    {
        match self.stage {
            Stage::Ended(fault) => fault,
            _ => Some(EnvelopeFault::InterchangeFrame),
        }
    }
}
