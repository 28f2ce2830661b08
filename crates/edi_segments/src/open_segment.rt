//! Keeps a segment whose data has begun: its parts, and its canonical text.

ghost use Rattle.std.specs.Prelude.{◌≡◌, ◌+◌, ◌≤◌, ◌<◌, [], ◌∷◌, ◌++◌, length, take, IfOk, IfSome, IsTrue};
ghost use Rattle.edi_segments.specs.Spelling.{segment_limit, without_empty_end};
ghost use Rattle.edi_segments.specs.Service.{usual_terminator};
ghost use Rattle.edi_segments.specs.Text.{segment_text};
ghost use Rattle.edi_segments.specs.Plain.{are_plain};

use crate::flat_segment::{FlatSegment, SEGMENT_LIMIT};
use crate::segment_text::SegmentText;
use crate::service::{COMPONENT, ELEMENT};
use crate::service_table::ServiceTable;
use edi_base::MemoryFault;
use std::alloc::Global;
use std::marker::Model;

/// What was read of a segment behind its tag.
#[derive(Drop)]
pub(crate) struct OpenSegment {
    parts: FlatSegment,
    text: SegmentText,
}

impl Model for OpenSegment {
    ghost use Rattle.edi_segments.specs.Reading.{Open};

    ghost Value = { Open };

    ghost use Rattle.edi_segments.specs.OpenSegment.{open_in, IsSoundOpenSegment};

    ghost view = { open_in };

    ghost invariant = { IsSoundOpenSegment };
}

impl OpenSegment {
    ghost use Rattle.edi_segments.specs.OpenSegment.{with_bytes};
    ghost use Rattle.edi_segments.specs.Segment.{element_at, component_at};
    ghost use Rattle.edi_segments.specs.Reading.{with_tag, with_byte, with_component, with_element, with_release};
    ghost use Rattle.edi_segments.specs.Machine.{segment_of};

    /// Room for a segment of 8,192 bytes.
    pub(crate) fn new(alloc: Global) -> Result<Self, MemoryFault>
        ensures { IfOk result (λ made. made ≡ with_tag (0 ∷ 0 ∷ 0 ∷ [])) }
    {
        Ok(OpenSegment {
            parts: FlatSegment::new(alloc)?,
            text: SegmentText::new(alloc)?,
        })
    }

    /// Begins a new segment: a tag and an element separator have come.
    pub(crate) fn begin(&mut self, tag: [u8; 3])
        ensures { self.new ≡ with_tag tag }
    {
        self.parts.begin(tag);
        self.text.begin(tag);
    }

    /// Returns how many bytes of the segment have come.
    pub(crate) fn size(&self) -> usize
        ensures size { result ≡ self.now.length }
        ensures short { result ≤ segment_limit }
    {
        self.parts.size()
    }

    /// Takes bytes at the front that are plain data, and says how many.
    #[inline(always)]
    pub(crate) fn take_plain(&mut self, service: &ServiceTable, bytes: &[u8]) -> usize
        ensures within { result ≤ length bytes.now }
        ensures fits { self.old.length + result ≤ segment_limit }
        ensures plain { IsTrue (are_plain service.now (take result bytes.now)) }
        ensures taken { self.new ≡ with_bytes self.old (take result bytes.now) }
    {
        let room = (SEGMENT_LIMIT - self.parts.size()).min(self.text.room());
        let window = &bytes[..bytes.len().min(room)];
        let behind = self.text.filled;
        let count = self
            .parts
            .take_run(service, window, &mut self.text.bytes[behind..]);
        self.text.filled += count;
        count
    }

    /// Takes a byte of data.
    pub(crate) fn push(&mut self, byte: u8)
        requires { self.old.length < segment_limit }
        ensures { self.new ≡ with_byte self.old byte }
    {
        self.parts.push(byte);
        self.text.push_data(byte);
    }

    /// Takes a release character.
    pub(crate) fn release(&mut self)
        requires { self.old.length < segment_limit }
        ensures { self.new ≡ with_release self.old }
    {
        self.parts.release();
    }

    /// Takes a component separator.
    pub(crate) fn end_component(&mut self)
        requires { self.old.length < segment_limit }
        ensures { self.new ≡ with_component self.old }
    {
        self.parts.end_component();
        self.text.push(COMPONENT);
    }

    /// Takes an element separator, or the terminator.
    pub(crate) fn end_element(&mut self)
        requires { self.old.length < segment_limit }
        ensures { self.new ≡ with_element self.old }
    {
        let drops = self.parts.drops_component();
        self.parts.end_element();
        if drops {
            self.text.leave();
        } else {
            self.text.push(ELEMENT);
        }
    }

    /// Returns the tag.
    pub(crate) fn tag(&self) -> [u8; 3]
        ensures { result ≡ self.now.tag }
    {
        self.parts.tag()
    }

    /// Returns how many elements are closed, without the empty ones at the end.
    pub(crate) fn elements(&self) -> usize
        ensures { result ≡ length (without_empty_end self.now.elements) }
    {
        self.parts.elements()
    }

    /// Counts the components of such an element: 0 if it is absent.
    pub(crate) fn components(&self, element: usize) -> usize
        ensures { result ≡ length (element_at (without_empty_end self.now.elements) element) }
    {
        self.parts.components(element)
    }

    /// Returns the bytes of a component of such an element, or none if it is absent.
    pub(crate) fn component(&self, element: usize, place: usize) -> &[u8]
        ensures { result.now ≡ component_at (without_empty_end self.now.elements) element place }
    {
        self.parts.component(element, place)
    }

    /// Returns the canonical text of a segment that has ended, without its terminator, if it is kept.
    pub(crate) fn text(&self) -> Option<&[u8]>
        ensures { IfSome result (λ front. front.now ++ usual_terminator ∷ [] ≡ segment_text (segment_of self.now)) }
    {
        if !self.parts.is_whole() {
            return None;
        }
        let text = self.text.get()?;
        // a separator comes after the last element
        Some(&text[..text.len() - 1])
    }
}
