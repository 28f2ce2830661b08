//! Lends a segment.

ghost use Rattle.std.specs.Prelude.{◌≡◌, [], ◌∷◌, ◌++◌, length, IfOk, IfSome};
ghost use Rattle.edi_segments.specs.Segment.{element_at, component_at};
ghost use Rattle.edi_segments.specs.Service.{usual_terminator};
ghost use Rattle.edi_segments.specs.Text.{segment_text};

use crate::open_segment::OpenSegment;
use crate::segment::Segment;
use edi_base::{Items, MemoryFault, copy_bytes};
use std::alloc::Global;

/// How a segment that is lent is kept.
#[derive(Clone, Copy)]
enum Form<'a> {
    Open(&'a OpenSegment),
    Kept(&'a Segment),
}

/// A segment that is lent until its lender goes on. Only `to_segment` takes memory.
#[derive(Clone, Copy)]
pub struct SegmentRef<'a> {
    form: Form<'a>,
}

impl<'a> SegmentRef<'a> {
    ghost use Rattle.edi_segments.specs.SegmentRef.{segment_in};
    ghost use Rattle.edi_segments.specs.Machine.{segment_of};

    pub(crate) fn new(segment: &'a OpenSegment) -> Self
        ensures { segment_in result ≡ segment_of segment.now }
    {
        SegmentRef {
            form: Form::Open(segment),
        }
    }

    /// Returns a segment that is kept, lent.
    pub fn of(segment: &'a Segment) -> Self
        ensures { segment_in result ≡ segment.now }
    {
        SegmentRef {
            form: Form::Kept(segment),
        }
    }

    /// Returns the three bytes of the tag.
    pub fn tag(&self) -> [u8; 3]
        ensures { result ≡ (segment_in self.now).tag }
    {
        match self.form {
            Form::Open(segment) => segment.tag(),
            Form::Kept(segment) => segment.tag,
        }
    }

    /// Returns how many elements there are.
    pub fn elements(&self) -> usize
        ensures { result ≡ length (segment_in self.now).elements }
    {
        match self.form {
            Form::Open(segment) => segment.elements(),
            Form::Kept(segment) => segment.elements.len(),
        }
    }

    /// Counts the components of an element, counted from 0: none if the element is absent.
    pub fn components(&self, element: usize) -> usize
        ensures { result ≡ length (element_at (segment_in self.now).elements element) }
    {
        match self.form {
            Form::Open(segment) => segment.components(element),
            Form::Kept(segment) => segment.element(element).len(),
        }
    }

    /// Returns the bytes of a component, with element and place counted from 0, or no bytes if it is absent.
    pub fn component(&self, element: usize, place: usize) -> &[u8]
        ensures { result.now ≡ component_at (segment_in self.now).elements element place }
    {
        match self.form {
            Form::Open(segment) => segment.component(element, place),
            Form::Kept(segment) => segment.component(element, place),
        }
    }

    /// Returns the canonical text, without its terminator, if it is kept.
    pub fn text(&self) -> Option<&[u8]>
        ensures { IfSome result (λ front. front.now ++ usual_terminator ∷ [] ≡ segment_text (segment_in self.now)) }
    {
        match self.form {
            Form::Open(segment) => segment.text(),
            Form::Kept(_) => None,
        }
    }

    fn copied_element(&self, alloc: Global, element: usize) -> Result<Items<Items<u8>>, MemoryFault>
        ensures { IfOk result (λ copy. copy ≡ element_at (segment_in self.now).elements element) }
    {
        let mut components = Vec::with_capacity(alloc, self.components(element))?;
        for place in 0..self.components(element) {
            components.push(copy_bytes(alloc, self.component(element, place))?)?;
        }
        Ok(Items::from_vec(components))
    }

    /// Returns a copy that can be kept.
    pub fn to_segment(&self, alloc: Global) -> Result<Segment, MemoryFault>
        ensures { IfOk result (λ copy. copy ≡ segment_in self.now) }
    {
        let mut elements = Vec::with_capacity(alloc, self.elements())?;
        for element in 0..self.elements() {
            elements.push(self.copied_element(alloc, element)?)?;
        }
        Ok(Segment {
            tag: self.tag(),
            elements: Items::from_vec(elements),
        })
    }
}
