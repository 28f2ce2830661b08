//! Keeps a segment whose data has begun: its bytes in one buffer, and the places where components and elements end. The
//! buffers are made once, so that no later call takes memory.

ghost use Rattle.std.specs.Prelude.{◌≡◌, ◌==◌, ◌&&◌, not, ◌+◌, ◌≤◌, ◌<◌, [], ◌∷◌, ◌++◌, length};
ghost use Rattle.std.specs.Prelude.{take, drop, IsTrue, slice_index, slice_range, IfOk};
ghost use Rattle.edi_segments.specs.Spelling.{segment_limit, without_empty_end};
ghost use Rattle.edi_segments.specs.Flat.{IsLeft};
ghost use Rattle.edi_segments.specs.ServiceTable.{are_run};

use crate::service_table::ServiceTable;
use edi_base::MemoryFault;
use std::alloc::Global;
use std::marker::Model;

/// The longest segment in bytes, tag and terminator counted.
pub(crate) const SEGMENT_LIMIT: usize = 8192;

/// What was read of a segment behind its tag.
#[derive(Drop)]
pub(crate) struct FlatSegment {
    tag: [u8; 3],
    /// The data bytes of all components, one after another.
    bytes: Vec<u8>,
    filled: usize,
    /// Where each closed component ends in the bytes.
    component_ends: Vec<usize>,
    components: usize,
    /// Where the open component begins in the bytes.
    component_from: usize,
    /// Counts the components that are left once the empty ones at the end of the open element are dropped.
    components_kept: usize,
    /// Where each closed element ends among the components.
    element_ends: Vec<usize>,
    elements: usize,
    /// Where the open element begins among the components.
    element_from: usize,
    /// Counts the elements that are left once the empty ones at the end are dropped.
    elements_kept: usize,
    /// How many bytes of the segment have come.
    size: usize,
}

/// Counts those that are left without the empty ones at the end. The last of `count` extends from one place to another.
fn count_left(kept: usize, count: usize, from: usize, to: usize) -> usize
    ensures { IsLeft kept count from to result }
{
    if from < to { count } else { kept }
}

/// Returns where the piece with this number begins, in a list in which each ends at such a place.
fn start_of(ends: &[usize], index: usize) -> usize
    requires { index ≤ length ends.now }
    ensures { result ≡ slice_index (0 ∷ ends.now) index }
{
    if index == 0 { 0 } else { ends[index - 1] }
}

/// Returns the bytes of the piece with this number, of which each ends at such a place.
fn piece_of<'a>(bytes: &'a [u8], ends: &[usize], index: usize) -> &'a [u8]
    requires within { index < length ends.now }
    requires rises { slice_index (0 ∷ ends.now) index ≤ slice_index ends.now index }
    requires ends { slice_index ends.now index ≤ length bytes.now }
    ensures { result.now ≡ slice_range bytes.now (slice_index (0 ∷ ends.now) index) (slice_index ends.now index) }
{
    &bytes[start_of(ends, index)..ends[index]]
}

impl Model for FlatSegment {
    ghost use Rattle.edi_segments.specs.Reading.{Open};

    ghost Value = { Open };

    ghost use Rattle.edi_segments.specs.FlatSegment.{open_in, IsSoundFlatSegment};

    ghost view = { open_in };

    ghost invariant = { IsSoundFlatSegment };
}

impl FlatSegment {
    ghost use Rattle.edi_segments.specs.OpenSegment.{with_bytes};
    ghost use Rattle.edi_segments.specs.Segment.{element_at, component_at};
    ghost use Rattle.edi_segments.specs.Reading.{with_tag, with_byte, with_component, with_element, with_release};

    /// Room for a segment of 8,192 bytes.
    pub(crate) fn new(alloc: Global) -> Result<Self, MemoryFault>
        ensures { IfOk result (λ made. made ≡ with_tag (0 ∷ 0 ∷ 0 ∷ [])) }
    {
        let bytes = Vec::from_elem(alloc, 0u8, SEGMENT_LIMIT)?;
        let component_ends = Vec::from_elem(alloc, 0usize, SEGMENT_LIMIT)?;
        let element_ends = Vec::from_elem(alloc, 0usize, SEGMENT_LIMIT)?;
        Ok(FlatSegment {
            tag: [0; 3],
            bytes,
            filled: 0,
            component_ends,
            components: 0,
            component_from: 0,
            components_kept: 0,
            element_ends,
            elements: 0,
            element_from: 0,
            elements_kept: 0,
            size: 4,
        })
    }

    /// Begins a new segment: a tag and an element separator have come.
    pub(crate) fn begin(&mut self, tag: [u8; 3])
        ensures { self.new ≡ with_tag tag }
    {
        self.tag = tag;
        self.filled = 0;
        self.components = 0;
        self.component_from = 0;
        self.components_kept = 0;
        self.elements = 0;
        self.element_from = 0;
        self.elements_kept = 0;
        self.size = 4;
    }

    /// Returns how many bytes of the segment have come.
    pub(crate) fn size(&self) -> usize
        ensures size { result ≡ self.now.length }
        ensures short { result ≤ segment_limit }
    {
        self.size
    }

    /// Whether the open component is still empty.
    fn is_component_empty(&self) -> bool
        ensures { result ≡ (length self.now.component == 0) }
    {
        self.component_from == self.filled
    }

    /// Whether the open component is the first of its element.
    fn is_first_component(&self) -> bool
        ensures { result ≡ (length self.now.element == 0) }
    {
        self.element_from == self.components
    }

    /// Whether an empty component is dropped after others when the open element is closed.
    pub(crate) fn drops_component(&self) -> bool
        ensures { result ≡ ((length self.now.component == 0) && not (length self.now.element == 0)) }
    {
        self.is_component_empty() && !self.is_first_component()
    }

    /// Returns how many elements are closed, with the empty ones at the end.
    fn closed_elements(&self) -> usize
        ensures { result ≡ length self.now.elements }
    {
        self.elements
    }

    /// Whether nothing has come after the last element that is closed, and none at the end is dropped.
    pub(crate) fn is_whole(&self) -> bool
        ensures { result ≡ ((length self.now.element == 0 && length self.now.component == 0)
            && length (without_empty_end self.now.elements) == length self.now.elements) }
    {
        self.is_first_component()
            && self.is_component_empty()
            && self.elements() == self.closed_elements()
    }

    /// Takes the leading bytes that stand for themselves, in the text and in its canonical one, and copies them to
    /// another place too. Returns how many.
    #[inline(always)]
    pub(crate) fn take_run(&mut self, service: &ServiceTable, bytes: &[u8], too: &mut [u8]) -> usize
        requires fits { self.old.length + length bytes.now ≤ segment_limit }
        requires room { length bytes.now ≤ length too.old }
        ensures within { result ≤ length bytes.now }
        ensures run { IsTrue (are_run service.now (take result bytes.now)) }
        ensures taken { self.new ≡ with_bytes self.old (take result bytes.now) }
        ensures copied { too.new ≡ take result bytes.now ++ drop result too.old }
    {
        let count = service.copy_run(bytes, &mut self.bytes[self.filled..], too);
        self.filled += count;
        self.size += count;
        count
    }

    /// Takes a byte of data.
    pub(crate) fn push(&mut self, byte: u8)
        requires { self.old.length < segment_limit }
        ensures { self.new ≡ with_byte self.old byte }
    {
        self.bytes[self.filled] = byte;
        self.filled += 1;
        self.size += 1;
    }

    /// Takes a release character.
    pub(crate) fn release(&mut self)
        requires { self.old.length < segment_limit }
        ensures { self.new ≡ with_release self.old }
    {
        self.size += 1;
    }

    /// Takes a component separator.
    pub(crate) fn end_component(&mut self)
        requires { self.old.length < segment_limit }
        ensures { self.new ≡ with_component self.old }
    {
        let count = self.components + 1;
        self.component_ends[self.components] = self.filled;
        self.components_kept = count_left(
            self.components_kept,
            count,
            self.component_from,
            self.filled,
        );
        self.component_from = self.filled;
        self.components = count;
        self.size += 1;
    }

    /// Takes an element separator, or the terminator.
    pub(crate) fn end_element(&mut self)
        requires { self.old.length < segment_limit }
        ensures { self.new ≡ with_element self.old }
    {
        let count = self.components + 1;
        self.component_ends[self.components] = self.filled;
        let components = count_left(
            self.components_kept,
            count,
            self.component_from,
            self.filled,
        );
        self.component_from = self.filled;
        self.components = components;
        self.components_kept = components;
        let count = self.elements + 1;
        self.element_ends[self.elements] = components;
        self.elements_kept = count_left(self.elements_kept, count, self.element_from, components);
        self.element_from = components;
        self.elements = count;
        self.size += 1;
    }

    /// Returns the tag.
    pub(crate) fn tag(&self) -> [u8; 3]
        ensures { result ≡ self.now.tag }
    {
        self.tag
    }

    /// Returns how many elements are closed, without the empty ones at the end.
    pub(crate) fn elements(&self) -> usize
        ensures { result ≡ length (without_empty_end self.now.elements) }
    {
        self.elements_kept
    }

    /// Counts the components of such an element: 0 if it is absent.
    pub(crate) fn components(&self, element: usize) -> usize
        ensures { result ≡ length (element_at (without_empty_end self.now.elements) element) }
    {
        if element >= self.elements_kept {
            return 0;
        }
        self.element_ends[element] - start_of(self.element_ends.as_slice(), element)
    }

    /// Returns the bytes of a component of such an element, or none if it is absent.
    pub(crate) fn component(&self, element: usize, place: usize) -> &[u8]
        ensures { result.now ≡ component_at (without_empty_end self.now.elements) element place }
    {
        if place >= self.components(element) {
            return &[];
        }
        let index = start_of(self.element_ends.as_slice(), element) + place;
        piece_of(self.bytes.as_slice(), self.component_ends.as_slice(), index)
    }
}
