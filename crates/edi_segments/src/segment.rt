ghost use Rattle.std.specs.Prelude.{◌≡◌};

use edi_base::Items;

/// The service characters of a text (ISO 9735, character sets and service string advice).
#[derive(Clone, Copy, Debug, PartialEq, Eq)]
pub struct Service {
    /// Parts the components of an element.
    pub component: u8,
    /// Stands before each element.
    pub element: u8,
    /// The decimal mark, a full stop or a comma.
    pub decimal: u8,
    /// Takes away the special meaning of the data byte after it.
    pub release: Option<u8>,
    /// Ends a segment.
    pub terminator: u8,
}

/// The elements of a segment, each the list of its components, each the list of its data bytes.
pub type Elements = Items<Items<Items<u8>>>;

/// One segment: its tag of three bytes and its elements.
#[derive(Debug, Drop)]
pub struct Segment {
    pub tag: [u8; 3],
    pub elements: Elements,
}

/// A text that was read: its service characters and its segments, in their order.
#[derive(Debug, Drop)]
pub struct Tokens {
    pub service: Service,
    pub segments: Items<Segment>,
}

impl Segment {
    ghost use Rattle.edi_segments.specs.Segment.{element_at, component_at};

    /// Returns the components of an element, counted from 0, or none if the element is absent.
    pub fn element(&self, element: usize) -> &[Items<u8>]
        ensures { result.now ≡ element_at self.now.elements element }
    {
        match self.elements.as_slice().get(element) {
            Some(components) => components.as_slice(),
            None => &[],
        }
    }

    /// Returns the bytes of a component, with element and place counted from 0, or no bytes if it is absent.
    pub fn component(&self, element: usize, place: usize) -> &[u8]
        ensures { result.now ≡ component_at self.now.elements element place }
    {
        match self.element(element).get(place) {
            Some(component) => component.as_slice(),
            None => &[],
        }
    }
}
