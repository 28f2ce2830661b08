//! Keeps the canonical text of a segment as its bytes come, so that it is written again at once. It is kept if no empty
//! component or element was dropped after others.

ghost use Rattle.std.specs.Prelude.{◌≡◌, [], ◌∷◌, ◌++◌, Some, None, IfOk, IfSome, vec_len, ◌-◌};
ghost use Rattle.edi_segments.specs.Service.{usual_element};
ghost use Rattle.edi_segments.specs.Text.{byte_text};
ghost use Rattle.edi_segments.specs.SegmentText.{GrowsBy, HasTextRoom, text_in};

use crate::flat_segment::SEGMENT_LIMIT;
use crate::service::{ELEMENT, RELEASE, is_usual};
use edi_base::MemoryFault;
use std::alloc::Global;

/// Room for a segment each of whose bytes has a release character before it.
const TEXT_ROOM: usize = 2 * SEGMENT_LIMIT;

/// A text that is kept as its bytes come, or is not kept.
#[derive(Drop)]
pub(crate) struct SegmentText {
    /// Room for the text, of which so much is filled.
    pub(crate) bytes: Vec<u8>,
    pub(crate) filled: usize,
    kept: bool,
}

impl SegmentText {
    /// None is kept.
    pub(crate) fn new(alloc: Global) -> Result<Self, MemoryFault>
        ensures room { IfOk result HasTextRoom }
        ensures none { IfOk result (λ made. text_in made ≡ None) }
    {
        Ok(SegmentText {
            bytes: Vec::from_elem(alloc, 0u8, TEXT_ROOM)?,
            filled: 0,
            kept: false,
        })
    }

    /// Begins a new text: a tag and an element separator.
    pub(crate) fn begin(&mut self, tag: [u8; 3])
        requires { HasTextRoom self.old }
        ensures room { HasTextRoom self.new }
        ensures begun { IfSome (text_in self.new) (λ text. text ≡ tag ++ usual_element ∷ []) }
    {
        let [first, second, third] = tag;
        self.filled = 0;
        self.kept = true;
        self.push(first);
        self.push(second);
        self.push(third);
        self.push(ELEMENT);
    }

    /// Returns how many bytes more there is room for.
    pub(crate) fn room(&self) -> usize
        requires { HasTextRoom self.now }
        ensures { result ≡ vec_len self.now.bytes - self.now.filled }
    {
        self.bytes.len() - self.filled
    }

    /// Takes a byte.
    pub(crate) fn push(&mut self, byte: u8)
        requires { HasTextRoom self.old }
        ensures room { HasTextRoom self.new }
        ensures grows { GrowsBy (byte ∷ []) (text_in self.old) (text_in self.new) }
    {
        if self.filled == self.bytes.len() {
            self.kept = false;
            return;
        }
        self.bytes[self.filled] = byte;
        self.filled += 1;
    }

    /// Takes a byte of data, with a release character before it if it is one of the usual service characters.
    pub(crate) fn push_data(&mut self, byte: u8)
        requires { HasTextRoom self.old }
        ensures room { HasTextRoom self.new }
        ensures grows { GrowsBy (byte_text byte) (text_in self.old) (text_in self.new) }
    {
        if is_usual(byte) {
            self.push(RELEASE);
        }
        self.push(byte);
    }

    /// The text is not kept any more.
    pub(crate) fn leave(&mut self)
        requires { HasTextRoom self.old }
        ensures room { HasTextRoom self.new }
        ensures none { text_in self.new ≡ None }
    {
        self.kept = false;
    }

    /// Returns the text, if it is kept.
    pub(crate) fn get(&self) -> Option<&[u8]>
        requires { HasTextRoom self.now }
        ensures { IfSome result (λ text. text_in self.now ≡ Some text.now) }
    {
        if !self.kept {
            return None;
        }
        Some(&self.bytes[..self.filled])
    }
}
