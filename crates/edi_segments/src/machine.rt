//! Reads the bytes of a text by one machine, in whatever pieces they come. It keeps the segment that has begun, or the
//! one that ended last, and no other.

ghost use Rattle.std.specs.Prelude.{◌≡◌, ◌≤◌, List, [], length, take, IfOk, IfErr, OnErr, false, true, ◌<◌, Ok, Err};
ghost use Rattle.edi_segments.specs.Reading.{step, run, start, finish, is_settled, is_una};
ghost use Rattle.edi_segments.specs.Machine.{Gives, StopsAt};

use crate::characters::{is_capital, is_data, is_in_tag, is_line_end};
use crate::fault::TokenFault;
use crate::flat_segment::SEGMENT_LIMIT;
use crate::open_segment::OpenSegment;
use crate::segment::Service;
use crate::segment_ref::SegmentRef;
use crate::service_table::ServiceTable;
use edi_base::MemoryFault;
use std::alloc::Global;

/// Where the bytes so far end.
#[derive(Clone, Copy, Debug, PartialEq, Eq)]
enum BytePlace {
    /// Outside of segments.
    Outside,
    /// Among the six characters of a service string.
    InService,
    /// In a tag, or right after it.
    InTag,
    /// In the data of a segment.
    InData,
    /// Behind a release character.
    Released,
}

/// How far a text was read.
#[derive(Drop)]
pub struct Machine {
    /// The service characters, as far as they are known.
    pub service: ServiceTable,
    place: BytePlace,
    /// Whether a service string may still come.
    fresh: bool,
    /// How many characters of a service string, or bytes of a tag, have come.
    taken: usize,
    /// The first five characters of a service string.
    six: [u8; 5],
    tag: [u8; 3],
    open: OpenSegment,
}

fn is_una(tag: &[u8]) -> bool
    ensures { result ≡ is_una tag.now }
{
    matches!(tag, [b'U', b'N', b'A'])
}

impl Machine {
    ghost use Rattle.edi_segments.specs.declared.segment.Segment.{Segment};
    ghost use Rattle.edi_segments.specs.Machine.{reading_of, after, lent_of, place_of, tokens_at};
    ghost use Rattle.edi_segments.specs.SegmentRef.{segment_in};

    /// Nothing has come.
    pub fn new(alloc: Global) -> Result<Self, MemoryFault>
        ensures { IfOk result (λ machine. reading_of [] machine ≡ start) }
    {
        Ok(Machine {
            service: ServiceTable::of(Service::usual()),
            place: BytePlace::Outside,
            fresh: true,
            taken: 0,
            six: [0; 5],
            tag: [0; 3],
            open: OpenSegment::new(alloc)?,
        })
    }

    /// Takes the next byte. Whether it ended a segment. A byte that shows a fault is not taken.
    fn push(&mut self, byte: u8) -> Result<bool, TokenFault>
        ensures gives { Gives (λ ended. after [] ended self.new) result (step (reading_of [] self.old) byte) }
        ensures kept { OnErr result (self.new ≡ self.old) }
    {
        match self.place {
            BytePlace::Outside => self.push_outside(byte),
            BytePlace::InService => self.push_service(byte),
            BytePlace::InTag => self.push_tag(byte),
            BytePlace::InData => self.push_in_data(byte),
            BytePlace::Released => self.push_released(byte),
        }
    }

    fn push_outside(&mut self, byte: u8) -> Result<bool, TokenFault>
        requires { self.old.place ≡ BytePlace.Outside }
        ensures gives { Gives (λ ended. after [] ended self.new) result (step (reading_of [] self.old) byte) }
        ensures kept { OnErr result (self.new ≡ self.old) }
    {
        if is_line_end(byte) {
            return Ok(false);
        }
        if !is_capital(byte) {
            return Err(TokenFault::Tag);
        }
        self.place = BytePlace::InTag;
        self.taken = 1;
        self.tag = [byte, 0, 0];
        Ok(false)
    }

    fn push_service(&mut self, byte: u8) -> Result<bool, TokenFault>
        requires { self.old.place ≡ BytePlace.InService }
        ensures gives { Gives (λ ended. after [] ended self.new) result (step (reading_of [] self.old) byte) }
        ensures kept { OnErr result (self.new ≡ self.old) }
    {
        if self.taken < 5 {
            self.six[self.taken] = byte;
            self.taken += 1;
            return Ok(false);
        }
        let [component, element, decimal, release, reserved] = self.six;
        let six = [component, element, decimal, release, reserved, byte];
        let service = Service::of(&six).ok_or(TokenFault::ServiceString)?;
        self.service = ServiceTable::of(service);
        self.place = BytePlace::Outside;
        self.fresh = false;
        Ok(false)
    }

    fn push_tag(&mut self, byte: u8) -> Result<bool, TokenFault>
        requires { self.old.place ≡ BytePlace.InTag }
        ensures gives { Gives (λ ended. after [] ended self.new) result (step (reading_of [] self.old) byte) }
        ensures kept { OnErr result (self.new ≡ self.old) }
    {
        if self.taken >= 3 {
            return self.push_after_tag(byte);
        }
        if !is_in_tag(byte) {
            return Err(TokenFault::Tag);
        }
        self.tag[self.taken] = byte;
        self.taken += 1;
        if self.fresh && is_una(&self.tag[..self.taken]) {
            self.place = BytePlace::InService;
            self.taken = 0;
        }
        Ok(false)
    }

    fn push_after_tag(&mut self, byte: u8) -> Result<bool, TokenFault>
        requires place { self.old.place ≡ BytePlace.InTag }
        requires whole { 3 ≤ self.old.taken }
        ensures gives { Gives (λ ended. after [] ended self.new) result (step (reading_of [] self.old) byte) }
        ensures kept { OnErr result (self.new ≡ self.old) }
    {
        let service = self.service.get();
        if byte == service.element {
            self.open.begin(self.tag);
            self.place = BytePlace::InData;
            return Ok(false);
        }
        if byte != service.terminator {
            return Err(TokenFault::Tag);
        }
        self.open.begin(self.tag);
        self.place = BytePlace::Outside;
        self.fresh = false;
        Ok(true)
    }

    fn push_in_data(&mut self, byte: u8) -> Result<bool, TokenFault>
        requires { self.old.place ≡ BytePlace.InData }
        ensures gives { Gives (λ ended. after [] ended self.new) result (step (reading_of [] self.old) byte) }
        ensures kept { OnErr result (self.new ≡ self.old) }
    {
        if self.open.size() == SEGMENT_LIMIT {
            return Err(TokenFault::LongSegment);
        }
        let service = self.service.get();
        if byte == service.component {
            self.open.end_component();
        } else if byte == service.element {
            self.open.end_element();
        } else if byte == service.terminator {
            self.open.end_element();
            self.place = BytePlace::Outside;
            self.fresh = false;
            return Ok(true);
        } else if service.is_release(byte) {
            self.open.release();
            self.place = BytePlace::Released;
        } else if is_data(byte) {
            self.open.push(byte);
        } else {
            return Err(TokenFault::Byte);
        }
        Ok(false)
    }

    fn push_released(&mut self, byte: u8) -> Result<bool, TokenFault>
        requires { self.old.place ≡ BytePlace.Released }
        ensures gives { Gives (λ ended. after [] ended self.new) result (step (reading_of [] self.old) byte) }
        ensures kept { OnErr result (self.new ≡ self.old) }
    {
        if self.open.size() == SEGMENT_LIMIT {
            return Err(TokenFault::LongSegment);
        }
        if !is_data(byte) {
            return Err(TokenFault::Byte);
        }
        self.open.push(byte);
        self.place = BytePlace::InData;
        Ok(false)
    }

    /// Takes a leading tag with the element separator after it, if a segment may begin there, and returns the number of
    /// bytes: 0 if they begin with anything else.
    fn push_whole_tag(&mut self, bytes: &[u8]) -> usize
        ensures within { result ≤ length bytes.now }
        ensures taken { run (reading_of [] self.old) (take result bytes.now) ≡ Ok (reading_of [] self.new) }
    {
        let BytePlace::Outside = self.place else {
            return 0;
        };
        if bytes.len() < 4 {
            return 0;
        }
        let tag = [bytes[0], bytes[1], bytes[2]];
        let is_tag = is_capital(tag[0]) && is_in_tag(tag[1]) && is_in_tag(tag[2]);
        if !is_tag || (self.fresh && is_una(&tag)) || bytes[3] != self.service.get().element {
            return 0;
        }
        self.tag = tag;
        self.open.begin(tag);
        self.place = BytePlace::InData;
        4
    }

    // A call for each run of bytes would cost a tenth of a relay, so this and what it calls are inlined.
    /// Takes the bytes at the front that are plain data, and says how many. None outside of data.
    #[inline(always)]
    fn push_plain(&mut self, bytes: &[u8]) -> usize
        ensures within { result ≤ length bytes.now }
        ensures taken { run (reading_of [] self.old) (take result bytes.now) ≡ Ok (reading_of [] self.new) }
    {
        let BytePlace::InData = self.place else {
            return 0;
        };
        self.open.take_plain(&self.service, bytes)
    }

    /// Takes a tag and plain data at the front, and says how many bytes.
    #[inline(always)]
    fn push_run(&mut self, bytes: &[u8]) -> usize
        ensures within { result ≤ length bytes.now }
        ensures taken { run (reading_of [] self.old) (take result bytes.now) ≡ Ok (reading_of [] self.new) }
    {
        if let BytePlace::InData = self.place {
            return self.push_plain(bytes);
        }
        let tag = self.push_whole_tag(bytes);
        let plain = self.push_plain(&bytes[tag..]);
        tag + plain
    }

    /// Takes bytes from the front on, to the end of a segment or to the last of them. How many, and whether a segment
    /// ended. At a fault those before the byte that shows it are taken, and no other.
    pub fn push_all(&mut self, bytes: &[u8]) -> Result<(usize, bool), TokenFault>
        ensures within { IfOk result (λ taken. taken.0 ≤ length bytes.now) }
        ensures whole { IfOk result (λ taken. taken.1 ≡ false → taken.0 ≡ length bytes.now) }
        ensures some { IfOk result (λ taken. taken.1 ≡ true → 0 < taken.0) }
        ensures ok { IfOk result (λ taken. run (reading_of [] self.old) (take taken.0 bytes.now) ≡ Ok (after [] taken.1 self.new)) }
        ensures err { IfErr result (λ fault. run (reading_of [] self.old) bytes.now ≡ Err fault) }
        ensures stops { IfErr result (λ fault. StopsAt self.old bytes.now fault self.new) }
    {
        let mut at = self.push_run(bytes);
        while at < bytes.len() {
            let ended = self.push(bytes[at])?;
            at += 1;
            if ended {
                return Ok((at, true));
            }
            at += self.push_run(&bytes[at..]);
        }
        Ok((at, false))
    }

    /// Whether no service string can come any more, so that the service characters are those of the whole text.
    pub fn is_settled(&self) -> bool
        ensures { result ≡ is_settled (place_of self.now.place self.now) }
    {
        match self.place {
            BytePlace::Outside | BytePlace::InTag => !self.fresh,
            BytePlace::InService => false,
            BytePlace::InData | BytePlace::Released => true,
        }
    }

    /// Returns the segment that ended last.
    pub fn lent_segment(&self) -> SegmentRef<'_>
        ensures { segment_in result ≡ lent_of self.now }
    {
        SegmentRef::new(&self.open)
    }

    /// What the text is that ends here.
    pub fn finish(&self) -> Result<(), TokenFault>
        ensures { (lent : List Segment) → Gives (λ _. tokens_at lent self.now) result (finish (reading_of lent self.now)) }
    {
        match self.place {
            BytePlace::Outside => Ok(()),
            BytePlace::InService => Err(TokenFault::ServiceString),
            BytePlace::InTag | BytePlace::InData | BytePlace::Released => Err(TokenFault::Cut),
        }
    }
}
