//! Lends the segments of a text one after another, as it reads the bytes from a reader that each call hands in.

ghost use Rattle.std.specs.Prelude.{◌≡◌, ◌<◌, ◌≤◌, ◌-◌, ◌+◌, ◌++◌, ℕ, List, [], length, take, IfOk, IfErr, OnOk, OnErr};
ghost use Rattle.std.specs.Prelude.{Option, Some, None, Ok, IfSome, false, true};
ghost use Rattle.std.specs.Io.KnownBytes.{IsAtEnd};
ghost use Rattle.edi_segments.specs.declared.segment.Segment.{Segment};
ghost use Rattle.edi_segments.specs.Spelling.{text_limit};
ghost use Rattle.edi_segments.specs.SegmentRef.{segment_in};
ghost use Rattle.edi_tokens.specs.Lender.{AtEnd, Came, Fed, Feeds, TellsRefill, FillsSome, FitsSome, FaultHasCause, HasReadNothing, IsOfText};
ghost use Rattle.edi_tokens.specs.Lender.{MayRead, ReadsAway};
ghost use Rattle.edi_tokens.specs.Lender.{TakesOf, TellsSome, TellsNext, Took};
ghost use Rattle.edi_tokens.specs.Lender.{answered, decimal_of, known_service, lent_by, stopped, unread};

use crate::piece::{Piece, ReadFailed};
use crate::reading::TEXT_LIMIT;
use edi_base::{MemoryFault, Source};
use edi_segments::{Machine, SegmentRef, Service, TokenFault};
use std::alloc::Global;

/// How the text continues after the bytes that were read.
#[derive(Clone, Copy, Debug, PartialEq, Eq)]
pub(crate) enum Tail {
    /// More bytes may be read, the last of them one too many.
    More,
    /// More bytes may be read, and the text ends after them.
    Within,
    /// The text ends.
    End,
    /// There is a byte too many.
    Long,
    /// A fault was answered, and is answered for good.
    Failed(TokenFault),
}

/// Lends the segments of a text one after another. The reader is handed in at each call, and has to be the same one. Its
/// buffers are made once: no later call takes memory.
#[derive(Drop)]
pub struct Lender {
    machine: Machine,
    /// What was read and is not taken.
    piece: Piece,
    tail: Tail,
    /// How many bytes may still be read.
    room: usize,
    /// Whether the reader has said that it ends.
    ended: bool,
}

/// Returns how a text continues of which this many bytes are still to be read.
fn tail_within(room: usize) -> Tail
    ensures last { room ≡ 0 → result ≡ Tail.End }
    ensures more { 0 < room → result ≡ Tail.Within }
{
    if room == 0 { Tail::End } else { Tail::Within }
}

/// Reads once, and at most this many bytes. Returns how many came.
fn skip_piece<R: Source>(
    piece: &mut Piece,
    reader: &mut R,
    room: usize,
) -> Result<usize, ReadFailed>
    ensures taken { IfOk result (λ count.
        TakesOf (R.remaining reader.old) (R.remaining reader.new) room (room - count)) }
    ensures within { IfOk result (λ count. count ≤ room) }
    ensures ends { IfOk result (λ count. count ≡ 0 → 0 < room → IsAtEnd (R.remaining reader.new)) }
    ensures none { OnErr result (TakesOf (R.remaining reader.old) (R.remaining reader.new) room room) }
    ensures kept { OnOk result (R.failed reader.new ≡ R.failed reader.old) }
    ensures failed { OnErr result (R.failed reader.new ≡ true) }
{
    piece.fill(reader, room)
}

impl Lender {
    /// Of a text that is all of a reader. Nothing is read yet.
    pub fn new(alloc: Global) -> Result<Self, MemoryFault>
        ensures fed { IfOk result (λ lender. (known : List ℕ) → Fed (Some known) known [] lender) }
        ensures begun { IfOk result (λ lender. HasReadNothing lender (text_limit + 1)) }
    {
        Ok(Lender {
            machine: Machine::new(alloc)?,
            piece: Piece::of(alloc, &[])?,
            tail: Tail::More,
            room: TEXT_LIMIT + 1,
            ended: false,
        })
    }

    /// Of a text of `size` bytes, the first of which are those of `front`, and the others the next ones of a reader: no
    /// more are read.
    pub fn of_size(alloc: Global, front: &[u8], size: usize) -> Result<Self, MemoryFault>
        requires { size ≤ text_limit }
        ensures fed { IfOk result (λ lender.
            (left : List ℕ) → Fed (Some left) (take size (front.now ++ left)) [] lender) }
        ensures begun { IfOk result (λ lender. HasReadNothing lender (size - length front.now)) }
    {
        let front = &front[..size.min(front.len())];
        let room = size - front.len();
        Ok(Lender {
            machine: Machine::new(alloc)?,
            piece: Piece::of(alloc, front)?,
            tail: tail_within(room),
            room,
            ended: false,
        })
    }

    /// Takes what was read, to the end of a segment or to its last byte. Whether a segment ended.
    fn take_piece(&mut self) -> Result<bool, TokenFault>
        ensures told { (known : Option (List ℕ)) (all : List ℕ) (lent : List Segment) →
            Fed known all lent self.old →
            Took known all lent result self.new }
        ensures some { (lent : List Segment) → Came lent self.old → FitsSome lent result self.new }
        ensures text { IfErr result IsOfText }
        ensures empty { result ≡ Ok false → self.new.piece ≡ [] }
        ensures fewer { result ≡ Ok true → length self.new.piece < length self.old.piece }
        ensures room { self.new.room ≡ self.old.room }
        ensures tail { self.new.tail ≡ self.old.tail }
        ensures ended { self.new.ended ≡ self.old.ended }
    {
        let (count, ended) = self.machine.push_all(self.piece.as_slice())?;
        self.piece.skip(count);
        Ok(ended)
    }

    /// Reads once, if more may be read. Returns whether bytes came.
    fn read<R: Source>(&mut self, reader: &mut R) -> Result<bool, TokenFault>
        requires tail { MayRead self.old.tail }
        requires piece { self.old.piece ≡ [] }
        ensures told { (all : List ℕ) (lent : List Segment) → Fed (R.remaining reader.old) all lent self.old →
            TellsRefill (R.remaining reader.new) all lent result self.new }
        ensures some { (lent : List Segment) → Came lent self.old → FillsSome lent result self.new }
        ensures flag { FaultHasCause result (R.failed reader.old) (R.failed reader.new) }
        ensures origin { R.origin reader.new ≡ R.origin reader.old }
        ensures bound { TakesOf
            (R.remaining reader.old) (R.remaining reader.new) self.old.room self.new.room }
        ensures ends { AtEnd (R.remaining reader.new) self.new }
        ensures fewer { result ≡ Ok true → self.new.room < self.old.room }
        ensures unread { result ≡ Ok true → unread self.new ≤ unread self.old }
        ensures going { OnOk result (stopped self.new ≡ None) }
    {
        self.ended = false;
        let Ok(count) = self.piece.fill(reader, self.room) else {
            return Err(TokenFault::Read);
        };
        self.room -= count;
        if count == 0 {
            self.ended = true;
            self.tail = Tail::End;
            return Ok(false);
        }
        if self.room > 0 {
            return Ok(true);
        }
        match self.tail {
            Tail::Within => self.tail = Tail::End,
            _ => {
                self.piece.drop_last();
                self.tail = Tail::Long;
            }
        }
        Ok(true)
    }

    /// Reads more if all that was read is taken. Returns whether there are bytes: none at the end of the text.
    fn refill<R: Source>(&mut self, reader: &mut R) -> Result<bool, TokenFault>
        requires piece { self.old.piece ≡ [] }
        requires going { stopped self.old ≡ None }
        ensures told { (all : List ℕ) (lent : List Segment) → Fed (R.remaining reader.old) all lent self.old →
            TellsRefill (R.remaining reader.new) all lent result self.new }
        ensures some { (lent : List Segment) → Came lent self.old → FillsSome lent result self.new }
        ensures flag { FaultHasCause result (R.failed reader.old) (R.failed reader.new) }
        ensures origin { R.origin reader.new ≡ R.origin reader.old }
        ensures bound { TakesOf
            (R.remaining reader.old) (R.remaining reader.new) self.old.room self.new.room }
        ensures ends { AtEnd (R.remaining reader.old) self.old → AtEnd (R.remaining reader.new) self.new }
        ensures fewer { result ≡ Ok true → self.new.room < self.old.room }
        ensures unread { result ≡ Ok true → unread self.new ≤ unread self.old }
        ensures going { OnOk result (stopped self.new ≡ None) }
    {
        match self.tail {
            Tail::More | Tail::Within => self.read(reader),
            Tail::End => Ok(false),
            Tail::Long => Err(TokenFault::TooLong),
            Tail::Failed(fault) => Err(fault),
        }
    }

    /// Goes on to the end of the next segment. Whether there is one.
    fn step<R: Source>(&mut self, reader: &mut R) -> Result<bool, TokenFault>
        requires going { stopped self.old ≡ None }
        ensures told { (all : List ℕ) (lent : List Segment) → Fed (R.remaining reader.old) all lent self.old →
            TellsNext (R.remaining reader.new) all lent (answered result self.new) self.new }
        ensures some { (lent : List Segment) → Came lent self.old →
            TellsSome lent (answered result self.new) self.new }
        ensures fewer { result ≡ Ok true → unread self.new < unread self.old }
        ensures flag { FaultHasCause result (R.failed reader.old) (R.failed reader.new) }
        ensures origin { R.origin reader.new ≡ R.origin reader.old }
        ensures bound { TakesOf
            (R.remaining reader.old) (R.remaining reader.new) self.old.room self.new.room }
        ensures ends { AtEnd (R.remaining reader.old) self.old → AtEnd (R.remaining reader.new) self.new }
        ensures going { OnOk result (stopped self.new ≡ None) }
    {
        loop {
            if self.take_piece()? {
                return Ok(true);
            }
            if !self.refill(reader)? {
                self.machine.finish()?;
                return Ok(false);
            }
        }
    }

    /// Reads to the end of the next segment, which is then lent. Whether there is one; none at the end of the text. After
    /// a fault it answers the same fault for good, and reads nothing more.
    pub fn advance<R: Source>(&mut self, reader: &mut R) -> Result<bool, TokenFault>
        ensures feeds { Feeds (R.remaining reader.old) (R.remaining reader.new)
            (R.failed reader.old) (R.failed reader.new)
            self.old (answered result self.new) self.new }
        ensures origin { R.origin reader.new ≡ R.origin reader.old }
        ensures fewer { result ≡ Ok true → unread self.new < unread self.old }
        ensures still { IfSome (stopped self.old) (λ _. reader.new ≡ reader.old) }
    {
        if let Tail::Failed(fault) = self.tail {
            return Err(fault);
        }
        let result = self.step(reader);
        if let Err(fault) = result {
            self.tail = Tail::Failed(fault);
        }
        result
    }

    /// Returns the segment that ended last.
    pub fn lent_segment(&self) -> SegmentRef<'_>
        ensures { segment_in result ≡ lent_by self.now }
    {
        self.machine.lent_segment()
    }

    /// Returns the service characters, known from the first segment on.
    pub fn service(&self) -> Option<Service>
        ensures { result ≡ known_service self.now }
    {
        if !self.machine.is_settled() {
            return None;
        }
        Some(self.machine.service.get())
    }

    /// Returns the decimal mark: a full stop, until a service string has said another.
    pub fn decimal(&self) -> u8
        ensures { result ≡ decimal_of self.now }
    {
        self.machine.service.get().decimal
    }

    /// Reads what is left of the text, whatever it is. Returns how many bytes fewer came than may be read: none, or the
    /// reader has ended. Fails only if the reader fails.
    pub fn skip_rest<R: Source>(self, reader: &mut R) -> Result<usize, ReadFailed>
        ensures away { ReadsAway (R.remaining reader.old) (R.remaining reader.new) self result }
        ensures kept { OnOk result (R.failed reader.new ≡ R.failed reader.old) }
        ensures failed { OnErr result (R.failed reader.new ≡ true) }
    {
        let Lender {
            machine: _,
            mut piece,
            tail: _,
            mut room,
            ended,
        } = self;
        if ended {
            return Ok(room);
        }
        while room > 0 {
            let count = skip_piece(&mut piece, reader, room)?;
            if count == 0 {
                return Ok(room);
            }
            room -= count;
        }
        Ok(room)
    }
}
