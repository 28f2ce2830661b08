//! Keeps the bytes that were read last, and how far they are taken.

ghost use Rattle.std.specs.Prelude.{◌≡◌, ◌≤◌, ◌<◌, ◌||◌, ◌-◌, ℕ, List, [], length, take, drop, IfOk, is_err, vec_len};
ghost use Rattle.edi_tokens.specs.Piece.{FillsPiece, ReadsPiece};

use edi_base::{MemoryFault, Source};
use std::alloc::Global;
use std::marker::Model;

/// How many bytes are asked for at once.
const PIECE: usize = 8192;

/// Bytes that were read and are not taken. Contracts see them as a list.
#[derive(Drop)]
pub(crate) struct Piece {
    bytes: Vec<u8>,
    from: usize,
    end: usize,
}

/// A reader answered an error.
#[derive(Clone, Copy, Debug, PartialEq, Eq)]
pub struct ReadFailed;

/// Reads once into the front, and at most this many bytes.
fn read_front<R: Source>(reader: &mut R, bytes: &mut [u8], room: usize) -> Result<usize, ReadFailed>
    ensures bytes { ReadsPiece (R.remaining reader.old) (R.remaining reader.new) result bytes.new room }
    ensures flag { R.failed reader.new ≡ (R.failed reader.old || is_err result) }
    ensures origin { R.origin reader.new ≡ R.origin reader.old }
{
    let most = room.min(bytes.len());
    let Ok(count) = reader.read(&mut bytes[..most]) else {
        return Err(ReadFailed);
    };
    Ok(count)
}

/// Returns a buffer for 8,192 bytes at least that begins with these.
fn buffer_with(alloc: Global, front: &[u8]) -> Result<Vec<u8>, MemoryFault>
    ensures some { IfOk result (λ bytes. 0 < vec_len bytes) }
    ensures long { IfOk result (λ bytes. length front.now ≤ vec_len bytes) }
    ensures front { IfOk result (λ bytes. take (length front.now) bytes.items ≡ front.now) }
{
    let size = PIECE.max(front.len());
    let mut bytes = Vec::with_capacity(alloc, size)?;
    bytes.extend_from_slice(front)?;
    bytes.resize(size, 0)?;
    Ok(bytes)
}

impl Model for Piece {
    ghost use Rattle.std.specs.Prelude.{ℕ, List, ◌<◌, ◌≤◌, vec_len, slice_range};

    ghost Value = { List ℕ };

    ghost view = { λ p. slice_range p.bytes.items p.from p.end };

    ghost invariant = { λ p. (p.from ≤ p.end) × (p.end ≤ vec_len p.bytes) × (0 < vec_len p.bytes) };
}

impl Piece {
    /// These bytes.
    pub(crate) fn of(alloc: Global, front: &[u8]) -> Result<Self, MemoryFault>
        ensures { IfOk result (λ piece. piece ≡ front.now) }
    {
        Ok(Piece {
            bytes: buffer_with(alloc, front)?,
            from: 0,
            end: front.len(),
        })
    }

    pub(crate) fn as_slice(&self) -> &[u8]
        ensures { result.now ≡ self.now }
    {
        &self.bytes[self.from..self.end]
    }

    /// Takes bytes from the front.
    pub(crate) fn skip(&mut self, count: usize)
        requires { count ≤ length self.old }
        ensures { self.new ≡ drop count self.old }
    {
        self.from += count;
    }

    /// Takes all bytes.
    pub(crate) fn clear(&mut self)
        ensures { self.new ≡ [] }
    {
        self.from = 0;
        self.end = 0;
    }

    /// Takes the last byte.
    pub(crate) fn drop_last(&mut self)
        requires { 0 < length self.old }
        ensures { self.new ≡ take (length self.old - 1) self.old }
    {
        self.end -= 1;
    }

    /// Reads once, and at most this many bytes, in place of those before.
    pub(crate) fn fill<R: Source>(
        &mut self,
        reader: &mut R,
        room: usize,
    ) -> Result<usize, ReadFailed>
        ensures bytes { FillsPiece (R.remaining reader.old) (R.remaining reader.new) result self.new room }
        ensures flag { R.failed reader.new ≡ (R.failed reader.old || is_err result) }
        ensures origin { R.origin reader.new ≡ R.origin reader.old }
    {
        self.from = 0;
        self.end = 0;
        let count = read_front(reader, self.bytes.as_mut_slice(), room)?;
        self.end = count;
        Ok(count)
    }
}
