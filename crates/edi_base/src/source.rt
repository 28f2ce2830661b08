//! Defines what text is read from.

ghost use Rattle.std.specs.Prelude.{◌≡◌, ◌≢◌, ◌≤◌, ◌||◌, ℕ, Bool, true, List, take, Option, None, Err, is_err, IfOk, IfSome, length};
ghost use Rattle.std.specs.Prelude.{vec_len};
ghost use Rattle.std.specs.Io.{ReadsAtMost};
ghost use Rattle.std.specs.Io.KnownBytes.{ReadConsumes, Consumes};
ghost use Rattle.edi_base.specs.Source.{TakesPiece, TakesAtMost};
ghost use Rattle.edi_base.specs.declared.source.ReadFault.TheVariants.{Memory};

use std::alloc::{AllocError, Global};
use std::error::Error;
use std::io::Read;
use std::marker::Model;
use std::{fmt, io};

/// A reader that knows whether a read failed.
pub trait Source {
    // The bytes that later reads will return, if they are known.
    ghost remaining: { Self → Option (List ℕ) } = { λ _. None };

    // Whether a read has returned an error so far.
    ghost failed: { Self → Bool };

    // Which source it is, if sources must be distinguished. It stays the same, whatever is read.
    ghost origin: { Self → ℕ } = { λ _. 0 };

    /// Reads the next bytes into the front of the buffer, and returns how many. Returns 0 only at the end, or if the
    /// buffer has no room.
    fn read(&mut self, buffer: &mut [u8]) -> io::Result<usize>
        ensures bound { ReadsAtMost result buffer.new }
        ensures bytes { ReadConsumes (remaining self.old) (remaining self.new) result buffer.new }
        ensures flag { failed self.new ≡ (failed self.old || is_err result) }
        ensures origin { origin self.new ≡ origin self.old };
}

/// A reader of std, which notes whether a read has returned an error so far.
#[derive(Debug, Drop)]
pub struct OfRead<R> {
    reader: R,
    failed: bool,
}

impl<R> Model for OfRead<R> {
    ghost use Rattle.std.specs.Prelude.{Bool};

    ghost Value = { R × Bool };

    ghost view = { λ r. (r.reader, r.failed) };
}

impl<R> OfRead<R> {
    ghost use Rattle.std.specs.Prelude.{false};

    /// Wraps a reader of which no read has returned an error.
    pub fn new(reader: R) -> Self
        ensures { result ≡ (reader, false) }
    {
        OfRead {
            reader,
            failed: false,
        }
    }

    pub fn into_inner(self) -> R
        ensures { result ≡ self.0 }
    {
        let OfRead { reader, failed: _ } = self;
        reader
    }

    /// Whether a read has returned an error so far.
    pub fn has_failed(&self) -> bool
        ensures { result ≡ self.now.1 }
    {
        self.failed
    }
}

impl<R: Read> Source for OfRead<R> {
    ghost remaining = { λ r. R.remaining r.0 };

    ghost failed = { λ r. r.1 };

    fn read(&mut self, buffer: &mut [u8]) -> io::Result<usize> {
        let OfRead { reader, failed } = self;
        let result = reader.read(buffer);
        *failed = *failed || result.is_err();
        result
    }
}

/// Why the bytes of a source could not be read.
#[derive(Clone, Copy, Debug, PartialEq, Eq, Hash)]
pub enum ReadFault {
    /// The source returned an error.
    Read,
    /// Memory ran out.
    Memory,
}

impl fmt::Display for ReadFault {
    ghost use Rattle.std.specs.Prelude.{Some};
    ghost use Rattle.edi_base.specs.Source.{read_fault_text};

    ghost output = { λ fault. Some (read_fault_text fault) };

    fn fmt<W: fmt::Write>(&self, f: &mut fmt::Formatter<W>) -> fmt::Result {
        match self {
            ReadFault::Read => f.write_str("read"),
            ReadFault::Memory => f.write_str("memory"),
        }
    }
}

impl Error for ReadFault {}

impl From<AllocError> for ReadFault {
    ghost from_gives = { λ _ fault. fault ≡ Memory };

    fn from(_refused: AllocError) -> ReadFault {
        ReadFault::Memory
    }
}

/// The most bytes that one read asks for.
const PIECE: usize = 65_536;

/// Reads once, and appends the result to what was read before.
fn read_piece<R: Source>(
    source: &mut R,
    piece: &mut [u8],
    read: &mut Vec<u8>,
) -> Result<usize, ReadFault>
    ensures front { TakesAtMost (R.remaining source.old) (R.remaining source.new) (length piece.old) }
    ensures taken { IfOk result (TakesPiece (R.remaining source.old)
        (R.remaining source.new) read.old.items read.new.items (length piece.old)) }
    ensures read { result ≡ Err ReadFault.Read → R.failed source.new ≡ true }
    ensures kept { result ≢ Err ReadFault.Read → R.failed source.new ≡ R.failed source.old }
{
    let Ok(count) = source.read(piece) else {
        return Err(ReadFault::Read);
    };
    read.extend_from_slice(&piece[..count])?;
    Ok(count)
}

/// Reads a source to its end, but at most `limit` bytes.
pub fn read_to_limit<R: Source>(
    alloc: Global,
    source: &mut R,
    limit: usize,
) -> Result<Vec<u8>, ReadFault>
    // Exactly the source's bytes are read, up to its end or the limit.
    ensures bytes { IfOk result (λ read. Consumes (R.remaining source.old) (R.remaining source.new) read.items) }
    ensures whole { IfOk result (λ read. IfSome (R.remaining source.old) (λ known. read.items ≡ take limit known)) }
    ensures limit { IfOk result (λ read. vec_len read ≤ limit) }

    // Whatever the result, no more than the limit was taken from the source.
    ensures front { TakesAtMost (R.remaining source.old) (R.remaining source.new) limit }

    // A read fault comes only from the source; otherwise the source's flag stays as it is.
    ensures read { result ≡ Err ReadFault.Read → R.failed source.new ≡ true }
    ensures kept { result ≢ Err ReadFault.Read → R.failed source.new ≡ R.failed source.old }
{
    let mut read = Vec::new(alloc);
    let mut piece = Vec::from_elem(alloc, 0u8, PIECE.min(limit))?;
    while read.len() < limit {
        let room = (limit - read.len()).min(piece.len());
        let count = read_piece(source, &mut piece[..room], &mut read)?;
        if count == 0 {
            return Ok(read);
        }
    }
    Ok(read)
}
