//! Wraps a reader and keeps the first bytes that are read.
ghost use Rattle.std.specs.Prelude.{◌≡◌, [], false};
ghost use Rattle.std.specs.IoError.{error_kind};
ghost use Rattle.hub_journal.specs.Recording as spec;

use crate::front::Front;
use edi_base::Source;
use std::io;
use std::io::{Error, ErrorKind};

/// A reader that keeps the first bytes that it read, and whether its last failure was a timeout. All else is as with
/// the reader inside.
#[derive(Drop)]
pub struct RecordingReader<R> {
    reader: R,
    front: Front,
    timed_out: bool,
}

// Whether a call timed out, which a socket reports as `WouldBlock`.
fn is_timeout(error: &Error) -> bool
    ensures { result ≡ spec.is_timeout (error_kind error.now) }
{
    matches!(error.kind(), ErrorKind::TimedOut | ErrorKind::WouldBlock)
}

impl<R> RecordingReader<R> {
    /// Wraps a reader from which nothing was read yet.
    pub fn new(reader: R) -> Self
        ensures reader { result.reader ≡ reader }
        ensures front { result.front ≡ [] }
        ensures timed_out { result.timed_out ≡ false }
    {
        RecordingReader {
            reader,
            front: Front::new(),
            timed_out: false,
        }
    }

    /// Returns the first bytes that were read.
    pub fn front(&self) -> &[u8]
        ensures { result.now ≡ self.now.front }
    {
        self.front.as_slice()
    }

    /// Whether the last failed read timed out.
    pub fn has_timed_out(&self) -> bool
        ensures { result ≡ self.now.timed_out }
    {
        self.timed_out
    }

    /// Returns the reader.
    pub fn into_inner(self) -> R
        ensures { result ≡ self.reader }
    {
        let RecordingReader {
            reader,
            front: _,
            timed_out: _,
        } = self;
        reader
    }
}

impl<R: Source> Source for RecordingReader<R> {
    ghost use Rattle.std.specs.Prelude.{◌≡◌, ◌||◌, is_err};
    ghost use Rattle.std.specs.Io.{ReadsAtMost};
    ghost use Rattle.std.specs.Io.KnownBytes.{ReadConsumes};
    ghost use Rattle.hub_journal.specs.Recording.{passed, timed_out as has_timed_out};

    ghost remaining = { λ r. R.remaining r.reader };

    ghost failed = { λ r. R.failed r.reader };

    ghost origin = { λ r. R.origin r.reader };

    fn read(&mut self, buffer: &mut [u8]) -> io::Result<usize>
        ensures bound { ReadsAtMost result buffer.new }
        ensures bytes { ReadConsumes (R.remaining self.old.reader) (R.remaining self.new.reader) result buffer.new }
        ensures flag { R.failed self.new.reader ≡ (R.failed self.old.reader || is_err result) }
        ensures origin { R.origin self.new.reader ≡ R.origin self.old.reader }
        ensures front { self.new.front ≡ passed self.old.front result buffer.new }
        ensures timed_out { self.new.timed_out ≡ has_timed_out self.old.timed_out result }
    {
        let RecordingReader {
            reader,
            front,
            timed_out,
        } = self;
        let result = reader.read(buffer);
        match &result {
            Ok(count) => front.keep(&buffer[..*count]),
            Err(error) => *timed_out = is_timeout(error),
        }
        result
    }
}
