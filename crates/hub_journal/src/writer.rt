//! Wraps a writer and keeps the first bytes that are written.
ghost use Rattle.std.specs.Prelude.{◌≡◌, []};

use crate::front::Front;
use edi_base::Sink;
use std::io;

/// A writer that keeps the first bytes that it wrote. All else is as with the writer inside.
#[derive(Drop)]
pub struct RecordingWriter<W> {
    writer: W,
    front: Front,
}

impl<W> RecordingWriter<W> {
    /// Wraps a writer to which nothing was written yet.
    pub fn new(writer: W) -> Self
        ensures writer { result.writer ≡ writer }
        ensures front { result.front ≡ [] }
    {
        RecordingWriter {
            writer,
            front: Front::new(),
        }
    }

    /// Returns the first bytes that were written.
    pub fn front(&self) -> &[u8]
        ensures { result.now ≡ self.now.front }
    {
        self.front.as_slice()
    }

    /// Returns the writer.
    pub fn into_inner(self) -> W
        ensures { result ≡ self.writer }
    {
        let RecordingWriter { writer, front: _ } = self;
        writer
    }
}

impl<W: Sink> Sink for RecordingWriter<W> {
    ghost use Rattle.std.specs.Prelude.{◌≡◌, ◌||◌};
    ghost use Rattle.std.specs.Io.{WritesAtMost};
    ghost use Rattle.std.specs.Io.KnownBytes.{WriteAppends};
    ghost use Rattle.edi_base.specs.Sink.{write_failed};
    ghost use Rattle.hub_journal.specs.Recording.{passed};

    ghost contents = { λ w. W.contents w.writer };

    ghost failed = { λ w. W.failed w.writer };

    fn write(&mut self, bytes: &[u8]) -> io::Result<usize>
        ensures bound { WritesAtMost result bytes.now }
        ensures bytes { WriteAppends (W.contents self.old.writer) (W.contents self.new.writer) result bytes.now }
        ensures flag { W.failed self.new.writer ≡ (W.failed self.old.writer || write_failed result bytes.now) }
        ensures front { self.new.front ≡ passed self.old.front result bytes.now }
    {
        let RecordingWriter { writer, front } = self;
        let result = writer.write(bytes);
        if let Ok(count) = &result {
            front.keep(&bytes[..*count]);
        }
        result
    }
}
