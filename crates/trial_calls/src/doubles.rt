//! Simulates readers and writers that fail.

use edi_base::{OfWrite, WriteFault};
use std::alloc::Global;
use std::io;
use std::io::{Error, ErrorKind, Read, Write};

/// A reader that returns at most `size` bytes at a time, and is interrupted after `calls` calls.
#[derive(Drop)]
pub struct Pieces<'a> {
    pub left: &'a [u8],
    pub size: usize,
    pub calls: usize,
}

impl<'a> Read for Pieces<'a> {
    fn read(&mut self, buffer: &mut [u8]) -> io::Result<usize> {
        if self.calls == 0 {
            return Err(Error::from(ErrorKind::Interrupted));
        }
        self.calls -= 1;
        let count = self.left.len().min(self.size).min(buffer.len());
        let (piece, left) = self.left.split_at(count);
        buffer[..count].copy_from_slice(piece);
        self.left = left;
        Ok(count)
    }
}

/// A writer that accepts one byte at a time, and then fails, or accepts nothing.
#[derive(Drop)]
pub struct Dribble {
    written: Vec<u8>,
    room: usize,
    fails: bool,
}

impl Write for Dribble {
    fn write(&mut self, bytes: &[u8]) -> io::Result<usize> {
        if self.written.len() >= self.room {
            return if self.fails {
                Err(Error::from(ErrorKind::BrokenPipe))
            } else {
                Ok(0)
            };
        }
        let Some(byte) = bytes.first() else {
            return Ok(0);
        };
        self.written.push(*byte)?;
        Ok(1)
    }

    fn flush(&mut self) -> io::Result<()> {
        Ok(())
    }
}

/// Makes a writer with room for this many bytes, which then fails, or accepts nothing.
pub fn sink_with_room(alloc: Global, room: usize, fails: bool) -> OfWrite<Dribble> {
    OfWrite::new(Dribble {
        written: Vec::new(alloc),
        room,
        fails,
    })
}

/// Whether a sink accepted as much of a text as it has room for, and failed, like the write, exactly if that is not the
/// whole text.
pub fn took_front(
    wrote: Result<(), WriteFault>,
    sink: OfWrite<Dribble>,
    text: &[u8],
    room: usize,
) -> bool {
    let failed = sink.has_failed();
    let Dribble { written, .. } = sink.into_inner();
    let has_room = room >= text.len();
    let front = text.get(..room.min(text.len()));
    wrote.is_ok() == has_room && failed == !has_room && Some(written.as_slice()) == front
}
