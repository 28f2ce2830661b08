//! Collects bytes that are written together.

ghost use Rattle.std.specs.Prelude.{◌≡◌, ◌+◌, ◌≤◌, [], ◌++◌, length, OnOk, OnErr};
ghost use Rattle.edi_base.specs.Buffer.{Puts, Flags, WaitsAfterFault};

use crate::sink::{Sink, WriteFault};
use std::marker::Model;

/// The most bytes that wait.
const ROOM: usize = 1024;

/// Bytes that wait to be written together, at most 1,024. Contracts see them as a list. No memory is allocated. Bytes
/// are written in the order in which they are put, and those that still wait are lost unless `flush` is called.
#[derive(Drop)]
pub struct Buffer {
    bytes: [u8; ROOM],
    filled: usize,
}

impl Model for Buffer {
    ghost use Rattle.std.specs.Prelude.{ℕ, List, take, ◌≤◌};

    ghost Value = { List ℕ };

    ghost view = { λ b. take b.filled b.bytes };

    ghost invariant = { λ b. b.filled ≤ 1024 };
}

/// Writes all of the bytes.
pub(crate) fn write_whole<W: Sink>(out: &mut W, bytes: &[u8]) -> Result<(), WriteFault>
    ensures bytes { Puts result (W.contents out.old) (W.contents out.new) [] [] bytes.now }
    ensures flag { Flags result (W.failed out.old) (W.failed out.new) }
{
    let mut rest = bytes;
    while !rest.is_empty() {
        let Ok(count) = out.write(rest) else {
            return Err(WriteFault);
        };
        if count == 0 {
            return Err(WriteFault);
        }
        let (_, after) = rest.split_at(count);
        rest = after;
    }
    Ok(())
}

impl Buffer {
    /// Makes an empty buffer.
    pub fn new() -> Self
        ensures { result ≡ [] }
    {
        Buffer {
            bytes: [0; ROOM],
            filled: 0,
        }
    }

    /// Writes the bytes that wait. At `WriteFault` a prefix of them was written, and all of them still wait.
    pub fn flush<W: Sink>(&mut self, out: &mut W) -> Result<(), WriteFault>
        ensures bytes { Puts result (W.contents out.old) (W.contents out.new) self.old [] [] }
        ensures flag { Flags result (W.failed out.old) (W.failed out.new) }
        ensures empty { OnOk result (self.new ≡ []) }
        ensures waits { OnErr result (self.new ≡ self.old) }
    {
        write_whole(out, &self.bytes[..self.filled])?;
        self.filled = 0;
        Ok(())
    }

    /// Adds bytes after those that wait, writing those for which there is no room. At `WriteFault` a prefix of the
    /// waiting bytes and these was written. If the waiting bytes were not all written, they all still wait; otherwise
    /// nothing waits.
    pub fn put<W: Sink>(&mut self, out: &mut W, bytes: &[u8]) -> Result<(), WriteFault>
        ensures bytes { Puts result (W.contents out.old) (W.contents out.new) self.old self.new bytes.now }
        ensures flag { Flags result (W.failed out.old) (W.failed out.new) }
        ensures waits { OnErr result (WaitsAfterFault (W.contents out.old) (W.contents out.new) self.old self.new bytes.now) }
    {
        if bytes.len() > ROOM - self.filled {
            self.flush(out)?;
            if bytes.len() > ROOM {
                return write_whole(out, bytes);
            }
        }
        self.append(bytes);
        Ok(())
    }

    fn append(&mut self, bytes: &[u8])
        requires { length self.old + length bytes.now ≤ 1024 }
        ensures { self.new ≡ self.old ++ bytes.now }
    {
        let end = self.filled + bytes.len();
        self.bytes[self.filled..end].copy_from_slice(bytes);
        self.filled = end;
    }
}
