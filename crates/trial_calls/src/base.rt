//! Tests bytes that are read and written.
use crate::call_fault::{CallFault, right};
use crate::doubles::{Dribble, Pieces, sink_with_room, took_front};
use edi_base::{
    Buffer, OfRead, OfWrite, ReadFault, Source, WriteFault, read_to_limit, write_bytes,
};
use std::alloc::{AllocError, Global};

/// Returns `size` bytes, of which no two neighbours are equal.
fn bytes_of(alloc: Global, size: usize) -> Result<Vec<u8>, AllocError> {
    let mut bytes = Vec::new(alloc);
    for index in 0..size {
        bytes.push((index % 251) as u8)?;
    }
    Ok(bytes)
}

/// A function of its own, to keep the contract of the call out of the tests.
fn put(buffer: &mut Buffer, bytes: &[u8], out: &mut OfWrite<Dribble>) -> Result<(), WriteFault> {
    buffer.put(out, bytes)
}

static SIZES: [usize; 9] = [0, 1, 1000, 23, 1, 1024, 1025, 600, 500];

/// Puts bytes into a buffer in pieces of these sizes, and writes what still waits at the end.
fn put_pieces(bytes: &[u8], out: &mut OfWrite<Dribble>) -> Result<(), WriteFault> {
    let mut buffer = Buffer::new();
    let mut rest = bytes;
    for size in &SIZES {
        let (piece, after) = rest.split_at((*size).min(rest.len()));
        put(&mut buffer, piece, out)?;
        rest = after;
    }
    put(&mut buffer, rest, out)?;
    buffer.flush(out)
}

// A function of its own, to keep the contract of the call out of the tests.
fn write(bytes: &[u8], out: &mut OfWrite<Dribble>) -> Result<(), WriteFault> {
    write_bytes(bytes, out)
}

// Writes bytes at once or in pieces.
fn is_front_written(alloc: Global, bytes: &[u8], room: usize, fails: bool, pieces: bool) -> bool {
    let mut sink = sink_with_room(alloc, room, fails);
    let wrote = if pieces {
        put_pieces(bytes, &mut sink)
    } else {
        write(bytes, &mut sink)
    };
    took_front(wrote, sink, bytes, room)
}

static ROOMS: [usize; 8] = [0, 1, 1023, 1024, 1025, 4999, 5000, 5001];

// Whether the writer fails, or accepts nothing; and whether it gets pieces.
static WAYS: [(bool, bool); 4] = [(true, false), (false, false), (true, true), (false, true)];

/// A failed write leaves a front of the bytes.
pub fn failed_writes(alloc: Global) -> Result<(), CallFault> {
    let bytes = bytes_of(alloc, 5000)?;
    for room in &ROOMS {
        for (fails, pieces) in &WAYS {
            right(is_front_written(alloc, &bytes, *room, *fails, *pieces))?;
        }
    }
    Ok(())
}

// A function of its own, to keep the contract of the call out of the tests.
fn read_front(
    alloc: Global,
    source: &mut OfRead<Pieces<'_>>,
    limit: usize,
) -> Result<Vec<u8>, ReadFault> {
    read_to_limit(alloc, source, limit)
}

// How many bytes there are, the limit, and how many are read.
type Limit = (usize, usize, usize);

// Whether the bytes up to the limit are read, and the rest is left.
fn is_front_read(alloc: Global, long: &[u8], row: &Limit) -> Result<bool, ReadFault> {
    let (given, limit, size) = *row;
    let known = long.get(..given).unwrap_or_default();
    let mut source = OfRead::new(Pieces {
        left: known,
        size: usize::MAX,
        calls: usize::MAX,
    });
    let read = read_front(alloc, &mut source, limit)?;
    let is_front = !source.has_failed() && known.get(..size) == Some(read.as_slice());
    Ok(is_front && known.get(size..) == Some(source.into_inner().left))
}

static LIMITS: [Limit; 7] = [
    (255, 0, 0),
    (255, 1, 1),
    (255, 254, 254),
    (255, 255, 255),
    (255, 256, 255),
    (255, 1_048_577, 255),
    (200_000, 150_000, 150_000),
];

/// A source is read to its end or to the limit.
pub fn limits(alloc: Global) -> Result<(), CallFault> {
    let long = bytes_of(alloc, 200_000)?;
    for row in &LIMITS {
        right(is_front_read(alloc, &long, row)?)?;
    }
    Ok(())
}

/// A failed read is answered.
pub fn failed_read(alloc: Global) -> Result<(), CallFault> {
    let mut source = OfRead::new(Pieces {
        left: b"aaaa",
        size: 1,
        calls: 3,
    });
    let read = read_front(alloc, &mut source, 2)?;
    right(read.as_slice() == b"aa".as_slice() && !source.has_failed())?;
    match read_front(alloc, &mut source, 2) {
        Err(ReadFault::Memory) => Err(CallFault::Memory),
        again => right(again == Err(ReadFault::Read) && source.has_failed()),
    }
}
