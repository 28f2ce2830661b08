//! Tests interchanges that are opened while their bytes arrive.
use crate::call_fault::{CallFault, right};
use crate::doubles::Pieces;
use crate::tokens::ORDERS;
use edi_base::OfRead;
use edi_envelope::open_feed;
use edi_tokens::Feeder;
use std::alloc::{AllocError, Global};

// A text, the number of its messages, and the code of its fault.
type Row = (&'static [u8], usize, &'static str);

// A function of its own, to keep the contract of the call out of the comparisons. Returns the number of messages, or
// the code of the fault.
fn opened(alloc: Global, feeder: &mut Feeder<OfRead<Pieces>>) -> (usize, &'static str) {
    match open_feed(alloc, feeder) {
        Ok(interchange) => (interchange.messages.len(), ""),
        Err(fault) => (0, fault.code()),
    }
}

/// Returns how many messages a text has, or the code of its fault; and whether the reader has failed.
fn fed(alloc: Global, pieces: Pieces) -> Result<(usize, &'static str, bool), AllocError> {
    let Ok(mut feeder) = Feeder::new(alloc, OfRead::new(pieces)) else {
        return Err(AllocError);
    };
    let (messages, code) = opened(alloc, &mut feeder);
    Ok((messages, code, feeder.into_reader().has_failed()))
}

// Whether a text in pieces has this many messages or this fault, and its reader has failed exactly if the fault is
// `read`.
fn is_fed(alloc: Global, row: &Row, size: usize, calls: usize) -> Result<bool, AllocError> {
    let (left, messages, code) = *row;
    let (count, fault, failed) = fed(alloc, Pieces { left, size, calls })?;
    if fault == "memory" {
        return Err(AllocError);
    }
    Ok(count == messages && fault == code && failed == (code == "read"))
}

static TEXTS: [Row; 9] = [
    (ORDERS, 1, ""),
    (
        b"UNA*|,! ~UNB|UNOC*3|5412345000013*14|5412345000006*14|250603*0915|1001~\r\nUNH|1|ORDERS*D*01B*UN~\
            \r\nUNT|2|1~\r\nUNH|2|DESADV*D*01B*UN~\r\nUNT|2|2~\r\nUNZ|2|1001~\r\n",
        2,
        "",
    ),
    (b"", 0, "E06"),
    (b"UNA:+.?", 0, "E02"),
    (
        b"UNB+UNOC:3+5412345000013:14+5412345000006:14+250603:0915+1001'UNH+1+ORDERS:D:01B:UN'UNT+3+1'UNZ+1+1001'",
        0,
        "E12",
    ),
    (
        b"UNB+UNOC:3+5412345000013:14+5412345000006:14+250603:0915+1001'UNH+1+ORDERS:D:01B:UN'UNT+2+1'\
            UNH+2+ORDERS:D:01B:UN'UNT+2+2'UNH+1+ORDERS:D:01B:UN'UNT+2+1'UNZ+3+1001'",
        0,
        "E16",
    ),
    (
        b"UNB+UNOC:3+5412345000013:14+5412345000006:14+250603:0915+1001'BGM+220'UNZ+0+1001'",
        0,
        "E10",
    ),
    // A fault of the text after one of the envelope.
    (
        b"UNB+UNOC:3+5412345000013:14+5412345000006:14+250603:0915+1001'BGM+220'UNZ+0+1001'a",
        0,
        "E05",
    ),
    (
        b"UNB+UNOC:3+5412345000013:14+5412345000006:14+250603:0915+1001'UNH+1+ORDERS:D:01B:UN'UNT+3+1'UNZ+1+1001",
        0,
        "E04",
    ),
];

static SIZES: [usize; 4] = [1, 2, 7, 8192];

/// Pieces of any size are opened alike.
pub fn pieces(alloc: Global) -> Result<(), CallFault> {
    for row in &TEXTS {
        for size in &SIZES {
            right(is_fed(alloc, row, *size, usize::MAX)?)?;
        }
    }
    Ok(())
}

// 37 calls read 255 bytes, and one more reads their end.
const ENOUGH_CALLS: usize = 38;

/// Each failed read is answered.
pub fn failed_reads(alloc: Global) -> Result<(), CallFault> {
    for calls in 0..ENOUGH_CALLS {
        right(is_fed(alloc, &(ORDERS, 0, "read"), 7, calls)?)?;
    }
    right(is_fed(alloc, &TEXTS[0], 7, ENOUGH_CALLS)?)
}
