//! Tests segments that are read and written.
use crate::call_fault::{CallFault, right};
use crate::doubles::{Dribble, sink_with_room, took_front};
use edi_base::{OfWrite, WriteFault};
use edi_tokens::{Segment, Tokens, body_text, read_all, write_text};
use std::alloc::{AllocError, Global};

/// An order in an interchange of 255 bytes.
pub const ORDERS: &[u8] =
    b"UNA:+.? 'UNB+UNOC:3+5412345000013:14+5412345000006:14+250603:0915+1001'UNH+1+ORDERS:D:01B:UN:EAN010'\
        BGM+220+128576+9'DTM+137:20250603:102'NAD+BY+5412345000013::9'NAD+SU+4012345500004::9'\
        LIN+1++4000862141404:SRV'QTY+21:48'UNS+S'CNT+2:1'UNT+10+1'UNZ+1+1001'";

// The order without its service string.
const BEHIND_UNA: &[u8] =
    b"UNB+UNOC:3+5412345000013:14+5412345000006:14+250603:0915+1001'UNH+1+ORDERS:D:01B:UN:EAN010'BGM+220+128576+9'\
        DTM+137:20250603:102'NAD+BY+5412345000013::9'NAD+SU+4012345500004::9'LIN+1++4000862141404:SRV'QTY+21:48'\
        UNS+S'CNT+2:1'UNT+10+1'UNZ+1+1001'";

const OTHER_SEPARATORS: &[u8] =
    b"UNA*|,! ~UNB|UNOC*3|5412345000013*14|5412345000006*14|250603*0915|1001~\r\nUNH|1|ORDERS*D*01B*UN*EAN010~\
        \r\nBGM|220|128576|9~\r\nDTM|137*20250603*102~\r\nNAD|BY|5412345000013**9~\r\nNAD|SU|4012345500004**9~\
        \r\nLIN|1||4000862141404*SRV~\r\nQTY|21*48~\r\nUNS|S~\r\nCNT|2*1~\r\nUNT|10|1~\r\nUNZ|1|1001~\r\n";

// Texts, and the canonical text that each is read as.
static CANONICAL: [(&[u8], &[u8]); 14] = [
    (ORDERS, BEHIND_UNA),
    (OTHER_SEPARATORS, BEHIND_UNA),
    (b"", b""),
    (b"\r\n\n", b""),
    (b"UNA:+.? '", b""),
    (b"\nUNA:+.? '\r\nUNS+S'\r\n", b"UNS+S'"),
    (b"UNA:+.? 'UNA+1'", b"UNA+1'"),
    (b"UNS'UNA+1'", b"UNS'UNA+1'"),
    // a tag alone, and empty elements and components at the end and elsewhere
    (b"UNS'UNS+'UNS+:'UNS++'", b"UNS'UNS'UNS'UNS'"),
    (b"QTY+21:48:+'", b"QTY+21:48'"),
    (b"NAD+:SU:::9:::+'ABC++:+D'", b"NAD+:SU:::9'ABC+++D'"),
    // the release character, also before a byte that does not need it, and where it is missing
    (b"FTX+?+?:?'??a?b'", b"FTX+?+?:?'??ab'"),
    (
        b"UNA*|,! ~FTX|Dock 3+4, O'Neill?!~!!~",
        b"FTX+Dock 3?+4, O?'Neill??~!'",
    ),
    (b"UNA:+.  'FTX+A?:B\xA0\xFF'", b"FTX+A??:B\xA0\xFF'"),
];

// A function of its own, as for each call, to keep its contract out of the tests.
pub fn tokens(alloc: Global, text: &[u8]) -> Result<Tokens, CallFault> {
    Ok(read_all(alloc, text)?)
}

pub fn has_body(alloc: Global, segments: &[Segment], body: &[u8]) -> Result<bool, CallFault> {
    Ok(body_text(alloc, segments)?.as_slice() == body)
}

/// Whether a text is read as segments that have this canonical text.
fn is_read_as(alloc: Global, text: &[u8], canonical: &[u8]) -> Result<bool, CallFault> {
    let tokens = tokens(alloc, text)?;
    has_body(alloc, tokens.segments.as_slice(), canonical)
}

/// Each text gives its canonical text.
pub fn canonical(alloc: Global) -> Result<(), CallFault> {
    for (text, canonical) in &CANONICAL {
        right(is_read_as(alloc, text, canonical)?)?;
    }
    Ok(())
}

// A function of its own, to keep the contract of the call out of the tests.
fn write(segments: &[Segment], decimal: u8, sink: &mut OfWrite<Dribble>) -> Result<(), WriteFault> {
    write_text(segments, decimal, sink)
}

// Whether a writer with this much room gets as much of a text as it has room for, when its segments are written with
// this decimal mark.
fn is_front_written(
    alloc: Global,
    segments: &[Segment],
    decimal: u8,
    text: &[u8],
    room: usize,
    fails: bool,
) -> bool {
    let mut sink = sink_with_room(alloc, room, fails);
    let wrote = write(segments, decimal, &mut sink);
    took_front(wrote, sink, text, room)
}

static ROOMS: [usize; 9] = [0, 1, 8, 9, 10, 100, 254, 255, 256];

/// A failed write leaves a front of the text.
pub fn failed_writes(alloc: Global) -> Result<(), CallFault> {
    let tokens = tokens(alloc, ORDERS)?;
    let segments = tokens.segments.as_slice();
    for room in &ROOMS {
        right(is_front_written(alloc, segments, b'.', ORDERS, *room, true))?;
        right(is_front_written(alloc, segments, b'.', ORDERS, *room, false))?;
    }
    Ok(())
}

const WITH_COMMA: &[u8] = b"UNA:+,? '";

/// Makes a text of a beginning, a segment of 8,000 bytes, and nine orders.
fn long_text(alloc: Global, front: &[u8]) -> Result<Vec<u8>, AllocError> {
    let mut text = Vec::from_slice(alloc, front)?;
    let length = text.len().saturating_add(7999);
    text.extend_from_slice(b"FTX+?+")?;
    text.resize(length, b'a')?;
    text.push(b'\'')?;
    for _ in 0..9u8 {
        text.extend_from_slice(BEHIND_UNA)?;
    }
    Ok(text)
}

/// A text that is longer than what waits is written whole.
pub fn long(alloc: Global) -> Result<(), CallFault> {
    let want = long_text(alloc, WITH_COMMA)?;
    let text = long_text(alloc, b"\r\n")?;
    let tokens = tokens(alloc, &text)?;
    let segments = tokens.segments.as_slice();
    right(is_front_written(alloc, segments, b',', &want, usize::MAX, false))
}
