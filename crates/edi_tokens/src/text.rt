//! Writes the canonical text of segments (ISO 9735, character sets and structures).

ghost use Rattle.std.specs.Prelude.{◌≡◌, ◌≤◌, ◌<◌, [], ◌++◌, length, take, IsTrue, OnOk, OnErr, IfOk, true, slice_index};
ghost use Rattle.std.specs.Io.KnownBytes.{Appends};
ghost use Rattle.edi_tokens.specs.Text.{is_usual, component_text, element_text, segment_text, text, una};
ghost use Rattle.edi_base.specs.Buffer.{Puts, Flags, AppendsFront};

use edi_base::{Buffer, Items, MemoryFault, OfWrite, Sink, WriteFault};
use edi_segments::{COMPONENT, ELEMENT, RELEASE, Segment, TERMINATOR, is_usual};
use std::alloc::{AllocError, Global};
use std::mem;

/// Counts the leading bytes that stand for themselves.
pub(crate) fn plain_len(bytes: &[u8]) -> usize
    ensures within { result ≤ length bytes.now }
    ensures plain { component_text (take result bytes.now) ≡ take result bytes.now }
    ensures stop { result < length bytes.now → is_usual (slice_index bytes.now result) ≡ true }
{
    for (index, byte) in bytes.iter().enumerate() {
        if is_usual(*byte) {
            return index;
        }
    }
    bytes.len()
}

fn put_component<W: Sink>(
    out: &mut W,
    buffer: &mut Buffer,
    component: &[u8],
) -> Result<(), WriteFault>
    ensures bytes { Puts result (W.contents out.old) (W.contents out.new) buffer.old buffer.new
        (component_text component.now) }
    ensures flag { Flags result (W.failed out.old) (W.failed out.new) }
{
    let mut rest = component;
    loop {
        let (plain, after) = rest.split_at(plain_len(rest));
        buffer.put(out, plain)?;
        let Some((byte, after)) = after.split_first() else {
            return Ok(());
        };
        buffer.put(out, &[RELEASE, *byte])?;
        rest = after;
    }
}

fn put_element<W: Sink>(
    out: &mut W,
    buffer: &mut Buffer,
    components: &[Items<u8>],
) -> Result<(), WriteFault>
    ensures bytes { Puts result (W.contents out.old) (W.contents out.new) buffer.old buffer.new
        (element_text components.now) }
    ensures flag { Flags result (W.failed out.old) (W.failed out.new) }
{
    buffer.put(out, &[ELEMENT])?;
    let Some((first, others)) = components.split_first() else {
        return Ok(());
    };
    put_component(out, buffer, first.as_slice())?;
    for component in others {
        buffer.put(out, &[COMPONENT])?;
        put_component(out, buffer, component.as_slice())?;
    }
    Ok(())
}

fn put_segment<W: Sink>(
    out: &mut W,
    buffer: &mut Buffer,
    segment: &Segment,
) -> Result<(), WriteFault>
    ensures bytes { Puts result (W.contents out.old) (W.contents out.new) buffer.old buffer.new
        (segment_text segment.now) }
    ensures flag { Flags result (W.failed out.old) (W.failed out.new) }
{
    buffer.put(out, &segment.tag)?;
    for components in segment.elements.as_slice() {
        put_element(out, buffer, components.as_slice())?;
    }
    buffer.put(out, &[TERMINATOR])
}

fn put_text<W: Sink>(
    out: &mut W,
    buffer: &mut Buffer,
    segments: &[Segment],
) -> Result<(), WriteFault>
    ensures bytes { Puts result (W.contents out.old) (W.contents out.new) buffer.old buffer.new
        (text segments.now) }
    ensures flag { Flags result (W.failed out.old) (W.failed out.new) }
{
    for segment in segments {
        put_segment(out, buffer, segment)?;
    }
    Ok(())
}

/// Writes a front and the text of segments after it.
fn put_all<W: Sink>(out: &mut W, front: &[u8], segments: &[Segment]) -> Result<(), WriteFault>
    ensures bytes { Puts result (W.contents out.old) (W.contents out.new) [] []
        (front.now ++ text segments.now) }
    ensures flag { Flags result (W.failed out.old) (W.failed out.new) }
{
    let mut buffer = Buffer::new();
    buffer.put(out, front)?;
    put_text(out, &mut buffer, segments)?;
    buffer.flush(out)
}

/// Returns the service string `UNA:+.? '`, with this decimal mark (ISO 9735, service string advice).
pub fn service_string(decimal: u8) -> [u8; 9]
    ensures { result ≡ una decimal }
{
    [
        b'U', b'N', b'A', COMPONENT, ELEMENT, decimal, RELEASE, b' ', TERMINATOR,
    ]
}

/// Writes the service string `UNA:+.? '`, with this decimal mark, and the canonical text of segments (ISO 9735,
/// character sets, service string advice and structures). It takes no memory. At `WriteFault` a prefix of the text was
/// written.
pub fn write_text<W: Sink>(segments: &[Segment], decimal: u8, out: &mut W) -> Result<(), WriteFault>
    ensures ok { OnOk result
        (Appends (W.contents out.old) (W.contents out.new) (una decimal ++ text segments.now)) }
    ensures err { OnErr result
        (AppendsFront (W.contents out.old) (W.contents out.new) (una decimal ++ text segments.now)) }

    // The fault comes only from the sink, and else the sink's flag stays.
    ensures kept { OnOk result (W.failed out.new ≡ W.failed out.old) }
    ensures failed { OnErr result (IsTrue (W.failed out.new)) }
{
    let service = service_string(decimal);
    put_all(out, &service, segments)
}

/// Appends the canonical text of segments, with no service string.
pub fn append_segments(out: &mut Vec<u8>, segments: &[Segment]) -> Result<(), MemoryFault>
    ensures ok { OnOk result (out.new.items ≡ out.old.items ++ text segments.now) }
    ensures err { OnErr result (out.new.items ≡ out.old.items) }
{
    let length = out.len();
    let empty = Vec::new(*out.allocator());
    let mut sink = OfWrite::new(mem::replace(out, empty));
    let result = put_all(&mut sink, &[], segments);
    *out = sink.into_inner();
    if result.is_err() {
        out.truncate(length);
        return Err(AllocError);
    }
    Ok(())
}

/// Returns the canonical text of segments, with no service string (ISO 9735, character sets and structures).
pub fn body_text(alloc: Global, segments: &[Segment]) -> Result<Vec<u8>, MemoryFault>
    ensures { IfOk result (λ text_of. text_of.items ≡ text segments.now) }
{
    let mut out = Vec::new(alloc);
    append_segments(&mut out, segments)?;
    Ok(out)
}
