//! Reads the body of a request.

ghost use Rattle.std.specs.Prelude.{◌≡◌, ◌≢◌, ◌≤◌, ◌-◌, ◌++◌, true, length, take, Err, IfOk, IfSome};
ghost use Rattle.edi_base.specs.Source.{TakesAtMost};
ghost use Rattle.http_messages.specs.Body.{body_in, Fills, TakesExactly};

use crate::more::read_more;
use edi_base::{Items, ReadFault, Source};
use std::alloc::{AllocError, Global};

// Reads after the first `filled` bytes until there is no room. Returns where what was read ends, which is before the
// end of the room only at the end of the source.
fn fill<R: Source>(source: &mut R, bytes: &mut [u8], filled: usize) -> Result<usize, ReadFault>
    requires { filled ≤ length bytes.old }
    ensures bytes { IfOk result (λ end. Fills (R.remaining source.old) (R.remaining source.new)
        (take filled bytes.old) (take end bytes.new) (length bytes.old - filled)) }
    ensures within { IfOk result (λ end. end ≤ length bytes.old) }
    ensures front { TakesAtMost (R.remaining source.old) (R.remaining source.new)
        (length bytes.old - filled) }
    ensures read { result ≡ Err ReadFault.Read → R.failed source.new ≡ true }
    ensures kept { result ≢ Err ReadFault.Read → R.failed source.new ≡ R.failed source.old }
    ensures no_memory { result ≢ Err ReadFault.Memory }
{
    let mut end = filled;
    while end < bytes.len() {
        let Ok(count) = read_more(source, bytes, end) else {
            return Err(ReadFault::Read);
        };
        if count == 0 {
            return Ok(end);
        }
        end += count;
    }
    Ok(end)
}

// Makes a vector of this many bytes that begins with the front; those after it are not yet read.
fn vector_with_front(alloc: Global, front: &[u8], size: usize) -> Result<Vec<u8>, AllocError>
    requires { length front.now ≤ size }
    ensures len { IfOk result (λ bytes. length bytes.items ≡ size) }
    ensures front { IfOk result (λ bytes. take (length front.now) bytes.items ≡ front.now) }
{
    let mut bytes = Vec::with_capacity(alloc, size)?;
    bytes.extend_from_slice(front)?;
    bytes.resize(size, 0)?;
    Ok(bytes)
}

/// Reads the body of `size` bytes whose front was read with the head, into one vector (RFC 9112, section 6.2). `None`
/// if the source ends before; then all that it had was read. Nothing is read after the body, and nothing at all if the
/// front has all of it. `ReadFault::Read` only if the source failed.
pub fn read_body<R: Source>(
    alloc: Global,
    source: &mut R,
    front: &[u8],
    size: usize,
) -> Result<Option<Items<u8>>, ReadFault>
    // The front, and what the source had left, begin with the body.
    ensures body { IfOk result (λ body. IfSome (R.remaining source.old) (λ left.
        body ≡ body_in size (front.now ++ left))) }

    // Whatever is answered, no more than the front lacks was taken from the source.
    ensures front { TakesAtMost (R.remaining source.old) (R.remaining source.new) (size - length front.now) }

    // Of a whole body exactly what the front lacks was, and without memory nothing.
    ensures whole { IfOk result (λ body. IfSome body (λ _. TakesExactly (R.remaining source.old)
        (R.remaining source.new) (size - length front.now))) }
    ensures memory { result ≡ Err ReadFault.Memory → R.remaining source.new ≡ R.remaining source.old }

    // A read fault comes only from the source, and else the source's flag stays.
    ensures read { result ≡ Err ReadFault.Read → R.failed source.new ≡ true }
    ensures kept { result ≢ Err ReadFault.Read → R.failed source.new ≡ R.failed source.old }
{
    let kept = &front[..size.min(front.len())];
    let mut bytes = vector_with_front(alloc, kept, size)?;
    let end = fill(source, &mut bytes, kept.len())?;
    if end < size {
        return Ok(None);
    }
    Ok(Some(Items::from_vec(bytes)))
}
