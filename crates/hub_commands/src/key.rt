//! Reads a key from a file: the first line, without its line end.

ghost use Rattle.std.specs.Prelude.{◌≡◌, ◌≢◌, Err, true, IfOk, IfSome};
ghost use Rattle.edi_base.specs.Source.{TakesAtMost};
ghost use Rattle.hub_commands.specs.Key as spec;

use edi_base::{ReadFault, Source, read_to_limit};
use std::alloc::Global;

// How many bytes of a line are kept: one more than a key may have.
const LINE_LIMIT: usize = 65;

// How many bytes of a file are read: one more, which shows whether a carriage return ends the line.
const KEY_READ_LIMIT: usize = 66;

// Whether a line end comes next, a line feed or a carriage return before one.
fn at_line_end(rest: &[u8]) -> bool
    ensures { result ≡ spec.at_line_end rest.now }
{
    match rest {
        [b'\n', ..] => true,
        [b'\r', b'\n', ..] => true,
        _ => false,
    }
}

/// Returns the key in the bytes of a file: what comes before the first line end (LF or CR LF), or all if there is none.
/// Of a longer line it is the first 65 bytes, which are not a key either.
pub fn key_in(bytes: &[u8]) -> &[u8]
    ensures { result.now ≡ spec.key_in bytes.now }
{
    let mut end = 0;
    while end < bytes.len() && end < LINE_LIMIT && !at_line_end(&bytes[end..]) {
        end += 1;
    }
    &bytes[..end]
}

/// Reads the key of a file from a source, of which it takes at most 66 bytes: its first line, without the line end. Of a
/// line that is longer than a key may be it returns the first 65 bytes, so it is denied like any wrong key.
pub fn read_key<R: Source>(alloc: Global, input: &mut R) -> Result<Vec<u8>, ReadFault>
    ensures taken { TakesAtMost (R.remaining input.old) (R.remaining input.new) spec.key_read_limit }
    ensures key { IfOk result (λ key. IfSome (R.remaining input.old) (λ bytes. key.items ≡ spec.key_in bytes)) }
    ensures read { result ≡ Err ReadFault.Read → R.failed input.new ≡ true }
    ensures kept { result ≢ Err ReadFault.Read → R.failed input.new ≡ R.failed input.old }
{
    let bytes = read_to_limit(alloc, input, KEY_READ_LIMIT)?;
    Ok(Vec::from_slice(alloc, key_in(bytes.as_slice()))?)
}
