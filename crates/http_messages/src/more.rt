//! Reads once, after bytes that are there.

ghost use Rattle.std.specs.Prelude.{◌≡◌, ◌≤◌, ◌+◌, ◌-◌, ◌||◌, IfOk, OnErr, is_err, length, take};
ghost use Rattle.edi_base.specs.Source.{TakesPiece, TakesAtMost};

use edi_base::Source;
use std::io;

/// Reads once, after the first `filled` bytes. Returns how many bytes came: none only at the end of the source, or if
/// there is no room.
pub(crate) fn read_more<R: Source>(
    source: &mut R,
    bytes: &mut [u8],
    filled: usize,
) -> io::Result<usize>
    requires { filled ≤ length bytes.old }
    ensures taken { IfOk result (λ count. TakesPiece (R.remaining source.old) (R.remaining source.new)
        (take filled bytes.old) (take (filled + count) bytes.new) (length bytes.old - filled) count) }
    ensures none { OnErr result (TakesAtMost (R.remaining source.old) (R.remaining source.new) 0) }
    ensures flag { R.failed source.new ≡ (R.failed source.old || is_err result) }
{
    source.read(&mut bytes[filled..])
}
