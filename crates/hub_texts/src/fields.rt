//! Writes the fields of a line.
ghost use Rattle.std.specs.Prelude.{◌≡◌, ◌≤◌, ◌++◌, ◌∷◌, [], length, take, OnOk};
ghost use Rattle.std.specs.Fmt.{decimal};
ghost use Rattle.hub_law.specs.Widths.{blanks, left, line, right};

use edi_base::MemoryFault;
use itoa::write_digits;

/// Blanks to copy, and to write digits into.
const BLANKS: [u8; 48] = [b' '; 48];

/// The position where digits end: any number fits before it, after a blank.
const FIELD: usize = 24;

// Appends the first `count` bytes of a slice. It copies the whole slice and cuts off the rest, because a copy of a
// fixed size takes a few moves, and any other copy takes a call.
#[inline]
fn put_first(out: &mut Vec<u8>, bytes: &[u8], count: usize) -> Result<(), MemoryFault>
    requires { count ≤ length bytes.now }
    ensures { OnOk result (out.new.items ≡ out.old.items ++ take count bytes.now) }
{
    out.extend_from_slice(bytes)?;
    out.truncate(out.len() - (bytes.len() - count));
    Ok(())
}

// Appends `count` blanks, one by one.
fn put_many_blanks(out: &mut Vec<u8>, count: usize) -> Result<(), MemoryFault>
    ensures { OnOk result (out.new.items ≡ out.old.items ++ blanks count) }
{
    for _ in 0..count {
        out.push(b' ')?;
    }
    Ok(())
}

/// Appends `count` blanks.
pub(crate) fn put_blanks(out: &mut Vec<u8>, count: usize) -> Result<(), MemoryFault>
    ensures { OnOk result (out.new.items ≡ out.old.items ++ blanks count) }
{
    if count > BLANKS.len() {
        return put_many_blanks(out, count);
    }
    put_first(out, &BLANKS, count)
}

/// Appends a field after another one.
pub(crate) fn put_next(out: &mut Vec<u8>, field: &[u8]) -> Result<(), MemoryFault>
    ensures { OnOk result (out.new.items ≡ out.old.items ++ 0x20 ∷ field.now) }
{
    out.push(b' ')?;
    out.extend_from_slice(field)?;
    Ok(())
}

/// Appends a field, left-aligned in `width` columns, after another one.
pub(crate) fn put_left(out: &mut Vec<u8>, width: usize, field: &[u8]) -> Result<(), MemoryFault>
    ensures { OnOk result (out.new.items ≡ out.old.items ++ 0x20 ∷ left width field.now) }
{
    put_next(out, field)?;
    put_blanks(out, width.saturating_sub(field.len()))?;
    Ok(())
}

/// Appends a field, right-aligned in `width` columns.
pub(crate) fn put_right(out: &mut Vec<u8>, width: usize, field: &[u8]) -> Result<(), MemoryFault>
    ensures { OnOk result (out.new.items ≡ out.old.items ++ right width field.now) }
{
    put_blanks(out, width.saturating_sub(field.len()))?;
    out.extend_from_slice(field)?;
    Ok(())
}

// Appends a number, right-aligned in `width` columns, after `gap` blanks.
fn put_digits(out: &mut Vec<u8>, gap: usize, width: usize, number: u64) -> Result<(), MemoryFault>
    requires { gap ≤ 1 }
    ensures { OnOk result (out.new.items ≡ out.old.items ++ (blanks gap ++ right width (decimal number))) }
{
    let mut field = BLANKS;
    let start = write_digits(number, &mut field, FIELD);
    if width >= FIELD {
        put_blanks(out, gap)?;
        return put_right(out, width, &field[start..FIELD]);
    }
    let from = start.min(FIELD - width) - gap;
    put_first(out, &field[from..from + FIELD], FIELD - from)
}

/// Appends a number, right-aligned in `width` columns.
pub(crate) fn put_first_number(
    out: &mut Vec<u8>,
    width: usize,
    number: u64,
) -> Result<(), MemoryFault>
    ensures { OnOk result (out.new.items ≡ out.old.items ++ right width (decimal number)) }
{
    put_digits(out, 0, width, number)
}

/// Appends a number, right-aligned in `width` columns, after another field.
pub(crate) fn put_number(out: &mut Vec<u8>, width: usize, number: u64) -> Result<(), MemoryFault>
    ensures { OnOk result (out.new.items ≡ out.old.items ++ 0x20 ∷ right width (decimal number)) }
{
    put_digits(out, 1, width, number)
}

/// Appends a line that has only one field.
pub(crate) fn put_line(out: &mut Vec<u8>, field: &[u8]) -> Result<(), MemoryFault>
    ensures { OnOk result (out.new.items ≡ out.old.items ++ line (field.now ∷ [])) }
{
    out.extend_from_slice(field)?;
    put_end(out)?;
    Ok(())
}

/// Appends the end of a line.
pub(crate) fn put_end(out: &mut Vec<u8>) -> Result<(), MemoryFault>
    ensures { OnOk result (out.new.items ≡ out.old.items ++ 0x0A ∷ []) }
{
    out.push(b'\n')?;
    Ok(())
}
