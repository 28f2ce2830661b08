//! Writes lines, and what the lines of messages share.
ghost use Rattle.std.specs.Prelude.{◌≡◌, ◌++◌, IfOk, OnOk, string_bytes};
ghost use Rattle.edi_show.specs.Lines as spec;

use edi_tokens::MemoryFault;
use gs1_ids::Gln;
use std::alloc::Global;

/// Appends a line: a name with what comes before it, a value, the end of the line.
#[tactic(auto, unfolding(crate::specs::Lines::line))]
pub(crate) fn put_line(out: &mut Vec<u8>, name: &[u8], value: &[u8]) -> Result<(), MemoryFault>
    ensures { OnOk result (out.new.items ≡ out.old.items ++ spec.line name.now value.now) }
{
    out.extend_from_slice(name)?;
    out.extend_from_slice(value)?;
    out.extend_from_slice(b"\n")?;
    Ok(())
}

/// Appends the first lines of a message: its own number, the buyer and the supplier.
#[tactic(auto, unfolding(crate::specs::Lines::head_lines))]
pub(crate) fn put_head(
    out: &mut Vec<u8>,
    name: &[u8],
    number: &[u8],
    buyer: &[u8],
    supplier: &Gln,
) -> Result<(), MemoryFault>
    ensures { OnOk result (out.new.items ≡ out.old.items
        ++ spec.head_lines name.now number.now buyer.now supplier.now) }
{
    put_line(out, name, number)?;
    put_line(out, b"  buyer ", buyer)?;
    put_line(out, b"  supplier ", supplier.digits())?;
    Ok(())
}

/// Returns the digits of a buyer, or a hyphen if none is named.
pub(crate) fn buyer_text(buyer: &Option<Gln>) -> &[u8]
    ensures { result.now ≡ spec.buyer_text buyer.now }
{
    match buyer {
        Some(buyer) => buyer.digits(),
        None => b"-",
    }
}

/// Returns the line of an order that is named, or a hyphen if none is.
pub(crate) fn line_text(alloc: Global, line: Option<u32>) -> Result<String, MemoryFault>
    ensures { IfOk result (λ text. string_bytes text ≡ spec.line_text line) }
{
    match line {
        Some(line) => format!(in alloc; "{line}"),
        None => String::from_str(alloc, "-"),
    }
}
