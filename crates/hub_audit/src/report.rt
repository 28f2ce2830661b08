//! Writes what was found of a database, in lines.
ghost use Rattle.std.specs.Prelude.{◌≡◌, ◌++◌, ◌∷◌, [], ◌<◌, OnOk, IfOk, string_bytes};
ghost use Rattle.std.specs.List.{flat_map};
ghost use Rattle.hub_audit.specs.Report as spec;

use crate::audit::Audit;
use edi_base::exit::{DONE, REFUSED};
use edi_base::{Items, MemoryFault};
use hub_sound::{Finding, KeyCell, RowKind};
use hub_verify::Counts;
use std::alloc::Global;

// The digit of a number below 16.
fn hex_digit(number: u8) -> u8
    requires { number < 16 }
    ensures { result ≡ spec.hex_digit number }
{
    if number < 10 {
        b'0' + number
    } else {
        b'A' + (number - 10)
    }
}

// Whether a byte stands for itself: it is visible, and not the percent sign.
fn is_plain(byte: u8) -> bool
    ensures { result ≡ spec.is_plain byte }
{
    byte > 32 && byte < 127 && byte != b'%'
}

// Appends a byte of a text.
#[tactic(auto, unfolding(crate::specs::Report::byte_text))]
fn put_byte(out: &mut Vec<u8>, byte: u8) -> Result<(), MemoryFault>
    ensures { OnOk result (out.new.items ≡ out.old.items ++ spec.byte_text byte) }
{
    if is_plain(byte) {
        out.extend_from_slice(&[byte])
    } else {
        out.extend_from_slice(&[b'%', hex_digit(byte / 16), hex_digit(byte % 16)])
    }
}

// Appends a text.
#[tactic(auto, unfolding(crate::specs::Report::text_of))]
fn put_text(out: &mut Vec<u8>, bytes: &[u8]) -> Result<(), MemoryFault>
    ensures { OnOk result (out.new.items ≡ out.old.items ++ spec.text_of bytes.now) }
{
    if bytes.is_empty() {
        return out.extend_from_slice(b"%");
    }
    for byte in bytes {
        put_byte(out, *byte)?;
    }
    Ok(())
}

// Appends a number.
fn put_number(alloc: Global, out: &mut Vec<u8>, number: u64) -> Result<(), MemoryFault>
    ensures { OnOk result (out.new.items ≡ out.old.items ++ spec.number_text number) }
{
    let text = format!(in alloc; "{number}")?;
    out.extend_from_slice(text.as_bytes())?;
    Ok(())
}

// Appends a column of a key, after a blank.
#[tactic(auto, unfolding(crate::specs::Report::cell_text))]
fn put_cell(alloc: Global, out: &mut Vec<u8>, cell: &KeyCell) -> Result<(), MemoryFault>
    ensures { OnOk result (out.new.items ≡ out.old.items ++ spec.cell_text cell.now) }
{
    out.extend_from_slice(b" ")?;
    match cell {
        KeyCell::Bytes(bytes) => put_text(out, bytes.as_slice()),
        KeyCell::Number(number) => put_number(alloc, out, *number),
        KeyCell::Other => out.extend_from_slice(b"%?"),
    }
}

// Appends a key.
fn put_key(alloc: Global, out: &mut Vec<u8>, key: &[KeyCell]) -> Result<(), MemoryFault>
    ensures { OnOk result (out.new.items ≡ out.old.items ++ flat_map spec.cell_text key.now) }
{
    for cell in key {
        put_cell(alloc, out, cell)?;
    }
    Ok(())
}

// The word of a kind of row: the name of its table.
fn kind_word(kind: RowKind) -> &'static [u8]
    ensures { result.now ≡ spec.kind_word kind }
{
    match kind {
        RowKind::Hub => b"hub",
        RowKind::Supplier => b"supplier",
        RowKind::Prefix => b"prefix",
        RowKind::Order => b"order",
        RowKind::Line => b"line",
        RowKind::Advice => b"advice",
        RowKind::Pallet => b"pallet",
        RowKind::Content => b"content",
        RowKind::Receipt => b"receipt",
        RowKind::Remembered => b"remembered",
        RowKind::Mail => b"mail",
    }
}

// Appends the line of a row.
#[tactic(auto, unfolding(crate::specs::Report::finding_line))]
fn put_finding(
    alloc: Global,
    out: &mut Vec<u8>,
    word: &[u8],
    found: &Finding,
) -> Result<(), MemoryFault>
    ensures { OnOk result (out.new.items ≡ out.old.items ++ spec.finding_line word.now found.now) }
{
    out.extend_from_slice(word)?;
    out.extend_from_slice(kind_word(found.kind))?;
    put_key(alloc, out, found.key.as_slice())?;
    out.extend_from_slice(b"\n")?;
    Ok(())
}

// Appends a line with a number.
#[tactic(auto, unfolding(crate::specs::Report::number_line))]
fn put_line(alloc: Global, out: &mut Vec<u8>, name: &[u8], number: u64) -> Result<(), MemoryFault>
    ensures { OnOk result (out.new.items ≡ out.old.items ++ spec.number_line name.now number) }
{
    out.extend_from_slice(name)?;
    put_number(alloc, out, number)?;
    out.extend_from_slice(b"\n")?;
    Ok(())
}

// Appends a line with how many there are.
fn put_count(alloc: Global, out: &mut Vec<u8>, name: &[u8], count: usize) -> Result<(), MemoryFault>
    ensures { OnOk result (out.new.items ≡ out.old.items ++ spec.number_line name.now count) }
{
    put_line(alloc, out, name, count as u64)
}

// Appends what was counted of orders and pallets.
#[tactic(auto, unfolding(crate::specs::Report::goods_lines))]
fn put_goods(alloc: Global, out: &mut Vec<u8>, counts: &Counts) -> Result<(), MemoryFault>
    ensures { OnOk result (out.new.items ≡ out.old.items ++ spec.goods_lines counts.now) }
{
    put_count(alloc, out, b"suppliers ", counts.suppliers)?;
    put_count(alloc, out, b"orders ", counts.orders)?;
    put_count(alloc, out, b"order lines ", counts.lines)?;
    put_count(alloc, out, b"open lines ", counts.open_lines)?;
    put_count(alloc, out, b"pallets ", counts.pallets)?;
    put_count(alloc, out, b"received pallets ", counts.received_pallets)?;
    Ok(())
}

// Appends what was counted of messages.
#[tactic(auto, unfolding(crate::specs::Report::message_lines))]
fn put_messages(alloc: Global, out: &mut Vec<u8>, counts: &Counts) -> Result<(), MemoryFault>
    ensures { OnOk result (out.new.items ≡ out.old.items ++ spec.message_lines counts.now) }
{
    put_count(alloc, out, b"mailbox entries ", counts.entries)?;
    put_count(alloc, out, b"entries not taken ", counts.untaken_entries)?;
    put_count(alloc, out, b"remembered messages ", counts.remembered)?;
    Ok(())
}

// Appends the lines of a hub that is a sound start.
#[tactic(auto, unfolding(crate::specs::Report::sound_lines))]
fn put_sound(
    alloc: Global,
    out: &mut Vec<u8>,
    counts: &Counts,
    size: u64,
) -> Result<(), MemoryFault>
    ensures { OnOk result (out.new.items ≡ out.old.items ++ spec.sound_lines counts.now size) }
{
    out.extend_from_slice(b"ok\n")?;
    put_goods(alloc, out, counts)?;
    put_messages(alloc, out, counts)?;
    put_line(alloc, out, b"file size ", size)?;
    out.extend_from_slice(b"schema 3\n")?;
    Ok(())
}

/// Returns what is printed of a database whose file has this many bytes: `ok` and what was counted, a row that shows
/// what is wrong, or the number of an earlier schema.
pub fn report_text(alloc: Global, audit: &Audit, size: u64) -> Result<Items<u8>, MemoryFault>
    ensures { IfOk result (λ text. text ≡ spec.report_text audit.now size) }
{
    let mut out = Vec::new(alloc);
    match audit {
        Audit::Sound(counts) => put_sound(alloc, &mut out, counts, size)?,
        Audit::Unclean(found) => put_finding(alloc, &mut out, b"unclean ", found)?,
        Audit::Unsound(found) => put_finding(alloc, &mut out, b"unsound ", found)?,
        Audit::Earlier(number) => put_line(alloc, &mut out, b"schema ", u64::from(*number))?,
    }
    Ok(Items::from_vec(out))
}

/// Returns the exit status: 0 if the rows are a sound start, or else 1.
pub fn report_status(audit: &Audit) -> u8
    ensures { result ≡ spec.report_status audit.now }
{
    match audit {
        Audit::Sound(_counts) => DONE,
        Audit::Unclean(_) | Audit::Unsound(_) | Audit::Earlier(_) => REFUSED,
    }
}
