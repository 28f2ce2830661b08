//! Writes the lines of despatch advices and receiving advices.
ghost use Rattle.std.specs.Prelude.{◌≡◌, ◌++◌, OnOk};
ghost use Rattle.std.specs.List.{flat_map};
ghost use Rattle.edi_show.specs.Goods as spec;

use crate::lines::{buyer_text, line_text, put_head, put_line};
use edi_goods::{Despatch, DespatchLine, Receipt, ReceiptLine, ReceiptUnit, Unit};
use edi_tokens::MemoryFault;
use std::alloc::Global;

// Appends a line of a unit that is despatched.
#[tactic(auto, unfolding(crate::specs::Goods::despatch_line))]
fn put_despatch_line(
    alloc: Global,
    out: &mut Vec<u8>,
    line: &DespatchLine,
) -> Result<(), MemoryFault>
    ensures { OnOk result (out.new.items ≡ out.old.items ++ spec.despatch_line line.now) }
{
    let quantity = line.quantity;
    let number = line_text(alloc, line.order_line)?;
    let text = format!(in alloc;
        "    item {} despatched {quantity} line {number} order ",
        line.gtin
    )?;
    put_line(out, text.as_bytes(), line.order.as_slice())?;
    Ok(())
}

// Appends the lines of a unit that is despatched.
fn put_unit_lines(
    alloc: Global,
    out: &mut Vec<u8>,
    lines: &[DespatchLine],
) -> Result<(), MemoryFault>
    ensures { OnOk result (out.new.items ≡ out.old.items ++ flat_map spec.despatch_line lines.now) }
{
    for line in lines {
        put_despatch_line(alloc, out, line)?;
    }
    Ok(())
}

// Appends a unit that is despatched.
#[tactic(auto, unfolding(crate::specs::Goods::unit_lines))]
fn put_unit(alloc: Global, out: &mut Vec<u8>, unit: &Unit) -> Result<(), MemoryFault>
    ensures { OnOk result (out.new.items ≡ out.old.items ++ spec.unit_lines unit.now) }
{
    put_line(out, b"  unit ", unit.sscc.digits())?;
    put_unit_lines(alloc, out, unit.lines.as_slice())?;
    Ok(())
}

// Appends the units of a despatch advice.
fn put_units(alloc: Global, out: &mut Vec<u8>, units: &[Unit]) -> Result<(), MemoryFault>
    ensures { OnOk result (out.new.items ≡ out.old.items ++ flat_map spec.unit_lines units.now) }
{
    for unit in units {
        put_unit(alloc, out, unit)?;
    }
    Ok(())
}

/// Appends what a despatch advice says.
#[tactic(auto, unfolding(crate::specs::Goods::despatch_lines))]
pub(crate) fn put_despatch(
    alloc: Global,
    out: &mut Vec<u8>,
    despatch: &Despatch,
) -> Result<(), MemoryFault>
    ensures { OnOk result (out.new.items ≡ out.old.items ++ spec.despatch_lines despatch.now) }
{
    let number = despatch.number.as_slice();
    let buyer = buyer_text(&despatch.buyer);
    put_head(out, b"  despatch ", number, buyer, &despatch.supplier)?;
    put_units(alloc, out, despatch.units.as_slice())?;
    Ok(())
}

// Appends a line of a unit that was received.
#[tactic(auto, unfolding(crate::specs::Goods::receipt_line))]
fn put_receipt_line(alloc: Global, out: &mut Vec<u8>, line: &ReceiptLine) -> Result<(), MemoryFault>
    ensures { OnOk result (out.new.items ≡ out.old.items ++ spec.receipt_line line.now) }
{
    let ReceiptLine {
        gtin,
        accepted,
        returned,
        destroyed,
    } = *line;
    let text = format!(in alloc;
        "    item {gtin} accepted {accepted} returned {returned} destroyed {destroyed}\n"
    )?;
    out.extend_from_slice(text.as_bytes())?;
    Ok(())
}

// Appends the lines of a unit that was received.
fn put_receipt_lines(
    alloc: Global,
    out: &mut Vec<u8>,
    lines: &[ReceiptLine],
) -> Result<(), MemoryFault>
    ensures { OnOk result (out.new.items ≡ out.old.items ++ flat_map spec.receipt_line lines.now) }
{
    for line in lines {
        put_receipt_line(alloc, out, line)?;
    }
    Ok(())
}

// Appends a unit that was received.
#[tactic(auto, unfolding(crate::specs::Goods::receipt_unit_lines))]
fn put_receipt_unit(alloc: Global, out: &mut Vec<u8>, unit: &ReceiptUnit) -> Result<(), MemoryFault>
    ensures { OnOk result (out.new.items ≡ out.old.items ++ spec.receipt_unit_lines unit.now) }
{
    put_line(out, b"  unit ", unit.sscc.digits())?;
    put_receipt_lines(alloc, out, unit.lines.as_slice())?;
    Ok(())
}

// Appends the units of a receiving advice.
fn put_receipt_units(
    alloc: Global,
    out: &mut Vec<u8>,
    units: &[ReceiptUnit],
) -> Result<(), MemoryFault>
    ensures { OnOk result (out.new.items ≡ out.old.items ++ flat_map spec.receipt_unit_lines units.now) }
{
    for unit in units {
        put_receipt_unit(alloc, out, unit)?;
    }
    Ok(())
}

// Appends that an advice takes the place of what was received, if it does.
fn put_function(out: &mut Vec<u8>, replaces: bool) -> Result<(), MemoryFault>
    ensures { OnOk result (out.new.items ≡ out.old.items ++ spec.function_text replaces) }
{
    if replaces {
        out.extend_from_slice(b"  replaces what was received\n")?;
    }
    Ok(())
}

/// Appends what a receiving advice says.
#[tactic(auto, unfolding(crate::specs::Goods::receipt_lines))]
pub(crate) fn put_receipt(
    alloc: Global,
    out: &mut Vec<u8>,
    receipt: &Receipt,
) -> Result<(), MemoryFault>
    ensures { OnOk result (out.new.items ≡ out.old.items ++ spec.receipt_lines receipt.now) }
{
    let number = receipt.number.as_slice();
    let buyer = buyer_text(&receipt.buyer);
    put_head(out, b"  receipt ", number, buyer, &receipt.supplier)?;
    put_function(out, receipt.replaces)?;
    put_receipt_units(alloc, out, receipt.units.as_slice())?;
    Ok(())
}
