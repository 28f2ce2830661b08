//! Writes the lines of orders and responses.
ghost use Rattle.std.specs.Prelude.{◌≡◌, ◌++◌, OnOk, IfOk, string_bytes};
ghost use Rattle.std.specs.List.{flat_map};
ghost use Rattle.edi_show.specs.Orders as spec;

use crate::lines::{line_text, put_head, put_line};
use edi_orders::{Answer, AnswerLine, LineAnswer, Order, OrderLine, Response};
use edi_tokens::MemoryFault;
use std::alloc::Global;

// Appends a line of an order.
#[tactic(auto, unfolding(crate::specs::Orders::order_line))]
fn put_order_line(alloc: Global, out: &mut Vec<u8>, line: &OrderLine) -> Result<(), MemoryFault>
    ensures { OnOk result (out.new.items ≡ out.old.items ++ spec.order_line line.now) }
{
    let number = line.line;
    let quantity = line.quantity;
    let text = format!(in alloc; "  line {number} item {} ordered {quantity}\n", line.gtin)?;
    out.extend_from_slice(text.as_bytes())?;
    Ok(())
}

// Appends the lines of an order.
fn put_order_lines(alloc: Global, out: &mut Vec<u8>, lines: &[OrderLine]) -> Result<(), MemoryFault>
    ensures { OnOk result (out.new.items ≡ out.old.items ++ flat_map spec.order_line lines.now) }
{
    for line in lines {
        put_order_line(alloc, out, line)?;
    }
    Ok(())
}

/// Appends what an order says.
#[tactic(auto, unfolding(crate::specs::Orders::order_lines))]
pub(crate) fn put_order(alloc: Global, out: &mut Vec<u8>, order: &Order) -> Result<(), MemoryFault>
    ensures { OnOk result (out.new.items ≡ out.old.items ++ spec.order_lines order.now) }
{
    let number = order.number.as_slice();
    put_head(
        out,
        b"  order ",
        number,
        order.buyer.digits(),
        &order.supplier,
    )?;
    put_order_lines(alloc, out, order.lines.as_slice())?;
    Ok(())
}

// Returns the answer to a line in words.
fn answer_text(alloc: Global, answer: LineAnswer) -> Result<String, MemoryFault>
    ensures { IfOk result (λ text. string_bytes text ≡ spec.answer_text answer) }
{
    match answer {
        LineAnswer::Accepted => String::from_str(alloc, "accepted"),
        LineAnswer::Refused => String::from_str(alloc, "refused"),
        LineAnswer::Changed(quantity) => format!(in alloc; "changed {quantity}"),
    }
}

// Appends the answer to a line.
#[tactic(auto, unfolding(crate::specs::Orders::answer_line))]
fn put_answer_line(alloc: Global, out: &mut Vec<u8>, line: &AnswerLine) -> Result<(), MemoryFault>
    ensures { OnOk result (out.new.items ≡ out.old.items ++ spec.answer_line line.now) }
{
    let number = line_text(alloc, line.order_line)?;
    let answer = answer_text(alloc, line.answer)?;
    let text = format!(in alloc; "  line {number} item {} {answer}\n", line.gtin)?;
    out.extend_from_slice(text.as_bytes())?;
    Ok(())
}

// Appends the answers to lines.
fn put_answer_lines(
    alloc: Global,
    out: &mut Vec<u8>,
    lines: &[AnswerLine],
) -> Result<(), MemoryFault>
    ensures { OnOk result (out.new.items ≡ out.old.items ++ flat_map spec.answer_line lines.now) }
{
    for line in lines {
        put_answer_line(alloc, out, line)?;
    }
    Ok(())
}

// Appends what a response answers.
#[tactic(auto, unfolding(crate::specs::Orders::answer_lines))]
fn put_answer(alloc: Global, out: &mut Vec<u8>, answer: &Answer) -> Result<(), MemoryFault>
    ensures { OnOk result (out.new.items ≡ out.old.items ++ spec.answer_lines answer.now) }
{
    match answer {
        Answer::AllAccepted => out.extend_from_slice(b"  all accepted\n"),
        Answer::AllRefused => out.extend_from_slice(b"  all refused\n"),
        Answer::Lines(lines) => put_answer_lines(alloc, out, lines.as_slice()),
    }
}

/// Appends what a response says.
#[tactic(auto, unfolding(crate::specs::Orders::response_lines))]
pub(crate) fn put_response(
    alloc: Global,
    out: &mut Vec<u8>,
    response: &Response,
) -> Result<(), MemoryFault>
    ensures { OnOk result (out.new.items ≡ out.old.items ++ spec.response_lines response.now) }
{
    let number = response.number.as_slice();
    put_head(
        out,
        b"  response ",
        number,
        response.buyer.digits(),
        &response.supplier,
    )?;
    put_line(out, b"  answers ", response.order.as_slice())?;
    put_answer(alloc, out, &response.answer)?;
    Ok(())
}
