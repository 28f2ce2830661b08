//! Applies answers to order lines.
ghost use Rattle.std.specs.Prelude.{◌≡◌, ◌+◌, ◌≤◌, ◌++◌, ℕ, List, ◌∷◌, false, not, map, IfOk};
ghost use Rattle.std.specs.List.{AllByRecursion};
ghost use Rattle.std.specs.Option.{IfSome, IfNone};
ghost use Rattle.edi_orders.specs.declared.response.AnswerLine.{AnswerLine};
ghost use Rattle.hub_tables.specs.State.{waits};
ghost use Rattle.hub_tables.specs.declared.change.Change.TheVariants.{SetLine};
ghost use Rattle.hub_tables.specs.declared.rows.LineRow.{LineRow};
ghost use Rattle.hub_order_lines.specs.Book.{facts_of, IsCovered};
ghost use Rattle.hub_rules.specs.Judging.{joined};
ghost use Rattle.hub_rules.specs.ResponseRules.{is_empty, is_out_of_range};
ghost use Rattle.hub_rules.specs.declared.verdict.Verdict.{Verdict};
ghost use Rattle.hub_rules.specs.declared.verdict.Verdict.TheVariants.{Refuse};
ghost use Rattle.hub_judges.specs.FromFacts.{answer_checks, after_answer, answers_from, waiting};

use crate::changes::append;
use edi_base::{Items, MemoryFault};
use edi_orders::{AnswerLine, LineAnswer};
use hub_order_lines::{Book, LineFacts, copied_row};
use hub_rules::{Code, Verdict};
use hub_tables::{Change, Column, LineRow, LineState};
use std::alloc::Global;

// Whether the line waits for an answer.
fn is_waiting(line: &LineFacts) -> bool
    ensures { result ≡ waits line.now.row }
{
    line.row.answer.case() == LineState::Waiting
}

/// Whether some line of the order waits for an answer.
pub(crate) fn any_waits(lines: &[LineFacts], order: &[u8]) -> bool
    ensures { result ≡ not (is_empty (waiting (facts_of lines.now order.now))) }
{
    for line in lines {
        if line.row.number.as_slice() == order && is_waiting(line) {
            return true;
        }
    }
    false
}

// Whether a changed quantity is below what is despatched, or above what is despatched and open together.
fn is_past_range(answer: LineAnswer, line: &LineFacts) -> bool
    ensures { result ≡ is_out_of_range answer line.now.despatched line.now.row }
{
    match answer {
        LineAnswer::Accepted | LineAnswer::Refused => false,
        LineAnswer::Changed(quantity) => {
            quantity < line.despatched || line.row.open_qty < quantity - line.despatched
        }
    }
}

// Returns the rule that an answer to a line breaks: B07, B08 or B09.
fn answer_fault(said: &AnswerLine, line: &LineFacts) -> Option<Code>
    ensures some { IfSome result (λ code.
        (rest : Verdict) → answer_checks said.now line.now rest ≡ Refuse code) }
    ensures none { IfNone result ((rest : Verdict) → answer_checks said.now line.now rest ≡ rest) }
    ensures range { IfNone result (is_out_of_range said.now.answer line.now.despatched line.now.row ≡ false) }
{
    if !is_waiting(line) {
        return Some(Code::NotWaiting);
    }
    if is_past_range(said.answer, line) {
        return Some(Code::OutOfRange);
    }
    if line.row.gtin != said.gtin {
        return Some(Code::OtherArticle);
    }
    None
}

// Returns the line after its answer.
fn answered_line(
    alloc: Global,
    answer: LineAnswer,
    line: &LineFacts,
) -> Result<LineRow, MemoryFault>
    requires covered { IsCovered line.now }
    requires range { is_out_of_range answer line.now.despatched line.now.row ≡ false }
    ensures row { IfOk result (λ row. row ≡ after_answer answer line.now) }
    ensures covered { IfOk result (λ row. row.open_qty + row.refused + row.cancelled ≤ row.ordered) }
{
    let mut row = copied_row(alloc, &line.row)?;
    match answer {
        LineAnswer::Accepted => row.answer = Column::of(LineState::Accepted),
        LineAnswer::Refused => {
            row.refused += row.open_qty;
            row.open_qty = 0;
            row.answer = Column::of(LineState::NotAccepted);
        }
        LineAnswer::Changed(quantity) => {
            let open_qty = quantity - line.despatched;
            row.refused += row.open_qty - open_qty;
            row.open_qty = open_qty;
            row.answer = Column::of(LineState::Changed);
        }
    }
    Ok(row)
}

/// Appends the same answer for each line of the order that waits.
pub(crate) fn answer_all(
    alloc: Global,
    lines: &[LineFacts],
    order: &[u8],
    answer: LineAnswer,
    changes: &mut Items<Change>,
) -> Result<(), MemoryFault>
    requires covered { AllByRecursion IsCovered lines.now }
    requires range { (sent : ℕ) (row : LineRow) → is_out_of_range answer sent row ≡ false }
    ensures { IfOk result (λ _. changes.new ≡ changes.old
        ++ map (λ line. SetLine (after_answer answer line)) (waiting (facts_of lines.now order.now))) }
{
    for line in lines {
        if line.row.number.as_slice() == order && is_waiting(line) {
            let row = answered_line(alloc, answer, line)?;
            append(changes, Change::SetLine(row))?;
        }
    }
    Ok(())
}

// Appends the change for an answer to a line, and sets the line in the book; or returns the rule that the answer
// breaks: B06, B07, B08 or B09.
fn answer_line(
    alloc: Global,
    order: &[u8],
    said: &AnswerLine,
    book: &mut Book<'_>,
    changes: &mut Items<Change>,
) -> Result<Option<Code>, MemoryFault>
    ensures refused { IfOk result (λ fault. IfSome fault (λ code. (rest : List AnswerLine) →
        joined changes.old (answers_from order.now (said.now ∷ rest) book.old) ≡ Refuse code)) }
    ensures answered { IfOk result (λ fault. IfNone fault ((rest : List AnswerLine) →
        joined changes.old (answers_from order.now (said.now ∷ rest) book.old)
        ≡ joined changes.new (answers_from order.now rest book.new))) }
{
    let Some(line) = book.line(order, said.order_line, &said.gtin) else {
        return Ok(Some(Code::NoLine));
    };
    if let Some(code) = answer_fault(said, line) {
        return Ok(Some(code));
    }
    let row = answered_line(alloc, said.answer, line)?;
    book.set(alloc, order, said.order_line, &said.gtin, &row)?;
    append(changes, Change::SetLine(row))?;
    Ok(None)
}

/// Decides on the answers to an order's lines, and appends their changes. B06 to B09 are checked for each line, on what
/// the earlier ones left.
pub(crate) fn answer_lines(
    alloc: Global,
    book: Book<'_>,
    order: &[u8],
    said: &[AnswerLine],
    changes: Items<Change>,
) -> Result<Verdict, MemoryFault>
    ensures { IfOk result (λ verdict. verdict ≡ joined changes (answers_from order.now said.now book.entry)) }
{
    let mut book = book;
    let mut changes = changes;
    for answer in said {
        if let Some(code) = answer_line(alloc, order, answer, &mut book, &mut changes)? {
            return Ok(Verdict::Refuse(code));
        }
    }
    Ok(Verdict::Accept(changes))
}
