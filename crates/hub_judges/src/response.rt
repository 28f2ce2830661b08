//! Decides on ORDRSP messages.
ghost use Rattle.std.specs.Prelude.{◌≡◌, ℕ, [], ◌∷◌, false, IfOk, IfErr, option_copied};
ghost use Rattle.std.specs.List.{AllByRecursion};
ghost use Rattle.hub_tables.specs.Tables.{Tables};
ghost use Rattle.hub_tables.specs.declared.cases.Side.TheVariants as sides;
ghost use Rattle.hub_tables.specs.declared.change.Change.TheVariants.{Remember};
ghost use Rattle.hub_tables.specs.declared.rows.LineRow.{LineRow};
ghost use Rattle.hub_order_lines.specs.Book.{facts_of, IsCovered};
ghost use Rattle.hub_rules.specs.Judging.{joined};
ghost use Rattle.hub_rules.specs.RepeatRules.{remembered};
ghost use Rattle.hub_rules.specs.ResponseRules.{is_out_of_range};
ghost use Rattle.hub_rules.specs.Rules as rules;
ghost use Rattle.hub_rules.specs.declared.incoming.IncomingMessage.{IncomingMessage};
ghost use Rattle.hub_judges.specs.FromFacts.{all_from, response_from};
ghost use Rattle.hub_judges.specs.Known.{TellsForResponse};

use crate::answers::{answer_all, answer_lines, any_waits};
use crate::changes::append;
use crate::known::Known;
use crate::party::admitted_supplier;
use crate::remembering::{remember, repeats};
use edi_base::{Items, MemoryFault};
use edi_orders::{Answer, LineAnswer, Response};
use gs1_ids::Gln;
use hub_order_lines::{Book, LineFacts};
use hub_parties::SupplierRow;
use hub_rules::{Code, IncomingMessage, Verdict};
use hub_tables::{Change, Side};
use std::alloc::Global;

// Appends the same answer for every line of the order that waits; B07 if none does.
fn respond_to_all(
    alloc: Global,
    lines: &[LineFacts],
    order: &[u8],
    answer: LineAnswer,
    changes: Items<Change>,
) -> Result<Verdict, MemoryFault>
    requires covered { AllByRecursion IsCovered lines.now }
    requires range { (sent : ℕ) (row : LineRow) → is_out_of_range answer sent row ≡ false }
    ensures { IfOk result (λ verdict. verdict ≡ joined changes (all_from answer (facts_of lines.now order.now))) }
{
    if !any_waits(lines, order) {
        return Ok(Verdict::Refuse(Code::NotWaiting));
    }
    let mut changes = changes;
    answer_all(alloc, lines, order, answer, &mut changes)?;
    Ok(Verdict::Accept(changes))
}

// Appends the changes for an answer, or refuses with the first of B05 to B09 that it breaks.
fn respond(
    alloc: Global,
    known: &Known,
    response: &Response,
    changes: Items<Change>,
) -> Result<Verdict, MemoryFault>
    ensures { IfOk result (λ verdict. verdict ≡ joined changes (response_from response.now known.now)) }
{
    let order = response.order.as_slice();
    if !known.orders.has(order) {
        return Ok(Verdict::Refuse(Code::NoOrder));
    }
    match &response.answer {
        Answer::AllAccepted => respond_to_all(
            alloc,
            known.orders.lines(order),
            order,
            LineAnswer::Accepted,
            changes,
        ),
        Answer::AllRefused => respond_to_all(
            alloc,
            known.orders.lines(order),
            order,
            LineAnswer::Refused,
            changes,
        ),
        Answer::Lines(said) => {
            let book = Book::new(alloc, &known.orders);
            answer_lines(alloc, book, order, said.as_slice(), changes)
        }
    }
}

// Returns the supplier of a response that is new and passes B01 and B02; otherwise the verdict: a repetition, or the
// first of B01, B02 and B03 that the response breaks.
fn response_supplier<'a>(
    alloc: Global,
    retailer: &Gln,
    supplier: Option<&'a SupplierRow>,
    known: &Known,
    response: &Response,
) -> Result<&'a SupplierRow, Verdict>
    ensures ok { IfOk result (λ row. (incoming : IncomingMessage) (state : Tables) →
        TellsForResponse known.now incoming response.now state →
        rules.judge_response retailer.now (option_copied supplier.entry) incoming response.now state
        ≡ joined (Remember (remembered (rules.referred_by row.now sides.Supplier incoming) incoming.content) ∷ [])
        (response_from response.now known.now)) }
    ensures err { IfErr result (λ verdict. (incoming : IncomingMessage) (state : Tables) →
        TellsForResponse known.now incoming response.now state →
        verdict ≡ rules.judge_response retailer.now (option_copied supplier.entry) incoming response.now state) }
{
    let buyer = Some(response.buyer);
    let row = match admitted_supplier(retailer, supplier, buyer, &response.supplier) {
        Ok(row) => row,
        Err(code) => return Err(Verdict::Refuse(code)),
    };
    if let Some(verdict) = repeats(alloc, known.remembered) {
        return Err(verdict);
    }
    Ok(row)
}

/// Decides on an ORDRSP: checks B01, B02, B03 and B05 in this order; then B07 for functions 27 and 29, and otherwise
/// B06, B07, B08 and B09 for each line, on what the earlier lines left. `MemoryFault` if memory ran out.
pub fn judge_response(
    alloc: Global,
    retailer: &Gln,
    supplier: Option<&SupplierRow>,
    known: &Known,
    incoming: IncomingMessage,
    response: &Response,
) -> Result<Verdict, MemoryFault>
    ensures { IfOk result (λ verdict. (state : Tables) → TellsForResponse known.now incoming response.now state →
        verdict ≡ rules.judge_response retailer.now
        (option_copied supplier.entry) incoming response.now state) }
{
    let row = match response_supplier(alloc, retailer, supplier, known, response) {
        Ok(row) => row,
        Err(verdict) => return Ok(verdict),
    };
    let mut changes = Items::new(alloc);
    append(&mut changes, remember(row.gln, Side::Supplier, incoming))?;
    let verdict = respond(alloc, known, response, changes)?;
    Ok(verdict)
}
