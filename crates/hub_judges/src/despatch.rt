//! Decides on DESADV messages.
ghost use Rattle.std.specs.Prelude.{◌≡◌, ◌≤◌, ◌+◌, ◌++◌, ℕ, Bool, List, [], ◌∷◌, false, IfOk, IfErr, option_copied};
ghost use Rattle.std.specs.Option.{IfSome, IfNone};
ghost use Rattle.gs1_ids.specs.Sscc.{under_some};
ghost use Rattle.edi_goods.specs.declared.despatch.DespatchLine.{DespatchLine};
ghost use Rattle.hub_tables.specs.Tables.{Tables};
ghost use Rattle.hub_tables.specs.declared.cases.Side.TheVariants.{Supplier};
ghost use Rattle.hub_tables.specs.declared.change.Change.TheVariants.{AddAdvice, AddContent, Remember, SetLine};
ghost use Rattle.hub_order_lines.specs.Book.{Orders};
ghost use Rattle.hub_order_lines.specs.declared.facts.LineFacts.{LineFacts};
ghost use Rattle.hub_rules.specs.Judging.{joined};
ghost use Rattle.hub_rules.specs.RepeatRules.{remembered};
ghost use Rattle.hub_rules.specs.Rules as rules;
ghost use Rattle.hub_rules.specs.declared.incoming.IncomingMessage.{IncomingMessage};
ghost use Rattle.hub_rules.specs.declared.verdict.Verdict.{Verdict};
ghost use Rattle.hub_rules.specs.declared.verdict.Verdict.TheVariants.{Accept, Refuse};
ghost use Rattle.hub_judges.specs.FromFacts.{despatch_checks, despatch_from, lines_from, new_pallet, no_sscc, unit_checks, units_from};
ghost use Rattle.hub_judges.specs.Known.{TellsForDespatch};

use crate::changes::{append, both};
use crate::earlier::has_come;
use crate::known::Known;
use crate::party::admitted_supplier;
use crate::remembering::{remember, repeats};
use edi_base::{Items, MemoryFault, Seen, copy_bytes};
use edi_goods::{Despatch, DespatchLine, Unit};
use gs1_ids::{Gln, Sscc};
use hub_order_lines::{Book, LineFacts, copied_row};
use hub_parties::SupplierRow;
use hub_rules::{Code, IncomingMessage, Verdict};
use hub_tables::{AdviceRow, Arrival, Change, Column, ContentRow, LineRow, PalletRow, Side};
use std::alloc::Global;

// Returns the rule that a line breaks: B09 or B10.
fn line_fault(said: &DespatchLine, line: &LineFacts) -> Option<Code>
    ensures some { IfSome result (λ code.
        (rest : Verdict) → despatch_checks said.now line.now rest ≡ Refuse code) }
    ensures none { IfNone result ((rest : Verdict) → despatch_checks said.now line.now rest ≡ rest) }
    ensures open { IfNone result (said.now.quantity ≤ line.now.row.open_qty) }
{
    if line.row.gtin != said.gtin {
        return Some(Code::OtherArticle);
    }
    if line.row.open_qty < said.quantity {
        return Some(Code::MoreThanOpen);
    }
    None
}

// Appends the changes for a line that is despatched: the order line as it is afterwards, and the content at this place
// of the unit.
fn add_content(
    alloc: Global,
    sscc: Sscc,
    place: u64,
    quantity: u32,
    row: LineRow,
    changes: &mut Items<Change>,
) -> Result<(), MemoryFault>
    ensures { IfOk result (λ _. changes.new ≡ changes.old ++ SetLine row ∷ AddContent (record {
      sscc = sscc;
      place = place;
      number = row.number;
      line = row.line;
      quantity = quantity;
    }) ∷ []) }
{
    let content = ContentRow {
        sscc,
        place,
        number: copy_bytes(alloc, row.number.as_slice())?,
        line: row.line,
        quantity,
    };
    append(changes, Change::SetLine(row))?;
    append(changes, Change::AddContent(content))?;
    Ok(())
}

// Appends the changes for one line of a unit, at this place, and sets the line in the book; or returns the rule that
// the line breaks: B05, B06, B09 or B10.
fn load_line(
    alloc: Global,
    sscc: Sscc,
    place: u64,
    said: &DespatchLine,
    book: &mut Book<'_>,
    changes: &mut Items<Change>,
) -> Result<Option<Code>, MemoryFault>
    ensures refused { IfOk result (λ fault. IfSome fault (λ code. (n : ℕ) (rest : List DespatchLine)
        (next : Orders → Verdict) → joined changes.old (lines_from sscc n (said.now ∷ rest) book.old next)
        ≡ Refuse code)) }
    ensures loaded { IfOk result (λ fault. IfNone fault ((n : ℕ) (rest : List DespatchLine)
        (next : Orders → Verdict) → n + 1 ≡ place →
        joined changes.old (lines_from sscc n (said.now ∷ rest) book.old next)
        ≡ joined changes.new (lines_from sscc (n + 1) rest book.new next))) }
{
    let order = said.order.as_slice();
    if !book.has(order) {
        return Ok(Some(Code::NoOrder));
    }
    let Some(line) = book.line(order, said.order_line, &said.gtin) else {
        return Ok(Some(Code::NoLine));
    };
    if let Some(code) = line_fault(said, line) {
        return Ok(Some(code));
    }
    let mut row = copied_row(alloc, &line.row)?;
    row.open_qty -= said.quantity;
    book.set(alloc, order, said.order_line, &said.gtin, &row)?;
    add_content(alloc, sscc, place, said.quantity, row, changes)?;
    Ok(None)
}

// Appends the changes for the lines of a unit, and sets the lines in the book; or returns the rule that one of them
// breaks: B05, B06, B09 or B10.
fn load(
    alloc: Global,
    unit: &Unit,
    book: &mut Book<'_>,
    changes: &mut Items<Change>,
) -> Result<Option<Code>, MemoryFault>
    ensures refused { IfOk result (λ fault. IfSome fault (λ code. (next : Orders → Verdict) →
        joined changes.old (lines_from unit.now.sscc 0 unit.now.lines book.old next)
        ≡ Refuse code)) }
    ensures loaded { IfOk result (λ fault. IfNone fault ((next : Orders → Verdict) →
        joined changes.old (lines_from unit.now.sscc 0 unit.now.lines book.old next)
        ≡ joined changes.new (next book.new))) }
{
    let lines = unit.lines.as_slice();
    for (index, said) in lines.iter().enumerate() {
        let place = index as u64 + 1;
        if let Some(code) = load_line(alloc, unit.sscc, place, said, book, changes)? {
            return Ok(Some(code));
        }
    }
    Ok(None)
}

// Whether the SSCC is under a prefix of the supplier.
fn is_under(row: &SupplierRow, sscc: &Sscc) -> bool
    ensures { result ≡ under_some sscc.now row.now.prefixes }
{
    row.prefixes
        .as_slice()
        .iter()
        .any(|prefix| sscc.under(prefix))
}

// Returns the rule that a unit breaks: B11 or B12.
fn unit_fault(row: &SupplierRow, sscc: &Sscc, used: bool) -> Option<Code>
    ensures some { IfSome result (λ code.
        (rest : Verdict) → unit_checks row.now sscc.now used rest ≡ Refuse code) }
    ensures none { IfNone result ((rest : Verdict) → unit_checks row.now sscc.now used rest ≡ rest) }
{
    if !is_under(row, sscc) {
        return Some(Code::OtherPrefix);
    }
    if used {
        return Some(Code::SsccUsed);
    }
    None
}

// Returns the change that adds a pallet which an advice announces.
fn announced_pallet(
    alloc: Global,
    row: &SupplierRow,
    advice: &[u8],
    sscc: Sscc,
) -> Result<Change, MemoryFault>
    ensures { IfOk result (λ change. change ≡ new_pallet row.now advice.now sscc) }
{
    Ok(Change::AddPallet(PalletRow {
        sscc,
        supplier: row.gln,
        advice: copy_bytes(alloc, advice)?,
        received: Column::of(Arrival::Announced),
    }))
}

// Appends the changes for a unit, and sets its lines in the book; or returns the rule that the unit breaks, B11 or B12,
// or else the one that its lines break. `used` is whether its SSCC was used before.
fn load_unit(
    alloc: Global,
    row: &SupplierRow,
    advice: &[u8],
    unit: &Unit,
    used: bool,
    book: &mut Book<'_>,
    changes: &mut Items<Change>,
) -> Result<Option<Code>, MemoryFault>
    ensures refused { IfOk result (λ fault. IfSome fault (λ code. (next : Orders → Verdict) →
        joined changes.old (unit_checks row.now unit.now.sscc used (joined
        (new_pallet row.now advice.now unit.now.sscc ∷ [])
        (lines_from unit.now.sscc 0 unit.now.lines book.old next))) ≡ Refuse code)) }
    ensures loaded { IfOk result (λ fault. IfNone fault ((next : Orders → Verdict) →
        joined changes.old (unit_checks row.now unit.now.sscc used (joined
        (new_pallet row.now advice.now unit.now.sscc ∷ [])
        (lines_from unit.now.sscc 0 unit.now.lines book.old next))) ≡ joined changes.new (next book.new))) }
{
    if let Some(fault) = unit_fault(row, &unit.sscc, used) {
        return Ok(Some(fault));
    }
    let pallet = announced_pallet(alloc, row, advice, unit.sscc)?;
    append(changes, pallet)?;
    let fault = load(alloc, unit, book, changes)?;
    Ok(fault)
}

// Appends the changes for the units, and sets their lines in the book; or returns the rule that one of them breaks. B11
// and B12 are checked for each unit, then its lines, on what the earlier ones left. An SSCC is used if the hub or an
// earlier unit has it.
fn load_units(
    alloc: Global,
    row: &SupplierRow,
    despatch: &Despatch,
    used: &[bool],
    book: &mut Book<'_>,
    changes: &mut Items<Change>,
) -> Result<Option<Code>, MemoryFault>
    ensures refused { IfOk result (λ fault. IfSome fault (λ code. joined changes.old
        (units_from row.now despatch.now.number no_sscc despatch.now.units used.now book.old) ≡ Refuse code)) }
    ensures loaded { IfOk result (λ fault. IfNone fault (joined changes.old
        (units_from row.now despatch.now.number no_sscc despatch.now.units used.now book.old) ≡ Accept changes.new)) }
{
    let mut seen = Seen::new(alloc);
    let number = despatch.number.as_slice();
    let units = despatch.units.as_slice();
    for (unit, is_used) in units.iter().zip(used) {
        let came = has_come(&mut seen, &unit.sscc)?;
        let was_used = *is_used || came;
        if let Some(fault) = load_unit(alloc, row, number, unit, was_used, book, changes)? {
            return Ok(Some(fault));
        }
    }
    Ok(None)
}

// Decides on the units, and appends their changes.
fn judge_units(
    alloc: Global,
    row: &SupplierRow,
    despatch: &Despatch,
    used: &[bool],
    book: Book<'_>,
    changes: Items<Change>,
) -> Result<Verdict, MemoryFault>
    ensures { IfOk result (λ verdict. verdict ≡ joined changes
        (units_from row.now despatch.now.number no_sscc despatch.now.units used.now book.entry)) }
{
    let mut book = book;
    let mut changes = changes;
    match load_units(alloc, row, despatch, used, &mut book, &mut changes)? {
        Some(code) => Ok(Verdict::Refuse(code)),
        None => Ok(Verdict::Accept(changes)),
    }
}

// Returns the first changes for an advice that is accepted: its message is remembered, and its number is recorded.
fn remember_with_number(
    alloc: Global,
    row: &SupplierRow,
    incoming: IncomingMessage,
    number: &[u8],
) -> Result<Items<Change>, MemoryFault>
    ensures { IfOk result (λ changes.
        changes ≡ Remember (remembered (rules.referred_by row.now Supplier incoming) incoming.content)
        ∷ AddAdvice (record { supplier = row.now.gln; number = number.now }) ∷ []) }
{
    let advice = AdviceRow {
        supplier: row.gln,
        number: copy_bytes(alloc, number)?,
    };
    let first = remember(row.gln, Side::Supplier, incoming);
    let changes = both(alloc, first, Change::AddAdvice(advice))?;
    Ok(changes)
}

// Decides on a DESADV that is admitted and new, and whose number is not known: remembers it, then checks its units.
fn judge_new(
    alloc: Global,
    row: &SupplierRow,
    known: &Known,
    incoming: IncomingMessage,
    despatch: &Despatch,
) -> Result<Verdict, MemoryFault>
    requires { known.now.number_known ≡ false }
    ensures { IfOk result (λ verdict.
        verdict ≡ joined (Remember (remembered (rules.referred_by row.now Supplier incoming) incoming.content)
        ∷ []) (despatch_from row.now despatch.now known.now)) }
{
    let changes = remember_with_number(alloc, row, incoming, despatch.number.as_slice())?;
    let book = Book::new(alloc, &known.orders);
    let used = known.used.as_slice();
    let verdict = judge_units(alloc, row, despatch, used, book, changes)?;
    Ok(verdict)
}

// Returns the supplier of a despatch advice that is new and passes B01, B02 and B13; otherwise the verdict: a
// repetition, or the first of B01, B02, B03 and B13 that the advice breaks.
fn despatch_supplier<'a>(
    alloc: Global,
    retailer: &Gln,
    supplier: Option<&'a SupplierRow>,
    known: &Known,
    despatch: &Despatch,
) -> Result<&'a SupplierRow, Verdict>
    ensures ok { IfOk result (λ row. (used : List ℕ → Bool) (incoming : IncomingMessage) (state : Tables) →
        TellsForDespatch known.now used incoming despatch.now state →
        rules.judge_despatch retailer.now (option_copied supplier.entry) used incoming despatch.now state
        ≡ joined (Remember (remembered (rules.referred_by row.now Supplier incoming) incoming.content) ∷ [])
        (despatch_from row.now despatch.now known.now)) }
    ensures new { IfOk result (λ _. known.now.number_known ≡ false) }
    ensures err { IfErr result (λ verdict. (used : List ℕ → Bool) (incoming : IncomingMessage) (state : Tables) →
        TellsForDespatch known.now used incoming despatch.now state →
        verdict ≡ rules.judge_despatch retailer.now (option_copied supplier.entry) used incoming despatch.now state) }
{
    let row = match admitted_supplier(retailer, supplier, despatch.buyer, &despatch.supplier) {
        Ok(row) => row,
        Err(code) => return Err(Verdict::Refuse(code)),
    };
    if let Some(verdict) = repeats(alloc, known.remembered) {
        return Err(verdict);
    }
    if known.number_known {
        return Err(Verdict::Refuse(Code::AdviceKnown));
    }
    Ok(row)
}

/// Decides on a DESADV: checks B01, B02, B03 and B13 in this order; then for each unit B11 and B12, and for each of its
/// lines B05, B06, B09 and B10, on what the earlier lines left. If two units have the same SSCC, the second breaks B12.
/// `MemoryFault` if memory ran out.
pub fn judge_despatch(
    alloc: Global,
    retailer: &Gln,
    supplier: Option<&SupplierRow>,
    known: &Known,
    incoming: IncomingMessage,
    despatch: &Despatch,
) -> Result<Verdict, MemoryFault>
    ensures { IfOk result (λ verdict. (used : List ℕ → Bool) (state : Tables) →
        TellsForDespatch known.now used incoming despatch.now state →
        verdict ≡ rules.judge_despatch retailer.now
        (option_copied supplier.entry) used incoming despatch.now state) }
{
    let row = match despatch_supplier(alloc, retailer, supplier, known, despatch) {
        Ok(row) => row,
        Err(verdict) => return Ok(verdict),
    };
    let verdict = judge_new(alloc, row, known, incoming, despatch)?;
    Ok(verdict)
}
