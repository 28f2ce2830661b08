//! Derives what is known of order lines from their rows.
ghost use Rattle.std.specs.Prelude.{◌≡◌, ◌∷◌, ◌++◌, ◌+◌, [], false, IsTrue, IfOk, OnOk};
ghost use Rattle.std.specs.List.{AllByRecursion, list_all};
ghost use Rattle.std.specs.Option.{IfSome, IfNone};
ghost use Rattle.hub_parties.specs.KeyOrder.{Rises};
ghost use Rattle.hub_parties.specs.KeyOrder.{replace};
ghost use Rattle.hub_tables.specs.Rows.{same_line};
ghost use Rattle.hub_order_lines.specs.Book.{facts_cmp, rows, IsCovered};
ghost use Rattle.hub_order_lines.specs.Key.{keys_of};
ghost use Rattle.hub_order_lines.specs.KnownLines.{AddsUp, AreUnclean, is_covered};

use crate::by_number::place_by_number;
use crate::facts::LineFacts;
use crate::rising::rise;
use edi_base::{Items, MemoryFault};
use hub_tables::{Column, LineRow};
use std::alloc::Global;
use std::marker::Model;

/// Lines that rise by order number and line number, and whose ordered quantity is what is open, refused, cancelled and
/// despatched together. They can only be made from rows that meet this.
#[derive(Debug, Drop)]
pub struct KnownLines {
    lines: Vec<LineFacts>,
}

impl Model for KnownLines {
    ghost use Rattle.std.specs.Prelude.{List};
    ghost use Rattle.hub_order_lines.specs.KnownLines.{AreKnown};
    ghost use Rattle.hub_order_lines.specs.declared.facts.LineFacts.{LineFacts};

    ghost Value = { List LineFacts };

    ghost view = { λ known. known.lines.items };

    ghost invariant = { λ known. AreKnown known.lines.items };
}

// Returns the despatched quantity: what is neither open nor refused nor cancelled. `None` if these exceed the ordered
// quantity.
#[tactic(auto, using(crate::proofs::Passing::uncovered))]
fn despatched_quantity(row: &LineRow) -> Option<u32>
    ensures adds_up { IfSome result (λ despatched.
        row.now.ordered ≡ row.now.open_qty + row.now.refused + row.now.cancelled + despatched) }
    ensures uncovered { IfNone result (is_covered row.now ≡ false) }
{
    let rest = row.ordered.checked_sub(row.open_qty)?;
    let rest = rest.checked_sub(row.refused)?;
    rest.checked_sub(row.cancelled)
}

// Returns what is known of a line. `None` if what is open, refused and cancelled exceeds the ordered quantity.
fn fact_of(row: LineRow) -> Option<LineFacts>
    ensures row { IfSome result (λ line. line.row ≡ row) }
    ensures adds_up { IfSome result AddsUp }
    ensures uncovered { IfNone result (is_covered row ≡ false) }
{
    let despatched = despatched_quantity(&row)?;
    Some(LineFacts { row, despatched })
}

// Whether the row has the supplier and the article of the line.
fn is_alike(line: &LineRow, row: &LineRow) -> bool
    ensures alike { IsTrue result → (line.now.supplier ≡ row.now.supplier) × (line.now.gtin ≡ row.now.gtin) }
{
    line.supplier == row.supplier && line.gtin == row.gtin
}

fn put_line(lines: &mut Items<LineFacts>, line: LineFacts) -> Result<(), MemoryFault>
    ensures { OnOk result (lines.new ≡ lines.old ++ line ∷ []) }
{
    lines.push(line)?;
    Ok(())
}

// Returns what is known of each line; `None` if that fails for one of them.
#[tactic(auto, using(crate::proofs::Passing::one_uncovered))]
fn facts_of_each(
    alloc: Global,
    lines: Items<LineRow>,
) -> Result<Option<Items<LineFacts>>, MemoryFault>
    ensures rows { IfOk result (λ known. IfSome known (λ facts. rows facts ≡ lines)) }
    ensures adds_up { IfOk result (λ known. IfSome known (AllByRecursion AddsUp)) }
    ensures uncovered { IfOk result (λ known. IfNone known (list_all is_covered lines ≡ false)) }
{
    let mut facts = Items::new(alloc);
    for row in lines.into_vec() {
        let Some(line) = fact_of(row) else {
            return Ok(None);
        };
        put_line(&mut facts, line)?;
    }
    Ok(Some(facts))
}

impl KnownLines {
    /// Makes an empty list, without allocating memory.
    pub fn new(alloc: Global) -> Self
        ensures { result ≡ [] }
    {
        KnownLines {
            lines: Vec::new(alloc),
        }
    }

    /// Derives what is known of lines from their rows alone. Returns `None` if the rows do not rise by order number and
    /// line number, or if what is open, refused and cancelled of a line exceeds the ordered quantity.
    #[tactic(auto, using(crate::proofs::StepsUp::facts_rise))]
    pub fn of_rows(alloc: Global, lines: Items<LineRow>) -> Result<Option<KnownLines>, MemoryFault>
        ensures rows { IfOk result (λ known. IfSome known (λ facts. rows facts ≡ lines)) }
        ensures adds_up { IfOk result (λ known. IfSome known (AllByRecursion AddsUp)) }
        ensures unclean { IfOk result (λ known. IfNone known (AreUnclean lines)) }
    {
        if !rise(lines.as_slice()) {
            return Ok(None);
        }
        match facts_of_each(alloc, lines)? {
            Some(lines) => Ok(Some(KnownLines {
                lines: lines.into_vec(),
            })),
            None => Ok(None),
        }
    }

    /// Returns the lines as a slice. What is open, refused and cancelled of a line never exceeds the ordered quantity.
    #[tactic(auto, using(crate::proofs::Passing::covered_if_adds))]
    pub fn as_slice(&self) -> &[LineFacts]
        ensures value { result.now ≡ self.now }
        ensures rise { Rises facts_cmp self.now }
        ensures adds_up { AllByRecursion AddsUp self.now }
        ensures covered { AllByRecursion IsCovered self.now }
    {
        self.lines.as_slice()
    }

    /// Replaces the row of the line that has the key of `row`. Returns false, and sets nothing, if no line has the key,
    /// the supplier or the article differs, or the open, refused and cancelled quantities exceed the ordered one.
    pub(crate) fn set(&mut self, row: &LineRow) -> bool
        ensures set { IsTrue result → rows self.new ≡ replace (same_line row.now) row.now (rows self.old) }
        ensures not_set { result ≡ false → self.new ≡ self.old }
        ensures keys { keys_of self.new ≡ keys_of self.old }
        ensures adds_up { AllByRecursion AddsUp self.new }
    {
        let number = row.number.as_slice();
        let Some(place) = place_by_number(self.lines.as_slice(), number, row.line) else {
            return false;
        };
        let Some(despatched) = despatched_quantity(row) else {
            return false;
        };
        let line = &mut self.lines[place];
        if !is_alike(&line.row, row) {
            return false;
        }
        line.row.ordered = row.ordered;
        line.row.open_qty = row.open_qty;
        line.row.refused = row.refused;
        line.row.cancelled = row.cancelled;
        line.row.answer = Column::of(row.answer.case());
        line.despatched = despatched;
        true
    }
}
