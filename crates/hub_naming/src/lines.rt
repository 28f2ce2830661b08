//! Finds the order lines that a supplier's message names by their numbers.
ghost use Rattle.std.specs.Prelude.{◌≡◌, ℕ, true, Option, Some, IfOk, OnOk};
ghost use Rattle.std.specs.List.{AllByRecursion};
ghost use Rattle.std.specs.Option.{IfSome};
ghost use Rattle.hub_naming.specs.Lines.{NamesByNumber, has_number, is_named, names_line, NamesLines, NamesMore};

use edi_base::MemoryFault;
use edi_goods::{DespatchLine, Unit};
use edi_orders::{Answer, AnswerLine};
use std::alloc::Global;
use std::collections::{BTreeMap, BTreeSet};

// Returns the numbers of the answered lines, each once, or `None` if one is named by its article.
fn numbers_of(alloc: Global, said: &[AnswerLine]) -> Result<Option<BTreeSet<u32>>, MemoryFault>
    ensures { IfOk result (λ named. IfSome named (λ numbers.
        AllByRecursion (λ line. has_number numbers.keys line.order_line ≡ true) said.now)) }
{
    let mut numbers = BTreeSet::new(alloc);
    for line in said {
        let Some(number) = line.order_line else {
            return Ok(None);
        };
        numbers.insert(number)?;
    }
    Ok(Some(numbers))
}

/// Returns the numbers by which an ORDRSP names lines, each once, or `None` if it names one by its article or answers
/// the whole order.
pub fn numbers_named(alloc: Global, answer: &Answer) -> Result<Option<BTreeSet<u32>>, MemoryFault>
    ensures { IfOk result (λ named. IfSome named (λ numbers. NamesByNumber numbers.keys answer.now)) }
{
    match answer {
        Answer::AllAccepted | Answer::AllRefused => Ok(None),
        Answer::Lines(said) => numbers_of(alloc, said.as_slice()),
    }
}

/// The lines of an order that an advice names: those with these numbers, and perhaps some by their articles.
#[derive(Debug, Drop)]
pub struct LinesNamed {
    by_article: bool,
    numbers: BTreeSet<u32>,
}

impl LinesNamed {
    // Returns no lines.
    fn new(alloc: Global) -> LinesNamed {
        LinesNamed {
            by_article: false,
            numbers: BTreeSet::new(alloc),
        }
    }

    // Adds a line by its number or, without one, by its article.
    fn add(&mut self, line: Option<u32>) -> Result<(), MemoryFault>
        ensures added { OnOk result (is_named (Some self.new) line ≡ true) }
        ensures others { OnOk result ((other : Option ℕ) →
            is_named (Some self.old) other ≡ true → is_named (Some self.new) other ≡ true) }
    {
        match line {
            Some(number) => {
                self.numbers.insert(number)?;
            }
            None => self.by_article = true,
        }
        Ok(())
    }
}

/// The lines of each order that an advice names.
pub type LinesOfOrders<'a> = BTreeMap<&'a [u8], LinesNamed>;

// Adds a line of an advice.
fn put_line<'a>(
    alloc: Global,
    line: &'a DespatchLine,
    named: &mut LinesOfOrders<'a>,
) -> Result<(), MemoryFault>
    ensures named { OnOk result (names_line named.new.entries line.now.order line.now.order_line ≡ true) }
    ensures others { OnOk result (NamesMore named.old.entries named.new.entries) }
{
    let order = line.order.as_slice();
    if let Some(lines) = named.get_mut(order) {
        return lines.add(line.order_line);
    }
    let mut lines = LinesNamed::new(alloc);
    lines.add(line.order_line)?;
    named.insert(order, lines)?;
    Ok(())
}

// Adds the lines of a unit.
fn put_lines<'a>(
    alloc: Global,
    lines: &'a [DespatchLine],
    named: &mut LinesOfOrders<'a>,
) -> Result<(), MemoryFault>
    ensures named { OnOk result (NamesLines named.new.entries lines.now) }
    ensures others { OnOk result (NamesMore named.old.entries named.new.entries) }
{
    for line in lines {
        put_line(alloc, line, named)?;
    }
    Ok(())
}

/// Returns the lines that the units of an advice name.
pub fn lines_named<'a>(alloc: Global, units: &'a [Unit]) -> Result<LinesOfOrders<'a>, MemoryFault>
    ensures { IfOk result (λ named. AllByRecursion (λ unit. NamesLines named.entries unit.lines) units.now) }
{
    let mut named = BTreeMap::new(alloc);
    for unit in units {
        put_lines(alloc, unit.lines.as_slice(), &mut named)?;
    }
    Ok(named)
}

/// Returns the numbers by which an advice names the lines of an order, or `None` if it names one by its article.
pub fn numbers_alone<'n>(named: &'n LinesOfOrders<'_>, order: &[u8]) -> Option<&'n BTreeSet<u32>>
    ensures { IfSome result (λ numbers. (number : Option ℕ) →
        names_line named.now.entries order.now number ≡ true → has_number numbers.now.keys number ≡ true) }
{
    let lines = named.get(order)?;
    if lines.by_article {
        None
    } else {
        Some(&lines.numbers)
    }
}
