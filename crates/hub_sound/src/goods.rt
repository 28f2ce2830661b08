//! Compares what is on the pallets of a supplier with the lines of its orders.
ghost use Rattle.std.specs.Prelude.{◌≡◌, ◌+◌, ◌&&◌, ◌==◌, ℕ, List, None, IfOk, OnOk, IsTrue, not, is_some, find};
ghost use Rattle.std.specs.Prelude.{if◌then◌else◌, option_map, option_copied};
ghost use Rattle.std.specs.List.{list_all};
ghost use Rattle.hub_store.specs.Clean.{clean_line};
ghost use Rattle.hub_tables.specs.Rows.{same};
ghost use Rattle.hub_sound.specs.Goods as spec;
ghost use Rattle.hub_sound.specs.declared.finding.RowKind.TheVariants as kinds;

use crate::finding::{Finding, content_finding, line_finding};
use edi_base::{GREATEST, MemoryFault};
use hub_tables::{ContentRow, LineRow};
use std::alloc::Global;
use std::collections::BTreeMap;

// What is despatched of lines, by order number and line number.
type Sent<'a> = BTreeMap<(&'a [u8], u32), u64>;

// What is despatched of a line that is known.
fn sent_at<'a>(sent: &Sent<'a>, number: &'a [u8], line: u32) -> Option<u64>
    ensures { result ≡ spec.sent_at sent.now number.now line }
{
    sent.get(&(number, line)).copied()
}

// Puts a line of which nothing is despatched.
fn put_line<'a>(sent: &mut Sent<'a>, line: &'a LineRow) -> Result<(), MemoryFault>
    ensures { OnOk result ((number : List ℕ) (n : ℕ) → spec.sent_at sent.new number n
        ≡ (if same line.now.number number && (line.now.line == n) then Some 0
        else spec.sent_at sent.old number n)) }
{
    let number = line.number.as_slice();
    sent.insert((number, line.line), 0)?;
    Ok(())
}

// The lines, of which nothing is despatched so far.
fn none_sent<'a>(alloc: Global, lines: &'a [LineRow]) -> Result<Sent<'a>, MemoryFault>
    ensures { IfOk result (λ sent. (number : List ℕ) (n : ℕ) →
        spec.sent_at sent number n ≡ spec.none_from None number n lines.now) }
{
    let mut sent: Sent<'a> = BTreeMap::new(alloc);
    for line in lines {
        put_line(&mut sent, line)?;
    }
    Ok(sent)
}

// A sum with one more, as far as it may still be what a line orders.
fn with_more(sum: u64, quantity: u32) -> u64
    ensures { result ≡ spec.with_more sum quantity }
{
    if sum > GREATEST {
        sum
    } else {
        sum + u64::from(quantity)
    }
}

// Puts the quantity of a content to its line, if that is known.
fn put_content<'a>(sent: &mut Sent<'a>, content: &'a ContentRow) -> Result<(), MemoryFault>
    ensures { OnOk result ((number : List ℕ) (n : ℕ) → spec.sent_at sent.new number n
        ≡ (if same content.now.number number && (content.now.line == n)
        then option_map (λ sum. spec.with_more sum content.now.quantity) (spec.sent_at sent.old number n)
        else spec.sent_at sent.old number n)) }
{
    let number = content.number.as_slice();
    let Some(before) = sent_at(sent, number, content.line) else {
        return Ok(());
    };
    let sum = with_more(before, content.quantity);
    sent.insert((number, content.line), sum)?;
    Ok(())
}

// What is despatched of the lines, with these contents.
fn with_contents<'a>(
    mut sent: Sent<'a>,
    contents: &'a [ContentRow],
) -> Result<Sent<'a>, MemoryFault>
    ensures { IfOk result (λ after. (number : List ℕ) (n : ℕ) →
        spec.sent_at after number n ≡ spec.sent_from (spec.sent_at sent.entry number n) number n contents.now) }
{
    for content in contents {
        put_content(&mut sent, content)?;
    }
    Ok(sent)
}

// Whether the line of a content is known.
fn has_line<'a>(sent: &Sent<'a>, content: &'a ContentRow) -> bool
    ensures { result ≡ is_some (spec.sent_at sent.now content.now.number content.now.line) }
{
    sent_at(sent, content.number.as_slice(), content.line).is_some()
}

// What is open, refused and cancelled.
fn sum_of(open_qty: u32, refused: u32, cancelled: u32) -> u64
    ensures { result ≡ open_qty + refused + cancelled }
{
    u64::from(open_qty) + u64::from(refused) + u64::from(cancelled)
}

// Whether the rest and the sum are what is ordered.
fn adds_up(ordered: u32, rest: u64, sum: u64) -> bool
    ensures { result ≡ (ordered == rest + sum) }
{
    let ordered = u64::from(ordered);
    rest <= ordered && ordered - rest == sum
}

// Whether ordered is open, refused, cancelled and despatched together.
fn is_settled<'a>(sent: &Sent<'a>, line: &'a LineRow) -> bool
    ensures { result ≡ spec.is_sent_settled sent.now line.now }
{
    let sum = sent_at(sent, line.number.as_slice(), line.line).unwrap_or(0);
    let rest = sum_of(line.open_qty, line.refused, line.cancelled);
    adds_up(line.ordered, rest, sum)
}

// The first content without its line.
fn first_without_line<'a>(sent: &Sent<'a>, contents: &'a [ContentRow]) -> Option<&'a ContentRow>
    ensures { option_copied result
        ≡ find (λ content. not (is_some (spec.sent_at sent.now content.number content.line))) contents.now }
{
    for content in contents {
        let known = has_line(sent, content);
        if !known {
            return Some(content);
        }
    }
    None
}

// The first line that is out of balance.
fn first_unsettled<'a>(sent: &Sent<'a>, lines: &'a [LineRow]) -> Option<&'a LineRow>
    ensures { option_copied result ≡ find (λ line. not (spec.is_sent_settled sent.now line)) lines.now }
{
    for line in lines {
        let settled = is_settled(sent, line);
        if !settled {
            return Some(line);
        }
    }
    None
}

/// Returns the first content whose line is missing, or else the first line that is out of balance. The time grows as
/// n log n with n lines and contents.
pub fn first_misfit<'a>(
    alloc: Global,
    lines: &'a [LineRow],
    contents: &'a [ContentRow],
) -> Result<Option<Finding>, MemoryFault>
    ensures { IsTrue (list_all clean_line lines.now) →
        IfOk result (spec.TellsSettled (spec.goods_of lines.now contents.now)) }
{
    let sent = none_sent(alloc, lines)?;
    if let Some(content) = first_without_line(&sent, contents) {
        let found = content_finding(alloc, content)?;
        return Ok(Some(found));
    }
    let sent = with_contents(sent, contents)?;
    match first_unsettled(&sent, lines) {
        Some(line) => {
            let found = line_finding(alloc, line)?;
            Ok(Some(found))
        }
        None => Ok(None),
    }
}
