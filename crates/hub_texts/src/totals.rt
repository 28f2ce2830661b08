//! Totals what is announced and received of the articles on a pallet.
ghost use Rattle.std.specs.Prelude.{◌≡◌, ◌+◌, ◌^◌, ◌≤◌, List, [], Err, sum_by, IfOk, IfErr, OnOk, OnErr};
ghost use Rattle.std.specs.BTreeMap.{insert_entry};
ghost use Rattle.hub_parties.specs.KeyOrder.{bytes_cmp, Rises};
ghost use Rattle.hub_tables.specs.declared.rows.LineRow.{LineRow};
ghost use Rattle.hub_order_lines.specs.Book.{place_cmp};
ghost use Rattle.hub_texts.specs.Totals as spec;
ghost use Rattle.hub_texts.specs.declared.fault.TextFault.TheVariants.{Memory, Unclean};

use crate::articles::article_of;
use crate::fault::TextFault;
use gs1_ids::Gtin;
use hub_tables::{ContentRow, LineRow, ReceiptRow};
use std::alloc::Global;
use std::collections::BTreeMap;

/// The quantities of an article on a pallet that are announced and received, in pieces.
#[derive(Clone, Copy, Debug)]
pub(crate) struct Totals {
    pub(crate) despatched: u64,
    pub(crate) accepted: u64,
    pub(crate) returned: u64,
    pub(crate) destroyed: u64,
}

/// Totals by article.
pub(crate) type ArticleTotals = BTreeMap<Gtin, Totals>;

// Returns the totals of an article, all zero if it has none.
fn totals_of(table: &ArticleTotals, gtin: &Gtin) -> Totals
    ensures { result ≡ spec.totals_at table.now.entries gtin.now }
{
    match table.get(gtin) {
        Some(totals) => *totals,
        None => Totals {
            despatched: 0,
            accepted: 0,
            returned: 0,
            destroyed: 0,
        },
    }
}

// Returns the sum, or `Unclean` if it does not fit 64 bits.
fn sum_of(first: u64, second: u64) -> Result<u64, TextFault>
    ensures ok { IfOk result (λ sum. sum ≡ first + second) }
    ensures err { OnErr result (2 ^ 64 ≤ first + second) }
{
    match first.checked_add(second) {
        Some(sum) => Ok(sum),
        None => Err(TextFault::Unclean),
    }
}

// Adds one content to the totals.
fn with_content(totals: Totals, content: &ContentRow) -> Result<Totals, TextFault>
    ensures ok { IfOk result (λ more. more ≡ spec.with_content content.now totals) }
    ensures err { OnErr result (2 ^ 64 ≤ totals.despatched + content.now.quantity) }
{
    Ok(Totals {
        despatched: sum_of(totals.despatched, content.quantity as u64)?,
        accepted: totals.accepted,
        returned: totals.returned,
        destroyed: totals.destroyed,
    })
}

// Adds one receipt to the totals.
fn with_receipt(totals: Totals, receipt: &ReceiptRow) -> Result<Totals, TextFault>
    ensures ok { IfOk result (λ more. more ≡ spec.with_receipt receipt.now totals) }
    ensures err { OnErr result (2 ^ 64 ≤ spec.received totals + spec.pieces_of receipt.now) }
{
    Ok(Totals {
        despatched: totals.despatched,
        accepted: sum_of(totals.accepted, receipt.accepted as u64)?,
        returned: sum_of(totals.returned, receipt.returned as u64)?,
        destroyed: sum_of(totals.destroyed, receipt.destroyed as u64)?,
    })
}

fn set_totals(table: &mut ArticleTotals, gtin: Gtin, totals: Totals) -> Result<(), TextFault>
    ensures ok { OnOk result (table.new.entries ≡ insert_entry bytes_cmp table.old.entries gtin totals) }
    ensures err { IfErr result (λ fault. fault ≡ Memory) }
{
    table.insert(gtin, totals)?;
    Ok(())
}

// Adds a content to the totals of its article.
fn count_content(
    table: &mut ArticleTotals,
    lines: &[LineRow],
    content: &ContentRow,
) -> Result<(), TextFault>
    requires { Rises place_cmp lines.now }
    ensures ok { OnOk result (table.new.entries
        ≡ spec.count_content lines.now content.now table.old.entries) }
    ensures unclean { result ≡ Err Unclean → spec.Uncounted lines.now content.now table.old.entries }
{
    let Some(gtin) = article_of(lines, content) else {
        return Err(TextFault::Unclean);
    };
    let totals = with_content(totals_of(table, &gtin), content)?;
    set_totals(table, gtin, totals)
}

// Adds a receipt to the totals of its article.
fn count_receipt(table: &mut ArticleTotals, receipt: &ReceiptRow) -> Result<(), TextFault>
    ensures ok { OnOk result (table.new.entries ≡ spec.count_receipt receipt.now table.old.entries) }
    ensures unclean { result ≡ Err Unclean →
        2 ^ 64 ≤ spec.received (spec.totals_at table.old.entries receipt.now.gtin) + spec.pieces_of receipt.now }
{
    let gtin = receipt.gtin;
    let totals = with_receipt(totals_of(table, &gtin), receipt)?;
    set_totals(table, gtin, totals)
}

// Adds the receipts of a pallet, beginning with the last.
fn count_receipts(table: &mut ArticleTotals, receipts: &[ReceiptRow]) -> Result<(), TextFault>
    requires { table.old.entries ≡ [] }
    ensures ok { (lines : List LineRow) →
        OnOk result (table.new.entries ≡ spec.table_of lines [] receipts.now) }
    ensures unclean { result ≡ Err Unclean → 2 ^ 64 ≤ sum_by spec.pieces_of receipts.now }
{
    let mut left = receipts.len();
    while left > 0 {
        left -= 1;
        count_receipt(table, &receipts[left])?;
    }
    Ok(())
}

// Adds the contents of a pallet with these receipts, beginning with the last.
fn count_contents(
    table: &mut ArticleTotals,
    lines: &[LineRow],
    contents: &[ContentRow],
    receipts: &[ReceiptRow],
) -> Result<(), TextFault>
    requires rise { Rises place_cmp lines.now }
    requires receipts { table.old.entries ≡ spec.table_of lines.now [] receipts.now }
    ensures ok { OnOk result (table.new.entries ≡ spec.table_of lines.now contents.now receipts.now) }
    ensures unclean { result ≡ Err Unclean → spec.IsUnclean lines.now contents.now receipts.now }
{
    let mut left = contents.len();
    while left > 0 {
        left -= 1;
        count_content(table, lines, &contents[left])?;
    }
    Ok(())
}

/// Returns the articles on a pallet with their totals, in the order of their digits. The time grows with the number of
/// contents and receipts, times a logarithm of that number and of the number of lines.
pub(crate) fn article_totals(
    alloc: Global,
    lines: &[LineRow],
    contents: &[ContentRow],
    receipts: &[ReceiptRow],
) -> Result<ArticleTotals, TextFault>
    requires { Rises place_cmp lines.now }
    ensures ok { IfOk result (λ table. table.entries ≡ spec.table_of lines.now contents.now receipts.now) }
    ensures unclean { result ≡ Err Unclean → spec.IsUnclean lines.now contents.now receipts.now }
{
    let mut table = BTreeMap::new(alloc);
    count_receipts(&mut table, receipts)?;
    count_contents(&mut table, lines, contents, receipts)?;
    Ok(table)
}
