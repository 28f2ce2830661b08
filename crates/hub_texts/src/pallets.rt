//! Writes the pallets of the status report.
ghost use Rattle.std.specs.Prelude.{◌≡◌, ◌+◌, ◌++◌, ◌∷◌, Err, IfOk, OnOk};
ghost use Rattle.std.specs.Fmt.{decimal};
ghost use Rattle.std.specs.List.{flat_map};
ghost use Rattle.hub_parties.specs.KeyOrder.{Rises};
ghost use Rattle.hub_tables.specs.State.{is_announced, contents_of, receipts_of};
ghost use Rattle.hub_tables.specs.Tables.{Tables};
ghost use Rattle.hub_order_lines.specs.Book.{place_cmp};
ghost use Rattle.hub_law.specs.StatusText as law;
ghost use Rattle.hub_law.specs.Widths.{right};
ghost use Rattle.hub_texts.specs.Pallets as spec;
ghost use Rattle.hub_texts.specs.Totals.{article_line, IsUnclean};
ghost use Rattle.hub_texts.specs.declared.fault.TextFault.TheVariants.{Unclean};

use crate::fault::TextFault;
use crate::fields::{put_blanks, put_end, put_next, put_number};
use crate::totals::{ArticleTotals, Totals, article_totals};
use edi_base::MemoryFault;
use gs1_ids::Gtin;
use hub_tables::{Arrival, ContentRow, LineRow, PalletRow, ReceiptRow};
use itoa::Buffer;
use std::alloc::Global;

fn is_announced(pallet: &PalletRow) -> bool
    ensures { result ≡ is_announced pallet.now }
{
    pallet.received.case() == Arrival::Announced
}

// Returns the letter of a pallet's state.
fn letter_of(pallet: &PalletRow) -> &'static str
    ensures { result.now ≡ law.arrival_text pallet.now }
{
    match pallet.received.case() {
        Arrival::Announced => "A",
        Arrival::Received => "R",
        Arrival::Replaced => "C",
    }
}

// Appends a number with its sign, right-aligned in 15 columns, after another field.
fn put_signed(out: &mut Vec<u8>, sign: u8, number: u128) -> Result<(), MemoryFault>
    ensures { OnOk result (out.new.items ≡ out.old.items ++ 0x20 ∷ right 15 (sign ∷ decimal number)) }
{
    let mut digits = Buffer::new();
    let text = digits.format(number).as_bytes();
    out.push(b' ')?;
    put_blanks(out, 15usize.saturating_sub(text.len() + 1))?;
    out.push(sign)?;
    out.extend_from_slice(text)?;
    Ok(())
}

// Appends the difference between what is received and what is despatched.
fn put_difference(
    out: &mut Vec<u8>,
    pallet: &PalletRow,
    received: u128,
    despatched: u128,
) -> Result<(), MemoryFault>
    ensures { OnOk result (out.new.items ≡ out.old.items
        ++ 0x20 ∷ right 15 (law.difference pallet.now received despatched)) }
{
    if is_announced(pallet) {
        put_signed(out, b'+', 0)
    } else if despatched <= received {
        put_signed(out, b'+', received - despatched)
    } else {
        put_signed(out, b'-', despatched - received)
    }
}

// Appends the beginning of an article's line, up to the pallet's state.
fn put_article_start(out: &mut Vec<u8>, pallet: &PalletRow, gtin: &Gtin) -> Result<(), MemoryFault>
    ensures { OnOk result (out.new.items ≡ out.old.items ++ spec.article_start pallet.now gtin.now) }
{
    out.push(b'P')?;
    put_next(out, pallet.sscc.digits())?;
    put_next(out, gtin.digits())?;
    put_next(out, letter_of(pallet).as_bytes())?;
    Ok(())
}

// Appends the totals of an article's line.
fn put_totals(out: &mut Vec<u8>, totals: &Totals) -> Result<(), MemoryFault>
    ensures { OnOk result (out.new.items ≡ out.old.items ++ spec.totals_text totals.now) }
{
    put_number(out, 14, totals.despatched)?;
    put_number(out, 14, totals.accepted)?;
    put_number(out, 14, totals.returned)?;
    put_number(out, 14, totals.destroyed)?;
    Ok(())
}

// Returns all that is received of an article.
fn received_total(totals: &Totals) -> u128
    ensures { result ≡ totals.now.accepted + totals.now.returned + totals.now.destroyed }
{
    totals.accepted as u128 + totals.returned as u128 + totals.destroyed as u128
}

// Appends the line of an article.
fn put_article(
    out: &mut Vec<u8>,
    pallet: &PalletRow,
    gtin: &Gtin,
    totals: &Totals,
) -> Result<(), MemoryFault>
    ensures { OnOk result (out.new.items ≡ out.old.items ++ article_line pallet.now (gtin.now, totals.now)) }
{
    put_article_start(out, pallet, gtin)?;
    put_totals(out, totals)?;
    put_difference(
        out,
        pallet,
        received_total(totals),
        totals.despatched as u128,
    )?;
    put_end(out)?;
    Ok(())
}

// Appends the lines of articles.
fn put_articles(
    out: &mut Vec<u8>,
    pallet: &PalletRow,
    articles: &ArticleTotals,
) -> Result<(), MemoryFault>
    ensures { OnOk result (out.new.items ≡ out.old.items
        ++ flat_map (article_line pallet.now) articles.now.entries) }
{
    for (gtin, totals) in articles {
        put_article(out, pallet, gtin, totals)?;
    }
    Ok(())
}

/// Appends the status report's lines for a pallet with its contents and receipts to a text; `lines` are all lines of
/// its supplier. Fails with `Unclean` if a content names none of the lines, or if a sum of quantities does not fit 64
/// bits. After a fault, the text is lost.
pub fn with_pallet(
    alloc: Global,
    lines: &[LineRow],
    pallet: &PalletRow,
    contents: &[ContentRow],
    receipts: &[ReceiptRow],
    text: Vec<u8>,
) -> Result<Vec<u8>, TextFault>
    requires { Rises place_cmp lines.now }
    ensures text { (state : Tables) → state.lines ≡ lines.now →
        contents_of state pallet.now.sscc ≡ contents.now → receipts_of state pallet.now.sscc ≡ receipts.now →
        IfOk result (λ whole. whole.items ≡ text.items ++ law.pallet_text state pallet.now) }
    ensures unclean { result ≡ Err Unclean → IsUnclean lines.now contents.now receipts.now }
{
    let articles = article_totals(alloc, lines, contents, receipts)?;
    let mut whole = text;
    put_articles(&mut whole, pallet, &articles)?;
    Ok(whole)
}
