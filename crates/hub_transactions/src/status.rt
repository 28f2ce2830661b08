//! Writes the status report of a supplier.
ghost use Rattle.std.specs.Prelude.{◌≡◌, ◌≢◌, ◌⊎◌, ◌++◌, [], true, None, Err, IfOk, IfErr, OnOk};
ghost use Rattle.std.specs.List.{flat_map};
ghost use Rattle.hub_parties.specs.KeyOrder.{Rises};
ghost use Rattle.hub_tables.specs.Sets.{Has};
ghost use Rattle.hub_tables.specs.State.{contents_of, receipts_of};
ghost use Rattle.hub_tables.specs.Tables.{Tables, view};
ghost use Rattle.hub_tables.specs.declared.rows.PalletRow.{PalletRow};
ghost use Rattle.hub_store.specs.Clean.{are_clean};
ghost use Rattle.hub_store.specs.declared.fault.StoreFault.TheVariants.{Memory, Unclean};
ghost use Rattle.hub_rules.specs.Sound.{Kept};
ghost use Rattle.hub_order_lines.specs.Book.{place_cmp};
ghost use Rattle.hub_acts.specs.HubLaw.Replies.{done};
ghost use Rattle.hub_acts.specs.HubLaw.StatusText.{pallet_text, status_text};
ghost use Rattle.hub_acts.specs.HubTexts.Totals.{IsUnclean};
ghost use Rattle.hub_acts.specs.Acts.{FailsOver, NoCause, Stays, any_answer, no_answer};
ghost use Rattle.hub_transactions.specs.Status.{PalletUnclean, SeesPallet, StatusUnclean};

use edi_base::Items;
use gs1_ids::Gln;
use hub_acts::texts::{TextFault, with_lines, with_pallet};
use hub_acts::{Reply, done_reply};
use hub_order_lines::rise;
use hub_store::{Store, StoreFault};
use hub_tables::{Arrival, ContentRow, LineRow, PalletRow, ReceiptRow};
use std::alloc::Global;

// Appends the lines of a pallet to a text.
fn with_text(
    alloc: Global,
    lines: &[LineRow],
    pallet: &PalletRow,
    contents: &[ContentRow],
    receipts: &[ReceiptRow],
    text: Vec<u8>,
) -> Result<Vec<u8>, StoreFault>
    requires { Rises place_cmp lines.now }
    ensures text { (state : Tables) → state.lines ≡ lines.now →
        contents_of state pallet.now.sscc ≡ contents.now → receipts_of state pallet.now.sscc ≡ receipts.now →
        IfOk result (λ whole. whole.items ≡ text.items ++ pallet_text state pallet.now) }
    ensures unclean { result ≡ Err Unclean → IsUnclean lines.now contents.now receipts.now }
    ensures faults { IfErr result (λ fault.
        (fault ≡ Memory) ⊎ ((fault ≡ Unclean) × IsUnclean lines.now contents.now receipts.now)) }
{
    match with_pallet(alloc, lines, pallet, contents, receipts, text) {
        Ok(whole) => Ok(whole),
        Err(TextFault::Memory) => Err(StoreFault::Memory),
        Err(TextFault::Unclean) => Err(StoreFault::Unclean),
    }
}

// Looks up what was received of a pallet. An announced pallet needs no look-up, because nothing was received of it.
fn receipt_rows_of<S: Store>(
    alloc: Global,
    store: &mut S,
    pallet: &PalletRow,
) -> Result<Items<ReceiptRow>, StoreFault>
    ensures rows { S.honest store.new → (state : Tables) → SeesPallet state (S.content store.old) pallet.now →
        IfOk result (λ rows. rows ≡ receipts_of state pallet.now.sscc) }
    ensures some { S.honest store.new →
        IfOk result (λ rows. (rows ≡ []) ⊎ (rows ≡ receipts_of (S.content store.old) pallet.now.sscc)) }
    ensures unclean { S.honest store.new → S.broken store.old ≡ None →
        are_clean (S.content store.old) ≡ true → result ≢ Err Unclean }
    ensures goes_on { OnOk result (S.broken store.new ≡ S.broken store.old) }
    ensures fails { FailsOver S.Store NoCause any_answer store.old store.new result }
    ensures stays { Stays S.Store store.old store.new }
{
    if pallet.received.case() == Arrival::Announced {
        return Ok(Items::new(alloc));
    }
    let received = store.receipts_on(&pallet.sscc)?;
    Ok(received)
}

// Looks up each pallet, and appends its lines to a text.
fn with_pallets<S: Store>(
    alloc: Global,
    store: &mut S,
    lines: &[LineRow],
    pallets: &[PalletRow],
    text: Vec<u8>,
) -> Result<Vec<u8>, StoreFault>
    requires { Rises place_cmp lines.now }
    ensures text { S.honest store.new → (state : Tables) → state.lines ≡ lines.now →
        ((pallet : PalletRow) → Has pallets.now pallet → SeesPallet state (S.content store.old) pallet) →
        IfOk result (λ whole. whole.items ≡ text.items ++ flat_map (pallet_text state) pallets.now) }
    ensures unclean { S.honest store.new → S.broken store.old ≡ None →
        are_clean (S.content store.old) ≡ true →
        result ≡ Err Unclean → PalletUnclean (S.content store.old) lines.now pallets.now }
    ensures fails { FailsOver S.Store (S.honest store.new → PalletUnclean (S.content store.old) lines.now pallets.now)
        any_answer store.old store.new result }
    ensures stays { Stays S.Store store.old store.new }
{
    let mut whole = text;
    for pallet in pallets {
        let announced = store.contents_on(&pallet.sscc)?;
        let received = receipt_rows_of(alloc, store, pallet)?;
        let contents = announced.as_slice();
        let receipts = received.as_slice();
        whole = with_text(alloc, lines, pallet, contents, receipts, whole)?;
    }
    Ok(whole)
}

/// Writes the status report of a supplier: its lines, then its pallets, in two look-ups, one for each pallet and one
/// more for each received one. `Unclean`: rows do not rise by order number and line number, a content names no line, or a
/// sum has more than 64 bits.
pub fn status_report<S: Store>(
    alloc: Global,
    store: &mut S,
    supplier: &Gln,
) -> Result<Reply, StoreFault>
    ensures reply { S.honest store.new → Kept (view supplier.now (S.content store.old)) →
        IfOk result (λ reply. reply ≡ done (status_text (view supplier.now (S.content store.old)))) }
    ensures unclean { S.honest store.new → S.broken store.old ≡ None →
        are_clean (S.content store.old) ≡ true →
        result ≡ Err Unclean → StatusUnclean (view supplier.now (S.content store.old)) }
    ensures fails { FailsOver S.Store (S.honest store.new →
        StatusUnclean (view supplier.now (S.content store.old)))
        no_answer store.old store.new result }
    ensures stays { Stays S.Store store.old store.new }
{
    let ordered = store.all_lines(supplier)?;
    let lines = ordered.as_slice();
    if !rise(lines) {
        return Err(StoreFault::Unclean);
    }
    let despatched = store.all_pallets(supplier)?;
    let pallets = despatched.as_slice();
    let of_lines = with_lines(lines, Vec::new(alloc))?;
    let mut text = with_pallets(alloc, store, lines, pallets, of_lines)?;
    text.extend_from_slice(b"end\n")?;
    let body = Items::from_vec(text);
    Ok(done_reply(body))
}
