//! Looks for a row that lacks what it names.
ghost use Rattle.std.specs.Prelude.{◌≡◌, [], true, Bool, not, find, IfOk, option_copied};
ghost use Rattle.std.specs.List.{list_all};
ghost use Rattle.gs1_ids.specs.Sscc.{under_some};
ghost use Rattle.hub_founding.specs.Fits.{fits_pallet};
ghost use Rattle.hub_sound.specs.Showing.{has_order, is_on_pallet, is_of_received, goes_on, ShowsUnsound};
ghost use Rattle.hub_pieces.specs.AllRows.{Tells};
ghost use Rattle.hub_verify.specs.Cross.{ShowsUnrooted, TellsRooted, PartiesFit, RowsFit};
ghost use Rattle.hub_pieces.specs.Pieces.{piece};
ghost use Rattle.hub_sound.specs.declared.finding.RowKind.TheVariants as kinds;
ghost use Rattle.hub_pieces.specs.Walk.{Told};
ghost use Rattle.hub_verify.specs.Verdict.{ToldUnsound};

use crate::placed::Placed;
use edi_base::Items;
use gs1_ids::Sscc;
use hub_parties::SupplierRow;
use hub_pieces::{AllRows, PieceCheck, PieceKind, rows_with, walk_pieces};
use hub_register::Register;
use hub_sound::{Finding, RowKind, pallet_finding};
use hub_store::StoreFault;
use hub_tables::{ContentRow, LineRow, MailRow, PalletRow, ReceiptRow};
use std::alloc::Global;
use std::marker::PhantomData;

// The first row that is not in its place.
fn first_misplaced<'r, S: AllRows, T: Placed>(
    store: &mut S,
    rows: &'r [T],
) -> Result<Option<&'r T>, StoreFault>
    ensures { Tells S.content S.honest
        (λ t found. option_copied found ≡ find (λ row. not (T.in_place t row)) rows.now)
        store.old store.new result }
{
    for row in rows {
        let placed = row.is_placed(store)?;
        if !placed {
            return Ok(Some(row));
        }
    }
    Ok(None)
}

// A row with this value that is not in its place.
fn misplaced_with<S: AllRows, T: Placed>(
    store: &mut S,
    alloc: Global,
    value: &[u8],
) -> Result<Option<Finding>, StoreFault>
    ensures { Tells S.content S.honest
        (ToldUnsound (λ t. list_all (T.in_place t) (piece T.column value.now (T.rows t)) ≡ true))
        store.old store.new result }
{
    let rows = rows_with::<S, T>(store, value)?;
    let first = first_misplaced(store, rows.as_slice())?;
    let Some(row) = first else {
        return Ok(None);
    };
    let found = row.finding(alloc)?;
    Ok(Some(found))
}

// Looks for rows that are not in their place.
#[derive(Drop)]
struct Misplaced<T> {
    of: PhantomData<T>,
}

impl<T: Placed> PieceCheck for Misplaced<T> {
    ghost holds = { λ check t value. list_all (T.in_place t) (piece T.column value (T.rows t)) ≡ true };

    ghost shows = { λ check t found. ShowsUnsound t found.kind found.key };

    fn check<S: AllRows>(
        &self,
        store: &mut S,
        alloc: Global,
        value: &[u8],
    ) -> Result<Option<Finding>, StoreFault> {
        misplaced_with::<S, T>(store, alloc, value)
    }
}

// A row that is not in its place.
fn misplaced_row<S: AllRows, T: Placed>(
    store: &mut S,
    alloc: Global,
) -> Result<Option<Finding>, StoreFault>
    ensures { Tells S.content S.honest (ToldUnsound (λ t. list_all (T.in_place t) (T.rows t) ≡ true))
        store.old store.new result }
{
    let check = Misplaced::<T> { of: PhantomData };
    let kind = T::piece_kind();
    let found = walk_pieces(store, alloc, kind, &check)?;
    Ok(found)
}

// A line without its order.
fn unordered_line<S: AllRows>(store: &mut S, alloc: Global) -> Result<Option<Finding>, StoreFault>
    ensures { Tells S.content S.honest (ToldUnsound (λ t. list_all (has_order t) t.lines ≡ true))
        store.old store.new result }
{
    misplaced_row::<S, LineRow>(store, alloc)
}

// A content without its pallet.
fn unplaced_content<S: AllRows>(store: &mut S, alloc: Global) -> Result<Option<Finding>, StoreFault>
    ensures { Tells S.content S.honest (ToldUnsound (λ t. list_all (is_on_pallet t) t.contents ≡ true))
        store.old store.new result }
{
    misplaced_row::<S, ContentRow>(store, alloc)
}

// A receipt of a pallet that was not received.
fn unreceived_receipt<S: AllRows>(
    store: &mut S,
    alloc: Global,
) -> Result<Option<Finding>, StoreFault>
    ensures { Tells S.content S.honest (ToldUnsound (λ t. list_all (is_of_received t) t.receipts ≡ true))
        store.old store.new result }
{
    misplaced_row::<S, ReceiptRow>(store, alloc)
}

// An entry after a gap.
fn lost_entry<S: AllRows>(store: &mut S, alloc: Global) -> Result<Option<Finding>, StoreFault>
    ensures { Tells S.content S.honest (ToldUnsound (λ t. list_all (goes_on t) t.mail ≡ true))
        store.old store.new result }
{
    misplaced_row::<S, MailRow>(store, alloc)
}

// Whether the SSCC is under a prefix of the supplier.
fn is_under(supplier: &SupplierRow, sscc: &Sscc) -> bool
    ensures { result ≡ under_some sscc.now supplier.now.prefixes }
{
    supplier
        .prefixes
        .as_slice()
        .iter()
        .any(|prefix| sscc.under(prefix))
}

// Whether the SSCC of a pallet is under a prefix of its supplier, who is registered.
fn is_rooted(register: &Register, pallet: &PalletRow) -> bool
    ensures { result ≡ fits_pallet register.now pallet.now }
{
    // The contract of this call says that the digits are an SSCC.
    let _digits = pallet.sscc.digits();
    match register.supplier(&pallet.supplier) {
        Some(supplier) => is_under(supplier, &pallet.sscc),
        None => false,
    }
}

// The first pallet whose SSCC is under no prefix of its supplier.
fn first_unrooted<'p>(register: &Register, pallets: &'p [PalletRow]) -> Option<&'p PalletRow>
    ensures { option_copied result ≡ find (λ pallet. not (fits_pallet register.now pallet)) pallets.now }
{
    for pallet in pallets {
        let rooted = is_rooted(register, pallet);
        if !rooted {
            return Some(pallet);
        }
    }
    None
}

// A pallet of this supplier that is under none of its prefixes.
fn unrooted_with<S: AllRows>(
    store: &mut S,
    alloc: Global,
    register: &Register,
    supplier: &[u8],
) -> Result<Option<Finding>, StoreFault>
    ensures { Tells S.content S.honest (λ t. Told
        (list_all (fits_pallet register.now) (piece (λ row. row.supplier) supplier.now t.pallets) ≡ true)
        (ShowsUnrooted register.now t)) store.old store.new result }
{
    let pallets = rows_with::<S, PalletRow>(store, supplier)?;
    let Some(pallet) = first_unrooted(register, pallets.as_slice()) else {
        return Ok(None);
    };
    let found = pallet_finding(alloc, pallet)?;
    Ok(Some(found))
}

// Looks for pallets that are under no prefix of their supplier.
#[derive(Drop)]
struct Unrooted<'r> {
    register: &'r Register,
}

impl<'r> PieceCheck for Unrooted<'r> {
    ghost holds = { λ check t value.
        list_all (fits_pallet check.register.now) (piece (λ row. row.supplier) value t.pallets) ≡ true };

    ghost shows = { λ check t. ShowsUnrooted check.register.now t };

    fn check<S: AllRows>(
        &self,
        store: &mut S,
        alloc: Global,
        value: &[u8],
    ) -> Result<Option<Finding>, StoreFault> {
        unrooted_with(store, alloc, self.register, value)
    }
}

// A pallet that is under no prefix of its supplier.
fn unrooted_pallet<S: AllRows>(
    store: &mut S,
    alloc: Global,
    register: &Register,
) -> Result<Option<Finding>, StoreFault>
    ensures { Tells S.content S.honest (TellsRooted register.now) store.old store.new result }
{
    let check = Unrooted { register };
    let found = walk_pieces(store, alloc, PieceKind::Pallet, &check)?;
    Ok(found)
}

// Says that no register is held.
fn no_register(alloc: Global) -> Finding
    ensures { (result.kind ≡ kinds.Hub) × (result.key ≡ []) }
{
    Finding {
        kind: RowKind::Hub,
        key: Items::new(alloc),
    }
}

// That no register is held, or a pallet that is under no prefix of its supplier.
fn unsound_party<S: AllRows>(store: &mut S, alloc: Global) -> Result<Option<Finding>, StoreFault>
    ensures { Tells S.content S.honest (ToldUnsound PartiesFit) store.old store.new result }
{
    let held = store.register()?;
    let Some(register) = held else {
        return Ok(Some(no_register(alloc)));
    };
    let found = unrooted_pallet(store, alloc, &register)?;
    Ok(found)
}

/// Returns a row that lacks what it names, if there is one; of contents, the pallet alone.
pub(crate) fn unsound_row<S: AllRows>(
    store: &mut S,
    alloc: Global,
) -> Result<Option<Finding>, StoreFault>
    ensures { Tells S.content S.honest (ToldUnsound RowsFit) store.old store.new result }
{
    let party = unsound_party(store, alloc)?;
    if let Some(found) = party {
        return Ok(Some(found));
    }
    let line = unordered_line(store, alloc)?;
    if let Some(found) = line {
        return Ok(Some(found));
    }
    let content = unplaced_content(store, alloc)?;
    if let Some(found) = content {
        return Ok(Some(found));
    }
    let receipt = unreceived_receipt(store, alloc)?;
    if let Some(found) = receipt {
        return Ok(Some(found));
    }
    lost_entry(store, alloc)
}
