//! Compares what is on the pallets of each supplier with the lines of its orders.
ghost use Rattle.std.specs.Prelude.{◌≡◌, ◌++◌, [], true, OnOk};
ghost use Rattle.std.specs.List.{list_all};
ghost use Rattle.hub_sound.specs.Goods.{gathered, TellsOfSupplier};
ghost use Rattle.hub_sound.specs.Showing.{IsSettled};
ghost use Rattle.hub_store.specs.Clean.{are_clean, clean_line, clean_pallet};
ghost use Rattle.hub_tables.specs.Sets.{Rising};
ghost use Rattle.hub_tables.specs.Tables.{view};
ghost use Rattle.hub_pieces.specs.AllRows.{Tells};
ghost use Rattle.hub_verify.specs.Goods.{LinesAreSettled, PalletsAreSettled, ShowsMisfit, TellsOfAll};
ghost use Rattle.hub_pieces.specs.Walk.{Told};

use edi_base::{Items, MemoryFault};
use hub_pieces::{AllRows, PieceCheck, PieceKind, rows_with, walk_pieces};
use hub_sound::{Finding, first_misfit};
use hub_store::StoreFault;
use hub_tables::{ContentRow, LineRow, PalletRow};
use std::alloc::Global;

// Puts rows after others.
fn put_all(found: &mut Items<ContentRow>, rows: Items<ContentRow>) -> Result<(), MemoryFault>
    ensures { OnOk result (found.new ≡ found.old ++ rows) }
{
    for row in rows.into_vec() {
        found.push(row)?;
    }
    Ok(())
}

// What is on the pallets, one pallet after another.
fn contents_of<S: AllRows>(
    store: &mut S,
    alloc: Global,
    pallets: &[PalletRow],
) -> Result<Items<ContentRow>, StoreFault>
    ensures { Tells S.content S.honest (λ t rows. rows ≡ gathered t pallets.now)
        store.old store.new result }
{
    let mut found = Items::new(alloc);
    for pallet in pallets {
        let sscc = pallet.sscc.digits();
        let rows = rows_with::<S, ContentRow>(store, sscc)?;
        put_all(&mut found, rows)?;
    }
    Ok(found)
}

fn lines_of<S: AllRows>(store: &mut S, supplier: &[u8]) -> Result<Items<LineRow>, StoreFault>
    ensures { Tells S.content S.honest
        (λ t rows. (rows ≡ (view supplier.now t).lines) × (list_all clean_line rows ≡ true))
        store.old store.new result }
{
    rows_with::<S, LineRow>(store, supplier)
}

fn pallets_of<S: AllRows>(store: &mut S, supplier: &[u8]) -> Result<Items<PalletRow>, StoreFault>
    ensures { Tells S.content S.honest
        (λ t rows. (rows ≡ (view supplier.now t).pallets) × (list_all clean_pallet rows ≡ true))
        store.old store.new result }
{
    rows_with::<S, PalletRow>(store, supplier)
}

// A content of a supplier without its line, or a line out of balance.
fn misfit_of<S: AllRows>(
    store: &mut S,
    alloc: Global,
    supplier: &[u8],
) -> Result<Option<Finding>, StoreFault>
    ensures { Tells S.content S.honest
        (λ t found. Rising t → are_clean t ≡ true → TellsOfSupplier supplier.now t found)
        store.old store.new result }
{
    let lines = lines_of(store, supplier)?;
    let pallets = pallets_of(store, supplier)?;
    let despatched = pallets.as_slice();
    let contents = contents_of(store, alloc, despatched)?;
    let rows = lines.as_slice();
    let goods = contents.as_slice();
    let found = first_misfit(alloc, rows, goods)?;
    Ok(found)
}

// Like `misfit_of`, as a walk over the suppliers of lines takes it.
fn misfit_with_lines<S: AllRows>(
    store: &mut S,
    alloc: Global,
    supplier: &[u8],
) -> Result<Option<Finding>, StoreFault>
    ensures { Tells S.content S.honest
        (λ t. Told (Rising t → are_clean t ≡ true → IsSettled (view supplier.now t)) (ShowsMisfit t))
        store.old store.new result }
{
    let found = misfit_of(store, alloc, supplier)?;
    Ok(found)
}

// Like `misfit_of`, for a supplier without lines; nothing for others.
fn misfit_without_lines<S: AllRows>(
    store: &mut S,
    alloc: Global,
    supplier: &[u8],
) -> Result<Option<Finding>, StoreFault>
    ensures { Tells S.content S.honest
        (λ t. Told (Rising t → are_clean t ≡ true → (view supplier.now t).lines ≡ [] → IsSettled (view supplier.now t))
        (ShowsMisfit t)) store.old store.new result }
{
    let lines = lines_of(store, supplier)?;
    let none = lines.is_empty();
    if !none {
        return Ok(None);
    }
    let found = misfit_of(store, alloc, supplier)?;
    Ok(found)
}

// Compares the goods of the suppliers that have lines.
#[derive(Drop)]
struct OfLines;

impl PieceCheck for OfLines {
    ghost holds = { λ check t gln. Rising t → are_clean t ≡ true → IsSettled (view gln t) };

    ghost shows = { λ check t. ShowsMisfit t };

    fn check<S: AllRows>(
        &self,
        store: &mut S,
        alloc: Global,
        value: &[u8],
    ) -> Result<Option<Finding>, StoreFault> {
        misfit_with_lines(store, alloc, value)
    }
}

// Compares the goods of the suppliers that have pallets and no lines.
#[derive(Drop)]
struct OfPallets;

impl PieceCheck for OfPallets {
    ghost holds = { λ check t gln. Rising t → are_clean t ≡ true → (view gln t).lines ≡ [] → IsSettled (view gln t) };

    ghost shows = { λ check t. ShowsMisfit t };

    fn check<S: AllRows>(
        &self,
        store: &mut S,
        alloc: Global,
        value: &[u8],
    ) -> Result<Option<Finding>, StoreFault> {
        misfit_without_lines(store, alloc, value)
    }
}

// A content without its line or a line out of balance, of a supplier with lines.
fn misfit_of_lines<S: AllRows>(store: &mut S, alloc: Global) -> Result<Option<Finding>, StoreFault>
    ensures { Tells S.content S.honest LinesAreSettled store.old store.new result }
{
    let found = walk_pieces(store, alloc, PieceKind::Line, &OfLines)?;
    Ok(found)
}

// A content without its line, of a supplier with pallets and no lines.
fn misfit_of_pallets<S: AllRows>(
    store: &mut S,
    alloc: Global,
) -> Result<Option<Finding>, StoreFault>
    ensures { Tells S.content S.honest PalletsAreSettled store.old store.new result }
{
    let found = walk_pieces(store, alloc, PieceKind::Pallet, &OfPallets)?;
    Ok(found)
}

/// Returns a content of any supplier without its line, or a line out of balance, if there is one.
pub(crate) fn unsound_goods<S: AllRows>(
    store: &mut S,
    alloc: Global,
) -> Result<Option<Finding>, StoreFault>
    ensures { Tells S.content S.honest
        (λ t found. Rising t → are_clean t ≡ true → TellsOfAll t found)
        store.old store.new result }
{
    let of_lines = misfit_of_lines(store, alloc)?;
    if let Some(found) = of_lines {
        return Ok(Some(found));
    }
    let found = misfit_of_pallets(store, alloc)?;
    Ok(found)
}
