//! Looks for a row that does not have the form of its kind.
ghost use Rattle.std.specs.Prelude.{◌≡◌, true};
ghost use Rattle.std.specs.List.{list_all};
ghost use Rattle.hub_store.specs.Clean.{are_clean, clean_hub, clean_key, clean_prefix, clean_order, clean_line, clean_advice, clean_pallet};
ghost use Rattle.hub_store.specs.Clean.{clean_content, clean_receipt, clean_remembered, clean_mail};
ghost use Rattle.hub_pieces.specs.AllRows.{Tells};
ghost use Rattle.hub_sound.specs.Showing.{ShowsUnclean};
ghost use Rattle.hub_verify.specs.Clean.{unclean_of, PartiesAreClean, OrdersAreClean, GoodsAreClean, MailIsClean};
ghost use Rattle.hub_pieces.specs.Pieces.{piece};
ghost use Rattle.hub_verify.specs.Verdict.{ToldUnclean};

use hub_pieces::{AllRows, PieceCheck, PieceRow, Read, walk_pieces};
use hub_sound::{Finding, RowKind};
use hub_store::StoreFault;
use hub_tables::{
    AdviceRow, ContentRow, LineRow, MailRow, OrderRow, PalletRow, ReceiptRow, RememberedRow,
};
use std::alloc::Global;
use std::marker::PhantomData;

// The row without the form of its kind, if there is one.
fn unclean_of<T: Drop>(kind: RowKind, read: Read<T>) -> Option<Finding>
    ensures { result ≡ unclean_of kind read }
{
    match read {
        Read::Rows(_rows) => None,
        Read::Unclean(key) => Some(Finding { kind, key }),
    }
}

// A row with this value without its form.
fn unclean_with<S: AllRows, T: PieceRow>(
    store: &mut S,
    value: &[u8],
) -> Result<Option<Finding>, StoreFault>
    ensures { Tells S.content S.honest
        (ToldUnclean (λ t. list_all T.clean (piece T.column value.now (T.rows t)) ≡ true))
        store.old store.new result }
{
    let read = T::read(store, value)?;
    let kind = T::row_kind();
    Ok(unclean_of(kind, read))
}

// Looks for rows of a kind without their form.
#[derive(Drop)]
struct Unclean<T> {
    of: PhantomData<T>,
}

impl<T: PieceRow> PieceCheck for Unclean<T> {
    ghost holds = { λ check t value. list_all T.clean (piece T.column value (T.rows t)) ≡ true };

    ghost shows = { λ check t found. ShowsUnclean t found.kind found.key };

    fn check<S: AllRows>(
        &self,
        store: &mut S,
        _alloc: Global,
        value: &[u8],
    ) -> Result<Option<Finding>, StoreFault> {
        unclean_with::<S, T>(store, value)
    }
}

// A row without its form, of a kind that is read in pieces.
fn unclean_among<S: AllRows, T: PieceRow>(
    store: &mut S,
    alloc: Global,
) -> Result<Option<Finding>, StoreFault>
    ensures { Tells S.content S.honest (ToldUnclean (λ t. list_all T.clean (T.rows t) ≡ true))
        store.old store.new result }
{
    let check = Unclean::<T> { of: PhantomData };
    let kind = T::piece_kind();
    let found = walk_pieces(store, alloc, kind, &check)?;
    Ok(found)
}

fn unclean_hub<S: AllRows>(store: &mut S) -> Result<Option<Finding>, StoreFault>
    ensures { Tells S.content S.honest (ToldUnclean (λ t. list_all clean_hub t.hubs ≡ true))
        store.old store.new result }
{
    let read = store.every_hub()?;
    Ok(unclean_of(RowKind::Hub, read))
}

fn unclean_supplier<S: AllRows>(store: &mut S) -> Result<Option<Finding>, StoreFault>
    ensures { Tells S.content S.honest (ToldUnclean (λ t. list_all clean_key t.keys ≡ true))
        store.old store.new result }
{
    let read = store.every_supplier()?;
    Ok(unclean_of(RowKind::Supplier, read))
}

fn unclean_prefix<S: AllRows>(store: &mut S) -> Result<Option<Finding>, StoreFault>
    ensures { Tells S.content S.honest (ToldUnclean (λ t. list_all clean_prefix t.prefixes ≡ true))
        store.old store.new result }
{
    let read = store.every_prefix()?;
    Ok(unclean_of(RowKind::Prefix, read))
}

fn unclean_order<S: AllRows>(store: &mut S, alloc: Global) -> Result<Option<Finding>, StoreFault>
    ensures { Tells S.content S.honest (ToldUnclean (λ t. list_all clean_order t.orders ≡ true))
        store.old store.new result }
{
    unclean_among::<S, OrderRow>(store, alloc)
}

fn unclean_line<S: AllRows>(store: &mut S, alloc: Global) -> Result<Option<Finding>, StoreFault>
    ensures { Tells S.content S.honest (ToldUnclean (λ t. list_all clean_line t.lines ≡ true))
        store.old store.new result }
{
    unclean_among::<S, LineRow>(store, alloc)
}

fn unclean_advice<S: AllRows>(store: &mut S, alloc: Global) -> Result<Option<Finding>, StoreFault>
    ensures { Tells S.content S.honest (ToldUnclean (λ t. list_all clean_advice t.advices ≡ true))
        store.old store.new result }
{
    unclean_among::<S, AdviceRow>(store, alloc)
}

fn unclean_pallet<S: AllRows>(store: &mut S, alloc: Global) -> Result<Option<Finding>, StoreFault>
    ensures { Tells S.content S.honest (ToldUnclean (λ t. list_all clean_pallet t.pallets ≡ true))
        store.old store.new result }
{
    unclean_among::<S, PalletRow>(store, alloc)
}

fn unclean_content<S: AllRows>(store: &mut S, alloc: Global) -> Result<Option<Finding>, StoreFault>
    ensures { Tells S.content S.honest (ToldUnclean (λ t. list_all clean_content t.contents ≡ true))
        store.old store.new result }
{
    unclean_among::<S, ContentRow>(store, alloc)
}

fn unclean_receipt<S: AllRows>(store: &mut S, alloc: Global) -> Result<Option<Finding>, StoreFault>
    ensures { Tells S.content S.honest (ToldUnclean (λ t. list_all clean_receipt t.receipts ≡ true))
        store.old store.new result }
{
    unclean_among::<S, ReceiptRow>(store, alloc)
}

fn unclean_remembered<S: AllRows>(
    store: &mut S,
    alloc: Global,
) -> Result<Option<Finding>, StoreFault>
    ensures { Tells S.content S.honest (ToldUnclean (λ t. list_all clean_remembered t.remembered ≡ true))
        store.old store.new result }
{
    unclean_among::<S, RememberedRow>(store, alloc)
}

fn unclean_mail<S: AllRows>(store: &mut S, alloc: Global) -> Result<Option<Finding>, StoreFault>
    ensures { Tells S.content S.honest (ToldUnclean (λ t. list_all clean_mail t.mail ≡ true))
        store.old store.new result }
{
    unclean_among::<S, MailRow>(store, alloc)
}

// A row of the register without its form.
fn unclean_party<S: AllRows>(store: &mut S) -> Result<Option<Finding>, StoreFault>
    ensures { Tells S.content S.honest (ToldUnclean PartiesAreClean) store.old store.new result }
{
    let hub = unclean_hub(store)?;
    if let Some(found) = hub {
        return Ok(Some(found));
    }
    let supplier = unclean_supplier(store)?;
    if let Some(found) = supplier {
        return Ok(Some(found));
    }
    unclean_prefix(store)
}

// A row of orders and advices without its form.
fn unclean_order_row<S: AllRows>(
    store: &mut S,
    alloc: Global,
) -> Result<Option<Finding>, StoreFault>
    ensures { Tells S.content S.honest (ToldUnclean OrdersAreClean) store.old store.new result }
{
    let order = unclean_order(store, alloc)?;
    if let Some(found) = order {
        return Ok(Some(found));
    }
    let line = unclean_line(store, alloc)?;
    if let Some(found) = line {
        return Ok(Some(found));
    }
    unclean_advice(store, alloc)
}

// A row of pallets without its form.
fn unclean_goods_row<S: AllRows>(
    store: &mut S,
    alloc: Global,
) -> Result<Option<Finding>, StoreFault>
    ensures { Tells S.content S.honest (ToldUnclean GoodsAreClean) store.old store.new result }
{
    let pallet = unclean_pallet(store, alloc)?;
    if let Some(found) = pallet {
        return Ok(Some(found));
    }
    let content = unclean_content(store, alloc)?;
    if let Some(found) = content {
        return Ok(Some(found));
    }
    unclean_receipt(store, alloc)
}

// A row of what is remembered, or of a mailbox without its form.
fn unclean_other_row<S: AllRows>(
    store: &mut S,
    alloc: Global,
) -> Result<Option<Finding>, StoreFault>
    ensures { Tells S.content S.honest (ToldUnclean MailIsClean) store.old store.new result }
{
    let remembered = unclean_remembered(store, alloc)?;
    if let Some(found) = remembered {
        return Ok(Some(found));
    }
    unclean_mail(store, alloc)
}

/// Returns a row that does not have the form of its kind, if there is one.
pub(crate) fn unclean_row<S: AllRows>(
    store: &mut S,
    alloc: Global,
) -> Result<Option<Finding>, StoreFault>
    ensures { Tells S.content S.honest (ToldUnclean (λ t. are_clean t ≡ true)) store.old store.new result }
{
    let party = unclean_party(store)?;
    if let Some(found) = party {
        return Ok(Some(found));
    }
    let order_row = unclean_order_row(store, alloc)?;
    if let Some(found) = order_row {
        return Ok(Some(found));
    }
    let goods_row = unclean_goods_row(store, alloc)?;
    if let Some(found) = goods_row {
        return Ok(Some(found));
    }
    unclean_other_row(store, alloc)
}
