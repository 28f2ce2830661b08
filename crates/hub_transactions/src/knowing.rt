//! Looks up what the rules need to know of a supplier's rows for a message or a cancellation.
ghost use Rattle.std.specs.Prelude.{◌≡◌, ◌≢◌, ◌⊎◌, ℕ, List, [], ◌∷◌, ◌++◌, map, true, false, None, Err, IfOk, IfErr, OnOk, option_map};
ghost use Rattle.hub_tables.specs.Rows.{same};
ghost use Rattle.hub_tables.specs.State.{knows_order, lines_of, pallet_of, remembered_content};
ghost use Rattle.hub_tables.specs.Tables.{view};
ghost use Rattle.hub_store.specs.Calls.{Fails, Looks};
ghost use Rattle.hub_store.specs.Clean.{are_clean};
ghost use Rattle.hub_store.specs.declared.fault.StoreFault.TheVariants.{Memory, Unclean};
ghost use Rattle.hub_order_lines.specs.KnownLines.{AreUnclean};
ghost use Rattle.hub_order_lines.specs.KnownOrders.{is_kept, AddsOrder};
ghost use Rattle.std.specs.Option.{IfSome, unwrap_or};
ghost use Rattle.hub_rules.specs.Sound.{Kept};
ghost use Rattle.hub_judges.specs.Known.{TellsForCancel, TellsForOrder, TellsForReceipt};
ghost use Rattle.hub_acts.specs.Acts.{FailsOver, NoCause, Stays, any_answer, no_answer};
ghost use Rattle.hub_transactions.specs.Knowing.{KnowsForResponse, KnowsOrder};
ghost use Rattle.hub_transactions.specs.Named.{NamedLines};
ghost use Rattle.hub_transactions.specs.Orders.{KeepsOrders};

use edi_base::{Items, MemoryFault};
use edi_goods::{Receipt, ReceiptUnit};
use edi_orders::{Answer, Order, Response};
use gs1_ids::Gln;
use hub_judges::{Cancel, IncomingMessage, Known};
use hub_naming::numbers_named;
use hub_order_lines::KnownOrders;
use hub_store::{Store, StoreFault};
use hub_tables::{LineRow, PalletRow, Side};
use std::alloc::Global;

/// Returns whether the content remembered under the references of a message is its own, or `None` if nothing is
/// remembered, in one look-up.
pub(crate) fn is_repetition<S: Store>(
    store: &mut S,
    supplier: &Gln,
    side: Side,
    incoming: &IncomingMessage,
) -> Result<Option<bool>, StoreFault>
    ensures looks { Looks S.content S.honest S.left S.broken store.old store.new
        (option_map (λ there. same there incoming.now.content) (remembered_content
        (view supplier.now (S.content store.old)) side incoming.now.control incoming.now.message)) result }
    ensures fails { Fails S.plain (S.broken store.old) (S.broken store.new) result }
{
    let control = incoming.control.as_slice();
    let message = incoming.message.as_slice();
    let content = incoming.content.as_slice();
    store.matches_remembered(supplier, side, control, message, content)
}

/// Looks up what the rules need for an ORDERS, in three look-ups.
#[tactic(auto, using(crate::proofs::LookUps::mails_known))]
pub(crate) fn known_for_order<S: Store>(
    alloc: Global,
    store: &mut S,
    supplier: &Gln,
    incoming: &IncomingMessage,
    order: &Order,
) -> Result<Known, StoreFault>
    ensures told { S.honest store.new → Kept (view supplier.now (S.content store.old)) →
        IfOk result (λ known.
        TellsForOrder known incoming.now order.now (view supplier.now (S.content store.old))) }
    ensures unclean { S.honest store.new → S.broken store.old ≡ None →
        are_clean (S.content store.old) ≡ true → result ≢ Err Unclean }
    ensures fails { FailsOver S.Store NoCause no_answer store.old store.new result }
    ensures stays { Stays S.Store store.old store.new }
{
    let remembered = is_repetition(store, supplier, Side::Retailer, incoming)?;
    let number = order.number.as_slice();
    let number_known = store.order_known(supplier, number)?;
    let mails = store.last_mail(supplier)?;
    Ok(Known {
        remembered,
        orders: KnownOrders::new(alloc),
        number_known,
        mails,
        used: Items::new(alloc),
        pallets: Items::new(alloc),
    })
}

// Adds an order with the lines that were looked up. `Unclean` if its lines cannot be used.
fn put_order(
    alloc: Global,
    order: &[u8],
    is_there: bool,
    given: Items<LineRow>,
    orders: &mut KnownOrders,
) -> Result<(), StoreFault>
    ensures put { OnOk result (AddsOrder order.now is_there given orders.old orders.new) }
    ensures unclean { result ≡ Err Unclean → AreUnclean given }
    ensures faults { IfErr result (λ fault. (fault ≡ Memory) ⊎ ((fault ≡ Unclean) × AreUnclean given)) }
{
    if orders.put(alloc, order, is_there, given)? {
        Ok(())
    } else {
        Err(StoreFault::Unclean)
    }
}

/// Looks up an order and its lines, in two look-ups, unless it is already known. `Unclean`: its lines do not rise by
/// line number, or more of one is open, refused and cancelled than is ordered.
pub(crate) fn keep_order<S: Store>(
    alloc: Global,
    store: &mut S,
    supplier: &Gln,
    order: &[u8],
    orders: &mut KnownOrders,
) -> Result<(), StoreFault>
    ensures kept { S.honest store.new → KeepsOrders orders.old (view supplier.now (S.content store.old)) →
        OnOk result (KeepsOrders orders.new (view supplier.now (S.content store.old))) }
    ensures added { S.honest store.new → OnOk result (is_kept orders.old order.now ≡ false → AddsOrder order.now
        (knows_order (view supplier.now (S.content store.old)) order.now)
        (lines_of (view supplier.now (S.content store.old)) order.now) orders.old orders.new) }
    ensures also { OnOk result (is_kept orders.new order.now ≡ true) }
    ensures still { OnOk result ((other : List ℕ) →
        is_kept orders.old other ≡ true → is_kept orders.new other ≡ true) }
    ensures unclean { S.honest store.new → S.broken store.old ≡ None →
        are_clean (S.content store.old) ≡ true →
        result ≡ Err Unclean → AreUnclean (lines_of (view supplier.now (S.content store.old)) order.now) }
    ensures goes_on { OnOk result (S.broken store.new ≡ S.broken store.old) }
    ensures fails { FailsOver S.Store (S.honest store.new →
        AreUnclean (lines_of (view supplier.now (S.content store.old)) order.now))
        any_answer store.old store.new result }
    ensures stays { Stays S.Store store.old store.new }
{
    if orders.is_kept(order) {
        return Ok(());
    }
    let is_there = store.order_known(supplier, order)?;
    let rows = store.lines_of(supplier, order)?;
    put_order(alloc, order, is_there, rows, orders)
}

// Returns what is known of an order and its lines, besides what is remembered and the kept orders. `Unclean` as in
// `keep_order`.
fn known_of_order<S: Store>(
    alloc: Global,
    store: &mut S,
    supplier: &Gln,
    order: &[u8],
    remembered: Option<bool>,
    mut orders: KnownOrders,
) -> Result<Known, StoreFault>
    ensures told { S.honest store.new → KeepsOrders orders (view supplier.now (S.content store.old)) →
        IfOk result (λ known. KnowsOrder known (view supplier.now (S.content store.old)) order.now) }
    ensures kept { S.honest store.new → KeepsOrders orders (view supplier.now (S.content store.old)) →
        IfOk result (λ known. KeepsOrders known.orders (view supplier.now (S.content store.old))) }
    ensures remembered { IfOk result (λ known. known.remembered ≡ remembered) }
    ensures unclean { S.honest store.new → S.broken store.old ≡ None →
        are_clean (S.content store.old) ≡ true →
        result ≡ Err Unclean → AreUnclean (lines_of (view supplier.now (S.content store.old)) order.now) }
    ensures goes_on { OnOk result (S.broken store.new ≡ S.broken store.old) }
    ensures fails { FailsOver S.Store (S.honest store.new →
        AreUnclean (lines_of (view supplier.now (S.content store.old)) order.now))
        any_answer store.old store.new result }
    ensures stays { Stays S.Store store.old store.new }
{
    keep_order(alloc, store, supplier, order, &mut orders)?;
    Ok(Known {
        remembered,
        orders,
        number_known: false,
        mails: 0,
        used: Items::new(alloc),
        pallets: Items::new(alloc),
    })
}

/// Returns what is known for a supplier's message: what is remembered, whether its number is known, and orders.
pub(crate) fn known_for_message(
    alloc: Global,
    remembered: Option<bool>,
    number_known: bool,
    orders: KnownOrders,
) -> Known
    ensures remembered { result.remembered ≡ remembered }
    ensures number { result.number_known ≡ number_known }
    ensures orders { result.orders ≡ orders }
{
    Known {
        remembered,
        orders,
        number_known,
        mails: 0,
        used: Items::new(alloc),
        pallets: Items::new(alloc),
    }
}

// Whether a line is named only by its article.
fn names_an_article(answer: &Answer) -> bool {
    match answer {
        Answer::AllAccepted | Answer::AllRefused => false,
        Answer::Lines(said) => said.as_slice().iter().any(|line| line.order_line.is_none()),
    }
}

// Looks up the order that an ORDRSP answers, in two look-ups: whether it exists, and only the lines named by their
// numbers. Returns `None` if the order is kept, a line is named by its article, the whole order is answered, or the
// rows cannot be used.
fn named_lines<S: Store>(
    alloc: Global,
    store: &mut S,
    supplier: &Gln,
    response: &Response,
    kept: &KnownOrders,
) -> Result<Option<KnownOrders>, StoreFault>
    ensures named { S.honest store.new →
        IfOk result (λ named. IfSome named (NamedLines response.now (view supplier.now (S.content store.old)))) }
    ensures unclean { S.honest store.new → S.broken store.old ≡ None →
        are_clean (S.content store.old) ≡ true → result ≢ Err Unclean }
    ensures goes_on { OnOk result (S.broken store.new ≡ S.broken store.old) }
    ensures fails { FailsOver S.Store NoCause any_answer store.old store.new result }
    ensures stays { Stays S.Store store.old store.new }
{
    let order = response.order.as_slice();
    if kept.is_kept(order) {
        return Ok(None);
    }
    let Some(numbers) = numbers_named(alloc, &response.answer)? else {
        return Ok(None);
    };
    let is_there = store.order_known(supplier, order)?;
    let rows = store.lines_at(supplier, order, &numbers)?;
    let mut orders = KnownOrders::new(alloc);
    if orders.put(alloc, order, is_there, rows)? {
        Ok(Some(orders))
    } else {
        Ok(None)
    }
}

/// Looks up what the rules need for an ORDRSP, in one look-up, and two more if nothing is remembered and its order is
/// not kept (four if the lines named by number cannot be used, which sound rows always can). Also returns the orders
/// kept before, if the order is known only by the lines that are named by their numbers. `Unclean`: the order's lines do
/// not rise by line number, or more of one is open, refused and cancelled than is ordered.
pub(crate) fn known_for_response<S: Store>(
    alloc: Global,
    store: &mut S,
    supplier: &Gln,
    incoming: &IncomingMessage,
    response: &Response,
    orders: KnownOrders,
) -> Result<(Known, Option<KnownOrders>), StoreFault>
    ensures told { S.honest store.new → Kept (view supplier.now (S.content store.old)) →
        KeepsOrders orders (view supplier.now (S.content store.old)) →
        IfOk result (λ told. KnowsForResponse incoming.now response.now supplier.now (S.content store.old) told.0) }
    ensures kept { S.honest store.new → KeepsOrders orders (view supplier.now (S.content store.old)) →
        IfOk result (λ told. KeepsOrders (unwrap_or told.1 told.0.orders) (view supplier.now (S.content store.old))) }
    ensures unclean { S.honest store.new → S.broken store.old ≡ None →
        are_clean (S.content store.old) ≡ true →
        result ≡ Err Unclean →
        AreUnclean (lines_of (view supplier.now (S.content store.old)) response.now.order) }
    ensures fails { FailsOver S.Store (S.honest store.new →
        AreUnclean (lines_of (view supplier.now (S.content store.old)) response.now.order))
        no_answer store.old store.new result }
    ensures stays { Stays S.Store store.old store.new }
{
    let order = response.order.as_slice();
    let remembered = is_repetition(store, supplier, Side::Supplier, incoming)?;
    if remembered.is_some() {
        return Ok((known_for_message(alloc, remembered, false, orders), None));
    }
    if let Some(named) = named_lines(alloc, store, supplier, response, &orders)? {
        return Ok((
            known_for_message(alloc, remembered, false, named),
            Some(orders),
        ));
    }
    let mut known = known_of_order(alloc, store, supplier, order, remembered, orders)?;
    if names_an_article(&response.answer) {
        known.orders.index(alloc, order)?;
    }
    Ok((known, None))
}

/// Looks up what the rules need for a cancellation with this content, in three look-ups. `Unclean` as for an ORDRSP.
pub(crate) fn known_for_cancel<S: Store>(
    alloc: Global,
    store: &mut S,
    cancel: &Cancel,
    content: &[u8],
) -> Result<Known, StoreFault>
    ensures told { S.honest store.new →
        IfOk result (λ known.
        TellsForCancel known content.now cancel.now (view cancel.now.supplier (S.content store.old))) }
    ensures unclean { S.honest store.new → S.broken store.old ≡ None →
        are_clean (S.content store.old) ≡ true →
        result ≡ Err Unclean →
        AreUnclean (lines_of (view cancel.now.supplier (S.content store.old)) cancel.now.order) }
    ensures fails { FailsOver S.Store (S.honest store.new →
        AreUnclean (lines_of (view cancel.now.supplier (S.content store.old)) cancel.now.order))
        no_answer store.old store.new result }
    ensures stays { Stays S.Store store.old store.new }
{
    let supplier = &cancel.supplier;
    let order = cancel.order.as_slice();
    let control = cancel.reference.as_slice();
    let side = Side::Cancellation;
    let remembered = store.matches_remembered(supplier, side, control, &[], content)?;
    let none = KnownOrders::new(alloc);
    let known = known_of_order(alloc, store, supplier, order, remembered, none)?;
    Ok(known)
}

// Appends a pallet, or that there is none.
fn put_pallet(
    pallets: &mut Items<Option<PalletRow>>,
    pallet: Option<PalletRow>,
) -> Result<(), MemoryFault>
    ensures { OnOk result (pallets.new ≡ pallets.old ++ pallet ∷ []) }
{
    pallets.push(pallet)?;
    Ok(())
}

// Looks up the pallet of each received unit.
fn pallets_of<S: Store>(
    alloc: Global,
    store: &mut S,
    supplier: &Gln,
    units: &[ReceiptUnit],
) -> Result<Items<Option<PalletRow>>, StoreFault>
    ensures found { S.honest store.new →
        IfOk result (λ pallets.
        map (λ unit. pallet_of (view supplier.now (S.content store.old)) unit.sscc) units.now
        ≡ pallets) }
    ensures unclean { S.honest store.new → S.broken store.old ≡ None →
        are_clean (S.content store.old) ≡ true → result ≢ Err Unclean }
    ensures fails { FailsOver S.Store NoCause any_answer store.old store.new result }
    ensures stays { Stays S.Store store.old store.new }
{
    let mut pallets = Items::new(alloc);
    for unit in units {
        let pallet = store.pallet(supplier, &unit.sscc)?;
        put_pallet(&mut pallets, pallet)?;
    }
    Ok(pallets)
}

/// Looks up what the rules need for a RECADV, in two look-ups and one for each unit.
#[tactic(auto, using(crate::proofs::LookUps::mails_known))]
pub(crate) fn known_for_receipt<S: Store>(
    alloc: Global,
    store: &mut S,
    supplier: &Gln,
    incoming: &IncomingMessage,
    receipt: &Receipt,
) -> Result<Known, StoreFault>
    ensures told { S.honest store.new → Kept (view supplier.now (S.content store.old)) →
        IfOk result (λ known. TellsForReceipt known incoming.now receipt.now
        (view supplier.now (S.content store.old))) }
    ensures unclean { S.honest store.new → S.broken store.old ≡ None →
        are_clean (S.content store.old) ≡ true → result ≢ Err Unclean }
    ensures fails { FailsOver S.Store NoCause no_answer store.old store.new result }
    ensures stays { Stays S.Store store.old store.new }
{
    let remembered = is_repetition(store, supplier, Side::Retailer, incoming)?;
    let mails = store.last_mail(supplier)?;
    let units = receipt.units.as_slice();
    let pallets = pallets_of(alloc, store, supplier, units)?;
    Ok(Known {
        remembered,
        orders: KnownOrders::new(alloc),
        number_known: false,
        mails,
        used: Items::new(alloc),
        pallets,
    })
}
