//! Looks up what the rules need to know for a despatch advice.
ghost use Rattle.std.specs.Prelude.{◌≡◌, ◌≢◌, ℕ, true, false, None, Err, List, ◌∷◌, ◌++◌, [], map, IsTrue, IfOk, OnOk};
ghost use Rattle.edi_base.specs.Seen.{is_among};
ghost use Rattle.hub_tables.specs.State.{knows_order, lines_of};
ghost use Rattle.hub_tables.specs.Tables.{view, has_pallet};
ghost use Rattle.hub_store.specs.Clean.{are_clean};
ghost use Rattle.hub_store.specs.Lines.{lines_at};
ghost use Rattle.hub_store.specs.declared.fault.StoreFault.TheVariants.{Unclean};
ghost use Rattle.hub_acts.specs.Acts.{FailsOver, NoCause, Stays, any_answer, no_answer};
ghost use Rattle.hub_judges.specs.Known.{names_order};
ghost use Rattle.hub_order_lines.specs.Book.{Orders};
ghost use Rattle.hub_order_lines.specs.KnownLines.{AreUnclean};
ghost use Rattle.hub_order_lines.specs.KnownOrders.{is_kept, AddsOrder};
ghost use Rattle.hub_transactions.specs.Named.{NamedUnclean, SomeUnclean};
ghost use Rattle.hub_transactions.specs.Knowing.{KeepsNamed, KnowsForDespatch, KnowsNamed};
ghost use Rattle.hub_transactions.specs.Orders.{ForgetsOrders, KeepsOrders};

use crate::knowing::{is_repetition, keep_order, known_for_message};
use edi_base::{Items, MemoryFault};
use edi_goods::{Despatch, Unit};
use gs1_ids::Gln;
use hub_judges::{IncomingMessage, Known};
use hub_naming::{LinesOfOrders, lines_named, numbers_alone, orders_named};
use hub_order_lines::KnownOrders;
use hub_store::{Store, StoreFault};
use hub_tables::Side;
use std::alloc::Global;
use std::collections::BTreeSet;

// Looks up an order and the lines with these numbers, in two look-ups, and adds them to the known orders. Returns
// false, and adds nothing, if the rows cannot be used.
fn put_by_number<S: Store>(
    alloc: Global,
    store: &mut S,
    supplier: &Gln,
    order: &[u8],
    numbers: &BTreeSet<u32>,
    orders: &mut KnownOrders,
) -> Result<bool, StoreFault>
    ensures put { S.honest store.new → IfOk result (λ put. IsTrue put → AddsOrder order.now
        (knows_order (view supplier.now (S.content store.old)) order.now)
        (lines_at (view supplier.now (S.content store.old)) order.now numbers.now.keys) orders.old orders.new) }
    ensures same { IfOk result (λ put. (put ≡ false) → orders.new ≡ orders.old) }
    ensures also { IfOk result (λ put. IsTrue put → is_kept orders.new order.now ≡ true) }
    ensures still { IfOk result (λ put. IsTrue put → (other : List ℕ) →
        is_kept orders.old other ≡ true → is_kept orders.new other ≡ true) }
    ensures unclean { S.honest store.new → S.broken store.old ≡ None →
        are_clean (S.content store.old) ≡ true → result ≢ Err Unclean }
    ensures goes_on { OnOk result (S.broken store.new ≡ S.broken store.old) }
    ensures fails { FailsOver S.Store NoCause any_answer store.old store.new result }
    ensures stays { Stays S.Store store.old store.new }
{
    let is_there = store.order_known(supplier, order)?;
    let rows = store.lines_at(supplier, order, numbers)?;
    let put = orders.put(alloc, order, is_there, rows)?;
    Ok(put)
}

// Appends an order's number.
fn put_apart<'a>(apart: &mut Items<&'a [u8]>, order: &'a [u8]) -> Result<(), MemoryFault>
    ensures { OnOk result (apart.new ≡ apart.old ++ order.entry ∷ []) }
{
    apart.push(order)?;
    Ok(())
}

// Looks up an order that is not yet known. If all its lines are named by their numbers, reads only these and notes the
// order in `apart`; otherwise, or if these rows cannot be used, reads all lines.
fn know_order<'a, S: Store>(
    alloc: Global,
    store: &mut S,
    supplier: &Gln,
    order: &'a [u8],
    named: &LinesOfOrders<'a>,
    orders: &mut KnownOrders,
    apart: &mut Items<&'a [u8]>,
) -> Result<(), StoreFault>
    ensures known { S.honest store.new →
        KeepsNamed named.now.entries orders.old apart.old supplier.now (S.content store.old) →
        OnOk result (KeepsNamed named.now.entries orders.new apart.new supplier.now (S.content store.old)) }
    ensures also { OnOk result (is_kept orders.new order.now ≡ true) }
    ensures still { OnOk result ((other : List ℕ) →
        is_kept orders.old other ≡ true → is_kept orders.new other ≡ true) }
    ensures unclean { S.honest store.new → S.broken store.old ≡ None →
        are_clean (S.content store.old) ≡ true →
        result ≡ Err Unclean → AreUnclean (lines_of (view supplier.now (S.content store.old)) order.now) }
    ensures goes_on { OnOk result (S.broken store.new ≡ S.broken store.old) }
    ensures fails { FailsOver S.Store (S.honest store.new →
        AreUnclean (lines_of (view supplier.now (S.content store.old)) order.now))
        any_answer store.old store.new result }
    ensures stays { Stays S.Store store.old store.new }
{
    if orders.is_kept(order) {
        return Ok(());
    }
    if let Some(numbers) = numbers_alone(named, order) {
        if put_by_number(alloc, store, supplier, order, numbers, orders)? {
            put_apart(apart, order)?;
            return Ok(());
        }
    }
    keep_order(alloc, store, supplier, order, orders)
}

// Looks up each of the orders that is not yet known.
fn know_orders<'a, S: Store>(
    alloc: Global,
    store: &mut S,
    supplier: &Gln,
    numbers: &BTreeSet<&'a [u8]>,
    named: &LinesOfOrders<'a>,
    orders: &mut KnownOrders,
    apart: &mut Items<&'a [u8]>,
) -> Result<(), StoreFault>
    ensures known { S.honest store.new →
        KeepsNamed named.now.entries orders.old apart.old supplier.now (S.content store.old) →
        OnOk result (KeepsNamed named.now.entries orders.new apart.new supplier.now (S.content store.old)) }
    ensures all { OnOk result ((order : List ℕ) →
        is_among order (map (λ number. number.now) numbers.now.keys) ≡ true → is_kept orders.new order ≡ true) }
    ensures unclean { S.honest store.new → S.broken store.old ≡ None →
        are_clean (S.content store.old) ≡ true → result ≡ Err Unclean →
        SomeUnclean (map (λ number. number.now) numbers.now.keys) (view supplier.now (S.content store.old)) }
    ensures goes_on { OnOk result (S.broken store.new ≡ S.broken store.old) }
    ensures fails { FailsOver S.Store (S.honest store.new →
        SomeUnclean (map (λ number. number.now) numbers.now.keys) (view supplier.now (S.content store.old)))
        any_answer store.old store.new result }
    ensures stays { Stays S.Store store.old store.new }
{
    for number in numbers {
        know_order(alloc, store, supplier, *number, named, orders, apart)?;
    }
    Ok(())
}

/// Forgets orders.
pub(crate) fn forget_orders(orders: &mut KnownOrders, numbers: &[&[u8]])
    ensures { ForgetsOrders (map (λ number. number.now) numbers.now) orders.old orders.new }
{
    for number in numbers {
        orders.forget_order(number);
    }
}

// Builds an index for the lines of a unit that are named by their articles.
fn index_unit(alloc: Global, unit: &Unit, orders: &mut KnownOrders) -> Result<(), MemoryFault>
    ensures { orders.new ≡ orders.old }
{
    for line in unit.lines.as_slice() {
        if line.order_line.is_none() {
            orders.index(alloc, line.order.as_slice())?;
        }
    }
    Ok(())
}

// Builds an index for the lines of each unit.
fn index_units(alloc: Global, units: &[Unit], orders: &mut KnownOrders) -> Result<(), MemoryFault>
    ensures { orders.new ≡ orders.old }
{
    for unit in units {
        index_unit(alloc, unit, orders)?;
    }
    Ok(())
}

// Looks up each order that the units name and that is not yet known, and builds an index for each of which they name a
// line by its article. Returns the orders that are known only by the lines that are named.
fn know_named<'a, S: Store>(
    alloc: Global,
    store: &mut S,
    supplier: &Gln,
    units: &'a [Unit],
    orders: &mut KnownOrders,
) -> Result<Items<&'a [u8]>, StoreFault>
    ensures known { S.honest store.new → KeepsOrders orders.old (view supplier.now (S.content store.old)) →
        IfOk result (λ apart. KnowsNamed units.now orders.new apart supplier.now (S.content store.old)) }
    ensures all { OnOk result ((order : List ℕ) →
        names_order units.now order ≡ true → is_kept orders.new order ≡ true) }
    ensures unclean { S.honest store.new → S.broken store.old ≡ None →
        are_clean (S.content store.old) ≡ true →
        result ≡ Err Unclean → NamedUnclean units.now (view supplier.now (S.content store.old)) }
    ensures goes_on { OnOk result (S.broken store.new ≡ S.broken store.old) }
    ensures fails { FailsOver S.Store (S.honest store.new →
        NamedUnclean units.now (view supplier.now (S.content store.old)))
        any_answer store.old store.new result }
    ensures stays { Stays S.Store store.old store.new }
{
    let numbers = orders_named(alloc, units)?;
    let named = lines_named(alloc, units)?;
    let mut apart = Items::new(alloc);
    know_orders(alloc, store, supplier, &numbers, &named, orders, &mut apart)?;
    index_units(alloc, units, orders)?;
    Ok(apart)
}

// Appends an answer.
fn put_answer(answers: &mut Items<bool>, answer: bool) -> Result<(), MemoryFault>
    ensures { OnOk result (answers.new ≡ answers.old ++ answer ∷ []) }
{
    answers.push(answer)?;
    Ok(())
}

// Looks up whether the SSCC of each unit is in use.
fn units_in_use<S: Store>(
    alloc: Global,
    store: &mut S,
    units: &[Unit],
) -> Result<Items<bool>, StoreFault>
    ensures used { S.honest store.new →
        IfOk result (λ used. map (λ unit. has_pallet (S.content store.old) unit.sscc) units.now ≡ used) }
    ensures unclean { S.honest store.new → S.broken store.old ≡ None →
        are_clean (S.content store.old) ≡ true → result ≢ Err Unclean }
    ensures goes_on { OnOk result (S.broken store.new ≡ S.broken store.old) }
    ensures fails { FailsOver S.Store NoCause any_answer store.old store.new result }
    ensures stays { Stays S.Store store.old store.new }
{
    let mut used = Items::new(alloc);
    for unit in units {
        let is_used = store.used(&unit.sscc)?;
        put_answer(&mut used, is_used)?;
    }
    Ok(used)
}

/// Looks up what the rules need for a DESADV, in two look-ups; and, if nothing is remembered and its number is new, in
/// one more for each unit and two for each named order that is not kept (four if the lines named by number cannot be
/// used). The second part of the result lists the orders that are known by such lines only. `Unclean`: an order's lines
/// do not rise by line number, or more of one is open, refused and cancelled than is ordered.
pub(crate) fn known_for_despatch<'a, S: Store>(
    alloc: Global,
    store: &mut S,
    supplier: &Gln,
    incoming: &IncomingMessage,
    despatch: &'a Despatch,
    mut orders: KnownOrders,
) -> Result<(Known, Items<&'a [u8]>), StoreFault>
    ensures told { S.honest store.new → KeepsOrders orders (view supplier.now (S.content store.old)) →
        IfOk result (λ told. KnowsForDespatch incoming.now despatch.now supplier.now (S.content store.old) told.0) }
    ensures kept { S.honest store.new → KeepsOrders orders (view supplier.now (S.content store.old)) →
        IfOk result (λ told. (kept : Orders) →
        ForgetsOrders (map (λ number. number.now) told.1) told.0.orders kept →
        KeepsOrders kept (view supplier.now (S.content store.old))) }
    ensures unclean { S.honest store.new → S.broken store.old ≡ None →
        are_clean (S.content store.old) ≡ true →
        result ≡ Err Unclean → NamedUnclean despatch.now.units (view supplier.now (S.content store.old)) }
    ensures fails { FailsOver S.Store (S.honest store.new →
        NamedUnclean despatch.now.units (view supplier.now (S.content store.old)))
        no_answer store.old store.new result }
    ensures stays { Stays S.Store store.old store.new }
{
    let remembered = is_repetition(store, supplier, Side::Supplier, incoming)?;
    let number = despatch.number.as_slice();
    let number_known = store.advice_known(supplier, number)?;
    if remembered.is_some() || number_known {
        let known = known_for_message(alloc, remembered, number_known, orders);
        return Ok((known, Items::new(alloc)));
    }
    let units = despatch.units.as_slice();
    let used = units_in_use(alloc, store, units)?;
    let apart = know_named(alloc, store, supplier, units, &mut orders)?;
    let known = Known {
        remembered,
        orders,
        number_known,
        mails: 0,
        used,
        pallets: Items::new(alloc),
    };
    Ok((known, apart))
}
