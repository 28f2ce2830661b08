//! Decides on a message: reads it, looks up what the rules need, and applies them.
ghost use Rattle.std.specs.Prelude.{◌≡◌, ◌≢◌, true, Some, None, Ok, Err, IfOk, OnOk};
ghost use Rattle.edi_orders.specs.Order.{order_of};
ghost use Rattle.edi_orders.specs.Response.{response_of};
ghost use Rattle.edi_goods.specs.Despatch.{despatch_of};
ghost use Rattle.edi_goods.specs.Receipt.{receipt_of};
ghost use Rattle.hub_parties.specs.Rows.{IsRegister, parties_of, supplier_row};
ghost use Rattle.hub_tables.specs.State.{lines_of};
ghost use Rattle.hub_tables.specs.Tables.{view, has_pallet};
ghost use Rattle.hub_store.specs.Clean.{are_clean};
ghost use Rattle.hub_store.specs.declared.fault.StoreFault.TheVariants.{Unclean};
ghost use Rattle.hub_order_lines.specs.KnownLines.{AreUnclean};
ghost use Rattle.hub_rules.specs.Laws.{Registered, SoundUnder};
ghost use Rattle.hub_rules.specs.Rules as rules;
ghost use Rattle.hub_rules.specs.Sound.{Kept};
ghost use Rattle.hub_rules.specs.declared.verdict.Verdict.TheVariants.{Refuse};
ghost use Rattle.hub_acts.specs.HubLaw.Messages.{body_of, order_act, receipt_act, response_act, despatch_act};
ghost use Rattle.hub_acts.specs.HubLaw.Messages.{deliver_retailers, deliver_suppliers};
ghost use Rattle.hub_acts.specs.HubLaw.Requests.{deliver_named};
ghost use Rattle.hub_acts.specs.Acts.{FailsOver, NoCause, Stays, no_answer};
ghost use Rattle.hub_acts.specs.HubClean.Clean.{WithinMessage};
ghost use Rattle.hub_transactions.specs.Judged.{CannotBeRead, JudgedOfRetailer, JudgedOfSupplier, UnreadFor, UnreadOf};
ghost use Rattle.hub_transactions.specs.Named.{MessageUnclean, NamedUnclean};
ghost use Rattle.hub_transactions.specs.Orders.{KeepsOrders};
ghost use Rattle.hub_transactions.specs.JudgesClean.{JudgesClean};
ghost use Rattle.hub_transactions.specs.declared.judged.Judged.TheVariants.{Read};

use crate::despatches::{forget_orders, known_for_despatch};
use crate::knowing::{known_for_order, known_for_receipt, known_for_response};
use crate::laws::lines_of_sound_tables_are_known;
use edi_envelope::{RawMessage, mail_message_text};
use edi_goods::{Despatch, Receipt};
use edi_messages::MessageFault;
use edi_orders::{Order, Response};
use gs1_ids::Gln;
use hub_judges::{
    Code, IncomingMessage, Known, Verdict, judge_despatch, judge_order, judge_receipt,
    judge_response, judges_are_given_what_they_ask, party_fault,
};
use hub_order_lines::KnownOrders;
use hub_parties::SupplierRow;
use hub_register::Register;
use hub_rules::accepted_changes_fit;
use hub_store::{Store, StoreFault};
use std::alloc::Global;
use std::mem;

/// The decision on a message.
#[derive(Debug, Drop)]
pub(crate) enum Judged {
    /// It was read, and this is the verdict of the rules.
    Read(Verdict),
    /// It cannot be read.
    Unread(MessageFault),
}

// Refuses a supplier's message that the rules refuse whatever is known. One look-up checks that the store still works;
// it reads as little as possible.
fn refuse<S: Store>(store: &mut S, supplier: &Gln, code: Code) -> Result<Judged, StoreFault>
    ensures refused { IfOk result (λ judged. judged ≡ Read (Refuse code)) }
    ensures unclean { S.honest store.new → S.broken store.old ≡ None →
        are_clean (S.content store.old) ≡ true → result ≢ Err Unclean }
    ensures fails { FailsOver S.Store NoCause no_answer store.old store.new result }
    ensures stays { Stays S.Store store.old store.new }
{
    store.order_known(supplier, &[])?;
    Ok(Judged::Read(Verdict::Refuse(code)))
}

// Decides on a message that cannot be read for this fault. If that is that memory ran out, nothing is decided.
fn unread(fault: MessageFault) -> Result<Judged, StoreFault>
    ensures { UnreadFor fault result }
{
    match fault {
        MessageFault::Memory => Err(StoreFault::Memory),
        fault => Ok(Judged::Unread(fault)),
    }
}

// Looks up what the rules need for an ORDERS of the retailer, and decides on it.
fn decide_read_order<S: Store>(
    alloc: Global,
    register: &Register,
    store: &mut S,
    message: &RawMessage,
    incoming: IncomingMessage,
    order: &Order,
) -> Result<Judged, StoreFault>
    ensures judged { S.honest store.new → Kept (view order.now.supplier (S.content store.old)) →
        IfOk result (λ judged. judged ≡ Read (rules.judge_order register.now.retailer
        (supplier_row register.now.suppliers order.now.supplier) incoming (body_of message.now) order.now
        (view order.now.supplier (S.content store.old)))) }
    ensures unclean { S.honest store.new → S.broken store.old ≡ None →
        are_clean (S.content store.old) ≡ true → result ≢ Err Unclean }
    ensures register { IsRegister register.now }
    ensures fails { FailsOver S.Store NoCause no_answer store.old store.new result }
    ensures stays { Stays S.Store store.old store.new }
{
    let supplier = register.supplier(&order.supplier);
    let known = known_for_order(alloc, store, &order.supplier, &incoming, order)?;
    let body = mail_message_text(alloc, message)?;
    let retailer = register.retailer();
    let verdict = judge_order(alloc, retailer, supplier, &known, incoming, body, order)?;
    Ok(Judged::Read(verdict))
}

// Decides on an ORDERS of the retailer.
fn decide_order<S: Store>(
    alloc: Global,
    register: &Register,
    store: &mut S,
    message: &RawMessage,
    incoming: IncomingMessage,
) -> Result<Judged, StoreFault>
    ensures judged { JudgedOfRetailer S.Store register.now order_act (message.now, incoming)
        store.old store.new result }
    ensures fails { FailsOver S.Store NoCause (CannotBeRead (order_of message.now))
        store.old store.new result }
    ensures stays { Stays S.Store store.old store.new }
    ensures clean { SoundUnder register.now.suppliers (S.content store.old) → WithinMessage message.now incoming →
        JudgesClean S.Store store.old store.new result }
{
    accepted_changes_fit();
    match Order::read(alloc, message) {
        Ok(order) => decide_read_order(alloc, register, store, message, incoming, &order),
        Err(fault) => unread(fault),
    }
}

// Looks up what the rules need for a RECADV of the retailer, and decides on it.
fn decide_read_receipt<S: Store>(
    alloc: Global,
    register: &Register,
    store: &mut S,
    message: &RawMessage,
    incoming: IncomingMessage,
    receipt: &Receipt,
) -> Result<Judged, StoreFault>
    requires { receipt_of message.now ≡ Ok receipt.now }
    ensures judged { S.honest store.new → Kept (view receipt.now.supplier (S.content store.old)) →
        IfOk result (λ judged. judged ≡ Read (rules.judge_receipt register.now.retailer
        (supplier_row register.now.suppliers receipt.now.supplier) incoming (body_of message.now) receipt.now
        (view receipt.now.supplier (S.content store.old)))) }
    ensures unclean { S.honest store.new → S.broken store.old ≡ None →
        are_clean (S.content store.old) ≡ true → result ≢ Err Unclean }
    ensures register { IsRegister register.now }
    ensures fails { FailsOver S.Store NoCause no_answer store.old store.new result }
    ensures stays { Stays S.Store store.old store.new }
{
    judges_are_given_what_they_ask();
    let supplier = register.supplier(&receipt.supplier);
    let known = known_for_receipt(alloc, store, &receipt.supplier, &incoming, receipt)?;
    let body = mail_message_text(alloc, message)?;
    let retailer = register.retailer();
    let verdict = judge_receipt(alloc, retailer, supplier, &known, incoming, body, receipt)?;
    Ok(Judged::Read(verdict))
}

// Decides on a RECADV of the retailer.
fn decide_receipt<S: Store>(
    alloc: Global,
    register: &Register,
    store: &mut S,
    message: &RawMessage,
    incoming: IncomingMessage,
) -> Result<Judged, StoreFault>
    ensures judged { JudgedOfRetailer S.Store register.now receipt_act (message.now, incoming)
        store.old store.new result }
    ensures fails { FailsOver S.Store NoCause (CannotBeRead (receipt_of message.now))
        store.old store.new result }
    ensures stays { Stays S.Store store.old store.new }
    ensures clean { SoundUnder register.now.suppliers (S.content store.old) → WithinMessage message.now incoming →
        JudgesClean S.Store store.old store.new result }
{
    accepted_changes_fit();
    match Receipt::read(alloc, message) {
        Ok(receipt) => decide_read_receipt(alloc, register, store, message, incoming, &receipt),
        Err(fault) => unread(fault),
    }
}

// Looks up what the rules need for an ORDRSP of a supplier, and decides on it; `orders` are those kept from earlier
// messages.
fn decide_read_response<S: Store>(
    alloc: Global,
    register: &Register,
    supplier: &SupplierRow,
    store: &mut S,
    incoming: IncomingMessage,
    response: &Response,
    orders: &mut KnownOrders,
) -> Result<Judged, StoreFault>
    ensures judged { S.honest store.new → Kept (view supplier.now.gln (S.content store.old)) →
        KeepsOrders orders.old (view supplier.now.gln (S.content store.old)) →
        IfOk result (λ judged. judged ≡ Read (rules.judge_response register.now.retailer (Some supplier.now)
        incoming response.now (view supplier.now.gln (S.content store.old)))) }
    ensures kept { S.honest store.new → KeepsOrders orders.old (view supplier.now.gln (S.content store.old)) →
        OnOk result (KeepsOrders orders.new (view supplier.now.gln (S.content store.old))) }
    ensures unclean { S.honest store.new → S.broken store.old ≡ None →
        are_clean (S.content store.old) ≡ true → result ≡ Err Unclean →
        AreUnclean (lines_of (view supplier.now.gln (S.content store.old)) response.now.order) }
    ensures register { IsRegister register.now }
    ensures fails { FailsOver S.Store (S.honest store.new →
        AreUnclean (lines_of (view supplier.now.gln (S.content store.old)) response.now.order))
        no_answer store.old store.new result }
    ensures stays { Stays S.Store store.old store.new }
{
    let retailer = register.retailer();
    if let Some(code) = party_fault(
        retailer,
        Some(supplier),
        Some(response.buyer),
        &response.supplier,
    ) {
        return refuse(store, &supplier.gln, code);
    }
    let kept = mem::replace(orders, KnownOrders::new(alloc));
    let (known, apart) = known_for_response(
        alloc,
        store,
        &supplier.gln,
        &incoming,
        response,
        kept,
    )?;
    let verdict = judge_response(alloc, retailer, Some(supplier), &known, incoming, response)?;
    *orders = apart.unwrap_or(known.orders);
    Ok(Judged::Read(verdict))
}

// Decides on an ORDRSP of a supplier; `orders` are those kept from earlier messages.
fn decide_response<S: Store>(
    alloc: Global,
    register: &Register,
    supplier: &SupplierRow,
    store: &mut S,
    message: &RawMessage,
    incoming: IncomingMessage,
    orders: &mut KnownOrders,
) -> Result<Judged, StoreFault>
    ensures judged { KeepsOrders orders.old (view supplier.now.gln (S.content store.old)) →
        JudgedOfSupplier S.Store register.now supplier.now response_act
        (message.now, incoming) store.old store.new result }
    ensures kept { S.honest store.new → KeepsOrders orders.old (view supplier.now.gln (S.content store.old)) →
        OnOk result (KeepsOrders orders.new (view supplier.now.gln (S.content store.old))) }
    ensures fails { FailsOver S.Store (S.honest store.new →
        MessageUnclean message.now (view supplier.now.gln (S.content store.old)))
        (CannotBeRead (response_of message.now)) store.old store.new result }
    ensures stays { Stays S.Store store.old store.new }
    ensures clean { KeepsOrders orders.old (view supplier.now.gln (S.content store.old)) →
        Registered register.now.suppliers supplier.now (S.content store.old) →
        WithinMessage message.now incoming → JudgesClean S.Store store.old store.new result }
{
    accepted_changes_fit();
    lines_of_sound_tables_are_known();
    match Response::read(alloc, message) {
        Ok(response) => decide_read_response(
            alloc, register, supplier, store, incoming, &response, orders,
        ),
        Err(fault) => unread(fault),
    }
}

// Returns the orders that are known.
fn orders_of(known: Known) -> KnownOrders
    ensures { result ≡ known.orders }
{
    known.orders
}

// Looks up what the rules need for a DESADV of a supplier, and decides on it; `orders` are those kept from earlier
// messages.
fn decide_read_despatch<S: Store>(
    alloc: Global,
    register: &Register,
    supplier: &SupplierRow,
    store: &mut S,
    incoming: IncomingMessage,
    despatch: &Despatch,
    orders: &mut KnownOrders,
) -> Result<Judged, StoreFault>
    ensures judged { S.honest store.new → KeepsOrders orders.old (view supplier.now.gln (S.content store.old)) →
        IfOk result (λ judged. judged ≡ Read (rules.judge_despatch register.now.retailer (Some supplier.now)
        (has_pallet (S.content store.old)) incoming despatch.now
        (view supplier.now.gln (S.content store.old)))) }
    ensures kept { S.honest store.new → KeepsOrders orders.old (view supplier.now.gln (S.content store.old)) →
        OnOk result (KeepsOrders orders.new (view supplier.now.gln (S.content store.old))) }
    ensures unclean { S.honest store.new → S.broken store.old ≡ None →
        are_clean (S.content store.old) ≡ true → result ≡ Err Unclean →
        NamedUnclean despatch.now.units (view supplier.now.gln (S.content store.old)) }
    ensures register { IsRegister register.now }
    ensures fails { FailsOver S.Store (S.honest store.new →
        NamedUnclean despatch.now.units (view supplier.now.gln (S.content store.old)))
        no_answer store.old store.new result }
    ensures stays { Stays S.Store store.old store.new }
{
    let retailer = register.retailer();
    if let Some(code) = party_fault(retailer, Some(supplier), despatch.buyer, &despatch.supplier) {
        return refuse(store, &supplier.gln, code);
    }
    let kept = mem::replace(orders, KnownOrders::new(alloc));
    let (known, apart) = known_for_despatch(
        alloc,
        store,
        &supplier.gln,
        &incoming,
        despatch,
        kept,
    )?;
    let verdict = judge_despatch(alloc, retailer, Some(supplier), &known, incoming, despatch)?;
    *orders = orders_of(known);
    forget_orders(orders, apart.as_slice());
    Ok(Judged::Read(verdict))
}

// Decides on a DESADV of a supplier; `orders` are those kept from earlier messages.
fn decide_despatch<S: Store>(
    alloc: Global,
    register: &Register,
    supplier: &SupplierRow,
    store: &mut S,
    message: &RawMessage,
    incoming: IncomingMessage,
    orders: &mut KnownOrders,
) -> Result<Judged, StoreFault>
    ensures judged { KeepsOrders orders.old (view supplier.now.gln (S.content store.old)) →
        JudgedOfSupplier S.Store register.now supplier.now despatch_act
        (message.now, incoming) store.old store.new result }
    ensures kept { S.honest store.new → KeepsOrders orders.old (view supplier.now.gln (S.content store.old)) →
        OnOk result (KeepsOrders orders.new (view supplier.now.gln (S.content store.old))) }
    ensures fails { FailsOver S.Store (S.honest store.new →
        MessageUnclean message.now (view supplier.now.gln (S.content store.old)))
        (CannotBeRead (despatch_of message.now)) store.old store.new result }
    ensures stays { Stays S.Store store.old store.new }
    ensures clean { KeepsOrders orders.old (view supplier.now.gln (S.content store.old)) →
        Registered register.now.suppliers supplier.now (S.content store.old) →
        WithinMessage message.now incoming → JudgesClean S.Store store.old store.new result }
{
    accepted_changes_fit();
    lines_of_sound_tables_are_known();
    match Despatch::read(alloc, message) {
        Ok(despatch) => decide_read_despatch(
            alloc, register, supplier, store, incoming, &despatch, orders,
        ),
        Err(fault) => unread(fault),
    }
}

/// Decides on a message of the retailer: an ORDERS or a RECADV, for the supplier that it names.
pub(crate) fn decide_for_retailer<S: Store>(
    alloc: Global,
    register: &Register,
    store: &mut S,
    message: &RawMessage,
    incoming: IncomingMessage,
) -> Result<Judged, StoreFault>
    ensures judged { JudgedOfRetailer S.Store register.now deliver_retailers
        (message.now, incoming) store.old store.new result }
    ensures fails { FailsOver S.Store NoCause
        (UnreadOf (deliver_named register.now (message.now, incoming))) store.old store.new result }
    ensures stays { Stays S.Store store.old store.new }
    ensures clean { SoundUnder register.now.suppliers (S.content store.old) → WithinMessage message.now incoming →
        JudgesClean S.Store store.old store.new result }
{
    let kind = message.kind.as_slice();
    if kind == b"ORDERS".as_slice() {
        decide_order(alloc, register, store, message, incoming)
    } else if kind == b"RECADV".as_slice() {
        decide_receipt(alloc, register, store, message, incoming)
    } else {
        Ok(Judged::Unread(MessageFault::MessageType))
    }
}

/// Decides on a message of a supplier: an ORDRSP or a DESADV. Orders that are kept are not looked up again, and those
/// of which it looks up all lines are kept too; after a fault they may be forgotten.
pub(crate) fn decide_for_supplier<S: Store>(
    alloc: Global,
    register: &Register,
    supplier: &SupplierRow,
    store: &mut S,
    message: &RawMessage,
    incoming: IncomingMessage,
    orders: &mut KnownOrders,
) -> Result<Judged, StoreFault>
    ensures judged { KeepsOrders orders.old (view supplier.now.gln (S.content store.old)) →
        JudgedOfSupplier S.Store register.now supplier.now deliver_suppliers
        (message.now, incoming) store.old store.new result }
    ensures kept { S.honest store.new → KeepsOrders orders.old (view supplier.now.gln (S.content store.old)) →
        OnOk result (KeepsOrders orders.new (view supplier.now.gln (S.content store.old))) }
    ensures fails { FailsOver S.Store (S.honest store.new →
        MessageUnclean message.now (view supplier.now.gln (S.content store.old)))
        (UnreadOf (deliver_suppliers (view supplier.now.gln) (parties_of register.now) supplier.now
        (message.now, incoming))) store.old store.new result }
    ensures stays { Stays S.Store store.old store.new }
    ensures clean { KeepsOrders orders.old (view supplier.now.gln (S.content store.old)) →
        Registered register.now.suppliers supplier.now (S.content store.old) →
        WithinMessage message.now incoming → JudgesClean S.Store store.old store.new result }
{
    let kind = message.kind.as_slice();
    if kind == b"ORDRSP".as_slice() {
        decide_response(alloc, register, supplier, store, message, incoming, orders)
    } else if kind == b"DESADV".as_slice() {
        decide_despatch(alloc, register, supplier, store, message, incoming, orders)
    } else {
        Ok(Judged::Unread(MessageFault::MessageType))
    }
}
