//! Handles one message of an interchange.
ghost use Rattle.std.specs.Prelude.{◌≡◌, OnOk};
ghost use Rattle.hub_tables.specs.Tables.{Tables, view};
ghost use Rattle.hub_rules.specs.Laws.{SoundUnder, PartiesRise};
ghost use Rattle.hub_acts.specs.HubLaw.Messages.{incoming};
ghost use Rattle.hub_acts.specs.HubLaw.Requests.{deliver_named};
ghost use Rattle.hub_acts.specs.Acts.{Carried, FailsOver, NoCause, OfAny, Unharmed};
ghost use Rattle.hub_acts.specs.HubClean.Clean.{WithinMessage};
ghost use Rattle.hub_transactions.specs.Judged.{act_of, JudgedFits};
ghost use Rattle.hub_transactions.specs.Messages.{AddsLine, IfMaySend, suppliers_act};
ghost use Rattle.hub_transactions.specs.Named.{MessageUnclean};
ghost use Rattle.hub_transactions.specs.Orders.{KeepsOrders};
ghost use Rattle.hub_acts.specs.StaysClean.{StaysClean};
ghost use Rattle.hub_transactions.specs.JudgesClean.{JudgedClean};
ghost use Rattle.hub_acts.specs.HubTexts.Decision.{told_of};

use crate::carrying::{carry_out_judged, told_of_judged};
use crate::incoming::incoming_of;
use crate::judged::{Judged, decide_for_retailer, decide_for_supplier};
use crate::keeping::follow_message;
use edi_envelope::{Interchange, Moment, RawMessage};
use hub_acts::texts::{Decision, STOPPED, message_line};
use hub_order_lines::KnownOrders;
use hub_parties::SupplierRow;
use hub_register::Register;
use hub_store::{Store, StoreFault};
use std::alloc::Global;

// Carries out the decision on a message, and appends its line to the reply. Room for it and for the line `stopped` is
// taken before anything is done.
fn commit_and_report<S: Store>(
    alloc: Global,
    store: &mut S,
    message: &RawMessage,
    judged: &Judged,
    reply: &mut Vec<u8>,
) -> Result<Decision, StoreFault>
    ensures carried { JudgedFits judged.now (S.content store.old) →
        Carried S.Store store.old store.new (act_of judged.now) told_of result }
    ensures fails { FailsOver S.Store NoCause
        (λ told. (t : Tables) → (act_of judged.now t).0 ≡ told_of told)
        store.old store.new result }
    ensures unharmed { Unharmed S.Store store.old store.new result }
    ensures clean { JudgedFits judged.now (S.content store.old) → JudgedClean judged.now (S.content store.old) →
        StaysClean S.Store store.old store.new result }
    ensures reply { AddsLine message.now reply.old reply.new result }
{
    let told = told_of_judged(judged);
    let line = message_line(alloc, message, told)?;
    reply.try_reserve(line.len() + STOPPED.len())?;
    carry_out_judged(store, judged)?;
    reply.extend_from_slice(line.as_slice()).unwrap();
    Ok(told)
}

/// Handles a message of the retailer: reads it, decides, commits its changes as one act, and appends its line to the
/// reply. After a fault nothing is done, and no line is appended. If the reply had room for the line `stopped` before,
/// it still has.
pub fn take_retailers_message<S: Store>(
    alloc: Global,
    register: &Register,
    store: &mut S,
    moment: Moment,
    interchange: &Interchange,
    message: &RawMessage,
    reply: &mut Vec<u8>,
) -> Result<Decision, StoreFault>
    ensures carried { SoundUnder register.now.suppliers (S.content store.old) →
        PartiesRise (S.content store.old) →
        Carried S.Store store.old store.new
        (deliver_named register.now (message.now, incoming moment interchange.now message.now)) told_of result }
    ensures fails { FailsOver S.Store NoCause
        (OfAny (deliver_named register.now (message.now, incoming moment interchange.now message.now)) told_of)
        store.old store.new result }
    ensures unharmed { Unharmed S.Store store.old store.new result }
    ensures clean { SoundUnder register.now.suppliers (S.content store.old) → PartiesRise (S.content store.old) →
        WithinMessage message.now (incoming moment interchange.now message.now) →
        StaysClean S.Store store.old store.new result }
    ensures reply { AddsLine message.now reply.old reply.new result }
{
    let came = incoming_of(alloc, moment, interchange, message)?;
    let judged = decide_for_retailer(alloc, register, store, message, came)?;
    commit_and_report(alloc, store, message, &judged, reply)
}

/// Handles a message of a supplier, as `take_retailers_message` does one of the retailer. `orders` keeps the
/// supplier's orders of which earlier messages looked up all lines; it follows what is committed. Begin with
/// `KnownOrders::new`; after a fault the orders may be forgotten.
pub fn take_suppliers_message<S: Store>(
    alloc: Global,
    register: &Register,
    supplier: &SupplierRow,
    store: &mut S,
    moment: Moment,
    interchange: &Interchange,
    message: &RawMessage,
    orders: &mut KnownOrders,
    reply: &mut Vec<u8>,
) -> Result<Decision, StoreFault>
    ensures carried { IfMaySend register.now supplier.now orders.old (S.content store.old)
        (Carried S.Store store.old store.new
        (suppliers_act register.now supplier.now moment interchange.now message.now) told_of result) }
    ensures kept { S.honest store.new → IfMaySend register.now supplier.now orders.old (S.content store.old)
        (OnOk result (KeepsOrders orders.new (view supplier.now.gln (S.content store.new)))) }
    ensures fails { FailsOver S.Store (S.honest store.new →
        MessageUnclean message.now (view supplier.now.gln (S.content store.old)))
        (OfAny (suppliers_act register.now supplier.now moment interchange.now message.now) told_of)
        store.old store.new result }
    ensures unharmed { Unharmed S.Store store.old store.new result }
    ensures clean { IfMaySend register.now supplier.now orders.old (S.content store.old)
        (WithinMessage message.now (incoming moment interchange.now message.now) →
        StaysClean S.Store store.old store.new result) }
    ensures reply { AddsLine message.now reply.old reply.new result }
{
    let came = incoming_of(alloc, moment, interchange, message)?;
    let judged = decide_for_supplier(alloc, register, supplier, store, message, came, orders)?;
    let told = commit_and_report(alloc, store, message, &judged, reply);
    follow_message(&judged, orders);
    told
}
