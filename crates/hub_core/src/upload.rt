//! Handles the messages of an upload, one after another.
ghost use Rattle.std.specs.Prelude.{◌≡◌, ◌||◌, length, OnOk};
ghost use Rattle.hub_law.specs.Replies.{interchange_line};
ghost use Rattle.hub_law.specs.Told as law;
ghost use Rattle.hub_transactions.specs.Acts.{Carried, FailsOver, AnyCause, OfAny, Unharmed};
ghost use Rattle.hub_transactions.specs.Messages.{AddsLine, MayStop};
ghost use Rattle.hub_transactions.specs.HubTexts.Decision.{told_of};
ghost use Rattle.hub_core.specs.Broken.{BreaksOver};
ghost use Rattle.hub_core.specs.Callers.{KeepsFor};
ghost use Rattle.hub_core.specs.Steps.{IsAnswered};
ghost use Rattle.hub_core.specs.Uploads.{MayTake, act_in, does_upload};

use edi_base::Items;
use edi_envelope::{Interchange, Moment, RawMessage};
use hub_law::acts_stay_sound;
use hub_register::{Caller, Register};
use hub_requests::{Outcome, Reply};
use hub_store::{Store, StoreFault};
use hub_transactions::{
    Decision, KnownOrders, STOPPED, take_retailers_message, take_suppliers_message,
};
use std::alloc::Global;

/// An upload whose messages are handled: its interchange, its caller, and the moment, under a register.
#[derive(Clone, Copy)]
pub(crate) struct OpenedUpload<'a> {
    pub(crate) register: &'a Register,
    pub(crate) caller: Caller<'a>,
    pub(crate) moment: Moment,
    pub(crate) interchange: &'a Interchange,
}

// Handles one message of the caller. The orders kept for a supplier follow what is committed.
fn take_message<S: Store>(
    alloc: Global,
    upload: &OpenedUpload<'_>,
    store: &mut S,
    message: &RawMessage,
    orders: &mut KnownOrders,
    reply: &mut Vec<u8>,
) -> Result<Decision, StoreFault>
    ensures carried { KeepsFor upload.now.caller orders.old (S.content store.old) →
        MayTake upload.now (S.content store.old) →
        Carried S.Store store.old store.new (act_in upload.now message.now) told_of result }
    ensures fails { FailsOver S.Store AnyCause (OfAny (act_in upload.now message.now) told_of)
        store.old store.new result }
    ensures unharmed { Unharmed S.Store store.old store.new result }
    ensures may { S.honest store.new → KeepsFor upload.now.caller orders.old (S.content store.old) →
        MayTake upload.now (S.content store.old) →
        MayTake upload.now (S.content store.new) }
    ensures kept { S.honest store.new → KeepsFor upload.now.caller orders.old (S.content store.old) →
        MayTake upload.now (S.content store.old) →
        OnOk result (KeepsFor upload.now.caller orders.new (S.content store.new)) }
    ensures reply { AddsLine message.now reply.old reply.new result }
{
    acts_stay_sound();
    let OpenedUpload {
        register,
        caller,
        moment,
        interchange,
    } = *upload;
    match caller {
        Caller::Retailer => {
            take_retailers_message(alloc, register, store, moment, interchange, message, reply)
        }
        Caller::Supplier(supplier) => take_suppliers_message(
            alloc,
            register,
            supplier,
            store,
            moment,
            interchange,
            message,
            orders,
            reply,
        ),
    }
}

// Whether a message was refused, or one before it.
fn either_refused(before: bool, told: Decision) -> bool
    ensures { result ≡ (before || law.is_refused (told_of told)) }
{
    before || told.is_refused()
}

/// Handles the messages one after another, until one is stopped. Each order of which a supplier's messages need all lines
/// is looked up once, as long as it is kept. The reply begins with the line of the interchange, and room for the line `stopped`.
pub(crate) fn take_messages<S: Store>(
    alloc: Global,
    upload: &OpenedUpload<'_>,
    store: &mut S,
    mut reply: Vec<u8>,
) -> Reply
    requires line { reply.items ≡ interchange_line upload.now.interchange.now }
    requires room { MayStop reply }
    ensures answered { S.honest store.new →
        MayTake upload.now (S.content store.old) →
        IsAnswered S.Store store.old store.new (length upload.now.interchange.now.messages) (does_upload upload.now) result }
    ensures breaks { BreaksOver S.Store (does_upload upload.now)
        store.old store.new result }
    ensures was_honest { S.honest store.new → S.honest store.old }
{
    let mut refused = false;
    let mut orders = KnownOrders::new(alloc);
    for message in upload.interchange.messages.as_slice() {
        let Ok(told) = take_message(alloc, upload, store, message, &mut orders, &mut reply) else {
            reply.extend_from_slice(STOPPED).unwrap();
            return Reply {
                outcome: Outcome::Stopped,
                refused,
                body: Items::from_vec(reply),
            };
        };
        refused = either_refused(refused, told);
    }
    let body = Items::from_vec(reply);
    Reply {
        outcome: Outcome::Done,
        refused,
        body,
    }
}
