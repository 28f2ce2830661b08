//! Answers what a supplier or the retailer asks.
ghost use Rattle.std.specs.Prelude.{◌≡◌, IfOk, OnErr};
ghost use Rattle.hub_parties.specs.declared.row.SupplierRow.{SupplierRow};
ghost use Rattle.hub_tables.specs.Register.{register_of};
ghost use Rattle.std.specs.Option.{IfSome};
ghost use Rattle.hub_core.specs.Opened as spec;
ghost use Rattle.hub_core.specs.Broken.{BreaksAskedOver};
ghost use Rattle.hub_core.specs.Callers.{MayDeliver, OpenedAsked, acts_by, addressed_by, does_opened, opening_of, request_of};
ghost use Rattle.hub_requests.specs.declared.request.Request.TheVariants.{Join};
ghost use Rattle.hub_core.specs.Steps.{AnsweredOrUndone, IsNoJoin, JoinAnswered, SoundWith};
ghost use Rattle.hub_register.specs.declared.caller.Caller.TheVariants.{Retailer, Supplier};

use crate::address::address_fault_for;
use crate::opening::open_upload;
use crate::replies::{denied_reply, refused_upload};
use crate::upload::{OpenedUpload, take_messages};
use edi_envelope::{Interchange, Moment};
use gs1_ids::Gln;
use hub_parties::SupplierRow;
use hub_register::{Caller, Register};
use hub_requests::{Reply, Request};
use hub_store::{Store, StoreFault};
use hub_transactions::{
    STOPPED, interchange_line, mailbox_entry, mailbox_list, status_report, take_cancel, take_entry,
    take_join, unknown_reply,
};
use std::alloc::Global;

/// Handles the messages of an upload that was opened, or reports the code of its fault.
pub(crate) fn take_opened<S: Store>(
    alloc: Global,
    register: &Register,
    caller: Caller<'_>,
    store: &mut S,
    moment: Moment,
    upload: Result<Interchange, &'static str>,
) -> Result<Reply, StoreFault>
    ensures asked { MayDeliver register.now caller.entry (S.content store.old) →
        OpenedAsked S.Store register.now caller.entry moment
        (addressed_by register.now caller.entry (spec.with_code upload.entry)) store.old store.new result }
    ensures breaks { BreaksAskedOver S.Store (does_opened register.now caller.entry moment
        (addressed_by register.now caller.entry (spec.with_code upload.entry))) store.old store.new result }
    ensures was_honest { S.honest store.new → S.honest store.old }
{
    let interchange = match upload {
        Ok(interchange) => interchange,
        Err(code) => return Ok(refused_upload(alloc, code)?),
    };
    if let Some(code) = address_fault_for(register, caller, &interchange) {
        return Ok(refused_upload(alloc, code)?);
    }
    let mut reply = interchange_line(alloc, &interchange)?;
    reply.try_reserve(STOPPED.len())?;
    let upload = OpenedUpload {
        register,
        caller,
        moment,
        interchange: &interchange,
    };
    Ok(take_messages(alloc, &upload, store, reply))
}

// Opens the bytes of an upload, and handles its messages.
fn upload<S: Store>(
    alloc: Global,
    register: &Register,
    caller: Caller<'_>,
    store: &mut S,
    moment: Moment,
    bytes: &[u8],
) -> Result<Reply, StoreFault>
    ensures asked { MayDeliver register.now caller.entry (S.content store.old) →
        OpenedAsked S.Store register.now caller.entry moment
        (opening_of register.now caller.entry bytes.now) store.old store.new result }
    ensures breaks { BreaksAskedOver S.Store (does_opened register.now caller.entry moment
        (opening_of register.now caller.entry bytes.now)) store.old store.new result }
    ensures was_honest { S.honest store.new → S.honest store.old }
{
    let interchange = open_upload(alloc, bytes)?;
    take_opened(alloc, register, caller, store, moment, interchange)
}

/// Answers a supplier's request.
pub(crate) fn answer_supplier<S: Store>(
    alloc: Global,
    register: &Register,
    supplier: &SupplierRow,
    store: &mut S,
    moment: Moment,
    request: &Request,
) -> Result<Reply, StoreFault>
    ensures asked { MayDeliver register.now (Supplier supplier.entry) (S.content store.old) →
        AnsweredOrUndone S.Store store.old store.new
        (acts_by register.now (Supplier supplier.entry) request.now)
        (request_of register.now (Supplier supplier.entry) moment request.now) result }
    ensures joined { (row : SupplierRow) → request.now ≡ Join row →
        IfOk result (JoinAnswered row register.now register.now
        (request_of register.now (Supplier supplier.entry) moment request.now)) }
    ensures breaks { BreaksAskedOver S.Store
        (request_of register.now (Supplier supplier.entry) moment request.now)
        store.old store.new result }
    ensures was_honest { S.honest store.new → S.honest store.old }
{
    let gln = &supplier.gln;
    match request {
        Request::Upload(bytes) => {
            let caller = Caller::Supplier(supplier);
            upload(alloc, register, caller, store, moment, bytes.as_slice())
        }
        Request::MailAfter(number) => mailbox_list(alloc, store, gln, *number),
        Request::MailItem(number) => mailbox_entry(alloc, register.hub(), store, gln, *number),
        Request::MailTaken(number) => take_entry(alloc, store, gln, *number),
        Request::Status => status_report(alloc, store, gln),
        Request::StatusOf(_) | Request::Cancel(_) | Request::Join(_) => Ok(denied_reply(alloc)?),
    }
}

/// Answers the retailer's request. Only a join changes the register, and none does over a broken store.
pub(crate) fn answer_retailer<S: Store>(
    alloc: Global,
    register: &mut Register,
    store: &mut S,
    moment: Moment,
    request: &Request,
) -> Result<Reply, StoreFault>
    ensures asked { SoundWith register.old (S.content store.old) →
        AnsweredOrUndone S.Store store.old store.new (acts_by register.old Retailer request.now)
        (request_of register.old Retailer moment request.now) result }
    ensures held { (row : SupplierRow) → request.now ≡ Join row →
        S.honest store.new → SoundWith register.old (S.content store.old) →
        register.new ≡ register_of (S.content store.new) }
    ensures joined { (row : SupplierRow) → request.now ≡ Join row →
        IfOk result (JoinAnswered row register.old register.new
        (request_of register.old Retailer moment request.now)) }
    ensures undone { OnErr result (register.new ≡ register.old) }
    ensures same { IsNoJoin request.now → register.new ≡ register.old }
    ensures broken { IfSome (S.broken store.old) (λ _. register.new ≡ register.old) }
    ensures breaks { BreaksAskedOver S.Store (request_of register.old Retailer moment request.now)
        store.old store.new result }
    ensures was_honest { S.honest store.new → S.honest store.old }
{
    match request {
        Request::Upload(bytes) => {
            let bytes = bytes.as_slice();
            upload(alloc, register, Caller::Retailer, store, moment, bytes)
        }
        Request::StatusOf(gln) => {
            if register.supplier(gln).is_some() {
                status_report(alloc, store, gln)
            } else {
                Ok(unknown_reply(alloc)?)
            }
        }
        Request::Cancel(cancel) => take_cancel(alloc, register, store, cancel),
        Request::Join(join) => take_join(alloc, register, store, join),
        Request::MailAfter(_) | Request::MailItem(_) | Request::MailTaken(_) | Request::Status =>
            Ok(denied_reply(alloc)?),
    }
}
