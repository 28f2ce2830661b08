//! Identifies the caller, and answers its request.
ghost use Rattle.std.specs.Prelude.{◌≡◌, ◌≢◌, ℕ, List, IfOk, OnErr, IsErr, Err};
ghost use Rattle.std.specs.Option.{IfSome};
ghost use Rattle.edi_envelope.specs.Opened.{opened, Opens};
ghost use Rattle.hub_parties.specs.declared.row.SupplierRow.{SupplierRow};
ghost use Rattle.hub_tables.specs.Register.{register_of};
ghost use Rattle.hub_requests.specs.declared.request.Request.TheVariants.{Upload, Join};
ghost use Rattle.hub_core.specs.Broken.{BreaksAskedOver, does_input};
ghost use Rattle.hub_core.specs.Hub.{InputAsked};
ghost use Rattle.hub_core.specs.Opened.{RanOut};
ghost use Rattle.hub_core.specs.Steps.{IsNoJoin, JoinAnswered, SoundWith, input_of};

use crate::opening::with_code;
use crate::replies::denied_reply;
use crate::requests::{answer_retailer, answer_supplier, take_opened};
use edi_envelope::{Interchange, Moment, OpenFault};
use edi_tokens::TokenFault;
use gs1_ids::Gln;
use hub_law::{acts_keep_the_register, acts_stay_sound};
use hub_register::{Caller, Register};
use hub_requests::{Reply, Request};
use hub_store::{Store, StoreFault};
use std::alloc::Global;

/// Answers a request, if there is enough memory and the store does not fail.
pub(crate) fn answer<S: Store>(
    alloc: Global,
    register: &mut Register,
    store: &mut S,
    moment: Moment,
    caller: &Gln,
    key: &[u8],
    request: &Request,
) -> Result<Reply, StoreFault>
    ensures asked { SoundWith register.old (S.content store.old) →
        InputAsked S.Store register.old (input_of moment caller.now key.now request.now)
        store.old store.new result }
    ensures held { (row : SupplierRow) → request.now ≡ Join row → S.honest store.new →
        SoundWith register.old (S.content store.old) → register.new ≡ register_of (S.content store.new) }
    ensures joined { (row : SupplierRow) → request.now ≡ Join row →
        IfOk result (JoinAnswered row register.old register.new
        (does_input register.old (input_of moment caller.now key.now request.now))) }
    ensures undone { OnErr result (register.new ≡ register.old) }
    ensures same { IsNoJoin request.now → register.new ≡ register.old }
    ensures broken { IfSome (S.broken store.old) (λ _. register.new ≡ register.old) }
    ensures breaks { BreaksAskedOver S.Store (does_input register.old (input_of moment caller.now key.now request.now))
        store.old store.new result }
    ensures was_honest { S.honest store.new → S.honest store.old }
{
    match register.caller(caller, key) {
        Some(Caller::Supplier(supplier)) => {
            answer_supplier(alloc, register, supplier, store, moment, request)
        }
        Some(Caller::Retailer) => answer_retailer(alloc, register, store, moment, request),
        None => Ok(denied_reply(alloc)?),
    }
}

/// Answers an upload that was opened before, if there is enough memory and the store does not fail.
pub(crate) fn answer_opened<S: Store>(
    alloc: Global,
    register: &Register,
    store: &mut S,
    moment: Moment,
    caller: &Gln,
    key: &[u8],
    upload: Result<Interchange, OpenFault>,
) -> Result<Reply, StoreFault>
    requires read { upload ≢ Err (OpenFault.Token TokenFault.Read) }
    ensures asked { (bytes : List ℕ) → Opens upload (opened bytes) →
        SoundWith register.now (S.content store.old) →
        InputAsked S.Store register.now (input_of moment caller.now key.now (Upload bytes))
        store.old store.new result }
    ensures held { S.honest store.new → SoundWith register.now (S.content store.old) →
        SoundWith register.now (S.content store.new) }
    ensures breaks { (bytes : List ℕ) → Opens upload (opened bytes) →
        BreaksAskedOver S.Store (does_input register.now (input_of moment caller.now key.now (Upload bytes)))
        store.old store.new result }
    ensures was_honest { S.honest store.new → S.honest store.old }
    ensures ran_out { RanOut upload → IsErr result × (store.new ≡ store.old) }
{
    acts_stay_sound();
    acts_keep_the_register();
    let upload = with_code(upload)?;
    match register.caller(caller, key) {
        Some(caller) => take_opened(alloc, register, caller, store, moment, upload),
        None => Ok(denied_reply(alloc)?),
    }
}
