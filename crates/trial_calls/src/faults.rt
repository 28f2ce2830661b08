//! Tests what the faults of a store mean, and what a crash leaves after a commit, for any store and for lists.
ghost use Rattle.std.specs.Prelude.{◌≡◌, ◌≢◌, [], true, None, Some, Err, IsTrue, IfErr, OnOk};
ghost use Rattle.std.specs.Option.{IfSome};
ghost use Rattle.hub_tables.specs.Change.{apply_all};
ghost use Rattle.hub_tables.specs.Tables.{Tables};
ghost use Rattle.hub_store.specs.Calls.{Fit, have_places, broken_after, fault_of};
ghost use Rattle.hub_store.specs.Clean.{are_clean};
ghost use Rattle.hub_store.specs.declared.fault.LastingFault.TheVariants as lasting;
ghost use Rattle.hub_store.specs.declared.fault.StoreFault.TheVariants.{Memory, Disk, Unclean, Version};

use crate::call_fault::{CallFault, right};
use crate::lists::lists;
use edi_base::copy_bytes;
use gs1_ids::Gln;
use hub_store::{LastingFault, Store, StoreFault};
use hub_tables::{Change, OrderRow};
use std::alloc::Global;
use std::slice;
use trial_lists::VecStore;
use trial_store::TrialStore;

// The result of the first look-up, the lasting fault after it, and the result of the second.
type Answers = (
    Result<bool, StoreFault>,
    Option<LastingFault>,
    Result<bool, StoreFault>,
);

// Looks for an order twice.
fn ask_twice<S: Store>(store: &mut S, supplier: &Gln, number: &[u8]) -> Answers
    ensures told { result.1 ≡ broken_after (S.broken store.old) result.0 }
    ensures again { IfSome result.1 (λ fault. result.2 ≡ Err (fault_of fault)) }
    ensures opened { IfErr result.0 (λ fault. fault ≢ Version) }
    ensures only_memory { IsTrue S.plain → IfErr result.0 (λ fault. fault ≡ Memory) }
{
    let first = store.order_known(supplier, number);
    let fault = store.fault();
    let second = store.order_known(supplier, number);
    (first, fault, second)
}

// Does this with lists, whose only fault here is lack of memory.
fn ask_list_twice(store: &mut VecStore, supplier: &Gln, number: &[u8]) -> Answers
    ensures told { result.1 ≡ broken_after None result.0 }
    ensures only_memory { IfErr result.0 (λ fault. fault ≡ Memory) }
{
    ask_twice(store, supplier, number)
}

// Returns the lasting fault of lists: they have none.
fn fault_of_list(store: &VecStore) -> Option<LastingFault>
    ensures { result ≡ None }
{
    store.fault()
}

// Does this with lists whose calls can be made to fail: a fault of the disk is lasting.
fn ask_trial_twice(store: &mut TrialStore<VecStore>, supplier: &Gln, number: &[u8]) -> Answers
    ensures disk { result.0 ≡ Err Disk → (result.1 ≡ Some lasting.Disk) × (result.2 ≡ Err Disk) }
    ensures opened { IfErr result.0 (λ fault. fault ≢ Version) }
{
    ask_twice(store, supplier, number)
}

// Looks for an order, in rows that may all be clean.
fn ask_clean<S: Store>(store: &mut S, supplier: &Gln, number: &[u8]) -> Result<bool, StoreFault>
    ensures { S.honest store.new → S.broken store.old ≡ None →
        are_clean (S.content store.old) ≡ true → result ≢ Err Unclean }
{
    store.order_known(supplier, number)
}

// Does this with lists whose calls can be made to fail.
fn ask_clean_trial(
    store: &mut TrialStore<VecStore>,
    supplier: &Gln,
    number: &[u8],
) -> Result<bool, StoreFault>
    ensures { store.old.1 ≡ None → are_clean store.old.0 ≡ true → result ≢ Err Unclean }
{
    ask_clean(store, supplier, number)
}

// Commits changes, with rows that may all be clean before and after them.
fn commit_clean<S: Store>(store: &mut S, changes: &[Change]) -> Result<(), StoreFault>
    requires { changes.now ≢ [] }
    ensures clean { S.honest store.new → S.broken store.old ≡ None → Fit changes.now (S.content store.old) →
        have_places changes.now (S.content store.old) ≡ true →
        are_clean (S.content store.old) ≡ true →
        are_clean (apply_all changes.now (S.content store.old)) ≡ true →
        result ≢ Err Unclean }
    ensures durable { S.honest store.new → Fit changes.now (S.content store.old) →
        OnOk result ((t : Tables) → S.left store.new t → t ≡ apply_all changes.now (S.content store.old)) }
{
    store.commit(changes)
}

// Does this with lists, of which a crash leaves the content.
fn commit_listed(store: &mut VecStore, changes: &[Change]) -> Result<(), StoreFault>
    requires { changes.now ≢ [] }
    ensures clean { Fit changes.now store.old → have_places changes.now store.old ≡ true →
        are_clean store.old ≡ true → are_clean (apply_all changes.now store.old) ≡ true →
        result ≢ Err Unclean }
    ensures durable { Fit changes.now store.old → OnOk result (store.new ≡ apply_all changes.now store.old) }
{
    commit_clean(store, changes)
}

const ORDER: &[u8] = b"128575";

// Commits the order. From here on, each call is in a function of its own, to keep its contract out of other proofs.
fn commit_order(alloc: Global, list: &mut VecStore, supplier: Gln) -> Result<(), StoreFault> {
    let number = copy_bytes(alloc, ORDER)?;
    let change = Change::AddOrder(OrderRow { supplier, number });
    commit_listed(list, slice::from_ref(&change))
}

fn is_listed(list: &mut VecStore, supplier: &Gln) -> Result<bool, StoreFault> {
    let (first, fault, second) = ask_list_twice(list, supplier, ORDER);
    Ok(first? && second? && fault.is_none())
}

fn is_clean(trial: &mut TrialStore<VecStore>, supplier: &Gln) -> Result<bool, StoreFault> {
    ask_clean_trial(trial, supplier, ORDER)
}

fn is_broken(trial: &mut TrialStore<VecStore>, supplier: &Gln) -> bool {
    let (first, fault, second) = ask_trial_twice(trial, supplier, ORDER);
    let disk = Err(StoreFault::Disk);
    first == disk && second == disk && fault == Some(LastingFault::Disk)
}

// Lists keep what is committed, and have no lasting fault.
fn lists_keep(alloc: Global, list: &mut VecStore, supplier: &Gln) -> Result<(), CallFault> {
    commit_order(alloc, list, *supplier)?;
    right(is_listed(list, supplier)? && fault_of_list(list).is_none())
}

/// A lasting fault stays, and is answered at each call.
pub fn lasting(alloc: Global) -> Result<(), CallFault> {
    let supplier = Gln::parse(b"4012345500004").ok_or(CallFault::Wrong)?;
    let mut list = lists(alloc)?;
    lists_keep(alloc, &mut list, &supplier)?;
    let mut trial = TrialStore::failing(list, 1, StoreFault::Disk);
    right(is_clean(&mut trial, &supplier)? && is_broken(&mut trial, &supplier))
}
