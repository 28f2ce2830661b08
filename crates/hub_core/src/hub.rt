//! Defines a hub, a register over a store, and answers requests: one, an upload that was opened before, or several in a
//! run.
ghost use Rattle.std.specs.Prelude.{◌≡◌, ◌≢◌, true, ℕ, List, [], ◌∷◌, ◌++◌, IfOk, OnErr, Ok, Err, MatchResult};
ghost use Rattle.edi_envelope.specs.Opened.{opened, Opens};
ghost use Rattle.hub_parties.specs.Rows.{IsRegister, role_of};
ghost use Rattle.std.specs.List.{AllByRecursion};
ghost use Rattle.hub_rules.specs.Laws.{SoundHub};
ghost use Rattle.hub_requests.specs.declared.reply.Reply.{Reply};
ghost use Rattle.hub_requests.specs.declared.request.Input.{Input};
ghost use Rattle.hub_requests.specs.declared.request.Request.TheVariants.{Upload};
ghost use Rattle.hub_store.specs.Clean.{are_clean};
ghost use Rattle.hub_transactions.specs.Clean.{WithinInput};
ghost use Rattle.hub_transactions.specs.Joins.{KeepsRows};
ghost use Rattle.hub_core.specs.Hub.{AnswersInput, BreaksFrom, KeepsClean, StaysSound, StepsFrom};
ghost use Rattle.hub_core.specs.Hub.{RanOver, RunBreaksFrom, SteppedOver};
ghost use Rattle.hub_core.specs.Opened.{IsStopped, RanOut};
ghost use Rattle.hub_core.specs.Made.{MakesHub};
ghost use Rattle.hub_core.specs.Steps.{IsNoJoin, SoundWith, input_of};

use crate::laws::laws_of_the_machine;
use crate::replies::{reply_or_stop, stopped_reply};
use crate::step::{answer, answer_opened};
use edi_base::{Items, MemoryFault, copy_bytes};
use edi_envelope::{Interchange, Moment, OpenFault};
use edi_tokens::TokenFault;
use gs1_ids::Gln;
use hub_parties::Role;
use hub_register::Register;
use hub_requests::{Input, Reply, Request};
use hub_store::{LastingFault, Store, StoreFault};
use hub_transactions::STOPPED;
use std::alloc::Global;
use std::marker::Model;

/// A hub: a register, and the store of its rows. A file may hold any rows, so a hub requires nothing of them. What its
/// calls promise holds for sound rows that hold its register, such as those of a new hub; and each call leaves such
/// rows.
#[derive(Drop)]
pub struct Hub<S: Store> {
    alloc: Global,
    register: Register,
    store: S,
}

impl<S: Store> Model for Hub<S> {
    ghost use Rattle.hub_parties.specs.Rows.{RegisterRows};

    ghost Value = { RegisterRows × S };

    ghost view = { λ hub. (hub.register, hub.store) };
}

impl<S: Store> Hub<S> {
    /// Makes a hub over this store, with the register that its rows hold. If they hold none, or the store has a fault,
    /// the store comes back with the fault.
    pub fn new(alloc: Global, mut store: S) -> Result<Self, (S, StoreFault)>
        ensures reads { MatchResult result
            (λ hub. MakesHub S.Store store hub.1 (Ok hub.0))
            (λ back. MakesHub S.Store store back.0 (Err back.1)) }
        ensures held { IfOk result (λ hub.
            S.honest hub.1 → SoundHub (S.content store) → SoundWith hub.0 (S.content hub.1)) }
    {
        match store.register() {
            Ok(register) => Ok(Hub {
                alloc,
                register,
                store,
            }),
            Err(fault) => Err((store, fault)),
        }
    }

    // Returns the allocator of the hub.
    fn allocator(&self) -> Global {
        self.alloc
    }

    /// Gives back the register, and the store as it is now. Takes no memory.
    pub fn into_store(self) -> (Register, S)
        ensures { result ≡ self }
    {
        let Hub {
            alloc: _,
            register,
            store,
        } = self;
        (register, store)
    }

    /// Returns the store as it is now.
    pub fn store(&self) -> &S
        ensures { result.now ≡ self.now.1 }
    {
        &self.store
    }

    /// Returns why the store has failed for good, if it has: the fault that each look-up and commit returns from now
    /// on.
    pub fn fault(&self) -> Option<LastingFault>
        ensures { result ≡ S.broken self.now.1 }
    {
        self.store.fault()
    }

    /// Returns the role of a caller with this GLN and this key in the register. Takes no memory.
    pub fn role(&self, caller: &Gln, key: &[u8]) -> Option<Role>
        ensures { result ≡ role_of self.now.0 caller.now key.now }
    {
        self.register.may(caller, key)
    }

    /// States a law of the register: it has the properties of every register.
    pub fn has_a_right_register(&self)
        ensures { IsRegister self.now.0 }
    {
        // This contract says that the register is one.
        let _hub = self.register.hub();
    }

    /// Answers a request that arrives at a moment, from the caller with this GLN and this key.
    ///
    /// If they do not identify a caller, or the caller may not ask this, the reply is `denied`. Each message of an
    /// upload, a cancellation, a join and a taken mark is one act, and one commit. Only a join changes the register,
    /// whatever the rows are, and only if its reply says that it is accepted; every party that was registered keeps its
    /// row. If memory runs out or the store fails, the reply ends in `stopped`, after the lines of what was done; if
    /// there is no memory even for that, it is empty and nothing was done.
    pub fn step(&mut self, moment: Moment, caller: &Gln, key: &[u8], request: Request) -> Reply
        ensures { AnswersInput S.Store self.old self.new (input_of moment caller.now key.now request) result }
    {
        self.reply_to(moment, caller, key, &request)
    }

    // Answers a request by reference, as `step` does.
    fn reply_to(&mut self, moment: Moment, caller: &Gln, key: &[u8], request: &Request) -> Reply
        ensures { AnswersInput S.Store self.old self.new (input_of moment caller.now key.now request.now) result }
    {
        laws_of_the_machine();
        let Ok(stopped) = copy_bytes(self.alloc, STOPPED) else {
            return stopped_reply(Items::new(self.alloc));
        };
        let answered = answer(
            self.alloc,
            &mut self.register,
            &mut self.store,
            moment,
            caller,
            key,
            request,
        );
        reply_or_stop(answered, stopped)
    }

    /// Answers an upload whose bytes were opened before, as `step` answers its bytes.
    ///
    /// If memory ran out while it was opened, nothing is done, and the reply is `stopped`, whoever calls. Never pass an
    /// upload that could not be read: nothing is known of it.
    pub fn step_opened(
        &mut self,
        moment: Moment,
        caller: &Gln,
        key: &[u8],
        upload: Result<Interchange, OpenFault>,
    ) -> Reply
        requires read { upload ≢ Err (OpenFault.Token TokenFault.Read) }
        ensures stepped { (bytes : List ℕ) → Opens upload (opened bytes) →
            StepsFrom S.Store self.old self.new (input_of moment caller.now key.now (Upload bytes)) result }
        ensures held { StaysSound S.Store self.old self.new }
        ensures clean { (bytes : List ℕ) → Opens upload (opened bytes) →
            KeepsClean S.Store self.old self.new (input_of moment caller.now key.now (Upload bytes)) }
        ensures breaks { (bytes : List ℕ) → Opens upload (opened bytes) →
            BreaksFrom S.Store self.old self.new (input_of moment caller.now key.now (Upload bytes)) result }
        ensures register { self.new.0 ≡ self.old.0 }
        ensures was_honest { S.honest self.new.1 → S.honest self.old.1 }
        ensures ran_out { RanOut upload → IsStopped result × (self.new ≡ self.old) }
    {
        laws_of_the_machine();
        let Ok(stopped) = copy_bytes(self.alloc, STOPPED) else {
            return stopped_reply(Items::new(self.alloc));
        };
        let answered = answer_opened(
            self.alloc,
            &self.register,
            &mut self.store,
            moment,
            caller,
            key,
            upload,
        );
        reply_or_stop(answered, stopped)
    }

    /// States a law of runs, for a caller that makes one request after another: no request is a run, and so is a run
    /// with one more step.
    pub fn steps_are_a_run(&self)
        ensures none { (store : S) → SoundHub (S.content store) → RanOver S.Store store store [] [] }
        ensures more { (old between new : S) (inputs : List Input) (replies : List Reply) (input : Input)
            (reply : Reply) → SoundHub (S.content old) → RanOver S.Store old between inputs replies →
            SteppedOver S.Store between new input reply →
            RanOver S.Store old new (inputs ++ input ∷ []) (replies ++ reply ∷ []) }
    {
        laws_of_the_machine();
    }

    /// Answers requests one after another, each as `step` does. Room for the replies is taken before the first, so if
    /// there is none, no request was looked at.
    pub fn run(&mut self, inputs: &[Input]) -> Result<Items<Reply>, MemoryFault>
        ensures ran { S.honest self.new.1 → SoundWith self.old.0 (S.content self.old.1) →
            IfOk result (RanOver S.Store self.old.1 self.new.1 inputs.now) }
        ensures held { StaysSound S.Store self.old self.new }
        ensures clean { S.honest self.new.1 → SoundWith self.old.0 (S.content self.old.1) →
            are_clean (S.content self.old.1) ≡ true → AllByRecursion WithinInput inputs.now →
            are_clean (S.content self.new.1) ≡ true }
        ensures none { OnErr result (self.new ≡ self.old) }
        ensures breaks { IfOk result (RunBreaksFrom S.Store self.old self.new inputs.now) }
        ensures keeps { KeepsRows self.old.0 self.new.0 }
        ensures register { AllByRecursion (λ input. IsNoJoin input.request) inputs.now →
            self.new.0 ≡ self.old.0 }
        ensures was_honest { S.honest self.new.1 → S.honest self.old.1 }
    {
        laws_of_the_machine();
        let mut replies = Vec::with_capacity(self.allocator(), inputs.len())?;
        for input in inputs {
            let key = input.key.as_slice();
            let reply = self.reply_to(input.moment, &input.caller, key, &input.request);
            replies.push(reply).unwrap();
        }
        Ok(Items::from_vec(replies))
    }
}
