//! Counts the calls of another store, and fails at one of them.
ghost use Rattle.std.specs.Prelude.{◌≡◌, ◌≢◌};
ghost use Rattle.hub_store.specs.declared.fault.StoreFault.TheVariants.{Unclean, Version};

use crate::gate::{Gate, Stop};
use edi_base::Items;
use gs1_ids::{Gln, Sscc};
use hub_register::Register;
use hub_store::{LastingFault, MailHead, Store, StoreFault};
use hub_tables::{Change, ContentRow, LineRow, MailRow, PalletRow, ReceiptRow, Side};
use std::collections::BTreeSet;
use std::marker::Model;

/// A store that counts the calls of another one, and that can fail at one of them. Contracts see it as the store below,
/// the fault that each call returns from now on, and how many look-ups and commits there were. `fault` and `register`
/// count as neither, but `register` can be the call that fails.
#[derive(Drop)]
pub struct TrialStore<S: Store> {
    store: S,
    gate: Gate,
}

impl<S: Store> Model for TrialStore<S> {
    ghost use Rattle.std.specs.Prelude.{◌≡◌, ℕ, Option, None};
    ghost use Rattle.hub_store.specs.declared.fault.LastingFault.{LastingFault as Lasting};

    ghost Value = { S × Option Lasting × ℕ × ℕ };

    ghost view = { λ trial. (trial.store, trial.gate.broken, trial.gate.look_ups, trial.gate.commits) };

    ghost invariant = { λ trial. trial.gate.broken ≡ None → S.broken trial.store ≡ None };
}

impl<S: Store> TrialStore<S> {
    /// Counts the calls of a store. If that store is broken, so is this one.
    pub fn new(store: S) -> Self
        ensures store { result.0 ≡ store }
        ensures broken { result.1 ≡ S.broken store }
        ensures look_ups { result.2 ≡ 0 }
        ensures commits { result.3 ≡ 0 }
    {
        Self::with_stop(store, None)
    }

    /// Counts the calls of a store, and fails once with `fault`, after `calls` others: look-ups, commits and calls of
    /// `register` alike. The fault may not be `Unclean`, which would say something about the rows, or `Version`, which
    /// is a fault of opening.
    pub fn failing(store: S, calls: u64, fault: StoreFault) -> Self
        requires unclean { fault ≢ Unclean }
        requires version { fault ≢ Version }
        ensures store { result.0 ≡ store }
        ensures broken { result.1 ≡ S.broken store }
        ensures look_ups { result.2 ≡ 0 }
        ensures commits { result.3 ≡ 0 }
    {
        Self::with_stop(store, Some(Stop { calls, fault }))
    }

    // Makes a store that counts from 0, with the call that is to fail, if any.
    fn with_stop(store: S, stop: Option<Stop>) -> Self
        ensures store { result.0 ≡ store }
        ensures broken { result.1 ≡ S.broken store }
        ensures look_ups { result.2 ≡ 0 }
        ensures commits { result.3 ≡ 0 }
    {
        let broken = store.fault();
        let (look_ups, commits) = (0, 0);
        TrialStore {
            store,
            gate: Gate {
                look_ups,
                commits,
                stop,
                broken,
            },
        }
    }

    /// Returns how many look-ups there were, at most 2^64 - 1.
    pub fn look_ups(&self) -> u64
        ensures { result ≡ self.now.2 }
    {
        self.gate.look_ups
    }

    /// Returns how many commits there were, at most 2^64 - 1.
    pub fn commits(&self) -> u64
        ensures { result ≡ self.now.3 }
    {
        self.gate.commits
    }

    /// Returns the store below.
    pub fn into_store(self) -> S
        ensures { result ≡ self.0 }
    {
        let TrialStore { store, gate } = self;
        drop(gate);
        store
    }
}

impl<S: Store> Store for TrialStore<S> {
    ghost use Rattle.std.specs.Prelude.{false};
    ghost use Rattle.std.proofs.lemmas.Bool.{false≢true};

    ghost content = { λ trial. S.content trial.0 };

    ghost honest = { λ trial. S.honest trial.0 };

    ghost left = { λ trial. S.left trial.0 };

    ghost broken = { λ trial. trial.1 };

    ghost plain = { false };

    fn fault(&self) -> Option<LastingFault> {
        self.gate.broken
    }

    fn register(&mut self) -> Result<Register, StoreFault> {
        self.gate.pass()?;
        let found = self.store.register();
        self.gate.seen(&found);
        found
    }

    fn remembered(
        &mut self,
        supplier: &Gln,
        side: Side,
        control: &[u8],
        message: &[u8],
    ) -> Result<Option<Items<u8>>, StoreFault> {
        self.gate.look_up()?;
        let found = self.store.remembered(supplier, side, control, message);
        self.gate.seen(&found);
        found
    }

    fn matches_remembered(
        &mut self,
        supplier: &Gln,
        side: Side,
        control: &[u8],
        message: &[u8],
        text: &[u8],
    ) -> Result<Option<bool>, StoreFault> {
        self.gate.look_up()?;
        let found = self
            .store
            .matches_remembered(supplier, side, control, message, text);
        self.gate.seen(&found);
        found
    }

    fn order_known(&mut self, supplier: &Gln, number: &[u8]) -> Result<bool, StoreFault> {
        self.gate.look_up()?;
        let found = self.store.order_known(supplier, number);
        self.gate.seen(&found);
        found
    }

    fn lines_of(&mut self, supplier: &Gln, number: &[u8]) -> Result<Items<LineRow>, StoreFault> {
        self.gate.look_up()?;
        let found = self.store.lines_of(supplier, number);
        self.gate.seen(&found);
        found
    }

    fn lines_at(
        &mut self,
        supplier: &Gln,
        number: &[u8],
        lines: &BTreeSet<u32>,
    ) -> Result<Items<LineRow>, StoreFault> {
        self.gate.look_up()?;
        let found = self.store.lines_at(supplier, number, lines);
        self.gate.seen(&found);
        found
    }

    fn advice_known(&mut self, supplier: &Gln, number: &[u8]) -> Result<bool, StoreFault> {
        self.gate.look_up()?;
        let found = self.store.advice_known(supplier, number);
        self.gate.seen(&found);
        found
    }

    fn pallet(&mut self, supplier: &Gln, sscc: &Sscc) -> Result<Option<PalletRow>, StoreFault> {
        self.gate.look_up()?;
        let found = self.store.pallet(supplier, sscc);
        self.gate.seen(&found);
        found
    }

    fn last_mail(&mut self, supplier: &Gln) -> Result<u64, StoreFault> {
        self.gate.look_up()?;
        let found = self.store.last_mail(supplier);
        self.gate.seen(&found);
        found
    }

    fn mail_item(&mut self, supplier: &Gln, number: u64) -> Result<Option<MailRow>, StoreFault> {
        self.gate.look_up()?;
        let found = self.store.mail_item(supplier, number);
        self.gate.seen(&found);
        found
    }

    fn mail_after(
        &mut self,
        supplier: &Gln,
        number: u64,
        limit: usize,
    ) -> Result<Items<MailHead>, StoreFault> {
        self.gate.look_up()?;
        let found = self.store.mail_after(supplier, number, limit);
        self.gate.seen(&found);
        found
    }

    fn all_lines(&mut self, supplier: &Gln) -> Result<Items<LineRow>, StoreFault> {
        self.gate.look_up()?;
        let found = self.store.all_lines(supplier);
        self.gate.seen(&found);
        found
    }

    fn all_pallets(&mut self, supplier: &Gln) -> Result<Items<PalletRow>, StoreFault> {
        self.gate.look_up()?;
        let found = self.store.all_pallets(supplier);
        self.gate.seen(&found);
        found
    }

    fn contents_of(
        &mut self,
        supplier: &Gln,
        sscc: &Sscc,
    ) -> Result<Items<ContentRow>, StoreFault> {
        self.gate.look_up()?;
        let found = self.store.contents_of(supplier, sscc);
        self.gate.seen(&found);
        found
    }

    fn contents_on(&mut self, sscc: &Sscc) -> Result<Items<ContentRow>, StoreFault> {
        self.gate.look_up()?;
        let found = self.store.contents_on(sscc);
        self.gate.seen(&found);
        found
    }

    fn receipts_of(
        &mut self,
        supplier: &Gln,
        sscc: &Sscc,
    ) -> Result<Items<ReceiptRow>, StoreFault> {
        self.gate.look_up()?;
        let found = self.store.receipts_of(supplier, sscc);
        self.gate.seen(&found);
        found
    }

    fn receipts_on(&mut self, sscc: &Sscc) -> Result<Items<ReceiptRow>, StoreFault> {
        self.gate.look_up()?;
        let found = self.store.receipts_on(sscc);
        self.gate.seen(&found);
        found
    }

    fn used(&mut self, sscc: &Sscc) -> Result<bool, StoreFault> {
        self.gate.look_up()?;
        let found = self.store.used(sscc);
        self.gate.seen(&found);
        found
    }

    fn commit(&mut self, changes: &[Change]) -> Result<(), StoreFault> {
        self.gate.commit()?;
        let done = self.store.commit(changes);
        self.gate.seen(&done);
        done
    }

    ghost there = { λ trial honest. S.there trial.0 honest };

    ghost plainly = { λ is trial. absurd (false≢true is) };

    ghost kept = { λ is trial t _. absurd (false≢true is) };
}
