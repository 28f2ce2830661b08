//! Counts the calls of a store, and makes one of them fail before it reaches the store below.
ghost use Rattle.std.specs.Prelude.{◌≡◌, ◌≢◌, ◌+◌, ◌-◌, ◌^◌, min, false, None, Err, OnOk};
ghost use Rattle.hub_store.specs.Calls.{Fails, broken_by, broken_after};
ghost use Rattle.hub_store.specs.declared.fault.StoreFault.TheVariants.{Unclean, Version};

use hub_store::{LastingFault, StoreFault};

/// The fault that a call gets after `calls` others.
#[derive(Clone, Copy, Debug)]
pub(crate) struct Stop {
    pub(crate) calls: u64,
    pub(crate) fault: StoreFault,
    ghost injected: { (fault ≢ Unclean) × (fault ≢ Version) },
}

/// What was counted, the call that is to fail, and the lasting fault, if there is one.
#[derive(Debug, Drop)]
pub(crate) struct Gate {
    pub(crate) look_ups: u64,
    pub(crate) commits: u64,
    pub(crate) stop: Option<Stop>,
    pub(crate) broken: Option<LastingFault>,
}

impl Gate {
    /// Counts a look-up, and fails if it is to fail.
    pub(crate) fn look_up(&mut self) -> Result<(), StoreFault>
        ensures open { OnOk result ((self.old.broken ≡ None) × (self.new.broken ≡ None)) }
        ensures fails { Fails false self.old.broken self.new.broken result }
        ensures clean { self.old.broken ≡ None → result ≢ Err Unclean }
        ensures look_ups { self.new.look_ups ≡ min (self.old.look_ups + 1) (2 ^ 64 - 1) }
        ensures commits { self.new.commits ≡ self.old.commits }
    {
        self.look_ups = self.look_ups.saturating_add(1);
        self.pass()
    }

    /// Counts a commit, and fails if it is to fail.
    pub(crate) fn commit(&mut self) -> Result<(), StoreFault>
        ensures open { OnOk result ((self.old.broken ≡ None) × (self.new.broken ≡ None)) }
        ensures fails { Fails false self.old.broken self.new.broken result }
        ensures clean { self.old.broken ≡ None → result ≢ Err Unclean }
        ensures look_ups { self.new.look_ups ≡ self.old.look_ups }
        ensures commits { self.new.commits ≡ min (self.old.commits + 1) (2 ^ 64 - 1) }
    {
        self.commits = self.commits.saturating_add(1);
        self.pass()
    }

    /// Fails with the fault of this call, if it has one. Does not count the call.
    pub(crate) fn pass(&mut self) -> Result<(), StoreFault>
        ensures open { OnOk result ((self.old.broken ≡ None) × (self.new.broken ≡ None)) }
        ensures fails { Fails false self.old.broken self.new.broken result }
        ensures clean { self.old.broken ≡ None → result ≢ Err Unclean }
        ensures look_ups { self.new.look_ups ≡ self.old.look_ups }
        ensures commits { self.new.commits ≡ self.old.commits }
    {
        match self.broken {
            Some(LastingFault::Disk) => return Err(StoreFault::Disk),
            Some(LastingFault::Unclean) => return Err(StoreFault::Unclean),
            None => {}
        }
        match self.stop {
            None => Ok(()),
            Some(stop) if stop.calls == 0 => {
                self.stop = None;
                self.note(stop.fault);
                Err(stop.fault)
            }
            Some(stop) => {
                self.stop = Some(Stop {
                    calls: stop.calls - 1,
                    fault: stop.fault,
                });
                Ok(())
            }
        }
    }

    /// Keeps a lasting fault.
    pub(crate) fn note(&mut self, fault: StoreFault)
        ensures broken { self.new.broken ≡ broken_by self.old.broken fault }
        ensures look_ups { self.new.look_ups ≡ self.old.look_ups }
        ensures commits { self.new.commits ≡ self.old.commits }
    {
        match fault {
            StoreFault::Disk => self.broken = Some(LastingFault::Disk),
            StoreFault::Unclean => self.broken = Some(LastingFault::Unclean),
            StoreFault::Memory | StoreFault::Version => {}
        }
    }

    /// Keeps the fault of a call of the store below, if it is lasting.
    pub(crate) fn seen<X>(&mut self, found: &Result<X, StoreFault>)
        ensures broken { self.new.broken ≡ broken_after self.old.broken found.now }
        ensures look_ups { self.new.look_ups ≡ self.old.look_ups }
        ensures commits { self.new.commits ≡ self.old.commits }
    {
        if let Err(fault) = found {
            self.note(*fault);
        }
    }
}
