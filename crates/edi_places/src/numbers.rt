//! Keeps line numbers, to notice one that is used twice.
ghost use Rattle.std.specs.Prelude.{◌≡◌, ◌||◌, ℕ, [], not, nat_eq, IfOk, OnOk};
ghost use Rattle.edi_base.specs.Seen.{comes_among};

use edi_tokens::MemoryFault;
use std::alloc::Global;
use std::collections::BTreeSet;
use std::marker::Model;

/// The line numbers so far.
#[derive(Drop)]
pub(crate) struct Numbers {
    set: BTreeSet<u32>,
}

impl Model for Numbers {
    ghost use Rattle.std.specs.Prelude.{ℕ, List};

    ghost Value = { List ℕ };

    ghost view = { λ numbers. numbers.set.keys };
}

impl Numbers {
    /// Makes an empty set. That takes no memory.
    pub(crate) fn new(alloc: Global) -> Self
        ensures { result ≡ [] }
    {
        Numbers {
            set: BTreeSet::new(alloc),
        }
    }

    /// Adds a number. Returns whether it is new.
    pub(crate) fn insert(&mut self, number: u32) -> Result<bool, MemoryFault>
        ensures new { IfOk result (λ new. new ≡ not (comes_among nat_eq number self.old)) }
        ensures seen { OnOk result ((other : ℕ) → comes_among nat_eq other self.new
            ≡ (nat_eq other number || comes_among nat_eq other self.old)) }
    {
        let new = self.set.insert(number)?;
        Ok(new)
    }
}
