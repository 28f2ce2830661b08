//! Keeps references in a form of one length, to compare them.

ghost use Rattle.std.specs.Prelude.{◌≡◌, ◌||◌, ℕ, List, [], not, IfOk, OnOk};
ghost use Rattle.std.specs.Str.{bytes_eq};
ghost use Rattle.edi_base.specs.Seen.{is_among};
ghost use Rattle.edi_envelope.specs.Reference as spec;

use crate::limits::is_reference;
use std::alloc::{AllocError, Global};
use std::collections::BTreeSet;
use std::marker::Model;

/// Returns a reference filled up with zero bytes, which no reference has; zero bytes alone for anything else.
pub(crate) fn filled_reference(text: &[u8]) -> [u8; 14]
    ensures { result ≡ spec.filled_reference text.now }
{
    let mut reference = [0; 14];
    if !is_reference(text) {
        return reference;
    }
    reference[..text.len()].copy_from_slice(text);
    reference
}

/// The references that have come.
#[derive(Drop)]
pub(crate) struct References {
    set: BTreeSet<[u8; 14]>,
}

impl Model for References {
    ghost use Rattle.std.specs.Prelude.{ℕ, List};

    ghost Value = { List (List ℕ) };

    ghost view = { λ references. references.set.keys };
}

impl References {
    /// None has come. Takes no memory.
    pub(crate) fn new(alloc: Global) -> Self
        ensures { result ≡ [] }
    {
        References {
            set: BTreeSet::new(alloc),
        }
    }

    /// Puts a reference in, as a set does. Whether it comes for the first time.
    pub(crate) fn insert(&mut self, reference: [u8; 14]) -> Result<bool, AllocError>
        ensures new { IfOk result (λ new. new ≡ not (is_among reference self.old)) }
        ensures seen { OnOk result ((other : List ℕ) →
            is_among other self.new ≡ (bytes_eq other reference || is_among other self.old)) }
    {
        let new = self.set.insert(reference)?;
        Ok(new)
    }
}
