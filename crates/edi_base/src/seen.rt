ghost use Rattle.std.specs.Prelude.{◌≡◌, ◌||◌, ℕ, List, [], not, IfOk, OnOk, OnErr};
ghost use Rattle.std.specs.Str.{bytes_eq};
ghost use Rattle.edi_base.specs.Seen.{is_among, has_number_twice};

use std::alloc::{AllocError, Global};
use std::collections::BTreeSet;
use std::marker::Model;

/// The texts seen so far, to notice one that is repeated.
#[derive(Drop)]
pub struct Seen<'a> {
    texts: BTreeSet<&'a [u8]>,
}

impl<'a> Model for Seen<'a> {
    ghost use Rattle.std.specs.Prelude.{ℕ, List, map};

    ghost Value = { List (List ℕ) };

    ghost view = { λ seen. map (λ text. text.now) seen.texts.keys };
}

impl<'a> Seen<'a> {
    /// Makes an empty set, without allocating memory.
    pub fn new(alloc: Global) -> Self
        ensures { result ≡ [] }
    {
        Seen {
            texts: BTreeSet::new(alloc),
        }
    }

    /// Adds a text, and returns whether it is new.
    pub fn insert(&mut self, text: &'a [u8]) -> Result<bool, AllocError>
        ensures new { IfOk result (λ new. new ≡ not (is_among text.now self.old)) }
        ensures seen { OnOk result ((other : List ℕ) → is_among other self.new ≡ (bytes_eq other text.now || is_among other self.old)) }
        ensures err { OnErr result (self.new ≡ self.old) }
    {
        let new = self.texts.insert(text)?;
        Ok(new)
    }
}

/// Whether some number occurs twice. The numbers are kept in an ordered set, so with n numbers the time grows as n log
/// n.
pub fn number_twice(alloc: Global, numbers: &[u32]) -> Result<bool, AllocError>
    ensures { IfOk result (λ found. found ≡ has_number_twice numbers.now) }
{
    let mut seen = BTreeSet::new(alloc);
    for number in numbers {
        if !seen.insert(*number)? {
            return Ok(true);
        }
    }
    Ok(false)
}
