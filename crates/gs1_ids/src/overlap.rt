//! Finds prefixes that overlap.
ghost use Rattle.std.specs.Prelude.{◌≡◌, ◌↔◌, false, [], ◌∷◌, length, map, position, IsNone, IfSome, IsTrue};
ghost use Rattle.std.specs.List.{list_any, AllAdjacentBelow};
ghost use Rattle.std.specs.List.Sorted.{IsPermutation};
ghost use Rattle.gs1_ids.specs.Overlap.{first_overlap_of, IsFirstOverlap, NoneOverlap, AreApart};
ghost use Rattle.gs1_ids.specs.Overlap.{PrefixFree, PrefixesOfOneOverlap, SsccHasOneSupplier};
ghost use Rattle.gs1_ids.specs.Overlap as spec;
ghost use Rattle.gs1_ids.specs.Prefix.{overlap};

use crate::prefix::Prefix;

// Returns the place of the first of `others` that `prefix` overlaps.
fn find_overlap(prefix: &Prefix, others: &[Prefix]) -> Option<usize>
    ensures { result ≡ position (overlap prefix.now) others.now }
{
    others.iter().position(|other| prefix.overlaps(other))
}

/// Returns the first two places, from 0, whose prefixes overlap: where one begins the other, as equal ones do. The
/// least first place, and with it the least second one; `None` if all prefixes are free of one another. It compares
/// each prefix with each later one, so its cost grows with the square of their number.
pub fn first_overlap(prefixes: &[Prefix]) -> Option<(usize, usize)>
    ensures value { result ≡ first_overlap_of prefixes.now }
    ensures least { IfSome result (λ places. IsFirstOverlap prefixes.now places.0 places.1) }
    ensures free { IsNone result ↔ PrefixFree (map (λ prefix. prefix ∷ []) prefixes.now) }
{
    for (first, prefix) in prefixes.iter().enumerate() {
        if let Some(offset) = find_overlap(prefix, &prefixes[first + 1..]) {
            return Some((first, first + 1 + offset));
        }
    }
    None
}

// Whether each prefix is free of the next.
fn are_free_of_the_next(prefixes: &[Prefix]) -> bool
    ensures { IsTrue result ↔ AllAdjacentBelow (λ prefix next. overlap prefix next ≡ false) prefixes.now (length prefixes.now) }
{
    for place in 1..prefixes.len() {
        if prefixes[place - 1].overlaps(&prefixes[place]) {
            return false;
        }
    }
    true
}

/// Whether no two of these prefixes overlap. It puts them in the order of their bytes, in which two neighbours overlap
/// if any two do, so its cost grows little faster than their number.
pub fn none_overlap(prefixes: &mut [Prefix]) -> bool
    ensures value { IsTrue result ↔ NoneOverlap prefixes.old }
    ensures same { IsPermutation prefixes.old prefixes.new }
{
    prefixes.sort_unstable();
    are_free_of_the_next(prefixes)
}

// Whether `prefix` and one of `others` overlap.
fn overlaps_one(prefix: &Prefix, others: &[Prefix]) -> bool
    ensures { result ≡ list_any (overlap prefix.now) others.now }
{
    others.iter().any(|other| prefix.overlaps(other))
}

// Whether one of `prefixes` and one of `others` overlap.
fn some_overlaps(prefixes: &[Prefix], others: &[Prefix]) -> bool
    ensures { result ≡ spec.overlap_some prefixes.now others.now }
{
    prefixes.iter().any(|prefix| overlaps_one(prefix, others))
}

/// Whether one of our prefixes and one of theirs overlap: one of the two begins the other, as equal ones do.
pub fn overlap_some(ours: &[Prefix], theirs: &[Prefix]) -> bool
    ensures value { result ≡ spec.overlap_some ours.now theirs.now }
    ensures apart { (result ≡ false) ↔ AreApart ours.now theirs.now }
{
    some_overlaps(ours, theirs)
}

/// Two prefixes that both begin one list of digits begin one another.
pub fn prefixes_of_one_overlap()
    ensures { PrefixesOfOneOverlap }
{}

/// If the prefixes of suppliers are free of one another, an SSCC is under those of one supplier at most.
pub fn sscc_has_one_supplier()
    ensures { SsccHasOneSupplier }
{}
