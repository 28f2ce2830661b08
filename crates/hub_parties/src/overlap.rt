//! Finds suppliers whose prefixes overlap.
ghost use Rattle.std.specs.Prelude.{◌≡◌, ◌<◌, ◌↔◌, length, position, IsNone, IfSome};
ghost use Rattle.gs1_ids.specs.Overlap.{overlap_some, first_overlap_between, PrefixFree};

use crate::prefixes::CompanyPrefixes;
use gs1_ids::overlap_some;

// Returns the position of the first of `others` of which some prefix overlaps one of `ours`.
fn find_overlap(ours: &CompanyPrefixes, others: &[CompanyPrefixes]) -> Option<usize>
    ensures { result ≡ position (overlap_some ours.now) others.now }
{
    others
        .iter()
        .position(|theirs| overlap_some(ours.as_slice(), theirs.as_slice()))
}

/// Returns the first two suppliers with overlapping prefixes, by their positions from 0: the lowest first position, and
/// with it the lowest second one. Returns `None` if no two suppliers overlap. Each supplier is compared with each later
/// one, so the time grows with the square of their number.
pub fn first_overlap(suppliers: &[CompanyPrefixes]) -> Option<(usize, usize)>
    ensures value { result ≡ first_overlap_between suppliers.now }
    ensures within { IfSome result (λ places. (places.0 < places.1) × (places.1 < length suppliers.now)) }
    ensures free { IsNone result ↔ PrefixFree suppliers.now }
{
    for (first, ours) in suppliers.iter().enumerate() {
        if let Some(offset) = find_overlap(ours, &suppliers[first + 1..]) {
            return Some((first, first + 1 + offset));
        }
    }
    None
}
