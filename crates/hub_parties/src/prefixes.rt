//! Defines the company prefixes of one supplier.
ghost use Rattle.std.specs.Prelude.{◌≡◌, ◌&&◌, true, IfOk, OnOk, IsTrue, position};
ghost use Rattle.std.specs.Ordering.{is_lt, is_gt};
ghost use Rattle.std.specs.List.{list_all};
ghost use Rattle.gs1_ids.specs.Prefix.{is_prefix};
ghost use Rattle.hub_parties.specs.KeyOrder.{bytes_cmp, put};
ghost use Rattle.hub_parties.specs.Prefixes as spec;

use edi_base::{Items, MemoryFault};
use gs1_ids::Prefix;
use std::alloc::Global;
use std::marker::Model;

/// The most company prefixes that a supplier may have.
const MOST_PREFIXES: usize = 8;

/// The GS1 company prefixes of one supplier: one to eight, sorted by their bytes, none twice. One may begin another.
#[derive(Debug, Drop)]
pub struct CompanyPrefixes {
    prefixes: Items<Prefix>,
}

impl Model for CompanyPrefixes {
    ghost use Rattle.std.specs.Prelude.{ℕ, List, IsTrue};
    ghost use Rattle.hub_parties.specs.Prefixes.{are_company_prefixes};

    ghost Value = { List (List ℕ) };

    ghost view = { λ held. held.prefixes };

    ghost invariant = { λ held. IsTrue (are_company_prefixes held.prefixes) };
}

// Whether the prefix is lower than each of these.
fn is_below_all(prefix: &Prefix, later: &[Prefix]) -> bool
    ensures value { result ≡ list_all (λ other. is_lt (bytes_cmp prefix.now other)) later.now }
    ensures valid { is_prefix prefix.now ≡ true }
{
    // The contract of `digits` says that the prefix is valid, which the result includes.
    let _valid = prefix.digits();
    later.iter().all(|other| prefix < other)
}

// Whether each prefix is lower than those after it.
fn are_rising(prefixes: &[Prefix]) -> bool
    ensures { result ≡ (list_all is_prefix prefixes.now && spec.rising prefixes.now) }
{
    for (place, prefix) in prefixes.iter().enumerate() {
        if !is_below_all(prefix, &prefixes[place + 1..]) {
            return false;
        }
    }
    true
}

// Whether a supplier can have these prefixes.
fn are_company_prefixes(prefixes: &[Prefix]) -> bool
    ensures { result ≡ spec.are_company_prefixes prefixes.now }
{
    1 <= prefixes.len() && prefixes.len() <= MOST_PREFIXES && are_rising(prefixes)
}

// Returns the position of the first of `prefixes` that is above `prefix`.
fn first_above(prefix: &Prefix, prefixes: &[Prefix]) -> Option<usize>
    ensures { result ≡ position (λ other. is_gt (bytes_cmp other prefix.now)) prefixes.now }
{
    prefixes.iter().position(|other| other > prefix)
}

// Inserts a prefix at its place.
fn put(prefixes: &mut Vec<Prefix>, prefix: Prefix) -> Result<(), MemoryFault>
    ensures { OnOk result (prefixes.new.items ≡ put bytes_cmp prefix prefixes.old.items) }
{
    let end = prefixes.len();
    let place = first_above(&prefix, prefixes.as_slice()).unwrap_or(end);
    prefixes.insert(place, prefix)?;
    Ok(())
}

impl CompanyPrefixes {
    /// Makes the prefixes of a supplier from these, in any order; `None` if there are none, more than eight, or two
    /// equal ones.
    pub fn of(alloc: Global, prefixes: &[Prefix]) -> Result<Option<Self>, MemoryFault>
        ensures { IfOk result (λ found. found ≡ spec.company_prefixes_of prefixes.now) }
    {
        if prefixes.len() > MOST_PREFIXES {
            return Ok(None);
        }
        let mut sorted = Vec::new(alloc);
        for prefix in prefixes {
            put(&mut sorted, *prefix)?;
        }
        if !are_company_prefixes(sorted.as_slice()) {
            return Ok(None);
        }
        Ok(Some(CompanyPrefixes {
            prefixes: Items::from_vec(sorted),
        }))
    }

    /// Returns a copy of the prefixes.
    pub fn copy(&self, alloc: Global) -> Result<Self, MemoryFault>
        ensures { IfOk result (λ copy. copy ≡ self.now) }
    {
        let prefixes = Items::from_vec(Vec::from_slice(alloc, self.as_slice())?);
        Ok(CompanyPrefixes { prefixes })
    }

    /// Returns the prefixes, one to eight, sorted by their bytes.
    pub fn as_slice(&self) -> &[Prefix]
        ensures value { result.now ≡ self.now }
        ensures right { IsTrue (spec.are_company_prefixes self.now) }
    {
        self.prefixes.as_slice()
    }
}
