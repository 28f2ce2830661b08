//! Adds up amounts by article.
ghost use Rattle.std.specs.Prelude.{◌≡◌, ◌+◌, ◌≤◌, IfOk, IfErr};
ghost use Rattle.std.specs.BTreeMap.{get};
ghost use Rattle.std.specs.Cmp.Lexicographic.{slice_cmp};
ghost use Rattle.std.specs.Option.{unwrap_or};
ghost use Rattle.std.specs.Ordering.{nat_cmp};
ghost use Rattle.edi_base.specs.Limits.{greatest};
ghost use Rattle.edi_goods.specs.Sums as spec;

use edi_base::GREATEST;
use edi_messages::MessageFault;
use gs1_ids::Gtin;
use std::alloc::Global;
use std::collections::BTreeMap;

/// A number of pieces of an article.
#[derive(Clone, Copy)]
pub(crate) struct Amount {
    pub(crate) gtin: Gtin,
    pub(crate) quantity: u32,
}

// Returns the sum of an article so far.
fn sum_so_far(sums: &BTreeMap<Gtin, u64>, gtin: &Gtin) -> u64
    ensures { result ≡ unwrap_or (get (slice_cmp nat_cmp) sums.now gtin.now) 0 }
{
    match sums.get(gtin) {
        Some(sum) => *sum,
        None => 0,
    }
}

// Adds one more amount to a sum.
fn with_more(sum: u64, quantity: u32) -> u64
    requires { sum ≤ greatest }
    ensures { result ≡ sum + quantity }
{
    sum + quantity as u64
}

/// Whether no article's sum is above 999,999,999. The sums are kept in an ordered map, so that the time grows as n log n with n
/// amounts.
pub(crate) fn sums_within(alloc: Global, amounts: &[Amount]) -> Result<bool, MessageFault>
    ensures ok { IfOk result (λ within. within ≡ spec.sums_within amounts.now) }
    ensures err { IfErr result (λ fault. fault ≡ MessageFault.Memory) }
{
    let mut sums: BTreeMap<Gtin, u64> = BTreeMap::new(alloc);
    for amount in amounts {
        let before = sum_so_far(&sums, &amount.gtin);
        let sum = with_more(before, amount.quantity);
        if sum > GREATEST {
            return Ok(false);
        }
        sums.insert(amount.gtin, sum)?;
    }
    Ok(true)
}
