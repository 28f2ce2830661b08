//! Totals what is received of the articles of a unit.
ghost use Rattle.std.specs.Prelude.{◌≡◌, ◌+◌, ◌<◌, ◌^◌, ℕ, List, None, IfOk};
ghost use Rattle.std.specs.BTreeMap.{get};
ghost use Rattle.std.specs.Cmp.Lexicographic.{slice_cmp};
ghost use Rattle.std.specs.Option.{unwrap_or};
ghost use Rattle.std.specs.Ordering.{nat_cmp};
ghost use Rattle.hub_judges.specs.Totals as spec;

use edi_base::MemoryFault;
use edi_goods::ReceiptLine;
use gs1_ids::Gtin;
use std::alloc::Global;
use std::collections::BTreeMap;

/// What is received of an article, in pieces.
#[derive(Clone, Copy)]
pub(crate) struct Total {
    /// Accepted.
    pub(crate) accepted: u32,
    /// Not accepted, to be returned.
    pub(crate) returned: u32,
    /// Not accepted, to be destroyed.
    pub(crate) destroyed: u32,
}

impl Total {
    // Adds the quantities of one more line.
    fn with_line(self, line: &ReceiptLine) -> Self
        requires accepted { self.accepted + line.now.accepted < 2 ^ 32 }
        requires returned { self.returned + line.now.returned < 2 ^ 32 }
        requires destroyed { self.destroyed + line.now.destroyed < 2 ^ 32 }
        ensures { result ≡ spec.with_line self line.now }
    {
        Total {
            accepted: self.accepted + line.accepted,
            returned: self.returned + line.returned,
            destroyed: self.destroyed + line.destroyed,
        }
    }
}

// Returns the totals of an article so far.
fn total_so_far(totals: &BTreeMap<Gtin, Total>, gtin: &Gtin) -> Total
    ensures { result ≡ unwrap_or (get (slice_cmp nat_cmp) totals.now gtin.now) spec.nothing }
{
    match totals.get(gtin) {
        Some(total) => *total,
        None => Total {
            accepted: 0,
            returned: 0,
            destroyed: 0,
        },
    }
}

/// Returns the totals of each article of a unit. They are kept in an ordered map, so with n lines the time grows as n
/// log n.
pub(crate) fn totals_of(
    alloc: Global,
    lines: &[ReceiptLine],
) -> Result<BTreeMap<Gtin, Total>, MemoryFault>
    requires { spec.RowsHold lines.now }
    ensures { IfOk result (λ totals. (article : List ℕ) →
        get (slice_cmp nat_cmp) totals article ≡ spec.total_from None article lines.now) }
{
    let mut totals: BTreeMap<Gtin, Total> = BTreeMap::new(alloc);
    for line in lines {
        let before = total_so_far(&totals, &line.gtin);
        let total = before.with_line(line);
        totals.insert(line.gtin, total)?;
    }
    Ok(totals)
}
