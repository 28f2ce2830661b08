//! Finds the orders that a despatch advice names.
ghost use Rattle.std.specs.Prelude.{◌≡◌, ℕ, ◌||◌, List, map, IfOk, OnOk};
ghost use Rattle.std.specs.List.{list_any};
ghost use Rattle.std.specs.BTreeSet.{IsOrdered};
ghost use Rattle.edi_base.specs.Seen.{is_among};
ghost use Rattle.hub_tables.specs.Rows.{same};
ghost use Rattle.hub_judges.specs.Known.{names_order};
ghost use Rattle.hub_naming.specs.Orders.{by_number};

use edi_base::MemoryFault;
use edi_goods::{DespatchLine, Unit};
use std::alloc::Global;
use std::collections::BTreeSet;

// Adds the orders that the lines of a unit name to a set.
fn put_orders<'a>(
    lines: &'a [DespatchLine],
    orders: &mut BTreeSet<&'a [u8]>,
) -> Result<(), MemoryFault>
    ensures orders { OnOk result ((order : List ℕ) →
        is_among order (map (λ number. number.now) orders.new.keys)
        ≡ (is_among order (map (λ number. number.now) orders.old.keys)
        || list_any (λ line. same line.order order) lines.now)) }
    ensures ordered { OnOk result (IsOrdered by_number orders.old → IsOrdered by_number orders.new) }
{
    for line in lines {
        orders.insert(line.order.as_slice())?;
    }
    Ok(())
}

/// Returns the orders that the lines of an advice name, each once, in the order of their numbers' bytes.
pub fn orders_named<'a>(alloc: Global, units: &'a [Unit]) -> Result<BTreeSet<&'a [u8]>, MemoryFault>
    ensures orders { IfOk result (λ orders. (order : List ℕ) →
        is_among order (map (λ number. number.now) orders.keys) ≡ names_order units.now order) }
    ensures ordered { IfOk result (IsOrdered by_number) }
{
    let mut orders = BTreeSet::new(alloc);
    for unit in units {
        put_orders(unit.lines.as_slice(), &mut orders)?;
    }
    Ok(orders)
}
