//! Makes the changes that found a register.
ghost use Rattle.std.specs.Prelude.{◌≡◌, IfOk};
ghost use Rattle.hub_parties.specs.Rows.{IsRegister};
ghost use Rattle.hub_tables.specs.Register as spec;

use edi_base::MemoryFault;
use hub_register::Register;
use hub_tables::{Change, HubRow, put_row_changes};
use std::alloc::Global;

fn hub_row(register: &Register) -> HubRow
    ensures value { result ≡ record {
      hub = register.now.hub;
      retailer = register.now.retailer;
      key = register.now.retailer_key;
    } }
    ensures register { IsRegister register.now }
{
    HubRow {
        hub: *register.hub(),
        retailer: *register.retailer(),
        key: register.retailer_key().copy(),
    }
}

/// Returns the changes that add a register's rows to tables without any: the hub's row, and each supplier's key and
/// prefixes.
pub fn register_changes(alloc: Global, register: &Register) -> Result<Vec<Change>, MemoryFault>
    ensures changes { IfOk result (λ changes. changes.items ≡ spec.register_changes register.now) }
    ensures register { IsRegister register.now }
{
    let mut changes = Vec::new(alloc);
    changes.push(Change::AddHub(hub_row(register)))?;
    for row in register.suppliers() {
        put_row_changes(row, &mut changes)?;
    }
    Ok(changes)
}
