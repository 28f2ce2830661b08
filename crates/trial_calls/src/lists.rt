//! Makes lists with the rows of a register of one supplier.
use crate::call_fault::CallFault;
use edi_base::MemoryFault;
use hub_register::{Register, RegisterFault};
use std::alloc::Global;
use trial_lists::VecStore;

const OF_ONE: &str = "hub = \"5412345000006\"

[retailer]
gln = \"5412345000013\"
key = \"retail-key\"

[[supplier]]
gln = \"4012345500004\"
prefix = \"40123455\"
key = \"alpha-key-1\"
";

// A function of its own, as for each call, to keep its contract out of other proofs.
fn register(alloc: Global) -> Result<Register, RegisterFault> {
    Register::from_toml(alloc, OF_ONE)
}

fn founded(alloc: Global, register: &Register) -> Result<VecStore, MemoryFault> {
    VecStore::new(alloc, register)
}

/// Makes lists that have only the rows of the register.
pub fn lists(alloc: Global) -> Result<VecStore, CallFault> {
    let register = register(alloc)?;
    Ok(founded(alloc, &register)?)
}
