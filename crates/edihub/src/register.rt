//! Reads the register in a file.
use edi_base::OfRead;
use hub_commands::{RegisterTextFault, read_register_text};
use std::fs::File;

/// Returns the text of the register at a path.
pub(crate) fn register_text(rt: &HostRuntime, path: &str) -> Result<String, RegisterTextFault> {
    let file = File::open(rt, path).map_err(|_| RegisterTextFault::File)?;
    read_register_text(rt.alloc(), &mut OfRead::new(file))
}
