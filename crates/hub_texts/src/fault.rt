//! Defines why the text of a pallet cannot be written.
ghost use Rattle.std.specs.Prelude.{◌≡◌};
ghost use Rattle.hub_texts.specs.declared.fault.TextFault.TheVariants.{Memory};

use edi_base::MemoryFault;
use std::alloc::AllocFailed;

/// Why the text of a pallet cannot be written.
#[derive(Clone, Copy, Debug, PartialEq, Eq)]
pub enum TextFault {
    /// Memory ran out.
    Memory,
    /// A content names no line, or a sum of quantities does not fit 64 bits.
    Unclean,
}

impl From<MemoryFault> for TextFault {
    ghost from_gives = { λ _ fault. fault ≡ Memory };

    fn from(_refused: MemoryFault) -> TextFault {
        TextFault::Memory
    }
}

impl<T: Drop> From<AllocFailed<T>> for TextFault {
    ghost from_gives = { λ _ fault. fault ≡ Memory };

    fn from(_refused: AllocFailed<T>) -> TextFault {
        TextFault::Memory
    }
}
