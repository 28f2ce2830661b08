use std::alloc::{AllocError, AllocFailed};
use std::error::Error;
use std::fmt;

/// Why a text is not a register, in the order in which the faults are checked.
#[derive(Clone, Copy, Debug, PartialEq, Eq)]
pub enum RegisterFault {
    /// The text is not a TOML document, or an entry of the register is missing or of another type.
    Text,
    /// More than 1,000 suppliers.
    Many,
    /// A GLN is not valid.
    Gln,
    /// Two GLNs are equal.
    Twice,
    /// A supplier has no prefix, more than eight, or two equal ones, or a prefix is not 4 to 12 digits.
    Prefix,
    /// A key is not 8 to 64 bytes of 0x21 to 0x7E.
    Key,
    /// Two suppliers overlap: a prefix of one begins a prefix of the other. The positions of both in the list, counted
    /// from 1.
    Overlap(usize, usize),
    /// Memory ran out.
    Memory,
}

impl fmt::Display for RegisterFault {
    ghost use Rattle.hub_register.specs.Text.{fault_text};
    ghost use Rattle.std.specs.Prelude.{Some};

    ghost output = { λ fault. Some (fault_text fault) };

    fn fmt<W: fmt::Write>(&self, f: &mut fmt::Formatter<W>) -> fmt::Result {
        match self {
            RegisterFault::Text => f.write_str("text"),
            RegisterFault::Many => f.write_str("many"),
            RegisterFault::Gln => f.write_str("gln"),
            RegisterFault::Twice => f.write_str("twice"),
            RegisterFault::Prefix => f.write_str("prefix"),
            RegisterFault::Key => f.write_str("key"),
            RegisterFault::Overlap(first, second) => write!(f, "overlap {first} {second}"),
            RegisterFault::Memory => f.write_str("memory"),
        }
    }
}

impl Error for RegisterFault {}

impl From<AllocError> for RegisterFault {
    ghost use Rattle.std.specs.Prelude.{◌≡◌};
    ghost use Rattle.hub_register.specs.declared.fault.RegisterFault.TheVariants.{Memory};

    ghost from_gives = { λ _ fault. fault ≡ Memory };

    fn from(_error: AllocError) -> RegisterFault {
        RegisterFault::Memory
    }
}

impl<T: Drop> From<AllocFailed<T>> for RegisterFault {
    ghost use Rattle.std.specs.Prelude.{◌≡◌};
    ghost use Rattle.hub_register.specs.declared.fault.RegisterFault.TheVariants.{Memory};

    ghost from_gives = { λ _ fault. fault ≡ Memory };

    fn from(_error: AllocFailed<T>) -> RegisterFault {
        RegisterFault::Memory
    }
}
