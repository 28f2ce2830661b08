//! Defines why a script could not be run to its end.
use edi_base::{ReadFault, WriteFault};
use hub_register::RegisterFault;
use std::alloc::AllocError;
use std::fmt;
use trial_calls::CallFault;

/// Why a script could not be run to its end.
#[derive(Clone, Copy)]
pub enum ScriptFault {
    /// A line that no script may have, or bytes that are cut short.
    Line,
    /// A text that is not a register.
    Register,
    /// A read or write failed.
    File,
    /// Memory ran out, for the script or for what is printed.
    Memory,
    /// A call that is tested answered something else.
    Wrong,
}

impl fmt::Display for ScriptFault {
    fn fmt<W: fmt::Write>(&self, f: &mut fmt::Formatter<W>) -> fmt::Result {
        match self {
            ScriptFault::Line => f.write_str("line"),
            ScriptFault::Register => f.write_str("register"),
            ScriptFault::File => f.write_str("file"),
            ScriptFault::Memory => f.write_str("memory"),
            ScriptFault::Wrong => f.write_str("wrong"),
        }
    }
}

impl From<AllocError> for ScriptFault {
    fn from(_refused: AllocError) -> ScriptFault {
        ScriptFault::Memory
    }
}

impl From<ReadFault> for ScriptFault {
    fn from(fault: ReadFault) -> ScriptFault {
        match fault {
            ReadFault::Read => ScriptFault::File,
            ReadFault::Memory => ScriptFault::Memory,
        }
    }
}

impl From<RegisterFault> for ScriptFault {
    fn from(fault: RegisterFault) -> ScriptFault {
        if fault == RegisterFault::Memory {
            ScriptFault::Memory
        } else {
            ScriptFault::Register
        }
    }
}

impl From<WriteFault> for ScriptFault {
    fn from(_fault: WriteFault) -> ScriptFault {
        ScriptFault::File
    }
}

impl From<CallFault> for ScriptFault {
    fn from(fault: CallFault) -> ScriptFault {
        match fault {
            CallFault::Name => ScriptFault::Line,
            CallFault::Wrong => ScriptFault::Wrong,
            CallFault::Memory => ScriptFault::Memory,
            CallFault::Write => ScriptFault::File,
        }
    }
}
