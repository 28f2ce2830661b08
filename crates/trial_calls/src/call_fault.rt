//! Defines why a test of calls does not pass.
use edi_base::{ReadFault, WriteFault};
use edi_envelope::EnvelopeFault;
use edi_relay::RelayFault;
use edi_tokens::TokenFault;
use hub_register::RegisterFault;
use hub_store::StoreFault;
use std::alloc::AllocError;

/// Why a test of calls does not pass, or cannot be made.
#[derive(Clone, Copy)]
pub enum CallFault {
    /// No test has this name.
    Name,
    /// A call answered something else.
    Wrong,
    /// Memory ran out.
    Memory,
    /// The name of a test could not be printed.
    Write,
}

/// Answers whether what a test compares holds.
pub fn right(holds: bool) -> Result<(), CallFault> {
    if holds { Ok(()) } else { Err(CallFault::Wrong) }
}

impl From<AllocError> for CallFault {
    fn from(_refused: AllocError) -> CallFault {
        CallFault::Memory
    }
}

impl From<ReadFault> for CallFault {
    fn from(fault: ReadFault) -> CallFault {
        match fault {
            ReadFault::Memory => CallFault::Memory,
            ReadFault::Read => CallFault::Wrong,
        }
    }
}

impl From<WriteFault> for CallFault {
    fn from(_fault: WriteFault) -> CallFault {
        CallFault::Write
    }
}

impl From<RegisterFault> for CallFault {
    fn from(fault: RegisterFault) -> CallFault {
        if fault == RegisterFault::Memory {
            CallFault::Memory
        } else {
            CallFault::Wrong
        }
    }
}

impl From<TokenFault> for CallFault {
    fn from(fault: TokenFault) -> CallFault {
        match fault {
            TokenFault::Memory => CallFault::Memory,
            _ => CallFault::Wrong,
        }
    }
}

impl From<EnvelopeFault> for CallFault {
    fn from(fault: EnvelopeFault) -> CallFault {
        match fault {
            EnvelopeFault::Memory => CallFault::Memory,
            _ => CallFault::Wrong,
        }
    }
}

impl From<RelayFault> for CallFault {
    fn from(fault: RelayFault) -> CallFault {
        match fault {
            RelayFault::Memory => CallFault::Memory,
            _ => CallFault::Wrong,
        }
    }
}

impl From<StoreFault> for CallFault {
    fn from(fault: StoreFault) -> CallFault {
        match fault {
            StoreFault::Memory => CallFault::Memory,
            _ => CallFault::Wrong,
        }
    }
}
