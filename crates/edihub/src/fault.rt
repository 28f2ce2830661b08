//! Says why founding a hub failed, or why a command over one did not begin or end.
use edi_base::ReadFault;
use hub_commands::RegisterTextFault;
use hub_store::{LastingFault, StoreFault};
use std::alloc::AllocError;
use std::error::Error;
use std::fmt;

/// Why founding a hub failed, or why a command over one did not begin, in the order in which this is checked, or did
/// not end. Files with keys are read before anything else.
#[derive(Clone, Copy, Debug)]
pub(crate) enum BeginFault {
    /// Opening the database file failed.
    Store(StoreFault),
    /// Listening on the port failed, or no more connections can be taken.
    Listen,
    /// The clock failed, or is out of range.
    Clock,
    /// Reading a file or a folder failed, or writing to standard output.
    File,
    /// Memory ran out.
    Memory,
}

// Returns the word for a fault of the store.
fn word_of(fault: StoreFault) -> &'static str {
    match fault {
        StoreFault::Memory => "memory",
        StoreFault::Disk => "disk",
        StoreFault::Unclean => "unclean",
        StoreFault::Version => "version",
    }
}

impl fmt::Display for BeginFault {
    fn fmt<W: fmt::Write>(&self, f: &mut fmt::Formatter<W>) -> fmt::Result {
        match self {
            BeginFault::Store(fault) => {
                let word = word_of(*fault);
                write!(f, "store {word}")
            }
            BeginFault::Listen => f.write_str("listen"),
            BeginFault::Clock => f.write_str("clock"),
            BeginFault::File => f.write_str("file"),
            BeginFault::Memory => f.write_str("memory"),
        }
    }
}

impl Error for BeginFault {}

impl From<RegisterTextFault> for BeginFault {
    fn from(fault: RegisterTextFault) -> BeginFault {
        match fault {
            RegisterTextFault::File => BeginFault::File,
            RegisterTextFault::Memory => BeginFault::Memory,
        }
    }
}

impl From<AllocError> for BeginFault {
    fn from(_error: AllocError) -> BeginFault {
        BeginFault::Memory
    }
}

impl From<StoreFault> for BeginFault {
    fn from(fault: StoreFault) -> BeginFault {
        BeginFault::Store(fault)
    }
}

impl From<LastingFault> for BeginFault {
    fn from(fault: LastingFault) -> BeginFault {
        match fault {
            LastingFault::Disk => BeginFault::Store(StoreFault::Disk),
            LastingFault::Unclean => BeginFault::Store(StoreFault::Unclean),
        }
    }
}

impl From<ReadFault> for BeginFault {
    fn from(fault: ReadFault) -> BeginFault {
        match fault {
            ReadFault::Read => BeginFault::File,
            ReadFault::Memory => BeginFault::Memory,
        }
    }
}

/// Why a command with keys did not begin.
#[derive(Clone, Copy, Debug)]
pub(crate) enum KeyFault {
    /// Reading a file with a key failed.
    Unread(BeginFault),
    /// The file of a supplier that joins has no key.
    Refused,
}

impl From<BeginFault> for KeyFault {
    fn from(fault: BeginFault) -> KeyFault {
        KeyFault::Unread(fault)
    }
}

impl From<AllocError> for KeyFault {
    fn from(_error: AllocError) -> KeyFault {
        KeyFault::Unread(BeginFault::Memory)
    }
}
