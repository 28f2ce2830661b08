ghost use Rattle.std.specs.Prelude.{◌≡◌};

use std::alloc::{AllocError, AllocFailed};
use std::error::Error;
use std::fmt;

/// Why a message is refused. Each variant but the last is one condition, with the code that is printed for it.
#[derive(Clone, Copy, Debug, PartialEq, Eq)]
pub enum MessageFault {
    /// M01: the message type, its version, release or agency is wrong.
    MessageType,
    /// M02: BGM does not follow UNH or comes more than once, or its code or document number is wrong.
    Beginning,
    /// M03: the message function.
    Function,
    /// M04: the document date.
    Date,
    /// M05: the buyer or the supplier.
    Parties,
    /// M06: UNS.
    Summary,
    /// M07: LIN of a line.
    Line,
    /// M08: the quantities of a line.
    Quantity,
    /// M09: the reference to an order.
    Reference,
    /// M10: a despatch unit.
    Unit,
    /// M11: the number of lines in CNT.
    Control,
    /// M12: there is no line.
    WithoutLines,
    /// Out of memory.
    Memory,
}

impl MessageFault {
    ghost use Rattle.edi_messages.specs.Fault.{code_text};

    /// Returns the code that is printed, such as `M02`, or `memory` for out of memory.
    pub fn code(self) -> &'static str
        ensures { result.now ≡ code_text self }
    {
        match self {
            MessageFault::MessageType => "M01",
            MessageFault::Beginning => "M02",
            MessageFault::Function => "M03",
            MessageFault::Date => "M04",
            MessageFault::Parties => "M05",
            MessageFault::Summary => "M06",
            MessageFault::Line => "M07",
            MessageFault::Quantity => "M08",
            MessageFault::Reference => "M09",
            MessageFault::Unit => "M10",
            MessageFault::Control => "M11",
            MessageFault::WithoutLines => "M12",
            MessageFault::Memory => "memory",
        }
    }
}

impl fmt::Display for MessageFault {
    ghost use Rattle.edi_messages.specs.Fault.{code_text};
    ghost use Rattle.std.specs.Prelude.{Some};

    ghost output = { λ fault. Some (code_text fault) };

    fn fmt<W: fmt::Write>(&self, f: &mut fmt::Formatter<W>) -> fmt::Result {
        f.write_str(self.code())
    }
}

impl Error for MessageFault {}

impl From<AllocError> for MessageFault {
    ghost use Rattle.std.specs.Prelude.{◌≡◌};
    ghost use Rattle.edi_messages.specs.declared.fault.MessageFault.TheVariants.{Memory};

    ghost from_gives = { λ _ fault. fault ≡ Memory };

    fn from(_error: AllocError) -> MessageFault {
        MessageFault::Memory
    }
}

impl<T: Drop> From<AllocFailed<T>> for MessageFault {
    ghost use Rattle.std.specs.Prelude.{◌≡◌};
    ghost use Rattle.edi_messages.specs.declared.fault.MessageFault.TheVariants.{Memory};

    ghost from_gives = { λ _ fault. fault ≡ Memory };

    fn from(_error: AllocFailed<T>) -> MessageFault {
        MessageFault::Memory
    }
}
