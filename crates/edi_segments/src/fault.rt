ghost use Rattle.std.specs.Prelude.{◌≡◌};
ghost use Rattle.edi_segments.specs.declared.fault.TokenFault.TheVariants.{Memory};

use std::alloc::{AllocError, AllocFailed};
use std::error::Error;
use std::fmt;

/// Why a text is refused. A partner sees the number of the fault.
#[derive(Clone, Copy, Debug, PartialEq, Eq, Hash)]
pub enum TokenFault {
    /// E01: the text is longer than 1,048,576 bytes.
    TooLong,
    /// E02: the service string advice is cut, or its characters are against the rules.
    ServiceString,
    /// E03: a byte that is not allowed in a segment.
    Byte,
    /// E04: the text ends inside a segment.
    Cut,
    /// E05: a missing tag, or a wrong byte after one.
    Tag,
    /// E20: a segment is longer than 8,192 bytes.
    LongSegment,
    /// The reader answered an error.
    Read,
    /// Out of memory.
    Memory,
}

impl TokenFault {
    ghost use Rattle.edi_segments.specs.Code.{code_text};

    /// Returns the code that is printed, such as `E04`, or `read` or `memory` for a fault that is not of the text.
    pub fn code(self) -> &'static str
        ensures { result.now ≡ code_text self }
    {
        match self {
            TokenFault::TooLong => "E01",
            TokenFault::ServiceString => "E02",
            TokenFault::Byte => "E03",
            TokenFault::Cut => "E04",
            TokenFault::Tag => "E05",
            TokenFault::LongSegment => "E20",
            TokenFault::Read => "read",
            TokenFault::Memory => "memory",
        }
    }
}

impl fmt::Display for TokenFault {
    ghost use Rattle.edi_segments.specs.Code.{code_text};
    ghost use Rattle.std.specs.Prelude.{Some};

    ghost output = { λ fault. Some (code_text fault) };

    fn fmt<W: fmt::Write>(&self, f: &mut fmt::Formatter<W>) -> fmt::Result {
        f.write_str(self.code())
    }
}

impl Error for TokenFault {}

impl From<AllocError> for TokenFault {
    ghost from_gives = { λ _ fault. fault ≡ Memory };

    fn from(_refused: AllocError) -> TokenFault {
        TokenFault::Memory
    }
}

impl<T: Drop> From<AllocFailed<T>> for TokenFault {
    ghost from_gives = { λ _ fault. fault ≡ Memory };

    fn from(_refused: AllocFailed<T>) -> TokenFault {
        TokenFault::Memory
    }
}
