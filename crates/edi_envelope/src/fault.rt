ghost use Rattle.std.specs.Prelude.{◌≡◌};

use edi_tokens::TokenFault;
use std::alloc::{AllocError, AllocFailed};
use std::error::Error;
use std::fmt;

/// Why an interchange is refused. Each variant but the last is one condition, with the code that is printed for it.
#[derive(Clone, Copy, Debug, PartialEq, Eq)]
pub enum EnvelopeFault {
    /// E06: the first segment is not UNB, the last is not UNZ, or one of them comes anywhere else.
    InterchangeFrame,
    /// E07: UNB's syntax, partners, date, time, control reference or test indicator.
    InterchangeHeader,
    /// E10: something other than messages, UNH to UNT, comes between UNB and UNZ.
    MessageFrame,
    /// E11: UNH's reference or message identifier, or UNT's count, is outside its limits.
    MessageHeader,
    /// E12: UNT's count is not the number of segments.
    SegmentCount,
    /// E13: UNT's reference is not UNH's.
    MessageReference,
    /// E14: UNZ's count is not the number of messages.
    MessageCount,
    /// E15: UNZ's reference is not UNB's.
    ControlReference,
    /// E16: two messages have one reference.
    RepeatedReference,
    /// E17: the test indicator is `1`.
    TestIndicator,
    /// E18: more than 999 messages.
    TooManyMessages,
    /// E19: a byte from 0xA0 on under UNOA or UNOB.
    CharacterSet,
    /// Out of memory.
    Memory,
}

impl EnvelopeFault {
    ghost use Rattle.edi_envelope.specs.Fault.{code_text};

    /// Returns the code that is printed, as `E12`; `memory` for out of memory.
    pub fn code(self) -> &'static str
        ensures { result.now ≡ code_text self }
    {
        match self {
            EnvelopeFault::InterchangeFrame => "E06",
            EnvelopeFault::InterchangeHeader => "E07",
            EnvelopeFault::MessageFrame => "E10",
            EnvelopeFault::MessageHeader => "E11",
            EnvelopeFault::SegmentCount => "E12",
            EnvelopeFault::MessageReference => "E13",
            EnvelopeFault::MessageCount => "E14",
            EnvelopeFault::ControlReference => "E15",
            EnvelopeFault::RepeatedReference => "E16",
            EnvelopeFault::TestIndicator => "E17",
            EnvelopeFault::TooManyMessages => "E18",
            EnvelopeFault::CharacterSet => "E19",
            EnvelopeFault::Memory => "memory",
        }
    }
}

impl fmt::Display for EnvelopeFault {
    ghost use Rattle.edi_envelope.specs.Fault.{code_text};
    ghost use Rattle.std.specs.Prelude.{Some};

    ghost output = { λ fault. Some (code_text fault) };

    fn fmt<W: fmt::Write>(&self, f: &mut fmt::Formatter<W>) -> fmt::Result {
        f.write_str(self.code())
    }
}

impl Error for EnvelopeFault {}

impl From<AllocError> for EnvelopeFault {
    ghost use Rattle.std.specs.Prelude.{◌≡◌};
    ghost use Rattle.edi_envelope.specs.declared.fault.EnvelopeFault.TheVariants.{Memory};

    ghost from_gives = { λ _ fault. fault ≡ Memory };

    fn from(_error: AllocError) -> EnvelopeFault {
        EnvelopeFault::Memory
    }
}

impl<T: Drop> From<AllocFailed<T>> for EnvelopeFault {
    ghost use Rattle.std.specs.Prelude.{◌≡◌};
    ghost use Rattle.edi_envelope.specs.declared.fault.EnvelopeFault.TheVariants.{Memory};

    ghost from_gives = { λ _ fault. fault ≡ Memory };

    fn from(_error: AllocFailed<T>) -> EnvelopeFault {
        EnvelopeFault::Memory
    }
}

/// Why a text is not an interchange.
#[derive(Clone, Copy, Debug, PartialEq, Eq)]
pub enum OpenFault {
    /// The text spells no segments, or the reader failed.
    Token(TokenFault),
    /// The segments are no interchange, or memory ran out.
    Envelope(EnvelopeFault),
}

impl OpenFault {
    ghost use Rattle.edi_envelope.specs.Opened.{code_text};

    /// Returns the code that is printed, as `E12`; `read` for a reader that failed and `memory` for out of memory.
    pub fn code(self) -> &'static str
        ensures { result.now ≡ code_text self }
    {
        match self {
            OpenFault::Token(fault) => fault.code(),
            OpenFault::Envelope(fault) => fault.code(),
        }
    }
}

impl fmt::Display for OpenFault {
    ghost use Rattle.edi_envelope.specs.Opened.{code_text};
    ghost use Rattle.std.specs.Prelude.{Some};

    ghost output = { λ fault. Some (code_text fault) };

    fn fmt<W: fmt::Write>(&self, f: &mut fmt::Formatter<W>) -> fmt::Result {
        let code = self.code();
        f.write_str(code)
    }
}

impl Error for OpenFault {}

impl From<TokenFault> for OpenFault {
    ghost use Rattle.std.specs.Prelude.{◌≡◌};
    ghost use Rattle.edi_envelope.specs.declared.fault.OpenFault.TheVariants.{Token};

    ghost from_gives = { λ fault told. told ≡ Token fault };

    fn from(fault: TokenFault) -> OpenFault {
        OpenFault::Token(fault)
    }
}

impl From<EnvelopeFault> for OpenFault {
    ghost use Rattle.std.specs.Prelude.{◌≡◌};
    ghost use Rattle.edi_envelope.specs.declared.fault.OpenFault.TheVariants.{Envelope};

    ghost from_gives = { λ fault told. told ≡ Envelope fault };

    fn from(fault: EnvelopeFault) -> OpenFault {
        OpenFault::Envelope(fault)
    }
}

impl From<AllocError> for OpenFault {
    ghost use Rattle.std.specs.Prelude.{◌≡◌};
    ghost use Rattle.edi_envelope.specs.declared.fault.OpenFault.TheVariants.{Envelope};
    ghost use Rattle.edi_envelope.specs.declared.fault.EnvelopeFault.TheVariants.{Memory};

    ghost from_gives = { λ _ told. told ≡ Envelope Memory };

    fn from(_error: AllocError) -> OpenFault {
        OpenFault::Envelope(EnvelopeFault::Memory)
    }
}
