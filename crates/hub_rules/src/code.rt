//! Defines the codes with which rules refuse.
ghost use Rattle.std.specs.Prelude.{◌≡◌};
ghost use Rattle.hub_rules.specs.Code.{code_text};

use std::fmt;

/// The rule that a message, a cancellation or a join breaks.
#[derive(Clone, Copy, Debug, PartialEq, Eq)]
pub enum Code {
    /// B01: the message names a buyer that is not the retailer.
    Buyer,
    /// B02: the supplier is not registered, or is not the caller.
    Supplier,
    /// B03: other content is remembered under the same references.
    OtherContent,
    /// B04: the supplier already has an order with this number.
    OrderKnown,
    /// B05: the supplier has no such order.
    NoOrder,
    /// B06: the order has no such line, or does not have exactly one line of the article.
    NoLine,
    /// B07: the line does not wait for an answer, or no line of the order does.
    NotWaiting,
    /// B08: a changed quantity is below what is despatched, or above what is despatched and open together.
    OutOfRange,
    /// B09: the line has another article.
    OtherArticle,
    /// B10: more is despatched than is open.
    MoreThanOpen,
    /// B11: the SSCC is not under a prefix of the supplier.
    OtherPrefix,
    /// B12: the SSCC is already used.
    SsccUsed,
    /// B13: the supplier already has an advice with this number.
    AdviceKnown,
    /// B14: the supplier has no such pallet.
    NoPallet,
    /// B15: the pallet was already received.
    PalletReceived,
    /// B16: the mailbox has no number left for another entry.
    MailboxFull,
    /// B17: more is cancelled than is open.
    CancelsMoreThanOpen,
    /// B18: the GLN that is to join is already the hub's, the retailer's or a supplier's.
    GlnKnown,
    /// B19: one of the prefixes begins a prefix of another supplier, or begins with one.
    PrefixOverlaps,
    /// B20: the register already has the most suppliers allowed.
    RegisterFull,
}

impl Code {
    /// Returns the code that is printed, such as `B02`.
    pub fn code(self) -> &'static str
        ensures { result.now ≡ code_text self }
    {
        match self {
            Code::Buyer => "B01",
            Code::Supplier => "B02",
            Code::OtherContent => "B03",
            Code::OrderKnown => "B04",
            Code::NoOrder => "B05",
            Code::NoLine => "B06",
            Code::NotWaiting => "B07",
            Code::OutOfRange => "B08",
            Code::OtherArticle => "B09",
            Code::MoreThanOpen => "B10",
            Code::OtherPrefix => "B11",
            Code::SsccUsed => "B12",
            Code::AdviceKnown => "B13",
            Code::NoPallet => "B14",
            Code::PalletReceived => "B15",
            Code::MailboxFull => "B16",
            Code::CancelsMoreThanOpen => "B17",
            Code::GlnKnown => "B18",
            Code::PrefixOverlaps => "B19",
            Code::RegisterFull => "B20",
        }
    }
}

impl fmt::Display for Code {
    ghost use Rattle.hub_rules.specs.Code.{code_text};
    ghost use Rattle.std.specs.Prelude.{Some};

    ghost output = { λ code. Some (code_text code) };

    fn fmt<W: fmt::Write>(&self, f: &mut fmt::Formatter<W>) -> fmt::Result {
        f.write_str(self.code())
    }
}
