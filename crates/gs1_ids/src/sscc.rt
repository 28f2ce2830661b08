//! Defines Serial Shipping Container Codes (SSCC).
ghost use Rattle.std.specs.Prelude.{◌≡◌, ◌↔◌, ℕ, List, Some, IsTrue, drop};
ghost use Rattle.std.specs.Fmt.{styled_text};
ghost use Rattle.std.specs.Option.{SomeIff};
ghost use Rattle.gs1_ids.specs.Prefix.{Begins};
ghost use Rattle.gs1_ids.specs.Sscc.{IsSscc, sscc_of, under};

use crate::digits::{key_of, write_digits};
use crate::prefix::Prefix;
use std::fmt;
use std::marker::Model;

/// A Serial Shipping Container Code: an extension digit, sixteen digits of company prefix and serial
/// reference, and the check digit.
#[derive(Clone, Copy, Debug, PartialEq, Eq, PartialOrd, Ord, Hash)]
pub struct Sscc {
    digits: [u8; 18],
}

impl Model for Sscc {
    ghost Value = { List ℕ };

    ghost view = { λ sscc. sscc.digits };

    ghost invariant = { λ sscc. IsSscc sscc.digits };

    ghost inverse = { λ xs. record { digits = xs } };
}

impl Sscc {
    /// Returns the SSCC that `text` writes in ASCII digits, or `None` if it is not an SSCC.
    pub fn parse(text: &[u8]) -> Option<Self>
        ensures exact { SomeIff result (IsSscc text.now) text.now }
        ensures value { result ≡ sscc_of text.now }
    {
        let digits = key_of(text)?;
        Some(Sscc { digits })
    }

    /// Returns the eighteen ASCII digits.
    pub fn digits(&self) -> &[u8; 18]
        ensures value { result.now ≡ self.now }
        ensures valid { IsSscc self.now }
    {
        &self.digits
    }

    /// Whether `prefix` begins the digits from the second on, those after the extension digit.
    pub fn under(&self, prefix: &Prefix) -> bool
        ensures value { result ≡ under self.now prefix.now }
        ensures exact { IsTrue result ↔ Begins prefix.now (drop 1 self.now) }
    {
        self.digits[1..].starts_with(prefix.digits())
    }
}

impl fmt::Display for Sscc {
    ghost output = { λ sscc. Some sscc };

    ghost styled_output = { λ sscc spec. Some (styled_text spec sscc) };

    fn fmt<W: fmt::Write>(&self, f: &mut fmt::Formatter<W>) -> fmt::Result {
        write_digits(self.digits(), f)
    }
}
