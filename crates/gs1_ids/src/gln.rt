//! Defines Global Location Numbers (GLN).
ghost use Rattle.std.specs.Prelude.{◌≡◌, ℕ, List, Some};
ghost use Rattle.std.specs.Fmt.{styled_text};
ghost use Rattle.std.specs.Option.{SomeIff};
ghost use Rattle.gs1_ids.specs.Gln.{IsGln, gln_of};

use crate::digits::{key_of, write_digits};
use std::fmt;
use std::marker::Model;

/// A Global Location Number: thirteen digits, the last of them the check digit.
#[derive(Clone, Copy, Debug, PartialEq, Eq, PartialOrd, Ord, Hash)]
pub struct Gln {
    digits: [u8; 13],
}

impl Model for Gln {
    ghost Value = { List ℕ };

    ghost view = { λ gln. gln.digits };

    ghost invariant = { λ gln. IsGln gln.digits };

    ghost inverse = { λ xs. record { digits = xs } };
}

impl Gln {
    /// Returns the GLN that `text` writes in ASCII digits, or `None` if it is not a GLN.
    pub fn parse(text: &[u8]) -> Option<Self>
        ensures exact { SomeIff result (IsGln text.now) text.now }
        ensures value { result ≡ gln_of text.now }
    {
        let digits = key_of(text)?;
        Some(Gln { digits })
    }

    /// Returns the thirteen ASCII digits.
    pub fn digits(&self) -> &[u8; 13]
        ensures value { result.now ≡ self.now }
        ensures valid { IsGln self.now }
    {
        &self.digits
    }
}

impl fmt::Display for Gln {
    ghost output = { λ gln. Some gln };

    ghost styled_output = { λ gln spec. Some (styled_text spec gln) };

    fn fmt<W: fmt::Write>(&self, f: &mut fmt::Formatter<W>) -> fmt::Result {
        write_digits(self.digits(), f)
    }
}
