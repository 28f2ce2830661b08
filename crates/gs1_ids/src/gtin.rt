//! Defines Global Trade Item Numbers (GTIN).
ghost use Rattle.std.specs.Prelude.{◌≡◌, ◌<◌, ◌≤◌, ℕ, List, Some, length};
ghost use Rattle.std.specs.Fmt.{styled_text};
ghost use Rattle.std.specs.Option.{SomeIff};
ghost use Rattle.gs1_ids.specs.Digits.{IsKey};
ghost use Rattle.gs1_ids.specs.Gtin.{IsGtin, in_fourteen, gtin_of};

use crate::digits::{key_of, write_digits};
use std::fmt;
use std::marker::Model;

/// A Global Trade Item Number, held as fourteen digits: a GTIN-8, GTIN-12 or GTIN-13 is filled with
/// zeros on the left, so that one item's number is one value however it is written.
#[derive(Clone, Copy, Debug, PartialEq, Eq, PartialOrd, Ord, Hash)]
pub struct Gtin {
    digits: [u8; 14],
}

impl Model for Gtin {
    ghost Value = { List ℕ };

    ghost view = { λ gtin. gtin.digits };

    ghost invariant = { λ gtin. IsKey 14 gtin.digits };

    ghost inverse = { λ xs. record { digits = xs } };
}

// Returns the digits in a field of fourteen, after zeros.
fn in_fourteen(text: &[u8]) -> [u8; 14]
    requires { length text.now ≤ 14 }
    ensures { result ≡ in_fourteen text.now }
{
    let mut digits = [b'0'; 14];
    digits[14 - text.len()..].copy_from_slice(text);
    digits
}

// Returns the digits of `text` in a field of fourteen, if it is a key of `N` digits.
fn filled_key<const N: usize>(text: &[u8]) -> Option<[u8; 14]>
    requires least { 1 < N }
    requires most { N ≤ 14 }
    ensures { SomeIff result (IsKey N text.now) (in_fourteen text.now) }
{
    let digits = key_of::<N>(text)?;
    Some(in_fourteen(&digits))
}

// Returns the digits of `text` in a field of fourteen, if it is a key of 8, 12, 13 or 14 digits. Each length is a call
// of its own, so that the compiler knows how many digits it sums.
fn filled_gtin(text: &[u8]) -> Option<[u8; 14]>
    ensures { SomeIff result (IsGtin text.now) (in_fourteen text.now) }
{
    match text.len() {
        8 => filled_key::<8>(text),
        12 => filled_key::<12>(text),
        13 => filled_key::<13>(text),
        14 => filled_key::<14>(text),
        _ => None,
    }
}

impl Gtin {
    /// Returns the GTIN that `text` writes in 8, 12, 13 or 14 ASCII digits, or `None` if it is not a GTIN.
    pub fn parse(text: &[u8]) -> Option<Self>
        ensures exact { SomeIff result (IsGtin text.now) (in_fourteen text.now) }
        ensures value { result ≡ gtin_of text.now }
    {
        let digits = filled_gtin(text)?;
        Some(Gtin { digits })
    }

    /// Returns the fourteen ASCII digits.
    pub fn digits(&self) -> &[u8; 14]
        ensures value { result.now ≡ self.now }
        ensures valid { IsKey 14 self.now }
    {
        &self.digits
    }
}

impl fmt::Display for Gtin {
    ghost output = { λ gtin. Some gtin };

    ghost styled_output = { λ gtin spec. Some (styled_text spec gtin) };

    fn fmt<W: fmt::Write>(&self, f: &mut fmt::Formatter<W>) -> fmt::Result {
        write_digits(self.digits(), f)
    }
}
