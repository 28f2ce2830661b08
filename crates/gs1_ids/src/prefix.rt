//! Defines company prefixes.
ghost use Rattle.std.specs.Prelude.{◌≡◌, ◌↔◌, ◌-◌, ◌++◌, ◌≤◌, ℕ, List, Some, IsTrue, length, replicate, refl};
ghost use Rattle.std.specs.Cmp.{partial_equiv_from_equiv};
ghost use Rattle.std.specs.Cmp.Lexicographic.{slice_cmp, nat_list_eq_equiv, nat_list_cmp_total, texts_po, texts_ties, bytes_decides};
ghost use Rattle.std.specs.Fmt.{styled_text};
ghost use Rattle.std.specs.Hash as fed;
ghost use Rattle.std.specs.Hash.{same_Alike};
ghost use Rattle.std.specs.Option.{SomeIff};
ghost use Rattle.std.specs.Ordering.{nat_cmp, as_partial_cmp};
ghost use Rattle.std.specs.Str.{bytes_eq};
ghost use Rattle.gs1_ids.specs.StoredPrefix.{AgreeBelow};
ghost use Rattle.gs1_ids.specs.Prefix.{IsPrefix, prefix_of, Begins, begins, overlap};

use crate::digits::write_digits;
use std::cmp::Ordering;
use std::fmt;
use std::hash::{Hash, Hasher};
use std::marker::Model;

/// A company prefix: four to twelve digits, with no check digit.
#[derive(Clone, Copy, Debug)]
pub struct Prefix {
    // Zero bytes fill what `len` leaves. Sixteen bytes are one vector register, which makes `agree` cheap.
    digits: [u8; 16],
    len: usize,
}

impl Model for Prefix {
    ghost use Rattle.std.specs.Prelude.{◌-◌, ◌++◌, ℕ, List, length, take, replicate};
    ghost use Rattle.gs1_ids.specs.StoredPrefix.{HoldsPrefix, stored_digits, stored_len};

    ghost Value = { List ℕ };

    ghost view = { λ prefix. take prefix.len prefix.digits };

    ghost invariant = { λ prefix. HoldsPrefix prefix.digits prefix.len };

    ghost inverse = { λ xs. record { digits = xs ++ replicate (16 - length xs) 0; len = length xs } };

    ghost inverse_ok = { λ a h i. record {
      digits = stored_digits a.digits a.len h i;
      len = stored_len a.digits a.len h i;
    } };
}

// Whether `text` is four to twelve digits.
fn is_prefix(text: &[u8]) -> bool
    ensures { IsTrue result ↔ IsPrefix text.now }
{
    (4..=12).contains(&text.len()) && text.iter().all(|byte| byte.is_ascii_digit())
}

// Returns the digits in a field, before zero bytes.
fn in_field(text: &[u8]) -> [u8; 16]
    requires { length text.now ≤ 16 }
    ensures { result ≡ text.now ++ replicate (16 - length text.now) 0 }
{
    let mut digits = [0; 16];
    digits[..text.len()].copy_from_slice(text);
    digits
}

impl Prefix {
    /// Returns the prefix that `text` writes in 4 to 12 ASCII digits, or `None` if it is not a prefix.
    pub fn parse(text: &[u8]) -> Option<Self>
        ensures exact { SomeIff result (IsPrefix text.now) text.now }
        ensures value { result ≡ prefix_of text.now }
    {
        if !is_prefix(text) {
            return None;
        }
        Some(Prefix {
            digits: in_field(text),
            len: text.len(),
        })
    }

    /// Returns the ASCII digits, four to twelve of them.
    pub fn digits(&self) -> &[u8]
        ensures value { result.now ≡ self.now }
        ensures valid { IsPrefix self.now }
    {
        &self.digits[..self.len]
    }

    /// Whether `other` begins with this prefix; equal prefixes begin each other.
    pub fn begins(&self, other: &Prefix) -> bool
        ensures value { result ≡ begins self.now other.now }
        ensures exact { IsTrue result ↔ Begins self.now other.now }
    {
        other.digits().starts_with(self.digits())
    }

    // Whether one of the two begins the other.
    pub(crate) fn overlaps(&self, other: &Prefix) -> bool
        ensures { result ≡ overlap self.now other.now }
    {
        agree(&self.digits, &other.digits)
    }
}

// Whether two fields agree wherever both have a digit. It does not stop at a difference, so that the
// whole fields are compared at once.
fn agree(ours: &[u8; 16], theirs: &[u8; 16]) -> bool
    ensures { IsTrue result ↔ AgreeBelow ours.now theirs.now 16 }
{
    let mut agree = true;
    for (our, their) in ours.iter().zip(theirs) {
        if our != their && *our != 0 && *their != 0 {
            agree = false;
        }
    }
    agree
}

impl PartialEq for Prefix {
    ghost eq = { bytes_eq };

    ghost laws = { partial_equiv_from_equiv nat_list_eq_equiv };

    fn eq(&self, other: &Prefix) -> bool {
        self.digits() == other.digits()
    }
}

impl Eq for Prefix {
    ghost laws = { nat_list_eq_equiv };
}

impl PartialOrd for Prefix {
    ghost partial_cmp = { as_partial_cmp (slice_cmp nat_cmp) };

    ghost laws = { texts_po };

    fn partial_cmp(&self, other: &Prefix) -> Option<Ordering> {
        Some(self.cmp(other))
    }
}

impl Ord for Prefix {
    ghost cmp = { slice_cmp nat_cmp };

    ghost total = { nat_list_cmp_total };

    ghost matches_partial_cmp = { λ p q. refl };

    ghost matches_eq = { texts_ties };

    fn cmp(&self, other: &Prefix) -> Ordering {
        self.digits().cmp(&other.digits())
    }
}

impl Hash for Prefix {
    ghost hash_input = { fed.slice fed.u8 };

    ghost respects_eq = { (same_Alike (fed.slice fed.u8) bytes_decides).fed };

    fn hash<H: Hasher>(&self, state: &mut H) {
        self.digits().hash(state);
    }
}

impl fmt::Display for Prefix {
    ghost output = { λ prefix. Some prefix };

    ghost styled_output = { λ prefix spec. Some (styled_text spec prefix) };

    fn fmt<W: fmt::Write>(&self, f: &mut fmt::Formatter<W>) -> fmt::Result {
        write_digits(self.digits(), f)
    }
}
