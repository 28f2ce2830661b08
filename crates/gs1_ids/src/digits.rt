//! Checks digits, and computes the check digit.
ghost use Rattle.std.specs.Prelude.{◌≡◌, ◌<◌, ◌≤◌, ◌+◌, ◌*◌, ◌%◌, ◌↔◌, All, length, IsTrue, IfSome};
ghost use Rattle.std.specs.Char.{IsAsciiDigit};
ghost use Rattle.std.specs.Fmt.{WritesOnOk, WritesStyledOnOk, formatter_spec, styled_text};
ghost use Rattle.std.specs.Option.{SomeIff};
ghost use Rattle.gs1_ids.specs.Digits.{check, weighted_sum, IsKey};

use std::{fmt, str};

// As many digits as the longest key has. The number is even, so the weights start again in each part of that length.
const PART: usize = 18;

// Whether all bytes are ASCII digits. It does not stop at a byte that is not one, so that many bytes are compared at
// once.
fn are_digits(text: &[u8]) -> bool
    ensures { IsTrue result ↔ All IsAsciiDigit text.now }
{
    let mut all = true;
    for byte in text {
        all &= byte.is_ascii_digit();
    }
    all
}

// Returns the weighted sum of a part's digits, of which the last weighs three.
fn weighted_sum(digits: &[u8]) -> u32
    requires digits { All IsAsciiDigit digits.now }
    requires most { length digits.now ≤ PART }
    ensures value { result ≡ weighted_sum digits.now }
    ensures small { result ≤ 27 * length digits.now }
{
    // The sums of what weighs three and of what weighs one. Each further digit exchanges them.
    let mut threes = 0u8;
    let mut ones = 0u8;
    for digit in digits {
        (threes, ones) = (ones + (digit - b'0'), threes);
    }
    3 * u32::from(threes) + u32::from(ones)
}

/// Returns the check digit, a number from 0 to 9, of the digits that come before it: what brings their weighted sum to
/// a multiple of ten (GS1 General Specifications, section 7.9.1). `None` for no digits, or if a byte is not an ASCII
/// digit.
pub fn check_digit(digits: &[u8]) -> Option<u8>
    ensures value { SomeIff result ((0 < length digits.now) × All IsAsciiDigit digits.now) (check digits.now) }
    ensures tens { IfSome result (λ d. (d < 10) × ((weighted_sum digits.now + d) % 10 ≡ 0)) }
{
    if digits.is_empty() || !are_digits(digits) {
        return None;
    }
    let mut sum = 0;
    for part in digits.rchunks(PART) {
        sum = (sum + weighted_sum(part)) % 10;
    }
    Some(((10 - sum) % 10) as u8)
}

// Whether `key` is digits that end in the check digit of the others.
fn ends_in_check_digit(key: &[u8]) -> bool
    requires least { 1 < length key.now }
    requires most { length key.now ≤ PART }
    ensures { IsTrue result ↔ IsKey (length key.now) key.now }
{
    let Some((last, rest)) = key.split_last() else {
        return false;
    };
    are_digits(key) && (weighted_sum(rest) + u32::from(last - b'0')) % 10 == 0
}

// Returns the digits of `text`, if it is a key of `N` digits.
pub(crate) fn key_of<const N: usize>(text: &[u8]) -> Option<[u8; N]>
    requires least { 1 < N }
    requires most { N ≤ PART }
    ensures { SomeIff result (IsKey N text.now) text.now }
{
    let digits = <[u8; N]>::try_from(text).ok()?;
    if ends_in_check_digit(text) {
        Some(digits)
    } else {
        None
    }
}

// Writes the digits as text, with the formatter's width and fill.
pub(crate) fn write_digits<W: fmt::Write>(digits: &[u8], f: &mut fmt::Formatter<W>) -> fmt::Result
    requires { All IsAsciiDigit digits.now }
    ensures plain { WritesOnOk W.write_str_gives f.old result digits.now f.new }
    ensures styled { WritesStyledOnOk W.write_str_gives f.old result (styled_text (formatter_spec f.old) digits.now) f.new }
{
    let text = str::from_utf8(digits).unwrap();
    f.pad(text)
}
