//! Checks the limits of data elements.
ghost use Rattle.std.specs.Prelude.{◌≡◌};
ghost use Rattle.std.specs.List.{list_all};
ghost use Rattle.edi_base.specs.Limits as spec;

/// Whether there are `low` to `high` bytes.
pub fn has_length(low: usize, high: usize, bytes: &[u8]) -> bool
    ensures { result ≡ spec.has_length low high bytes.now }
{
    low <= bytes.len() && bytes.len() <= high
}

/// Whether each byte is one of 0x20 to 0x7E.
pub fn all_printable(bytes: &[u8]) -> bool
    ensures { result ≡ list_all spec.is_printable bytes.now }
{
    bytes.iter().all(|b| 0x20 <= *b && *b <= 0x7e)
}

// Whether each byte is a digit.
fn all_digits(bytes: &[u8]) -> bool
    ensures { result ≡ list_all spec.is_digit bytes.now }
{
    bytes.iter().all(|b| b'0' <= *b && *b <= b'9')
}

/// Whether these are `low` to `high` digits.
pub fn are_digits(low: usize, high: usize, bytes: &[u8]) -> bool
    ensures { result ≡ spec.are_digits low high bytes.now }
{
    has_length(low, high, bytes) && all_digits(bytes)
}

/// The greatest number that is accepted in any data element, and in sums of them.
pub const GREATEST: u64 = 999_999_999;

/// Returns the number that the digits write, with or without leading zeros; `None` if it is above 999,999,999.
pub fn value_of(digits: &[u8]) -> Option<u32>
    ensures { result ≡ spec.value_of digits.now }
{
    let mut number = 0;
    for digit in digits {
        number = 10 * number + digit.saturating_sub(b'0') as u64;
        if number > GREATEST {
            return None;
        }
    }
    Some(number as u32)
}

/// Returns the number that 1 to 6 digits write; `None` if the bytes are anything else.
pub fn count_of(bytes: &[u8]) -> Option<u32>
    ensures { result ≡ spec.count_of bytes.now }
{
    if !are_digits(1, 6, bytes) {
        return None;
    }
    value_of(bytes)
}

/// Whether 1 to 6 digits write this count.
pub fn is_count_of(bytes: &[u8], n: usize) -> bool
    ensures { result ≡ spec.is_count_of bytes.now n }
{
    match count_of(bytes) {
        Some(count) => count as usize == n,
        None => false,
    }
}
