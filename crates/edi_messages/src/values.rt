//! Reads the values of data elements in messages.
ghost use Rattle.std.specs.Prelude.{◌≡◌, ◌==◌, ◌≤◌, ◌+◌, length};
ghost use Rattle.std.specs.List.{list_all, prefix_len};
ghost use Rattle.edi_base.specs.Limits.{is_digit};
ghost use Rattle.edi_messages.specs.Values as spec;

use edi_base::{all_printable, count_of, has_length, value_of};
use jiff::civil::Date;

/// Whether these are a document number, or the number of an order: 1 to 35 bytes of 0x20 to 0x7E.
pub(crate) fn is_document_number(bytes: &[u8]) -> bool
    ensures { result ≡ spec.is_document_number bytes.now }
{
    has_length(1, 35, bytes) && all_printable(bytes)
}

/// Returns the line number that 1 to 6 digits write, if it is not zero.
pub(crate) fn line_number(bytes: &[u8]) -> Option<u32>
    ensures { result ≡ spec.line_number bytes.now }
{
    let number = count_of(bytes)?;
    if number == 0 { None } else { Some(number) }
}

// Counts the digits at the beginning.
fn digits_len(bytes: &[u8]) -> usize
    ensures within { result ≤ length bytes.now }
    ensures value { result ≡ prefix_len is_digit bytes.now }
{
    for (index, byte) in bytes.iter().enumerate() {
        if !(b'0' <= *byte && *byte <= b'9') {
            return index;
        }
    }
    bytes.len()
}

fn all_zeros(bytes: &[u8]) -> bool
    ensures { result ≡ list_all (λ digit. digit == 48) bytes.now }
{
    bytes.iter().all(|byte| *byte == b'0')
}

// Whether there is nothing, or a decimal mark and one or more zeros.
fn is_no_fraction(bytes: &[u8]) -> bool
    ensures { result ≡ spec.is_no_fraction bytes.now }
{
    match bytes.split_first() {
        Some((mark, zeros)) => {
            (*mark == b'.' || *mark == b',') && !zeros.is_empty() && all_zeros(zeros)
        }
        None => true,
    }
}

/// Returns the quantity that these write: digits, perhaps with a decimal mark and one or more zeros after them; 35
/// bytes and 999,999,999 at most.
pub(crate) fn quantity(bytes: &[u8]) -> Option<u32>
    ensures { result ≡ spec.quantity bytes.now }
{
    let (digits, fraction) = bytes.split_at(digits_len(bytes));
    if bytes.len() <= 35 && !digits.is_empty() && is_no_fraction(fraction) {
        value_of(digits)
    } else {
        None
    }
}

// Returns the number of this many digits at a place.
fn number_at(place: usize, count: usize, bytes: &[u8]) -> Option<u32>
    requires { place + count ≤ length bytes.now }
    ensures { result ≡ spec.number_at place count bytes.now }
{
    count_of(&bytes[place..place + count])
}

// Whether the Gregorian calendar has this day in the years 0000 to 9999.
fn is_in_calendar(year: u32, month: u32, day: u32) -> bool
    ensures { result ≡ spec.is_in_calendar year month day }
{
    year <= 9999
        && month <= 12
        && day <= 31
        && Date::new(year as i16, month as i8, day as i8).is_ok()
}

// Whether the first eight bytes are a day, CCYYMMDD.
fn is_day(bytes: &[u8]) -> bool
    requires { 8 ≤ length bytes.now }
    ensures { result ≡ spec.is_day bytes.now }
{
    match (
        number_at(0, 4, bytes),
        number_at(4, 2, bytes),
        number_at(6, 2, bytes),
    ) {
        (Some(year), Some(month), Some(day)) => is_in_calendar(year, month, day),
        _ => false,
    }
}

// Whether the four bytes after the day are a minute of a day, HHMM.
fn is_minute(bytes: &[u8]) -> bool
    requires { 12 ≤ length bytes.now }
    ensures { result ≡ spec.is_minute bytes.now }
{
    match (number_at(8, 2, bytes), number_at(10, 2, bytes)) {
        (Some(hour), Some(minute)) => hour < 24 && minute < 60,
        _ => false,
    }
}

/// Whether these are a date that exists, in format 102, CCYYMMDD, or 203, CCYYMMDDHHMM.
pub(crate) fn is_date(format: &[u8], bytes: &[u8]) -> bool
    ensures { result ≡ spec.is_date format.now bytes.now }
{
    if format == b"102".as_slice() {
        bytes.len() == 8 && is_day(bytes)
    } else {
        format == b"203".as_slice() && bytes.len() == 12 && is_day(bytes) && is_minute(bytes)
    }
}
