//! Reads the numbers in requests.
ghost use Rattle.std.specs.Prelude.{◌≡◌};
ghost use Rattle.hub_texts.specs.Number as spec;

use edi_base::are_digits;

/// Returns the number that 1 to 14 digits write, with or without leading zeros; `None` if the text is anything else.
/// Requests write the numbers of mailbox entries, and seconds, in this way.
pub fn number_of(digits: &[u8]) -> Option<u64>
    ensures { result ≡ spec.number_in digits.now }
{
    if !are_digits(1, 14, digits) {
        return None;
    }
    let text = str::from_utf8(digits).unwrap();
    text.parse().ok()
}
