ghost use Rattle.std.specs.Prelude.{◌≡◌};
ghost use Rattle.std.specs.List.{list_all};
ghost use Rattle.edi_envelope.specs.Limits as spec;

use edi_base::{all_printable, has_length};

// Whether no byte is past 0x7E.
fn all_seven_bit(bytes: &[u8]) -> bool
    ensures { result ≡ list_all spec.is_seven_bit bytes.now }
{
    bytes.iter().all(|b| *b <= 0x7e)
}

/// Whether these are 1 to 14 bytes of 0x20 to 0x7E.
pub(crate) fn is_reference(bytes: &[u8]) -> bool
    ensures { result ≡ spec.is_reference bytes.now }
{
    has_length(1, 14, bytes) && all_printable(bytes)
}

/// Whether the number of bytes is within these limits, and none is past 0x7E.
pub(crate) fn is_identifier(low: usize, high: usize, bytes: &[u8]) -> bool
    ensures { result ≡ spec.is_identifier low high bytes.now }
{
    has_length(low, high, bytes) && all_seven_bit(bytes)
}
