//! Says which characters a text may have (ISO 9735, character sets UNOA to UNOC).

ghost use Rattle.std.specs.Prelude.{◌≡◌};
ghost use Rattle.edi_segments.specs.Characters as set;

/// Whether a byte is allowed in data: 0x20 to 0x7E, and 0xA0 to 0xFF.
pub(crate) fn is_data(byte: u8) -> bool
    ensures { result ≡ set.is_data byte }
{
    (32 <= byte && byte <= 126) || 160 <= byte
}

/// Whether a byte is a capital letter.
pub(crate) fn is_capital(byte: u8) -> bool
    ensures { result ≡ set.is_capital byte }
{
    byte.is_ascii_uppercase()
}

/// Whether a byte is a small letter.
pub(crate) fn is_small(byte: u8) -> bool
    ensures { result ≡ set.is_small byte }
{
    byte.is_ascii_lowercase()
}

/// Whether a byte is a digit.
pub(crate) fn is_digit(byte: u8) -> bool
    ensures { result ≡ set.is_digit byte }
{
    byte.is_ascii_digit()
}

/// Whether a byte is allowed in a tag after its first: a capital letter or a digit.
pub(crate) fn is_in_tag(byte: u8) -> bool
    ensures { result ≡ set.is_in_tag byte }
{
    is_capital(byte) || is_digit(byte)
}

/// Whether a byte is CR or LF.
pub(crate) fn is_line_end(byte: u8) -> bool
    ensures { result ≡ set.is_line_end byte }
{
    byte == b'\r' || byte == b'\n'
}
