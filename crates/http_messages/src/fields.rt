//! Finds fields by their names.

ghost use Rattle.std.specs.Prelude.{◌≡◌, length, map, All};
ghost use Rattle.http_messages.specs.Fields.{AreValues, values_of, same_letters};
ghost use Rattle.httparse.specs.Spans.{header_bytes, IsHeaderWithin};

use httparse::spans::HeaderSpan;

/// The values of the fields of one name, without the blanks and tabs around them (RFC 9112, section 5.1).
#[derive(Clone, Copy, Debug)]
pub enum Values<'h> {
    /// The head has no such field.
    Absent,
    /// There is one, with this value, which may be empty.
    One(&'h [u8]),
    /// There is more than one.
    Several,
}

// Whether two names are the same but for the case of ASCII letters.
fn is_named(name: &[u8], other: &[u8]) -> bool
    ensures { result ≡ same_letters name.now other.now }
{
    name.eq_ignore_ascii_case(other)
}

// Returns the values of the fields of a name that spans of some bytes show.
pub(crate) fn values_in<'h>(bytes: &'h [u8], fields: &[HeaderSpan], name: &[u8]) -> Values<'h>
    requires { All (IsHeaderWithin (length bytes.now)) fields.now }
    ensures { AreValues result (values_of name.now (map (header_bytes bytes.now) fields.now)) }
{
    let [first, rest @ ..] = fields else {
        return Values::Absent;
    };
    let later = values_in(bytes, rest, name);
    if !is_named(first.name.of(bytes), name) {
        return later;
    }
    let value = first.value.of(bytes);
    match later {
        Values::Absent => Values::One(value),
        _ => Values::Several,
    }
}
