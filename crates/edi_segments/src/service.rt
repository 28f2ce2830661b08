//! Reads the service characters of a text (ISO 9735, service string advice).

ghost use Rattle.std.specs.Prelude.{◌≡◌};
ghost use Rattle.edi_segments.specs.Service as spec;
ghost use Rattle.edi_segments.specs.Characters as set;
ghost use Rattle.edi_segments.specs.Text.{is_usual};
ghost use Rattle.edi_segments.specs.ServiceTable.{stands_for_itself};

use crate::characters::{is_capital, is_data, is_digit, is_small};
use crate::segment::Service;

/// The usual component separator.
pub const COMPONENT: u8 = b':';

/// The usual element separator.
pub const ELEMENT: u8 = b'+';

/// The usual release character.
pub const RELEASE: u8 = b'?';

/// The usual terminator.
pub const TERMINATOR: u8 = b'\'';

fn is_mark(byte: u8) -> bool
    ensures { result ≡ spec.is_mark byte }
{
    33 <= byte && byte <= 126 && !(is_capital(byte) || is_small(byte) || is_digit(byte))
}

fn is_decimal(byte: u8) -> bool
    ensures { result ≡ spec.is_decimal byte }
{
    byte == b'.' || byte == b','
}

fn differs(byte: u8, others: &[u8]) -> bool
    ensures { result ≡ spec.differs byte others.now }
{
    !others.contains(&byte)
}

fn are_right(
    component: u8,
    element: u8,
    decimal: u8,
    release: u8,
    reserved: u8,
    terminator: u8,
) -> bool
    ensures { result ≡ spec.are_right component element decimal release reserved terminator }
{
    let are_marks = is_mark(component)
        && is_mark(element)
        && is_mark(terminator)
        && (release == b' ' || is_mark(release));
    let are_apart = differs(component, &[element, terminator, release, decimal])
        && differs(element, &[terminator, release, decimal])
        && differs(terminator, &[release, decimal])
        && differs(release, &[decimal]);
    are_marks && is_decimal(decimal) && 32 <= reserved && reserved <= 126 && are_apart
}

/// Whether a byte is one of the usual service characters, which need a release character in data.
pub fn is_usual(byte: u8) -> bool
    ensures { result ≡ is_usual byte }
{
    byte == COMPONENT || byte == ELEMENT || byte == TERMINATOR || byte == RELEASE
}

impl Service {
    /// Returns the service characters of a text without a service string: `:` `+` `.` `?` `'`.
    pub fn usual() -> Self
        ensures { result ≡ spec.usual }
    {
        Service {
            component: COMPONENT,
            element: ELEMENT,
            decimal: b'.',
            release: Some(RELEASE),
            terminator: TERMINATOR,
        }
    }

    /// Returns what six characters say: component separator, element separator, decimal mark, release character or a
    /// blank for none, reserved position, terminator. `None` if they break the rules.
    pub(crate) fn of(six: &[u8; 6]) -> Option<Self>
        ensures { result ≡ spec.service_of six.now }
    {
        let [component, element, decimal, release, reserved, terminator] = *six;
        if !are_right(component, element, decimal, release, reserved, terminator) {
            return None;
        }
        Some(Service {
            component,
            element,
            decimal,
            release: if release == b' ' { None } else { Some(release) },
            terminator,
        })
    }

    /// Whether a byte is the release character.
    pub(crate) fn is_release(&self, byte: u8) -> bool
        ensures { result ≡ set.is_release self.now.release byte }
    {
        match self.release {
            Some(release) => byte == release,
            None => false,
        }
    }

    /// Whether a byte has a meaning of its own: a separator, the release character, the terminator.
    pub(crate) fn is_special(&self, byte: u8) -> bool
        ensures { result ≡ set.is_special self.now byte }
    {
        byte == self.component
            || byte == self.element
            || byte == self.terminator
            || self.is_release(byte)
    }

    /// Whether a byte stands for itself, in the text and in its canonical one.
    pub(crate) fn stands_for_itself(&self, byte: u8) -> bool
        ensures { result ≡ stands_for_itself self.now byte }
    {
        is_data(byte) && !self.is_special(byte) && !is_usual(byte)
    }
}
