ghost use Rattle.std.specs.Prelude.{◌≡◌, ◌<◌, length, remove, IsTrue};
ghost use Rattle.edi_segments.specs.Segment.{component_at};
ghost use Rattle.edi_segments.specs.SegmentRef.{segment_in};
ghost use Rattle.edi_envelope.specs.Header as spec;
ghost use Rattle.edi_envelope.specs.Check.{marks_of};

use crate::interchange::Head;
use crate::limits::is_reference;
use crate::reference::filled_reference;
use edi_base::{are_digits, has_length};
use edi_tokens::{Items, Segment, SegmentRef};

// Whether UNB names a character set of seven bits, UNOA or UNOB.
fn is_seven_bit_set(unb: &SegmentRef<'_>) -> bool
    ensures { result ≡ spec.is_seven_bit_set (segment_in unb.now) }
{
    let identifier = unb.component(0, 0);
    identifier == b"UNOA".as_slice() || identifier == b"UNOB".as_slice()
}

// Whether the syntax is UNOA, UNOB or UNOC in version 3.
fn has_syntax(unb: &SegmentRef<'_>) -> bool
    ensures { result ≡ spec.has_syntax (segment_in unb.now) }
{
    (is_seven_bit_set(unb) || unb.component(0, 0) == b"UNOC".as_slice())
        && unb.component(0, 1) == b"3".as_slice()
}

// Whether an element names a partner by 1 to 35 bytes with the qualifier 14.
fn has_partner(unb: &SegmentRef<'_>, element: usize) -> bool
    ensures { result ≡ spec.has_partner (segment_in unb.now) element }
{
    has_length(1, 35, unb.component(element, 0)) && unb.component(element, 1) == b"14".as_slice()
}

// Whether date and time have six digits and four.
fn has_date_and_time(unb: &SegmentRef<'_>) -> bool
    ensures { result ≡ spec.has_date_and_time (segment_in unb.now) }
{
    are_digits(6, 6, unb.component(3, 0)) && are_digits(4, 4, unb.component(3, 1))
}

// Whether the test indicator is `1`.
fn is_test(unb: &SegmentRef<'_>) -> bool
    ensures { result ≡ spec.is_test (segment_in unb.now) }
{
    unb.component(10, 0) == b"1".as_slice()
}

fn is_valid_header(unb: &SegmentRef<'_>) -> bool
    ensures { result ≡ spec.is_valid_header (segment_in unb.now) }
{
    has_syntax(unb)
        && has_partner(unb, 1)
        && has_partner(unb, 2)
        && has_date_and_time(unb)
        && is_reference(unb.component(4, 0))
        && (unb.component(10, 0).is_empty() || is_test(unb))
}

/// What UNB says of the interchange's fault.
#[derive(Clone, Copy)]
pub(crate) struct HeaderMarks {
    /// The segment has the form of a UNB.
    pub taken: bool,
    /// The test indicator is `1`.
    pub test: bool,
    /// The character set has seven bits.
    pub seven_bit: bool,
    /// The control reference, as it is kept.
    pub reference: [u8; 14],
}

impl HeaderMarks {
    /// Before any UNB.
    pub(crate) fn none() -> Self {
        HeaderMarks {
            taken: false,
            test: false,
            seven_bit: false,
            reference: [0; 14],
        }
    }

    /// Of a UNB.
    pub(crate) fn of(unb: &SegmentRef<'_>) -> Self
        ensures { result ≡ marks_of (segment_in unb.now) }
    {
        HeaderMarks {
            taken: is_valid_header(unb),
            test: is_test(unb),
            seven_bit: is_seven_bit_set(unb),
            reference: filled_reference(unb.component(4, 0)),
        }
    }
}

fn array_of<const N: usize>(bytes: &[u8]) -> [u8; N]
    requires { length bytes.now ≡ N }
    ensures { result ≡ bytes.now }
{
    let mut array = [0; N];
    array.copy_from_slice(bytes);
    array
}

// Takes an element out, and gives its first component.
fn take_first(elements: &mut Vec<Items<Items<u8>>>, place: usize) -> Items<u8>
    requires { 0 < length (component_at elements.old.items place 0) }
    ensures value { result ≡ component_at elements.old.items place 0 }
    ensures rest { elements.new.items ≡ remove elements.old.items place }
{
    let mut components = elements.remove(place).into_vec();
    components.remove(0)
}

/// Returns what UNB says. Partners and control reference are moved out of it.
pub(crate) fn head_of(unb: Segment) -> Head
    requires { IsTrue (spec.is_valid_header unb) }
    ensures { result ≡ spec.head_of unb }
{
    let syntax = array_of(unb.component(0, 0));
    let date = array_of(unb.component(3, 0));
    let time = array_of(unb.component(3, 1));
    let Segment { tag: _, elements } = unb;
    let mut elements = elements.into_vec();
    let reference = take_first(&mut elements, 4);
    let recipient = take_first(&mut elements, 2);
    let sender = take_first(&mut elements, 1);
    Head {
        syntax,
        sender,
        recipient,
        date,
        time,
        reference,
    }
}
