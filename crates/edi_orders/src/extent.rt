//! Reads the message function of a response.
ghost use Rattle.std.specs.Prelude.{◌≡◌};
ghost use Rattle.edi_orders.specs.Response as spec;

/// How far a response answers (BGM 1225).
#[derive(Clone, Copy, Debug, PartialEq, Eq)]
pub(crate) enum Extent {
    /// Its lines answer lines of the order: 4, change, and 9, original.
    Lines,
    /// 29: all lines are accepted without amendment.
    AllAccepted,
    /// 27: no line is accepted.
    AllRefused,
}

/// Returns how far a response with this message function answers.
pub(crate) fn extent_of(function: &[u8]) -> Option<Extent>
    ensures { result ≡ spec.extent_of function.now }
{
    if function == b"4".as_slice() || function == b"9".as_slice() {
        Some(Extent::Lines)
    } else if function == b"27".as_slice() {
        Some(Extent::AllRefused)
    } else if function == b"29".as_slice() {
        Some(Extent::AllAccepted)
    } else {
        None
    }
}
