//! Reads the action of a line.
ghost use Rattle.std.specs.Prelude.{◌≡◌};
ghost use Rattle.edi_orders.specs.Response as spec;

/// What becomes of a line (LIN 1229).
#[derive(Clone, Copy, Debug, PartialEq, Eq)]
pub enum Action {
    /// 5: accepted without amendment.
    Accept,
    /// 7: not accepted.
    Refuse,
    /// 3, changed, and 6, accepted with amendment.
    Change,
}

/// Returns the action of a code.
pub(crate) fn action_of(code: &[u8]) -> Option<Action>
    ensures { result ≡ spec.action_of code.now }
{
    if code == b"5".as_slice() {
        Some(Action::Accept)
    } else if code == b"7".as_slice() {
        Some(Action::Refuse)
    } else if code == b"3".as_slice() || code == b"6".as_slice() {
        Some(Action::Change)
    } else {
        None
    }
}
