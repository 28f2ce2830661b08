/// What became of pieces that were received (QTY 6063).
#[derive(Clone, Copy, Debug, PartialEq, Eq)]
pub(crate) enum ReceivedKind {
    /// 194: accepted.
    Accepted,
    /// 195: not accepted, to be returned.
    Returned,
    /// 196: not accepted, to be destroyed.
    Destroyed,
}
