//! Defines the replies of a hub.
use edi_base::Items;

/// The outcome of a request.
#[derive(Clone, Copy, Debug, PartialEq, Eq)]
pub enum Outcome {
    /// It was done.
    Done,
    /// The interchange was refused.
    Bad,
    /// The caller's key does not identify it, or it may not make this request.
    Denied,
    /// There is no such mailbox entry or supplier.
    Unknown,
    /// It was stopped by lack of memory or a fault of the store.
    Stopped,
}

/// The reply to a request.
#[derive(Debug, Drop)]
pub struct Reply {
    /// The outcome of the request.
    pub outcome: Outcome,
    /// Whether the interchange, one of its messages, the cancellation or the join was refused with a code.
    pub refused: bool,
    /// The text of the reply.
    pub body: Items<u8>,
}
