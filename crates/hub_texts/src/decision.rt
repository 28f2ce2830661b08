//! Defines the decision on a message or a cancellation.
ghost use Rattle.std.specs.Prelude.{◌≡◌};
ghost use Rattle.hub_law.specs.Told as law;
ghost use Rattle.hub_texts.specs.Decision.{told_of};

use edi_messages::MessageFault;
use hub_law::Code;

/// The decision on a message or a cancellation.
#[derive(Clone, Copy, Debug, PartialEq, Eq)]
pub enum Decision {
    /// Accepted.
    Accepted,
    /// A repetition of one that was accepted.
    Repeated,
    /// Refused, because it breaks a rule.
    Refused(Code),
    /// Refused, because the message has a fault.
    Unread(MessageFault),
}

impl Decision {
    /// Whether it is refused.
    pub fn is_refused(self) -> bool
        ensures { result ≡ law.is_refused (told_of self) }
    {
        matches!(self, Decision::Refused(_) | Decision::Unread(_))
    }
}
