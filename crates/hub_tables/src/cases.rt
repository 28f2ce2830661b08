//! Defines the enums whose cases are stored in rows.
use crate::column::Case;

/// The answer to an order line.
#[derive(Clone, Copy, Debug, PartialEq, Eq)]
pub enum LineState {
    /// W: not answered yet.
    Waiting,
    /// A: accepted without amendment (LIN 1229 5, BGM 1225 29).
    Accepted,
    /// N: not accepted (LIN 1229 7, BGM 1225 27).
    NotAccepted,
    /// C: changed (LIN 1229 3 or 6).
    Changed,
}

impl Case for LineState {
    ghost use Rattle.hub_tables.specs.Cases.{answer_letter, every_answer, answers_small};

    ghost number = { answer_letter };

    ghost every = { every_answer };

    ghost small = { answers_small };

    fn code(self) -> u8 {
        match self {
            LineState::Waiting => b'W',
            LineState::Accepted => b'A',
            LineState::NotAccepted => b'N',
            LineState::Changed => b'C',
        }
    }

    fn all() -> &'static [Self] {
        &[
            LineState::Waiting,
            LineState::Accepted,
            LineState::NotAccepted,
            LineState::Changed,
        ]
    }
}

/// The kind of message or request that is remembered.
#[derive(Clone, Copy, Debug, PartialEq, Eq)]
pub enum Side {
    /// R: a message of the retailer.
    Retailer,
    /// S: a message of the supplier.
    Supplier,
    /// C: a cancellation.
    Cancellation,
}

impl Case for Side {
    ghost use Rattle.hub_tables.specs.Cases.{side_letter, every_side, sides_small};

    ghost number = { side_letter };

    ghost every = { every_side };

    ghost small = { sides_small };

    fn code(self) -> u8 {
        match self {
            Side::Retailer => b'R',
            Side::Supplier => b'S',
            Side::Cancellation => b'C',
        }
    }

    fn all() -> &'static [Self] {
        &[Side::Retailer, Side::Supplier, Side::Cancellation]
    }
}

/// The type of a message in a mailbox.
#[derive(Clone, Copy, Debug, PartialEq, Eq)]
pub enum MailKind {
    /// O: ORDERS.
    Orders,
    /// R: RECADV.
    Receipt,
}

impl Case for MailKind {
    ghost use Rattle.hub_tables.specs.Cases.{kind_letter, every_kind, kinds_small};

    ghost number = { kind_letter };

    ghost every = { every_kind };

    ghost small = { kinds_small };

    fn code(self) -> u8 {
        match self {
            MailKind::Orders => b'O',
            MailKind::Receipt => b'R',
        }
    }

    fn all() -> &'static [Self] {
        &[MailKind::Orders, MailKind::Receipt]
    }
}

/// The state of a pallet.
#[derive(Clone, Copy, Debug, PartialEq, Eq)]
pub enum Arrival {
    /// 0: announced by a despatch advice.
    Announced,
    /// 1: received.
    Received,
    /// 2: received by an advice that replaces earlier ones, if there were any.
    Replaced,
}

impl Case for Arrival {
    ghost use Rattle.hub_tables.specs.Cases.{arrival_number, every_arrival, arrivals_small};

    ghost number = { arrival_number };

    ghost every = { every_arrival };

    ghost small = { arrivals_small };

    fn code(self) -> u8 {
        match self {
            Arrival::Announced => 0,
            Arrival::Received => 1,
            Arrival::Replaced => 2,
        }
    }

    fn all() -> &'static [Self] {
        &[Arrival::Announced, Arrival::Received, Arrival::Replaced]
    }
}

impl Case for bool {
    ghost use Rattle.hub_tables.specs.Cases.{truth_number, every_truth, truths_small};

    ghost number = { truth_number };

    ghost every = { every_truth };

    ghost small = { truths_small };

    fn code(self) -> u8 {
        if self { 1 } else { 0 }
    }

    fn all() -> &'static [Self] {
        &[true, false]
    }
}
