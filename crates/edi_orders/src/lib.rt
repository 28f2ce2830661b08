//! Reads orders and their answers: the records of ORDERS and ORDRSP messages (EANCOM 2002 over UN/EDIFACT D.01B).
#![tactic(auto)]

mod action;
pub mod answers;
mod extent;
mod order;
mod response;

pub use action::Action;
pub use edi_messages::{MessageFault, RawMessage, supplier_of};
pub use order::{Order, OrderLine};
pub use response::{Answer, AnswerLine, LineAnswer, Response};
