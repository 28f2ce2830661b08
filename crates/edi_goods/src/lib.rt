//! Reads the messages about goods on their way: the records of DESADV and RECADV messages (EANCOM 2002 over UN/EDIFACT
//! D.01B).
#![tactic(auto)]

pub mod announced;
mod despatch;
mod kind;
mod parties;
mod receipt;
pub mod received;
mod sums;
pub mod units;

pub use despatch::{Despatch, DespatchLine, Unit};
pub use edi_messages::MessageFault;
pub use receipt::{Receipt, ReceiptLine, ReceiptUnit};
