//! Decides, by the rules of the hub, on messages and cancellations from what is known of their supplier's rows, and on
//! joins from the register.
#![tactic(auto)]

mod answers;
mod cancel;
mod changes;
mod despatch;
mod earlier;
mod join;
mod known;
mod laws;
mod mail;
mod order;
mod party;
mod receipt;
mod remembering;
mod response;
mod totals;

pub use cancel::judge_cancel;
pub use despatch::judge_despatch;
pub use hub_order_lines::{KnownOrders, LineFacts};
pub use hub_rules::{Cancel, Code, IncomingMessage, Join, Verdict};
pub use hub_tables::{
    AdviceRow, Arrival, Case, Change, Column, ContentRow, LineRow, LineState, MailKind, MailRow,
    OrderRow, PalletRow, ReceiptRow, RememberedRow, Side,
};
pub use join::judge_join;
pub use known::Known;
pub use laws::judges_are_given_what_they_ask;
pub use order::judge_order;
pub use party::party_fault;
pub use receipt::judge_receipt;
pub use response::judge_response;
