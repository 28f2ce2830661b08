//! Defines the tables of a hub (rows of eleven kinds, each sorted by key), their changes, and what each supplier sees
//! of them.
#![tactic(auto)]

mod cases;
mod change;
mod column;
mod laws;
mod register;
mod rows;

pub use cases::{Arrival, LineState, MailKind, Side};
pub use change::Change;
pub use column::{Case, Column};
pub use laws::{founded_tables_hold_their_register, rows_are_a_set};
pub use register::{put_row_changes, row_changes};
pub use rows::{
    AdviceRow, ContentRow, HubRow, KeyRow, LineRow, MailRow, OrderRow, PalletRow, PrefixRow,
    ReceiptRow, RememberedRow,
};
