//! Looks up the rows of a hub with SQL, by statements of fixed text: most look-ups take one, which reads one table by a
//! key or as a whole.
#![tactic(auto)]

mod advice;
mod content;
mod fitting;
mod line;
mod mail;
mod number;
mod order;
mod pallet;
mod party;
mod receipt;
mod remembered;

pub use advice::advice_known;
pub use content::{contents_of, contents_on};
pub use fitting::fits;
pub use line::{all_lines, lines_at, lines_of};
pub use mail::{last_mail, mail_after, mail_item};
pub use number::is_numbered;
pub use order::order_known;
pub use pallet::{all_pallets, pallet_of, used};
pub use party::{all_hubs, all_keys, all_prefixes, register};
pub use receipt::{receipts_of, receipts_on};
pub use remembered::{matches_remembered, remembered_content};
