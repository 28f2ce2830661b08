//! Writes changes of the hub's tables with SQL statements; all changes of a commit, or of a founding, in one
//! transaction.
#![tactic(auto)]

mod advice;
mod changes;
mod content;
mod faults;
mod founding;
mod line;
mod mail;
mod order;
mod pallet;
mod party;
mod receipt;
mod remembered;
mod transaction;
mod values;

pub use advice::add_advice;
pub use changes::{apply, apply_all};
pub use content::add_content;
pub use founding::{found, migrate, renumber};
pub use line::{add_line, set_line};
pub use mail::{add_mail, set_mail};
pub use order::add_order;
pub use pallet::{add_pallet, set_pallet};
pub use party::{add_hub, add_key, add_prefix};
pub use receipt::{add_receipt, clear_receipts};
pub use remembered::remember;
pub use transaction::commit;
