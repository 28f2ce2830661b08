//! Handles one message or cancellation over a store: looks up what the rules need, decides, and commits the changes as
//! one act. Also writes the status of a supplier.
#![tactic(auto)]

mod cancel;
mod carrying;
mod despatches;
mod incoming;
mod judged;
mod keeping;
mod knowing;
mod laws;
mod messages;
mod status;

pub use cancel::take_cancel;
pub use hub_acts::texts::{
    Decision, STOPPED, interchange_line, number_of, read_cancel, refused_line,
};
pub use hub_acts::{
    accepted_changes_have_places, mailbox_entry, mailbox_list, messages_opened_are_within_limits,
    messages_read_are_within_limits, rules_keep_rows_clean, steps_keep_rows_clean, take_entry,
    take_join, unknown_reply,
};
pub use hub_order_lines::KnownOrders;
pub use laws::{cancellations_read_are_within_limits, lines_of_sound_tables_are_known};
pub use messages::{take_retailers_message, take_suppliers_message};
pub use status::status_report;
