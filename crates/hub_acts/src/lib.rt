//! Carries out one act over a store: a verdict, a join, and the list, an entry or a taken mark of a mailbox.
#![tactic(auto)]

mod carrying;
mod join;
mod mailbox;

pub use carrying::{carry_out, reply_to_act, told_of_verdict};
pub use hub_clean::{
    accepted_changes_have_places, messages_opened_are_within_limits,
    messages_read_are_within_limits, rules_keep_rows_clean, steps_keep_rows_clean,
};
pub use hub_texts as texts;
pub use hub_texts::{Join, Reply};
pub use join::take_join;
pub use mailbox::{done_reply, mailbox_entry, mailbox_list, take_entry, unknown_reply};
