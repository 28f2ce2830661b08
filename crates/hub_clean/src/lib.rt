//! States the limits within which a message, a cancellation or a request gives clean rows, and that rows stay clean
//! after what the rules accept, and after each step.
#![tactic(auto)]

mod laws;

pub use hub_law::acts_stay_sound;
pub use laws::{
    accepted_changes_have_places, messages_opened_are_within_limits,
    messages_read_are_within_limits, rules_keep_rows_clean, steps_keep_rows_clean,
};
