//! Defines what a hub does, as the machine that all suppliers share and as that of one supplier alone, with the laws
//! that keep suppliers apart.
#![tactic(auto)]

mod laws;
mod mail;
mod repeats;
mod sets;
mod sound_acts;
mod stops;

pub use hub_requests::{Outcome, Reply};
pub use hub_rules::{Cancel, Code, Join};
pub use laws::{
    each_line_balances, hub_stays_sound, joins_are_apart, prefixes_matter, run_is_own, runs_alike,
    step_is_own,
};
pub use mail::entry_is_its_messages_mail;
pub use repeats::{
    accepted_is_repeated, accepted_stays_remembered, remembered_stays, repeated_in_runs,
};
pub use sets::views_are_sets;
pub use sound_acts::{acts_keep_the_register, acts_stay_sound};
pub use stops::{stops_are_told, stops_cut_uploads};
