//! Defines moments in whole seconds, and what a clock in UTC shows of them.
#![tactic(auto)]

mod moment;

pub use moment::{Moment, date_digits, time_digits};
