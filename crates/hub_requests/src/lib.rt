//! Defines the requests to a hub and its replies.
#![tactic(auto)]

mod reply;
mod request;

pub use reply::{Outcome, Reply};
pub use request::{Input, Request};
