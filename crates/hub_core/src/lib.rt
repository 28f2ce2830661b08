//! Answers requests to a hub over a store: identifies the caller, and handles uploads and their messages, other
//! requests, and runs of them.
#![tactic(auto)]

mod address;
mod hub;
mod laws;
mod opening;
mod replies;
mod requests;
mod step;
mod upload;

pub use hub::Hub;
pub use hub_parties::Role;
pub use hub_requests::{Input, Outcome, Reply, Request};
pub use hub_rules::{Cancel, Join};
pub use hub_transactions::{STOPPED, number_of, read_cancel};
pub use laws::{
    hubs_isolate_suppliers, hubs_report_repeated_messages, steps_remember_accepted_messages,
    steps_report_repeated_messages,
};
