//! Defines the interface of a hub's store: the trait, what a list shows of a mailbox, and why a call can fail.
#![tactic(auto)]

mod fault;
mod mail;
mod store;

pub use fault::{LastingFault, StoreFault};
pub use mail::MailHead;
pub use store::Store;
