//! Serves one connection of HTTP/1.1: finds out what its bytes ask of the hub and by which caller, and answers it.
#![tactic(auto)]

mod answer;
mod asked;
mod extent;
mod parts;
mod paths;
mod question;
mod refusal;
mod route;
mod serve;
mod upload;

pub use hub_core::{Hub, Input, Join, Outcome, Reply, Request, read_cancel};
pub use parts::{PathParts, parts_in};
pub use paths::Paths;
pub use route::Route;
pub use serve::{IoFault, Served, serve_one};
