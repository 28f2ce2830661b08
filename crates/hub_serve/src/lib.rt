//! Serves connections of HTTP/1.1 over the network, one after another.
#![tactic(auto)]

mod connections;
mod line;
mod listening;
mod moments;
mod serve;
mod sockets;
mod timed;

pub use connections::{Connections, Moments, NoConnection, Sides};
pub use hub_http::{Paths, Served};
pub use line::{Ending, print_listening};
pub use listening::Listening;
pub use moments::{ClockMoments, NamedOr, moment_now};
pub use serve::{OnBroken, serve_on};
pub use sockets::{Listener, NetListener, NetSocket, Socket};
pub use timed::Timed;
