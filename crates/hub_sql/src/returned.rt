//! Defines what comes back after a failed opening or founding.
use sqlite::{Alter, Connection};

/// A connection that comes back with a fault, or the storage below it if opening it again failed.
#[derive(Drop)]
pub enum Returned<S: Alter> {
    /// The connection. With `Version` it is as it was.
    Connection(Connection<S>),
    /// The storage that was below it. `Connection::over` opens it again.
    Store(S),
}
