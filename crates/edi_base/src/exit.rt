//! Defines the exit statuses of the commands.

/// Done, and nothing was refused.
pub const DONE: u8 = 0;

/// Something was refused, denied or unknown, or a connection got a response other than 200 and 503.
pub const REFUSED: u8 = 1;

/// A usage error: the arguments name no command, or not its options.
pub const USAGE: u8 = 2;

/// A read, a write, the store or the clock failed, memory ran out, or a connection failed or got 503.
pub const FAILED: u8 = 3;
