//! Reads the register that tables hold, and makes the changes that found one.
#![tactic(auto)]

mod changes;
mod gathered;
mod laws;
mod register;

pub use changes::register_changes;
pub use laws::rows_beside_stay;
pub use register::register_of;
