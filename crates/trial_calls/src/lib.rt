//! Tests what no clause says of public calls and no script shows: reads and writes that fail midway, stores that fail,
//! keys that are not printed, and calls that no program makes.
#![tactic(auto)]

mod base;
mod call_fault;
mod call_test;
mod doubles;
mod faults;
mod feeding;
mod keys;
mod lists;
mod mails;
mod tokens;

pub use call_fault::CallFault;
pub use call_test::test_calls;
