//! Describes the command line of the program `edihub` for `clap`: its commands, their options and help texts.
#![tactic(auto)]

mod program;

pub use program::command_line;
