//! Defines the commands of a script: lines that make no request.
use crate::fault::ScriptFault;

/// The command of a line, given by its first word.
#[derive(Clone, Copy)]
pub enum Command {
    /// `hub`
    Hub,
    /// `as`
    As,
    /// `run`
    Run,
    /// `end`
    End,
    /// `mend`
    Mend,
    /// `counts`
    Counts,
    /// `quiet`, or `loud`
    Quiet(bool),
}

impl Command {
    /// Returns the command of this word.
    pub fn of(word: &[u8]) -> Result<Command, ScriptFault> {
        match word {
            b"hub" => Ok(Command::Hub),
            b"as" => Ok(Command::As),
            b"run" => Ok(Command::Run),
            b"end" => Ok(Command::End),
            b"mend" => Ok(Command::Mend),
            b"counts" => Ok(Command::Counts),
            b"quiet" => Ok(Command::Quiet(true)),
            b"loud" => Ok(Command::Quiet(false)),
            _ => Err(ScriptFault::Line),
        }
    }
}
