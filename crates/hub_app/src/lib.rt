//! Reads the command line of the program `edihub`: its commands, their options, and what the words say.
#![tactic(auto)]

mod options;
mod usage;
mod words;

pub use edi_relay::{RelayFault, RelayWords, relay_run, relay_text};
pub use words::{
    CheckWords, HubTask, HubWords, InitWords, JoinByFile, KeyWord, RekeyWords, ServeWords,
    VerifyWords, Words, WordsFault, file_key_refused, read_words,
};
