//! The program `edihub`: the EDI hub of one retailer.
//!
//! What takes tables or opens them is `inline(never)`, which spares LLVM minutes.
#![tactic(auto)]

mod database;
mod fault;
mod hub_file;
mod init;
mod journal;
mod key_change;
mod keys;
mod register;
mod serve;
mod tasks;
mod unopened;
mod verify;

use clap::Error;
use database::{HubWork, Work, over_a_hub};
use edi_base::exit::{FAILED, USAGE};
use edi_relay::relay_run;
use edi_tokens::{OfRead, OfWrite};
use fault::{BeginFault, KeyFault};
use hub_app::{HubWords, RekeyWords, Words, WordsFault, file_key_refused, read_words};
use hub_commands::{KeyOutcome, check_run, show_run};
use init::init;
use key_change::{change_of, print_outcome};
use keys::with_keys;
use register::register_text;
use std::fmt::Display;
use std::process::ExitCode;
use std::{env, io};
use verify::verify_database;

// Prints a line on standard error. If that fails, the exit status alone reports the fault.
pub(crate) fn tell<T: Display + Drop>(rt: &HostRuntime, line: T, status: u8) -> u8 {
    let _ = rt.eprintln(line);
    status
}

// Returns the exit status of what was done; if it failed, prints the fault.
pub(crate) fn status_of(rt: &HostRuntime, done: Result<u8, BeginFault>) -> u8 {
    match done {
        Ok(status) => status,
        Err(fault) => tell(rt, fault, FAILED),
    }
}

// Prints what is wrong with the words, or the help that they ask for.
fn tell_words(rt: &HostRuntime, error: &Error) -> u8 {
    match error.print(rt) {
        Ok(()) => error.exit_code() as u8,
        Err(_) => tell(rt, "file", FAILED),
    }
}

// Prints why words are refused.
fn tell_refused(rt: &HostRuntime, fault: &WordsFault) -> u8 {
    match fault {
        WordsFault::Told(error) => tell_words(rt, error),
        WordsFault::Memory => tell(rt, "memory", FAILED),
    }
}

// Runs a command over a hub, once its keys are read.
fn with_the_hub(rt: &HostRuntime, given: &[String], words: HubWords<'_>) -> u8 {
    match with_keys(rt, words) {
        Ok(asked) => over_a_hub(rt, Work::Hub(HubWork::Command(asked))),
        Err(KeyFault::Unread(fault)) => tell(rt, fault, FAILED),
        Err(KeyFault::Refused) => tell_refused(rt, &file_key_refused(rt.alloc(), given)),
    }
}

// Changes a key. The file that holds the new one is read first, so that the database is opened only if there is one.
fn change_key(rt: &HostRuntime, words: &RekeyWords<'_>) -> u8 {
    match change_of(rt, words) {
        Ok(Some(change)) => over_a_hub(rt, Work::Rekey(change)),
        Ok(None) => status_of(rt, print_outcome(rt, KeyOutcome::NoKey)),
        Err(fault) => tell(rt, fault, FAILED),
    }
}

// Checks the register in a file.
fn check(rt: &HostRuntime, path: &str) -> u8 {
    match register_text(rt, path) {
        Ok(text) => check_run(
            rt.alloc(),
            text.as_str(),
            &mut OfWrite::new(rt.stdout()),
            &mut OfWrite::new(rt.stderr()),
        ),
        Err(fault) => tell(rt, fault, FAILED),
    }
}

// Runs the command that the words name.
fn run(rt: &HostRuntime, given: &[String]) -> u8 {
    match read_words(rt.alloc(), given) {
        Ok(Words::Check(words)) => check(rt, words.register),
        Ok(Words::Relay(relay)) => relay_run(
            rt.alloc(),
            &relay,
            &mut OfRead::new(rt.stdin()),
            &mut OfWrite::new(rt.stdout()),
            &mut OfWrite::new(rt.stderr()),
        ),
        Ok(Words::Show) => show_run(
            rt.alloc(),
            &mut OfRead::new(rt.stdin()),
            &mut OfWrite::new(rt.stdout()),
            &mut OfWrite::new(rt.stderr()),
        ),
        Ok(Words::Init(words)) => init(rt, &words),
        Ok(Words::Rekey(words)) => change_key(rt, &words),
        Ok(Words::Verify(words)) => verify_database(rt, &words),
        Ok(Words::Hub(words)) => with_the_hub(rt, given, words),
        Ok(Words::Serve(words)) => over_a_hub(rt, Work::Hub(HubWork::Serve(words))),
        Err(fault) => tell_refused(rt, &fault),
    }
}

fn main(rt: HostRuntime) -> ExitCode {
    let status = match env::args(&rt) {
        Ok(words) => match words.collect::<Vec<String>>(rt.alloc()) {
            Ok(words) => run(&rt, words.as_slice()),
            Err(_) => tell(&rt, "memory", FAILED),
        },
        Err(error) if error.kind() == io::ErrorKind::InvalidData => {
            tell(&rt, "error: a word is not UTF-8", USAGE)
        }
        Err(_) => tell(&rt, "memory", FAILED),
    };
    ExitCode::from(status)
}
