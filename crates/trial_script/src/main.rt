//! Runs a script on a hub, and prints each reply: `trial_script < script` keeps the rows in lists in memory, and
//! `trial_script sql < script` in SQL tables in memory. `trial_script stop-file C` and `trial_script stop-log C` keep
//! them in a database file and its log, both in memory. Each call of the file, or of the log, fails after the first C,
//! as if the machine had stopped, and what was kept is there again once it is reopened. `stop-file C PATH` and
//! `stop-log C PATH` begin with a copy of the database file at PATH, such as one of schema 1.
//!
//! What takes a store or its files is `inline(never)`, which spares LLVM minutes.
//!
//! A script is lines of words, separated by single blanks. If a line names a number of bytes, these bytes follow it,
//! and then a line end.
//!
//! The lines:
//!
//! - `hub N`, `hub N memory C` and `hub N disk C` make a hub with the register in the text of N bytes and no other
//!   rows. If the file already has a hub's tables, or kept them when it stopped during opening, it gives its own rows
//!   and register instead. A file of schema 1 keeps its rows and gets the register of the text. The hub's store fails
//!   with the named fault after C calls; the call that returns its register does not count. If the store cannot be
//!   opened, prints `store` and the fault.
//! - `as MOMENT GLN KEY` sets the caller of the requests that follow, and their moment in seconds.
//! - `upload N`, `after N`, `item N`, `taken N`, `status`, `status-of GLN` and `cancel N` make a request; the bytes of
//!   `upload` and `cancel` follow.
//! - `join GLN KEY PREFIX[,PREFIX..]` asks to register a supplier with this key and these company prefixes. A line that
//!   is not a valid join, such as one with nine prefixes, is a fault of the script.
//! - `run` and `end` combine the requests between them into one run.
//! - `mend` reopens the store with its rows, or with what a crash leaves of a file that stopped; from then on no call
//!   fails. If it cannot be opened, prints `store` and the fault.
//! - `counts` prints how many look-ups and commits there were since the hub was made or its store was reopened.
//! - `quiet` stops printing replies, and `loud` starts again.
//!
//! For each reply it prints the outcome, `refused` if something was refused, the length of the body, a line end, and
//! the body.
//!
//! `trial_script calls` reads no script: it makes the tests of calls (`trial_calls`), and prints the name of each, with
//! `wrong` behind the first that does not pass, which is the last one made; `calls NAME` makes only that one.
//!
//! The exit status is 0; 1 if the script has a fault, or a call that is tested answers wrongly; or 3 if memory ran out,
//! or a read or write failed.
#![tactic(auto)]

mod command;
mod fault;
mod opening;
mod print;
mod request;
mod script;
mod stopping;
mod trial;

use crate::fault::ScriptFault;
use crate::opening::{InMemory, Opener};
use crate::stopping::{Stopping, StoppingFiles};
use crate::trial::Trial;
use edi_base::{OfRead, OfWrite, read_to_limit};
use hub_sql::SqliteStore;
use hub_store::Store;
use sqlite::Alter;
use sqlite_disk::{Disk, Fuse, Memory};
use sqlite_store::FileStore;
use sqlite_trees::memory::MemStore;
use std::env;
use std::fs::File;
use std::process::ExitCode;
use trial_calls::test_calls;
use trial_lists::VecStore;

/// The longest script, in bytes.
const SCRIPT_LIMIT: usize = 64 << 20;

// Runs the script on standard input.
#[inline(never)]
fn play<S: Store + Drop, O: Opener<S>>(rt: &HostRuntime, opener: O) -> Result<(), ScriptFault> {
    let text = read_to_limit(rt.alloc(), &mut OfRead::new(rt.stdin()), SCRIPT_LIMIT)?;
    let mut trial = Trial::<S, O>::new(rt.alloc(), opener);
    trial.play(rt, text.as_slice(), &mut OfWrite::new(rt.stdout()))
}

fn over_lists(rt: &HostRuntime) -> Result<(), ScriptFault> {
    play::<VecStore, InMemory>(rt, InMemory)
}

fn over_sql(rt: &HostRuntime) -> Result<(), ScriptFault> {
    over_tables::<MemStore, InMemory>(rt, InMemory)
}

// Runs the script on SQL tables, wherever they are kept.
fn over_tables<A: Alter + Drop, O: Opener<SqliteStore<A>>>(
    rt: &HostRuntime,
    opener: O,
) -> Result<(), ScriptFault> {
    play::<SqliteStore<A>, O>(rt, opener)
}

// Runs the script on SQL tables that are kept in files.
fn over_files<D: Disk + Drop, O: Opener<SqliteStore<FileStore<D>>>>(
    rt: &HostRuntime,
    opener: O,
) -> Result<(), ScriptFault> {
    over_tables::<FileStore<D>, O>(rt, opener)
}

// Runs the script on files in memory, of which each stops after so many calls. The database file holds these bytes at
// first.
fn over_stopping<D: Stopping>(
    rt: &HostRuntime,
    of_file: u64,
    of_log: u64,
    held: Vec<u8>,
) -> Result<(), ScriptFault> {
    over_files::<D, StoppingFiles<D>>(
        rt,
        StoppingFiles {
            of_file,
            of_log,
            held,
            left: None,
        },
    )
}

// Runs the script on files of which one stops after this many calls.
fn over_stopped(
    rt: &HostRuntime,
    word: &str,
    calls: &str,
    held: Vec<u8>,
) -> Result<(), ScriptFault> {
    let calls = calls.parse::<u64>().map_err(|_| ScriptFault::Line)?;
    let (of_file, of_log) = match word {
        "stop-file" => (calls, u64::MAX),
        "stop-log" => (u64::MAX, calls),
        _ => return Err(ScriptFault::Line),
    };
    over_stopping::<Fuse<Memory>>(rt, of_file, of_log, held)
}

// Returns the bytes of a file.
fn bytes_of(rt: &HostRuntime, path: &str) -> Result<Vec<u8>, ScriptFault> {
    let file = File::open(rt, path).map_err(|_| ScriptFault::File)?;
    Ok(read_to_limit(rt.alloc(), &mut OfRead::new(file), SCRIPT_LIMIT)?)
}

// Runs the script on the store that the arguments name.
fn over_named(rt: &HostRuntime, words: &[String]) -> Result<(), ScriptFault> {
    match words {
        [] | [_] => over_lists(rt),
        [_, word] if word.as_str() == "sql" => over_sql(rt),
        [_, word] if word.as_str() == "calls" => tested(rt, None),
        [_, word, name] if word.as_str() == "calls" => tested(rt, Some(name.as_str())),
        [_, word, calls] => over_stopped(rt, word.as_str(), calls.as_str(), Vec::new(rt.alloc())),
        [_, word, calls, path] => {
            let held = bytes_of(rt, path.as_str())?;
            over_stopped(rt, word.as_str(), calls.as_str(), held)
        }
        _ => Err(ScriptFault::Line),
    }
}

// Makes the tests of calls with this name, or all.
fn tested(rt: &HostRuntime, name: Option<&str>) -> Result<(), ScriptFault> {
    Ok(test_calls(rt.alloc(), name, &mut OfWrite::new(rt.stdout()))?)
}

fn run(rt: &HostRuntime) -> Result<(), ScriptFault> {
    let words = env::args(rt).map_err(|_| ScriptFault::Memory)?;
    let words = words
        .collect::<Vec<String>>(rt.alloc())
        .map_err(|_| ScriptFault::Memory)?;
    over_named(rt, words.as_slice())
}

fn main(rt: HostRuntime) -> ExitCode {
    let Err(fault) = run(&rt) else {
        return ExitCode::SUCCESS;
    };
    let _ = rt.eprintln(fault);
    match fault {
        ScriptFault::Line | ScriptFault::Register | ScriptFault::Wrong => ExitCode::from(1),
        ScriptFault::File | ScriptFault::Memory => ExitCode::from(3),
    }
}
