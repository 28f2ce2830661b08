//! Prints the results of a script.
use crate::fault::ScriptFault;
use edi_base::{Sink, WriteFault, write_bytes};
use hub_core::{Outcome, Reply};
use hub_sql::FoundFault;
use hub_store::StoreFault;
use std::alloc::{AllocError, Global};

// Returns the word that is printed for an outcome.
fn word_of(outcome: Outcome) -> &'static str {
    match outcome {
        Outcome::Done => "done",
        Outcome::Bad => "bad",
        Outcome::Denied => "denied",
        Outcome::Unknown => "unknown",
        Outcome::Stopped => "stopped",
    }
}

// Returns the word that is printed for a fault of opening.
fn word_of_fault(fault: FoundFault) -> &'static str {
    match fault {
        FoundFault::Rows => "rows",
        FoundFault::Store(StoreFault::Memory) => "memory",
        FoundFault::Store(StoreFault::Disk) => "disk",
        FoundFault::Store(StoreFault::Unclean) => "unclean",
        FoundFault::Store(StoreFault::Version) => "version",
    }
}

// Returns the line of a reply.
fn reply_line(alloc: Global, reply: &Reply) -> Result<String, AllocError> {
    let outcome = word_of(reply.outcome);
    let refused = if reply.refused { " refused" } else { "" };
    let length = reply.body.len();
    format!(in alloc; "{outcome}{refused} {length}\n")
}

fn write_both<W: Sink>(line: &[u8], bytes: &[u8], out: &mut W) -> Result<(), WriteFault> {
    write_bytes(line, out)?;
    write_bytes(bytes, out)
}

/// Prints that the store could not be opened, and why.
pub fn write_fault<W: Sink>(
    alloc: Global,
    fault: FoundFault,
    out: &mut W,
) -> Result<(), ScriptFault> {
    let word = word_of_fault(fault);
    let line = format!(in alloc; "store {word}\n")?;
    Ok(write_bytes(line.as_bytes(), out)?)
}

// Prints a reply: its outcome, whether something was refused, the length of its body, and the body.
fn write_reply<W: Sink>(alloc: Global, reply: &Reply, out: &mut W) -> Result<(), ScriptFault> {
    let line = reply_line(alloc, reply)?;
    Ok(write_both(line.as_bytes(), reply.body.as_slice(), out)?)
}

/// Prints replies, one after another.
pub fn write_replies<W: Sink>(
    alloc: Global,
    replies: &[Reply],
    out: &mut W,
) -> Result<(), ScriptFault> {
    for reply in replies {
        write_reply(alloc, reply, out)?;
    }
    Ok(())
}

/// Prints how many look-ups and commits there were.
pub fn write_counts<W: Sink>(
    alloc: Global,
    look_ups: u64,
    commits: u64,
    out: &mut W,
) -> Result<(), ScriptFault> {
    let line = format!(in alloc; "look-ups {look_ups} commits {commits}\n")?;
    Ok(write_bytes(line.as_bytes(), out)?)
}
