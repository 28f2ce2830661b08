//! Makes the tests of calls by their names.
use crate::call_fault::CallFault;
use crate::{base, faults, feeding, keys, mails, tokens};
use edi_base::{Sink, write_bytes};
use std::alloc::Global;

/// A test of calls.
#[derive(Clone, Copy)]
enum CallTest {
    FailedWrites,
    Limits,
    FailedRead,
    LastingFault,
    Pieces,
    FailedReads,
    KeyOfInput,
    Key,
    RelayedOrder,
    LastMail,
    CanonicalTexts,
    FailedWritesOfText,
    LongText,
}

static ALL: [CallTest; 13] = [
    CallTest::FailedWrites,
    CallTest::Limits,
    CallTest::FailedRead,
    CallTest::LastingFault,
    CallTest::Pieces,
    CallTest::FailedReads,
    CallTest::KeyOfInput,
    CallTest::Key,
    CallTest::RelayedOrder,
    CallTest::LastMail,
    CallTest::CanonicalTexts,
    CallTest::FailedWritesOfText,
    CallTest::LongText,
];

impl CallTest {
    // Returns the name, as it is printed and asked for.
    fn name(self) -> &'static str {
        match self {
            CallTest::FailedWrites => "failed-writes",
            CallTest::Limits => "limits",
            CallTest::FailedRead => "failed-read",
            CallTest::LastingFault => "lasting-fault",
            CallTest::Pieces => "pieces",
            CallTest::FailedReads => "failed-reads",
            CallTest::KeyOfInput => "key-of-input",
            CallTest::Key => "key",
            CallTest::RelayedOrder => "relayed-order",
            CallTest::LastMail => "last-mail",
            CallTest::CanonicalTexts => "canonical-texts",
            CallTest::FailedWritesOfText => "failed-writes-of-text",
            CallTest::LongText => "long-text",
        }
    }

    // Makes the calls, and compares what they answer.
    fn passes(self, alloc: Global) -> Result<(), CallFault> {
        match self {
            CallTest::FailedWrites => base::failed_writes(alloc),
            CallTest::Limits => base::limits(alloc),
            CallTest::FailedRead => base::failed_read(alloc),
            CallTest::LastingFault => faults::lasting(alloc),
            CallTest::Pieces => feeding::pieces(alloc),
            CallTest::FailedReads => feeding::failed_reads(alloc),
            CallTest::KeyOfInput => keys::key_of_input(alloc),
            CallTest::Key => keys::key(alloc),
            CallTest::RelayedOrder => mails::relayed(alloc),
            CallTest::LastMail => mails::last_mail(alloc),
            CallTest::CanonicalTexts => tokens::canonical(alloc),
            CallTest::FailedWritesOfText => tokens::failed_writes(alloc),
            CallTest::LongText => tokens::long(alloc),
        }
    }
}

// Makes a test, and prints its name, with `wrong` behind it if a call answers something else.
fn tell<W: Sink>(alloc: Global, test: CallTest, out: &mut W) -> Result<(), CallFault> {
    let passed = test.passes(alloc);
    if let Err(CallFault::Memory) = passed {
        return passed;
    }
    write_bytes(test.name().as_bytes(), out)?;
    let end: &[u8] = if passed.is_ok() { b"\n" } else { b" wrong\n" };
    write_bytes(end, out)?;
    passed
}

/// Makes the tests with this name, or all, and prints the name of each that passes on a line of its own. Stops at the
/// first that does not pass, and prints `wrong` behind its name unless memory ran out.
///
/// # Errors
///
/// `Name` if no test has this name, `Wrong` if a call answers something else, `Memory` if memory ran out, and `Write` if
/// a name could not be printed.
pub fn test_calls<W: Sink>(
    alloc: Global,
    name: Option<&str>,
    out: &mut W,
) -> Result<(), CallFault> {
    let mut is_there = name.is_none();
    for test in &ALL {
        if name.is_none_or(|it| it == test.name()) {
            is_there = true;
            tell(alloc, *test, out)?;
        }
    }
    if is_there {
        Ok(())
    } else {
        Err(CallFault::Name)
    }
}
