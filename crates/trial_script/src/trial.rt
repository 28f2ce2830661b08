//! Runs a script on a hub.
ghost use Rattle.std.specs.Prelude.{◌≡◌};

use crate::command::Command;
use crate::fault::ScriptFault;
use crate::opening::Opener;
use crate::print::{write_counts, write_fault, write_replies};
use crate::request::{payload, request_of};
use crate::script::{LineWords, Script};
use edi_base::{Items, Sink, copy_bytes};
use edi_envelope::Moment;
use gs1_ids::Gln;
use hub_core::{Hub, Input, Reply, Request};
use hub_register::Register;
use hub_sql::FoundFault;
use hub_store::{Store, StoreFault};
use std::alloc::Global;
use std::{slice, str};
use trial_store::TrialStore;

/// The caller, and the moment of its requests.
#[derive(Drop)]
struct Asker {
    moment: Moment,
    gln: Gln,
    key: Items<u8>,
}

/// The hub, its current caller, the inputs of a run that is not made yet, and whether replies are printed.
#[derive(Drop)]
pub struct Trial<S: Store + Drop, O: Opener<S>> {
    alloc: Global,
    opener: O,
    hub: Option<Hub<TrialStore<S>>>,
    asker: Option<Asker>,
    run: Option<Vec<Input>>,
    quiet: bool,
}

// How a store fails after this many calls. The call that returns its register does not count.
#[derive(Clone, Copy)]
enum Failure {
    Memory(u64),
    Disk(u64),
}

// Reads how the store of a line fails; `None` if the line has no more words.
fn failure_of(words: &mut LineWords<'_>) -> Result<Option<Failure>, ScriptFault> {
    let word = words.next_word();
    if word.is_empty() {
        return Ok(None);
    }
    let calls = words.next_number();
    match (word, calls) {
        (b"memory", Some(calls)) => Ok(Some(Failure::Memory(calls))),
        (b"disk", Some(calls)) => Ok(Some(Failure::Disk(calls))),
        _ => Err(ScriptFault::Line),
    }
}

fn store_of<S: Store>(plain: S, failure: Option<Failure>) -> TrialStore<S>
    ensures { result.0 ≡ plain }
{
    match failure {
        None => TrialStore::new(plain),
        Some(Failure::Memory(calls)) => {
            TrialStore::failing(plain, calls.saturating_add(1), StoreFault::Memory)
        }
        Some(Failure::Disk(calls)) => {
            TrialStore::failing(plain, calls.saturating_add(1), StoreFault::Disk)
        }
    }
}

// Reads a register from these bytes.
fn register_of(alloc: Global, bytes: &[u8]) -> Result<Register, ScriptFault> {
    let Ok(text) = str::from_utf8(bytes) else {
        return Err(ScriptFault::Register);
    };
    Ok(Register::from_toml(alloc, text)?)
}

// Reads the caller and the moment from the words of a line.
fn asker_of(alloc: Global, words: &mut LineWords<'_>) -> Result<Asker, ScriptFault> {
    let seconds = words.next_number().ok_or(ScriptFault::Line)?;
    let moment = Moment::new(seconds).ok_or(ScriptFault::Line)?;
    let gln = words.next_gln().ok_or(ScriptFault::Line)?;
    let key = copy_bytes(alloc, words.next_word())?;
    Ok(Asker { moment, gln, key })
}

// Makes the input of a run from a request of the current caller.
fn input_of(alloc: Global, asker: Option<&Asker>, request: Request) -> Result<Input, ScriptFault> {
    let Some(asker) = asker else {
        return Err(ScriptFault::Line);
    };
    let key = copy_bytes(alloc, asker.key.as_slice())?;
    Ok(Input {
        moment: asker.moment,
        caller: asker.gln,
        key,
        request,
    })
}

fn push_input(
    inputs: &mut Vec<Input>,
    input: Result<Input, ScriptFault>,
) -> Result<(), ScriptFault> {
    match inputs.push(input?) {
        Ok(()) => Ok(()),
        Err(_) => Err(ScriptFault::Memory),
    }
}

// A function of its own, as for the next call, to keep its contract out of the goals of the others.
fn replied<S: Store>(hub: &mut Hub<S>, asker: &Asker, request: Request) -> Reply {
    hub.step(asker.moment, &asker.gln, asker.key.as_slice(), request)
}

fn ran<S: Store>(hub: &mut Hub<S>, inputs: &[Input]) -> Result<Items<Reply>, ScriptFault> {
    Ok(hub.run(inputs)?)
}

impl<S: Store + Drop, O: Opener<S>> Trial<S, O> {
    /// Begins without a hub.
    pub fn new(alloc: Global, opener: O) -> Self {
        Trial {
            alloc,
            opener,
            hub: None,
            asker: None,
            run: None,
            quiet: false,
        }
    }

    /// Runs a script, and prints the replies.
    pub fn play<W: Sink>(
        &mut self,
        rt: &HostRuntime,
        text: &[u8],
        out: &mut W,
    ) -> Result<(), ScriptFault> {
        let mut script = Script::new(text);
        // each line takes at least one byte
        for _ in 0..text.len() {
            let Some(mut words) = script.next_line() else {
                return Ok(());
            };
            self.obey(rt, &mut words, &mut script, out)?;
        }
        Ok(())
    }

    // Does what a line says.
    fn obey<W: Sink>(
        &mut self,
        rt: &HostRuntime,
        words: &mut LineWords<'_>,
        script: &mut Script<'_>,
        out: &mut W,
    ) -> Result<(), ScriptFault> {
        let word = words.next_word();
        match request_of(self.alloc, word, words, script)? {
            Some(request) => self.ask(request, out),
            None => self.command(rt, Command::of(word)?, words, script, out),
        }
    }

    // Runs a command.
    fn command<W: Sink>(
        &mut self,
        rt: &HostRuntime,
        command: Command,
        words: &mut LineWords<'_>,
        script: &mut Script<'_>,
        out: &mut W,
    ) -> Result<(), ScriptFault> {
        match command {
            Command::Hub => self.make_hub(rt, words, script, out),
            Command::As => self.set_asker(words),
            Command::Run => self.begin_run(),
            Command::End => self.make_run(out),
            Command::Mend => self.mend(rt, out),
            Command::Counts => self.tell_counts(out),
            Command::Quiet(quiet) => {
                self.quiet = quiet;
                Ok(())
            }
        }
    }

    // Makes a hub over its store, which is opened, or founded with the register of the text.
    fn make_hub<W: Sink>(
        &mut self,
        rt: &HostRuntime,
        words: &mut LineWords<'_>,
        script: &mut Script<'_>,
        out: &mut W,
    ) -> Result<(), ScriptFault> {
        let register = register_of(self.alloc, payload(words, script)?)?;
        let failure = failure_of(words)?;
        self.close();
        match self.opener.open(rt, &register) {
            Ok(plain) => self.set_hub(plain, failure, out),
            Err(fault) => write_fault(self.alloc, fault, out),
        }
    }

    // Gives the hub's store back.
    fn close(&mut self) {
        if let Some(hub) = self.hub.take() {
            let (_, store) = hub.into_store();
            let _ = self.opener.take_back(store.into_store());
        }
    }

    // Makes the hub of a store that was opened and fails in this way.
    fn set_hub<W: Sink>(
        &mut self,
        plain: S,
        failure: Option<Failure>,
        out: &mut W,
    ) -> Result<(), ScriptFault> {
        match Hub::new(self.alloc, store_of(plain, failure)) {
            Ok(hub) => {
                self.hub = Some(hub);
                Ok(())
            }
            Err((store, fault)) => {
                let _ = self.opener.take_back(store.into_store());
                write_fault(self.alloc, FoundFault::Store(fault), out)
            }
        }
    }

    // Sets the caller of the requests that follow, and their moment.
    fn set_asker(&mut self, words: &mut LineWords<'_>) -> Result<(), ScriptFault> {
        self.asker = Some(asker_of(self.alloc, words)?);
        Ok(())
    }

    // Makes a request, or adds it to the run.
    fn ask<W: Sink>(&mut self, request: Request, out: &mut W) -> Result<(), ScriptFault> {
        match &mut self.run {
            Some(inputs) => push_input(inputs, input_of(self.alloc, self.asker.as_ref(), request)),
            None => self.step(request, out),
        }
    }

    // Makes a request, and prints the reply.
    fn step<W: Sink>(&mut self, request: Request, out: &mut W) -> Result<(), ScriptFault> {
        let (Some(hub), Some(asker)) = (&mut self.hub, &self.asker) else {
            return Err(ScriptFault::Line);
        };
        let reply = replied(hub, asker, request);
        self.tell(slice::from_ref(&reply), out)
    }

    // Begins a run without any inputs.
    fn begin_run(&mut self) -> Result<(), ScriptFault> {
        self.run = Some(Vec::new(self.alloc));
        Ok(())
    }

    // Makes the run, and prints the replies.
    fn make_run<W: Sink>(&mut self, out: &mut W) -> Result<(), ScriptFault> {
        let replies = self.replies()?;
        self.tell(replies.as_slice(), out)
    }

    // Makes the run, and returns the replies.
    fn replies(&mut self) -> Result<Items<Reply>, ScriptFault> {
        let Some(inputs) = self.run.take() else {
            return Err(ScriptFault::Line);
        };
        match &mut self.hub {
            Some(hub) => ran(hub, inputs.as_slice()),
            None => Err(ScriptFault::Line),
        }
    }

    // Prints replies, unless it is quiet.
    fn tell<W: Sink>(&self, replies: &[Reply], out: &mut W) -> Result<(), ScriptFault> {
        if self.quiet {
            return Ok(());
        }
        write_replies(self.alloc, replies, out)
    }

    // Reopens the store with what it keeps; from then on no call of it fails. The register is read from it again.
    fn mend<W: Sink>(&mut self, rt: &HostRuntime, out: &mut W) -> Result<(), ScriptFault> {
        let Some(hub) = self.hub.take() else {
            return Err(ScriptFault::Line);
        };
        let (register, store) = hub.into_store();
        match self.opener.again(rt, &register, store.into_store()) {
            Ok(plain) => self.set_hub(plain, None, out),
            Err(fault) => write_fault(self.alloc, fault, out),
        }
    }

    // Prints how many look-ups and commits there were since the hub was made or its store was reopened.
    fn tell_counts<W: Sink>(&mut self, out: &mut W) -> Result<(), ScriptFault> {
        let store = self.hub.as_ref().ok_or(ScriptFault::Line)?.store();
        write_counts(self.alloc, store.look_ups(), store.commits(), out)
    }
}
