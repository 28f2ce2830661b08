//! Turns an interchange on standard input into the supplier's mail, as `edihub relay` does.
#![tactic(auto)]

ghost use Rattle.std.specs.Prelude.{IfSome};
ghost use Rattle.edi_relay.specs.Relay.{AreRelayWords};

use edi_base::exit::{FAILED, USAGE};
use edi_envelope::Moment;
use edi_relay::{RelayWords, relay_run};
use edi_tokens::{OfRead, OfWrite};
use std::process::ExitCode;
use std::{env, io};

const CALLED: &str = "usage: edirelay HUB OWNER MOMENT NUMBER < INTERCHANGE > MAIL";

// Reads the arguments: the GLNs of the hub and of the supplier, the moment of the mail in seconds since
// 1970-01-01T00:00:00Z, and the number of the first mail text.
fn relay_words(given: &[String]) -> Option<RelayWords>
    ensures { IfSome result AreRelayWords }
{
    let [_program, hub, owner, moment, number] = given else {
        return None;
    };
    let moment = Moment::new(moment.parse::<u64>().ok()?)?;
    RelayWords::new(hub, owner, moment, number.parse::<u64>().ok()?)
}

// Prints a line on standard error, and returns the exit status. If printing fails, only the status reports the fault.
fn tell(rt: &HostRuntime, line: &str, status: u8) -> u8 {
    let _ = rt.eprintln(line);
    status
}

// Relays standard input as the arguments say.
fn run(rt: &HostRuntime, given: &[String]) -> u8 {
    let Some(words) = relay_words(given) else {
        return tell(rt, CALLED, USAGE);
    };
    relay_run(
        rt.alloc(),
        &words,
        &mut OfRead::new(rt.stdin()),
        &mut OfWrite::new(rt.stdout()),
        &mut OfWrite::new(rt.stderr()),
    )
}

fn main(rt: HostRuntime) -> ExitCode {
    let status = match env::args(&rt) {
        Ok(words) => match words.collect::<Vec<String>>(rt.alloc()) {
            Ok(words) => run(&rt, words.as_slice()),
            Err(_) => tell(&rt, "memory", FAILED),
        },
        Err(error) if error.kind() == io::ErrorKind::InvalidData => tell(&rt, CALLED, USAGE),
        Err(_) => tell(&rt, "memory", FAILED),
    };
    ExitCode::from(status)
}
