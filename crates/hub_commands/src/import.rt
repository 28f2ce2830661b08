//! Imports files.
ghost use Rattle.std.specs.Prelude.{◌≡◌, ◌≢◌, Err, IfOk, IfErr};
ghost use Rattle.hub_core.specs.Hub.{RunsFrom, StaysSound, StepsFrom};
ghost use Rattle.hub_core.specs.Steps.{input_of};
ghost use Rattle.hub_commands.specs.Files.{OpensSource, FaultComesOf, HasFailed};
ghost use Rattle.hub_commands.specs.Import.{Imported};
ghost use Rattle.hub_commands.specs.OneFile.{FaultComes, LooksAt, ReplyComes};
ghost use Rattle.hub_requests.specs.declared.request.Request.TheVariants.{Upload};

use crate::files::{Files, NamedFile, NextFile};
use crate::print::{print, print_file_line};
use crate::reply::reply_run;
use edi_base::exit::{DONE, FAILED};
use edi_base::{ReadFault, Sink, Source, WriteFault};
use edi_envelope::{Interchange, Moment, OpenFault, open_lent};
use edi_tokens::{Lender, TokenFault};
use gs1_ids::Gln;
use hub_core::{Hub, Reply, STOPPED};
use hub_store::Store;
use std::alloc::Global;

// The line of a file that cannot be read or has no name.
const FAULT: &[u8] = b"fault\n";

// The import ends before it comes to the next file.
struct ImportEnded;

impl From<WriteFault> for ImportEnded {
    fn from(_fault: WriteFault) -> ImportEnded {
        ImportEnded
    }
}

// Prints a reply, and answers its exit status.
fn print_reply<W: Sink>(reply: &Reply, out: &mut W) -> Result<u8, ImportEnded>
    ensures { ReplyComes (W.contents out.old) (W.contents out.new)
        (W.failed out.old) (W.failed out.new) reply.now
        result }
{
    let status = reply_run(reply, out);
    if status == FAILED {
        Err(ImportEnded)
    } else {
        Ok(status)
    }
}

// Prints why the bytes of a file are not known, and answers the exit status of the file.
fn print_fault<W: Sink>(fault: ReadFault, out: &mut W) -> Result<u8, ImportEnded>
    ensures { FaultComes (W.contents out.old) (W.contents out.new)
        (W.failed out.old) (W.failed out.new) fault result }
{
    match fault {
        ReadFault::Read => {
            print(FAULT, out)?;
            Ok(FAILED)
        }
        ReadFault::Memory => {
            print(STOPPED, out)?;
            Err(ImportEnded)
        }
    }
}

// Returns what was opened, unless a read had failed.
fn unless_unread(
    upload: Result<Interchange, OpenFault>,
) -> Result<Result<Interchange, OpenFault>, ReadFault>
    ensures ok { IfOk result (λ given. (given ≡ upload) × (given ≢ Err (OpenFault.Token TokenFault.Read))) }
    ensures err { IfErr result (λ fault.
        (fault ≡ ReadFault.Read) × (upload ≡ Err (OpenFault.Token TokenFault.Read))) }
{
    match upload {
        Err(OpenFault::Token(TokenFault::Read)) => Err(ReadFault::Read),
        _ => Ok(upload),
    }
}

// Opens what is read from a source, one segment at a time; or why it was not read. A read that fails ends it.
fn open_source<B: Source + Drop>(
    alloc: Global,
    source: Result<B, ReadFault>,
) -> Result<Result<Interchange, OpenFault>, ReadFault>
    ensures opens { IfOk result (λ upload. OpensSource B.remaining source upload) }
    ensures read { IfOk result (λ upload. upload ≢ Err (OpenFault.Token TokenFault.Read)) }
    ensures fault { IfErr result (FaultComesOf (HasFailed B.origin B.failed) source) }
{
    let mut source = source?;
    let Ok(mut lender) = Lender::new(alloc) else {
        return Err(ReadFault::Memory);
    };
    let upload = open_lent(alloc, &mut lender, &mut source);
    unless_unread(upload)
}

// Uploads a file, and prints the reply. Returns its exit status.
fn import_file<S: Store, B: Source + Drop, W: Sink>(
    alloc: Global,
    hub: &mut Hub<S>,
    moment: Moment,
    caller: &Gln,
    key: &[u8],
    file: NextFile<B>,
    out: &mut W,
) -> Result<u8, ImportEnded>
    ensures looks_at { LooksAt B.remaining (HasFailed B.origin B.failed)
        (λ bytes. StepsFrom S.Store hub.old hub.new (input_of moment caller.now key.now (Upload bytes)))
        (hub.new ≡ hub.old) file (W.contents out.old) (W.contents out.new)
        (W.failed out.old) (W.failed out.new)
        result }
    ensures held { StaysSound S.Store hub.old hub.new }
    ensures register { hub.new.0 ≡ hub.old.0 }
    ensures was_honest { S.honest hub.new.1 → S.honest hub.old.1 }
{
    let NextFile::Named(file) = file else {
        print(FAULT, out)?;
        return Ok(FAILED);
    };
    let NamedFile { name, source } = file;
    print_file_line(name.as_str(), out)?;
    match open_source(alloc, source) {
        Ok(upload) => {
            let reply = hub.step_opened(moment, caller, key, upload);
            print_reply(&reply, out)
        }
        Err(fault) => print_fault(fault, out),
    }
}

/// Uploads files one after another, each as the caller with this GLN and this key, and prints for each the line `file
/// NAME` before it is read, and then the reply. A file is opened as it is read, one segment at a time, and at most
/// 1,048,577 of its bytes are. For a file that cannot be read the line `fault` replaces the reply, and for one whose
/// name cannot be printed, because it is not UTF-8 or has a control byte, this line is the only one; the next file
/// follows. A reply that is stopped ends the import, and so does running out of memory, with the line `stopped`, or a
/// failed write; the files after the last one then still come. What was accepted stays accepted.
///
/// Returns the exit status, the greatest of all files: of a reply 0, 1 or 3, as `reply_run` has it; 3 for a file that
/// cannot be read or has no name, for want of memory, and for a failed write.
pub fn import_run<S: Store, F: Files, W: Sink>(
    alloc: Global,
    hub: &mut Hub<S>,
    moment: Moment,
    caller: &Gln,
    key: &[u8],
    files: &mut F,
    out: &mut W,
) -> u8
    ensures imported { Imported F.Bytes.remaining (HasFailed F.Bytes.origin F.Bytes.failed)
        (RunsFrom S.Store hub.old hub.new) (λ bytes. input_of moment caller.now key.now (Upload bytes)) (F.remaining files.old)
        (F.remaining files.new) (W.contents out.old) (W.contents out.new) (W.failed out.old) (W.failed out.new) result }
    ensures held { StaysSound S.Store hub.old hub.new }
    ensures register { hub.new.0 ≡ hub.old.0 }
    ensures was_honest { S.honest hub.new.1 → S.honest hub.old.1 }
{
    hub.steps_are_a_run();
    let mut greatest = DONE;
    loop {
        let file = match files.next(alloc) {
            Ok(Some(file)) => file,
            Ok(None) => return greatest,
            Err(_) => {
                let _ = print(STOPPED, out);
                return FAILED;
            }
        };
        match import_file(alloc, hub, moment, caller, key, file, out) {
            Ok(status) => greatest = greatest.max(status),
            Err(ImportEnded) => return FAILED,
        }
    }
}
