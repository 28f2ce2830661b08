//! Reads the requests of a script.
use crate::fault::ScriptFault;
use crate::script::{LineWords, Script};
use edi_base::copy_bytes;
use gs1_ids::Prefix;
use hub_core::{Join, Request, read_cancel};
use std::alloc::Global;

// Reads the number of a mailbox entry.
fn number(words: &mut LineWords<'_>) -> Result<u64, ScriptFault> {
    words.next_number().ok_or(ScriptFault::Line)
}

fn after(words: &mut LineWords<'_>) -> Result<Option<Request>, ScriptFault> {
    Ok(Some(Request::MailAfter(number(words)?)))
}

fn item(words: &mut LineWords<'_>) -> Result<Option<Request>, ScriptFault> {
    Ok(Some(Request::MailItem(number(words)?)))
}

fn taken(words: &mut LineWords<'_>) -> Result<Option<Request>, ScriptFault> {
    Ok(Some(Request::MailTaken(number(words)?)))
}

fn upload(
    alloc: Global,
    words: &mut LineWords<'_>,
    script: &mut Script<'_>,
) -> Result<Option<Request>, ScriptFault> {
    let bytes = copy_bytes(alloc, payload(words, script)?)?;
    Ok(Some(Request::Upload(bytes)))
}

fn status_of(words: &mut LineWords<'_>) -> Result<Option<Request>, ScriptFault> {
    match words.next_gln() {
        Some(supplier) => Ok(Some(Request::StatusOf(supplier))),
        None => Err(ScriptFault::Line),
    }
}

fn cancel(
    alloc: Global,
    words: &mut LineWords<'_>,
    script: &mut Script<'_>,
) -> Result<Option<Request>, ScriptFault> {
    match read_cancel(alloc, payload(words, script)?)? {
        Some(cancel) => Ok(Some(Request::Cancel(cancel))),
        None => Err(ScriptFault::Line),
    }
}

// Reads company prefixes that are separated by commas.
fn prefixes_of(alloc: Global, word: &[u8]) -> Result<Vec<Prefix>, ScriptFault> {
    let mut prefixes = Vec::new(alloc);
    for text in word.split(|byte| *byte == b',') {
        let prefix = Prefix::parse(text).ok_or(ScriptFault::Line)?;
        prefixes.push(prefix).map_err(|_| ScriptFault::Memory)?;
    }
    Ok(prefixes)
}

fn join(alloc: Global, words: &mut LineWords<'_>) -> Result<Option<Request>, ScriptFault> {
    let supplier = words.next_gln().ok_or(ScriptFault::Line)?;
    let key = words.next_word();
    let prefixes = prefixes_of(alloc, words.next_word())?;
    match Join::new(alloc, supplier, key, prefixes.as_slice())? {
        Some(join) => Ok(Some(Request::Join(join))),
        None => Err(ScriptFault::Line),
    }
}

/// Returns the request of a line that begins with this word; `None` if the word begins no request.
pub fn request_of(
    alloc: Global,
    word: &[u8],
    words: &mut LineWords<'_>,
    script: &mut Script<'_>,
) -> Result<Option<Request>, ScriptFault> {
    match word {
        b"upload" => upload(alloc, words, script),
        b"after" => after(words),
        b"item" => item(words),
        b"taken" => taken(words),
        b"status" => Ok(Some(Request::Status)),
        b"status-of" => status_of(words),
        b"cancel" => cancel(alloc, words, script),
        b"join" => join(alloc, words),
        _ => Ok(None),
    }
}

/// Returns the bytes that follow a line; its next word is their number.
pub fn payload<'a>(
    words: &mut LineWords<'_>,
    script: &mut Script<'a>,
) -> Result<&'a [u8], ScriptFault> {
    let count = words.next_count().ok_or(ScriptFault::Line)?;
    script.next_bytes(count).ok_or(ScriptFault::Line)
}
