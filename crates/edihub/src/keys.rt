//! Reads the keys of a command before the hub is opened.
use crate::fault::{BeginFault, KeyFault};
use edi_base::OfRead;
use edi_envelope::Moment;
use gs1_ids::Gln;
use hub_app::{HubTask, HubWords, JoinByFile, KeyWord};
use hub_commands::{Request, read_key};
use std::fs::File;

/// What a command does with the hub.
#[derive(Drop)]
pub(crate) enum Task<'a> {
    /// Uploads what is in this folder.
    Import(&'a str),
    /// Makes one request.
    Ask(Request),
}

/// What a command asks of a hub.
#[derive(Drop)]
pub(crate) struct KeyRequest<'a> {
    /// The path of the database's file.
    pub(crate) db: &'a str,
    /// The caller.
    pub(crate) caller: Gln,
    /// The caller's key.
    pub(crate) key: Vec<u8>,
    /// The moment of the command; now if there is none.
    pub(crate) moment: Option<Moment>,
    /// What is asked.
    pub(crate) task: Task<'a>,
}

/// Returns the key in the file at a path.
pub(crate) fn key_at(rt: &HostRuntime, path: &str) -> Result<Vec<u8>, BeginFault> {
    let file = File::open(rt, path).map_err(|_| BeginFault::File)?;
    Ok(read_key(rt.alloc(), &mut OfRead::new(file))?)
}

// Returns the key that is given, or the one in the given file.
fn key_of(rt: &HostRuntime, word: KeyWord<'_>) -> Result<Vec<u8>, BeginFault> {
    match word {
        KeyWord::Given(key) => Ok(Vec::from_slice(rt.alloc(), key.as_bytes())?),
        KeyWord::InFile(path) => key_at(rt, path),
    }
}

// Returns the request to register a supplier whose key is in a file.
fn join_of(rt: &HostRuntime, words: &JoinByFile<'_>) -> Result<Request, KeyFault> {
    let key = key_at(rt, words.key_file)?;
    match words.with_key(rt.alloc(), key.as_slice())? {
        Some(join) => Ok(Request::Join(join)),
        None => Err(KeyFault::Refused),
    }
}

// Returns what a command does, with the key of a supplier that joins.
fn task_of<'a>(rt: &HostRuntime, task: HubTask<'a>) -> Result<Task<'a>, KeyFault> {
    match task {
        HubTask::Import(folder) => Ok(Task::Import(folder)),
        HubTask::Ask(request) => Ok(Task::Ask(request)),
        HubTask::JoinByFile(words) => {
            let request = join_of(rt, &words)?;
            Ok(Task::Ask(request))
        }
    }
}

/// Returns what the words of a command ask, with the keys that are in files. The caller's key is read first.
pub(crate) fn with_keys<'a>(
    rt: &HostRuntime,
    words: HubWords<'a>,
) -> Result<KeyRequest<'a>, KeyFault> {
    let HubWords {
        db,
        caller,
        key,
        moment,
        task,
    } = words;
    Ok(KeyRequest {
        db,
        caller,
        key: key_of(rt, key)?,
        moment,
        task: task_of(rt, task)?,
    })
}
