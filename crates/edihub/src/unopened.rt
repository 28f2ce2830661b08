//! Looks at the path of a database before it is opened. Opening a path makes files, even if there is no database.
use hub_store::StoreFault;
use std::fs::{self, File};
use std::io::{ErrorKind, Read};
use std::path::Path;

// What a database file begins with.
const HEAD: [u8; 16] = *b"SQLite format 3\0";

// Whether a file can be made in the folder of a path, and nothing is there.
fn is_missing(rt: &HostRuntime, path: &str) -> bool {
    let path = Path::new(path);
    let folder = match path.parent() {
        Some(folder) if folder.as_str() != "" => folder,
        _ => Path::new("."),
    };
    folder.is_dir(rt) && matches!(path.try_exists(rt), Ok(false))
}

// Returns how many bytes a file has, or `None` if no plain file is there.
fn file_size(rt: &HostRuntime, path: &str) -> Option<u64> {
    match fs::metadata(rt, path) {
        Ok(found) if found.is_file() => Some(found.len()),
        _ => None,
    }
}

// Whether something was written to the log beside a database, so that only opening it tells what it holds.
fn has_log(rt: &HostRuntime, path: &str) -> bool {
    match format!(in rt.alloc(); "{path}-wal") {
        Ok(log) => file_size(rt, log.as_str()) != Some(0) && !is_missing(rt, log.as_str()),
        Err(_) => true,
    }
}

// Whether a file begins as a database does. Opening a file that cannot be read says so.
fn begins_as_database(rt: &HostRuntime, path: &str) -> bool {
    let Ok(mut file) = File::open(rt, path) else {
        return true;
    };
    let mut head = [0; 16];
    match file.read_exact(&mut head) {
        Ok(()) => head == HEAD,
        Err(error) => error.kind() != ErrorKind::UnexpectedEof,
    }
}

/// Returns the fault of a path at which there is no hub, if this can be seen without opening it: `Version` if nothing is
/// there or an empty file, `Disk` if another file is.
pub(crate) fn fault_at(rt: &HostRuntime, path: &str) -> Option<StoreFault> {
    if is_missing(rt, path) {
        return Some(StoreFault::Version);
    }
    let Some(size) = file_size(rt, path) else {
        return None;
    };
    if has_log(rt, path) {
        return None;
    }
    if size == 0 {
        return Some(StoreFault::Version);
    }
    if begins_as_database(rt, path) {
        return None;
    }
    Some(StoreFault::Disk)
}
