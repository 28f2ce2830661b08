//! Keeps the journal of a served hub in a file.
use hub_journal::Journal;
use std::fs::{Metadata, OpenOptions};
use std::io::{Error, ErrorKind, Write};
use std::os::unix::fs::{MetadataExt, OpenOptionsExt};
use std::path::Path;
use std::{fs, io};

// The mode of a new journal: only its owner may read and write it.
const OWNER_ALONE: u32 = 0o600;

// The endings of the files that SQLite has beside a database: it would take a journal with such a name for its own.
const BESIDE: [&str; 3] = ["-journal", "-wal", "-shm"];

// Whether a file with this name would be one of those beside the database.
fn is_beside(path: &str, db: &str) -> bool {
    let (Some(name), Some(db)) = (Path::new(path).file_name(), Path::new(db).file_name()) else {
        return false;
    };
    match name.strip_prefix(db) {
        Some(rest) => BESIDE.iter().any(|ending| *ending == rest),
        None => false,
    }
}

/// The journal in the file at a path. The file is opened again for each line, so it can be renamed meanwhile.
#[derive(Drop)]
pub(crate) struct FileJournal<'a> {
    rt: &'a HostRuntime,
    path: &'a str,
    db: &'a str,
    has_failed: bool,
}

impl<'a> FileJournal<'a> {
    /// Names the journal of the hub in this database file. No line has been written yet.
    pub(crate) fn at(rt: &'a HostRuntime, path: &'a str, db: &'a str) -> Self {
        FileJournal {
            rt,
            path,
            db,
            has_failed: false,
        }
    }

    // Whether this is the database file.
    fn is_database(&self, found: &Metadata) -> bool {
        match fs::metadata(self.rt, self.db) {
            Ok(db) => found.dev() == db.dev() && found.ino() == db.ino(),
            Err(_) => false,
        }
    }

    // Whether lines can be added under the journal's name: it is a file, but not the database, nor one of the files
    // beside it. Opening a pipe that nobody reads could wait without end.
    fn takes_lines(&self) -> bool {
        if is_beside(self.path, self.db) {
            return false;
        }
        match fs::metadata(self.rt, self.path) {
            Ok(found) => found.is_file() && !self.is_database(&found),
            Err(_) => true,
        }
    }

    // Adds a line in one write.
    fn add(&self, line: &[u8]) -> io::Result<()> {
        if !self.takes_lines() {
            return Err(Error::from(ErrorKind::Other));
        }
        let mut file = OpenOptions::new()
            .append(true)
            .create(true)
            .mode(OWNER_ALONE)
            .open(self.rt, self.path)?;
        if file.write(line)? < line.len() {
            return Err(Error::from(ErrorKind::WriteZero));
        }
        Ok(())
    }
}

impl<'a> Journal for FileJournal<'a> {
    // Only the first line that cannot be written is reported, and the connections go on.
    fn append(&mut self, line: &[u8]) {
        if self.add(line).is_err() && !self.has_failed {
            self.has_failed = true;
            let _ = self.rt.eprintln("journal");
        }
    }
}
