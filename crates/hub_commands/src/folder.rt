//! Lists the plain files of a folder.
ghost use Rattle.std.specs.Prelude.{◌≡◌, ◌≢◌, ◌↔◌, false, IfOk, IsErr, IsOk, IsTrue, OnErr, IsSorted, string_cmp};
ghost use Rattle.std.specs.Fs.{IsFile, file_type};
ghost use Rattle.std.specs.List.{list_all};
ghost use Rattle.hub_commands.specs.Folder.{AreTold, is_plain_byte};

use crate::files::{Files, NamedFile, NextFile};
use edi_base::{MemoryFault, OfRead, ReadFault};
use std::alloc::Global;
use std::collections::VecDeque;
use std::fs::{File, FileType, Metadata};
use std::io::ErrorKind;
use std::marker::Model;
use std::rt::Files as FileSystem;
use std::{fs, io};

/// The plain files of a folder, by the names that it had when it was opened: in the order of the bytes of their names,
/// and then those whose names cannot be printed: they are not UTF-8, or have a control byte, with which a name could
/// forge a line of a reply. Contracts see the names that still come, and how many cannot be printed.
#[derive(Drop)]
pub struct Folder<'a, R> {
    system: &'a R,
    path: String,
    names: FileNames,
}

// The names that still come.
#[derive(Drop)]
struct FileNames {
    in_order: VecDeque<String>,
    // How many cannot be printed.
    unnamed: u64,
}

impl<'a, R> Model for Folder<'a, R> {
    ghost use Rattle.std.specs.Prelude.{ℕ, List, String};
    ghost use Rattle.std.specs.declared.alloc.Global.{Global};

    ghost Value = { List (String Global) × ℕ };

    ghost view = { λ folder. (folder.names.in_order.items, folder.names.unnamed) };
}

// Why something was not read, if the system says this.
fn fault_of_kind(kind: ErrorKind) -> ReadFault
    ensures memory { kind ≡ ErrorKind.OutOfMemory → result ≡ ReadFault.Memory }
    ensures other { kind ≢ ErrorKind.OutOfMemory → result ≡ ReadFault.Read }
{
    if kind == ErrorKind::OutOfMemory {
        ReadFault::Memory
    } else {
        ReadFault::Read
    }
}

// Why something was not read.
fn fault_of(error: io::Error) -> ReadFault {
    fault_of_kind(error.kind())
}

// Whether a name has no control byte.
fn is_told(name: &str) -> bool
    ensures { result ≡ list_all is_plain_byte name.now }
{
    name.bytes().all(|byte| byte >= 0x20 && byte != 0x7f)
}

// Whether an entry of this kind is a plain file. If its kind cannot be read it is taken for one, so that it is reported
// as a fault.
fn is_plain(kind: io::Result<FileType>) -> bool
    ensures known { IfOk kind (λ kind. IsTrue result ↔ IsFile kind) }
    ensures unknown { OnErr kind (IsTrue result) }
{
    match kind {
        Ok(kind) => kind.is_file(),
        Err(_) => true,
    }
}

// Whether what has this name now, after the listing, is a plain file; or why it is not read.
fn still_plain(found: io::Result<Metadata>) -> Result<(), ReadFault>
    ensures known { IfOk found (λ found. IsOk result ↔ IsFile (file_type found)) }
    ensures unknown { OnErr found (IsErr result) }
{
    let found = found.map_err(fault_of)?;
    if found.is_file() {
        Ok(())
    } else {
        Err(ReadFault::Read)
    }
}

// Returns the names of the plain files of a folder. Nothing else is known of an entry whose name is not UTF-8.
fn names_of<R: FileSystem + AllocGlobal + Clone + Drop>(
    system: &R,
    path: &str,
) -> io::Result<FileNames>
    ensures sorted { IfOk result (λ names. IsSorted string_cmp names.in_order.items) }
    ensures told { IfOk result (λ names. AreTold names.in_order.items) }
{
    let alloc = system.alloc();
    let mut names = Vec::new(alloc);
    let mut unnamed: u64 = 0;
    for entry in fs::read_dir(system, path)? {
        match entry {
            Ok(entry) => {
                if is_plain(entry.file_type()) {
                    let name = String::from_str(alloc, entry.file_name())?;
                    if is_told(name.as_str()) {
                        names.push(name)?;
                    } else {
                        unnamed = unnamed.saturating_add(1);
                    }
                }
            }
            Err(error) if error.kind() == ErrorKind::InvalidFilename => {
                unnamed = unnamed.saturating_add(1);
            }
            Err(error) => return Err(error),
        }
    }
    names.sort()?;
    Ok(FileNames {
        in_order: VecDeque::from(names),
        unnamed,
    })
}

impl<'a, R: FileSystem + AllocGlobal + Clone + Drop> Folder<'a, R> {
    /// Opens the folder at a path. Only its plain files are taken, and not what is in folders in it, nor links, pipes
    /// or devices; but anything is whose name is not UTF-8. Their names are read now, and are all in memory.
    pub fn open(system: &'a R, path: &str) -> Result<Self, ReadFault>
        ensures sorted { IfOk result (λ folder. IsSorted string_cmp folder.0) }
        ensures told { IfOk result (λ folder. AreTold folder.0) }
    {
        let names = names_of(system, path).map_err(fault_of)?;
        let path = String::from_str(system.alloc(), path)?;
        Ok(Folder {
            system,
            path,
            names,
        })
    }

    // Opens a file of the folder, if it is a plain file still: a pipe that took its place would be waited for. None of its
    // bytes are read.
    fn open_file(&self, alloc: Global, name: &str) -> Result<OfRead<R::File>, ReadFault>
        ensures { IfOk result (λ source. source.1 ≡ false) }
    {
        let path = format!(in alloc; "{}/{name}", self.path.as_str())?;
        still_plain(fs::symlink_metadata(self.system, path.as_str()))?;
        let file = File::open(self.system, path.as_str()).map_err(fault_of)?;
        Ok(OfRead::new(file))
    }
}

impl<'a, R: FileSystem + AllocGlobal + Clone + Drop> Files for Folder<'a, R> {
    ghost use Rattle.std.specs.Prelude.{None};
    ghost use Rattle.hub_commands.specs.Files.{GivesFile, GoesDown};
    ghost use Rattle.hub_commands.specs.Folder.{GivesInOrder, most_of};

    type Bytes = OfRead<R::File>;

    ghost most = { most_of };

    fn next(&mut self, alloc: Global) -> Result<Option<NextFile<OfRead<R::File>>>, MemoryFault>
        ensures gives { GivesFile None None result }
        ensures goes_down { GoesDown (most_of self.old) (most_of self.new) result }
        ensures in_order { GivesInOrder self.old self.new result }
    {
        match self.names.in_order.pop_front() {
            Some(name) => {
                let source = self.open_file(alloc, name.as_str());
                Ok(Some(NextFile::Named(NamedFile { name, source })))
            }
            None if self.names.unnamed == 0 => Ok(None),
            None => {
                self.names.unnamed -= 1;
                Ok(Some(NextFile::Unnamed))
            }
        }
    }
}
