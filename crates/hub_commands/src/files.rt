//! Gives files one after another.
use edi_base::{MemoryFault, ReadFault, Source};
use std::alloc::Global;

/// A file that has a name.
#[derive(Debug, Drop)]
pub struct NamedFile<B> {
    /// Its name.
    pub name: String,
    /// What its bytes are read from; or why it could not be opened.
    pub source: Result<B, ReadFault>,
}

/// A file that comes.
#[derive(Debug, Drop)]
pub enum NextFile<B> {
    /// A file with its name.
    Named(NamedFile<B>),
    /// A file whose name cannot be printed: it is not UTF-8, or has a control byte.
    Unnamed,
}

/// Files that arrive one after another, each with the source of its bytes: first those with names, in the order of the
/// bytes of their names, then those whose names cannot be printed.
pub trait Files {
    ghost use Rattle.std.specs.Prelude.{ℕ, List, Option, None};
    ghost use Rattle.hub_commands.specs.Files.{GivesFile, GoesDown};
    ghost use Rattle.hub_commands.specs.declared.files.NextFile.{NextFile};

    /// What the bytes of a file are read from.
    type Bytes: Source + Drop;

    // The files that still come, if they are known.
    ghost remaining: { Self → Option (List (NextFile Self.Bytes)) } = { λ _. None };

    // How many still come at most.
    ghost most: { Self → ℕ };

    /// Returns the next file, if one still comes. Memory can run out while it is opened, which `NamedFile` says, or
    /// before its name is known, and then nothing has changed.
    fn next(&mut self, alloc: Global) -> Result<Option<NextFile<Self::Bytes>>, MemoryFault>
        ensures gives { GivesFile (remaining self.old) (remaining self.new) result }
        ensures goes_down { GoesDown (most self.old) (most self.new) result };
}
