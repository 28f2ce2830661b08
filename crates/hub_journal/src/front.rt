//! Keeps the first bytes of a text in a fixed space.
ghost use Rattle.std.specs.Prelude.{◌≡◌, ◌+◌, ◌≤◌, ◌==◌, [], ◌++◌, length, take};
ghost use Rattle.hub_journal.specs.Front.{kept};

use std::marker::Model;

/// The most bytes that are kept.
const ROOM: usize = 2_400;

/// The first bytes of a text, at most 2,400. Contracts see them as a list. No memory is allocated.
#[derive(Drop)]
pub struct Front {
    bytes: [u8; ROOM],
    filled: usize,
}

impl Model for Front {
    ghost use Rattle.std.specs.Prelude.{ℕ, List, take, ◌≤◌};

    ghost Value = { List ℕ };

    ghost view = { λ f. take f.filled f.bytes };

    ghost invariant = { λ f. f.filled ≤ 2400 };
}

impl Front {
    /// Makes an empty one.
    pub fn new() -> Self
        ensures { result ≡ [] }
    {
        Front {
            bytes: [0; ROOM],
            filled: 0,
        }
    }

    /// Keeps as many of these bytes as there is room for.
    pub fn keep(&mut self, bytes: &[u8])
        ensures { self.new ≡ kept self.old bytes.now }
    {
        let count = bytes.len().min(ROOM - self.filled);
        self.append(&bytes[..count]);
    }

    fn append(&mut self, bytes: &[u8])
        requires { length self.old + length bytes.now ≤ 2400 }
        ensures { self.new ≡ self.old ++ bytes.now }
    {
        let end = self.filled + bytes.len();
        self.bytes[self.filled..end].copy_from_slice(bytes);
        self.filled = end;
    }

    /// Keeps only the first `most` of the bytes.
    pub(crate) fn cut(&mut self, most: usize)
        ensures { self.new ≡ take most self.old }
    {
        self.filled = self.filled.min(most);
    }

    /// Returns the bytes that are kept.
    pub fn as_slice(&self) -> &[u8]
        ensures value { result.now ≡ self.now }
        ensures within { length result.now ≤ 2400 }
    {
        &self.bytes[..self.filled]
    }
}
