ghost use Rattle.std.specs.Prelude.{◌≡◌, ◌==◌, ◌++◌, ◌∷◌, [], length, IfOk, IfErr, OnOk, OnErr};

use crate::memory::MemoryFault;
use std::alloc::{AllocFailed, Global};
use std::marker::Model;

/// A vector that contracts see as the list of its items.
#[derive(Debug, Drop)]
pub struct Items<T> {
    vector: Vec<T>,
}

impl<T> Model for Items<T> {
    ghost use Rattle.std.specs.Prelude.{List};

    ghost Value = { List T };

    ghost view = { λ a. a.vector.items };
}

impl<T> Items<T> {
    /// Makes an empty list, without allocating memory.
    pub fn new(alloc: Global) -> Self
        ensures { result ≡ [] }
    {
        Items {
            vector: Vec::new(alloc),
        }
    }

    /// Takes over the items of a vector, in their order, without allocating memory.
    pub fn from_vec(vector: Vec<T>) -> Self
        ensures { result ≡ vector.items }
    {
        Items { vector }
    }

    /// Returns the items as a vector, without allocating memory.
    pub fn into_vec(self) -> Vec<T>
        ensures { result.items ≡ self }
    {
        let Items { vector } = self;
        vector
    }

    /// Returns the items as a slice.
    pub fn as_slice(&self) -> &[T]
        ensures { result.now ≡ self.now }
    {
        self.vector.as_slice()
    }

    /// Returns how many items there are.
    pub fn len(&self) -> usize
        ensures { result ≡ length self.now }
    {
        self.vector.len()
    }

    /// Whether there are no items.
    pub fn is_empty(&self) -> bool
        ensures { result ≡ (length self.now == 0) }
    {
        self.vector.is_empty()
    }

    /// Appends an item. If memory is refused, the item is given back.
    pub fn push(&mut self, item: T) -> Result<(), AllocFailed<T>>
        ensures ok { OnOk result (self.new ≡ self.old ++ item ∷ []) }
        ensures err { OnErr result (self.new ≡ self.old) }
        ensures back { IfErr result (λ refused. refused.value ≡ item) }
    {
        self.vector.push(item)
    }
}

/// Copies bytes.
pub fn copy_bytes(alloc: Global, bytes: &[u8]) -> Result<Items<u8>, MemoryFault>
    ensures { IfOk result (λ copy. copy ≡ bytes.now) }
{
    Ok(Items::from_vec(Vec::from_slice(alloc, bytes)?))
}
