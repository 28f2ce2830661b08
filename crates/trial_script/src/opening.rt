//! Opens the store of a hub.
use hub_register::Register;
use hub_sql::{FoundFault, SqliteStore};
use hub_store::{Store, StoreFault};
use sqlite_trees::memory::MemStore;
use std::alloc::Global;
use trial_lists::VecStore;

/// Opens the store of a hub.
pub trait Opener<S: Store>: Drop {
    /// Opens the store, with the rows that it has, or founded with those of this register.
    fn open(&mut self, rt: &HostRuntime, register: &Register) -> Result<S, FoundFault>;

    /// Reopens a store with what it kept; one that stopped before it was founded is founded with the rows of this
    /// register.
    fn again(&mut self, rt: &HostRuntime, register: &Register, store: S) -> Result<S, FoundFault>;

    /// Takes back a store that no hub uses. Gives it back if nothing of it is kept.
    fn take_back(&mut self, store: S) -> Option<S>;
}

/// Keeps the store in memory, with only the rows of the register.
#[derive(Drop)]
pub struct InMemory;

impl Opener<VecStore> for InMemory {
    fn open(&mut self, rt: &HostRuntime, register: &Register) -> Result<VecStore, FoundFault> {
        match VecStore::new(rt.alloc(), register) {
            Ok(store) => Ok(store),
            Err(_) => Err(FoundFault::Store(StoreFault::Memory)),
        }
    }

    fn again(
        &mut self,
        _rt: &HostRuntime,
        _register: &Register,
        store: VecStore,
    ) -> Result<VecStore, FoundFault> {
        Ok(store)
    }

    fn take_back(&mut self, store: VecStore) -> Option<VecStore> {
        Some(store)
    }
}

impl Opener<SqliteStore<MemStore>> for InMemory {
    fn open(
        &mut self,
        rt: &HostRuntime,
        register: &Register,
    ) -> Result<SqliteStore<MemStore>, FoundFault> {
        match SqliteStore::in_memory(rt.alloc(), register) {
            Ok(store) => Ok(store),
            Err(fault) => Err(FoundFault::Store(fault)),
        }
    }

    fn again(
        &mut self,
        _rt: &HostRuntime,
        _register: &Register,
        store: SqliteStore<MemStore>,
    ) -> Result<SqliteStore<MemStore>, FoundFault> {
        Ok(store)
    }

    fn take_back(&mut self, store: SqliteStore<MemStore>) -> Option<SqliteStore<MemStore>> {
        Some(store)
    }
}
