//! What a table that is made has in place of an outside.

ghost use Rattle.std.specs.Prelude.{◌≡◌, IfOk};
ghost use Rattle.std.specs.FinMap.{empty};

use fb_outside::{Failed, MemStore, Source, Store, Trouble};
use std::alloc::{AllocError, Global};
use std::marker::Model;

/// A store in memory of which no call fails. Contracts see it as the store in memory.
#[derive(Drop)]
pub(crate) struct OwnStore {
    store: MemStore,
}

impl Model for OwnStore {
    ghost use Rattle.std.specs.Prelude.{◌≡◌, []};
    ghost use Rattle.fb_outside.specs.Memory.{StoreState};

    ghost Value = { StoreState };

    ghost view = { λ s. s.store };

    ghost invariant = { λ s. s.store.counted.fails ≡ [] };
}

impl OwnStore {
    ghost use Rattle.fb_outside.specs.Memory.{files_of};

    /// A store without files.
    pub(crate) fn make(alloc: Global) -> Result<OwnStore, AllocError>
        ensures { IfOk result (λ store. files_of store ≡ empty) }
    {
        let store = MemStore::make(alloc, &[], 0)?;
        Ok(OwnStore { store })
    }
}

impl Store for OwnStore {
    ghost use Rattle.std.specs.Prelude.{Some, None};
    ghost use Rattle.fb_outside.specs.Memory.{files_of};

    ghost faults = { λ _. 0 };

    ghost files = { λ s. Some (files_of s) };

    ghost reads = { λ _. None };

    fn len(&mut self, name: &str) -> Result<Option<u64>, Failed> {
        self.store.len(name)
    }

    fn read_at(&mut self, name: &str, at: u64, buf: &mut [u8]) -> Result<usize, Failed> {
        self.store.read_at(name, at, buf)
    }

    fn put(&mut self, name: &str, bytes: &[u8]) -> Result<(), Trouble> {
        self.store.put(name, bytes)
    }
}

/// An input that has nothing.
#[derive(Drop)]
pub(crate) struct NoInput;

impl Source for NoInput {
    ghost use Rattle.std.specs.Prelude.{Some, []};

    ghost faults = { λ _. 0 };

    ghost left = { λ _. Some [] };

    fn take(&mut self, _buf: &mut [u8]) -> Result<usize, Failed> {
        Ok(0)
    }
}
