//! Files of the system as a store.
ghost use Rattle.std.specs.Prelude.{◌≡◌, ◌≤◌, None};
ghost use Rattle.gv_base.specs.Causes.{Rose};

use crate::reading::stored;
use crate::replacing::replace_file;
use crate::trouble::Trouble;
use gv_base::{Store, StoreFault, Text};
use std::alloc::Global;
use std::fs::File;
use std::rt::Files;

/// Files of the system, by their paths. Names of the form `FILE.newN`, N from 0 to 999, are the store's own beside a file that
/// it replaces, and no files that it keeps: one that an ended run left goes with the next `replace` of FILE.
#[derive(Drop)]
pub struct FsStore<R: Files<File = File> + AllocGlobal + Clone + Drop> {
    rt: R,
    faults: u64,
}

impl<R: Files<File = File> + AllocGlobal + Clone + Drop> FsStore<R> {
    /// All files, none of which has failed yet.
    pub fn new(rt: R) -> Self
        ensures rt { result.rt ≡ rt }
        ensures faults { result.faults ≡ 0 }
    {
        FsStore { rt, faults: 0 }
    }

    // Counts a fault.
    fn failed(&mut self) -> StoreFault
        ensures fault { result ≡ StoreFault.Failed }
        ensures rose { Rose self.old.faults self.new.faults }
        ensures later { self.old.faults ≤ self.new.faults }
    {
        self.faults = self.faults.saturating_add(1);
        StoreFault::Failed
    }
}

impl<R: Files<File = File> + AllocGlobal + Clone + Drop> Store for FsStore<R> {
    ghost files = { λ _. None };

    ghost faults = { λ s. s.faults };

    fn fetch(&mut self, alloc: Global, path: &Text) -> Result<Option<Text>, StoreFault> {
        let found = match std::str::from_utf8(path.bytes()) {
            Ok(path) => stored(&self.rt, alloc, path),
            Err(_) => Err(Trouble::Other),
        };
        match found {
            Ok(bytes) => Ok(bytes),
            Err(Trouble::NotThere) => Ok(None),
            Err(Trouble::NoMemory) => Err(StoreFault::NoMemory),
            Err(_) => Err(self.failed()),
        }
    }

    fn replace(&mut self, alloc: Global, path: &Text, bytes: &Text) -> Result<(), StoreFault> {
        let replaced = match std::str::from_utf8(path.bytes()) {
            Ok(path) => replace_file(&self.rt, alloc, path, bytes.bytes()),
            Err(_) => Err(Trouble::Other),
        };
        match replaced {
            Ok(()) => Ok(()),
            Err(Trouble::NoMemory) => Err(StoreFault::NoMemory),
            Err(_) => Err(self.failed()),
        }
    }
}
