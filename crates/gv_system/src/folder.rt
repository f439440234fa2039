//! A folder of the system as a tree.
ghost use Rattle.std.specs.Prelude.{◌≡◌, ◌≤◌, [], IfSome, None, Some};
ghost use Rattle.gv_base.specs.Causes.{Rose};

use crate::reading::{look, names};
use crate::trouble::Trouble;
use gv_base::{Found, NoMemory, Text, Texts, Tree, TreeFault};
use std::alloc::Global;
use std::rt::Files;

/// A folder of the system. The path of the last call that failed is noted, where memory is there for it.
#[derive(Drop)]
pub struct FsTree<R: Files + AllocGlobal + Clone + Drop> {
    rt: R,
    root: Text,
    faults: u64,
    failed: Option<Text>,
}

impl<R: Files + AllocGlobal + Clone + Drop> FsTree<R> {
    /// The folder, which has not failed yet.
    pub fn new(rt: R, root: Text) -> Self
        ensures rt { result.rt ≡ rt }
        ensures root { result.root ≡ root }
        ensures faults { result.faults ≡ 0 }
    {
        FsTree {
            rt,
            root,
            faults: 0,
            failed: None,
        }
    }

    // Counts a fault, and notes where it was.
    fn failed(&mut self, alloc: Global, path: &Text) -> TreeFault
        ensures fault { result ≡ TreeFault.Failed }
        ensures rose { Rose self.old.faults self.new.faults }
        ensures noted { IfSome self.new.failed (λ noted. noted ≡ path.now) }
        ensures later { self.old.faults ≤ self.new.faults }
        ensures root { self.new.root ≡ self.old.root }
    {
        self.faults = self.faults.saturating_add(1);
        self.failed = path.copy(alloc).ok();
        TreeFault::Failed
    }
}

// The path under the root.
fn full_path(alloc: Global, root: &Text, path: &Text) -> Result<String, Trouble> {
    let length = root.bytes().len().saturating_add(path.bytes().len());
    let Ok(mut bytes) = Vec::with_capacity(alloc, length.saturating_add(1)) else {
        return Err(Trouble::NoMemory);
    };
    if bytes.extend_from_slice(root.bytes()).is_err()
        || bytes.push(b'/').is_err()
        || bytes.extend_from_slice(path.bytes()).is_err()
    {
        return Err(Trouble::NoMemory);
    }
    String::from_utf8(bytes).map_err(|_| Trouble::Other)
}

impl<R: Files + AllocGlobal + Clone + Drop> Tree for FsTree<R> {
    ghost files = { λ _. None };

    ghost faults = { λ t. t.faults };

    ghost failed_at = { λ t path. IfSome t.failed (λ failed. failed ≡ path) };

    ghost entered = { λ t. Some t.root };

    ghost lent = { λ _. [] };

    fn enter(&mut self, alloc: Global, root: &Text) -> Result<(), NoMemory> {
        self.root = root.copy(alloc)?;
        Ok(())
    }

    fn read(&mut self, alloc: Global, path: &Text) -> Result<Found, TreeFault> {
        let found = match full_path(alloc, &self.root, path) {
            Ok(full) => look(&self.rt, alloc, &full),
            Err(trouble) => Err(trouble),
        };
        match found {
            Ok(found) => Ok(found),
            Err(Trouble::NotThere) => Ok(Found::Absent),
            Err(Trouble::TooLarge) => Err(TreeFault::TooLarge),
            Err(Trouble::NoMemory) => Err(TreeFault::NoMemory),
            Err(_) => Err(self.failed(alloc, path)),
        }
    }

    fn list(&mut self, alloc: Global, path: &Text) -> Result<Texts, TreeFault> {
        let found = match full_path(alloc, &self.root, path) {
            Ok(full) => names(&self.rt, alloc, &full),
            Err(trouble) => Err(trouble),
        };
        match found {
            Ok(names) => Ok(names),
            Err(Trouble::NotThere) => Ok(Texts::new(alloc)),
            Err(Trouble::NoMemory) => Err(TreeFault::NoMemory),
            Err(_) => Err(self.failed(alloc, path)),
        }
    }
}
