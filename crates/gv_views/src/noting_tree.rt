//! A tree that notes the path of the call that failed.
//!
//! A call costs what that of the tree below costs, and one that fails a copy of the path.
ghost use Rattle.std.specs.Prelude.{◌≡◌, ◌≤◌, ◌∷◌, IfOk, IfSome, OnOk, IsErrOf};
ghost use Rattle.gv_base.specs.Causes.{Rose};

use gv_base::{Found, NoMemory, Text, Texts, Tree, TreeFault};
use std::alloc::Global;

/// A tree, and where the path of the last call that failed is noted, if memory is there for it. Its files and its faults are those of
/// the tree below.
#[derive(Drop)]
pub struct NotingTree<'a, T: Tree> {
    /// The tree below.
    pub tree: &'a mut T,
    /// The path of the last call that failed.
    pub failed: &'a mut Option<Text>,
}

impl<T: Tree> Tree for NotingTree<'_, T> {
    ghost files = { λ t. T.files t.tree.now };

    ghost faults = { λ t. T.faults t.tree.now };

    ghost failed_at = { λ t path. IfSome t.failed.now (λ failed. failed ≡ path) };

    ghost entered = { λ t. T.entered t.tree.now };

    ghost lent = { λ t. (t.tree.ghost_name, T.files t.tree.now) ∷ T.lent t.tree.now };

    fn enter(&mut self, alloc: Global, root: &Text) -> Result<(), NoMemory> {
        self.tree.enter(alloc, root)
    }

    fn read(&mut self, alloc: Global, path: &Text) -> Result<Found, TreeFault> {
        match self.tree.read(alloc, path) {
            Ok(found) => Ok(found),
            Err(fault) => {
                note(alloc, self.failed, path, fault);
                Err(fault)
            }
        }
    }

    fn list(&mut self, alloc: Global, path: &Text) -> Result<Texts, TreeFault> {
        match self.tree.list(alloc, path) {
            Ok(names) => Ok(names),
            Err(fault) => {
                note(alloc, self.failed, path, fault);
                Err(fault)
            }
        }
    }
}

fn note(alloc: Global, failed: &mut Option<Text>, path: &Text, fault: TreeFault)
    ensures { fault ≡ TreeFault.Failed → IfSome failed.new (λ noted. noted ≡ path.now) }
{
    if fault == TreeFault::Failed {
        *failed = path.copy(alloc).ok();
    }
}
