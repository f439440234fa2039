//! A folder of a tree, as a tree: what a master is seen as.
//!
//! Each call makes one call of the tree below.
ghost use Rattle.std.specs.Prelude.{◌≡◌, ◌≤◌, ◌∷◌, IfOk, OnOk, IsErrOf, IfSome};
ghost use Rattle.gv_base.specs.Causes.{Rose};
ghost use Rattle.gv_base.specs.Listing.{IsListing, is_folder};
ghost use Rattle.gv_base.specs.Outside.{found_as, found_at, most_file_bytes, HasAtMost, IsLarge};
ghost use Rattle.gv_views.specs.Views.{folder_told};

use crate::inner::{names_in, read_in};
use gv_base::{Found, NoMemory, Text, Texts, Tree, TreeFault, in_order_law};
use std::alloc::Global;

/// A folder of a tree. Its files are those below the folder, by their paths in it, where they are told, and its faults are those
/// of the tree below.
#[derive(Drop)]
pub struct FolderTree<'a, T: Tree> {
    /// The tree below.
    pub tree: &'a mut T,
    /// The folder's path.
    pub folder: &'a Text,
}

impl<T: Tree> Tree for FolderTree<'_, T> {
    ghost files = { λ t. folder_told (T.files t.tree.now) t.folder.now };

    ghost faults = { λ t. T.faults t.tree.now };

    ghost failed_at = { λ t _. 1 ≤ T.faults t.tree.now };

    ghost entered = { λ t. T.entered t.tree.now };

    ghost lent = { λ t. (t.tree.ghost_name, T.files t.tree.now) ∷ T.lent t.tree.now };

    fn enter(&mut self, alloc: Global, root: &Text) -> Result<(), NoMemory> {
        self.tree.enter(alloc, root)
    }

    fn read(&mut self, alloc: Global, path: &Text) -> Result<Found, TreeFault> {
        read_folder(alloc, self.tree, self.folder, path)
    }

    fn list(&mut self, alloc: Global, path: &Text) -> Result<Texts, TreeFault> {
        list_folder(alloc, self.tree, self.folder, path)
    }
}

// What is at a path of the folder, as files of its own.
#[tactic(auto, using(crate::proofs::FolderViews::found_folder, crate::proofs::FolderViews::large_folder))]
fn read_folder<T: Tree>(
    alloc: Global,
    tree: &mut T,
    folder: &Text,
    path: &Text,
) -> Result<Found, TreeFault>
    ensures found { IfOk result (λ found. IfSome (folder_told (T.files tree.old) folder.now) (λ files. found ≡ found_at files path.now)) }
    ensures small { IfOk result (HasAtMost most_file_bytes) }
    ensures large { IsErrOf result TreeFault.TooLarge → IfSome (folder_told (T.files tree.old) folder.now) (λ files. IsLarge most_file_bytes files path.now) }
    ensures files { T.files tree.new ≡ T.files tree.old }
    ensures root { T.entered tree.new ≡ T.entered tree.old }
    ensures lent { T.lent tree.new ≡ T.lent tree.old }
    ensures later { T.faults tree.old ≤ T.faults tree.new }
    ensures calm { OnOk result (T.faults tree.new ≡ T.faults tree.old) }
    ensures calm_large { IsErrOf result TreeFault.TooLarge → T.faults tree.new ≡ T.faults tree.old }
    ensures failed { IsErrOf result TreeFault.Failed → Rose (T.faults tree.old) (T.faults tree.new) }
{
    match read_in(alloc, tree, folder, path) {
        Ok(found) => Ok(found),
        Err(fault) => Err(fault),
    }
}

// The names below a path of the folder, as files of its own.
#[tactic(auto, using(crate::proofs::FolderViews::names_folder))]
fn list_folder<T: Tree>(
    alloc: Global,
    tree: &mut T,
    folder: &Text,
    path: &Text,
) -> Result<Texts, TreeFault>
    ensures parts { IfOk result (λ parts. IfSome (folder_told (T.files tree.old) folder.now) (λ files. IsListing files path.now parts)) }
    ensures never_large { IsErrOf result TreeFault.TooLarge → ⊥ }
    ensures files { T.files tree.new ≡ T.files tree.old }
    ensures root { T.entered tree.new ≡ T.entered tree.old }
    ensures lent { T.lent tree.new ≡ T.lent tree.old }
    ensures later { T.faults tree.old ≤ T.faults tree.new }
    ensures calm { OnOk result (T.faults tree.new ≡ T.faults tree.old) }
    ensures failed { IsErrOf result TreeFault.Failed → Rose (T.faults tree.old) (T.faults tree.new) }
{
    in_order_law();
    match names_in(alloc, tree, folder, path) {
        Ok(names) => Ok(names),
        Err(fault) => Err(fault),
    }
}
