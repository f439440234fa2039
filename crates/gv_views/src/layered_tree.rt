//! An overlay over its masters, as a tree.
//!
//! Costs what `reading` and `listing` say.
ghost use Rattle.std.specs.Prelude.{◌≡◌, ◌≤◌, ◌∷◌, IfOk, OnOk, IsErrOf, IfSome};
ghost use Rattle.gv_base.specs.Causes.{Rose};
ghost use Rattle.gv_base.specs.Listing.{IsListing, is_folder};
ghost use Rattle.gv_base.specs.Outside.{found_as, found_at, most_file_bytes, HasAtMost, IsLarge};
ghost use Rattle.gv_views.specs.Views.{layered_told};

use crate::layers::Layers;
use crate::listing::names_layered;
use crate::reading::read_layered;
use gv_base::{Found, NoMemory, Text, Texts, Tree, TreeFault};
use std::alloc::Global;

/// An overlay over its masters. Its files are those of the folders, as the layers say, where they are told, and its faults are those
/// of the tree below.
#[derive(Drop)]
pub struct LayeredTree<'a, T: Tree> {
    /// The tree below.
    pub tree: &'a mut T,
    /// From which folders each part is taken.
    pub layers: &'a Layers,
}

impl<T: Tree> Tree for LayeredTree<'_, T> {
    ghost files = { λ t. layered_told (T.files t.tree.now) t.layers.now };

    ghost faults = { λ t. T.faults t.tree.now };

    ghost failed_at = { λ t _. 1 ≤ T.faults t.tree.now };

    ghost entered = { λ t. T.entered t.tree.now };

    ghost lent = { λ t. (t.tree.ghost_name, T.files t.tree.now) ∷ T.lent t.tree.now };

    fn enter(&mut self, alloc: Global, root: &Text) -> Result<(), NoMemory> {
        self.tree.enter(alloc, root)
    }

    fn read(&mut self, alloc: Global, path: &Text) -> Result<Found, TreeFault> {
        read_overlay(alloc, self.tree, self.layers, path)
    }

    fn list(&mut self, alloc: Global, path: &Text) -> Result<Texts, TreeFault> {
        list_overlay(alloc, self.tree, self.layers, path)
    }
}

#[tactic(auto, using(crate::proofs::LayeredViews::found_layered, crate::proofs::LayeredViews::large_layered))]
fn read_overlay<T: Tree>(
    alloc: Global,
    tree: &mut T,
    layers: &Layers,
    path: &Text,
) -> Result<Found, TreeFault>
    ensures found { IfOk result (λ found. IfSome (layered_told (T.files tree.old) layers.now) (λ files. found ≡ found_at files path.now)) }
    ensures small { IfOk result (HasAtMost most_file_bytes) }
    ensures large { IsErrOf result TreeFault.TooLarge → IfSome (layered_told (T.files tree.old) layers.now) (λ files. IsLarge most_file_bytes files path.now) }
    ensures files { T.files tree.new ≡ T.files tree.old }
    ensures root { T.entered tree.new ≡ T.entered tree.old }
    ensures lent { T.lent tree.new ≡ T.lent tree.old }
    ensures later { T.faults tree.old ≤ T.faults tree.new }
    ensures calm { OnOk result (T.faults tree.new ≡ T.faults tree.old) }
    ensures calm_large { IsErrOf result TreeFault.TooLarge → T.faults tree.new ≡ T.faults tree.old }
    ensures failed { IsErrOf result TreeFault.Failed → Rose (T.faults tree.old) (T.faults tree.new) }
{
    match read_layered(alloc, tree, layers, path) {
        Ok(found) => Ok(found),
        Err(fault) => Err(fault),
    }
}

#[tactic(auto, using(crate::proofs::LayeredViews::names_overlay))]
fn list_overlay<T: Tree>(
    alloc: Global,
    tree: &mut T,
    layers: &Layers,
    path: &Text,
) -> Result<Texts, TreeFault>
    ensures parts { IfOk result (λ parts. IfSome (layered_told (T.files tree.old) layers.now) (λ files. IsListing files path.now parts)) }
    ensures never_large { IsErrOf result TreeFault.TooLarge → ⊥ }
    ensures files { T.files tree.new ≡ T.files tree.old }
    ensures root { T.entered tree.new ≡ T.entered tree.old }
    ensures lent { T.lent tree.new ≡ T.lent tree.old }
    ensures later { T.faults tree.old ≤ T.faults tree.new }
    ensures calm { OnOk result (T.faults tree.new ≡ T.faults tree.old) }
    ensures failed { IsErrOf result TreeFault.Failed → Rose (T.faults tree.old) (T.faults tree.new) }
{
    match names_layered(alloc, tree, layers, path) {
        Ok(names) => Ok(names),
        Err(fault) => Err(fault),
    }
}
