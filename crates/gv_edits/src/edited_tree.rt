//! A tree with edits over it.
ghost use Rattle.std.specs.Prelude.{◌≡◌, ◌≤◌, ◌∷◌};

use crate::Edits;
use crate::listing::list_edited;
use crate::looking::read_edited;
use gv_base::{Found, NoMemory, Text, Texts, Tree, TreeFault};
use std::alloc::Global;

/// A tree with edits over it, none of which it changes. Its files are those of the tree below with the edits applied in
/// order, where they are told, and its faults are those of the tree below.
#[derive(Drop)]
pub struct EditedTree<'a, T: Tree> {
    /// The tree below.
    pub tree: &'a mut T,
    /// What lies over it: of edits of one path the last one counts.
    pub edits: &'a Edits,
}

impl<T: Tree> Tree for EditedTree<'_, T> {
    ghost use Rattle.gv_edits.specs.Edits.{edited_told};

    ghost files = { λ t. edited_told (T.files t.tree.now) t.edits.now };

    ghost faults = { λ t. T.faults t.tree.now };

    ghost failed_at = { λ t _. 1 ≤ T.faults t.tree.now };

    ghost entered = { λ t. T.entered t.tree.now };

    ghost lent = { λ t. (t.tree.ghost_name, T.files t.tree.now) ∷ T.lent t.tree.now };

    fn enter(&mut self, alloc: Global, root: &Text) -> Result<(), NoMemory> {
        self.tree.enter(alloc, root)
    }

    fn read(&mut self, alloc: Global, path: &Text) -> Result<Found, TreeFault> {
        read_edited(alloc, self.tree, self.edits, path)
    }

    fn list(&mut self, alloc: Global, path: &Text) -> Result<Texts, TreeFault> {
        list_edited(alloc, self.tree, self.edits, path)
    }
}
