//! A master, and the overlay over its masters, as repositories.
//!
//! Each costs what `load` costs.
ghost use Rattle.std.specs.Prelude.{◌≡◌, ◌≤◌, Err, Ok, length, IfErr, IfOk, OnOk};
ghost use Rattle.gv_overlay.specs.Overlays.{master_fault, master_loading, own_fault, layered_loading};
ghost use Rattle.gv_overlay.specs.Refused.{IsFaultOf, LoadEnds, Refused};
ghost use Rattle.gv_views.specs.Told.{IsTold, told_files};
ghost use Rattle.gv_load.specs.Loading.{LoadCause, loading};
ghost use Rattle.gv_load.specs.OwnLines.{HaveOwnLines};
ghost use Rattle.gv_views.specs.Views.{folder_told, layered_told};

use crate::OverlayFault;
use crate::faults::{master_fault, own_fault};
use gv_base::{Text, Tree};
use gv_load::{LoadFault, Repo, load};
use gv_views::{FolderTree, LayeredTree, Layers, NotingTree};
use std::alloc::Global;

/// The repository in a folder.
#[tactic(auto, using(crate::proofs::Causes::master_handed))]
pub(crate) fn load_master<T: Tree>(
    alloc: Global,
    tree: &mut T,
    folder: &Text,
) -> Result<Repo, OverlayFault>
    ensures repo { IfOk result (λ repo. IsTold (T.files tree.old) → master_loading (told_files (T.files tree.old)) folder.now ≡ Ok repo) }
    ensures cause { IfErr result (Refused (T.files tree.old) (T.faults tree.old) (T.faults tree.new) (IsFaultOf (master_fault folder.now) (λ files. master_loading files folder.now))) }
    ensures files { T.files tree.new ≡ T.files tree.old }
    ensures root { T.entered tree.new ≡ T.entered tree.old }
    ensures lent { T.lent tree.new ≡ T.lent tree.old }
    ensures later { T.faults tree.old ≤ T.faults tree.new }
    ensures calm { OnOk result (T.faults tree.new ≡ T.faults tree.old) }
{
    match load_folder(alloc, tree, folder) {
        Ok(repo) => Ok(repo),
        Err(fault) => Err(master_fault(alloc, folder, fault)),
    }
}

/// The repository that an overlay's layers come to.
#[tactic(auto, using(crate::proofs::Causes::own_handed))]
pub(crate) fn load_own<T: Tree>(
    alloc: Global,
    tree: &mut T,
    layers: &Layers,
) -> Result<Repo, OverlayFault>
    ensures repo { IfOk result (λ repo. IsTold (T.files tree.old) → layered_loading (told_files (T.files tree.old)) layers.now ≡ Ok repo) }
    ensures own { IfOk result (λ repo. HaveOwnLines repo.profiles) }
    ensures cause { IfErr result (Refused (T.files tree.old) (T.faults tree.old) (T.faults tree.new) (IsFaultOf own_fault (λ files. layered_loading files layers.now))) }
    ensures files { T.files tree.new ≡ T.files tree.old }
    ensures root { T.entered tree.new ≡ T.entered tree.old }
    ensures lent { T.lent tree.new ≡ T.lent tree.old }
    ensures later { T.faults tree.old ≤ T.faults tree.new }
    ensures calm { OnOk result (T.faults tree.new ≡ T.faults tree.old) }
{
    let mut failed = None;
    match load_noting(alloc, tree, layers, &mut failed) {
        Ok(repo) => Ok(repo),
        Err(fault) => Err(own_fault(failed, fault)),
    }
}

// The path of a call that failed is noted.
fn load_noting<T: Tree>(
    alloc: Global,
    tree: &mut T,
    layers: &Layers,
    failed: &mut Option<Text>,
) -> Result<Repo, LoadFault>
    ensures repo { IfOk result (λ repo. IsTold (T.files tree.old) → layered_loading (told_files (T.files tree.old)) layers.now ≡ Ok repo) }
    ensures own { IfOk result (λ repo. HaveOwnLines repo.profiles) }
    ensures cause { IfErr result (LoadEnds (T.files tree.old) (T.faults tree.old) (T.faults tree.new) (λ files. layered_loading files layers.now)) }
    ensures files { T.files tree.new ≡ T.files tree.old }
    ensures root { T.entered tree.new ≡ T.entered tree.old }
    ensures lent { T.lent tree.new ≡ T.lent tree.old }
    ensures later { T.faults tree.old ≤ T.faults tree.new }
    ensures calm { OnOk result (T.faults tree.new ≡ T.faults tree.old) }
{
    let mut noting = NotingTree { tree, failed };
    match load_layered(alloc, &mut noting, layers) {
        Ok(repo) => Ok(repo),
        Err(fault) => Err(fault),
    }
}

#[tactic(auto, using(crate::proofs::Causes::folder_loaded, crate::proofs::Causes::folder_cause))]
fn load_folder<T: Tree>(alloc: Global, tree: &mut T, folder: &Text) -> Result<Repo, LoadFault>
    ensures repo { IfOk result (λ repo. IsTold (T.files tree.old) → master_loading (told_files (T.files tree.old)) folder.now ≡ Ok repo) }
    ensures cause { IfErr result (LoadEnds (T.files tree.old) (T.faults tree.old) (T.faults tree.new) (λ files. master_loading files folder.now)) }
    ensures files { T.files tree.new ≡ T.files tree.old }
    ensures root { T.entered tree.new ≡ T.entered tree.old }
    ensures lent { T.lent tree.new ≡ T.lent tree.old }
    ensures later { T.faults tree.old ≤ T.faults tree.new }
    ensures calm { OnOk result (T.faults tree.new ≡ T.faults tree.old) }
{
    let mut view = FolderTree { tree, folder };
    match load(alloc, &mut view) {
        Ok(repo) => Ok(repo),
        Err(fault) => Err(fault),
    }
}

#[tactic(auto, using(crate::proofs::Causes::layers_loaded, crate::proofs::Causes::layers_cause))]
fn load_layered<T: Tree>(alloc: Global, tree: &mut T, layers: &Layers) -> Result<Repo, LoadFault>
    ensures repo { IfOk result (λ repo. IsTold (T.files tree.old) → layered_loading (told_files (T.files tree.old)) layers.now ≡ Ok repo) }
    ensures own { IfOk result (λ repo. HaveOwnLines repo.profiles) }
    ensures cause { IfErr result (LoadEnds (T.files tree.old) (T.faults tree.old) (T.faults tree.new) (λ files. layered_loading files layers.now)) }
    ensures files { T.files tree.new ≡ T.files tree.old }
    ensures root { T.entered tree.new ≡ T.entered tree.old }
    ensures lent { T.lent tree.new ≡ T.lent tree.old }
    ensures later { T.faults tree.old ≤ T.faults tree.new }
    ensures calm { OnOk result (T.faults tree.new ≡ T.faults tree.old) }
{
    let mut view = LayeredTree { tree, layers };
    match load(alloc, &mut view) {
        Ok(repo) => Ok(repo),
        Err(fault) => Err(fault),
    }
}
