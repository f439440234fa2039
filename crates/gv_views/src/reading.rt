//! What is at a path of an overlay over its masters.
//!
//! A path of one folder costs one call of the tree, one below `eclass` at most one for each folder, and the list of categories one
//! for each folder and O(their bytes). Where `profiles`, `eclass` or the list of categories is no file, it is listed besides.
ghost use Rattle.std.specs.Prelude.{◌≡◌, ◌≤◌, None, true, IfOk, OnOk, IsErrOf, IfSome};
ghost use Rattle.gv_base.specs.Causes.{Rose};
ghost use Rattle.gv_base.specs.Listing.{IsListing, is_folder};
ghost use Rattle.gv_base.specs.Outside.{found_as, found_at, most_file_bytes, HasAtMost, IsLarge};
ghost use Rattle.gv_views.specs.Areas.{area_of};
ghost use Rattle.gv_views.specs.Told.{IsTold, told_files, files_found, is_large, is_large_file, is_own, has_any, list_names, AreInOrderOf, IsLargeFile, any_folder, all_parts, parts_below};
ghost use Rattle.gv_views.specs.Views.{file_in, inside, all_files, fed, joined_file, first_file, folder_files, folder_told, layered_at, layered_files, layered_told};

use crate::areas::{Area, area_of};
use crate::inner::read_in;
use crate::joining::read_joined;
use crate::layers::Layers;
use crate::listing::names_layered;
use crate::searching::{folder_or_absent, read_first};
use gv_base::{Found, Text, Tree, TreeFault, in_order_law};
use std::alloc::Global;

/// What is at the path.
pub(crate) fn read_layered<T: Tree>(
    alloc: Global,
    tree: &mut T,
    layers: &Layers,
    path: &Text,
) -> Result<Found, TreeFault>
    ensures found { IfOk result (λ found. IsTold (T.files tree.old) → found ≡ found_at (layered_files (told_files (T.files tree.old)) layers.now) path.now) }
    ensures small { IfOk result (HasAtMost most_file_bytes) }
    ensures large { IsErrOf result TreeFault.TooLarge → IsTold (T.files tree.old) → IsLarge most_file_bytes (layered_files (told_files (T.files tree.old)) layers.now) path.now }
    ensures files { T.files tree.new ≡ T.files tree.old }
    ensures root { T.entered tree.new ≡ T.entered tree.old }
    ensures lent { T.lent tree.new ≡ T.lent tree.old }
    ensures later { T.faults tree.old ≤ T.faults tree.new }
    ensures calm { OnOk result (T.faults tree.new ≡ T.faults tree.old) }
    ensures calm_large { IsErrOf result TreeFault.TooLarge → T.faults tree.new ≡ T.faults tree.old }
    ensures failed { IsErrOf result TreeFault.Failed → Rose (T.faults tree.old) (T.faults tree.new) }
{
    match area_of(path.bytes()) {
        Area::Categories => read_list(alloc, tree, layers, path),
        Area::InProfiles => read_in(alloc, tree, &layers.profiles, path),
        Area::InEclasses => read_first(alloc, tree, &layers.eclasses, path),
        Area::Profiles | Area::Eclasses => read_own(alloc, tree, layers, path),
        Area::Other => read_in(alloc, tree, &layers.own, path),
    }
}

// The list of categories.
#[tactic(auto, using(crate::proofs::LayeredViews::list_found, crate::proofs::LayeredViews::list_none, crate::proofs::LayeredViews::list_large))]
fn read_list<T: Tree>(
    alloc: Global,
    tree: &mut T,
    layers: &Layers,
    path: &Text,
) -> Result<Found, TreeFault>
    requires { area_of path.now ≡ Area.Categories }
    ensures found { IfOk result (λ found. IsTold (T.files tree.old) → found ≡ found_at (layered_files (told_files (T.files tree.old)) layers.now) path.now) }
    ensures small { IfOk result (HasAtMost most_file_bytes) }
    ensures large { IsErrOf result TreeFault.TooLarge → IsTold (T.files tree.old) → IsLarge most_file_bytes (layered_files (told_files (T.files tree.old)) layers.now) path.now }
    ensures files { T.files tree.new ≡ T.files tree.old }
    ensures root { T.entered tree.new ≡ T.entered tree.old }
    ensures lent { T.lent tree.new ≡ T.lent tree.old }
    ensures later { T.faults tree.old ≤ T.faults tree.new }
    ensures calm { OnOk result (T.faults tree.new ≡ T.faults tree.old) }
    ensures calm_large { IsErrOf result TreeFault.TooLarge → T.faults tree.new ≡ T.faults tree.old }
    ensures failed { IsErrOf result TreeFault.Failed → Rose (T.faults tree.old) (T.faults tree.new) }
{
    match read_joined(alloc, tree, &layers.profiles, &layers.lists, path) {
        Ok(Some(text)) => Ok(Found::File(text)),
        Ok(None) => read_below(alloc, tree, layers, path),
        Err(fault) => Err(fault),
    }
}

// A file of the overlay's own, or what is below the path.
#[tactic(auto, using(crate::proofs::LayeredViews::own_found, crate::proofs::LayeredViews::own_dir, crate::proofs::LayeredViews::own_absent, crate::proofs::LayeredViews::own_large))]
fn read_own<T: Tree>(
    alloc: Global,
    tree: &mut T,
    layers: &Layers,
    path: &Text,
) -> Result<Found, TreeFault>
    requires { is_own (area_of path.now) ≡ true }
    ensures found { IfOk result (λ found. IsTold (T.files tree.old) → found ≡ found_at (layered_files (told_files (T.files tree.old)) layers.now) path.now) }
    ensures small { IfOk result (HasAtMost most_file_bytes) }
    ensures large { IsErrOf result TreeFault.TooLarge → IsTold (T.files tree.old) → IsLarge most_file_bytes (layered_files (told_files (T.files tree.old)) layers.now) path.now }
    ensures files { T.files tree.new ≡ T.files tree.old }
    ensures root { T.entered tree.new ≡ T.entered tree.old }
    ensures lent { T.lent tree.new ≡ T.lent tree.old }
    ensures later { T.faults tree.old ≤ T.faults tree.new }
    ensures calm { OnOk result (T.faults tree.new ≡ T.faults tree.old) }
    ensures calm_large { IsErrOf result TreeFault.TooLarge → T.faults tree.new ≡ T.faults tree.old }
    ensures failed { IsErrOf result TreeFault.Failed → Rose (T.faults tree.old) (T.faults tree.new) }
{
    match read_in(alloc, tree, &layers.own, path) {
        Ok(Found::File(text)) => Ok(Found::File(text)),
        Ok(Found::Dir) => read_below(alloc, tree, layers, path),
        Ok(Found::Absent) => read_below(alloc, tree, layers, path),
        Err(fault) => Err(fault),
    }
}

// A folder, where some file is below the path, which is itself no file.
#[tactic(auto, using(crate::proofs::LayeredViews::below_found))]
fn read_below<T: Tree>(
    alloc: Global,
    tree: &mut T,
    layers: &Layers,
    path: &Text,
) -> Result<Found, TreeFault>
    requires { IsTold (T.files tree.old) → layered_at (told_files (T.files tree.old)) layers.now path.now ≡ None }
    ensures found { IfOk result (λ found. IsTold (T.files tree.old) → found ≡ found_at (layered_files (told_files (T.files tree.old)) layers.now) path.now) }
    ensures small { IfOk result (HasAtMost most_file_bytes) }
    ensures never_large { IsErrOf result TreeFault.TooLarge → ⊥ }
    ensures files { T.files tree.new ≡ T.files tree.old }
    ensures root { T.entered tree.new ≡ T.entered tree.old }
    ensures lent { T.lent tree.new ≡ T.lent tree.old }
    ensures later { T.faults tree.old ≤ T.faults tree.new }
    ensures calm { OnOk result (T.faults tree.new ≡ T.faults tree.old) }
    ensures failed { IsErrOf result TreeFault.Failed → Rose (T.faults tree.old) (T.faults tree.new) }
{
    in_order_law();
    let names = names_layered(alloc, tree, layers, path)?;
    Ok(folder_or_absent(!names.items().is_empty()))
}
