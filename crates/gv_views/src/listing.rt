//! The names below a path of an overlay over its masters.
//!
//! Below `eclass` a listing costs one call of the tree for each folder, at `profiles` one more for each list of categories, and
//! elsewhere one.
ghost use Rattle.std.specs.Prelude.{◌≡◌, ◌≤◌, ◌++◌, [], ◌∷◌, if◌then◌else◌, IfOk, OnOk, IsErrOf, IfSome};
ghost use Rattle.gv_base.specs.Causes.{Rose};
ghost use Rattle.std.specs.Option.{is_some};
ghost use Rattle.std.specs.Prelude.{codes};
ghost use Rattle.gv_base.specs.Listing.{IsListing, is_folder};
ghost use Rattle.gv_base.specs.Outside.{found_as, found_at, most_file_bytes, HasAtMost, IsLarge};
ghost use Rattle.gv_views.specs.Areas.{area_of, categories_path};
ghost use Rattle.gv_views.specs.declared.areas.Area.TheVariants as areas;
ghost use Rattle.gv_views.specs.Told.{IsTold, told_files, files_found, is_large, is_large_file, is_own, has_any, list_names, AreInOrderOf, IsLargeFile, any_folder, all_parts, parts_below};
ghost use Rattle.gv_views.specs.Views.{file_in, inside, all_files, fed, joined_file, first_file, folder_files, folder_told, layered_at, layered_files, layered_told};

use crate::areas::{Area, area_of};
use crate::inner::names_in;
use crate::joining::files_at;
use crate::layers::Layers;
use crate::searching::names_in_all;
use gv_base::{NoMemory, Text, Texts, Tree, TreeFault, in_order_law};
use std::alloc::Global;

/// The distinct next parts of the files below the path.
pub(crate) fn names_layered<T: Tree>(
    alloc: Global,
    tree: &mut T,
    layers: &Layers,
    path: &Text,
) -> Result<Texts, TreeFault>
    ensures parts { IfOk result (λ parts. IsTold (T.files tree.old) → IsListing (layered_files (told_files (T.files tree.old)) layers.now) path.now parts) }
    ensures never_large { IsErrOf result TreeFault.TooLarge → ⊥ }
    ensures files { T.files tree.new ≡ T.files tree.old }
    ensures root { T.entered tree.new ≡ T.entered tree.old }
    ensures lent { T.lent tree.new ≡ T.lent tree.old }
    ensures later { T.faults tree.old ≤ T.faults tree.new }
    ensures calm { OnOk result (T.faults tree.new ≡ T.faults tree.old) }
    ensures failed { IsErrOf result TreeFault.Failed → Rose (T.faults tree.old) (T.faults tree.new) }
{
    in_order_law();
    match area_of(path.bytes()) {
        Area::Categories => names_in(alloc, tree, &layers.profiles, path),
        Area::InProfiles => names_in(alloc, tree, &layers.profiles, path),
        Area::Profiles => names_in_profiles(alloc, tree, layers, path),
        Area::Eclasses => names_in_eclasses(alloc, tree, &layers.eclasses, path),
        Area::InEclasses => names_in_eclasses(alloc, tree, &layers.eclasses, path),
        Area::Other => names_in(alloc, tree, &layers.own, path),
    }
}

// Those of all folders, in byte order.
#[tactic(auto, using(crate::proofs::Unions::eclasses_ordered))]
fn names_in_eclasses<T: Tree>(
    alloc: Global,
    tree: &mut T,
    folders: &Texts,
    path: &Text,
) -> Result<Texts, TreeFault>
    ensures parts { IfOk result (λ parts. IsTold (T.files tree.old) → AreInOrderOf (all_parts (told_files (T.files tree.old)) folders.now path.now) parts) }
    ensures never_large { IsErrOf result TreeFault.TooLarge → ⊥ }
    ensures files { T.files tree.new ≡ T.files tree.old }
    ensures root { T.entered tree.new ≡ T.entered tree.old }
    ensures lent { T.lent tree.new ≡ T.lent tree.old }
    ensures later { T.faults tree.old ≤ T.faults tree.new }
    ensures calm { OnOk result (T.faults tree.new ≡ T.faults tree.old) }
    ensures failed { IsErrOf result TreeFault.Failed → Rose (T.faults tree.old) (T.faults tree.new) }
{
    in_order_law();
    let names = names_in_all(alloc, tree, folders.items(), path)?;
    let names = names.in_order(alloc)?;
    Ok(names)
}

// Those of the folder that has the profiles, with the list of categories where there is one.
#[tactic(auto, using(crate::proofs::Unions::profiles_ordered))]
fn names_in_profiles<T: Tree>(
    alloc: Global,
    tree: &mut T,
    layers: &Layers,
    path: &Text,
) -> Result<Texts, TreeFault>
    ensures parts { IfOk result (λ parts. IsTold (T.files tree.old) → AreInOrderOf (parts_below (told_files (T.files tree.old)) (inside layers.now.profiles path.now) ++ list_names (all_files (told_files (T.files tree.old)) (layers.now.profiles ∷ layers.now.lists) categories_path)) parts) }
    ensures never_large { IsErrOf result TreeFault.TooLarge → ⊥ }
    ensures files { T.files tree.new ≡ T.files tree.old }
    ensures root { T.entered tree.new ≡ T.entered tree.old }
    ensures lent { T.lent tree.new ≡ T.lent tree.old }
    ensures later { T.faults tree.old ≤ T.faults tree.new }
    ensures calm { OnOk result (T.faults tree.new ≡ T.faults tree.old) }
    ensures failed { IsErrOf result TreeFault.Failed → Rose (T.faults tree.old) (T.faults tree.new) }
{
    in_order_law();
    let mut names = names_in(alloc, tree, &layers.profiles, path)?;
    let has = has_list(alloc, tree, &layers.profiles, &layers.lists)?;
    add_list(alloc, &mut names, has)?;
    let names = names.in_order(alloc)?;
    Ok(names)
}

fn add_list(alloc: Global, names: &mut Texts, has: bool) -> Result<(), NoMemory>
    ensures { OnOk result (names.new ≡ names.old ++ (if has then codes "categories" ∷ [] else [])) }
{
    if has {
        names.add(list_name(alloc)?)?;
    }
    Ok(())
}

fn list_name(alloc: Global) -> Result<Text, NoMemory>
    ensures { IfOk result (λ name. name ≡ codes "categories") }
{
    Text::of(alloc, b"categories")
}

// The path of the list of categories.
#[tactic(auto, unfolding(crate::specs::Areas::categories_path))]
fn list_path(alloc: Global) -> Result<Text, NoMemory>
    ensures { IfOk result (λ path. path ≡ categories_path) }
{
    Text::of(alloc, b"profiles/categories")
}

// Whether one of the folders has a list of categories. One that is too large is one.
fn has_list<T: Tree>(
    alloc: Global,
    tree: &mut T,
    first: &Text,
    others: &Texts,
) -> Result<bool, TreeFault>
    ensures has { IfOk result (λ has. IsTold (T.files tree.old) → has ≡ has_any (all_files (told_files (T.files tree.old)) (first.now ∷ others.now) categories_path)) }
    ensures never_large { IsErrOf result TreeFault.TooLarge → ⊥ }
    ensures files { T.files tree.new ≡ T.files tree.old }
    ensures root { T.entered tree.new ≡ T.entered tree.old }
    ensures lent { T.lent tree.new ≡ T.lent tree.old }
    ensures later { T.faults tree.old ≤ T.faults tree.new }
    ensures calm { OnOk result (T.faults tree.new ≡ T.faults tree.old) }
    ensures failed { IsErrOf result TreeFault.Failed → Rose (T.faults tree.old) (T.faults tree.new) }
{
    let path = list_path(alloc)?;
    match files_at(alloc, tree, first, others, &path) {
        Ok(files) => Ok(!files.items().is_empty()),
        Err(TreeFault::Failed) => Err(TreeFault::Failed),
        Err(TreeFault::TooLarge) => Ok(true),
        Err(TreeFault::NoMemory) => Err(TreeFault::NoMemory),
    }
}
