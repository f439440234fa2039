//! What stands at a path of a folder of a tree.
//!
//! Each call makes one call of the tree.
ghost use Rattle.std.specs.Prelude.{◌≡◌, ◌≤◌, IfOk, OnOk, IsErrOf, IfSome};
ghost use Rattle.gv_base.specs.Causes.{Rose};
ghost use Rattle.gv_base.specs.Listing.{IsListing, is_folder};
ghost use Rattle.gv_base.specs.Outside.{found_as, found_at, most_file_bytes, HasAtMost, IsLarge};
ghost use Rattle.gv_views.specs.Told.{IsTold, told_files, files_found, is_large, is_large_file, is_own, has_any, list_names, AreInOrderOf, IsLargeFile, any_folder, all_parts, parts_below};
ghost use Rattle.gv_views.specs.Views.{file_in, inside, all_files, fed, joined_file, first_file, folder_files, folder_told, layered_at, layered_files, layered_told};

use gv_base::{Found, NoMemory, Text, Texts, Tree, TreeFault};
use std::alloc::Global;

/// The path in the tree of what is at a path of the folder.
pub fn path_in(alloc: Global, folder: &Text, path: &Text) -> Result<Text, NoMemory>
    ensures { IfOk result (λ inner. inner ≡ inside folder.now path.now) }
{
    let mut inner = folder.copy(alloc)?;
    inner.append(b"/")?;
    inner.append(path.bytes())?;
    Ok(inner)
}

/// What is at a path of the folder.
#[tactic(auto, using(crate::proofs::Tellings::large_told))]
pub(crate) fn read_in<T: Tree>(
    alloc: Global,
    tree: &mut T,
    folder: &Text,
    path: &Text,
) -> Result<Found, TreeFault>
    ensures found { IfOk result (λ found. IsTold (T.files tree.old) → found ≡ found_at (told_files (T.files tree.old)) (inside folder.now path.now)) }
    ensures small { IfOk result (HasAtMost most_file_bytes) }
    ensures large { IsErrOf result TreeFault.TooLarge → IsTold (T.files tree.old) → IsLarge most_file_bytes (told_files (T.files tree.old)) (inside folder.now path.now) }
    ensures files { T.files tree.new ≡ T.files tree.old }
    ensures root { T.entered tree.new ≡ T.entered tree.old }
    ensures lent { T.lent tree.new ≡ T.lent tree.old }
    ensures later { T.faults tree.old ≤ T.faults tree.new }
    ensures calm { OnOk result (T.faults tree.new ≡ T.faults tree.old) }
    ensures calm_large { IsErrOf result TreeFault.TooLarge → T.faults tree.new ≡ T.faults tree.old }
    ensures failed { IsErrOf result TreeFault.Failed → Rose (T.faults tree.old) (T.faults tree.new) }
{
    let inner = path_in(alloc, folder, path)?;
    match tree.read(alloc, &inner) {
        Ok(found) => Ok(found),
        Err(fault) => Err(fault),
    }
}

/// The names below a path of the folder.
#[tactic(auto, using(crate::proofs::Tellings::names_told))]
pub(crate) fn names_in<T: Tree>(
    alloc: Global,
    tree: &mut T,
    folder: &Text,
    path: &Text,
) -> Result<Texts, TreeFault>
    ensures parts { IfOk result (λ parts. IsTold (T.files tree.old) → IsListing (told_files (T.files tree.old)) (inside folder.now path.now) parts) }
    ensures never_large { IsErrOf result TreeFault.TooLarge → ⊥ }
    ensures files { T.files tree.new ≡ T.files tree.old }
    ensures root { T.entered tree.new ≡ T.entered tree.old }
    ensures lent { T.lent tree.new ≡ T.lent tree.old }
    ensures later { T.faults tree.old ≤ T.faults tree.new }
    ensures calm { OnOk result (T.faults tree.new ≡ T.faults tree.old) }
    ensures failed { IsErrOf result TreeFault.Failed → Rose (T.faults tree.old) (T.faults tree.new) }
{
    let inner = path_in(alloc, folder, path)?;
    match tree.list(alloc, &inner) {
        Ok(names) => Ok(names),
        Err(fault) => Err(fault),
    }
}
