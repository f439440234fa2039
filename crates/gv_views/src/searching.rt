//! What the first of some folders has at a path, and what lies below the path in any of them.
//!
//! A reading ends at the first folder that has a file; a listing costs one call of the tree for each folder.
ghost use Rattle.std.specs.Prelude.{◌≡◌, ◌≤◌, false, ◌||◌, ◌++◌, IfOk, OnOk, IsErrOf, IfSome};
ghost use Rattle.gv_base.specs.Causes.{Rose};
ghost use Rattle.gv_base.specs.Listing.{IsListing, is_folder};
ghost use Rattle.gv_base.specs.Outside.{found_as, found_at, most_file_bytes, HasAtMost, IsLarge};
ghost use Rattle.gv_base.specs.Order.{HaveSameTexts};
ghost use Rattle.gv_views.specs.Told.{IsTold, told_files, files_found, is_large, is_large_file, is_own, has_any, list_names, AreInOrderOf, IsLargeFile, any_folder, all_parts, parts_below};
ghost use Rattle.gv_views.specs.Views.{file_in, inside, all_files, fed, joined_file, first_file, folder_files, folder_told, layered_at, layered_files, layered_told};

use crate::inner::{names_in, read_in};
use gv_base::{Found, NoMemory, Text, Texts, Tree, TreeFault, in_order_law};
use std::alloc::Global;

/// The file of the first of the folders that has one, or else a folder where one of them has files below the path.
pub(crate) fn read_first<T: Tree>(
    alloc: Global,
    tree: &mut T,
    folders: &Texts,
    path: &Text,
) -> Result<Found, TreeFault>
    ensures found { IfOk result (λ found. IsTold (T.files tree.old) → found ≡ found_as (first_file (told_files (T.files tree.old)) folders.now path.now) (any_folder (told_files (T.files tree.old)) folders.now path.now)) }
    ensures small { IfOk result (HasAtMost most_file_bytes) }
    ensures large { IsErrOf result TreeFault.TooLarge → IsTold (T.files tree.old) → IsLargeFile (first_file (told_files (T.files tree.old)) folders.now path.now) }
    ensures files { T.files tree.new ≡ T.files tree.old }
    ensures root { T.entered tree.new ≡ T.entered tree.old }
    ensures lent { T.lent tree.new ≡ T.lent tree.old }
    ensures later { T.faults tree.old ≤ T.faults tree.new }
    ensures calm { OnOk result (T.faults tree.new ≡ T.faults tree.old) }
    ensures calm_large { IsErrOf result TreeFault.TooLarge → T.faults tree.new ≡ T.faults tree.old }
    ensures failed { IsErrOf result TreeFault.Failed → Rose (T.faults tree.old) (T.faults tree.new) }
{
    let mut is_folder = false;
    for folder in folders.items() {
        match read_in(alloc, tree, folder, path) {
            Ok(Found::File(text)) => return Ok(Found::File(text)),
            Ok(Found::Dir) => is_folder = true,
            Ok(Found::Absent) => {}
            Err(fault) => return Err(fault),
        }
    }
    Ok(folder_or_absent(is_folder))
}

/// A folder, or nothing.
pub(crate) fn folder_or_absent(is_folder: bool) -> Found
    ensures { result ≡ found_as None is_folder }
{
    if is_folder { Found::Dir } else { Found::Absent }
}

/// The names below the path in all of the folders, in any order, as often as they stand there.
pub(crate) fn names_in_all<T: Tree>(
    alloc: Global,
    tree: &mut T,
    folders: &[Text],
    path: &Text,
) -> Result<Texts, TreeFault>
    ensures parts { IfOk result (λ parts. IsTold (T.files tree.old) → HaveSameTexts parts (all_parts (told_files (T.files tree.old)) folders.now path.now)) }
    ensures never_large { IsErrOf result TreeFault.TooLarge → ⊥ }
    ensures files { T.files tree.new ≡ T.files tree.old }
    ensures root { T.entered tree.new ≡ T.entered tree.old }
    ensures lent { T.lent tree.new ≡ T.lent tree.old }
    ensures later { T.faults tree.old ≤ T.faults tree.new }
    ensures calm { OnOk result (T.faults tree.new ≡ T.faults tree.old) }
    ensures failed { IsErrOf result TreeFault.Failed → Rose (T.faults tree.old) (T.faults tree.new) }
{
    in_order_law();
    let mut all = Texts::new(alloc);
    for folder in folders {
        let names = names_in(alloc, tree, folder, path)?;
        add_all(alloc, &mut all, names.items())?;
    }
    Ok(all)
}

fn add_all(alloc: Global, names: &mut Texts, more: &[Text]) -> Result<(), NoMemory>
    ensures { OnOk result (names.new ≡ names.old ++ more.now) }
{
    for name in more {
        names.add(name.copy(alloc)?)?;
    }
    Ok(())
}
