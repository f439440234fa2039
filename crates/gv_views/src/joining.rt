//! The files that folders have at one path, joined.
//!
//! Costs one call of the tree for each folder, and O(the bytes of what they have).
ghost use Rattle.std.specs.Prelude.{◌≡◌, ◌≤◌, ◌++◌, ◌∷◌, true, length, option_to_list, IfOk, OnOk, IsErrOf, IfSome};
ghost use Rattle.gv_base.specs.Causes.{Rose};
ghost use Rattle.std.specs.List.{list_any};
ghost use Rattle.gv_base.specs.Outside.{found_as, found_at, most_file_bytes, HasAtMost, IsLarge};
ghost use Rattle.gv_views.specs.Told.{IsTold, told_files, files_found, is_large, is_large_file, is_own, has_any, list_names, AreInOrderOf, IsLargeFile, any_folder, all_parts, parts_below};
ghost use Rattle.gv_views.specs.Views.{file_in, inside, all_files, fed, joined_file, first_file, folder_files, folder_told, layered_at, layered_files, layered_told};

use crate::inner::read_in;
use gv_base::{Found, MAX_FILE_BYTES, NoMemory, Text, Texts, Tree, TreeFault};
use std::alloc::Global;

/// The files that the folders have at the path, in order, each followed by a line feed, if any has one. `TooLarge` comes exactly
/// where these are more than `MAX_FILE_BYTES` bytes.
#[tactic(auto, using(crate::proofs::Joins::some_large, crate::proofs::Joins::large_joined))]
pub(crate) fn read_joined<T: Tree>(
    alloc: Global,
    tree: &mut T,
    first: &Text,
    others: &Texts,
    path: &Text,
) -> Result<Option<Text>, TreeFault>
    ensures joined { IfOk result (λ joined. IsTold (T.files tree.old) → joined ≡ joined_file (all_files (told_files (T.files tree.old)) (first.now ∷ others.now) path.now)) }
    ensures small { IfOk result (λ joined. IfSome joined (λ bytes. length bytes ≤ most_file_bytes)) }
    ensures large { IsErrOf result TreeFault.TooLarge → IsTold (T.files tree.old) → IsLargeFile (joined_file (all_files (told_files (T.files tree.old)) (first.now ∷ others.now) path.now)) }
    ensures files { T.files tree.new ≡ T.files tree.old }
    ensures root { T.entered tree.new ≡ T.entered tree.old }
    ensures lent { T.lent tree.new ≡ T.lent tree.old }
    ensures later { T.faults tree.old ≤ T.faults tree.new }
    ensures calm { OnOk result (T.faults tree.new ≡ T.faults tree.old) }
    ensures calm_large { IsErrOf result TreeFault.TooLarge → T.faults tree.new ≡ T.faults tree.old }
    ensures failed { IsErrOf result TreeFault.Failed → Rose (T.faults tree.old) (T.faults tree.new) }
{
    let files = files_at(alloc, tree, first, others, path)?;
    let joined = joined(alloc, files.items())?;
    if is_large(&joined) {
        return Err(TreeFault::TooLarge);
    }
    Ok(joined)
}

/// The files that the folders have at the path, in order. `TooLarge` comes exactly where one of them has more than
/// `MAX_FILE_BYTES` bytes.
pub(crate) fn files_at<T: Tree>(
    alloc: Global,
    tree: &mut T,
    first: &Text,
    others: &Texts,
    path: &Text,
) -> Result<Texts, TreeFault>
    ensures these { IfOk result (λ these. IsTold (T.files tree.old) → these ≡ all_files (told_files (T.files tree.old)) (first.now ∷ others.now) path.now) }
    ensures large { IsErrOf result TreeFault.TooLarge → IsTold (T.files tree.old) → list_any is_large (all_files (told_files (T.files tree.old)) (first.now ∷ others.now) path.now) ≡ true }
    ensures files { T.files tree.new ≡ T.files tree.old }
    ensures root { T.entered tree.new ≡ T.entered tree.old }
    ensures lent { T.lent tree.new ≡ T.lent tree.old }
    ensures later { T.faults tree.old ≤ T.faults tree.new }
    ensures calm { OnOk result (T.faults tree.new ≡ T.faults tree.old) }
    ensures calm_large { IsErrOf result TreeFault.TooLarge → T.faults tree.new ≡ T.faults tree.old }
    ensures failed { IsErrOf result TreeFault.Failed → Rose (T.faults tree.old) (T.faults tree.new) }
{
    let mut files = Texts::new(alloc);
    add_file(alloc, tree, first, path, &mut files)?;
    for folder in others.items() {
        add_file(alloc, tree, folder, path, &mut files)?;
    }
    Ok(files)
}

// Adds the file that the folder has at the path, if it has one.
#[tactic(auto, using(crate::proofs::Joins::added, crate::proofs::Joins::too_large))]
fn add_file<T: Tree>(
    alloc: Global,
    tree: &mut T,
    folder: &Text,
    path: &Text,
    files: &mut Texts,
) -> Result<(), TreeFault>
    ensures added { OnOk result (IsTold (T.files tree.old) → files.new ≡ files.old ++ option_to_list (file_in (told_files (T.files tree.old)) folder.now path.now)) }
    ensures large { IsErrOf result TreeFault.TooLarge → IsTold (T.files tree.old) → IsLargeFile (file_in (told_files (T.files tree.old)) folder.now path.now) }
    ensures files { T.files tree.new ≡ T.files tree.old }
    ensures root { T.entered tree.new ≡ T.entered tree.old }
    ensures lent { T.lent tree.new ≡ T.lent tree.old }
    ensures later { T.faults tree.old ≤ T.faults tree.new }
    ensures calm { OnOk result (T.faults tree.new ≡ T.faults tree.old) }
    ensures calm_large { IsErrOf result TreeFault.TooLarge → T.faults tree.new ≡ T.faults tree.old }
    ensures failed { IsErrOf result TreeFault.Failed → Rose (T.faults tree.old) (T.faults tree.new) }
{
    let found = read_in(alloc, tree, folder, path)?;
    Ok(add_found(files, found)?)
}

fn add_found(files: &mut Texts, found: Found) -> Result<(), NoMemory>
    ensures { OnOk result (files.new ≡ files.old ++ files_found found) }
{
    match found {
        Found::File(text) => files.add(text),
        Found::Dir | Found::Absent => Ok(()),
    }
}

fn joined(alloc: Global, files: &[Text]) -> Result<Option<Text>, NoMemory>
    ensures { IfOk result (λ joined. joined ≡ joined_file files.now) }
{
    match files {
        [] => Ok(None),
        [_, ..] => Ok(Some(fed(alloc, files)?)),
    }
}

// Each followed by a line feed.
fn fed(alloc: Global, files: &[Text]) -> Result<Text, NoMemory>
    ensures { IfOk result (λ text. text ≡ fed files.now) }
{
    let mut text = Text::of(alloc, &[])?;
    for file in files {
        text.append(file.bytes())?;
        text.append(b"\n")?;
    }
    Ok(text)
}

fn is_large(file: &Option<Text>) -> bool
    ensures { result ≡ is_large_file file.now }
{
    match file {
        Some(text) => text.bytes().len() as u64 > MAX_FILE_BYTES,
        None => false,
    }
}
