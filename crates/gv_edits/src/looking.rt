//! What is at a path of the edited files.
//!
//! A path that no edit touches costs one `read` of the tree below and O(log n) comparisons of paths for n edits. Where a
//! cut lies below a path and no put does, the tree below is searched for a file that wasn't cut.
ghost use Rattle.std.specs.Prelude.{◌≡◌, ◌≤◌, true, IfOk, OnOk, IsErrOf, IfSome, None};
ghost use Rattle.gv_base.specs.Causes.{Rose};
ghost use Rattle.gv_base.specs.Listing.{is_folder};
ghost use Rattle.gv_base.specs.Outside.{found_as, found_at, most_file_bytes, HasAtMost, IsLarge};
ghost use Rattle.gv_edits.specs.Edits.{edited_told, edited};
ghost use Rattle.gv_edits.specs.Inner.{IsTold, told_files, kind_at};

use crate::Edits;
use crate::inner::{Kind, kind_of, names_of};
use crate::left::is_any_left;
use gv_base::{Found, Text, Tree, TreeFault, in_order_law};
use std::alloc::Global;

/// What is at a path of the tree's files with the edits applied in order. Where the tree tells nothing, a folder of the tree
/// stays one, even an empty one, unless a path below it was cut, no file was put below it, and no file is left below it.
pub(crate) fn read_edited<T: Tree>(
    alloc: Global,
    tree: &mut T,
    edits: &Edits,
    path: &Text,
) -> Result<Found, TreeFault>
    ensures found { IfOk result (λ found. IfSome (edited_told (T.files tree.old) edits.now) (λ files. found ≡ found_at files path.now)) }
    ensures small { IfOk result (HasAtMost most_file_bytes) }
    ensures large { IsErrOf result TreeFault.TooLarge → IfSome (edited_told (T.files tree.old) edits.now) (λ files. IsLarge most_file_bytes files path.now) }
    ensures files { T.files tree.new ≡ T.files tree.old }
    ensures root { T.entered tree.new ≡ T.entered tree.old }
    ensures lent { T.lent tree.new ≡ T.lent tree.old }
    ensures later { T.faults tree.old ≤ T.faults tree.new }
    ensures calm { OnOk result (T.faults tree.new ≡ T.faults tree.old) }
    ensures calm_large { IsErrOf result TreeFault.TooLarge → T.faults tree.new ≡ T.faults tree.old }
    ensures failed { IsErrOf result TreeFault.Failed → Rose (T.faults tree.old) (T.faults tree.new) }
{
    if let Some(bytes) = edits.put_at(path.bytes()) {
        return Ok(Found::File(Text::of(alloc, bytes)?));
    }
    if edits.is_cut(path.bytes()) {
        let is_folder = is_edited_folder(alloc, tree, edits, path)?;
        return Ok(folder_or_absent(is_folder));
    }
    match tree.read(alloc, path) {
        Ok(Found::File(text)) => Ok(Found::File(text)),
        Ok(Found::Dir) => {
            let is_folder = is_folder_left(alloc, tree, edits, path)?;
            Ok(folder_or_absent(is_folder))
        }
        Ok(Found::Absent) => {
            let is_folder = edits.has_put_below(path.bytes())?;
            Ok(folder_or_absent(is_folder))
        }
        Err(fault) => Err(fault),
    }
}

fn folder_or_absent(is_folder: bool) -> Found
    ensures { result ≡ found_as None is_folder }
{
    if is_folder { Found::Dir } else { Found::Absent }
}

// Whether a file is below the path, with the edits.
fn is_edited_folder<T: Tree>(
    alloc: Global,
    tree: &mut T,
    edits: &Edits,
    path: &Text,
) -> Result<bool, TreeFault>
    ensures is { IfOk result (λ is. IsTold (T.files tree.old) → is ≡ is_folder (edited (told_files (T.files tree.old)) edits.now) path.now) }
    ensures never_large { IsErrOf result TreeFault.TooLarge → ⊥ }
    ensures files { T.files tree.new ≡ T.files tree.old }
    ensures root { T.entered tree.new ≡ T.entered tree.old }
    ensures lent { T.lent tree.new ≡ T.lent tree.old }
    ensures later { T.faults tree.old ≤ T.faults tree.new }
    ensures calm { OnOk result (T.faults tree.new ≡ T.faults tree.old) }
    ensures failed { IsErrOf result TreeFault.Failed → Rose (T.faults tree.old) (T.faults tree.new) }
{
    if edits.has_put_below(path.bytes())? {
        return Ok(true);
    }
    if edits.has_cut_below(path.bytes())? {
        return is_any_left(alloc, tree, edits, path);
    }
    is_inner_folder(alloc, tree, path)
}

// The same, of a folder of the tree below.
fn is_folder_left<T: Tree>(
    alloc: Global,
    tree: &mut T,
    edits: &Edits,
    path: &Text,
) -> Result<bool, TreeFault>
    requires { IsTold (T.files tree.old) → is_folder (told_files (T.files tree.old)) path.now ≡ true }
    ensures is { IfOk result (λ is. IsTold (T.files tree.old) → is ≡ is_folder (edited (told_files (T.files tree.old)) edits.now) path.now) }
    ensures never_large { IsErrOf result TreeFault.TooLarge → ⊥ }
    ensures files { T.files tree.new ≡ T.files tree.old }
    ensures root { T.entered tree.new ≡ T.entered tree.old }
    ensures lent { T.lent tree.new ≡ T.lent tree.old }
    ensures later { T.faults tree.old ≤ T.faults tree.new }
    ensures calm { OnOk result (T.faults tree.new ≡ T.faults tree.old) }
    ensures failed { IsErrOf result TreeFault.Failed → Rose (T.faults tree.old) (T.faults tree.new) }
{
    if edits.has_put_below(path.bytes())? {
        return Ok(true);
    }
    if edits.has_cut_below(path.bytes())? {
        return is_any_left(alloc, tree, edits, path);
    }
    Ok(true)
}

// Whether a file of the tree is below the path.
fn is_inner_folder<T: Tree>(alloc: Global, tree: &mut T, path: &Text) -> Result<bool, TreeFault>
    ensures is { IfOk result (λ is. IsTold (T.files tree.old) → is ≡ is_folder (told_files (T.files tree.old)) path.now) }
    ensures never_large { IsErrOf result TreeFault.TooLarge → ⊥ }
    ensures files { T.files tree.new ≡ T.files tree.old }
    ensures root { T.entered tree.new ≡ T.entered tree.old }
    ensures lent { T.lent tree.new ≡ T.lent tree.old }
    ensures later { T.faults tree.old ≤ T.faults tree.new }
    ensures calm { OnOk result (T.faults tree.new ≡ T.faults tree.old) }
    ensures failed { IsErrOf result TreeFault.Failed → Rose (T.faults tree.old) (T.faults tree.new) }
{
    match kind_of(alloc, tree, path)? {
        Kind::File => has_names(alloc, tree, path),
        Kind::Dir => Ok(true),
        Kind::Absent => Ok(false),
    }
}

fn has_names<T: Tree>(alloc: Global, tree: &mut T, path: &Text) -> Result<bool, TreeFault>
    ensures is { IfOk result (λ is. IsTold (T.files tree.old) → is ≡ is_folder (told_files (T.files tree.old)) path.now) }
    ensures never_large { IsErrOf result TreeFault.TooLarge → ⊥ }
    ensures files { T.files tree.new ≡ T.files tree.old }
    ensures root { T.entered tree.new ≡ T.entered tree.old }
    ensures lent { T.lent tree.new ≡ T.lent tree.old }
    ensures later { T.faults tree.old ≤ T.faults tree.new }
    ensures calm { OnOk result (T.faults tree.new ≡ T.faults tree.old) }
    ensures failed { IsErrOf result TreeFault.Failed → Rose (T.faults tree.old) (T.faults tree.new) }
{
    in_order_law();
    let names = names_of(alloc, tree, path)?;
    Ok(!names.items().is_empty())
}
