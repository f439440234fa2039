//! Whether the cuts left a file below a path.
//!
//! The tree below is searched depth first until a file is found that wasn't cut: a folder costs a `read` and a `list`, and the first
//! file that wasn't cut a `read`, behind which nothing more is asked. The folders that are still ahead are kept, so that links which
//! lead back end at the system's limit of links and not in ever more paths.
ghost use Rattle.std.specs.Prelude.{◌≡◌, ◌≤◌, ◌∷◌, [], ◌++◌, true, ◌||◌, IfOk, OnOk, IsErrOf};
ghost use Rattle.gv_base.specs.Causes.{Rose};
ghost use Rattle.gv_base.specs.Listing.{is_folder};
ghost use Rattle.gv_edits.specs.Inner.{IsTold, told_files};
ghost use Rattle.gv_edits.specs.Edited.{left_files, stands, any_folder, any_stands, all_stand, is_left};

use crate::inner::{Kind, kind_of, names_of, path_within};
use crate::{Edits, MAX_PATH_BYTES};
use gv_base::{NoMemory, Text, Texts, Tree, TreeFault, in_order_law};
use std::alloc::Global;

/// What is known of a path below which files were cut.
#[derive(Clone, Copy, PartialEq, Eq)]
enum Left {
    /// A file that wasn't cut is at the path.
    Here,
    /// No such file is at the path; below it there may be one.
    Maybe,
    /// No such file is at the path or below it.
    Nowhere,
}

/// Whether a file that wasn't cut is below the path.
pub(crate) fn is_any_left<T: Tree>(
    alloc: Global,
    tree: &mut T,
    edits: &Edits,
    path: &Text,
) -> Result<bool, TreeFault>
    ensures any { IfOk result (λ any. IsTold (T.files tree.old) → any ≡ is_folder (left_files (T.files tree.old) edits.now) path.now) }
    ensures never_large { IsErrOf result TreeFault.TooLarge → ⊥ }
    ensures files { T.files tree.new ≡ T.files tree.old }
    ensures root { T.entered tree.new ≡ T.entered tree.old }
    ensures lent { T.lent tree.new ≡ T.lent tree.old }
    ensures later { T.faults tree.old ≤ T.faults tree.new }
    ensures calm { OnOk result (T.faults tree.new ≡ T.faults tree.old) }
    ensures failed { IsErrOf result TreeFault.Failed → Rose (T.faults tree.old) (T.faults tree.new) }
{
    let mut ahead = Vec::new(alloc);
    if add_folders(alloc, tree, edits, path, &mut ahead)? {
        return Ok(true);
    }
    for _ in 0..u64::MAX {
        let Some(folder) = ahead.pop() else {
            return Ok(false);
        };
        if add_folders(alloc, tree, edits, &folder, &mut ahead)? {
            return Ok(true);
        }
    }
    Err(TreeFault::NoMemory)
}

// Adds the folders in this one that may have a file left, unless such a file is found.
fn add_folders<T: Tree>(
    alloc: Global,
    tree: &mut T,
    edits: &Edits,
    path: &Text,
    ahead: &mut Vec<Text>,
) -> Result<bool, TreeFault>
    ensures any { IfOk result (λ any. IsTold (T.files tree.old) → (any || any_folder (left_files (T.files tree.old) edits.now) ahead.new.items) ≡ (any_folder (left_files (T.files tree.old) edits.now) ahead.old.items || is_folder (left_files (T.files tree.old) edits.now) path.now)) }
    ensures never_large { IsErrOf result TreeFault.TooLarge → ⊥ }
    ensures files { T.files tree.new ≡ T.files tree.old }
    ensures root { T.entered tree.new ≡ T.entered tree.old }
    ensures lent { T.lent tree.new ≡ T.lent tree.old }
    ensures later { T.faults tree.old ≤ T.faults tree.new }
    ensures calm { OnOk result (T.faults tree.new ≡ T.faults tree.old) }
    ensures failed { IsErrOf result TreeFault.Failed → Rose (T.faults tree.old) (T.faults tree.new) }
{
    in_order_law();
    let names = names_of(alloc, tree, path)?;
    add_each(alloc, tree, edits, path, &names, ahead)
}

// The same, of the names in the folder.
fn add_each<T: Tree>(
    alloc: Global,
    tree: &mut T,
    edits: &Edits,
    path: &Text,
    names: &Texts,
    ahead: &mut Vec<Text>,
) -> Result<bool, TreeFault>
    requires { IsTold (T.files tree.old) → all_stand (told_files (T.files tree.old)) path.now names.now ≡ true }
    ensures any { IfOk result (λ any. IsTold (T.files tree.old) → (any || any_folder (left_files (T.files tree.old) edits.now) ahead.new.items) ≡ (any_folder (left_files (T.files tree.old) edits.now) ahead.old.items || any_stands (left_files (T.files tree.old) edits.now) path.now names.now)) }
    ensures never_large { IsErrOf result TreeFault.TooLarge → ⊥ }
    ensures files { T.files tree.new ≡ T.files tree.old }
    ensures root { T.entered tree.new ≡ T.entered tree.old }
    ensures lent { T.lent tree.new ≡ T.lent tree.old }
    ensures later { T.faults tree.old ≤ T.faults tree.new }
    ensures calm { OnOk result (T.faults tree.new ≡ T.faults tree.old) }
    ensures failed { IsErrOf result TreeFault.Failed → Rose (T.faults tree.old) (T.faults tree.new) }
{
    for name in names.items() {
        let inner = path_within(alloc, path, name)?;
        match left_at(alloc, tree, edits, &inner)? {
            Left::Here => return Ok(true),
            Left::Maybe => push(ahead, inner)?,
            Left::Nowhere => {}
        }
    }
    Ok(false)
}

fn push(ahead: &mut Vec<Text>, path: Text) -> Result<(), NoMemory>
    ensures { OnOk result (ahead.new.items ≡ ahead.old.items ++ path ∷ []) }
{
    ahead.push(path)?;
    Ok(())
}

// What is left at a path that was listed. No edit can name a path that is too long, or anything below it, so a file that
// stands there was left.
fn left_at<T: Tree>(
    alloc: Global,
    tree: &mut T,
    edits: &Edits,
    path: &Text,
) -> Result<Left, TreeFault>
    ensures left { IfOk result (λ left. IsTold (T.files tree.old) → stands (told_files (T.files tree.old)) path.now ≡ true → stands (left_files (T.files tree.old) edits.now) path.now ≡ is_left left (is_folder (left_files (T.files tree.old) edits.now) path.now)) }
    ensures never_large { IsErrOf result TreeFault.TooLarge → ⊥ }
    ensures files { T.files tree.new ≡ T.files tree.old }
    ensures root { T.entered tree.new ≡ T.entered tree.old }
    ensures lent { T.lent tree.new ≡ T.lent tree.old }
    ensures later { T.faults tree.old ≤ T.faults tree.new }
    ensures calm { OnOk result (T.faults tree.new ≡ T.faults tree.old) }
    ensures failed { IsErrOf result TreeFault.Failed → Rose (T.faults tree.old) (T.faults tree.new) }
{
    edits.tell();
    if path.bytes().len() as u64 > MAX_PATH_BYTES {
        return Ok(Left::Here);
    }
    if edits.is_cut(path.bytes()) {
        return Ok(Left::Maybe);
    }
    match kind_of(alloc, tree, path)? {
        Kind::File => Ok(Left::Here),
        Kind::Dir => Ok(Left::Maybe),
        Kind::Absent => Ok(Left::Nowhere),
    }
}
