//! Which names lie below a path of the edited files.
//!
//! Costs one `list` of the tree below, O(log n) comparisons of paths for each name and n edits, and a reading of the edited
//! files for each name at or below which a path was cut.
ghost use Rattle.std.specs.Prelude.{◌≡◌, ◌≤◌, ◌++◌, true, filter, IfOk, OnOk, OnErr, IsErrOf, IfSome};
ghost use Rattle.gv_base.specs.Causes.{Rose};
ghost use Rattle.gv_base.specs.Listing.{IsListing};
ghost use Rattle.gv_edits.specs.Edited.{stands, all_stand, within, is_anything};
ghost use Rattle.gv_edits.specs.Edits.{edited_told, edited};
ghost use Rattle.gv_edits.specs.Inner.{IsTold, told_files};

use crate::Edits;
use crate::inner::{names_of, path_within};
use crate::looking::read_edited;
use gv_base::{Found, NoMemory, Text, Texts, Tree, TreeFault, in_order_law};
use std::alloc::Global;

/// The distinct next parts of the files below the path, in byte order, of the tree's files with the edits applied in order.
/// A name below which every file was cut, and which is itself no file, isn't listed. Never answers `TooLarge`.
pub(crate) fn list_edited<T: Tree>(
    alloc: Global,
    tree: &mut T,
    edits: &Edits,
    path: &Text,
) -> Result<Texts, TreeFault>
    ensures parts { IfOk result (λ parts. IfSome (edited_told (T.files tree.old) edits.now) (λ files. IsListing files path.now parts)) }
    ensures never_large { IsErrOf result TreeFault.TooLarge → ⊥ }
    ensures files { T.files tree.new ≡ T.files tree.old }
    ensures root { T.entered tree.new ≡ T.entered tree.old }
    ensures lent { T.lent tree.new ≡ T.lent tree.old }
    ensures later { T.faults tree.old ≤ T.faults tree.new }
    ensures calm { OnOk result (T.faults tree.new ≡ T.faults tree.old) }
    ensures failed { IsErrOf result TreeFault.Failed → Rose (T.faults tree.old) (T.faults tree.new) }
{
    in_order_law();
    let listed = names_of(alloc, tree, path)?;
    let mut names = kept(alloc, tree, edits, path, &listed)?;
    let put = edits.put_names_below(alloc, path.bytes())?;
    add_all(alloc, &mut names, &put)?;
    let names = names.in_order(alloc)?;
    Ok(names)
}

// Those of the names in a folder of the tree at which something stands, with the edits.
fn kept<T: Tree>(
    alloc: Global,
    tree: &mut T,
    edits: &Edits,
    path: &Text,
    names: &Texts,
) -> Result<Texts, TreeFault>
    requires { IsTold (T.files tree.old) → all_stand (told_files (T.files tree.old)) path.now names.now ≡ true }
    ensures kept { IfOk result (λ kept. IsTold (T.files tree.old) → kept ≡ filter (λ name. stands (edited (told_files (T.files tree.old)) edits.now) (within path.now name)) names.now) }
    ensures never_large { IsErrOf result TreeFault.TooLarge → ⊥ }
    ensures files { T.files tree.new ≡ T.files tree.old }
    ensures root { T.entered tree.new ≡ T.entered tree.old }
    ensures lent { T.lent tree.new ≡ T.lent tree.old }
    ensures later { T.faults tree.old ≤ T.faults tree.new }
    ensures calm { OnOk result (T.faults tree.new ≡ T.faults tree.old) }
    ensures failed { IsErrOf result TreeFault.Failed → Rose (T.faults tree.old) (T.faults tree.new) }
{
    let mut kept = Texts::new(alloc);
    for name in names.items() {
        let inner = path_within(alloc, path, name)?;
        if stays(alloc, tree, edits, &inner)? {
            kept.add(name.copy(alloc)?)?;
        }
    }
    Ok(kept)
}

// Whether something stands at a path with the edits, where the tree has something there.
fn stays<T: Tree>(
    alloc: Global,
    tree: &mut T,
    edits: &Edits,
    path: &Text,
) -> Result<bool, TreeFault>
    ensures stays { IfOk result (λ stays. IsTold (T.files tree.old) → stands (told_files (T.files tree.old)) path.now ≡ true → stays ≡ stands (edited (told_files (T.files tree.old)) edits.now) path.now) }
    ensures never_large { IsErrOf result TreeFault.TooLarge → ⊥ }
    ensures files { T.files tree.new ≡ T.files tree.old }
    ensures root { T.entered tree.new ≡ T.entered tree.old }
    ensures lent { T.lent tree.new ≡ T.lent tree.old }
    ensures later { T.faults tree.old ≤ T.faults tree.new }
    ensures calm { OnOk result (T.faults tree.new ≡ T.faults tree.old) }
    ensures failed { IsErrOf result TreeFault.Failed → Rose (T.faults tree.old) (T.faults tree.new) }
{
    if edits.put_at(path.bytes()).is_some() {
        return Ok(true);
    }
    if !edits.is_cut(path.bytes()) && !edits.has_cut_below(path.bytes())? {
        return Ok(true);
    }
    match read_edited(alloc, tree, edits, path) {
        Ok(found) => Ok(is_anything(&found)),
        Err(TreeFault::Failed) => Err(TreeFault::Failed),
        Err(TreeFault::TooLarge) => Ok(true),
        Err(TreeFault::NoMemory) => Err(TreeFault::NoMemory),
    }
}

fn is_anything(found: &Found) -> bool
    ensures { result ≡ is_anything found.now }
{
    match found {
        Found::File(_) => true,
        Found::Dir => true,
        Found::Absent => false,
    }
}

fn add_all(alloc: Global, names: &mut Texts, more: &Texts) -> Result<(), NoMemory>
    ensures { OnOk result (names.new ≡ names.old ++ more.now) }
{
    for name in more.items() {
        names.add(name.copy(alloc)?)?;
    }
    Ok(())
}
