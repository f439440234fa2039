//! What stands at a path of the tree below, and which names lie below it.
//!
//! Each call makes one call of the tree.
ghost use Rattle.std.specs.Prelude.{◌≡◌, ◌≤◌, true, IfOk, OnOk, IsErrOf};
ghost use Rattle.gv_base.specs.Causes.{Rose};
ghost use Rattle.gv_base.specs.Listing.{IsListing};
ghost use Rattle.gv_edits.specs.Inner.{IsTold, told_files, kind_in, kind_at};
ghost use Rattle.gv_edits.specs.Edited.{within};

use gv_base::{Found, NoMemory, Text, Texts, Tree, TreeFault};
use std::alloc::Global;

/// What is at a path, without the bytes of a file.
#[derive(Clone, Copy, PartialEq, Eq)]
pub(crate) enum Kind {
    File,
    Dir,
    Absent,
}

// What is at a path of the tree. A file that is too large is a file.
#[tactic(auto, using(crate::proofs::Inners::told_kind, crate::proofs::Inners::large_kind))]
pub(crate) fn kind_of<T: Tree>(alloc: Global, tree: &mut T, path: &Text) -> Result<Kind, TreeFault>
    ensures kind { IfOk result (λ kind. IsTold (T.files tree.old) → kind ≡ kind_at (told_files (T.files tree.old)) path.now) }
    ensures never_large { IsErrOf result TreeFault.TooLarge → ⊥ }
    ensures files { T.files tree.new ≡ T.files tree.old }
    ensures root { T.entered tree.new ≡ T.entered tree.old }
    ensures lent { T.lent tree.new ≡ T.lent tree.old }
    ensures later { T.faults tree.old ≤ T.faults tree.new }
    ensures calm { OnOk result (T.faults tree.new ≡ T.faults tree.old) }
    ensures failed { IsErrOf result TreeFault.Failed → Rose (T.faults tree.old) (T.faults tree.new) }
{
    match tree.read(alloc, path) {
        Ok(found) => Ok(kind_in(&found)),
        Err(TreeFault::Failed) => Err(TreeFault::Failed),
        Err(TreeFault::TooLarge) => Ok(Kind::File),
        Err(TreeFault::NoMemory) => Err(TreeFault::NoMemory),
    }
}

// The names below a path of the tree.
#[tactic(auto, using(crate::proofs::Inners::told_names))]
pub(crate) fn names_of<T: Tree>(
    alloc: Global,
    tree: &mut T,
    path: &Text,
) -> Result<Texts, TreeFault>
    ensures names { IfOk result (λ names. IsTold (T.files tree.old) → IsListing (told_files (T.files tree.old)) path.now names) }
    ensures never_large { IsErrOf result TreeFault.TooLarge → ⊥ }
    ensures files { T.files tree.new ≡ T.files tree.old }
    ensures root { T.entered tree.new ≡ T.entered tree.old }
    ensures lent { T.lent tree.new ≡ T.lent tree.old }
    ensures later { T.faults tree.old ≤ T.faults tree.new }
    ensures calm { OnOk result (T.faults tree.new ≡ T.faults tree.old) }
    ensures failed { IsErrOf result TreeFault.Failed → Rose (T.faults tree.old) (T.faults tree.new) }
{
    match tree.list(alloc, path) {
        Ok(names) => Ok(names),
        Err(fault) => Err(fault),
    }
}

// The path of a name in a folder.
pub(crate) fn path_within(alloc: Global, path: &Text, name: &Text) -> Result<Text, NoMemory>
    ensures { IfOk result (λ inner. inner ≡ within path.now name.now) }
{
    let mut inner = path.copy(alloc)?;
    inner.append(b"/")?;
    inner.append(name.bytes())?;
    Ok(inner)
}

fn kind_in(found: &Found) -> Kind
    ensures { result ≡ kind_in found.now }
{
    match found {
        Found::File(_) => Kind::File,
        Found::Dir => Kind::Dir,
        Found::Absent => Kind::Absent,
    }
}
