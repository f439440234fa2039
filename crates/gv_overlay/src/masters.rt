//! The masters that a repository's layout names: `metadata/layout.conf`.
//!
//! Costs one call of the tree, and O(the layout's bytes).
ghost use Rattle.std.specs.Prelude.{◌≡◌, ◌≤◌, Err, Ok, length, IfErr, IfOk, OnOk};
ghost use Rattle.gv_overlay.specs.Overlays.{layout_name, masters_named, masters_of_file, layout_path, of_layout};
ghost use Rattle.gv_overlay.specs.Refused.{IsMastersFault, Names, Refused};
ghost use Rattle.gv_views.specs.Told.{IsTold, told_files};
ghost use Rattle.gv_views.specs.Layout.{masters_in};
ghost use Rattle.std.specs.FinMap.{get};

use crate::OverlayFault;
use gv_base::{Found, MAX_FILE_BYTES, NoMemory, Text, Texts, Tree, TreeFault};
use gv_views::{LayoutFault, MAX_MASTERS, masters_in, path_in};
use std::alloc::Global;

// The most bytes of a path that is read.
const MAX_PATH_BYTES: u64 = 4096;

/// The folders of the masters that the layout of the repository of this name names, in their order.
#[tactic(auto, using(crate::proofs::Layouts::long_path, crate::proofs::Layouts::named_at, crate::proofs::Layouts::refused_at))]
pub(crate) fn read_masters<T: Tree>(
    alloc: Global,
    tree: &mut T,
    name: &Text,
) -> Result<Texts, OverlayFault>
    ensures masters { IfOk result (λ masters. IsTold (T.files tree.old) → masters_named (told_files (T.files tree.old)) name.now ≡ Ok masters) }
    ensures cause { IfErr result (Refused (T.files tree.old) (T.faults tree.old) (T.faults tree.new) (IsMastersFault (λ files. masters_named files name.now))) }
    ensures files { T.files tree.new ≡ T.files tree.old }
    ensures root { T.entered tree.new ≡ T.entered tree.old }
    ensures lent { T.lent tree.new ≡ T.lent tree.old }
    ensures later { T.faults tree.old ≤ T.faults tree.new }
    ensures calm { OnOk result (T.faults tree.new ≡ T.faults tree.old) }
{
    let path = layout_path(alloc, name)?;
    if path.bytes().len() as u64 > MAX_PATH_BYTES {
        return Err(OverlayFault::Limit {
            place: path,
            number: MAX_PATH_BYTES,
        });
    }
    match read_layout(alloc, tree, name, path) {
        Ok(masters) => Ok(masters),
        Err(fault) => Err(fault),
    }
}

fn layout_path(alloc: Global, name: &Text) -> Result<Text, NoMemory>
    ensures { IfOk result (λ path. path ≡ layout_path name.now) }
{
    let layout = layout_name(alloc)?;
    path_in(alloc, name, &layout)
}

#[tactic(auto, unfolding(crate::specs::Overlays::layout_name))]
fn layout_name(alloc: Global) -> Result<Text, NoMemory>
    ensures { IfOk result (λ name. name ≡ layout_name) }
{
    Text::of(alloc, b"metadata/layout.conf")
}

// Those that the file at the path names.
#[tactic(auto, using(crate::proofs::Layouts::named_by, crate::proofs::Layouts::refused_by, crate::proofs::Layouts::dir_named, crate::proofs::Layouts::absent_named, crate::proofs::Layouts::large_layout))]
fn read_layout<T: Tree>(
    alloc: Global,
    tree: &mut T,
    name: &Text,
    path: Text,
) -> Result<Texts, OverlayFault>
    ensures masters { IfOk result (λ masters. IsTold (T.files tree.old) → masters_of_file name.now path (get (told_files (T.files tree.old)) path) ≡ Ok masters) }
    ensures cause { IfErr result (Refused (T.files tree.old) (T.faults tree.old) (T.faults tree.new) (IsMastersFault (λ files. masters_of_file name.now path (get files path)))) }
    ensures files { T.files tree.new ≡ T.files tree.old }
    ensures root { T.entered tree.new ≡ T.entered tree.old }
    ensures lent { T.lent tree.new ≡ T.lent tree.old }
    ensures later { T.faults tree.old ≤ T.faults tree.new }
    ensures calm { OnOk result (T.faults tree.new ≡ T.faults tree.old) }
{
    match tree.read(alloc, &path) {
        Ok(Found::File(bytes)) => named(alloc, name, path, bytes.bytes()),
        Ok(Found::Dir) => Err(OverlayFault::NotARepository { path }),
        Ok(Found::Absent) => Err(OverlayFault::NotARepository { path }),
        Err(TreeFault::Failed) => Err(OverlayFault::Tree { path }),
        Err(TreeFault::TooLarge) => Err(OverlayFault::Limit {
            place: path,
            number: MAX_FILE_BYTES,
        }),
        Err(TreeFault::NoMemory) => Err(OverlayFault::NoMemory),
    }
}

// Those that a layout of these bytes names.
fn named(alloc: Global, name: &Text, path: Text, bytes: &[u8]) -> Result<Texts, OverlayFault>
    ensures { Names (of_layout path (masters_in name.now bytes.now)) result }
{
    match masters_in(alloc, name, bytes) {
        Ok(masters) => Ok(masters),
        Err(LayoutFault::TooMany) => Err(OverlayFault::Limit {
            place: path,
            number: MAX_MASTERS,
        }),
        Err(LayoutFault::Bad) => Err(OverlayFault::NotARepository { path }),
        Err(LayoutFault::NoMemory) => Err(OverlayFault::NoMemory),
    }
}
