//! Reads the files of a profile directory (PMS chapter 5), in their order.
//!
//! A directory costs its thirteen paths, those of its file directories, and O(the bytes that are there).
ghost use Rattle.std.specs.Prelude.{◌≡◌, ◌∷◌, []};
ghost use Rattle.gv_reading.specs.Causes.{Knows, Reads, view};
ghost use Rattle.gv_reading.specs.Look.{bytes_at};
ghost use Rattle.gv_load.specs.Directories.{dir_files, dir_at, head_steps, pair_steps, flag_steps, package_steps, inside_steps, dir_steps};
ghost use Rattle.gv_load.specs.Layout.{layout};
ghost use Rattle.gv_load.specs.Parts.{head_at, pair_at, flags_at, packages_at, all_files};
ghost use Rattle.gv_reading.specs.Reading.{read};
ghost use Rattle.gv_reading.specs.Paths.{within};

use crate::layout::Layout;
use gv_base::{Found, Text, Tree};
use gv_profile::DirFiles;
use gv_reading::{LoadFault, NamedFiles, Reader, read_named, within};
use std::alloc::Global;

// The files that come first.
#[derive(Drop)]
pub(crate) struct Head {
    eapi: Option<Text>,
    parent: Option<Text>,
    defaults: Option<Text>,
}

// The files that mask and those that force.
#[derive(Drop)]
pub(crate) struct Pair {
    mask: NamedFiles,
    force: NamedFiles,
}

// The files of flags.
#[derive(Drop)]
pub(crate) struct Flags {
    plain: Pair,
    stable: Pair,
}

// The files of packages.
#[derive(Drop)]
pub(crate) struct Packages {
    mask: NamedFiles,
    plain: Pair,
    stable: Pair,
}

/// The files of a profile directory, none where it is no folder.
pub(crate) fn read_directory<T: Tree>(
    alloc: Global,
    reader: &mut Reader,
    tree: &mut T,
    names: &Layout,
    dir: &Text,
) -> Result<Option<DirFiles>, LoadFault>
    requires knows { Knows (T.files tree.old) reader.old }
    requires names { names.now ≡ layout }
    ensures { Reads T.failed_at (view T.files T.faults T.entered T.lent) tree.old tree.new (λ look. dir_steps look dir.now) (λ look value. value ≡ dir_at look dir.now) reader.old reader.new result }
{
    match reader.read(tree, dir)? {
        Found::Dir => Ok(Some(read_inside(alloc, reader, tree, names, dir)?)),
        Found::File(_) => Ok(None),
        Found::Absent => Ok(None),
    }
}

fn read_bytes<T: Tree>(
    alloc: Global,
    reader: &mut Reader,
    tree: &mut T,
    dir: &Text,
    name: &Text,
) -> Result<Option<Text>, LoadFault>
    requires knows { Knows (T.files tree.old) reader.old }
    ensures { Reads T.failed_at (view T.files T.faults T.entered T.lent) tree.old tree.new (λ look. read (within dir.now name.now) ∷ []) (λ look value. value ≡ bytes_at look (within dir.now name.now)) reader.old reader.new result }
{
    let path = within(alloc, dir, name.bytes())?;
    reader.bytes(tree, &path)
}

fn read_head<T: Tree>(
    alloc: Global,
    reader: &mut Reader,
    tree: &mut T,
    names: &Layout,
    dir: &Text,
) -> Result<Head, LoadFault>
    requires knows { Knows (T.files tree.old) reader.old }
    requires names { names.now ≡ layout }
    ensures { Reads T.failed_at (view T.files T.faults T.entered T.lent) tree.old tree.new (λ look. head_steps dir.now) (λ look value. value ≡ head_at look dir.now) reader.old reader.new result }
{
    let eapi = read_bytes(alloc, reader, tree, dir, &names.eapi)?;
    let parent = read_bytes(alloc, reader, tree, dir, &names.parent)?;
    let defaults = read_bytes(alloc, reader, tree, dir, &names.defaults)?;
    Ok(Head {
        eapi,
        parent,
        defaults,
    })
}

fn read_pair<T: Tree>(
    alloc: Global,
    reader: &mut Reader,
    tree: &mut T,
    dir: &Text,
    masking: &Text,
    forcing: &Text,
) -> Result<Pair, LoadFault>
    requires knows { Knows (T.files tree.old) reader.old }
    ensures { Reads T.failed_at (view T.files T.faults T.entered T.lent) tree.old tree.new (λ look. pair_steps look dir.now masking.now forcing.now) (λ look value. value ≡ pair_at look dir.now masking.now forcing.now) reader.old reader.new result }
{
    let mask = read_named(alloc, reader, tree, dir, masking)?;
    let force = read_named(alloc, reader, tree, dir, forcing)?;
    Ok(Pair { mask, force })
}

fn read_flags<T: Tree>(
    alloc: Global,
    reader: &mut Reader,
    tree: &mut T,
    names: &Layout,
    dir: &Text,
) -> Result<Flags, LoadFault>
    requires knows { Knows (T.files tree.old) reader.old }
    requires names { names.now ≡ layout }
    ensures { Reads T.failed_at (view T.files T.faults T.entered T.lent) tree.old tree.new (λ look. flag_steps look dir.now) (λ look value. value ≡ flags_at look dir.now) reader.old reader.new result }
{
    let plain = read_pair(alloc, reader, tree, dir, &names.use_mask, &names.use_force)?;
    let stable = read_pair(
        alloc,
        reader,
        tree,
        dir,
        &names.use_stable_mask,
        &names.use_stable_force,
    )?;
    Ok(Flags { plain, stable })
}

fn read_packages<T: Tree>(
    alloc: Global,
    reader: &mut Reader,
    tree: &mut T,
    names: &Layout,
    dir: &Text,
) -> Result<Packages, LoadFault>
    requires knows { Knows (T.files tree.old) reader.old }
    requires names { names.now ≡ layout }
    ensures { Reads T.failed_at (view T.files T.faults T.entered T.lent) tree.old tree.new (λ look. package_steps look dir.now) (λ look value. value ≡ packages_at look dir.now) reader.old reader.new result }
{
    let mask = read_named(alloc, reader, tree, dir, &names.package_mask)?;
    let plain = read_pair(
        alloc,
        reader,
        tree,
        dir,
        &names.package_use_mask,
        &names.package_use_force,
    )?;
    let stable = read_pair(
        alloc,
        reader,
        tree,
        dir,
        &names.package_use_stable_mask,
        &names.package_use_stable_force,
    )?;
    Ok(Packages {
        mask,
        plain,
        stable,
    })
}

fn read_inside<T: Tree>(
    alloc: Global,
    reader: &mut Reader,
    tree: &mut T,
    names: &Layout,
    dir: &Text,
) -> Result<DirFiles, LoadFault>
    requires knows { Knows (T.files tree.old) reader.old }
    requires names { names.now ≡ layout }
    ensures { Reads T.failed_at (view T.files T.faults T.entered T.lent) tree.old tree.new (λ look. inside_steps look dir.now) (λ look value. value ≡ dir_files look dir.now) reader.old reader.new result }
{
    let head = read_head(alloc, reader, tree, names, dir)?;
    let flags = read_flags(alloc, reader, tree, names, dir)?;
    let packages = read_packages(alloc, reader, tree, names, dir)?;
    Ok(all_files(head, flags, packages))
}

fn all_files(head: Head, flags: Flags, packages: Packages) -> DirFiles
    ensures { result ≡ all_files head flags packages }
{
    DirFiles {
        eapi: head.eapi,
        parent: head.parent,
        defaults: head.defaults,
        use_mask: flags.plain.mask,
        use_force: flags.plain.force,
        use_stable_mask: flags.stable.mask,
        use_stable_force: flags.stable.force,
        package_mask: packages.mask,
        package_use_mask: packages.plain.mask,
        package_use_force: packages.plain.force,
        package_use_stable_mask: packages.stable.mask,
        package_use_stable_force: packages.stable.force,
    }
}
