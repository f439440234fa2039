//! A file, or the files of a folder, as the mask and flag files of a profile directory may be either.
//!
//! A file costs its path, a folder its listing and a path for each name that counts.
ghost use Rattle.std.specs.Prelude.{◌≡◌, ◌∷◌, [], ◌++◌, filter, IfOk, OnOk};
ghost use Rattle.gv_reading.specs.Causes.{Knows, Reads, view};
ghost use Rattle.gv_reading.specs.NamedFiles.{has_dot, counts, name_steps, folder_steps, file_steps, plain_file, folder_files, files_as, files_at};
ghost use Rattle.gv_reading.specs.Reading.{read};
ghost use Rattle.gv_reading.specs.Paths.{within};

use crate::LoadFault;
use crate::files::{NamedFile, NamedFiles};
use crate::paths::within;
use crate::reader::{Reader, list_at};
use gv_base::{Found, NoMemory, Text, Texts, Tree, has_plain_bytes};
use std::alloc::Global;

/// The plain file at a path, or the files of the folder there in byte order of their names, without subdirectories and
/// without names that begin with a dot; none where neither is there.
pub fn read_files<T: Tree>(
    alloc: Global,
    reader: &mut Reader,
    tree: &mut T,
    path: &Text,
) -> Result<NamedFiles, LoadFault>
    requires { Knows (T.files tree.old) reader.old }
    ensures { Reads T.failed_at (view T.files T.faults T.entered T.lent) tree.old tree.new (λ look. file_steps look path.now) (λ look named. named ≡ files_at look path.now) reader.old reader.new result }
{
    match reader.read(tree, path)? {
        Found::File(bytes) => Ok(one(alloc, path, bytes)?),
        Found::Dir => read_folder(alloc, reader, tree, path),
        Found::Absent => Ok(NamedFiles::new(alloc)),
    }
}

/// The same of a name in a directory.
pub fn read_named<T: Tree>(
    alloc: Global,
    reader: &mut Reader,
    tree: &mut T,
    dir: &Text,
    name: &Text,
) -> Result<NamedFiles, LoadFault>
    requires { Knows (T.files tree.old) reader.old }
    ensures { Reads T.failed_at (view T.files T.faults T.entered T.lent) tree.old tree.new (λ look. file_steps look (within dir.now name.now)) (λ look named. named ≡ files_at look (within dir.now name.now)) reader.old reader.new result }
{
    let path = within(alloc, dir, name.bytes())?;
    read_files(alloc, reader, tree, &path)
}

fn has_dot(name: &[u8]) -> bool
    ensures { result ≡ has_dot name.now }
{
    match name {
        [] => false,
        [b, ..] => *b == b'.',
    }
}

fn counts(name: &[u8]) -> bool
    ensures { result ≡ counts name.now }
{
    has_plain_bytes(name) && !has_dot(name)
}

fn counted(alloc: Global, names: &Texts) -> Result<Texts, NoMemory>
    ensures { IfOk result (λ left. left ≡ filter counts names.now) }
{
    let mut left = Texts::new(alloc);
    for name in names.items() {
        if counts(name.bytes()) {
            left.add(name.copy(alloc)?)?;
        }
    }
    Ok(left)
}

fn add_plain(files: &mut NamedFiles, path: Text, found: Found) -> Result<(), NoMemory>
    ensures { OnOk result (files.new ≡ files.old ++ plain_file path found) }
{
    match found {
        Found::File(bytes) => {
            files.add(NamedFile { path, bytes })?;
            Ok(())
        }
        Found::Dir => Ok(()),
        Found::Absent => Ok(()),
    }
}

// Reads one name of a folder.
fn read_name<T: Tree>(
    alloc: Global,
    reader: &mut Reader,
    tree: &mut T,
    dir: &Text,
    name: &Text,
    files: &mut NamedFiles,
) -> Result<(), LoadFault>
    requires { Knows (T.files tree.old) reader.old }
    ensures { Reads T.failed_at (view T.files T.faults T.entered T.lent) tree.old tree.new (λ look. read (within dir.now name.now) ∷ []) (λ look _. files.new ≡ files.old ++ plain_file (within dir.now name.now) (look.found (within dir.now name.now))) reader.old reader.new result }
{
    let path = within(alloc, dir, name.bytes())?;
    let found = reader.read(tree, &path)?;
    Ok(add_plain(files, path, found)?)
}

// Reads these names of a folder.
fn read_names<T: Tree>(
    alloc: Global,
    reader: &mut Reader,
    tree: &mut T,
    dir: &Text,
    names: &Texts,
) -> Result<NamedFiles, LoadFault>
    requires { Knows (T.files tree.old) reader.old }
    ensures { Reads T.failed_at (view T.files T.faults T.entered T.lent) tree.old tree.new (λ look. name_steps dir.now names.now) (λ look named. named ≡ folder_files look dir.now names.now) reader.old reader.new result }
{
    let mut files = NamedFiles::new(alloc);
    for name in names.items() {
        read_name(alloc, reader, tree, dir, name, &mut files)?;
    }
    Ok(files)
}

// Lists a folder and reads the names that count.
fn read_folder<T: Tree>(
    alloc: Global,
    reader: &mut Reader,
    tree: &mut T,
    path: &Text,
) -> Result<NamedFiles, LoadFault>
    requires { Knows (T.files tree.old) reader.old }
    ensures { Reads T.failed_at (view T.files T.faults T.entered T.lent) tree.old tree.new (λ look. folder_steps look path.now Found.Dir) (λ look named. named ≡ files_as look path.now Found.Dir) reader.old reader.new result }
{
    let listed = list_at(alloc, reader, tree, path)?;
    let names = counted(alloc, &listed)?;
    read_names(alloc, reader, tree, path, &names)
}

fn one(alloc: Global, path: &Text, bytes: Text) -> Result<NamedFiles, NoMemory>
    ensures { IfOk result (λ files. files ≡ record { path = path.now; bytes = bytes } ∷ []) }
{
    let mut files = NamedFiles::new(alloc);
    let path = path.copy(alloc)?;
    files.add(NamedFile { path, bytes })?;
    Ok(files)
}
