//! The room that the stacks of one load have together, so that a tree whose directories are visited again and again comes to an end.
ghost use Rattle.std.specs.Prelude.{◌≡◌};

use crate::DirFiles;
use gv_base::NoMemory;
use gv_reading::NamedFiles;

/// What is left for the stacks of a load. A stack past it is one for which there is no memory, however much there is.
#[derive(Clone, Copy)]
pub struct Room {
    /// Bytes of the files that are visited, each time that they are, and a byte more for each file: 2^30.
    pub files: usize,
    /// Bytes that the make.defaults take, as `Vars::within` counts them: 2^32.
    pub values: usize,
    /// Flags and masks that are kept: 2^22.
    pub kept: usize,
}

/// How many flags are kept of one stack: 2^20.
pub(crate) const MAX_FLAGS: usize = 0x10_0000;

/// How many lines of mask files are kept until a stack is folded: 2^20.
pub(crate) const MAX_LINES: usize = 0x10_0000;

impl Room {
    /// The room of a load.
    pub fn new() -> Room
        ensures files { result.files ≡ 1073741824 }
        ensures values { result.values ≡ 4294967296 }
        ensures kept { result.kept ≡ 4194304 }
    {
        Room {
            files: 0x4000_0000,
            values: 0x1_0000_0000,
            kept: 0x40_0000,
        }
    }

    /// Takes the files of a directory off.
    pub(crate) fn visit(&mut self, files: &DirFiles) -> Result<(), NoMemory> {
        take(&mut self.files, size_of(files))
    }

    /// Takes files off that stand before those of a stack.
    pub(crate) fn begin(&mut self, first: &NamedFiles) -> Result<(), NoMemory> {
        take(&mut self.files, bytes_of(first))
    }

    /// Takes so many flags and masks off that a profile keeps.
    pub(crate) fn keep(&mut self, count: usize) -> Result<(), NoMemory> {
        take(&mut self.kept, count)
    }
}

fn take(room: &mut usize, count: usize) -> Result<(), NoMemory> {
    match room.checked_sub(count) {
        Some(left) => {
            *room = left;
            Ok(())
        }
        None => Err(NoMemory),
    }
}

fn size_of(files: &DirFiles) -> usize {
    let defaults = match &files.defaults {
        Some(bytes) => bytes.bytes().len(),
        None => 0,
    };
    let flags = bytes_of(&files.use_mask)
        .saturating_add(bytes_of(&files.use_force))
        .saturating_add(bytes_of(&files.use_stable_mask))
        .saturating_add(bytes_of(&files.use_stable_force));
    let packages = bytes_of(&files.package_mask)
        .saturating_add(bytes_of(&files.package_use_mask))
        .saturating_add(bytes_of(&files.package_use_force))
        .saturating_add(bytes_of(&files.package_use_stable_mask))
        .saturating_add(bytes_of(&files.package_use_stable_force));
    defaults.saturating_add(flags).saturating_add(packages)
}

fn bytes_of(files: &NamedFiles) -> usize {
    let mut bytes = 0_usize;
    for file in files.items() {
        bytes = bytes
            .saturating_add(file.bytes.bytes().len())
            .saturating_add(1);
    }
    bytes
}
