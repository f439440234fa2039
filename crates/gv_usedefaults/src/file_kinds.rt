//! Files of profile directories whose lines are looked at one by one, with the defaults and the parents.
ghost use Rattle.std.specs.Prelude.{◌≡◌, IfOk};
ghost use Rattle.gv_usedefaults.specs.LineFiles.{is_plain, kind_name};

use gv_base::{NoMemory, Text};
use std::alloc::Global;

/// Which file of a profile directory it is (PMS chapter 5), in the order in which they are read.
#[derive(Clone, Copy, Debug, PartialEq, Eq)]
pub enum FileKind {
    /// `parent`
    Parent,
    /// `make.defaults`
    Defaults,
    /// `package.use`
    Use,
    /// `package.mask`
    Mask,
    /// `package.use.mask`
    UseMask,
    /// `package.use.force`
    UseForce,
    /// `package.use.stable.mask`
    StableMask,
    /// `package.use.stable.force`
    StableForce,
}

/// A file that was read for its lines.
#[derive(Drop)]
pub struct LineFile {
    /// The directory to which it belongs: of a file in a folder, that of the folder.
    pub dir: Text,
    /// Which of the directory's files it is, or stands in.
    pub kind: FileKind,
    /// Its own path, from the top of the repository.
    pub path: Text,
    /// All that the file holds, comments too: at most 16,777,216 bytes.
    pub bytes: Text,
}

impl LineFile {
    /// An equal file.
    pub fn copy(&self, alloc: Global) -> Result<LineFile, NoMemory>
        ensures { IfOk result (λ file. file ≡ self.now) }
    {
        Ok(LineFile {
            dir: self.dir.copy(alloc)?,
            kind: self.kind,
            path: self.path.copy(alloc)?,
            bytes: self.bytes.copy(alloc)?,
        })
    }
}

/// The name of such a file in its directory.
#[tactic(auto, unfolding(crate::specs::LineFiles::kind_name))]
pub fn kind_name(kind: FileKind) -> &'static [u8]
    ensures { result.now ≡ kind_name kind }
{
    match kind {
        FileKind::Parent => b"parent",
        FileKind::Defaults => b"make.defaults",
        FileKind::Use => b"package.use",
        FileKind::Mask => b"package.mask",
        FileKind::UseMask => b"package.use.mask",
        FileKind::UseForce => b"package.use.force",
        FileKind::StableMask => b"package.use.stable.mask",
        FileKind::StableForce => b"package.use.stable.force",
    }
}

/// Whether a folder in its place counts as absent.
pub(crate) fn is_plain(kind: FileKind) -> bool
    ensures { result ≡ is_plain kind }
{
    match kind {
        FileKind::Parent | FileKind::Defaults => true,
        FileKind::Use
        | FileKind::Mask
        | FileKind::UseMask
        | FileKind::UseForce
        | FileKind::StableMask
        | FileKind::StableForce => false,
    }
}
