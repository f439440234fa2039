//! One edit of a map of files.
ghost use Rattle.std.specs.Prelude.{◌≡◌};

use gv_base::{NoMemory, Text};
use thiserror::Error;

/// The most bytes of a path that is edited.
pub const MAX_PATH_BYTES: u64 = 4096;

/// An edit of files. `Edits` is seen as a list of these; no code makes one.
#[derive(Drop)]
pub enum Edit {
    /// Sets one path.
    Put {
        /// From the top of the files, as in `metadata/md5-cache/CATEGORY/PF`.
        path: Text,
        /// The bytes of the file.
        bytes: Text,
    },
    /// Removes one path. A path that isn't there changes nothing.
    Cut {
        /// From the top of the files, as in `metadata/md5-cache/CATEGORY/PF`.
        path: Text,
    },
}

/// Why an edit isn't taken.
#[derive(Clone, Copy, Debug, PartialEq, Eq, Error)]
pub enum EditFault {
    /// The bytes are no path.
    #[error("not a path")]
    BadPath,
    /// The path has more than `MAX_PATH_BYTES` bytes, or the file more than `gv_base::MAX_FILE_BYTES`.
    #[error("a path or a file is too long")]
    Limit,
    /// Memory was wanted and not given.
    #[error("out of memory")]
    NoMemory,
}

impl From<NoMemory> for EditFault {
    ghost use Rattle.std.specs.Prelude.{◌≡◌};
    ghost use Rattle.gv_edits.specs.declared.edit.EditFault.TheVariants.{NoMemory};

    ghost from_gives = { λ _ fault. fault ≡ NoMemory };

    fn from(_: NoMemory) -> Self {
        EditFault::NoMemory
    }
}
