//! Reading a tree, path by path, within limits: what was read, why reading ends, and files with their paths.
//!
//! - `reader`: the paths of a tree, each read once; the names below a path.
//! - `faults`: why reading ends.
//! - `files`, `named_files`: files with their paths; a file, or the files of a folder.
//! - `paths`: the path of a name in a folder.
//!
//! The crate stands on `gv_base` alone, and knows nothing of repositories. Each reading tells one relation, `Reads`, of its steps and its
//! value: where it is passed the value is that of the files and the steps lead to what was read, and else the fault is the first refusal
//! of these steps, the tree's own, or want of memory. The layers above put readings together by the lemmas of `specs/Passing`.
#![tactic(auto)]

mod faults;
mod files;
mod named_files;
mod paths;
mod reader;

pub use faults::LoadFault;
pub use files::{NamedFile, NamedFiles};
pub use named_files::{read_files, read_named};
pub use paths::within;
pub use reader::{MAX_FILES, Reader, list_at};
