//! The defaults of USE flags in profiles, and REQUIRED_USE that they don't meet (PMS chapters 5 and 7).
//!
//! - `word_set`: words with a set of them.
//! - `file_kinds`: which file of a profile directory a file is.
//! - `line_walk`: the files of profile directories whose lines are looked at one by one, read by parents.
//! - `line_files`, `dir_places`: these files, with the places of those of each directory.
//! - `stack_walk`, `stacks`: the stack of a directory by the `parent` files that were read, and stacks by line.
//! - `walk`: the files and the stacks of the profiles of a repository.
//! - `folding`, `defaults`: what a stack says of flags.
//! - `flag_values`, `flags`: the default of a flag of a package.
//! - `required`: whether REQUIRED_USE holds under defaults.
//! - `reports`: the reports.
//! - `laws`: the stacks of a walk are those of the profiles.
//!
//! The crate stands on `gv_reading` for reading within limits, `gv_load` for repositories, `gv_defaults` for variables, `gv_profile` for lines, `gv_visible` and
//! `gv_usestate` for packages in profiles. The layers above make a `Walk` by `walk_files`, and take reports by `use_reports`.
#![tactic(auto)]

mod defaults;
mod dir_places;
mod file_kinds;
mod flag_values;
mod flags;
mod folding;
mod laws;
mod line_files;
mod line_walk;
mod reports;
mod required;
mod stack_walk;
mod stacks;
mod walk;
mod word_set;

pub use defaults::{UseDefaults, defaults_of};
pub use file_kinds::{FileKind, LineFile, kind_name};
pub use flags::default_on;
pub use laws::walk_law;
pub use line_files::LineFiles;
pub use reports::use_reports;
pub use stacks::{Stack, Stacks};
pub use walk::{Walk, walk_files};
pub use word_set::WordSet;
