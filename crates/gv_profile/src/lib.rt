//! Profiles (PMS chapters 4 and 5): the lines of `profiles.desc`, the stacks of directories, and what a stack comes to.
//!
//! - `lines`, `paths`: the words of a line; paths relative to a folder.
//! - `notes`: bad lines, each told with its place.
//! - `desc`, `parent_files`, `eapi`: the lists of profiles and of parents, and the EAPI of a directory.
//! - `files`, `dirs`: the files of a directory as they were read, and the directories by path.
//! - `mask_lines`, `flag_lines`: which lines of a mask or flag file are good, and what they say.
//! - `flag_rules`: the rules on flags of one directory.
//! - `sources`, `folding`: what stacks are folded from, parsed once, and what each directory adds to what a stack comes to.
//! - `frames`, `walking`, `profiles`: the walk of a stack, without recursion; the stack and the profile of a line.
//! - `room`: what the stacks of a load may visit and keep.
//! - `bad_lines`: the bad lines of a directory.
//! - `laws`: what stacks, masks and rules on flags come to, in a maintainer's words.
//!
//! The crate stands on `gv_reading` for files with their paths, on `gv_atom`, `gv_defaults` and `gv_facts`. The layer above reads the files, hands them over as `Dirs`
//! and takes the profile of each line, or the first fault of its walk, by `fold`.
#![tactic(auto)]

mod bad_lines;
mod desc;
mod dirs;
mod eapi;
mod faults;
mod files;
mod flag_lines;
mod flag_rules;
mod folding;
mod frames;
mod laws;
mod lines;
mod mask_lines;
mod notes;
mod parent_files;
mod paths;
mod profiles;
mod room;
mod sources;
mod walking;

pub use bad_lines::{dir_notes, mask_notes};
pub use desc::{DescLine, DescLines, DescRead, desc_path, read_desc};
pub use dirs::Dirs;
pub use faults::ProfileFault;
pub use files::DirFiles;
pub use flag_lines::are_flag_words;
pub use flag_rules::add_forcing_lines;
pub use gv_reading::{NamedFile, NamedFiles};
pub use laws::{flag_law, mask_law, stack_law};
pub use lines::line_words;
pub use mask_lines::file_atom;
pub use notes::{PlaceNote, PlaceNotes};
pub use parent_files::{ParentLine, ParentLines, parents};
pub use profiles::{fold, fold_within, line_dir, stack, top_dir, word_dir};
pub use room::Room;
pub use sources::Sources;
pub use walking::parents_of;
