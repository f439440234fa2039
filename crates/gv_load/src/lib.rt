//! Loading: the files of a tree, read in order, as a repository.
//!
//! - `loading`: `load`, and what a repository is.
//! - `lists`: the lists at the top, and the repository's own masks.
//! - `layout`, `directories`: the files of a profile directory.
//! - `reaching`: the directories that are reached by parents, read when they are first reached.
//! - `stacks`, `line_profiles`: the stacks of all lines, folded line by line, and what the directories have of bad lines.
//! - `categories`, `entries`: the PFs of a category, and what is read of each.
//! - `eclasses`, `freshness`, `packages`: the digests of eclasses, whether an entry is current, and what each PF is.
//! - `members`, `notes`: packages in their order, and the reports of what isn't one.
//! - `given`: names of entries that are given, read alone.
//!
//! The crate stands on `gv_reading` for reading within limits, `gv_profile` for profiles, `gv_entry` for entries and `gv_report` for
//! reports. Layers above use `load` by its clause `repo`: over a tree that tells its files the result is `loading` of these.
#![tactic(auto)]

mod categories;
mod directories;
mod eclasses;
mod entries;
mod freshness;
mod given;
mod layout;
mod line_profiles;
mod lists;
mod loading;
mod members;
mod notes;
mod packages;
mod paths;
mod reaching;
mod stacks;

pub use categories::{is_pf, name_in};
pub use entries::PfRead;
pub use freshness::{Kept, PfKept, Why};
pub use given::{Given, GivenRead, read_given};
pub use gv_reading::LoadFault;
pub use loading::{Folders, Loaded, Repo, load, load_counted};
pub use members::{Bodies, Member, Packages, compare};
pub use paths::mask_path;
pub use stacks::stack_limit;
