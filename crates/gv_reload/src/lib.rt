//! A repository after edits of entries, for which only these are read.
//!
//! - `entry_paths`: which paths are those of entries, and the category and the PF of one.
//! - `joined`, `entry_edits`: texts that are found by two pieces; the paths of edited entries.
//! - `edited_reads`, `rereading`: edited entries read anew, and a repository after such edits for which only these are read.
//! - `replacing`, `exchanging`: a repository put together of two, where all else can stay in its place, in place.
//! - `laws`: each path is read once in a load, and what edits of entries change.
//!
//! The crate stands on `gv_load` for repositories and for the reading of given names. The layers above use `reread_entries` by
//! `IsReread`: where the old repository is that of files which differ from the tree's in edited entries alone, the new one is that of the
//! tree's but for notes.
#![tactic(auto)]

mod edited_reads;
mod entry_edits;
mod entry_paths;
mod exchanging;
mod joined;
mod laws;
mod replacing;
mod rereading;

pub use entry_edits::EntryEdits;
pub use entry_paths::{is_entry, is_in_metadata};
pub use laws::{eclasses_fit_law, edited_in_law, entries_law, entries_pass_law, once_law};
pub use replacing::{Changed, with_entries};
pub use rereading::{Reread, reread_entries};
