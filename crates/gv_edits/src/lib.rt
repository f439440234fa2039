//! Edits of files: puts and cuts in order, a tree with them over it, and the script of a session.
//!
//! - `edit`, `edits`: an edit, and all edits in order with what they come to.
//! - `inner`, `left`, `looking`, `listing`: what is at a path of a tree's files with the edits, and what lies below it.
//! - `edited_tree`: a tree with edits over it, itself a tree.
//! - `pending`: bytes that come in, one after another, however many a source gives at once.
//! - `line`, `length`, `begun`, `command`: the lines of a script, their words, and the commands.
//! - `script`: the commands of a script in turn, with the number of a bad one and the limit of commands.
//! - `laws`: how commands are written.
//!
//! The crate stands on `gv_base` and `thiserror`. Layers above use `EditedTree`, whose contract is that of any tree of the
//! edited files; `Edits`, which they see as the list of edits; and `ScriptReader` by the definition of a script.
#![tactic(auto)]

mod begun;
mod command;
mod edit;
mod edited_tree;
mod edits;
mod inner;
mod laws;
mod left;
mod length;
mod line;
mod listing;
mod looking;
mod pending;
mod script;

pub use command::Command;
pub use edit::{Edit, EditFault, MAX_PATH_BYTES};
pub use edited_tree::EditedTree;
pub use edits::Edits;
pub use laws::reading_law;
pub use script::{MAX_COMMANDS, ScriptFault, ScriptReader};
