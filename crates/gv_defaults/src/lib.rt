//! make.defaults: what a file of assignments makes of the variables of a profile.
//!
//! - `quotes`, `names`, `steps`: where a value ends, names, and a value read from its front, step by step.
//! - `meaning`: what a value stands for, where names stand for the values before them.
//! - `items`, `assigning`: a file read item by item up to its first fault, and the values that it gives.
//! - `folding`: words taken in order over those of an incremental variable.
//! - `vars`, `defaults`: variables as a finite map, and what a file makes of them.
//! - `laws`: the form of a file and of a value, as parts and pieces, and what is read of them.
//! - `cut`, `room`: the first byte of a text, and the room that the values of a file have.
//!
//! The crate stands on `gv_base`. The layer above folds the directories of a profile by `read_defaults`, and asks the
//! outcome by `Vars::words`.
#![tactic(auto)]

mod assigning;
mod cut;
mod defaults;
mod folding;
mod items;
mod laws;
mod meaning;
mod names;
mod quotes;
mod room;
mod steps;
mod vars;

pub use defaults::{DefaultsRead, read_defaults};
pub use laws::{incremental_law, parts_law, pieces_law};
pub use vars::{Setting, Vars};
