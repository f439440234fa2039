//! Repositories that stand as folders side by side, seen as trees of their own: a master, and an overlay over its masters.
//!
//! - `layout`: the masters that a repository's layout names.
//! - `areas`, `layers`: which part of a repository a path belongs to, and from which folders each part is taken.
//! - `inner`: what stands at a path of a folder.
//! - `folder_tree`: a folder of a tree, as a tree.
//! - `joining`, `searching`, `reading`, `listing`: what is at a path of an overlay over its masters.
//! - `layered_tree`: an overlay over its masters, as a tree.
//! - `noting_tree`: a tree that notes the path of the call that failed.
//!
//! The crate stands on `gv_base` for trees and on `gv_profile` for the words of a line. Layers above use `FolderTree` and
//! `LayeredTree`, whose contracts are those of any tree, of the defined files, and `masters_in` by its definition.
#![tactic(auto)]

mod areas;
mod folder_tree;
mod inner;
mod joining;
mod layered_tree;
mod layers;
mod layout;
mod listing;
mod noting_tree;
mod reading;
mod searching;

pub use folder_tree::FolderTree;
pub use inner::path_in;
pub use layered_tree::LayeredTree;
pub use layers::{Layers, layers_of};
pub use layout::{LayoutFault, MAX_MASTERS, masters_in};
pub use noting_tree::NotingTree;
