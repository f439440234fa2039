//! The outside of a real machine: folders and files, standard input and standard output, and the words of a call.
//!
//! - `folder`: a folder of the system as a tree.
//! - `files`: files of the system, by their paths, as a store; `replacing`, `beside`, `links`: how one is replaced whole.
//! - `streams`: a reader and a writer as a source and a sink.
//! - `reading`, `trouble`: what is read of files and folders, and how a call of the system failed.
//! - `words`: the words that the program was called with.
//!
//! What a disk or a pipe holds isn't told to contracts; how often it failed is, and what a reader and a writer that tell
//! their bytes are given and give. A call costs the system's calls; a file that is read is copied once. A call that a signal
//! interrupts is made again.
//!
//! The crate stands on `std` and `gv_base`. The program makes the objects, and hands them on as the traits of `gv_base`.
#![tactic(auto)]

mod beside;
mod files;
mod folder;
mod links;
mod reading;
mod replacing;
mod streams;
mod trouble;
mod words;

pub use files::FsStore;
pub use folder::FsTree;
pub use streams::{StdSink, StdSource};
pub use words::words_given;
