//! The top call: which command words ask for, and all that it does over any outside.
#![tactic(auto)]

mod answering;
mod linting;
mod merging;
mod naming;
mod overlaying;
mod parting;
mod refusing;
mod replying;
mod running;
mod scanning;
mod serving;
mod summing;
mod verdict;
mod verifying;

pub use gv_demo::demo_files;
pub use gv_words::read_words;
pub use running::run;
