//! The least bits that give gates the value true, or a proof that there are none.
//!
//! `solve` searches over the clauses of gates. It decides the least undecided input off after each
//! complete propagation, and of each conflict it learns a kept set: inputs of which one has to be
//! on. The clause of the set is a step of the log, and is attached; before it comes the clause of the
//! conflict's first implication point. Then it goes on from the level below that of the set's last
//! decision. It stands on `gv_trail` for propagation and on `gv_refute` for
//! logs. The layer above uses the contract of `solve`, and `backed_law` for answers that weren't found
//! here.
//!
//! A conflict costs two propagations from level 0 for each member of the set that it rests on and two
//! for the step, on a trail of their own, and the part of the way down that was taken back; each input
//! that is on costs one more at the end. Memory is the log, the sets, a trail and marks as long as the
//! literals; behind a conflict above level 0 a second trail and a copy of the clauses besides.
#![tactic(auto)]

mod answer;
mod laws;
mod least;
mod marks;
mod point;
mod probing;
mod resting;
mod rounds;
mod search;
mod sets;
mod solver;
mod steps;

pub use answer::Answer;
pub use laws::{backed_law, kept_bound_law};
pub use sets::{FlagSet, FlagSets};
pub use solver::solve;
