//! What the solver answers.

use crate::FlagSets;
use gv_logic::Bits;
use gv_refute::Log;

/// What was found of gates.
#[derive(Drop)]
pub enum Answer {
    /// No bits give the root true; the log proves it.
    Refuted { log: Log },
    /// The least bits that give the root true; the log proves them least.
    Found { bits: Bits, log: Log },
    /// The budget is spent: as many kept sets as it allows, in the order in which they were found,
    /// and the log by which they follow.
    Spent { log: Log, sets: FlagSets },
}
