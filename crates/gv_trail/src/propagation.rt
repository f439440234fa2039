//! What a propagation answers.

/// How a propagation ends.
#[derive(Clone, Copy, Debug, Drop, PartialEq, Eq)]
pub enum Propagation {
    /// No clause is false or unit.
    Fixed,
    /// The clause of that number, from 0, is false.
    Conflict { clause: u32 },
}

/// How one pass over the clauses ends.
#[derive(Clone, Copy, Drop)]
pub(crate) enum Sweep {
    /// No clause is false or unit, and no literal was assigned.
    Nothing,
    /// The clause of that number is false.
    Falsified(u32),
    /// A literal was assigned.
    Assigned,
}
