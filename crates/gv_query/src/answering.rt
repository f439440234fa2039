//! An answer as a claim, with whether it is that of a record; and answers by records alone.
//!
//! With a budget it costs what `ask` costs, without one what `first_backed` does.

ghost use Rattle.std.specs.Prelude.{◌≡◌, true, ◌<◌, ◌≤◌, if◌then◌else◌, IfOk, IfErr};
ghost use Rattle.gv_base.specs.Steps.{after};
ghost use Rattle.gv_base.specs.declared.steps.Kind.TheVariants.{Solve};
ghost use Rattle.gv_query.specs.Answering.{CountsAnswer, SpentBy};
ghost use Rattle.gv_query.specs.Asking.{IsAnswered};

use crate::{Outcome, ask, first_backed};
use gv_base::{Ledger, NoMemory, Steps};
use gv_cert::{Claim, Known};
use gv_logic::Gates;
use gv_solver::FlagSets;
use std::alloc::Global;

/// Why gates have no answer.
#[derive(Drop)]
pub enum AskFault {
    /// No record is backed and the budget is spent: its sets, as `Outcome` has them.
    Spent { sets: FlagSets },
    /// Memory was wanted and not given.
    NoMemory,
}

impl From<NoMemory> for AskFault {
    ghost use Rattle.std.specs.Prelude.{◌≡◌};
    ghost use Rattle.gv_query.specs.declared.answering.AskFault.TheVariants.{NoMemory};

    ghost from_gives = { λ _ fault. fault ≡ NoMemory };

    fn from(_refused: NoMemory) -> AskFault {
        AskFault::NoMemory
    }
}

/// An answer, and whether it is that of a record.
#[derive(Drop)]
pub struct Answer {
    pub claim: Claim,
    pub reused: bool,
}

/// What is so of the gates, by a record or solved within the budget.
pub fn answer_of<L: Ledger>(
    alloc: Global,
    gates: &Gates,
    budget: u32,
    given: &Known,
    steps: &mut Steps<L>,
) -> Result<Answer, AskFault>
    requires some { 0 < budget }
    requires most { budget ≤ 1000000 }
    ensures answered { IfOk result (λ a. IsAnswered gates.now budget given.now a.claim a.reused) }
    ensures counted { CountsAnswer result steps.old steps.new }
    ensures spent { IfErr result (SpentBy gates.now budget given.now) }
{
    match ask(alloc, gates, budget, given, steps)? {
        Outcome::Refuted { log, reused } => Ok(Answer {
            claim: Claim::Refuted { log },
            reused,
        }),
        Outcome::Found { bits, log, reused } => Ok(Answer {
            claim: Claim::Found { bits, log },
            reused,
        }),
        Outcome::Spent { sets } => Err(AskFault::Spent { sets }),
    }
}

/// What is so of the gates; with no budget only what a record says.
pub fn answer_within<L: Ledger>(
    alloc: Global,
    gates: &Gates,
    budget: u32,
    given: &Known,
    steps: &mut Steps<L>,
) -> Result<Answer, AskFault>
    requires most { budget ≤ 1000000 }
    ensures answered { IfOk result (λ a. IsAnswered gates.now budget given.now a.claim a.reused) }
    ensures counted { IfOk result (λ a. steps.new ≡ (if a.reused then steps.old else after Solve steps.old)) }
    ensures spent { IfErr result (SpentBy gates.now budget given.now) }
    ensures reused { IfOk result (λ a. budget ≡ 0 → a.reused ≡ true) }
    ensures unsolved { budget ≡ 0 → steps.new ≡ steps.old }
{
    if budget == 0 {
        return recalled(alloc, gates, budget, given);
    }
    answer_of(alloc, gates, budget, given, steps)
}

// The answer of the first backed record. Where none is backed, no sets spend what is no budget.
#[tactic(auto, using(crate::proofs::Recalled::is_recalled, crate::proofs::Recalled::none_recalled))]
fn recalled(alloc: Global, gates: &Gates, budget: u32, given: &Known) -> Result<Answer, AskFault>
    requires none { budget ≡ 0 }
    ensures answered { IfOk result (λ a. IsAnswered gates.now budget given.now a.claim a.reused) }
    ensures reused { IfOk result (λ a. a.reused ≡ true) }
    ensures spent { IfErr result (SpentBy gates.now budget given.now) }
{
    match first_backed(alloc, gates, given)? {
        Some(claim) => Ok(Answer {
            claim,
            reused: true,
        }),
        None => Err(AskFault::Spent {
            sets: FlagSets::new(alloc),
        }),
    }
}
