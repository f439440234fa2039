//! The solver over clauses, and over gates.

ghost use Rattle.std.specs.Prelude.{◌≡◌, ◌<◌, ◌≤◌, ◌^◌, IfOk};
ghost use Rattle.gv_base.specs.Steps.{after};
ghost use Rattle.gv_base.specs.declared.steps.Kind.TheVariants.{Solve};
ghost use Rattle.gv_logic.specs.Encoding.{formula_of};
ghost use Rattle.gv_solver.specs.Answer.{Answers};
ghost use Rattle.gv_solver.specs.Found.{IsAnswer};
ghost use Rattle.gv_solver.specs.Search.{Ready};

use crate::least::least_bits;
use crate::probing::refute;
use crate::rounds::{Round, Work, one_round};
use crate::search::descend;
use crate::{Answer, FlagSets};
use gv_base::{Kind, Ledger, NoMemory, Steps};
use gv_encode::encoding_law;
use gv_logic::{Clauses, Gates};
use gv_refute::{Log, least_bits_law, step_law};
use gv_trail::{Propagation, Trail};
use std::alloc::Global;

/// The least bits that give the gates' root true, a refutation, or, where the budget is spent, as
/// many kept sets as it allows. A budget of N allows N kept sets, and is spent where a further one
/// would be needed. Counts one Solve.
pub fn solve<L: Ledger>(
    alloc: Global,
    gates: &Gates,
    clauses: &Clauses,
    budget: u32,
    steps: &mut Steps<L>,
) -> Result<Answer, NoMemory>
    requires encoded { clauses.now ≡ formula_of gates.now }
    requires some { 0 < budget }
    requires most { budget ≤ 1000000 }
    ensures ticked { steps.new ≡ after Solve steps.old }
    ensures answers { IfOk result (Answers gates.now budget) }
{
    steps.tick(Kind::Solve);
    // what the answer says of the clauses, said of the gates
    encoding_law();
    step_law();
    least_bits_law();
    let answer = search(alloc, clauses, gates.inputs(), budget)?;
    Ok(answer)
}

// The least bits of the inputs under which no clause is false or unit, a refutation, or as many
// kept sets as the budget allows. Most queries are answered by the first way down, and need no
// copy of the clauses.
fn search(alloc: Global, clauses: &Clauses, inputs: u32, budget: u32) -> Result<Answer, NoMemory>
    requires few { clauses.now.variables ≤ 2 ^ 30 }
    requires inputs { inputs ≤ clauses.now.variables }
    ensures { IfOk result (IsAnswer clauses.now inputs budget) }
{
    let mut trail = Trail::new(alloc, clauses)?;
    match descend(&mut trail, clauses, inputs, 0) {
        Propagation::Fixed => {
            let mut log = Log::new(alloc);
            let bits = least_bits(alloc, &mut trail, clauses, &mut log, inputs)?;
            Ok(Answer::Found { bits, log })
        }
        Propagation::Conflict { .. } => {
            if trail.level() > 0 {
                return learn(alloc, clauses, inputs, budget, trail);
            }
            let mut log = Log::new(alloc);
            let last = refute(alloc, &mut trail, clauses, inputs, &[])?;
            log.add(last)?;
            Ok(Answer::Refuted { log })
        }
    }
}

// The same, with a clause more for each conflict. `probes` is a trail over the clauses.
fn learn(
    alloc: Global,
    clauses: &Clauses,
    inputs: u32,
    budget: u32,
    probes: Trail,
) -> Result<Answer, NoMemory>
    requires { Ready clauses.now inputs probes }
    ensures { IfOk result (IsAnswer clauses.now inputs budget) }
{
    let mut probes = probes;
    let mut trail = Trail::new(alloc, clauses)?;
    let mut work = Work {
        clauses: clauses.copy(alloc)?,
        log: Log::new(alloc),
        sets: FlagSets::new(alloc),
    };
    let mut from = 0;
    'rounds: loop {
        match one_round(
            alloc,
            &mut trail,
            &mut probes,
            &mut work,
            inputs,
            budget,
            from,
        )? {
            Round::Kept(next) => from = next,
            Round::Full => {
                return Ok(Answer::Spent {
                    log: work.log,
                    sets: work.sets,
                });
            }
            Round::Empty => return Ok(Answer::Refuted { log: work.log }),
            Round::Model => {
                let bits = least_bits(alloc, &mut trail, &work.clauses, &mut work.log, inputs)?;
                return Ok(Answer::Found {
                    bits,
                    log: work.log,
                });
            }
        }
    }
}
