//! The step of a set that clashes: its clause, and the trail's reasons as hints. O(variables).

ghost use Rattle.std.specs.Prelude.{◌≡◌, ◌*◌, ◌<◌, ◌≤◌, ◌^◌, ℕ, List, true, IfOk};
ghost use Rattle.std.specs.List.{AllByRecursion};
ghost use Rattle.gv_logic.specs.Kept.{IsRising};
ghost use Rattle.gv_logic.specs.Logs.{follows, set_clause};
ghost use Rattle.gv_trail.specs.Entries.{lits_of};
ghost use Rattle.gv_solver.specs.Clash.{Derived, IsClash};
ghost use Rattle.gv_solver.specs.Replay.{replay_by};
ghost use Rattle.gv_solver.specs.Resting.{reasons};

use crate::marks::{mark, marks_off};
use gv_base::NoMemory;
use gv_logic::{Clause, Lit, is_on};
use gv_refute::{Hints, Step};
use gv_trail::Trail;
use std::alloc::Global;

/// The clause of a set: one of its members is on.
pub(crate) fn clause_of(alloc: Global, set: &[u32]) -> Result<Clause, NoMemory>
    requires { AllByRecursion (λ i. i < 2 ^ 31) set.now }
    ensures { IfOk result (λ clause. clause ≡ set_clause set.now) }
{
    let mut clause = Clause::new(alloc);
    for member in set {
        clause.add(Lit(2 * *member))?;
    }
    Ok(clause)
}

/// The step of a set that clashes as the trail shows, `last` being the clause that is false.
pub(crate) fn step_of(
    alloc: Global,
    trail: &Trail,
    variables: u32,
    set: &[u32],
    last: u32,
) -> Result<Step, NoMemory>
    requires variables { trail.now.variables ≡ variables }
    requires range { AllByRecursion (λ i. i < 2 ^ 31) set.now }
    ensures clause { IfOk result (λ step. step.clause ≡ set_clause set.now) }
    ensures step_follows { (cs : List (List ℕ)) (t : ℕ) → IsRising 0 t set.now → t ≤ variables
        → Derived cs trail.now → IsClash cs set.now trail.now last
        → IfOk result (λ step. follows (2 * variables) cs step.clause step.hints ≡ true) }
{
    let mut on = marks_off(alloc, variables, set)?;
    let hints = replayed(alloc, trail, &mut on, last)?;
    let clause = clause_of(alloc, set)?;
    Ok(Step { clause, hints })
}

// The hints by which a clause follows, from the partial assignment that makes it false.
fn replayed(alloc: Global, trail: &Trail, on: &mut Vec<bool>, last: u32) -> Result<Hints, NoMemory>
    ensures { IfOk result (λ hints. hints ≡ replay_by (reasons trail.now) on.old.items (lits_of trail.now.entries) last) }
{
    let mut hints = Hints::new(alloc);
    for lit in trail.assigned() {
        if let Some(reason) = trail.reason(*lit) {
            if is_on(on, lit.opposite()) {
                hints.add(reason)?;
                return Ok(hints);
            }
            if !is_on(on, *lit) {
                mark(on, *lit);
                hints.add(reason)?;
            }
        }
    }
    hints.add(last)?;
    Ok(hints)
}
