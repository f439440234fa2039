//! The decisions on which a false clause rests: those that its literals' opposites come from.
//! O(length of the reasons that are looked at, and variables).

ghost use Rattle.std.specs.Prelude.{◌≡◌, IfOk, slice_get};
ghost use Rattle.gv_trail.specs.Entries.{lits_of};
ghost use Rattle.gv_solver.specs.Resting.{marked_against, against_clause, needed_at, needed_by, rests_by, rests_on, reasons};

use crate::marks::{mark, unmarked};
use gv_base::NoMemory;
use gv_logic::{Clauses, Lit, is_on};
use gv_trail::Trail;
use std::alloc::Global;

/// The inputs whose decisions the false clause of this number rests on.
pub(crate) fn resting(
    alloc: Global,
    trail: &Trail,
    clauses: &Clauses,
    conflict: u32,
) -> Result<Vec<u32>, NoMemory>
    requires { trail.now.variables ≡ clauses.now.variables }
    ensures { IfOk result (λ set. set.items ≡ rests_on clauses.now.clauses trail.now conflict) }
{
    let mut marks = unmarked(alloc, clauses.variables())?;
    mark_clause(&mut marks, clauses, conflict);
    mark_needed(&mut marks, clauses, trail);
    marked_decisions(alloc, &marks, trail)
}

// Marks the opposites of the literals.
fn mark_against(marks: &mut Vec<bool>, lits: &[Lit])
    ensures { marks.new.items ≡ marked_against marks.old.items lits.now }
{
    for lit in lits {
        mark(marks, lit.opposite());
    }
}

fn mark_clause(marks: &mut Vec<bool>, clauses: &Clauses, number: u32)
    ensures { marks.new.items ≡ against_clause marks.old.items (slice_get clauses.now.clauses number) }
{
    if let Some(lits) = clauses.get(number) {
        mark_against(marks, lits);
    }
}

// Marks what a literal rests on, if it is marked.
fn mark_reason(marks: &mut Vec<bool>, clauses: &Clauses, lit: Lit, reason: Option<u32>)
    ensures { marks.new.items ≡ needed_at clauses.now.clauses marks.old.items lit reason }
{
    if is_on(marks, lit) {
        if let Some(number) = reason {
            mark_clause(marks, clauses, number);
        }
    }
}

// The same for all literals of the trail, the last first.
fn mark_needed(marks: &mut Vec<bool>, clauses: &Clauses, trail: &Trail)
    ensures { marks.new.items ≡ needed_by clauses.now.clauses (reasons trail.now) (lits_of trail.now.entries) marks.old.items }
{
    let lits = trail.assigned();
    let mut left = lits.len();
    while left > 0 {
        left -= 1;
        let lit = lits[left];
        mark_reason(marks, clauses, lit, trail.reason(lit));
    }
}

// The inputs of the decisions that are marked.
fn marked_decisions(alloc: Global, marks: &[bool], trail: &Trail) -> Result<Vec<u32>, NoMemory>
    ensures { IfOk result (λ set. set.items ≡ rests_by marks.now (reasons trail.now) (lits_of trail.now.entries)) }
{
    let mut set = Vec::new(alloc);
    for lit in trail.assigned() {
        if trail.reason(*lit).is_none() && is_on(marks, *lit) {
            set.push(lit.0 / 2)?;
        }
    }
    Ok(set)
}
