//! Marks by literal: O(variables) to make, O(1) to set.

ghost use Rattle.std.specs.Prelude.{◌≡◌, ◌*◌, ◌<◌, ◌^◌, true, false, IfOk, replicate, slice_set};
ghost use Rattle.std.specs.List.{AllByRecursion};
ghost use Rattle.gv_solver.specs.Marks.{marked};

use gv_base::NoMemory;
use gv_logic::Lit;
use std::alloc::Global;

/// Marks the literal.
pub(crate) fn mark(on: &mut Vec<bool>, lit: Lit)
    ensures { on.new.items ≡ slice_set on.old.items lit true }
{
    if (lit.0 as usize) < on.len() {
        on[lit.0 as usize] = true;
    }
}

/// No marks.
pub(crate) fn unmarked(alloc: Global, variables: u32) -> Result<Vec<bool>, NoMemory>
    ensures { IfOk result (λ on. on.items ≡ replicate (2 * variables) false) }
{
    Ok(vec![in alloc; false; 2 * variables as usize]?)
}

/// The partial assignment in which the set's inputs are off, and nothing else.
pub(crate) fn marks_off(alloc: Global, variables: u32, set: &[u32]) -> Result<Vec<bool>, NoMemory>
    requires { AllByRecursion (λ i. i < 2 ^ 31) set.now }
    ensures { IfOk result (λ on. on.items ≡ marked (replicate (2 * variables) false) set.now) }
{
    let mut on = unmarked(alloc, variables)?;
    for member in set {
        mark(&mut on, Lit(2 * *member + 1));
    }
    Ok(on)
}
