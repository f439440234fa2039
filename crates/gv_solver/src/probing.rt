//! Propagation from level 0 with the inputs of a set off: whether the set is open or clashes. A
//! probe is two propagations, of which the first finds what level 0 asks for; dropping probes once
//! for each member.

ghost use Rattle.std.specs.Prelude.{◌≡◌, ◌+◌, ◌*◌, ◌<◌, ◌≤◌, ◌^◌, ◌∷◌, [], ℕ, true, false, IfOk, OnOk};
ghost use Rattle.std.specs.List.{AllByRecursion};
ghost use Rattle.gv_logic.specs.Kept.{AllOff, IsRising};
ghost use Rattle.gv_logic.specs.Logs.{follows, set_clause};
ghost use Rattle.gv_logic.specs.Partial.{is_true, Has};
ghost use Rattle.gv_trail.specs.Derived.{IsTrail};
ghost use Rattle.gv_trail.specs.Entries.{assignment};
ghost use Rattle.gv_solver.specs.Clash.{Drops, Says, Clashes};
ghost use Rattle.gv_solver.specs.Puts.{Grows, Settles, Rewinds};
ghost use Rattle.gv_solver.specs.Search.{Ready};

use crate::steps::step_of;
use gv_base::NoMemory;
use gv_logic::{Clauses, Lit};
use gv_refute::Step;
use gv_trail::{Propagation, Trail};
use std::alloc::Global;

/// Propagates.
pub(crate) fn settle(trail: &mut Trail, clauses: &Clauses) -> Propagation
    requires { IsTrail clauses.now trail.old }
    ensures { Settles clauses.now trail.old trail.new result }
{
    trail.propagate(clauses)
}

/// Takes all decisions back.
pub(crate) fn rewind(trail: &mut Trail, clauses: &Clauses)
    requires { IsTrail clauses.now trail.old }
    ensures { Rewinds clauses.now trail.old trail.new }
{
    trail.back_to(0);
}

/// Drops each member without which the others still clash, in order.
pub(crate) fn drop_members(
    trail: &mut Trail,
    clauses: &Clauses,
    set: &mut Vec<u32>,
) -> Result<(), NoMemory>
    requires over { IsTrail clauses.now trail.old }
    requires few { trail.old.variables ≤ 2 ^ 30 }
    requires range { AllByRecursion (λ i. i < trail.old.variables) set.old.items }
    requires clash { Clashes set.old.items clauses.now.clauses }
    ensures over { IsTrail clauses.now trail.new }
    ensures drops { OnOk result (Drops clauses.now.clauses set.old.items set.new.items) }
{
    let mut i = 0;
    while i < set.len() {
        let member = set.remove(i);
        match probe(trail, clauses, set) {
            Some(_) => {}
            None => {
                set.insert(i, member)?;
                i += 1;
            }
        }
    }
    Ok(())
}

/// The step of a set that clashes, found by propagation.
pub(crate) fn refute(
    alloc: Global,
    trail: &mut Trail,
    clauses: &Clauses,
    inputs: u32,
    set: &[u32],
) -> Result<Step, NoMemory>
    requires ready { Ready clauses.now inputs trail.old }
    requires rising { IsRising 0 inputs set.now }
    requires clash { Clashes set.now clauses.now.clauses }
    ensures ready { Ready clauses.now inputs trail.new }
    ensures clause { IfOk result (λ step. step.clause ≡ set_clause set.now) }
    ensures step_follows { IfOk result (λ step. follows (2 * clauses.now.variables) clauses.now.clauses step.clause step.hints ≡ true) }
{
    match probe(trail, clauses, set) {
        Some(last) => step_of(alloc, trail, clauses.variables(), set, last),
        None => unreachable!(),
    }
}

// Puts an input off, unless it is assigned; says whether it is off.
fn put_off(trail: &mut Trail, input: u32) -> bool
    requires few { trail.old.variables ≤ 2 ^ 30 }
    requires range { input < trail.old.variables }
    ensures grows { Grows (input ∷ []) trail.old trail.new }
    ensures off { result ≡ true → is_true (assignment trail.new) (2 * input + 1) ≡ true }
    ensures on { result ≡ false → is_true (assignment trail.new) (2 * input) ≡ true }
{
    let off = Lit(2 * input + 1);
    match trail.of(off) {
        Some(is_off) => is_off,
        None => {
            trail.decide(off);
            true
        }
    }
}

// Puts the inputs off; says whether all are, else one of them is on.
fn set_off(trail: &mut Trail, set: &[u32]) -> bool
    requires few { trail.old.variables ≤ 2 ^ 30 }
    requires range { AllByRecursion (λ i. i < trail.old.variables) set.now }
    ensures grows { Grows set.now trail.old trail.new }
    ensures off { result ≡ true → AllOff (assignment trail.new) set.now }
    ensures on { result ≡ false → (i : ℕ) × Has i set.now × (is_true (assignment trail.new) (2 * i) ≡ true) }
{
    for member in set {
        if !put_off(trail, *member) {
            return false;
        }
    }
    true
}

// The clause at which the set clashes, or none where it is open.
fn probe(trail: &mut Trail, clauses: &Clauses, set: &[u32]) -> Option<u32>
    requires over { IsTrail clauses.now trail.old }
    requires few { trail.old.variables ≤ 2 ^ 30 }
    requires range { AllByRecursion (λ i. i < trail.old.variables) set.now }
    ensures says { Says clauses.now.clauses set.now trail.new result }
    ensures over { IsTrail clauses.now trail.new }
    ensures variables { trail.new.variables ≡ trail.old.variables }
{
    rewind(trail, clauses);
    if let Propagation::Conflict { clause } = settle(trail, clauses) {
        return Some(clause);
    }
    if !set_off(trail, set) {
        return Some(0);
    }
    match settle(trail, clauses) {
        Propagation::Fixed => None,
        Propagation::Conflict { clause } => Some(clause),
    }
}
