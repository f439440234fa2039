//! Calls of `gv_trail`.
//!
//! A step is `decide`, `back`, `literal` and a number, `+` and the list of a clause that is attached, `propagate` or
//! `assigned`.
ghost use Rattle.std.specs.Prelude.{◌*◌, ◌<◌, OnOk};
ghost use Rattle.gv_logic.specs.Formulas.{Formula};
ghost use Rattle.gv_trail.specs.Derived.{IsTrail};

use crate::given::Given;
use crate::logic::{are_within, clause_in, clauses_in, tell_lits, u32_in};
use crate::written::Telling;
use gv_base::{NoMemory, Text};
use gv_logic::{Clauses, Lit};
use gv_trail::{Propagation, Trail};
use std::alloc::Global;

/// Tells the answer to the call of this library, if it is one: what a trail over clauses tells at the steps of a walk.
pub(crate) fn answer(alloc: Global, call: &str, given: &Given, told: &mut Telling) -> bool {
    if call != "trail" {
        return false;
    }
    match clauses_in(alloc, given.bytes(0)) {
        Ok(Some(clauses)) => walked(alloc, clauses, given.from(1), told),
        Ok(None) => told.say("no clauses"),
        Err(NoMemory) => told.lack(),
    }
    true
}

fn walked(alloc: Global, clauses: Clauses, steps: &[Text], told: &mut Telling) {
    let mut all = Telling::new(alloc);
    over(alloc, clauses, steps, &mut all);
    match all.bytes() {
        Ok(bytes) => told.add(bytes.get(1..).unwrap_or(&[])),
        Err(NoMemory) => told.lack(),
    }
}

fn over(alloc: Global, first: Clauses, steps: &[Text], told: &mut Telling) {
    let mut clauses = first;
    let Ok(mut trail) = Trail::new(alloc, &clauses) else {
        return told.lack();
    };
    for step in steps {
        let Ok(()) = perform(alloc, step.bytes(), &mut clauses, &mut trail, told) else {
            return told.lack();
        };
    }
}

fn perform(
    alloc: Global,
    step: &[u8],
    clauses: &mut Clauses,
    trail: &mut Trail,
    told: &mut Telling,
) -> Result<(), NoMemory>
    requires over { IsTrail clauses.old trail.old }
    ensures over { OnOk result (IsTrail clauses.new trail.new) }
{
    let number = u32_in(step);
    match step {
        [b'+', list @ ..] => return attach(alloc, list, clauses, trail),
        [b'd', ..] if number / 2 < clauses.variables() => decide(trail, Lit(number)),
        [b'b', ..] => trail.back_to(number.min(trail.level())),
        [b'p', ..] => tell_propagation(trail.propagate(clauses), told),
        _ => tell(step, trail, told),
    }
    Ok(())
}

// Adds a clause and attaches it.
fn attach(
    alloc: Global,
    list: &[u8],
    clauses: &mut Clauses,
    trail: &mut Trail,
) -> Result<(), NoMemory>
    requires over { IsTrail clauses.old trail.old }
    ensures over { OnOk result (IsTrail clauses.new trail.new) }
{
    let clause = clause_in(alloc, list)?;
    if !are_within(clause.items(), clauses.variables()) {
        return Ok(());
    }
    let number = clauses.count();
    clauses.add(clause.items())?;
    trail.attach(clauses, number)
}

// Makes a literal true, unless its variable is assigned.
fn decide(trail: &mut Trail, lit: Lit)
    requires range { lit < 2 * trail.old.variables }
    ensures over { (f : Formula) → IsTrail f trail.old → IsTrail f trail.new }
{
    match trail.of(lit) {
        Some(_) => {}
        None => trail.decide(lit),
    }
}

fn tell_propagation(said: Propagation, told: &mut Telling) {
    match said {
        Propagation::Fixed => told.say(" fixed"),
        Propagation::Conflict { clause } => {
            told.say(" conflict ");
            told.number(u64::from(clause));
        }
    }
}

// The level and the true literals, or the value, the level and the reason of one literal.
fn tell(step: &[u8], trail: &Trail, told: &mut Telling) {
    if step.starts_with(b"assigned") {
        told.add(b" ");
        told.number(u64::from(trail.level()));
        told.add(b":");
        return tell_lits(trail.assigned(), told);
    }
    let lit = Lit(u32_in(step));
    told.say(match trail.of(lit) {
        Some(true) => " true",
        Some(false) => " false",
        None => " free",
    });
    if let Some(level) = trail.level_of(lit) {
        told.add(b"@");
        told.number(u64::from(level));
    }
    if let Some(number) = trail.reason(lit) {
        told.add(b"<");
        told.number(u64::from(number));
    }
}
