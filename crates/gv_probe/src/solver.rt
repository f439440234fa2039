//! Calls of `gv_solver`.
ghost use Rattle.std.specs.Prelude.{◌≡◌};
ghost use Rattle.gv_logic.specs.Encoding.{formula_of};

use crate::given::Given;
use crate::logic::{gates_in, tell_lits, tell_numbers, told_bits, u32_in};
use crate::written::Telling;
use gv_base::{Ledger, NoMemory, Steps};
use gv_encode::encode;
use gv_logic::{Bits, Clauses, Gates};
use gv_refute::{Log, Marks, Verdict, check, proves_least, proves_none};
use gv_solver::{Answer, FlagSets, solve};
use std::alloc::Global;
use std::marker::Brand;
use std::sync::ledger::Blank;

/// Tells the answer to a call of this library, if it is one: what is answered within a budget about gates, or its log.
pub(crate) fn answer(alloc: Global, call: &str, given: &Given, told: &mut Telling) -> bool {
    if !matches!(call, "solve" | "solve-log") {
        return false;
    }
    match gates_in(alloc, given.bytes(1)) {
        Ok(Some(gates)) => solved(alloc, call == "solve", &gates, given, told),
        Ok(None) => told.say("no gates"),
        Err(NoMemory) => told.lack(),
    }
    true
}

fn solved(alloc: Global, is_answer: bool, gates: &Gates, given: &Given, told: &mut Telling) {
    match encode(alloc, gates) {
        Ok(clauses) => {
            counted::<Brand>(
                alloc,
                Blank::new(2),
                is_answer,
                gates,
                &clauses,
                given,
                told,
            );
        }
        Err(NoMemory) => told.lack(),
    }
}

fn counted<L: Ledger>(
    alloc: Global,
    blank: Blank,
    is_answer: bool,
    gates: &Gates,
    clauses: &Clauses,
    given: &Given,
    told: &mut Telling,
)
    requires name { blank.name ≡ L.name }
    requires parts { blank.parts ≡ L.parts }
    requires two { blank.parts ≡ 2 }
    requires encoded { clauses.now ≡ formula_of gates.now }
{
    let mut steps = Steps::<L>::open(blank);
    match solve(alloc, gates, clauses, given.budget(0), &mut steps) {
        Ok(answer) => answer_or_log(alloc, is_answer, clauses, &answer, given, told),
        Err(NoMemory) => told.lack(),
    }
}

fn answer_or_log(
    alloc: Global,
    is_answer: bool,
    clauses: &Clauses,
    answer: &Answer,
    given: &Given,
    told: &mut Telling,
) {
    if is_answer {
        tell(alloc, answer, told);
        tell_check(alloc, clauses, answer, told);
    } else {
        log_of(answer, given, told);
    }
}

fn tell(alloc: Global, answer: &Answer, told: &mut Telling) {
    match answer {
        Answer::Refuted { .. } => told.say("refuted"),
        Answer::Found { bits, .. } => tell_found(alloc, bits, told),
        Answer::Spent { sets, .. } => {
            told.say("spent");
            tell_sets(alloc, sets, told);
        }
    }
}

fn tell_found(alloc: Global, bits: &Bits, told: &mut Telling) {
    told.say("found ");
    match bits.copy(alloc) {
        Ok(bits) => told_bits(bits.items(), told),
        Err(NoMemory) => told.lack(),
    }
}

// That the log is not accepted or doesn't prove the answer.
fn tell_check(alloc: Global, clauses: &Clauses, answer: &Answer, told: &mut Telling) {
    let Ok(mut marks) = Marks::new(alloc, clauses.variables()) else {
        return told.lack();
    };
    if !is_proved(answer) || check(clauses, log(answer), &mut marks) != Verdict::Accepted {
        told.say(" by no log");
    }
}

fn log(answer: &Answer) -> &Log {
    match answer {
        Answer::Refuted { log } => log,
        Answer::Found { log, .. } => log,
        Answer::Spent { log, .. } => log,
    }
}

fn is_proved(answer: &Answer) -> bool {
    match answer {
        Answer::Refuted { log } => proves_none(log),
        Answer::Found { bits, log } => proves_least(log, bits),
        Answer::Spent { .. } => true,
    }
}

/// Tells sets, a space before each.
pub(crate) fn tell_sets(alloc: Global, sets: &FlagSets, told: &mut Telling) {
    match sets.copy(alloc) {
        Ok(sets) => add_sets(&sets, told),
        Err(NoMemory) => told.lack(),
    }
}

fn add_sets(sets: &FlagSets, told: &mut Telling) {
    for set in sets.items() {
        told.add(b" ");
        tell_numbers(set.items(), told);
    }
}

// How many steps the log has, and the clauses of those that are asked for.
fn log_of(answer: &Answer, given: &Given, told: &mut Telling) {
    let steps = log(answer).items();
    told.number(steps.len() as u64);
    told.say(" steps");
    for part in given.from(2) {
        if let Some(step) = steps.get(u32_in(part.bytes()) as usize) {
            told.say(", ");
            tell_lits(step.clause.items(), told);
        }
    }
}
