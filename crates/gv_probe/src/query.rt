//! Calls of `gv_query`.
ghost use Rattle.std.specs.Prelude.{◌≡◌, ◌<◌, ◌≤◌};
ghost use Rattle.gv_query.specs.Asking.{Asked};

use crate::cert::{known_in, told_claim};
use crate::given::Given;
use crate::logic::{gates_in, told_bits};
use crate::refute::tell_log;
use crate::solver::tell_sets;
use crate::written::Telling;
use gv_base::{Ledger, NoMemory, Steps, Text};
use gv_cert::{Claim, Known, naming_law, write_answer};
use gv_logic::{Gates, clause_count, gate_bytes};
use gv_query::{Outcome, ask, backing_law, first_backed};
use gv_refute::Log;
use std::alloc::Global;
use std::marker::Brand;
use std::sync::ledger::Blank;

/// Tells the answer to a call of this library, if it is one.
pub(crate) fn answer(alloc: Global, call: &str, given: &Given, told: &mut Telling) -> bool {
    match call {
        "query" => asked(alloc, false, given, told),
        "query-again" => asked(alloc, true, given, told),
        "first-backed" => backed(alloc, given, told),
        _ => return false,
    }
    true
}

// What is asked about gates within a budget, over records, and again over what was answered.
fn asked(alloc: Global, again: bool, given: &Given, told: &mut Telling) {
    match gates_in(alloc, given.bytes(1)) {
        Ok(Some(gates)) => over(alloc, again, &gates, given, told),
        Ok(None) => told.say("no gates"),
        Err(NoMemory) => told.lack(),
    }
}

fn over(alloc: Global, again: bool, gates: &Gates, given: &Given, told: &mut Telling) {
    let Ok(certs) = known_in(alloc, given.from(2)) else {
        return told.lack();
    };
    let budget = given.budget(0);
    counted::<Brand>(alloc, Blank::new(2), again, gates, budget, &certs, told)
}

fn counted<L: Ledger>(
    alloc: Global,
    blank: Blank,
    again: bool,
    gates: &Gates,
    budget: u32,
    certs: &Known,
    told: &mut Telling,
)
    requires name { blank.name ≡ L.name }
    requires parts { blank.parts ≡ L.parts }
    requires two { blank.parts ≡ 2 }
    requires some { 0 < budget }
    requires most { budget ≤ 1000000 }
{
    let mut steps = Steps::<L>::open(blank);
    match ask(alloc, gates, budget, certs, &mut steps) {
        Ok(outcome) => {
            if again {
                tell_again(alloc, gates, budget, certs, outcome, &mut steps, told);
            } else {
                tell(alloc, &outcome, told);
            }
        }
        Err(NoMemory) => told.lack(),
    }
}

fn tell_again<L: Ledger>(
    alloc: Global,
    gates: &Gates,
    budget: u32,
    certs: &Known,
    outcome: Outcome,
    steps: &mut Steps<L>,
    told: &mut Telling,
)
    requires asked { Asked gates.now budget certs.now outcome }
    requires some { 0 < budget }
    requires most { budget ≤ 1000000 }
{
    let Ok(answer) = answer_of(alloc, gates, budget, certs, outcome) else {
        return told.lack();
    };
    match is_same(alloc, gates, budget, &answer, steps) {
        Ok(is_again) => told.say(if is_again { "again" } else { "other" }),
        Err(NoMemory) => told.lack(),
    }
}

// Whether the record of an answer, asked anew, is taken, with the same answer.
fn is_same<L: Ledger>(
    alloc: Global,
    gates: &Gates,
    budget: u32,
    answer: &Text,
    steps: &mut Steps<L>,
) -> Result<bool, NoMemory>
    requires some { 0 < budget }
    requires most { budget ≤ 1000000 }
{
    let mut certs = Known::new(alloc);
    certs.insert(&gate_bytes(alloc, gates)?, answer)?;
    let outcome = ask(alloc, gates, budget, &certs, steps)?;
    if !is_reused(&outcome) {
        return Ok(false);
    }
    let second = answer_of(alloc, gates, budget, &certs, outcome)?;
    Ok(second.bytes() == answer.bytes())
}

// The bytes of an answer, and none where the budget is spent.
fn answer_of(
    alloc: Global,
    gates: &Gates,
    budget: u32,
    certs: &Known,
    outcome: Outcome,
) -> Result<Text, NoMemory>
    requires { Asked gates.now budget certs.now outcome }
{
    naming_law();
    let claim = match outcome {
        Outcome::Refuted { log, .. } => Claim::Refuted { log },
        Outcome::Found { bits, log, .. } => Claim::Found { bits, log },
        Outcome::Spent { .. } => return Text::of(alloc, b""),
    };
    write_answer(alloc, clause_count(gates), &claim)
}

fn is_reused(outcome: &Outcome) -> bool {
    match outcome {
        Outcome::Refuted { reused, .. } => *reused,
        Outcome::Found { reused, .. } => *reused,
        Outcome::Spent { .. } => false,
    }
}

fn tell(alloc: Global, outcome: &Outcome, told: &mut Telling) {
    match outcome {
        Outcome::Refuted { log, reused } => {
            told.say("refuted");
            tell_reused(log, *reused, told);
        }
        Outcome::Found { bits, log, reused } => {
            told.say("found ");
            told_bits(bits.items(), told);
            tell_reused(log, *reused, told);
        }
        Outcome::Spent { sets } => {
            told.say("spent");
            tell_sets(alloc, sets, told);
        }
    }
}

// The log of a record, and that there is none.
fn tell_reused(log: &Log, reused: bool, told: &mut Telling) {
    if !reused {
        return told.say(" anew");
    }
    told.say(" by");
    tell_log(log, told);
}

// What the first record that is backed claims of gates.
fn backed(alloc: Global, given: &Given, told: &mut Telling) {
    match gates_in(alloc, given.bytes(0)) {
        Ok(Some(gates)) => first(alloc, &gates, given, told),
        Ok(None) => told.say("no gates"),
        Err(NoMemory) => told.lack(),
    }
}

fn first(alloc: Global, gates: &Gates, given: &Given, told: &mut Telling) {
    backing_law();
    let Ok(certs) = known_in(alloc, given.from(1)) else {
        return told.lack();
    };
    match first_backed(alloc, gates, &certs) {
        Ok(Some(claim)) => told_claim(&claim, told),
        Ok(None) => told.say("none"),
        Err(NoMemory) => told.lack(),
    }
}
