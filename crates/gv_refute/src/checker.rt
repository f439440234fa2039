//! Whether a log is valid, and what it proves.
//!
//! A step follows where its clause names literals of the variables, none twice and none with its
//! opposite, and where its hints, taken in order with every literal of the clause false, make one
//! literal true each until the last names a clause that is false. A hint names a clause or an
//! earlier step.
//!
//! `check` costs the length of the log, of its hints and of the clauses that these name.
//! `proves_none` costs the length of the log. `proves_least` looks for each step behind the one
//! that it found last, so steps in the order of the inputs cost the length of the log and of the
//! bits for each input that is on.

ghost use Rattle.std.specs.Prelude.{◌≡◌, ◌↔◌, ◌+◌, ◌*◌, ◌<◌, ◌≤◌, ◌^◌, ◌++◌, true, false, None, length, take, drop, IsTrue, IfSome, MatchBool, MatchOption, slice_get, slice_index_or, option_map, replicate};
ghost use Rattle.gv_logic.specs.Partial.{is_true, all_false, unit_after};
ghost use Rattle.gv_logic.specs.Logs.{Step as LogStep, refuted, follows, step_clauses, HasList, set_clause, offs, least_set, ProvesNone, ProvesLeast};
ghost use Rattle.gv_refute.specs.Checker.{Judges};
ghost use Rattle.gv_refute.specs.PrivateWords.{Starts};

use crate::{Log, Marks, Step};
use gv_logic::{Bits, Clauses, Lit};

/// What `check` says of a log.
#[derive(Clone, Copy, Debug, PartialEq, Eq)]
pub enum Verdict {
    /// Each step follows.
    Accepted,
    /// This step, from 0, is the first that doesn't follow.
    Refused { step: u32 },
}

/// Says whether each step of the log follows from the clauses and the earlier steps, and else
/// which is the first that doesn't. The marks were made for the clauses' variables, and are as
/// before afterwards.
pub fn check(clauses: &Clauses, log: &Log, marks: &mut Marks) -> Verdict
    requires { marks.old ≡ replicate (2 * clauses.now.variables) false }
    ensures judges { Judges clauses.now log.now result }
    ensures marks { marks.new ≡ marks.old }
{
    let steps = log.items();
    for i in 0..steps.len() {
        if !step_follows(marks, clauses, steps, i) {
            return Verdict::Refused { step: i as u32 };
        }
    }
    Verdict::Accepted
}

/// Whether some step has the empty clause.
pub fn proves_none(log: &Log) -> bool
    ensures { IsTrue result ↔ ProvesNone log.now }
{
    for step in log.items() {
        if step.clause.items().is_empty() {
            return true;
        }
    }
    false
}

/// Whether for each input that is on some step says that it, or a lower one that is off in these
/// bits, has to be on: its clause is, in rising order, the literal of the input and those of the
/// lower inputs that are off.
pub fn proves_least(log: &Log, bits: &Bits) -> bool
    ensures { IsTrue result ↔ ProvesLeast log.now bits.now }
{
    let mut from = 0;
    for (input, on) in bits.items().iter().enumerate() {
        if !*on {
            continue;
        }
        match step_at(log.items(), from, bits.items(), input) {
            Some(place) => from = place,
            None => return false,
        }
    }
    true
}

// Whether step i follows. Afterwards nothing is marked.
fn step_follows(marks: &mut Marks, clauses: &Clauses, log: &[Step], i: usize) -> bool
    requires step { i < length log.now }
    requires clean { marks.old ≡ replicate (length marks.old) false }
    ensures follows { (other : LogStep) → result ≡ follows (length marks.old) (clauses.now.clauses ++ step_clauses (take i log.now))
        (slice_index_or log.now i other).clause (slice_index_or log.now i other).hints }
    ensures clean { marks.new ≡ marks.old }
{
    let step = &log[i];
    let mut follows = start(marks, step.clause.items());
    if follows {
        follows = refuted(marks, clauses, log, i, step.hints.items());
    }
    marks.clear();
    follows
}

// Makes each literal of a step's clause false; not where a literal is of none of the variables, or
// stands twice or with its opposite.
fn start(marks: &mut Marks, lits: &[Lit]) -> bool
    ensures starts { Starts marks.old lits.now result marks.new }
    ensures count { length marks.new ≡ length marks.old }
{
    for lit in lits {
        let lit = *lit;
        if lit.0 as usize >= marks.count() || marks.is_true(lit) || marks.is_true(lit.opposite()) {
            return false;
        }
        marks.set(lit.opposite());
    }
    true
}

// Takes the hints in order: each but the last makes one literal true, and the last is false.
fn refuted(marks: &mut Marks, clauses: &Clauses, log: &[Step], i: usize, hints: &[u32]) -> bool
    requires { i ≤ length log.now }
    ensures refuted { result ≡ refuted hints.now (clauses.now.clauses ++ step_clauses (take i log.now)) marks.old }
    ensures count { length marks.new ≡ length marks.old }
{
    for k in 0..hints.len() {
        let Some(lits) = named(clauses, log, i, hints[k]) else {
            return false;
        };
        if k + 1 == hints.len() {
            return all_false(marks, lits);
        }
        match unit_of(marks, lits) {
            None => return false,
            Some(lit) => marks.set(lit),
        }
    }
    false
}

// The literals of the clause that a hint of step i names: one of the clauses, or that of an earlier
// step.
fn named<'a>(clauses: &'a Clauses, log: &'a [Step], i: usize, hint: u32) -> Option<&'a [Lit]>
    requires { i ≤ length log.now }
    ensures { slice_get (clauses.now.clauses ++ step_clauses (take i log.now)) hint ≡ option_map (λ c. c.now) result }
{
    let count = clauses.count();
    if hint < count {
        Some(clauses.at(hint))
    } else if ((hint - count) as usize) < i {
        let step = &log[(hint - count) as usize];
        Some(step.clause.items())
    } else {
        None
    }
}

fn all_false(marks: &Marks, lits: &[Lit]) -> bool
    ensures { result ≡ all_false marks.now lits.now }
{
    for lit in lits {
        if !marks.is_true(lit.opposite()) {
            return false;
        }
    }
    true
}

// The literal that isn't assigned, where no literal is true and there is one such literal, counted
// as a value.
fn unit_of(marks: &Marks, lits: &[Lit]) -> Option<Lit>
    ensures unit { result ≡ unit_after marks.now None lits.now }
    ensures free { IfSome result (λ lit. is_true marks.now lit ≡ false) }
{
    let mut found: Option<Lit> = None;
    for lit in lits {
        let lit = *lit;
        if marks.is_true(lit) {
            return None;
        }
        if !marks.is_true(lit.opposite()) {
            if let Some(other) = found {
                if other != lit {
                    return None;
                }
            }
            found = Some(lit);
        }
    }
    found
}

// The place of a step that says so of an input, looked for from `from` on and then from the start.
fn step_at(log: &[Step], from: usize, bits: &[bool], input: usize) -> Option<usize>
    requires input { input < length bits.now }
    requires few { length bits.now < 2 ^ 32 }
    ensures { MatchOption result (HasList (set_clause (least_set bits.now input)) (step_clauses log.now) → ⊥)
        (λ _. HasList (set_clause (least_set bits.now input)) (step_clauses log.now)) }
{
    if let Some(place) = step_from(log, from, bits, input) {
        return Some(place);
    }
    step_from(log, 0, bits, input)
}

fn step_from(log: &[Step], from: usize, bits: &[bool], input: usize) -> Option<usize>
    requires input { input < length bits.now }
    requires few { length bits.now < 2 ^ 32 }
    ensures { MatchOption result (HasList (set_clause (least_set bits.now input)) (step_clauses (drop from log.now)) → ⊥)
        (λ _. HasList (set_clause (least_set bits.now input)) (step_clauses log.now)) }
{
    for place in from..log.len() {
        let step = &log[place];
        if is_least(step.clause.items(), bits, input) {
            return Some(place);
        }
    }
    None
}

// Whether the literals are those of the inputs below this one that are off, and its own.
fn is_least(lits: &[Lit], bits: &[bool], input: usize) -> bool
    requires input { input < length bits.now }
    requires few { length bits.now < 2 ^ 32 }
    ensures { MatchBool result (lits.now ≡ set_clause (least_set bits.now input)) (lits.now ≡ set_clause (least_set bits.now input) → ⊥) }
{
    let Some((last, front)) = lits.split_last() else {
        return false;
    };
    if last.0 as usize != 2 * input {
        return false;
    }
    are_offs(front, &bits[..input])
}

// Whether the literals are those of the bits that are off.
fn are_offs(lits: &[Lit], bits: &[bool]) -> bool
    requires { length bits.now < 2 ^ 32 }
    ensures { MatchBool result (lits.now ≡ set_clause (offs 0 bits.now)) (lits.now ≡ set_clause (offs 0 bits.now) → ⊥) }
{
    let mut at = 0;
    for (place, on) in bits.iter().enumerate() {
        if *on {
            continue;
        }
        if at >= lits.len() {
            return false;
        }
        let lit = lits[at];
        if lit.0 as usize != 2 * place {
            return false;
        }
        at += 1;
    }
    at == lits.len()
}
