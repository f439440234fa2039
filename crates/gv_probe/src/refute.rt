//! Logs as they are written in a line, and calls of `gv_refute`.
//!
//! A log has its steps behind one another; a step is the list of its clause, `<` and that of its hints.
use crate::given::{Given, cut_at};
use crate::logic::{bits_in, clause_in, clauses_in, numbers_in, tell_lits, tell_numbers};
use crate::written::Telling;
use gv_base::{NoMemory, Text, words_of};
use gv_logic::Clauses;
use gv_refute::{
    Hints, Log, Marks, Step, Verdict, check, least_bits_law, proves_least, proves_none, rule_law,
    step_law,
};
use std::alloc::Global;

/// The log of steps.
pub(crate) fn steps_in(alloc: Global, words: &[Text]) -> Result<Log, NoMemory> {
    let mut log = Log::new(alloc);
    for word in words {
        log.add(step_in(alloc, word.bytes())?)?;
    }
    log.copy(alloc)
}

fn log_in(alloc: Global, text: &[u8]) -> Result<Log, NoMemory> {
    steps_in(alloc, words_of(alloc, text)?.items())
}

fn step_in(alloc: Global, word: &[u8]) -> Result<Step, NoMemory> {
    let (lits, hints) = cut_at(word, b'<');
    let clause = clause_in(alloc, lits)?;
    let hints = hints_in(alloc, hints)?;
    Ok(Step { clause, hints })
}

fn hints_in(alloc: Global, list: &[u8]) -> Result<Hints, NoMemory> {
    let numbers = numbers_in(alloc, list)?;
    Hints::of(alloc, &numbers)
}

/// Tells a log, a space before each step.
pub(crate) fn tell_log(log: &Log, told: &mut Telling) {
    for step in log.items() {
        told.add(b" ");
        tell_lits(step.clause.items(), told);
        told.add(b"<");
        tell_numbers(step.hints.items(), told);
    }
}

/// Tells the answer to a call of this library, if it is one.
pub(crate) fn answer(alloc: Global, call: &str, given: &Given, told: &mut Telling) -> bool {
    match call {
        "log" => copied(alloc, given, told),
        "check" => checked(alloc, given, told),
        "proves-none" => none_proved(alloc, given, told),
        "proves-least" => least_proved(alloc, given, told),
        _ => return false,
    }
    true
}

// What is said of each log over the same clauses, with the same marks.
fn checked(alloc: Global, given: &Given, told: &mut Telling) {
    step_law();
    rule_law();
    match clauses_in(alloc, given.bytes(0)) {
        Ok(Some(clauses)) => over(alloc, &clauses, given.from(1), told),
        Ok(None) => told.say("no clauses"),
        Err(NoMemory) => told.lack(),
    }
}

fn over(alloc: Global, clauses: &Clauses, parts: &[Text], told: &mut Telling) {
    let Ok(mut marks) = Marks::new(alloc, clauses.variables()) else {
        return told.lack();
    };
    for part in parts {
        match log_in(alloc, part.bytes()) {
            Ok(log) => verdict(check(clauses, &log, &mut marks), told),
            Err(NoMemory) => told.lack(),
        }
    }
}

fn verdict(verdict: Verdict, told: &mut Telling) {
    if !told.is_empty() {
        told.say(", ");
    }
    match verdict {
        Verdict::Accepted => told.say("accepted"),
        Verdict::Refused { step } => {
            told.say("refused ");
            told.number(u64::from(step));
        }
    }
}

// A log once more.
fn copied(alloc: Global, given: &Given, told: &mut Telling) {
    told.say("log");
    match log_in(alloc, given.bytes(0)) {
        Ok(log) => tell_log(&log, told),
        Err(NoMemory) => told.lack(),
    }
}

// Whether a log proves that there are no bits.
fn none_proved(alloc: Global, given: &Given, told: &mut Telling) {
    match log_in(alloc, given.bytes(0)) {
        Ok(log) => told.yes_no(proves_none(&log)),
        Err(NoMemory) => told.lack(),
    }
}

// Whether a log proves bits least.
fn least_proved(alloc: Global, given: &Given, told: &mut Telling) {
    let Ok(bits) = bits_in(alloc, given.bytes(0)) else {
        return told.lack();
    };
    least_bits_law();
    match log_in(alloc, given.bytes(1)) {
        Ok(log) => told.yes_no(proves_least(&log, &bits)),
        Err(NoMemory) => told.lack(),
    }
}
