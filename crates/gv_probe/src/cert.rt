//! Records and answers as they are written in a line, and calls of `gv_cert`.
//!
//! A record is the bytes of its query, `=` and those of its answer; what an answer claims is `refuted` or `found` and bits,
//! and then the log.
ghost use Rattle.std.specs.Prelude.{◌≡◌, ◌+◌, ◌<◌, ◌^◌, length, IsTrue};
ghost use Rattle.std.specs.List.{AllByRecursion};
ghost use Rattle.gv_cert.specs.Claim.{log_of};
ghost use Rattle.gv_cert.specs.Numbers.{AllFrom};

use crate::given::{Given, cut_at};
use crate::logic::{bits_in, bytes_in, digits_of, told_bits, u32_in};
use crate::refute::{steps_in, tell_log};
use crate::written::Telling;
use gv_base::{NoMemory, Text, words_of};
use gv_cert::{
    Claim, Known, answer_law, file_law, migration_law, read_answer, read_known, short_law,
    write_answer, write_known,
};
use gv_refute::{Log, Step};
use std::alloc::Global;

/// Records.
pub(crate) fn known_in(alloc: Global, parts: &[Text]) -> Result<Known, NoMemory> {
    let mut known = Known::new(alloc);
    for part in parts {
        if !part.bytes().is_empty() {
            add_record(alloc, part.bytes(), &mut known)?;
        }
    }
    known.copy(alloc)
}

fn add_record(alloc: Global, part: &[u8], known: &mut Known) -> Result<(), NoMemory> {
    let (query, answer) = cut_at(part, b'=');
    let query = bytes_in(alloc, query)?;
    let answer = bytes_in(alloc, answer)?;
    known.insert(&query, &answer)?;
    Ok(())
}

/// Tells the answer to a call of this library, if it is one.
pub(crate) fn answer(alloc: Global, call: &str, given: &Given, told: &mut Telling) -> bool {
    match call {
        "read-certs" => read_certs(alloc, given, told),
        "write-certs" => write_certs(alloc, given, told),
        "find" => found(alloc, given, told),
        "read-answer" => read(alloc, given, told),
        "write-answer" => write(alloc, given, told),
        _ => return false,
    }
    true
}

// The records of a file.
fn read_certs(alloc: Global, given: &Given, told: &mut Telling) {
    file_law();
    migration_law();
    match known_of(alloc, given.bytes(0)) {
        Ok(known) => tell_known(alloc, &known, told),
        Err(NoMemory) => told.lack(),
    }
}

fn known_of(alloc: Global, digits: &[u8]) -> Result<Known, NoMemory> {
    read_known(alloc, bytes_in(alloc, digits)?.bytes())
}

fn tell_known(alloc: Global, known: &Known, told: &mut Telling) {
    told.number(u64::from(known.count()));
    for number in 0..known.count() {
        told.add(b" ");
        digits_of(alloc, known.query(number), told);
        told.add(b"=");
        digits_of(alloc, known.answer(number), told);
    }
}

// The file of records, its header as it is.
fn write_certs(alloc: Global, given: &Given, told: &mut Telling) {
    match file_of(alloc, given.from(0)) {
        Ok(file) => tell_file(alloc, file.bytes(), told),
        Err(NoMemory) => told.lack(),
    }
}

fn file_of(alloc: Global, parts: &[Text]) -> Result<Text, NoMemory> {
    write_known(alloc, &known_in(alloc, parts)?)
}

fn tell_file(alloc: Global, file: &[u8], told: &mut Telling) {
    let (header, rest) = file.split_at(file.len().min(9));
    told.add(header);
    told.add(b" ");
    digits_of(alloc, rest, told);
}

// The number of the first record of a query from a number on.
fn found(alloc: Global, given: &Given, told: &mut Telling) {
    match number_of(alloc, given) {
        Ok(Some(number)) => told.number(u64::from(number)),
        Ok(None) => told.say("none"),
        Err(NoMemory) => told.lack(),
    }
}

fn number_of(alloc: Global, given: &Given) -> Result<Option<u32>, NoMemory> {
    let known = known_in(alloc, given.from(2))?;
    let query = bytes_in(alloc, given.bytes(1))?;
    Ok(known.find(query.bytes(), u32_in(given.bytes(0))))
}

/// Tells what is claimed.
pub(crate) fn told_claim(claim: &Claim, told: &mut Telling) {
    match claim {
        Claim::Refuted { log } => {
            told.say("refuted");
            tell_log(log, told);
        }
        Claim::Found { bits, log } => {
            told.say("found ");
            told_bits(bits.items(), told);
            tell_log(log, told);
        }
    }
}

// What bytes claim about gates with so many inputs and clauses.
fn read(alloc: Global, given: &Given, told: &mut Telling) {
    match claim_of(alloc, given) {
        Ok(Some(claim)) => told_claim(&claim, told),
        Ok(None) => told.say("none"),
        Err(NoMemory) => told.lack(),
    }
}

fn claim_of(alloc: Global, given: &Given) -> Result<Option<Claim>, NoMemory> {
    answer_law();
    short_law();
    let bytes = bytes_in(alloc, given.bytes(2))?;
    read_answer(
        alloc,
        u32_in(given.bytes(0)),
        u32_in(given.bytes(1)),
        bytes.bytes(),
    )
}

// The bytes of what is claimed about gates with so many clauses.
fn write(alloc: Global, given: &Given, told: &mut Telling) {
    match claim_in(alloc, given.bytes(1)) {
        Ok(Some(claim)) => written(alloc, u32_in(given.bytes(0)), &claim, told),
        Ok(None) => told.say("no claim"),
        Err(NoMemory) => told.lack(),
    }
}

fn claim_in(alloc: Global, text: &[u8]) -> Result<Option<Claim>, NoMemory> {
    let words = words_of(alloc, text)?;
    match words.items() {
        [_, steps @ ..] if text.starts_with(b"refuted") => {
            let log = steps_in(alloc, steps)?;
            Ok(Some(Claim::Refuted { log }))
        }
        [_, bits, steps @ ..] => {
            let bits = bits_in(alloc, bits.bytes())?;
            let log = steps_in(alloc, steps)?;
            Ok(Some(Claim::Found { bits, log }))
        }
        _ => Ok(None),
    }
}

fn written(alloc: Global, clauses: u32, claim: &Claim, told: &mut Telling) {
    if !are_named(u64::from(clauses), log(claim).items()) {
        return told.say("no such hint");
    }
    match write_answer(alloc, clauses, claim) {
        Ok(bytes) => digits_of(alloc, bytes.bytes(), told),
        Err(NoMemory) => told.lack(),
    }
}

fn log(claim: &Claim) -> &Log
    ensures { result.now ≡ log_of claim.now }
{
    match claim {
        Claim::Refuted { log } => log,
        Claim::Found { log, .. } => log,
    }
}

// Whether each hint names one of so many clauses or an earlier step.
fn are_named(names: u64, steps: &[Step]) -> bool
    requires { names + length steps.now < 2 ^ 33 }
    ensures { IsTrue result → AllFrom (λ names s. AllByRecursion (λ hint. hint < names) s.hints) names steps.now }
{
    let Some((step, rest)) = steps.split_first() else {
        return true;
    };
    are_below(step.hints.items(), names) && are_named(names + 1, rest)
}

fn are_below(hints: &[u32], names: u64) -> bool
    ensures { IsTrue result → AllByRecursion (λ hint. hint < names) hints.now }
{
    for hint in hints {
        if u64::from(*hint) >= names {
            return false;
        }
    }
    true
}
