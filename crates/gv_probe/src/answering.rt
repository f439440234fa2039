//! A line with its answer.
use crate::given::{Given, given_in};
use crate::loading::loaded;
use crate::outside::Outside;
use crate::profiles::reread;
use crate::reports::emitted;
use crate::running::ran;
use crate::written::Telling;
use crate::{atom, base, defaults, demo, edits, expr, repository, solving, version, words};
use gv_base::NoMemory;
use std::alloc::Global;

/// The lines with the answers that are found, in place of those that stand there.
pub(crate) fn all(alloc: Global, text: &str) -> Telling {
    let mut outside = Outside::new(alloc);
    let mut all = Telling::new(alloc);
    for line in text.lines() {
        tell(alloc, line, &mut outside, &mut all);
    }
    all
}

// Tells the line with the answer that is found, and a line feed behind each of its lines; nothing for a line of an old answer.
fn tell(alloc: Global, line: &str, outside: &mut Outside, all: &mut Telling) {
    if is_answer(line) {
        return;
    }
    if line.is_empty() || line.starts_with("#") || outside.takes(alloc, line.as_bytes(), all) {
        all.say(line);
        all.add(b"\n");
        return;
    }
    if is_over(line) {
        return tell_over(alloc, line, outside, all);
    }
    tell_answered(alloc, line, outside, all)
}

// Whether the line is of an answer to a run.
fn is_answer(line: &str) -> bool {
    line.starts_with("> ") || line.starts_with("! ") || line.starts_with("= ")
}

// Whether the line is a call over the outside.
fn is_over(line: &str) -> bool {
    line == "load"
        || line.starts_with("reread ")
        || line.starts_with("emit")
        || line.starts_with("run")
}

fn tell_over(alloc: Global, line: &str, outside: &mut Outside, all: &mut Telling) {
    let mut told = Telling::new(alloc);
    over(alloc, line, outside, &mut told);
    all.say(line);
    all.add(b"\n");
    match told.bytes() {
        Ok(bytes) => all.say(std::str::from_utf8(bytes).unwrap_or("no text\n")),
        Err(NoMemory) => all.lack(),
    }
}

// The answer to a call over the outside.
fn over(alloc: Global, line: &str, outside: &mut Outside, told: &mut Telling) {
    if line == "load" {
        return loaded(alloc, outside, told);
    }
    if let Some(parts) = line.strip_prefix("reread ") {
        return over_reread(alloc, parts, outside, told);
    }
    if let Some(how) = line.strip_prefix("emit") {
        return emitted(alloc, how, outside.reports(), told);
    }
    let words = line.strip_prefix("run").unwrap_or("");
    let words = words.strip_prefix(" ").unwrap_or("");
    ran(alloc, words, outside, told)
}

fn over_reread(alloc: Global, parts: &str, outside: &Outside, told: &mut Telling) {
    match given_in(alloc, parts) {
        Ok(given) => reread(alloc, &given, outside, told),
        Err(NoMemory) => told.lack(),
    }
}

// Tells a call in one line, with the answer that is found in place of the one that stands there.
fn tell_answered(alloc: Global, line: &str, outside: &Outside, all: &mut Telling) {
    let asked = match line.split_once(" =>") {
        Some((asked, _)) => asked,
        None => line,
    };
    let mut told = Telling::new(alloc);
    answered(alloc, asked, outside, &mut told);
    all.say(asked);
    all.add(b" =>");
    add_answer(&told, all);
    all.add(b"\n");
}

fn add_answer(told: &Telling, all: &mut Telling) {
    match told.bytes() {
        Ok([]) => {}
        Ok(bytes) => {
            all.add(b" ");
            all.written(bytes);
        }
        Err(NoMemory) => all.lack(),
    }
}

fn answered(alloc: Global, asked: &str, outside: &Outside, told: &mut Telling) {
    let (call, parts) = asked.split_once(' ').unwrap_or((asked, ""));
    match given_in(alloc, parts) {
        Ok(given) => answer(alloc, call, &given, outside, told),
        Err(NoMemory) => told.lack(),
    }
}

fn answer(alloc: Global, call: &str, given: &Given, outside: &Outside, told: &mut Telling) {
    let is_call = outside.answer(call, given, told)
        || repository::answer(alloc, call, given, outside, told)
        || base::answer(alloc, call, given, told)
        || version::answer(alloc, call, given, told)
        || atom::answer(alloc, call, given, told)
        || expr::answer(alloc, call, given, told)
        || solving::answer(alloc, call, given, told)
        || defaults::answer(alloc, call, given, told)
        || words::answer(alloc, call, given, told)
        || demo::answer(alloc, call, given, told)
        || edits::answer(alloc, call, given, told);
    if !is_call {
        told.say("no such call");
    }
}
