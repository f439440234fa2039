//! Calls of `gv_defaults`.
use crate::given::Given;
use crate::written::Telling;
use gv_base::{NoMemory, Texts};
use gv_defaults::{DefaultsRead, Vars, read_defaults};
use std::alloc::Global;

/// Tells the answer to a call of this library, if it is one.
pub(crate) fn answer(alloc: Global, call: &str, given: &Given, told: &mut Telling) -> bool {
    if !matches!(call, "defaults" | "defaults-size") {
        return false;
    }
    match read_defaults(alloc, given.bytes(0), &Vars::new(alloc)) {
        Ok(first) => behind(alloc, call, given, &first.vars, told),
        Err(_) => told.lack(),
    }
    true
}

// What is read behind the first file.
fn behind(alloc: Global, call: &str, given: &Given, first: &Vars, told: &mut Telling) {
    // (a value past the room of lists is want of memory)
    match read_defaults(alloc, given.bytes(1), first) {
        Ok(read) => of_copy(alloc, call, given, &read, told),
        Err(_) => told.say("no memory"),
    }
}

fn of_copy(alloc: Global, call: &str, given: &Given, read: &DefaultsRead, told: &mut Telling) {
    match read.copy(alloc) {
        Ok(read) => tell(alloc, call, given, &read, told),
        Err(_) => told.lack(),
    }
}

// The words of a name, or their number and their bytes, and the line of the file's fault.
fn tell(alloc: Global, call: &str, given: &Given, read: &DefaultsRead, told: &mut Telling) {
    match read.vars.words(alloc, given.bytes(2)) {
        Ok(words) => listed(alloc, call, &words, told),
        Err(_) => told.lack(),
    }
    if let Some(line) = read.bad {
        told.say(", bad ");
        told.formatted(format!(in alloc; "{line}"));
    }
}

fn listed(alloc: Global, call: &str, words: &Texts, told: &mut Telling) {
    if call == "defaults" {
        return told.joined(words, b'|');
    }
    told.number(words.items().len() as u64);
    told.add(b" ");
    match words.joined(alloc, b'|') {
        Ok(text) => told.number(text.bytes().len() as u64),
        Err(NoMemory) => told.lack(),
    }
}
