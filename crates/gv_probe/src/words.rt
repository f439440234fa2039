//! Calls of `gv_words`.
use crate::given::Given;
use crate::written::Telling;
use gv_base::NoMemory;
use gv_report::Options;
use gv_words::{Command, default_options, read_words};
use std::alloc::Global;

/// Tells the answer to a call of this library, if it is one.
pub(crate) fn answer(alloc: Global, call: &str, given: &Given, told: &mut Telling) -> bool {
    match call {
        "words" => command(alloc, given, told),
        "default-options" => defaults(alloc, told),
        _ => return false,
    }
    true
}

fn add(told: &mut Telling, word: &[u8]) {
    told.add(b" ");
    told.add(word);
}

// The number of keywords, the profiles or `-`, whether JSON is written, and the budget.
fn options(alloc: Global, options: &Options, told: &mut Telling) {
    told.add(b" ");
    told.number(options.keywords.items().len() as u64);
    told.add(b" ");
    match &options.profiles {
        Some(profiles) => told.joined(profiles, b','),
        None => told.add(b"-"),
    }
    told.formatted(format!(in alloc; " {} ", options.json));
    told.number(u64::from(options.budget));
}

fn defaults(alloc: Global, told: &mut Telling) {
    match default_options(alloc) {
        Ok(found) => options(alloc, &found, told),
        Err(NoMemory) => told.lack(),
    }
}

fn command(alloc: Global, given: &Given, told: &mut Telling) {
    match command_of(alloc, given) {
        Ok(Some(command)) => tell(alloc, &command, told),
        Ok(None) => told.say("none"),
        Err(NoMemory) => told.lack(),
    }
}

fn command_of(alloc: Global, given: &Given) -> Result<Option<Command>, NoMemory> {
    read_words(alloc, &given.copy_from(alloc, 0)?)
}

fn tell(alloc: Global, command: &Command, told: &mut Telling) {
    match command {
        Command::Scan { asked } => {
            told.formatted(format!(in alloc; "scan {}", asked.fresh));
            add(told, asked.root.bytes());
            add(told, asked.certs.bytes());
            options(alloc, &asked.options, told);
        }
        Command::Part { asked, share } => {
            told.formatted(format!(in alloc;
                "part {}/{} {}",
                share.part, share.parts, asked.fresh
            ));
            add(told, asked.root.bytes());
            add(told, asked.certs.bytes());
            options(alloc, &asked.options, told);
        }
        Command::Merge { merging } => {
            told.formatted(format!(in alloc; "merge {} ", merging.parts));
            told.joined(&merging.from, b',');
            add(told, merging.root.bytes());
            add(told, merging.certs.bytes());
            options(alloc, &merging.options, told);
        }
        Command::Overlay { scan } => {
            told.formatted(format!(in alloc; "overlay {}", scan.asked.fresh));
            add(told, scan.asked.root.bytes());
            add(told, scan.repo.bytes());
            add(told, scan.asked.certs.bytes());
            options(alloc, &scan.asked.options, told);
        }
        Command::Verify { verification } => {
            told.say("verify");
            add(told, verification.root.bytes());
            add(told, verification.certs.bytes());
            add(told, verification.report.bytes());
            options(alloc, &verification.options, told);
        }
        Command::Session { sitting } => {
            told.say("session");
            add(told, sitting.root.bytes());
            options(alloc, &sitting.options, told);
        }
        Command::Lint { linting } => {
            told.say("lint");
            add(told, linting.root.bytes());
            options(alloc, &linting.options, told);
        }
        Command::Demo { number } => told.formatted(format!(in alloc; "demo {number}")),
    }
}
