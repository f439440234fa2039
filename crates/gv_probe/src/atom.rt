//! Calls of `gv_atom`.
use crate::given::Given;
use crate::written::Telling;
use gv_atom::{Atom, AtomFault, SlotNeed, UseItem, matches, print_atom, read_atom};
use gv_version::{VersionFault, read_version};
use std::alloc::Global;

/// Tells the answer to a call of this library, if it is one.
pub(crate) fn answer(alloc: Global, call: &str, given: &Given, told: &mut Telling) -> bool {
    if !matches!(call, "atom" | "parts" | "matches" | "asks") {
        return false;
    }
    match read_atom(alloc, given.bytes(0)) {
        Ok(atom) => of_atom(alloc, call, &atom, given, told),
        Err(found) => fault(alloc, found, told),
    }
    true
}

fn of_atom(alloc: Global, call: &str, atom: &Atom, given: &Given, told: &mut Telling) {
    match call {
        "matches" => is_match(alloc, atom, given, told),
        "asks" => asked(alloc, atom, told),
        _ => of_copy(alloc, call, atom, told),
    }
}

fn of_copy(alloc: Global, call: &str, atom: &Atom, told: &mut Telling) {
    match atom.copy(alloc) {
        Ok(atom) => fields(alloc, call, &atom, told),
        Err(_) => told.lack(),
    }
}

fn fields(alloc: Global, call: &str, atom: &Atom, told: &mut Telling) {
    if call == "atom" {
        told.text(print_atom(alloc, atom));
    } else {
        parts(alloc, atom, told);
    }
}

fn fault(alloc: Global, fault: AtomFault, told: &mut Telling) {
    match fault {
        AtomFault::Bad { kind, at } => told.formatted(format!(in alloc; "{kind:?} {at}")),
        AtomFault::NoMemory => told.lack(),
    }
}

fn is_match(alloc: Global, atom: &Atom, given: &Given, told: &mut Telling) {
    match read_version(alloc, given.bytes(3)) {
        Ok(version) => told.yes_no(matches(
            atom,
            given.part(1),
            given.part(2),
            &version,
            given.part(4),
            given.part(5),
        )),
        Err(VersionFault::NoMemory) => told.lack(),
        Err(_) => told.say("no version"),
    }
}

// What each item asks where the parent's flag is on and where it is off.
fn asked(alloc: Global, atom: &Atom, told: &mut Telling) {
    for item in atom.items.items() {
        let (on, off) = (item.ask.asked(true), item.ask.asked(false));
        told.formatted(format!(in alloc; "{on:?} {off:?} "));
        told.formatted(format!(in alloc; "{},", item.ask.asks_parent()));
    }
}

fn slots(need: &SlotNeed, told: &mut Telling) {
    match need {
        SlotNeed::Any => told.say(" any"),
        SlotNeed::Slot { slot } => told.add(slot.bytes()),
        SlotNeed::Both { slot, sub } => {
            told.add(slot.bytes());
            told.add(b" ");
            told.add(sub.bytes());
        }
    }
}

fn item(alloc: Global, item: &UseItem, told: &mut Telling) {
    told.add(b", ");
    told.add(item.flag.bytes());
    told.formatted(format!(in alloc; " {:?}", item.ask));
    told.formatted(format!(in alloc; " {:?}", item.missing));
}

fn signs(alloc: Global, atom: &Atom, told: &mut Telling) {
    told.formatted(format!(in alloc; "{:?} ", atom.block));
    told.formatted(format!(in alloc; "{:?} ", atom.op));
    told.formatted(format!(in alloc; "{} ", atom.star));
    told.formatted(format!(in alloc; "{:?} ", atom.mark));
    told.formatted(format!(in alloc; "{} ", atom.is_blocker()));
}

// Each field of an atom.
fn parts(alloc: Global, atom: &Atom, told: &mut Telling) {
    signs(alloc, atom, told);
    told.add(atom.category.bytes());
    told.add(b" ");
    told.add(atom.name.bytes());
    told.add(b" ");
    if let Some(version) = &atom.version {
        told.add(version.text());
        told.add(b" ");
    }
    slots(&atom.slot, told);
    for one in atom.items.items() {
        item(alloc, one, told);
    }
}
