//! Calls of `gv_facts`.
use crate::given::{Given, cut_at};
use crate::made::{Made, add_member, masks, member_of};
use crate::written::Telling;
use gv_atom::{Atom, read_atom};
use gv_base::{NoMemory, Text, words_of};
use gv_facts::{
    Class, Eapi, Effect, Level, Masks, Pkgs, Rule, Rules, accepts, class_text, has_class,
    is_testing, matches_pkg,
};
use std::alloc::Global;

/// Tells the answer to a call of this library, if it is one.
pub(crate) fn answer(alloc: Global, call: &str, given: &Given, told: &mut Telling) -> bool {
    match call {
        "package-places" => package_places(alloc, given, told),
        "mask-places" => mask_places(alloc, given, told),
        "rule-places" => rule_places(alloc, given, told),
        "accepts" => is_accepted(alloc, given, told),
        "testing-of" => told.yes_no(is_testing(given.bytes(0), given.bytes(1))),
        "package-matches" => package_matches(alloc, given, told),
        "classes-of" => classes(given, told),
        _ => return false,
    }
    true
}

fn level(given: &Given) -> Level {
    match given.words(0) {
        "stable" => Level::Stable,
        _ => Level::Testing,
    }
}

fn is_accepted(alloc: Global, given: &Given, told: &mut Telling) {
    match words_of(alloc, given.bytes(2)) {
        Ok(keywords) => told.yes_no(accepts(level(given), given.bytes(1), &keywords)),
        Err(NoMemory) => told.lack(),
    }
}

fn places(places: &[u32], told: &mut Telling) {
    for place in places {
        told.number(u64::from(*place));
        told.add(b" ");
    }
}

// Adds a package of version 1 whose category and name these are.
fn add_named(alloc: Global, names: &[u8], pkgs: &mut Pkgs) -> Result<(), NoMemory> {
    let (category, name) = cut_at(names, b' ');
    let pf = Telling::of(alloc, &[name, b"-1"]);
    add_member(alloc, category, pf.bytes()?, b"EAPI=8\nSLOT=0", pkgs)
}

// The packages of version 1 that have such names each.
fn packages(alloc: Global, names: &[Text]) -> Result<Pkgs, NoMemory> {
    let mut pkgs = Pkgs::new(alloc);
    for part in names {
        add_named(alloc, part.bytes(), &mut pkgs)?;
    }
    pkgs.copy(alloc)
}

// The places of a category and a name among such packages.
fn package_places(alloc: Global, given: &Given, told: &mut Telling) {
    match packages(alloc, given.from(2)) {
        Ok(pkgs) => {
            for pkg in pkgs.items() {
                pkg.tell();
            }
            places(pkgs.places_of(given.bytes(0), given.bytes(1)), told);
        }
        Err(NoMemory) => told.lack(),
    }
}

fn masks_of(alloc: Global, given: &Given) -> Result<Masks, NoMemory> {
    masks(alloc, given.words(2))?.copy(alloc)
}

fn mask_places(alloc: Global, given: &Given, told: &mut Telling) {
    match masks_of(alloc, given) {
        Ok(masks) => places(masks.places_of(given.bytes(0), given.bytes(1)), told),
        Err(NoMemory) => told.lack(),
    }
}

fn add_rule(alloc: Global, flag: &Text, rules: &mut Rules) -> Result<(), NoMemory> {
    rules.add(Rule {
        effect: Effect::Mask,
        stable: true,
        atom: None,
        flag: flag.copy(alloc)?,
        on: true,
    })
}

fn rules_of(alloc: Global, flags: &[Text]) -> Result<Rules, NoMemory> {
    let mut rules = Rules::new(alloc);
    for flag in flags {
        add_rule(alloc, flag, &mut rules)?;
    }
    rules.copy(alloc)
}

// The places of a flag among rules of these flags.
fn rule_places(alloc: Global, given: &Given, told: &mut Telling) {
    match rules_of(alloc, given.from(1)) {
        Ok(rules) => places(rules.places_of(given.bytes(0)), told),
        Err(NoMemory) => told.lack(),
    }
}

fn package_matches(alloc: Global, given: &Given, told: &mut Telling) {
    match read_atom(alloc, given.bytes(0)) {
        Ok(atom) => matches_made(alloc, atom, given, told),
        Err(_) => told.say("no atom"),
    }
}

fn matches_made(alloc: Global, atom: Atom, given: &Given, told: &mut Telling) {
    match member_of(alloc, given.bytes(1), given.bytes(2), given.bytes(3)) {
        Ok(Some(made)) => is_match(&atom, made, told),
        Ok(None) => told.say("no package"),
        Err(NoMemory) => told.lack(),
    }
}

fn is_match(atom: &Atom, made: Made, told: &mut Telling) {
    told.yes_no(matches_pkg(atom, &made.pkg));
}

fn eapi(digit: &str) -> Eapi {
    match digit {
        "5" => Eapi::Five,
        "6" => Eapi::Six,
        "7" => Eapi::Seven,
        _ => Eapi::Eight,
    }
}

// The keys of the classes that an EAPI has.
fn classes(given: &Given, told: &mut Telling) {
    let eapi = eapi(given.words(0));
    for class in [
        Class::Required,
        Class::Depend,
        Class::Bdepend,
        Class::Rdepend,
        Class::Pdepend,
        Class::Idepend,
    ] {
        if has_class(eapi, class) {
            told.add(class_text(class));
            told.add(b" ");
        }
    }
}
