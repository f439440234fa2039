//! Calls of `gv_visible`.
use crate::given::Given;
use crate::made::{Made, bare_profile, masks, member_of};
use crate::written::Telling;
use gv_base::NoMemory;
use gv_facts::{Level, Pkg, Profile};
use gv_visible::{BitList, MaskIndex, judged, visible};
use std::alloc::Global;

/// Tells the answer to a call of this library, if it is one.
pub(crate) fn answer(alloc: Global, call: &str, given: &Given, told: &mut Telling) -> bool {
    match call {
        "judged-at" => judged_at(alloc, given, told),
        "bits" => bits(alloc, given.bytes(0), told),
        _ => return false,
    }
    true
}

fn shown_text(stable: bool, testing: bool) -> &'static str {
    match (stable, testing) {
        (true, true) => "both ",
        (true, false) => "stable ",
        (false, true) => "testing ",
        (false, false) => "neither ",
    }
}

fn level_text(level: Option<Level>) -> &'static str {
    match level {
        Some(Level::Stable) => "stable",
        Some(Level::Testing) => "testing",
        None => "none",
    }
}

// At which levels CATEGORY/PF in slot 0/3 with these keywords is visible, and at which it is judged, where these masks stand
// in a profile that takes its arch with `~` where `testing` follows.
fn judged_at(alloc: Global, given: &Given, told: &mut Telling) {
    match made_of(alloc, given) {
        Ok(Some(made)) => of_made(alloc, made, given, told),
        Ok(None) => told.say("no package"),
        Err(NoMemory) => told.lack(),
    }
}

fn made_of(alloc: Global, given: &Given) -> Result<Option<Made>, NoMemory> {
    let lines = Telling::of(alloc, &[b"EAPI=8\nSLOT=0/3\nKEYWORDS=", given.bytes(2)]);
    member_of(alloc, given.bytes(0), given.bytes(1), lines.bytes()?)
}

fn of_made(alloc: Global, made: Made, given: &Given, told: &mut Telling) {
    of_pkg(alloc, &made.pkg, given, told);
}

fn of_pkg(alloc: Global, pkg: &Pkg, given: &Given, told: &mut Telling) {
    match masked_profile(alloc, given) {
        Ok(profile) => in_profile(alloc, pkg, profile, told),
        Err(NoMemory) => told.lack(),
    }
}

fn masked_profile(alloc: Global, given: &Given) -> Result<Profile, NoMemory> {
    let mut profile = bare_profile(alloc)?;
    profile.masks = masks(alloc, given.words(3))?;
    profile.testing = given.words(4) == "testing";
    Ok(profile)
}

fn in_profile(alloc: Global, pkg: &Pkg, profile: Profile, told: &mut Telling) {
    levels(alloc, pkg, &profile, told);
}

// Asked by the profile, and by its index.
fn levels(alloc: Global, pkg: &Pkg, profile: &Profile, told: &mut Telling) {
    let stable = visible(pkg, profile, Level::Stable);
    let testing = visible(pkg, profile, Level::Testing);
    told.say(shown_text(stable, testing));
    match MaskIndex::new(alloc, profile) {
        Ok(index) => by_index(&index, pkg, stable, testing, told),
        Err(NoMemory) => told.lack(),
    }
}

fn by_index(index: &MaskIndex<'_>, pkg: &Pkg, stable: bool, testing: bool, told: &mut Telling) {
    told.say(level_text(judged(pkg, index.profile())));
    let first = index.visible(pkg, Level::Stable);
    let second = index.visible(pkg, Level::Testing);
    if first != stable || second != testing {
        told.say(", otherwise by the index");
    }
}

// The bits that are read back from the places of as many digits and one more.
fn bits(alloc: Global, digits: &[u8], told: &mut Telling) {
    match bits_in(alloc, digits) {
        Ok(bits) => read_back(&bits, digits.len(), told),
        Err(_) => told.lack(),
    }
}

fn bits_in(alloc: Global, digits: &[u8]) -> Result<BitList, NoMemory> {
    let mut bits = BitList::with_capacity(alloc, 1)?;
    for digit in digits {
        bits.push(*digit == b'1')?;
    }
    Ok(bits)
}

fn read_back(bits: &BitList, count: usize, told: &mut Telling) {
    for place in 0..=count {
        match bits.get(place) {
            Some(true) => told.add(b"1"),
            Some(false) => told.add(b"0"),
            None => told.say(" none"),
        }
    }
}
