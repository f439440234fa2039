//! Calls of `gv_version`.
use crate::given::Given;
use crate::written::Telling;
use gv_base::NoMemory;
use gv_version::{
    Version, VersionFault, begins, compare, is_category, is_flag, is_keyword, is_package, is_slot,
    read_version, same_but_revision, split_pf,
};
use std::alloc::Global;
use std::cmp::Ordering;

/// Tells the answer to a call of this library, if it is one.
pub(crate) fn answer(alloc: Global, call: &str, given: &Given, told: &mut Telling) -> bool {
    let bytes = given.bytes(0);
    match call {
        "version" => version(alloc, bytes, told),
        "order" | "revision" | "begins" => both(alloc, call, given, told),
        "sorted" => sorted(alloc, given, told),
        "pf" => pf(bytes, told),
        "category" => told.yes_no(is_category(bytes)),
        "package" => told.yes_no(is_package(bytes)),
        "slot" => told.yes_no(is_slot(bytes)),
        "flag" => told.yes_no(is_flag(bytes)),
        "keyword" => told.yes_no(is_keyword(bytes)),
        _ => return false,
    }
    true
}

fn fault(fault: VersionFault, told: &mut Telling) {
    match fault {
        VersionFault::Shape { at } => fault_at("shape ", at, told),
        VersionFault::TooLong { at } => fault_at("long ", at, told),
        VersionFault::NoMemory => told.lack(),
    }
}

fn fault_at(what: &str, at: u32, told: &mut Telling) {
    told.say(what);
    told.number(u64::from(at));
}

fn version(alloc: Global, bytes: &[u8], told: &mut Telling) {
    match read_version(alloc, bytes) {
        Ok(version) => copied(alloc, &version, told),
        Err(found) => fault(found, told),
    }
}

fn copied(alloc: Global, version: &Version, told: &mut Telling) {
    match version.copy(alloc) {
        Ok(version) => told.add(version.text()),
        Err(_) => told.lack(),
    }
}

fn sign(order: Ordering) -> &'static str {
    match order {
        Ordering::Less => "<",
        Ordering::Equal => "=",
        Ordering::Greater => ">",
    }
}

fn both(alloc: Global, call: &str, given: &Given, told: &mut Telling) {
    match read_version(alloc, given.bytes(0)) {
        Ok(version) => beside(alloc, call, &version, given.bytes(1), told),
        Err(found) => fault(found, told),
    }
}

fn beside(alloc: Global, call: &str, a: &Version, bytes: &[u8], told: &mut Telling) {
    match read_version(alloc, bytes) {
        Ok(b) => compared(call, a, &b, told),
        Err(found) => fault(found, told),
    }
}

fn compared(call: &str, a: &Version, b: &Version, told: &mut Telling) {
    match call {
        "order" => told.say(sign(compare(a, b))),
        "revision" => told.yes_no(same_but_revision(a, b)),
        _ => told.yes_no(begins(a, b)),
    }
}

// Puts the versions of the parts in order, but where one is none.
fn versions_in(
    alloc: Global,
    given: &Given,
    versions: &mut Vec<Version>,
) -> Result<Option<VersionFault>, NoMemory> {
    for part in given.from(0) {
        match read_version(alloc, part.bytes()) {
            Ok(version) => versions.push(version)?,
            Err(found) => return Ok(Some(found)),
        }
    }
    versions.sort()?;
    Ok(None)
}

fn sorted(alloc: Global, given: &Given, told: &mut Telling) {
    let mut versions: Vec<Version> = Vec::new(alloc);
    match versions_in(alloc, given, &mut versions) {
        Ok(None) => add_versions(versions.as_slice(), told),
        Ok(Some(found)) => fault(found, told),
        Err(NoMemory) => told.lack(),
    }
}

fn add_versions(versions: &[Version], told: &mut Telling) {
    for version in versions {
        told.add(version.text());
        told.add(b";");
    }
}

fn pf(bytes: &[u8], told: &mut Telling) {
    match split_pf(bytes) {
        Some(place) => told.number(u64::from(place)),
        None => told.say("none"),
    }
}
