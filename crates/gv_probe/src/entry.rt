//! Calls of `gv_entry`.
use crate::given::Given;
use crate::made::entry;
use crate::written::Telling;
use gv_base::{NoMemory, Text, Texts};
use gv_entry::{Entry, class_in, digest_of};
use gv_facts::{Class, Pkg};
use std::alloc::Global;

/// Tells the answer to a call of this library, if it is one.
pub(crate) fn answer(alloc: Global, call: &str, given: &Given, told: &mut Telling) -> bool {
    let Some(what) = call.strip_prefix("entry-") else {
        return is_digest(call, given, told);
    };
    match read(alloc, what, given) {
        Ok(Some(entry)) => of_entry(what, entry, told),
        Ok(None) => told.say("no PF"),
        Err(NoMemory) => told.lack(),
    }
    true
}

fn read(alloc: Global, what: &str, given: &Given) -> Result<Option<Entry>, NoMemory> {
    match what {
        "package" => entry(alloc, b"app", given.bytes(0), given.bytes(1)),
        "digest" => entry_with(alloc, b"_md5_=", given),
        "eclasses" => entry_with(alloc, b"_eclasses_=", given),
        _ => entry(alloc, b"app", b"q-1", given.bytes(0)),
    }
}

fn is_digest(call: &str, given: &Given, told: &mut Telling) -> bool {
    if call != "md5" {
        return false;
    }
    digits(&digest_of(given.bytes(0)), told);
    true
}

fn of_entry(what: &str, entry: Entry, told: &mut Telling) {
    part_of(what, &entry, told);
    drop(entry);
}

fn part_of(what: &str, entry: &Entry, told: &mut Telling) {
    match what {
        "package" => package(entry, told),
        "digest" => digest(entry, told),
        "eclasses" => eclasses(entry, told),
        "errors" => errors(entry, told),
        "flags" => flags(entry, told),
        "classes" => classes(entry, told),
        _ => told.say("no such call"),
    }
}

// The entry of one key and its value.
fn entry_with(alloc: Global, key: &[u8], given: &Given) -> Result<Option<Entry>, NoMemory> {
    let line = Telling::of(alloc, &[key, given.bytes(0)]);
    entry(alloc, b"app", b"q-1", line.bytes()?)
}

/// Bytes as pairs of digits.
pub(crate) fn digits(digest: &[u8], told: &mut Telling) {
    for b in digest {
        told.digits("", *b);
    }
}

fn errors(entry: &Entry, told: &mut Telling) {
    for error in entry.errors.items() {
        told.add(error.detail.bytes());
        told.say("; ");
    }
}

fn digest(entry: &Entry, told: &mut Telling) {
    match &entry.digest {
        Some(digest) => digits(digest, told),
        None => told.say("none"),
    }
}

// The names, each with its digest.
fn eclasses(entry: &Entry, told: &mut Telling) {
    let Some(eclasses) = &entry.eclasses else {
        return told.say("none");
    };
    for eclass in eclasses.items() {
        told.add(eclass.name.bytes());
        told.add(b" ");
        digits(&eclass.digest, told);
        told.say("; ");
    }
}

fn add(told: &mut Telling, part: &Text) {
    told.add(b"|");
    told.add(part.bytes());
}

fn add_words(told: &mut Telling, words: &Texts) {
    told.add(b"|");
    told.joined(words, b' ');
}

/// Each part of a package, with `|` between.
pub(crate) fn parts(pkg: &Pkg, told: &mut Telling) {
    told.add(pkg.category.bytes());
    add(told, &pkg.name);
    add(told, &pkg.pf);
    add(told, &pkg.slot);
    add(told, &pkg.sub);
    told.add(b"|");
    told.add(pkg.version.text());
    add_words(told, &pkg.keywords);
    add_words(told, &pkg.iuse);
    add_words(told, &pkg.iuse_plus);
    if pkg.live {
        told.say("|live");
    }
}

fn package(entry: &Entry, told: &mut Telling) {
    match &entry.head {
        Some(pkg) => parts(pkg, told),
        None => told.say("none"),
    }
}

// How many flags the package has, and how many of them are preferred on.
fn flags(entry: &Entry, told: &mut Telling) {
    let Some(pkg) = &entry.head else {
        return told.say("none");
    };
    told.number(pkg.iuse.items().len() as u64);
    told.add(b" ");
    told.number(pkg.iuse_plus.items().len() as u64);
}

// How many trees stand at the top of REQUIRED_USE and of each class, `-` where one is broken.
fn classes(entry: &Entry, told: &mut Telling) {
    match &entry.body.required {
        Some(required) => told.number(required.items().len() as u64),
        None => told.add(b"-"),
    }
    for class in [
        Class::Depend,
        Class::Bdepend,
        Class::Rdepend,
        Class::Pdepend,
        Class::Idepend,
        Class::Required,
    ] {
        match class_in(&entry.body, class) {
            Some(read) => told.number(read.items().len() as u64),
            None => told.add(b"-"),
        }
    }
}
