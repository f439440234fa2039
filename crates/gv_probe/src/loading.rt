//! Calls of `gv_load` over the outside in memory.
use crate::outside::Outside;
use crate::written::Telling;
use gv_base::{MemTree, NoMemory, Text};
use gv_load::{LoadFault, Repo, load};
use gv_report::{Report, Subject};
use std::alloc::Global;

/// Tells the notes of a load, then the packages and the profiles, a line each, or the fault.
pub(crate) fn loaded(alloc: Global, outside: &mut Outside, told: &mut Telling) {
    match outside.tree(alloc) {
        Ok(tree) => load_of(alloc, tree, told),
        Err(NoMemory) => told.lack(),
    }
    outside.forget(alloc);
}

fn load_of(alloc: Global, tree: MemTree, told: &mut Telling) {
    let mut tree = tree;
    match load(alloc, &mut tree) {
        Ok(repo) => tell_all(repo, told),
        Err(found) => fault(&found, told),
    }
}

/// The repository of the files, and none where none is loaded, which is told.
pub(crate) fn repo_of(alloc: Global, outside: &Outside, told: &mut Telling) -> Option<Repo> {
    let Ok(mut tree) = outside.tree(alloc) else {
        told.lack();
        return None;
    };
    match load(alloc, &mut tree) {
        Ok(repo) => Some(repo),
        Err(_) => {
            told.say("no repository");
            None
        }
    }
}

fn tell_all(repo: Repo, told: &mut Telling) {
    tell(&repo, told);
}

/// A repository, as it is told.
pub(crate) fn tell(repo: &Repo, told: &mut Telling) {
    for found in repo.notes.items() {
        note(found, told);
    }
    for pkg in repo.pkgs.items() {
        line("> package ", &pkg.category, "/", &pkg.pf, told);
    }
    for profile in repo.profiles.items() {
        line("> profile ", &profile.arch, " ", &profile.path, told);
    }
}

fn line(kind: &str, first: &Text, mark: &str, second: &Text, told: &mut Telling) {
    told.say(kind);
    told.add(first.bytes());
    told.say(mark);
    told.add(second.bytes());
    told.add(b"\n");
}

fn subject(subject: &Subject, told: &mut Telling) {
    match subject {
        Subject::Place { path, line } => {
            told.add(path.bytes());
            told.add(b":");
            told.number(u64::from(*line));
        }
        Subject::Package { category, pf, .. } => {
            told.add(category.bytes());
            told.add(b"/");
            told.add(pf.bytes());
        }
    }
}

fn note(note: &Report, told: &mut Telling) {
    told.say("> ");
    told.add(note.keyword.text());
    told.add(b" ");
    subject(&note.subject, told);
    if let Some(detail) = &note.detail {
        told.add(b" ");
        told.add(detail.bytes());
    }
    told.add(b"\n");
}

/// Why there is none.
pub(crate) fn fault(fault: &LoadFault, told: &mut Telling) {
    match fault {
        LoadFault::Tree { path } => place("! tree ", path, told),
        LoadFault::NotARepository { path } => place("! none ", path, told),
        LoadFault::Limit {
            place: above,
            number,
        } => {
            place("! limit ", above, told);
            told.add(b" ");
            told.number(*number);
        }
        LoadFault::NoMemory => told.lack(),
    }
    told.add(b"\n");
}

fn place(kind: &str, place: &Text, told: &mut Telling) {
    told.say(kind);
    told.add(place.bytes());
}
