//! Calls of `gv_usedefaults` over the files: what a walk reads, what the stack of a line says of flags, and their defaults. A walk is
//! over these files, or over those with the bytes of the second part at the path of the first, where the load was not.
use crate::given::Given;
use crate::loading::{fault, repo_of};
use crate::outside::Outside;
use crate::profiles::{add_rule, add_words};
use crate::written::Telling;
use gv_base::{MemTree, NoMemory, Text};
use gv_facts::{Level, Pkg, Profile};
use gv_load::{LoadFault, Repo};
use gv_usedefaults::{LineFile, UseDefaults, Walk, default_on, defaults_of, kind_name, walk_files};
use gv_visible::judged;
use std::alloc::Global;

/// Tells the answer to a call of this library, if it is one.
pub(crate) fn answer(
    alloc: Global,
    call: &str,
    given: &Given,
    outside: &Outside,
    told: &mut Telling,
) -> bool {
    if !matches!(call, "walked" | "line-defaults" | "flag-defaults") {
        return false;
    }
    if let Some(repo) = repo_of(alloc, outside, told) {
        over(alloc, call, given, outside, repo, told);
    }
    true
}

fn over(
    alloc: Global,
    call: &str,
    given: &Given,
    outside: &Outside,
    repo: Repo,
    told: &mut Telling,
) {
    over_tree(alloc, call, given, outside, &repo, told);
}

fn over_tree(
    alloc: Global,
    call: &str,
    given: &Given,
    outside: &Outside,
    repo: &Repo,
    told: &mut Telling,
) {
    let Ok(mut tree) = other_tree(alloc, call, given, outside) else {
        return told.lack();
    };
    match walk_over(alloc, &mut tree, repo) {
        Ok(walk) => tell(alloc, call, given, repo, walk, told),
        Err(found) => fault(&found, told),
    }
}

fn other_tree(
    alloc: Global,
    call: &str,
    given: &Given,
    outside: &Outside,
) -> Result<MemTree, NoMemory> {
    if call == "walked" && !given.bytes(0).is_empty() {
        outside.edited(alloc, given.bytes(0), given.bytes(1))
    } else {
        outside.tree(alloc)
    }
}

fn walk_over(alloc: Global, tree: &mut MemTree, repo: &Repo) -> Result<Walk, LoadFault> {
    let Walk { files, stacks } = walk_files(alloc, tree, repo)?;
    let stacks = stacks.copy(alloc)?;
    Ok(Walk { files, stacks })
}

fn tell(alloc: Global, call: &str, given: &Given, repo: &Repo, walk: Walk, told: &mut Telling) {
    match call {
        "walked" => walked(alloc, &walk, told),
        "line-defaults" => line_defaults(alloc, given, repo, &walk, told),
        _ => flag_defaults(alloc, given, repo, &walk, told),
    }
}

// Each file with its directory, its kind and its length, and then the directories of each stack behind its line.
fn walked(alloc: Global, walk: &Walk, told: &mut Telling) {
    for file in walk.files.items() {
        match file.copy(alloc) {
            Ok(file) => add_file(&file, told),
            Err(NoMemory) => told.lack(),
        }
    }
    for stack in walk.stacks.items() {
        told.number(u64::from(stack.line));
        told.add(b" ");
        told.joined(&stack.dirs, b' ');
        told.say("; ");
    }
}

fn add_file(file: &LineFile, told: &mut Telling) {
    told.add(file.dir.bytes());
    told.add(b" ");
    told.add(kind_name(file.kind));
    told.add(b" ");
    told.add(file.path.bytes());
    told.add(b" ");
    told.number(file.bytes.bytes().len() as u64);
    told.say("; ");
}

// USE, what is left of all flags, the variables of USE_EXPAND, and the words of package.use.
fn line_defaults(alloc: Global, given: &Given, repo: &Repo, walk: &Walk, told: &mut Telling) {
    match defaults_of(alloc, repo, walk, given.small_number(0)) {
        Ok(defaults) => add_defaults(alloc, defaults, told),
        Err(NoMemory) => told.lack(),
    }
}

fn add_defaults(alloc: Global, defaults: UseDefaults, told: &mut Telling) {
    add_words(b"USE", defaults.on.words(), told);
    add_words(b"left", defaults.kept.words(), told);
    for list in defaults.expand.items() {
        add_words(list.name.bytes(), &list.words, told);
    }
    for rule in defaults.rules.items() {
        if add_rule(alloc, rule, told).is_err() {
            told.lack();
        }
    }
}

// The defaults of flags, `-` before those that are off, of the package at a place in the profile at one, where it is judged.
fn flag_defaults(alloc: Global, given: &Given, repo: &Repo, walk: &Walk, told: &mut Telling) {
    let Some(pkg) = repo.pkgs.items().get(given.small_number(0) as usize) else {
        return told.say("none");
    };
    let Some(profile) = repo.profiles.items().get(given.small_number(1) as usize) else {
        return told.say("none");
    };
    let Some(level) = judged(pkg, profile) else {
        return told.say("not judged");
    };
    match defaults_of(alloc, repo, walk, profile.line) {
        Ok(defaults) => flags(pkg, profile, level, defaults, given.from(2), told),
        Err(NoMemory) => told.lack(),
    }
}

fn flags(
    pkg: &Pkg,
    profile: &Profile,
    level: Level,
    defaults: UseDefaults,
    flags: &[Text],
    told: &mut Telling,
) {
    for flag in flags {
        if !default_on(pkg, profile, level, &defaults, flag) {
            told.add(b"-");
        }
        told.add(flag.bytes());
        told.add(b" ");
    }
}
