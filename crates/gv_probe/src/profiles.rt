//! Packages and profiles of the loaded tree, and loads of it after an edit.
ghost use Rattle.std.specs.Prelude.{◌≡◌, true, IfOk};
ghost use Rattle.std.specs.List.{list_all};
ghost use Rattle.gv_reload.specs.EntryEdits.{is_entry};
ghost use Rattle.gv_load.specs.Repository.{AreInPackageOrder};

use crate::entry::parts;
use crate::given::Given;
use crate::loading::{fault, tell};
use crate::outside::Outside;
use crate::written::Telling;
use gv_atom::print_atom;
use gv_base::{MemTree, NoMemory, Text, Texts};
use gv_facts::{Effect, Pkg, Pkgs, Profile, Profiles, Rule, Status};
use gv_load::{Loaded, Repo, load, load_counted};
use gv_reload::{EntryEdits, Reread, is_entry, reread_entries};
use std::alloc::Global;

/// Tells the answer to a call of these, if it is one.
pub(crate) fn answer(
    alloc: Global,
    call: &str,
    given: &Given,
    outside: &Outside,
    told: &mut Telling,
) -> Result<bool, NoMemory> {
    if !matches!(call, "package-at" | "profile-at") {
        return Ok(false);
    }
    let mut tree = outside.tree(alloc)?;
    let place = given.small_number(0) as usize;
    match load(alloc, &mut tree) {
        Ok(repo) => at(alloc, call, &repo, place, told)?,
        Err(_fault) => told.say("no repository"),
    }
    Ok(true)
}

// The package or the profile of that place.
fn at(
    alloc: Global,
    call: &str,
    repo: &Repo,
    place: usize,
    told: &mut Telling,
) -> Result<(), NoMemory> {
    if call == "package-at" {
        package(alloc, repo, place, told)
    } else {
        profile_at(alloc, repo, place, told)
    }
}

fn package(alloc: Global, repo: &Repo, place: usize, told: &mut Telling) -> Result<(), NoMemory> {
    package_in(alloc, repo.pkgs.copy(alloc)?, place, told)
}

fn package_in(alloc: Global, pkgs: Pkgs, place: usize, told: &mut Telling) -> Result<(), NoMemory> {
    match pkgs.items().get(place) {
        Some(pkg) => {
            pkg.tell();
            tell_parts(pkg.copy(alloc)?, told);
        }
        None => told.say("none"),
    }
    Ok(())
}

fn tell_parts(pkg: Pkg, told: &mut Telling) {
    parts(&pkg, told);
}

fn profile_at(
    alloc: Global,
    repo: &Repo,
    place: usize,
    told: &mut Telling,
) -> Result<(), NoMemory> {
    profile_in(alloc, repo.profiles.copy(alloc)?, place, told)
}

fn profile_in(
    alloc: Global,
    profiles: Profiles,
    place: usize,
    told: &mut Telling,
) -> Result<(), NoMemory> {
    match profiles.items().get(place) {
        Some(found) => tell_profile(alloc, found.copy(alloc)?, told)?,
        None => told.say("none"),
    }
    Ok(())
}

fn tell_profile(alloc: Global, found: Profile, told: &mut Telling) -> Result<(), NoMemory> {
    profile(alloc, &found, told)
}

/// The words of a variable, where it has some.
pub(crate) fn add_words(name: &[u8], words: &Texts, told: &mut Telling) {
    if !words.items().is_empty() {
        told.add(name);
        told.add(b"=");
        told.joined(words, b' ');
        told.say("; ");
    }
}

/// A rule on a flag.
pub(crate) fn add_rule(alloc: Global, rule: &Rule, told: &mut Telling) -> Result<(), NoMemory> {
    told.say(match rule.effect {
        Effect::Mask => "mask",
        Effect::Force => "force",
    });
    if rule.stable {
        told.say(".stable");
    }
    told.add(b" ");
    if let Some(atom) = &rule.atom {
        told.add(print_atom(alloc, atom.atom())?.bytes());
        told.add(b" ");
    }
    if !rule.on {
        told.add(b"-");
    }
    told.add(rule.flag.bytes());
    told.say("; ");
    Ok(())
}

// The line, the arch, the path and the status; whether it judges at testing alone.
fn add_head(profile: &Profile, told: &mut Telling) {
    told.number(u64::from(profile.line));
    told.add(b" ");
    told.add(profile.arch.bytes());
    told.add(b" ");
    told.add(profile.path.bytes());
    told.say(match profile.status {
        Status::Stable => " stable; ",
        Status::Dev => " dev; ",
        Status::Exp => " exp; ",
    });
    if profile.testing {
        told.say("testing; ");
    }
}

// The head, the variables, the rules and the masks.
fn profile(alloc: Global, profile: &Profile, told: &mut Telling) -> Result<(), NoMemory> {
    add_head(profile, told);
    add_lists(alloc, profile, told)?;
    add_rules(alloc, profile, told)?;
    add_masks(alloc, profile, told)
}

fn add_rules(alloc: Global, profile: &Profile, told: &mut Telling) -> Result<(), NoMemory> {
    for rule in profile.rules.items() {
        add_rule(alloc, &rule.copy(alloc)?, told)?;
    }
    Ok(())
}

fn add_masks(alloc: Global, profile: &Profile, told: &mut Telling) -> Result<(), NoMemory> {
    for mask in profile.masks.items() {
        told.add(mask.copy(alloc)?.text.bytes());
        told.say("; ");
    }
    Ok(())
}

fn add_lists(alloc: Global, profile: &Profile, told: &mut Telling) -> Result<(), NoMemory> {
    add_words(b"IUSE_IMPLICIT", &profile.iuse_implicit, told);
    add_words(b"USE_EXPAND", &profile.expand, told);
    add_words(b"USE_EXPAND_IMPLICIT", &profile.expand_implicit, told);
    add_words(b"USE_EXPAND_UNPREFIXED", &profile.unprefixed, told);
    for values in profile.values.items() {
        let values = values.copy(alloc)?;
        add_words(values.name.bytes(), &values.words, told);
    }
    Ok(())
}

/// What comes of reading the entry at a path anew, of the first part, once the bytes of the second are put there: the
/// repository, and how many files a load finds at most.
pub(crate) fn reread(alloc: Global, given: &Given, outside: &Outside, told: &mut Telling) {
    let Ok(mut tree) = outside.tree(alloc) else {
        return told.lack();
    };
    match load_counted(alloc, &mut tree) {
        Ok(old) => reread_over(alloc, given, outside, old, told),
        Err(_) => told.say("! no repository\n"),
    }
}

fn reread_over(alloc: Global, given: &Given, outside: &Outside, old: Loaded, told: &mut Telling)
    requires { AreInPackageOrder old.repo.pkgs }
{
    match one_edit(alloc, &old, given.part(0)) {
        Ok(edits) => reread_edited(alloc, given, outside, old, &edits, told),
        Err(NoMemory) => told.lack(),
    }
}

fn reread_edited(
    alloc: Global,
    given: &Given,
    outside: &Outside,
    old: Loaded,
    edits: &EntryEdits,
    told: &mut Telling,
)
    requires order { AreInPackageOrder old.repo.pkgs }
    requires entries { list_all (is_entry old.folders.categories) edits.now ≡ true }
{
    match outside.edited(alloc, given.bytes(0), given.bytes(1)) {
        Ok(tree) => reread_in(alloc, tree, old, edits, told),
        Err(NoMemory) => told.lack(),
    }
}

fn reread_in(alloc: Global, tree: MemTree, old: Loaded, edits: &EntryEdits, told: &mut Telling)
    requires order { AreInPackageOrder old.repo.pkgs }
    requires entries { list_all (is_entry old.folders.categories) edits.now ≡ true }
{
    let mut tree = tree;
    match reread_entries(alloc, &mut tree, old, edits) {
        Ok(found) => tell_reread(found, told),
        Err(found) => fault(&found, told),
    }
}

fn tell_reread(found: Reread, told: &mut Telling) {
    match found {
        Reread::Done { loaded } => tell_loaded(loaded, told),
        Reread::Unclear { loaded } => tell_unclear(loaded, told),
    }
}

fn tell_loaded(loaded: Loaded, told: &mut Telling) {
    tell(&loaded.repo, told);
    told.say("> at most ");
    told.number(loaded.found);
    told.say(" files\n");
}

fn tell_unclear(_loaded: Loaded, told: &mut Telling) {
    told.say("> unclear\n");
}

fn one_edit(alloc: Global, old: &Loaded, path: &Text) -> Result<EntryEdits, NoMemory>
    ensures { IfOk result (λ edits. list_all (is_entry old.now.folders.categories) edits ≡ true) }
{
    edit_at(alloc, &old.folders.categories, path)
}

fn edit_at(alloc: Global, categories: &Texts, path: &Text) -> Result<EntryEdits, NoMemory>
    ensures { IfOk result (λ edits. list_all (is_entry categories.now) edits ≡ true) }
{
    let mut edits = EntryEdits::new(alloc);
    if is_entry(categories, path)? {
        edits.add(alloc, path)?;
    }
    Ok(edits)
}
