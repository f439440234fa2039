//! Packages, rules and profiles that are made of words.
ghost use Rattle.std.specs.Prelude.{IsSome};
ghost use Rattle.gv_version.specs.Names.{split_pf};

use gv_atom::{Atom, SharedAtom, read_atom};
use gv_base::{NoMemory, Text, Texts, words_of};
use gv_entry::{Body, Entry, read_entry};
use gv_facts::{Effect, Mask, Masks, Pkg, Pkgs, Profile, Rule, Rules, Status, ValueLists};
use gv_version::split_pf;
use std::alloc::Global;

/// A package and its expressions.
#[derive(Drop)]
pub(crate) struct Made {
    pub pkg: Pkg,
    pub body: Body,
}

/// The entry of a category and a PF, if the latter is one.
pub(crate) fn entry(
    alloc: Global,
    category: &[u8],
    pf: &[u8],
    lines: &[u8],
) -> Result<Option<Entry>, NoMemory> {
    let category = Text::of(alloc, category)?;
    let pf = Text::of(alloc, pf)?;
    if split_pf(pf.bytes()).is_none() {
        return Ok(None);
    }
    Ok(Some(copied(alloc, &category, &pf, lines)?))
}

fn copied(alloc: Global, category: &Text, pf: &Text, lines: &[u8]) -> Result<Entry, NoMemory>
    requires { IsSome (split_pf pf.now) }
{
    copy_of(alloc, read_entry(alloc, category, pf, lines)?)
}

fn copy_of(alloc: Global, entry: Entry) -> Result<Entry, NoMemory> {
    entry.copy(alloc)
}

/// The package of such an entry, if it is one.
pub(crate) fn member_of(
    alloc: Global,
    category: &[u8],
    pf: &[u8],
    lines: &[u8],
) -> Result<Option<Made>, NoMemory> {
    match entry(alloc, category, pf, lines)? {
        Some(entry) => Ok(made_of(entry)),
        None => Ok(None),
    }
}

fn made_of(entry: Entry) -> Option<Made> {
    let Entry { head, body, .. } = entry;
    match head {
        Some(pkg) => Some(Made { pkg, body }),
        None => None,
    }
}

/// Adds the package of such an entry, if it is one.
pub(crate) fn add_member(
    alloc: Global,
    category: &[u8],
    pf: &[u8],
    lines: &[u8],
    pkgs: &mut Pkgs,
) -> Result<(), NoMemory> {
    match member_of(alloc, category, pf, lines)? {
        Some(made) => pkgs.add(made.pkg),
        None => Ok(()),
    }
}

/// The words of a text.
pub(crate) fn words(alloc: Global, text: &str) -> Result<Texts, NoMemory> {
    words_of(alloc, text.as_bytes())
}

// Adds the rule of a kind, an atom and a flag, `-` in front where it is undone; none where the atom is none.
fn add_rule(alloc: Global, line: &str, rules: &mut Rules) -> Result<(), NoMemory> {
    let (kind, rest) = line.split_once(' ').unwrap_or((line, ""));
    match rest.split_once(' ') {
        Some((front, flag)) => match read_atom(alloc, front.as_bytes()) {
            Ok(atom) => rules.add(package_rule(alloc, kind, atom, flag)?),
            Err(_) => Ok(()),
        },
        None => rules.add(rule(alloc, kind, None, rest)?),
    }
}

fn package_rule(alloc: Global, kind: &str, atom: Atom, flag: &str) -> Result<Rule, NoMemory> {
    let atom = SharedAtom::new(alloc, atom)?;
    rule(alloc, kind, Some(atom), flag)
}

fn rule(alloc: Global, kind: &str, atom: Option<SharedAtom>, flag: &str) -> Result<Rule, NoMemory> {
    let name = Text::of(alloc, flag.strip_prefix("-").unwrap_or(flag).as_bytes())?;
    Ok(Rule {
        effect: if kind.ends_with("mask") {
            Effect::Mask
        } else {
            Effect::Force
        },
        stable: kind.starts_with("stable"),
        atom,
        flag: name,
        on: !flag.starts_with("-"),
    })
}

/// Rules with commas between: `force`, `mask`, `stable.force` or `stable.mask`, an atom for a package rule, and the flag.
pub(crate) fn rules(alloc: Global, lines: &str) -> Result<Rules, NoMemory> {
    let mut rules = Rules::new(alloc);
    for line in lines.split(',') {
        if !line.is_empty() {
            add_rule(alloc, line, &mut rules)?;
        }
    }
    Ok(rules)
}

/// Masks with commas between.
pub(crate) fn masks(alloc: Global, lines: &str) -> Result<Masks, NoMemory> {
    let mut masks = Masks::new(alloc);
    for line in lines.split(',') {
        if let Ok(atom) = read_atom(alloc, line.as_bytes()) {
            masks.add(mask(alloc, line, atom)?)?;
        }
    }
    Ok(masks)
}

fn mask(alloc: Global, line: &str, atom: Atom) -> Result<Mask, NoMemory> {
    let text = Text::of(alloc, line.as_bytes())?;
    Ok(Mask { text, atom })
}

/// A profile of status stable for amd64 without anything else.
pub(crate) fn bare_profile(alloc: Global) -> Result<Profile, NoMemory> {
    let arch = Text::of(alloc, b"amd64")?;
    let path = Text::of(alloc, b"base")?;
    Ok(bare(alloc, arch, path))
}

fn bare(alloc: Global, arch: Text, path: Text) -> Profile {
    Profile {
        line: 1,
        arch,
        path,
        status: Status::Stable,
        testing: false,
        iuse_implicit: Texts::new(alloc),
        expand: Texts::new(alloc),
        expand_implicit: Texts::new(alloc),
        unprefixed: Texts::new(alloc),
        values: ValueLists::new(alloc),
        masks: Masks::new(alloc),
        rules: Rules::new(alloc),
    }
}
