//! Candidates with their stored test, on records made by hand. Each line of a table is one case.
use crate::visible_caller::{counts_among, next_among, next_visible};
use gv_atom::{Atom, read_atom};
use gv_base::{Text, Texts, words_of};
use gv_facts::{Eapi, Level, Mask, Masks, Pkg, Pkgs, Profile, Rules, Status, ValueLists};
use gv_version::read_version;
use gv_visible::{AcceptedPkgs, Candidates, VisiblePkgs, visible};
use std::alloc::Global;
use std::process::Abort;

fn text<R: Abort>(rt: &R, alloc: Global, bytes: &str) -> Text {
    Text::of(alloc, bytes.as_bytes()).expect(rt, "memory")
}

fn texts<R: Abort>(rt: &R, alloc: Global, words: &str) -> Texts {
    words_of(alloc, words.as_bytes()).expect(rt, "memory")
}

fn atom<R: Abort>(rt: &R, alloc: Global, bytes: &str) -> Atom {
    read_atom(alloc, bytes.as_bytes()).expect(rt, bytes)
}

// A package in slot 0/3.
fn pkg<R: Abort>(
    rt: &R,
    alloc: Global,
    category: &str,
    name: &str,
    version: &str,
    keywords: &str,
) -> Pkg {
    Pkg {
        category: text(rt, alloc, category),
        name: text(rt, alloc, name),
        version: read_version(alloc, version.as_bytes()).expect(rt, version),
        pf: text(rt, alloc, name),
        eapi: Eapi::Eight,
        slot: text(rt, alloc, "0"),
        sub: text(rt, alloc, "3"),
        keywords: texts(rt, alloc, keywords),
        iuse: texts(rt, alloc, ""),
        iuse_plus: texts(rt, alloc, ""),
        live: false,
    }
}

fn masks<R: Abort>(rt: &R, alloc: Global, lines: &str) -> Masks {
    let mut masks = Masks::new(alloc);
    for line in lines.split(',') {
        if !line.is_empty() {
            let mask = Mask {
                text: text(rt, alloc, line),
                atom: atom(rt, alloc, line),
            };
            masks.add(mask).expect(rt, "memory");
        }
    }
    masks
}

// A profile with these masks.
fn profile<R: Abort>(rt: &R, alloc: Global, lines: &str) -> Profile {
    Profile {
        line: 1,
        arch: text(rt, alloc, "amd64"),
        path: text(rt, alloc, "base"),
        status: Status::Stable,
        testing: false,
        iuse_implicit: Texts::new(alloc),
        expand: Texts::new(alloc),
        expand_implicit: Texts::new(alloc),
        unprefixed: Texts::new(alloc),
        values: ValueLists::new(alloc),
        masks: masks(rt, alloc, lines),
        rules: Rules::new(alloc),
    }
}

/// Packages in order: category, name, version, keyword.
const PKGS: &str = "\
x y 1 amd64
x z 1 amd64
x y 2 amd64
z y 1 amd64
x y 3 ~amd64
x y 4 amd64";

fn pkgs<R: Abort>(rt: &R, alloc: Global) -> Pkgs {
    let mut pkgs = Pkgs::new(alloc);
    for line in PKGS.lines() {
        let mut words = line.split(' ');
        let category = words.next().expect(rt, line);
        let name = words.next().expect(rt, line);
        let version = words.next().expect(rt, line);
        let keyword = words.next().expect(rt, line);
        let pkg = pkg(rt, alloc, category, name, version, keyword);
        pkgs.add(pkg).expect(rt, "memory");
    }
    pkgs
}

/// Atoms, a number, and the next number from it on at stable and at testing, where =x/y-2 is masked.
const NEXT: &str = "\
x/y 0 0 0
x/y 1 5 4
x/y 2 5 4
x/y 3 5 4
x/y 4 5 4
x/y 5 5 5
x/y 6 - -
x/y 4294967295 - -
x/z 0 1 1
x/z 1 1 1
x/z 2 - -
z/y 0 3 3
z/y 3 3 3
z/y 4 - -
x/n 0 - -
z/z 0 - -
<x/y-3 0 0 0
<x/y-3 1 - -
=x/y-2 0 - -
>x/y-1 0 5 4
>x/y-1 5 5 5
=x/y-3* 0 - 4
x/y:0/3 1 5 4
x/y:1 0 - -
!x/y 1 5 4";

// The next number that candidates of their own find, and those of which is kept what is visible.
fn finds<R: Abort>(
    rt: &R,
    alloc: Global,
    shown: &VisiblePkgs<'_>,
    level: Level,
    bytes: &str,
    from: u32,
    want: &str,
) {
    let atom = atom(rt, alloc, bytes);
    let want = wanted(rt, want);
    let found = next_visible(alloc, shown.pkgs(), shown.profile(), level, &atom, from).expect(
        rt, bytes,
    );
    let among = next_among(shown, level, &atom, from);
    assert!(rt; found == want && among == want, "{bytes} {from}");
}

// A number, or none where a hyphen stands.
fn wanted<R: Abort>(rt: &R, want: &str) -> Option<u32> {
    if want == "-" {
        return None;
    }
    Some(want.parse().expect(rt, want))
}

// Each line of the table.
fn finds_all<R: Abort>(rt: &R, alloc: Global, shown: &VisiblePkgs<'_>) {
    for line in NEXT.lines() {
        let mut words = line.split(' ');
        let atom = words.next().expect(rt, line);
        let from = words.next().expect(rt, line);
        let stable = words.next().expect(rt, line);
        let testing = words.next().expect(rt, line);
        let from: u32 = from.parse().expect(rt, line);
        finds(rt, alloc, shown, Level::Stable, atom, from, stable);
        finds(rt, alloc, shown, Level::Testing, atom, from, testing);
    }
}

/// Atoms, how many packages have their category and name, and how many of these they match and are visible at stable,
/// where =x/y-2 is masked.
const COUNTS: &str = "\
x/y 4 2
<x/y-3 4 1
=x/y-2 4 0
x/y:1 4 0
!x/y 4 2
x/z 1 1
z/y 1 1
x/n 0 0
z/z 0 0";

fn counts<R: Abort>(rt: &R, alloc: Global, shown: &VisiblePkgs<'_>, bytes: &str, want: &str) {
    let atom = atom(rt, alloc, bytes);
    let (named, met) = want.split_once(' ').expect(rt, bytes);
    let named: usize = named.parse().expect(rt, bytes);
    let met: usize = met.parse().expect(rt, bytes);
    assert_eq!(rt;
        counts_among(shown, Level::Stable, &atom),
        (named, met),
        "{bytes}"
    );
}

// Each line of the table.
fn counts_all<R: Abort>(rt: &R, alloc: Global, shown: &VisiblePkgs<'_>) {
    for line in COUNTS.lines() {
        let (bytes, want) = line.split_once(' ').expect(rt, line);
        counts(rt, alloc, shown, bytes, want);
    }
}

// Both tables, of what the profile shows of the packages: the second time by what was kept for its arch.
fn both<R: Abort>(rt: &R, alloc: Global, pkgs: &Pkgs, profile: &Profile) {
    let mut accepted = AcceptedPkgs::new(alloc, pkgs);
    shown_anew(rt, alloc, &mut accepted, profile);
    shown_anew(rt, alloc, &mut accepted, profile);
}

fn shown_anew<'a, R: Abort>(
    rt: &R,
    alloc: Global,
    accepted: &mut AcceptedPkgs<'a>,
    profile: &'a Profile,
) {
    let shown = accepted.shown(profile).expect(rt, "memory");
    finds_all(rt, alloc, &shown);
    counts_all(rt, alloc, &shown);
}

#[test]
fn what_is_visible_is_found_in_order_and_by_name(rt: HostRuntime) {
    let alloc = rt.alloc();
    let pkgs = pkgs(&rt, alloc);
    let profile = profile(&rt, alloc, "=x/y-2");
    both(&rt, alloc, &pkgs, &profile);
}

#[test]
fn candidates_tell_what_they_were_given(rt: HostRuntime) {
    let alloc = rt.alloc();
    let pkgs = pkgs(&rt, alloc);
    let profile = profile(&rt, alloc, "");
    let level = Level::Testing;
    let test = |pkg: &Pkg| visible(pkg, &profile, level);
    let candidates = Candidates::new(alloc, &pkgs, &profile, level, test).expect(&rt, "memory");
    assert!(&rt; candidates.level() == level);
    assert_eq!(&rt; candidates.pkgs().items().len(), 6);
    assert_eq!(&rt; candidates.profile().line, 1);
}
