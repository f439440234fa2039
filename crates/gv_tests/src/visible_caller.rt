//! Searches as the layers above make them, with a closure that captures the profile and the level. The crate's tests call
//! them; they stand under no `cfg(test)`, so that the check sees which closures `Candidates::new` and `Candidates::among` take.
ghost use Rattle.std.specs.Prelude.{◌≡◌, IfOk};
ghost use Rattle.std.specs.List.{find};
ghost use Rattle.gv_facts.specs.Places.{places_of};
ghost use Rattle.gv_visible.specs.VisiblePkgs.{is_from, shows};

use gv_atom::Atom;
use gv_base::NoMemory;
use gv_facts::{Level, Pkg, Pkgs, Profile};
use gv_visible::{Candidates, VisiblePkgs, visible};
use std::alloc::Global;

/// The number of the next visible package that the atom asks for.
pub(crate) fn next_visible(
    alloc: Global,
    pkgs: &Pkgs,
    profile: &Profile,
    level: Level,
    atom: &Atom,
    from: u32,
) -> Result<Option<u32>, NoMemory>
    ensures { IfOk result (λ found. found ≡ find (is_from from) (places_of (shows profile.now level atom.now) pkgs.now)) }
{
    let test = |pkg: &Pkg| visible(pkg, profile, level);
    let candidates = Candidates::new(alloc, pkgs, profile, level, test)?;
    Ok(candidates.next(atom, from))
}

/// The same where what is visible was asked before.
pub(crate) fn next_among<'a>(
    shown: &'a VisiblePkgs<'a>,
    level: Level,
    atom: &Atom,
    from: u32,
) -> Option<u32>
    ensures { result ≡ find (is_from from) (places_of (shows shown.now.profile level atom.now) shown.now.pkgs) }
{
    let profile = shown.profile();
    let answer = |pkg: &Pkg| visible(pkg, profile, level);
    let candidates = Candidates::among(shown, level, answer);
    candidates.next(atom, from)
}

/// How many packages have the atom's category and name, and how many of them it matches and are visible.
pub(crate) fn counts_among<'a>(
    shown: &'a VisiblePkgs<'a>,
    level: Level,
    atom: &Atom,
) -> (usize, usize) {
    let profile = shown.profile();
    let ask = |pkg: &Pkg| visible(pkg, profile, level);
    let candidates = Candidates::among(shown, level, ask);
    let places = candidates.places(atom);
    let mut count: usize = 0;
    for place in places {
        if candidates.shown(*place, atom).is_some() {
            count = count.saturating_add(1);
        }
    }
    (places.len(), count)
}
