//! Packages by category and name.
//!
//! The list of packages keeps a map by both: a look-up by hash, O(bytes of category and name), without memory.
ghost use Rattle.std.specs.Prelude.{◌≡◌};
ghost use Rattle.std.specs.List.{AllByRecursion, list_any};
ghost use Rattle.gv_facts.specs.Places.{is_pkg_of, places_of};
ghost use Rattle.gv_facts.specs.Visible.{matches_pkg};
ghost use Rattle.gv_visible.specs.NamedPkgs.{IsNamedAt, matches_at};

use gv_atom::Atom;
use gv_facts::{Pkg, Pkgs, matches_named};

/// The places, from 0 and ascending, of the packages that have the atom's category and name.
#[tactic(auto, using(crate::proofs::Placed::all_named))]
pub fn named<'a>(pkgs: &'a Pkgs, atom: &Atom) -> &'a [u32]
    ensures places { result.now ≡ places_of (is_pkg_of atom.now.category atom.now.name) pkgs.now }
    ensures named { AllByRecursion (IsNamedAt atom.now.category atom.now.name pkgs.now) result.now }
{
    pkgs.places_of(atom.category.bytes(), atom.name.bytes())
}

/// Whether the atom matches the package at this place, which has its category and name.
pub fn matches_at(pkgs: &[Pkg], place: u32, atom: &Atom) -> bool
    requires { IsNamedAt atom.now.category atom.now.name pkgs.now place }
    ensures { result ≡ matches_at atom.now pkgs.now place }
{
    match pkgs.get(place as usize) {
        Some(pkg) => matches_named(atom, pkg),
        None => false,
    }
}

/// Whether the atom matches one of the packages. What matches has its category and name, so no other is looked at.
pub fn some_matches(pkgs: &Pkgs, atom: &Atom) -> bool
    ensures { result ≡ list_any (matches_pkg atom.now) pkgs.now }
{
    some_match(pkgs.items(), named(pkgs, atom), atom)
}

fn some_match(pkgs: &[Pkg], places: &[u32], atom: &Atom) -> bool
    requires { AllByRecursion (IsNamedAt atom.now.category atom.now.name pkgs.now) places.now }
    ensures { result ≡ list_any (matches_at atom.now pkgs.now) places.now }
{
    for place in places {
        if matches_at(pkgs, *place, atom) {
            return true;
        }
    }
    false
}
