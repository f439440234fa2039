//! Packages beside a stored test that is known to answer which are visible.
ghost use Rattle.std.specs.Prelude.{◌≡◌, ◌+◌, [], ◌∷◌, Some, filter, map, nat_lt, slice_get, IfOk, IfSome};
ghost use Rattle.std.specs.List.{filter_map, find};
ghost use Rattle.std.specs.Option.{option_copied, option_map_or};
ghost use Rattle.std.specs.List.Sorted.{IsPartitionedBy};
ghost use Rattle.gv_facts.specs.Places.{is_pkg_of, places_of};
ghost use Rattle.gv_facts.specs.Visible.{visible};
ghost use Rattle.gv_facts.specs.declared.pkg.Pkg.{Pkg};
ghost use Rattle.gv_visible.specs.VisiblePkgs.{is_from, shown_at, shows};
ghost use Rattle.gv_visible.specs.PrivateWords.{shows_at};
ghost use Rattle.gv_visible.specs.StoredTest.{AnswersVisible};
ghost use Rattle.gv_visible.specs.Candidates.{level_of, pkgs_of, profile_of, test_of};

use crate::bit_list::BitList;
use crate::visible_pkgs::VisiblePkgs;
use gv_atom::Atom;
use gv_base::NoMemory;
use gv_facts::{Level, Pkg, Pkgs, Profile, matches_pkg};
use std::alloc::Global;
use std::marker::Model;

/// Packages, the profile and the level at which they are looked at, and a test of packages.
///
/// That the test may be asked of every package that is a value, and then answers whether the profile shows it at this
/// level, is told by `new` and `among`, and every call that asks the test requires it.
#[derive(Drop)]
pub struct Candidates<'a, F: Fn(&Pkg) -> bool> {
    pkgs: &'a Pkgs,
    profile: &'a Profile,
    level: Level,
    test: F,
    // What is visible, where it was asked of all.
    kept: Option<&'a BitList>,
}

impl<'a, F: Fn(&Pkg) -> bool> Model for Candidates<'a, F> {
    ghost use Rattle.std.specs.Option.{option_map};
    ghost use Rattle.gv_visible.specs.Tested.{AreKept};
    ghost use Rattle.gv_visible.specs.Candidates.{Candidates};

    ghost Value = { Candidates F };

    ghost view = { λ c. record { pkgs = c.pkgs.now; profile = c.profile.now; level = c.level; test = c.test } };

    ghost invariant = { λ c. AreKept (option_map (λ shown. shown.now) c.kept) c.profile.now c.level c.pkgs.now };
}

impl<'a, F: Fn(&Pkg) -> bool> Candidates<'a, F> {
    /// Candidates among the packages: O(1), and it asks for no memory. The test answers `visible` for the profile and the level.
    pub fn new(
        _alloc: Global,
        pkgs: &'a Pkgs,
        profile: &'a Profile,
        level: Level,
        test: F,
    ) -> Result<Candidates<'a, F>, NoMemory>
        requires test { AnswersVisible (F.pre test) (F.post test) profile.now level }
        ensures pkgs { IfOk result (λ candidates. pkgs_of candidates ≡ pkgs.now) }
        ensures profile { IfOk result (λ candidates. profile_of candidates ≡ profile.now) }
        ensures level { IfOk result (λ candidates. level_of candidates ≡ level) }
        ensures test { IfOk result (λ candidates. AnswersVisible (F.pre (test_of candidates)) (F.post (test_of candidates)) (profile_of candidates) (level_of candidates)) }
    {
        Ok(Candidates {
            pkgs,
            profile,
            level,
            test,
            kept: None,
        })
    }

    /// Candidates among packages of which is kept what the profile shows: O(1), without memory. The test, which answers the
    /// same, isn't called.
    pub fn among(shown: &'a VisiblePkgs<'a>, level: Level, test: F) -> Candidates<'a, F>
        requires test { AnswersVisible (F.pre test) (F.post test) shown.now.profile level }
        ensures pkgs { pkgs_of result ≡ shown.now.pkgs }
        ensures profile { profile_of result ≡ shown.now.profile }
        ensures level { level_of result ≡ level }
        ensures test { AnswersVisible (F.pre (test_of result)) (F.post (test_of result)) (profile_of result) (level_of result) }
    {
        Candidates {
            pkgs: shown.pkgs(),
            profile: shown.profile(),
            level,
            test,
            kept: Some(shown.at(level)),
        }
    }

    /// The packages.
    pub fn pkgs(&self) -> &'a Pkgs
        ensures { result.now ≡ pkgs_of self.now }
    {
        self.pkgs
    }

    /// The profile whose masks and whose arch say what is visible.
    pub fn profile(&self) -> &'a Profile
        ensures { result.now ≡ profile_of self.now }
    {
        self.profile
    }

    /// The level at which keywords accept candidates.
    pub fn level(&self) -> Level
        ensures { result ≡ level_of self.now }
    {
        self.level
    }

    fn at(&self, category: &[u8], name: &[u8]) -> &[u32]
        ensures { result.now ≡ places_of (is_pkg_of category.now name.now) (pkgs_of self.now) }
    {
        self.pkgs.places_of(category, name)
    }

    // What was answered before of the package at this place, if it was asked.
    fn kept(&self, place: u32) -> Option<bool>
        ensures { (pkg : Pkg) → slice_get (pkgs_of self.now) place ≡ Some pkg → IfSome result (λ shown. shown ≡ visible pkg (profile_of self.now) (level_of self.now)) }
    {
        match self.kept {
            Some(kept) => kept.get(place as usize),
            None => None,
        }
    }

    /// Whether the package, which has this place, is visible.
    pub fn is_visible(&self, place: u32, pkg: &Pkg) -> bool
        requires test { AnswersVisible (F.pre (test_of self.now)) (F.post (test_of self.now)) (profile_of self.now) (level_of self.now) }
        requires place { slice_get (pkgs_of self.now) place ≡ Some pkg.now }
        ensures { result ≡ visible pkg.now (profile_of self.now) (level_of self.now) }
    {
        match self.kept(place) {
            Some(shown) => shown,
            None => {
                pkg.tell();
                (self.test)(pkg)
            }
        }
    }

    /// The package with this number, where the atom matches it and it is visible.
    pub fn shown(&self, place: u32, atom: &Atom) -> Option<&'a Pkg>
        requires test { AnswersVisible (F.pre (test_of self.now)) (F.post (test_of self.now)) (profile_of self.now) (level_of self.now) }
        ensures { option_copied result ≡ shown_at (profile_of self.now) (level_of self.now) atom.now (pkgs_of self.now) place }
    {
        match self.pkgs().items().get(place as usize) {
            Some(pkg) if self.is_visible(place, pkg) && matches_pkg(atom, pkg) => Some(pkg),
            _ => None,
        }
    }

    fn shows_at(&self, place: u32, atom: &Atom) -> bool
        requires test { AnswersVisible (F.pre (test_of self.now)) (F.post (test_of self.now)) (profile_of self.now) (level_of self.now) }
        ensures { result ≡ shows_at (profile_of self.now) (level_of self.now) atom.now (pkgs_of self.now) place }
    {
        match self.pkgs().items().get(place as usize) {
            Some(pkg) if matches_pkg(atom, pkg) => self.is_visible(place, pkg),
            _ => false,
        }
    }

    // The first of the places at which a package matches and is visible.
    fn first_shown(&self, places: &[u32], atom: &Atom) -> Option<u32>
        requires test { AnswersVisible (F.pre (test_of self.now)) (F.post (test_of self.now)) (profile_of self.now) (level_of self.now) }
        ensures { result ≡ find (shows_at (profile_of self.now) (level_of self.now) atom.now (pkgs_of self.now)) places.now }
    {
        for place in places {
            if self.shows_at(*place, atom) {
                return Some(*place);
            }
        }
        None
    }

    /// The least number from `from` on of a package that the atom matches and that is visible. None where there is none.
    pub fn next(&self, atom: &Atom, from: u32) -> Option<u32>
        requires test { AnswersVisible (F.pre (test_of self.now)) (F.post (test_of self.now)) (profile_of self.now) (level_of self.now) }
        ensures first { result ≡ find (is_from from) (places_of (shows (profile_of self.now) (level_of self.now) atom.now) (pkgs_of self.now)) }
        // All of them from `from` on are this one and those behind it.
        ensures all { let shown = places_of (shows (profile_of self.now) (level_of self.now) atom.now) (pkgs_of self.now) in filter (is_from from) shown ≡ option_map_or (λ n. n ∷ filter (is_from (n + 1)) shown) result [] }
    {
        let places = self.at(atom.category.bytes(), atom.name.bytes());
        let rest = places_from(places, from);
        self.first_shown(rest, atom)
    }

    /// The numbers, ascending, of the packages of the atom's category and name: a look-up by hash, without memory.
    pub fn places(&self, atom: &Atom) -> &[u32]
        ensures places { result.now ≡ places_of (is_pkg_of atom.now.category atom.now.name) (pkgs_of self.now) }
        // What stands at them is what was looked for.
        ensures items { map (slice_get (pkgs_of self.now)) result.now ≡ map Some (filter (is_pkg_of atom.now.category atom.now.name) (pkgs_of self.now)) }
        // What `shown` gives at them is each visible package that the atom matches.
        ensures shown { filter_map (shown_at (profile_of self.now) (level_of self.now) atom.now (pkgs_of self.now)) result.now ≡ filter (shows (profile_of self.now) (level_of self.now) atom.now) (pkgs_of self.now) }
    {
        self.at(atom.category.bytes(), atom.name.bytes())
    }
}

// The ascending places from `from` on.
fn places_from(places: &[u32], from: u32) -> &[u32]
    requires { IsPartitionedBy (λ n. nat_lt n from) places.now }
    ensures { result.now ≡ filter (is_from from) places.now }
{
    let first = places.partition_point(|place| *place < from);
    &places[first..]
}
