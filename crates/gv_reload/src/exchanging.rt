//! Packages that are put in the places of edited ones, where all others stay where they are.
//!
//! The places cost a look-up of `entry_edits` for each package, and O(k) memory for k places. To put packages there costs as much for
//! each as to take it out of a set, and no memory.
ghost use Rattle.std.specs.Prelude.{◌≡◌, ◌∷◌, [], ◌++◌, ◌&&◌, true, false, filter, length, map, slice_set, ℕ, List, IfOk, MatchOption};
ghost use Rattle.gv_facts.specs.declared.pkg.Pkg.{Pkg};
ghost use Rattle.gv_reload.specs.EntryEdits.{is_edited_pkg};
ghost use Rattle.gv_reload.specs.Exchanged.{are_at, are_exchangeable, edited_places, have_bodies, is_at, set_all};
ghost use Rattle.gv_load.specs.Repository.{body_of, pkg_of};

use crate::entry_edits::EntryEdits;
use gv_base::NoMemory;
use gv_facts::Pkg;
use gv_load::{Member, Packages, compare};
use std::alloc::Global;
use std::cmp::Ordering;
use std::collections::BTreeSet;

/// The places of the packages whose entries are edited.
pub(crate) fn edited_places(
    alloc: Global,
    pkgs: &[Pkg],
    edits: &EntryEdits,
) -> Result<Vec<usize>, NoMemory>
    ensures { IfOk result (λ places. places.items ≡ edited_places edits.now pkgs.now) }
{
    let mut places = Vec::new(alloc);
    let mut place = 0;
    for pkg in pkgs {
        if edits.is_edited(&pkg.category, &pkg.pf) {
            places.push(place)?;
        }
        place += 1;
    }
    Ok(places)
}

/// Whether each package has a body, and the edited new ones tie with the old ones at the places, one with each.
pub(crate) fn are_exchangeable(
    old: &Packages,
    new: &Packages,
    places: &[usize],
    edits: &EntryEdits,
) -> bool
    requires { places.now ≡ edited_places edits.now old.now.pkgs }
    ensures { result ≡ are_exchangeable edits.now old.now new.now }
{
    have_bodies(old)
        && have_bodies(new)
        && are_at(old.pkgs.items(), places, new.pkgs.items(), edits)
}

fn have_bodies(packages: &Packages) -> bool
    ensures { result ≡ have_bodies packages.now }
{
    packages.bodies.items().len() == packages.pkgs.items().len()
}

fn are_at(pkgs: &[Pkg], places: &[usize], others: &[Pkg], edits: &EntryEdits) -> bool
    ensures { result ≡ are_at pkgs.now places.now (filter (is_edited_pkg edits.now) others.now) }
{
    let mut left = places;
    for pkg in others {
        if edits.is_edited(&pkg.category, &pkg.pf) {
            let Some(more) = behind_first(pkgs, left, pkg) else {
                return false;
            };
            left = more;
        }
    }
    are_none(left)
}

fn are_none(places: &[usize]) -> bool
    ensures { (pkgs : List Pkg) → result ≡ are_at pkgs places.now [] }
{
    match places {
        [] => true,
        _ => false,
    }
}

// The places behind the first one, where a package that ties with this one stands there.
fn behind_first<'a>(pkgs: &[Pkg], places: &'a [usize], pkg: &Pkg) -> Option<&'a [usize]>
    ensures { MatchOption result ((ps : List Pkg) → are_at pkgs.now places.now (pkg.now ∷ ps) ≡ false) (λ more. (ps : List Pkg) → are_at pkgs.now places.now (pkg.now ∷ ps) ≡ are_at pkgs.now more.now ps) }
{
    match places {
        [place, more @ ..] => {
            if is_at(pkgs, *place, pkg) {
                Some(more)
            } else {
                None
            }
        }
        _ => None,
    }
}

fn is_at(pkgs: &[Pkg], place: usize, pkg: &Pkg) -> bool
    ensures { result ≡ is_at pkgs.now place pkg.now }
{
    match pkgs.get(place) {
        Some(other) => matches!(compare(pkg, other), Ordering::Equal),
        None => false,
    }
}

/// Puts each of the members, in their order, in the place of one that ties with it.
pub(crate) fn set_all(packages: &mut Packages, places: Vec<usize>, mut members: BTreeSet<Member>)
    requires there { are_at packages.old.pkgs places.items (map pkg_of members.keys) ≡ true }
    requires count { length packages.old.bodies ≡ length packages.old.pkgs }
    ensures pkgs { packages.new.pkgs ≡ set_all packages.old.pkgs places.items (map pkg_of members.keys) }
    ensures bodies { packages.new.bodies ≡ set_all packages.old.bodies places.items (map body_of members.keys) }
{
    for place in places {
        let Some(member) = members.pop_first() else {
            return;
        };
        set(packages, place, member);
    }
}

#[tactic(auto, using(crate::proofs::Exchanges::named_at, crate::proofs::Exchanges::within_at))]
fn set(packages: &mut Packages, place: usize, member: Member)
    requires there { is_at packages.old.pkgs place member.pkg ≡ true }
    requires count { length packages.old.bodies ≡ length packages.old.pkgs }
    ensures pkgs { packages.new.pkgs ≡ slice_set packages.old.pkgs place member.pkg }
    ensures bodies { packages.new.bodies ≡ slice_set packages.old.bodies place member.body }
    ensures count { length packages.new.bodies ≡ length packages.new.pkgs }
    ensures others { (places : List ℕ) (ps : List Pkg) → are_at packages.old.pkgs (place ∷ places) (member.pkg ∷ ps) ≡ true → are_at packages.new.pkgs places ps ≡ true }
{
    let Member { pkg, body } = member;
    packages.pkgs.set(place, pkg);
    packages.bodies.set(place, body);
}
