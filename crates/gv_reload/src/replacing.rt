//! A repository after edits of entries, without reading the others anew. Costs two look-ups of `entry_edits` for each old package and
//! one for each note, three for each new package, and O(log k) comparisons for each of k edited ones. Where each edited package of one
//! has the place in the order of one of the other, only these are set. Else all packages and their bodies are moved, and that costs a
//! look-up and a comparison for each package more.
ghost use Rattle.std.specs.Prelude.{◌≡◌, ◌∷◌, [], ◌++◌, cond, filter, fold, length, map, true, List, IfOk, MatchOption, OnOk};
ghost use Rattle.std.specs.BTreeSet.{insert_key};
ghost use Rattle.std.specs.declared.cmp.Ordering.TheVariants.{Less};
ghost use Rattle.gv_load.specs.Repository.{AreClassless, AreInPackageOrder, body_of, in_package_order, member_cmp, pkg_of};
ghost use Rattle.gv_reload.specs.EntryEdits.{is_edited_pkg, is_other, together};
ghost use Rattle.gv_reload.specs.Exchanged.{are_exchangeable, edited_places};
ghost use Rattle.gv_reload.specs.Interleaved.{ahead, interleaved, is_next, left};
ghost use Rattle.gv_reload.specs.Replacing.{IsChange, are_named, edited_notes, has_edited_name, is_of_edited, replaced};
ghost use Rattle.gv_load.specs.declared.members.Member.{Member};

use crate::entry_edits::EntryEdits;
use crate::exchanging::{are_exchangeable, edited_places, set_all};
use gv_base::NoMemory;
use gv_facts::Pkg;
use gv_load::{Member, Packages, Repo};
use gv_report::{Report, Reports};
use std::alloc::Global;
use std::collections::BTreeSet;

/// A repository after edits of entries.
#[derive(Drop)]
pub enum Changed {
    /// The packages whose entries aren't edited as they stand in the old one, the others, and what is noted of these alone, from the
    /// new one.
    Part { repo: Repo },
    /// The new one, as it was given, where an edited package of either has a name that no edited entry has, as no package of a
    /// loaded repository does.
    Other { repo: Repo },
}

/// Puts a repository after edits of entries together of the old one and a new one.
#[tactic(auto, using(crate::proofs::Replaces::changed_part))]
pub fn with_entries(
    alloc: Global,
    old: Repo,
    new: Repo,
    edits: &EntryEdits,
) -> Result<Changed, NoMemory>
    requires old_order { AreInPackageOrder old.pkgs }
    requires new_order { AreInPackageOrder new.pkgs }
    requires new_bodies { length new.bodies ≡ length new.pkgs }
    requires new_classless { AreClassless new.notes }
    ensures { IfOk result (IsChange edits.now old new) }
{
    if !are_named(old.pkgs.items(), edits) {
        return Ok(Changed::Other { repo: new });
    }
    if !are_named(new.pkgs.items(), edits) {
        return Ok(Changed::Other { repo: new });
    }
    let repo = replaced(alloc, old, new, edits)?;
    Ok(Changed::Part { repo })
}

pub(crate) fn replaced(
    alloc: Global,
    old: Repo,
    new: Repo,
    edits: &EntryEdits,
) -> Result<Repo, NoMemory>
    requires old_order { AreInPackageOrder old.pkgs }
    requires new_order { AreInPackageOrder new.pkgs }
    ensures { IfOk result (λ repo. repo ≡ replaced edits.now old new) }
{
    let Repo {
        pkgs,
        bodies,
        profiles,
        lines,
        ..
    } = old;
    let standing = Packages { pkgs, bodies };
    let Repo {
        pkgs,
        bodies,
        notes,
        ..
    } = new;
    let read = Packages { pkgs, bodies };
    let packages = packages_with(alloc, standing, read, edits)?;
    let notes = edited_notes(alloc, notes.items(), edits)?;
    Ok(Repo {
        pkgs: packages.pkgs,
        bodies: packages.bodies,
        profiles,
        lines,
        notes,
    })
}

// Those of the old ones that aren't edited, and those of the new ones that are.
fn packages_with(
    alloc: Global,
    old: Packages,
    new: Packages,
    edits: &EntryEdits,
) -> Result<Packages, NoMemory>
    requires old_order { AreInPackageOrder old.pkgs }
    requires new_order { AreInPackageOrder new.pkgs }
    ensures pkgs { IfOk result (λ packages. packages.pkgs ≡ map pkg_of (in_package_order (filter (is_other edits.now) (together old.pkgs old.bodies) ++ filter (is_of_edited edits.now) (together new.pkgs new.bodies)))) }
    ensures bodies { IfOk result (λ packages. packages.bodies ≡ map body_of (in_package_order (filter (is_other edits.now) (together old.pkgs old.bodies) ++ filter (is_of_edited edits.now) (together new.pkgs new.bodies)))) }
{
    let places = edited_places(alloc, old.pkgs.items(), edits)?;
    if are_exchangeable(&old, &new, &places, edits) {
        let packages = exchanged(alloc, old, new, places, edits)?;
        return Ok(packages);
    }
    let packages = moved(alloc, old, new, edits)?;
    Ok(packages)
}

// The same, where each edited one takes the place of one.
fn exchanged(
    alloc: Global,
    old: Packages,
    new: Packages,
    places: Vec<usize>,
    edits: &EntryEdits,
) -> Result<Packages, NoMemory>
    requires old_order { AreInPackageOrder old.pkgs }
    requires new_order { AreInPackageOrder new.pkgs }
    requires places { places.items ≡ edited_places edits.now old.pkgs }
    requires exchangeable { are_exchangeable edits.now old new ≡ true }
    ensures pkgs { IfOk result (λ packages. packages.pkgs ≡ map pkg_of (in_package_order (filter (is_other edits.now) (together old.pkgs old.bodies) ++ filter (is_of_edited edits.now) (together new.pkgs new.bodies)))) }
    ensures bodies { IfOk result (λ packages. packages.bodies ≡ map body_of (in_package_order (filter (is_other edits.now) (together old.pkgs old.bodies) ++ filter (is_of_edited edits.now) (together new.pkgs new.bodies)))) }
{
    let edited = edited_members(alloc, new, edits)?;
    let mut packages = old;
    set_all(&mut packages, places, edited);
    Ok(packages)
}

// The same, where all are moved.
fn moved(
    alloc: Global,
    old: Packages,
    new: Packages,
    edits: &EntryEdits,
) -> Result<Packages, NoMemory>
    requires old_order { AreInPackageOrder old.pkgs }
    requires new_order { AreInPackageOrder new.pkgs }
    ensures pkgs { IfOk result (λ packages. packages.pkgs ≡ map pkg_of (in_package_order (filter (is_other edits.now) (together old.pkgs old.bodies) ++ filter (is_of_edited edits.now) (together new.pkgs new.bodies)))) }
    ensures bodies { IfOk result (λ packages. packages.bodies ≡ map body_of (in_package_order (filter (is_other edits.now) (together old.pkgs old.bodies) ++ filter (is_of_edited edits.now) (together new.pkgs new.bodies)))) }
{
    let mut edited = edited_members(alloc, new, edits)?;
    let mut packages = Packages::new(alloc);
    add_standing(&mut packages, &mut edited, old, edits)?;
    packages.add_all(edited)?;
    Ok(packages)
}

fn edited_members(
    alloc: Global,
    packages: Packages,
    edits: &EntryEdits,
) -> Result<BTreeSet<Member>, NoMemory>
    ensures { IfOk result (λ members. members.keys ≡ in_package_order (filter (is_of_edited edits.now) (together packages.pkgs packages.bodies))) }
{
    let mut members = BTreeSet::new(alloc);
    add_edited(&mut members, packages, edits)?;
    Ok(members)
}

#[tactic(auto, using(crate::proofs::Replaces::added))]
fn add_edited(
    members: &mut BTreeSet<Member>,
    packages: Packages,
    edits: &EntryEdits,
) -> Result<(), NoMemory>
    ensures { OnOk result (members.new.keys ≡ fold (insert_key member_cmp) members.old.keys (filter (is_of_edited edits.now) (together packages.pkgs packages.bodies))) }
{
    let mut bodies = packages.bodies.into_items().into_iter();
    for pkg in packages.pkgs.into_items() {
        let Some(body) = bodies.next() else {
            return Ok(());
        };
        add_if_edited(members, Member { pkg, body }, edits)?;
    }
    Ok(())
}

fn add_if_edited(
    members: &mut BTreeSet<Member>,
    member: Member,
    edits: &EntryEdits,
) -> Result<(), NoMemory>
    ensures { OnOk result (members.new.keys ≡ cond (is_edited_pkg edits.now member.pkg) (insert_key member_cmp members.old.keys member) members.old.keys) }
{
    if edits.is_edited(&member.pkg.category, &member.pkg.pf) {
        members.insert(member)?;
    }
    Ok(())
}

// Adds the old ones that aren't edited, and the edited ones that come before one of these, each where it belongs.
fn add_standing(
    packages: &mut Packages,
    edited: &mut BTreeSet<Member>,
    old: Packages,
    edits: &EntryEdits,
) -> Result<(), NoMemory>
    ensures pkgs { OnOk result (packages.new.pkgs ++ map pkg_of edited.new.keys ≡ packages.old.pkgs ++ map pkg_of (interleaved member_cmp (filter (is_other edits.now) (together old.pkgs old.bodies)) edited.old.keys)) }
    ensures bodies { OnOk result (packages.new.bodies ++ map body_of edited.new.keys ≡ packages.old.bodies ++ map body_of (interleaved member_cmp (filter (is_other edits.now) (together old.pkgs old.bodies)) edited.old.keys)) }
{
    let mut bodies = old.bodies.into_items().into_iter();
    for pkg in old.pkgs.into_items() {
        let Some(body) = bodies.next() else {
            return Ok(());
        };
        add_if_other(packages, edited, Member { pkg, body }, edits)?;
    }
    Ok(())
}

fn add_if_other(
    packages: &mut Packages,
    edited: &mut BTreeSet<Member>,
    member: Member,
    edits: &EntryEdits,
) -> Result<(), NoMemory>
    ensures pkgs { OnOk result ((rest : List Member) → packages.new.pkgs ++ map pkg_of (interleaved member_cmp rest edited.new.keys) ≡ packages.old.pkgs ++ map pkg_of (interleaved member_cmp (cond (is_other edits.now member) (member ∷ rest) rest) edited.old.keys)) }
    ensures bodies { OnOk result ((rest : List Member) → packages.new.bodies ++ map body_of (interleaved member_cmp rest edited.new.keys) ≡ packages.old.bodies ++ map body_of (interleaved member_cmp (cond (is_other edits.now member) (member ∷ rest) rest) edited.old.keys)) }
{
    if !edits.is_edited(&member.pkg.category, &member.pkg.pf) {
        add_other(packages, edited, member)?;
    }
    Ok(())
}

fn add_other(
    packages: &mut Packages,
    edited: &mut BTreeSet<Member>,
    member: Member,
) -> Result<(), NoMemory>
    ensures pkgs { OnOk result ((rest : List Member) → packages.new.pkgs ++ map pkg_of (interleaved member_cmp rest edited.new.keys) ≡ packages.old.pkgs ++ map pkg_of (interleaved member_cmp (member ∷ rest) edited.old.keys)) }
    ensures bodies { OnOk result ((rest : List Member) → packages.new.bodies ++ map body_of (interleaved member_cmp rest edited.new.keys) ≡ packages.old.bodies ++ map body_of (interleaved member_cmp (member ∷ rest) edited.old.keys)) }
{
    add_ahead(packages, edited, &member)?;
    packages.add(member)?;
    Ok(())
}

// Adds the edited ones that come before a member.
fn add_ahead(
    packages: &mut Packages,
    edited: &mut BTreeSet<Member>,
    member: &Member,
) -> Result<(), NoMemory>
    ensures pkgs { OnOk result (packages.new.pkgs ≡ packages.old.pkgs ++ map pkg_of (ahead member_cmp member.now edited.old.keys)) }
    ensures bodies { OnOk result (packages.new.bodies ≡ packages.old.bodies ++ map body_of (ahead member_cmp member.now edited.old.keys)) }
    ensures others { OnOk result (edited.new.keys ≡ left member_cmp member.now edited.old.keys) }
{
    while let Some(next) = next_before(edited, member) {
        packages.add(next)?;
    }
    Ok(())
}

fn next_before(edited: &mut BTreeSet<Member>, member: &Member) -> Option<Member>
    ensures { MatchOption result ((edited.new.keys ≡ edited.old.keys) × (ahead member_cmp member.now edited.old.keys ≡ []) × (left member_cmp member.now edited.old.keys ≡ edited.old.keys)) (λ next. (edited.old.keys ≡ next ∷ edited.new.keys) × (member_cmp next member.now ≡ Less)) }
{
    if is_next(edited, member) {
        edited.pop_first()
    } else {
        None
    }
}

fn is_next(edited: &BTreeSet<Member>, member: &Member) -> bool
    ensures { result ≡ is_next member_cmp member.now edited.now.keys }
{
    match edited.first() {
        Some(first) => first.is_before(member),
        None => false,
    }
}

pub(crate) fn are_named(pkgs: &[Pkg], edits: &EntryEdits) -> bool
    ensures { result ≡ are_named edits.now pkgs.now }
{
    for pkg in pkgs {
        if !has_edited_name(pkg, edits) {
            return false;
        }
    }
    true
}

fn has_edited_name(pkg: &Pkg, edits: &EntryEdits) -> bool
    ensures { result ≡ has_edited_name edits.now pkg.now }
{
    if edits.is_edited(&pkg.category, &pkg.pf) {
        edits.is_named(&pkg.category, &pkg.name)
    } else {
        true
    }
}

fn edited_notes(alloc: Global, notes: &[Report], edits: &EntryEdits) -> Result<Reports, NoMemory>
    ensures { IfOk result (λ edited. edited ≡ edited_notes edits.now notes.now) }
{
    let mut edited = Reports::new(alloc);
    for note in notes {
        if edits.is_of(&note.subject) {
            edited.add(note.copy(alloc)?)?;
        }
    }
    Ok(edited)
}
