//! The places of the reports of before that are stale.
//!
//! Reports of one category stand together, and in it those of one package. Where a category ends is found by O(log n) comparisons
//! among n reports; so is where a package ends, but only in the category of an edited entry, or of a package of which something
//! rests on edited entries. Such a package costs a look-up among the edited entries, one by hash, and a look at each of its name.
//! Only where its entry is edited, or something of one of its name rests on edited entries, its reports cost what `stale` says.
//! No report is moved.
ghost use Rattle.std.specs.Prelude.{◌≡◌, ◌≤◌, ◌<◌, ◌+◌, ◌^◌, ◌++◌, [], true, false, filter, length, map, IfOk, MatchOption, OnOk};
ghost use Rattle.std.specs.List.{list_any};
ghost use Rattle.std.specs.List.Sorted.{IsPartitionPoint, IsPartitionedBy};
ghost use Rattle.gv_facts.specs.Places.{places_from, places_of};
ghost use Rattle.gv_reload.specs.EntryEdits.{is_about};
ghost use Rattle.gv_report.specs.Distinct.{is_before, ordered};
ghost use Rattle.gv_report.specs.Sorting.{AreAscending};
ghost use Rattle.gv_renew.specs.Lasting.{are_together, category_at, is_near, is_of, may_be_stale, touches_place, IsRun, NoneStale};
ghost use Rattle.gv_renew.specs.Touched.{is_stale_by, pkg_at, touches};

use crate::stale::is_stale;
use crate::touched::Touched;
use gv_base::{NoMemory, Text, Texts};
use gv_facts::Pkgs;
use gv_reload::{EntryEdits, edited_in_law};
use gv_report::{Report, Subject, ordered_law};
use std::alloc::Global;

/// The places of those of the reports of before, which are in order, that are stale, ascending.
pub(crate) fn stale_places(
    alloc: Global,
    pkgs: &Pkgs,
    edits: &EntryEdits,
    touched: &[Touched<'_>],
    before: &[Report],
) -> Result<Vec<usize>, NoMemory>
    requires pkgs { pkgs.now ≡ map pkg_at touched.now }
    requires order { ordered before.now ≡ before.now }
    ensures { IfOk result (λ places. places.items ≡ places_of (is_stale_by edits.now touched.now) before.now) }
{
    ordered_law();
    edited_in_law();
    let categories = touched_categories(alloc, touched)?;
    let mut places = Vec::new(alloc);
    let mut at = 0;
    let mut rest = before;
    while let Some(run) = next_category(edits, &categories, rest) {
        add_category(pkgs, edits, touched, at, &run, &mut places)?;
        at += run.here.len();
        rest = run.behind;
    }
    Ok(places)
}

// The categories of the packages of which something rests on edited entries.
fn touched_categories(alloc: Global, touched: &[Touched<'_>]) -> Result<Texts, NoMemory>
    ensures { IfOk result (λ categories. categories ≡ map category_at (filter touches touched.now)) }
{
    let mut categories = Texts::new(alloc);
    for one in touched {
        if one.touches() {
            categories.add(one.pkg.category.copy(alloc)?)?;
        }
    }
    Ok(categories)
}

// The reports in front that are of one category, or of one package, whether some of these may be stale, and the reports behind.
#[derive(Clone, Copy)]
struct Run<'a> {
    near: bool,
    here: &'a [Report],
    behind: &'a [Report],
}

// Those of the first one's category, or of none.
fn next_category<'a>(edits: &EntryEdits, categories: &Texts, rest: &'a [Report]) -> Option<Run<'a>>
    requires { AreAscending is_before rest.now }
    ensures { MatchOption result (rest.now ≡ []) (IsRun (is_near edits.now categories.now) rest.now) }
{
    let [first, ..] = rest else {
        return None;
    };
    let near = is_near(edits, categories, &first.subject);
    let (here, behind) = rest.split_at(category_len(rest, &first.subject));
    Some(Run { near, here, behind })
}

// How many reports in front are of the category of this subject.
fn category_len(rest: &[Report], subject: &Subject) -> usize
    requires { IsPartitionedBy (is_of subject.now) rest.now }
    ensures fits { result ≤ length rest.now }
    ensures point { IsPartitionPoint (λ r. is_of subject.now r ≡ true) (λ r. is_of subject.now r ≡ false) rest.now result }
{
    rest.partition_point(|report| are_together(subject, &report.subject))
}

// Whether they are of one category, or both of none.
fn are_together(one: &Subject, other: &Subject) -> bool
    ensures { result ≡ are_together one.now other.now }
{
    match (one, other) {
        (Subject::Place { .. }, Subject::Place { .. }) => true,
        (Subject::Package { category: c, .. }, Subject::Package { category: d, .. }) => {
            c.bytes() == d.bytes()
        }
        (Subject::Place { .. }, Subject::Package { .. })
        | (Subject::Package { .. }, Subject::Place { .. }) => false,
    }
}

// Whether reports of the category of this subject may be stale.
fn is_near(edits: &EntryEdits, categories: &Texts, subject: &Subject) -> bool
    ensures { result ≡ is_near edits.now categories.now subject.now }
{
    match subject {
        Subject::Place { .. } => false,
        Subject::Package { category, .. } => {
            edits.are_in(category) || categories.has(category.bytes())
        }
    }
}

// Adds the places of the stale ones of a category, the first of which has this place.
fn add_category(
    pkgs: &Pkgs,
    edits: &EntryEdits,
    touched: &[Touched<'_>],
    at: usize,
    run: &Run<'_>,
    places: &mut Vec<usize>,
) -> Result<(), NoMemory>
    requires pkgs { pkgs.now ≡ map pkg_at touched.now }
    requires order { AreAscending is_before run.now.here.now }
    requires fits { at + length run.now.here.now < 2 ^ 64 }
    requires far { run.now.near ≡ false → NoneStale edits.now touched.now run.now.here.now }
    ensures { OnOk result (places.new.items ≡ places.old.items ++ places_from at (is_stale_by edits.now touched.now) run.now.here.now) }
{
    if !run.near {
        return Ok(());
    }
    add_packages(pkgs, edits, touched, at, run.here, places)
}

// Adds the places of the stale ones of these reports, package by package.
fn add_packages(
    pkgs: &Pkgs,
    edits: &EntryEdits,
    touched: &[Touched<'_>],
    start: usize,
    reports: &[Report],
    places: &mut Vec<usize>,
) -> Result<(), NoMemory>
    requires pkgs { pkgs.now ≡ map pkg_at touched.now }
    requires order { AreAscending is_before reports.now }
    requires fits { start + length reports.now < 2 ^ 64 }
    ensures { OnOk result (places.new.items ≡ places.old.items ++ places_from start (is_stale_by edits.now touched.now) reports.now) }
{
    let mut at = start;
    let mut rest = reports;
    while let Some(run) = next_package(pkgs, edits, touched, rest) {
        add_package(pkgs, edits, touched, at, &run, places)?;
        at += run.here.len();
        rest = run.behind;
    }
    Ok(())
}

// Those of the first one's package.
fn next_package<'a>(
    pkgs: &Pkgs,
    edits: &EntryEdits,
    touched: &[Touched<'_>],
    rest: &'a [Report],
) -> Option<Run<'a>>
    requires pkgs { pkgs.now ≡ map pkg_at touched.now }
    requires order { AreAscending is_before rest.now }
    ensures { MatchOption result (rest.now ≡ []) (IsRun (may_be_stale edits.now touched.now) rest.now) }
{
    let [first, ..] = rest else {
        return None;
    };
    let near = may_be_stale(pkgs, edits, touched, &first.subject);
    let (here, behind) = rest.split_at(package_len(rest, &first.subject));
    Some(Run { near, here, behind })
}

// How many reports in front are of the package of this subject.
fn package_len(rest: &[Report], subject: &Subject) -> usize
    requires { IsPartitionedBy (is_about subject.now) rest.now }
    ensures fits { result ≤ length rest.now }
    ensures point { IsPartitionPoint (λ r. is_about subject.now r ≡ true) (λ r. is_about subject.now r ≡ false) rest.now result }
{
    rest.partition_point(|report| subject.compare(&report.subject).is_eq())
}

// Whether reports of this subject may be stale.
#[tactic(auto, using(crate::proofs::LastingLemmas::touched_of_name))]
fn may_be_stale(pkgs: &Pkgs, edits: &EntryEdits, touched: &[Touched<'_>], subject: &Subject) -> bool
    requires { pkgs.now ≡ map pkg_at touched.now }
    ensures { result ≡ may_be_stale edits.now touched.now subject.now }
{
    match subject {
        Subject::Place { .. } => false,
        Subject::Package { category, name, .. } => {
            edits.is_of(subject)
                || some_touches(touched, pkgs.places_of(category.bytes(), name.bytes()))
        }
    }
}

fn some_touches(touched: &[Touched<'_>], places: &[u32]) -> bool
    ensures { result ≡ list_any (touches_place touched.now) places.now }
{
    for place in places {
        if touches_place(touched, *place) {
            return true;
        }
    }
    false
}

fn touches_place(touched: &[Touched<'_>], place: u32) -> bool
    ensures { result ≡ touches_place touched.now place }
{
    match touched.get(place as usize) {
        Some(one) => one.touches(),
        None => false,
    }
}

// Adds the places of the stale ones of a package, the first of which has this place.
fn add_package(
    pkgs: &Pkgs,
    edits: &EntryEdits,
    touched: &[Touched<'_>],
    at: usize,
    run: &Run<'_>,
    places: &mut Vec<usize>,
) -> Result<(), NoMemory>
    requires pkgs { pkgs.now ≡ map pkg_at touched.now }
    requires fits { at + length run.now.here.now < 2 ^ 64 }
    requires far { run.now.near ≡ false → NoneStale edits.now touched.now run.now.here.now }
    ensures { OnOk result (places.new.items ≡ places.old.items ++ places_from at (is_stale_by edits.now touched.now) run.now.here.now) }
{
    if !run.near {
        return Ok(());
    }
    add_stale(pkgs, edits, touched, at, run.here, places)
}

// Adds the places of the stale ones of these reports, each of which is looked at.
fn add_stale(
    pkgs: &Pkgs,
    edits: &EntryEdits,
    touched: &[Touched<'_>],
    start: usize,
    reports: &[Report],
    places: &mut Vec<usize>,
) -> Result<(), NoMemory>
    requires pkgs { pkgs.now ≡ map pkg_at touched.now }
    requires fits { start + length reports.now < 2 ^ 64 }
    ensures { OnOk result (places.new.items ≡ places.old.items ++ places_from start (is_stale_by edits.now touched.now) reports.now) }
{
    for (i, report) in reports.iter().enumerate() {
        if is_stale(pkgs, edits, touched, report) {
            places.push(start + i)?;
        }
    }
    Ok(())
}
