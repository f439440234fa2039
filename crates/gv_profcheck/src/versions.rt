//! Versions that a greater one with their keywords makes needless.
//!
//! A package costs a look-up by hash, and a look at each version of its category and name in package order up to the first
//! that makes it needless: O(1) where it isn't greater or of another slot, else O(the keywords of both).
ghost use Rattle.std.specs.Prelude.{◌≡◌, ◌++◌, filter_map, option_to_list, slice_get, IfOk, OnOk};
ghost use Rattle.std.specs.List.{find, list_any};
ghost use Rattle.std.specs.Option.{option_copied};
ghost use Rattle.std.specs.Ordering.{is_lt};
ghost use Rattle.gv_version.specs.Order.{compare};
ghost use Rattle.gv_profcheck.specs.PrivateWords.{better_at};
ghost use Rattle.gv_profcheck.specs.Redundant.{betters, has_offer, have_offers, is_offer, is_offered, makes_needless, redundant, redundant_by, redundant_in};

use gv_base::{NoMemory, Texts};
use gv_facts::{Pkg, Pkgs};
use gv_load::Repo;
use gv_report::{Keyword, Report, Reports, Subject};
use gv_version::compare;
use std::alloc::Global;
use std::cmp::Ordering;

/// The versions that aren't live and have a keyword, `arch` or `~arch`, where a greater version of the same category, name and
/// slot that isn't live has each `arch` of theirs, and each `~arch` as it is or as `arch`. The first such version in package
/// order is told.
pub fn redundant(alloc: Global, repo: &Repo) -> Result<Reports, NoMemory>
    ensures { IfOk result (λ reports. reports ≡ redundant repo.now.pkgs) }
{
    redundant_among(alloc, &repo.pkgs, repo.pkgs.items())
}

fn redundant_among(alloc: Global, all: &Pkgs, pkgs: &[Pkg]) -> Result<Reports, NoMemory>
    ensures { IfOk result (λ reports. reports ≡ filter_map (redundant_in all.now) pkgs.now) }
{
    let mut reports = Reports::new(alloc);
    for pkg in pkgs {
        add_redundant(alloc, all, pkg, &mut reports)?;
    }
    Ok(reports)
}

fn is_offer(keyword: &[u8]) -> bool
    ensures { result ≡ is_offer keyword.now }
{
    match keyword {
        [b'-', ..] => false,
        _ => true,
    }
}

fn has_some_offer(keywords: &Texts) -> bool
    ensures { result ≡ list_any is_offer keywords.now }
{
    for keyword in keywords.items() {
        if is_offer(keyword.bytes()) {
            return true;
        }
    }
    false
}

fn is_offered(pkg: &Pkg) -> bool
    ensures { result ≡ is_offered pkg.now }
{
    !pkg.live && has_some_offer(&pkg.keywords)
}

fn has_offer(keywords: &Texts, keyword: &[u8]) -> bool
    ensures { result ≡ has_offer keywords.now keyword.now }
{
    match keyword {
        [b'-', ..] => true,
        [b'~', arch @ ..] => keywords.has(arch) || keywords.has(keyword),
        _ => keywords.has(keyword),
    }
}

fn have_offers(keywords: &Texts, of: &Texts) -> bool
    ensures { result ≡ have_offers keywords.now of.now }
{
    for keyword in of.items() {
        if !has_offer(keywords, keyword.bytes()) {
            return false;
        }
    }
    true
}

fn is_less(pkg: &Pkg, other: &Pkg) -> bool
    ensures { result ≡ is_lt (compare pkg.now.version other.now.version) }
{
    matches!(compare(&pkg.version, &other.version), Ordering::Less)
}

fn betters(pkg: &Pkg, other: &Pkg) -> bool
    ensures { result ≡ betters pkg.now other.now }
{
    !other.live
        && (pkg.slot.bytes() == other.slot.bytes()
            && (is_less(pkg, other) && have_offers(&other.keywords, &pkg.keywords)))
}

// Whether the one at the place is better.
fn better_at<'a>(pkgs: &'a [Pkg], place: u32, pkg: &Pkg) -> Option<&'a Pkg>
    ensures { option_copied result ≡ better_at pkg.now pkgs.now place }
{
    match pkgs.get(place as usize) {
        Some(other) => {
            if betters(pkg, other) {
                Some(other)
            } else {
                None
            }
        }
        None => None,
    }
}

fn first_at<'a>(pkgs: &'a [Pkg], places: &[u32], pkg: &Pkg) -> Option<&'a Pkg>
    ensures { option_copied result ≡ find (betters pkg.now) (filter_map (slice_get pkgs.now) places.now) }
{
    for place in places {
        if let Some(other) = better_at(pkgs, *place, pkg) {
            return Some(other);
        }
    }
    None
}

// The first version that makes it needless.
fn first_better<'a>(pkgs: &'a Pkgs, pkg: &Pkg) -> Option<&'a Pkg>
    ensures { option_copied result ≡ find (makes_needless pkg.now) pkgs.now }
{
    first_at(
        pkgs.items(),
        pkgs.places_of(pkg.category.bytes(), pkg.name.bytes()),
        pkg,
    )
}

fn redundant_by(alloc: Global, pkg: &Pkg, other: &Pkg) -> Result<Report, NoMemory>
    ensures { IfOk result (λ report. report ≡ redundant_by pkg.now other.now) }
{
    Ok(Report {
        subject: Subject::Package {
            category: pkg.category.copy(alloc)?,
            name: pkg.name.copy(alloc)?,
            version: pkg.version.copy(alloc)?,
            pf: pkg.pf.copy(alloc)?,
        },
        keyword: Keyword::RedundantVersion,
        class: None,
        context: None,
        witness: None,
        detail: Some(other.pf.copy(alloc)?),
    })
}

fn add_redundant(
    alloc: Global,
    all: &Pkgs,
    pkg: &Pkg,
    reports: &mut Reports,
) -> Result<(), NoMemory>
    ensures { OnOk result (reports.new ≡ reports.old ++ option_to_list (redundant_in all.now pkg.now)) }
{
    if !is_offered(pkg) {
        return Ok(());
    }
    match first_better(all, pkg) {
        Some(other) => reports.add(redundant_by(alloc, pkg, other)?),
        None => Ok(()),
    }
}
