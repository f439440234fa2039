//! Which reports of before are stale.
//!
//! A report costs a look-up of its package among the edited entries; one that rests on the atoms of a class also one of its package by hash.
ghost use Rattle.std.specs.Prelude.{◌≡◌, map};
ghost use Rattle.std.specs.List.{list_any};
ghost use Rattle.std.specs.Ordering.{eq_by_cmp};
ghost use Rattle.gv_report.specs.Order.{subject_cmp};
ghost use Rattle.gv_report.specs.declared.report.Subject.TheVariants.{Package};
ghost use Rattle.gv_renew.specs.Renewal.{rests_on_atoms};
ghost use Rattle.gv_plain.specs.PlainReports.{subject_of};
ghost use Rattle.gv_renew.specs.Touched.{is_stale_among, is_stale_at, is_stale_by, is_stale_in, is_stale_place, pkg_at};

use crate::touched::Touched;
use gv_base::Text;
use gv_facts::{Class, Pkg, Pkgs};
use gv_reload::EntryEdits;
use gv_report::{Keyword, Report, Subject};
use gv_version::{Version, compare};
use std::cmp::Ordering;

fn rests_on_atoms(keyword: Keyword) -> bool
    ensures { result ≡ rests_on_atoms keyword }
{
    match keyword {
        Keyword::NonexistentDeps
        | Keyword::NonsolvableDepsInStable
        | Keyword::NonsolvableDepsInDev
        | Keyword::NonsolvableDepsInExp => true,
        _ => false,
    }
}

// Whether the package is the one of these.
fn is_of(pkg: &Pkg, category: &Text, name: &Text, version: &Version, pf: &Text) -> bool
    ensures { result ≡ eq_by_cmp subject_cmp (subject_of pkg.now) (Package category.now name.now version.now pf.now) }
{
    let order = pkg.category.cmp(category).then_with(|| {
        pkg.name.cmp(name).then_with(|| compare(&pkg.version, version).then_with(|| pkg.pf.cmp(pf)))
    });
    matches!(order, Ordering::Equal)
}

fn is_stale_at(
    touched: &Touched<'_>,
    category: &Text,
    name: &Text,
    version: &Version,
    pf: &Text,
    class: Class,
) -> bool
    ensures { result ≡ is_stale_at (Package category.now name.now version.now pf.now) class touched.now }
{
    is_of(touched.pkg, category, name, version, pf) && touched.mentions(class)
}

fn is_stale_place(
    touched: &[Touched<'_>],
    place: u32,
    category: &Text,
    name: &Text,
    version: &Version,
    pf: &Text,
    class: Class,
) -> bool
    ensures { result ≡ is_stale_place (Package category.now name.now version.now pf.now) class touched.now place }
{
    match touched.get(place as usize) {
        Some(touched) => is_stale_at(touched, category, name, version, pf, class),
        None => false,
    }
}

fn some_stale(
    touched: &[Touched<'_>],
    places: &[u32],
    category: &Text,
    name: &Text,
    version: &Version,
    pf: &Text,
    class: Class,
) -> bool
    ensures { result ≡ list_any (is_stale_place (Package category.now name.now version.now pf.now) class touched.now) places.now }
{
    for place in places {
        if is_stale_place(touched, *place, category, name, version, pf, class) {
            return true;
        }
    }
    false
}

// Whether the package of this subject has such an atom in the class. Only packages of its name are looked at.
#[tactic(auto, using(crate::proofs::StaleLemmas::place_stale, crate::proofs::StaleLemmas::stale_among))]
fn is_stale_among(pkgs: &Pkgs, touched: &[Touched<'_>], subject: &Subject, class: Class) -> bool
    requires { pkgs.now ≡ map pkg_at touched.now }
    ensures { result ≡ is_stale_among touched.now subject.now class }
{
    match subject {
        Subject::Place { .. } => false,
        Subject::Package {
            category,
            name,
            version,
            pf,
        } => {
            let places = pkgs.places_of(category.bytes(), name.bytes());
            some_stale(touched, places, category, name, version, pf, class)
        }
    }
}

fn is_stale_in(pkgs: &Pkgs, touched: &[Touched<'_>], report: &Report) -> bool
    requires { pkgs.now ≡ map pkg_at touched.now }
    ensures { result ≡ is_stale_in touched.now report.now }
{
    match report.class {
        None => false,
        Some(class) => is_stale_among(pkgs, touched, &report.subject, class),
    }
}

/// Whether the report rests on edited entries.
pub(crate) fn is_stale(
    pkgs: &Pkgs,
    edits: &EntryEdits,
    touched: &[Touched<'_>],
    report: &Report,
) -> bool
    requires { pkgs.now ≡ map pkg_at touched.now }
    ensures { result ≡ is_stale_by edits.now touched.now report.now }
{
    edits.is_of(&report.subject)
        || (rests_on_atoms(report.keyword) && is_stale_in(pkgs, touched, report))
}
