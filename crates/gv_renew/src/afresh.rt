//! What is told anew of packages without a query.
//!
//! A package on which nothing rests costs O(1). An edited one costs what `plain` costs for it; another one the classes in which an
//! atom has the name of an edited entry.
ghost use Rattle.std.specs.Prelude.{◌≡◌, ◌++◌, flat_map, OnOk};
ghost use Rattle.std.specs.List.{AllByRecursion};
ghost use Rattle.gv_renew.specs.Touched.{IsIn, anew_at, anew_of};

use crate::touched::Touched;
use gv_base::NoMemory;
use gv_checks::{Walk, class_order};
use gv_facts::Class;
use gv_report::Reports;
use std::alloc::Global;

/// Adds what is told anew of these packages.
pub(crate) fn add_anew(
    alloc: Global,
    walk: &Walk<'_>,
    touched: &[Touched<'_>],
    reports: &mut Reports,
) -> Result<(), NoMemory>
    requires touched { AllByRecursion (IsIn walk.now.repo.pkgs walk.now.repo.bodies) touched.now }
    ensures { OnOk result (reports.new ≡ reports.old ++ flat_map (anew_at walk.now.options walk.now.repo) touched.now) }
{
    for one in touched {
        add_pkg_anew(alloc, walk, one, reports)?;
    }
    Ok(())
}

#[tactic(auto, using(crate::proofs::AnewLemmas::anew_edited, crate::proofs::AnewLemmas::anew_other))]
fn add_pkg_anew(
    alloc: Global,
    walk: &Walk<'_>,
    one: &Touched<'_>,
    reports: &mut Reports,
) -> Result<(), NoMemory>
    requires numbered { IsIn walk.now.repo.pkgs walk.now.repo.bodies one.now }
    ensures { OnOk result (reports.new ≡ reports.old ++ anew_at walk.now.options walk.now.repo one.now) }
{
    if !one.touches() {
        return Ok(());
    }
    if one.edited {
        return walk.tell(alloc, one.number, reports);
    }
    add_classes_anew(alloc, walk, one, &class_order(), reports)
}

// Adds which atoms match no package, of the classes with one of the name of an edited entry.
fn add_classes_anew(
    alloc: Global,
    walk: &Walk<'_>,
    one: &Touched<'_>,
    classes: &[Class],
    reports: &mut Reports,
) -> Result<(), NoMemory>
    ensures { OnOk result (reports.new ≡ reports.old ++ flat_map (anew_of walk.now.options walk.now.repo one.now) classes.now) }
{
    for class in classes {
        if one.mentions(*class) {
            walk.tell_of_class(alloc, one.number, *class, reports)?;
        }
    }
    Ok(())
}
