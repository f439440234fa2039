//! Reports in order, equal ones once. O(n log n) comparisons of n reports, in place where each comes before the next, as is usual;
//! else with the memory of one more list and a set of references.
ghost use Rattle.std.specs.Prelude.{◌≡◌, [], IfOk};
ghost use Rattle.gv_report.specs.Marks.{are_new, are_strict, marked};
ghost use Rattle.gv_report.specs.Distinct.{ordered};

use crate::{Report, Reports};
use gv_base::NoMemory;
use std::alloc::Global;
use std::collections::BTreeSet;

/// The reports in order, and equal ones once. Reports that the order doesn't tell apart stay in the order in which they
/// were given.
pub fn ordered(alloc: Global, reports: Reports) -> Result<Reports, NoMemory>
    ensures { IfOk result (λ in_order. in_order ≡ ordered reports) }
{
    let mut items = reports.into_items();
    items.sort_by(|one, other| one.compare(other))?;
    if are_strict(&items) {
        return Ok(Reports::of(items));
    }
    let marks = are_new(alloc, &items)?;
    let kept = marked(alloc, &marks, items)?;
    Ok(Reports::of(kept))
}

// Whether each comes before the next.
fn are_strict(reports: &[Report]) -> bool
    ensures { result ≡ are_strict reports.now }
{
    let [first, rest @ ..] = reports else {
        return true;
    };
    let mut last = first;
    for report in rest {
        if !last.compare(report).is_lt() {
            return false;
        }
        last = report;
    }
    true
}

// Of each report whether it equals none in front of it.
fn are_new(alloc: Global, reports: &[Report]) -> Result<Vec<bool>, NoMemory>
    ensures { IfOk result (λ marks. marks.items ≡ are_new [] reports.now) }
{
    let mut seen = BTreeSet::new(alloc);
    let mut marks = Vec::new(alloc);
    for report in reports {
        let is_new = seen.insert(report)?;
        marks.push(is_new)?;
    }
    Ok(marks)
}

// Those reports that are marked.
fn marked(alloc: Global, marks: &[bool], reports: Vec<Report>) -> Result<Vec<Report>, NoMemory>
    ensures { IfOk result (λ kept. kept.items ≡ marked marks.now reports.items) }
{
    let mut kept = Vec::new(alloc);
    let mut rest = marks;
    for report in reports {
        let [is_marked, more @ ..] = rest else {
            return Ok(kept);
        };
        rest = more;
        if *is_marked {
            kept.push(report)?;
        }
    }
    Ok(kept)
}
