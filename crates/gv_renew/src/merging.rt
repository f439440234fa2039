//! Reports in order with others put among them. O(log n) comparisons for each of the others among n reports, which are only
//! moved; where the order doesn't tell one of the others from one of these, all are put in order anew.
ghost use Rattle.std.specs.Prelude.{◌≡◌, [], ◌∷◌, ◌++◌, take, drop, IfOk, OnOk};
ghost use Rattle.gv_report.specs.Distinct.{is_before, ordered};
ghost use Rattle.gv_renew.specs.Merging.{ahead, has_tied, left, some_tied, woven};
ghost use Rattle.gv_report.specs.Sorting.{AreAscending};

use gv_base::NoMemory;
use gv_report::{Report, Reports, ordered};
use std::alloc::Global;
use std::collections::VecDeque;

/// Reports in order with others put among them, in order, and equal ones once.
pub(crate) fn merged(alloc: Global, kept: Reports, fresh: Reports) -> Result<Reports, NoMemory>
    requires { ordered kept ≡ kept }
    ensures { IfOk result (λ merged. merged ≡ ordered (kept ++ fresh)) }
{
    let fresh = ordered(alloc, fresh)?;
    if some_tied(kept.items(), fresh.items()) {
        let mut all = kept;
        all.append(fresh)?;
        return ordered(alloc, all);
    }
    let items = woven(alloc, kept.into_items(), fresh.into_items())?;
    Ok(Reports::of(items))
}

// Those of the reports, which ascend, that don't come before this one.
fn left<'a>(kept: &'a [Report], report: &Report) -> &'a [Report]
    requires { AreAscending is_before kept.now }
    ensures { result.now ≡ left report.now kept.now }
{
    let first = kept.partition_point(|one| one.compare(report).is_lt());
    &kept[first..]
}

// Whether the order doesn't tell one of the reports, which ascend, from this one.
fn has_tied(kept: &[Report], report: &Report) -> bool
    requires { AreAscending is_before kept.now }
    ensures { result ≡ has_tied kept.now report.now }
{
    match left(kept, report) {
        [next, ..] => !report.compare(next).is_lt(),
        [] => false,
    }
}

fn some_tied(kept: &[Report], fresh: &[Report]) -> bool
    requires { AreAscending is_before kept.now }
    ensures { result ≡ some_tied kept.now fresh.now }
{
    for report in fresh {
        if has_tied(kept, report) {
            return true;
        }
    }
    false
}

// How many of the reports, which ascend, come before this one.
fn count_ahead(rest: &VecDeque<Report>, report: &Report) -> usize
    requires { AreAscending is_before rest.now.items }
    ensures ahead { take result rest.now.items ≡ ahead report.now rest.now.items }
    ensures left { drop result rest.now.items ≡ left report.now rest.now.items }
{
    rest.partition_point(|one| one.compare(report).is_lt())
}

// Moves so many from the front to the end of the others.
fn move_front(
    count: usize,
    rest: &mut VecDeque<Report>,
    woven: &mut Vec<Report>,
) -> Result<(), NoMemory>
    ensures woven { OnOk result (woven.new.items ≡ woven.old.items ++ take count rest.old.items) }
    ensures rest { OnOk result (rest.new.items ≡ drop count rest.old.items) }
{
    for _ in 0..count {
        if let Some(one) = rest.pop_front() {
            woven.push(one)?;
        }
    }
    Ok(())
}

// Moves those that come before the report to the end of the others, and then the report.
fn put(report: Report, rest: &mut VecDeque<Report>, woven: &mut Vec<Report>) -> Result<(), NoMemory>
    requires { AreAscending is_before rest.old.items }
    ensures woven { OnOk result (woven.new.items ≡ (woven.old.items ++ ahead report rest.old.items) ++ report ∷ []) }
    ensures rest { OnOk result (rest.new.items ≡ left report rest.old.items) }
{
    let count = count_ahead(rest, &report);
    move_front(count, rest, woven)?;
    woven.push(report)?;
    Ok(())
}

// Each of the others behind those of the first that come before it.
fn woven(alloc: Global, kept: Vec<Report>, fresh: Vec<Report>) -> Result<Vec<Report>, NoMemory>
    requires { AreAscending is_before kept.items }
    ensures { IfOk result (λ all. all.items ≡ woven kept.items fresh.items) }
{
    let mut all = Vec::with_capacity(alloc, kept.len() + fresh.len())?;
    let mut rest = VecDeque::from_vec(kept);
    for report in fresh {
        put(report, &mut rest, &mut all)?;
    }
    move_front(rest.len(), &mut rest, &mut all)?;
    Ok(all)
}
