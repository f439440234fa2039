//! Reports in order of which stale ones are exchanged for those told anew.
//!
//! Most of what is told anew is what was told before. Only between the first and the last place where the two differ, the window,
//! reports are taken out, and put in again as `merged` does. Those in front of it stay, and those behind it are moved twice at most.
//! Besides, the stale ones and the fresh ones are compared pair by pair, and O(log n) comparisons find the window among n reports.
ghost use Rattle.std.specs.Prelude.{◌≡◌, ◌≢◌, ◌≤◌, ◌+◌, ◌-◌, ◌++◌, ◌∷◌, ℕ, List, [], Bool, not, drop, filter, length, map, take, IfOk, MatchOption, OnOk};
ghost use Rattle.gv_facts.specs.Places.{places_of};
ghost use Rattle.gv_report.specs.Distinct.{is_before, is_same, ordered};
ghost use Rattle.gv_renew.specs.Exchanging.{at_places, between, from_place, is_ahead, is_behind_last, is_no_later, without, IsWindow};
ghost use Rattle.gv_renew.specs.Renewing.{FollowsOrder};
ghost use Rattle.gv_report.specs.Sorting.{AreAscending};
ghost use Rattle.gv_report.specs.declared.report.Report.{Report};

use crate::merging::merged;
use gv_base::NoMemory;
use gv_report::{Report, Reports, ordered, ordered_law};
use std::alloc::Global;
use std::cmp::Ordering;

// Between which places the stale and the fresh reports differ: the first of it and the first behind it, among the reports and among the
// fresh ones.
#[derive(Clone, Copy)]
struct Window {
    first: usize,
    end: usize,
    fresh_first: usize,
    fresh_end: usize,
}

/// Reports in order without those at these places, and with others put among them, in order, and equal ones once. Where one is at one
/// of these places, what the order doesn't tell from it is too.
pub(crate) fn exchanged(
    alloc: Global,
    before: Reports,
    stale: Vec<usize>,
    told: Reports,
) -> Result<Reports, NoMemory>
    requires order { ordered before ≡ before }
    requires places { (is_stale : Report → Bool) × (FollowsOrder is_stale × (stale.items ≡ places_of is_stale before)) }
    ensures { (is_stale : Report → Bool) → FollowsOrder is_stale → stale.items ≡ places_of is_stale before
        → IfOk result (λ reports. reports ≡ ordered (filter (λ r. not (is_stale r)) before ++ told)) }
{
    ordered_law();
    let fresh = ordered(alloc, told)?.into_items();
    let items = before.into_items();
    let window = window_at(alloc, &items, &stale, &fresh)?;
    let places = from_place(alloc, window.first, &stale)?;
    put_between(alloc, items, &places, fresh, window)
}

// The window of the reports at these places.
fn window_at(
    alloc: Global,
    before: &[Report],
    places: &[usize],
    fresh: &[Report],
) -> Result<Window, NoMemory>
    requires before { AreAscending is_before before.now }
    requires stale { AreAscending is_before (at_places before.now places.now) }
    requires fresh { AreAscending is_before fresh.now }
    ensures window { IfOk result (IsWindow before.now (at_places before.now places.now) fresh.now) }
    ensures within { IfOk result (λ w. (w.first ≤ w.end) × (w.end ≤ length before.now)) }
    ensures fresh_within { IfOk result (λ w. (w.fresh_first ≤ w.fresh_end) × (w.fresh_end ≤ length fresh.now)) }
{
    let stale = at_places(alloc, before, places)?;
    Ok(window_of(before, &stale, fresh))
}

// The reports at these places.
fn at_places<'a>(
    alloc: Global,
    reports: &'a [Report],
    places: &[usize],
) -> Result<Vec<&'a Report>, NoMemory>
    ensures { IfOk result (λ found. map (λ r. r.now) found.items ≡ at_places reports.now places.now) }
{
    let mut found = Vec::new(alloc);
    for place in places {
        add_at(reports, *place, &mut found)?;
    }
    Ok(found)
}

fn add_at<'a>(
    reports: &'a [Report],
    place: usize,
    found: &mut Vec<&'a Report>,
) -> Result<(), NoMemory>
    ensures { OnOk result (map (λ r. r.now) found.new.items ≡ map (λ r. r.now) found.old.items ++ at_places reports.now (place ∷ [])) }
{
    if let Some(report) = reports.get(place) {
        found.push(report)?;
    }
    Ok(())
}

fn window_of(before: &[Report], stale: &[&Report], fresh: &[Report]) -> Window
    requires before { AreAscending is_before before.now }
    requires stale { AreAscending is_before (map (λ r. r.now) stale.now) }
    requires fresh { AreAscending is_before fresh.now }
    ensures window { IsWindow before.now (map (λ r. r.now) stale.now) fresh.now result }
    ensures within { (result.first ≤ result.end) × (result.end ≤ length before.now) }
    ensures fresh_within { (result.fresh_first ≤ result.fresh_end) × (result.fresh_end ≤ length fresh.now) }
{
    let alike = count_alike(stale, fresh);
    let (stale_rest, fresh_rest) = (&stale[alike..], &fresh[alike..]);
    let first = count_ahead(before, stale_rest, fresh_rest);
    let fresh_first = count_ahead(fresh, stale_rest, fresh_rest);
    let alike = count_alike_last(stale, fresh);
    let (stale_rest, fresh_rest) = (&stale[..stale.len() - alike], &fresh[..fresh.len() - alike]);
    Window {
        first,
        end: first + count_early(&before[first..], stale_rest, fresh_rest),
        fresh_first,
        fresh_end: fresh_first + count_early(&fresh[fresh_first..], stale_rest, fresh_rest),
    }
}

fn is_same(one: &Report, other: &Report) -> bool
    ensures { result ≡ is_same one.now other.now }
{
    matches!(one.cmp(other), Ordering::Equal)
}

// How many in front of both are the same.
fn count_alike(stale: &[&Report], fresh: &[Report]) -> usize
    ensures stale { result ≤ length stale.now }
    ensures fresh { result ≤ length fresh.now }
    ensures alike { take result (map (λ r. r.now) stale.now) ≡ take result fresh.now }
{
    ordered_law();
    let mut count = 0;
    while count < stale.len() && count < fresh.len() && is_same(stale[count], &fresh[count]) {
        count += 1;
    }
    count
}

// How many at the end of both are the same.
fn count_alike_last(stale: &[&Report], fresh: &[Report]) -> usize
    ensures stale { result ≤ length stale.now }
    ensures fresh { result ≤ length fresh.now }
    ensures alike { drop (length stale.now - result) (map (λ r. r.now) stale.now) ≡ drop (length fresh.now - result) fresh.now }
{
    ordered_law();
    let mut count = 0;
    while count < stale.len()
        && count < fresh.len()
        && is_same(
            stale[stale.len() - 1 - count],
            &fresh[fresh.len() - 1 - count],
        )
    {
        count += 1;
    }
    count
}

// How many of the reports, which ascend, come before the first of both.
fn count_ahead(reports: &[Report], stale: &[&Report], fresh: &[Report]) -> usize
    requires { AreAscending is_before reports.now }
    ensures within { result ≤ length reports.now }
    ensures front { take result reports.now ≡ filter (is_ahead (map (λ r. r.now) stale.now) fresh.now) reports.now }
    ensures rest { drop result reports.now ≡ filter (λ r. not (is_ahead (map (λ r. r.now) stale.now) fresh.now r)) reports.now }
{
    reports.partition_point(|report| is_ahead(stale, fresh, report))
}

fn is_ahead(stale: &[&Report], fresh: &[Report], report: &Report) -> bool
    ensures { result ≡ is_ahead (map (λ r. r.now) stale.now) fresh.now report.now }
{
    let stale_first = match stale {
        [first, ..] => report.compare(first).is_lt(),
        [] => true,
    };
    let fresh_first = match fresh {
        [first, ..] => report.compare(first).is_lt(),
        [] => true,
    };
    stale_first && fresh_first
}

// How many of the reports, which ascend, don't come behind the last of both.
fn count_early(reports: &[Report], stale: &[&Report], fresh: &[Report]) -> usize
    requires { AreAscending is_before reports.now }
    ensures within { result ≤ length reports.now }
    ensures front { take result reports.now ≡ filter (is_no_later (map (λ r. r.now) stale.now) fresh.now) reports.now }
    ensures rest { drop result reports.now ≡ filter (λ r. not (is_no_later (map (λ r. r.now) stale.now) fresh.now r)) reports.now }
{
    reports.partition_point(|report| is_no_later(stale, fresh, report))
}

fn is_no_later(stale: &[&Report], fresh: &[Report], report: &Report) -> bool
    ensures { result ≡ is_no_later (map (λ r. r.now) stale.now) fresh.now report.now }
{
    !(is_behind_stale(stale, report) && is_behind_fresh(fresh, report))
}

fn is_behind_stale(stale: &[&Report], report: &Report) -> bool
    ensures { result ≡ is_behind_last (map (λ r. r.now) stale.now) report.now }
{
    match stale {
        [.., last] => last.compare(report).is_lt(),
        [] => true,
    }
}

fn is_behind_fresh(fresh: &[Report], report: &Report) -> bool
    ensures { result ≡ is_behind_last fresh.now report.now }
{
    match fresh {
        [.., last] => last.compare(report).is_lt(),
        [] => true,
    }
}

// Those places that aren't in front of this one.
fn from_place(alloc: Global, first: usize, places: &[usize]) -> Result<Vec<usize>, NoMemory>
    ensures { IfOk result (λ later. later.items ≡ from_place first places.now) }
{
    let mut later = Vec::new(alloc);
    for place in places {
        if first <= *place {
            later.push(*place)?;
        }
    }
    Ok(later)
}

// The reports, of which those of the window without those at these places are put in order with the fresh ones.
fn put_between(
    alloc: Global,
    mut items: Vec<Report>,
    places: &[usize],
    mut fresh: Vec<Report>,
    window: Window,
) -> Result<Reports, NoMemory>
    requires within { (window.first ≤ window.end) × (window.end ≤ length items.items) }
    requires fresh_within { (window.fresh_first ≤ window.fresh_end) × (window.fresh_end ≤ length fresh.items) }
    requires kept { ordered (without window.first places.now (between window.first window.end items.items)) ≡ without window.first places.now (between window.first window.end items.items) }
    ensures { IfOk result (λ reports. reports ≡ take window.first items.items ++ (ordered (without window.first places.now (between window.first window.end items.items) ++ between window.fresh_first window.fresh_end fresh.items) ++ drop window.end items.items)) }
{
    let Window {
        first,
        end,
        fresh_first,
        fresh_end,
    } = window;
    let taken = take_out(alloc, &mut items, first, end)?;
    let kept = without(alloc, first, end, places, taken)?;
    let told = take_out(alloc, &mut fresh, fresh_first, fresh_end)?;
    let middle = merged(alloc, Reports::of(kept), Reports::of(told))?;
    put_in(&mut items, first, middle.into_items())?;
    Ok(Reports::of(items))
}

// Takes those from one place to another out.
fn take_out(
    alloc: Global,
    items: &mut Vec<Report>,
    first: usize,
    end: usize,
) -> Result<Vec<Report>, NoMemory>
    requires order { first ≤ end }
    requires within { end ≤ length items.old.items }
    ensures taken { IfOk result (λ taken. taken.items ≡ between first end items.old.items) }
    ensures left { OnOk result (items.new.items ≡ take first items.old.items ++ drop end items.old.items) }
{
    let mut taken = Vec::with_capacity(alloc, end - first)?;
    for report in items.splice(first..end, Vec::new(alloc))? {
        taken.push(report)?;
    }
    Ok(taken)
}

// Puts others in at a place.
fn put_in(items: &mut Vec<Report>, first: usize, others: Vec<Report>) -> Result<(), NoMemory>
    requires { first ≤ length items.old.items }
    ensures { OnOk result (items.new.items ≡ take first items.old.items ++ (others.items ++ drop first items.old.items)) }
{
    items.splice(first..first, others)?;
    Ok(())
}

// Those of the reports, of which the first has this place, that stand at none of these places, which ascend.
fn without(
    alloc: Global,
    first: usize,
    end: usize,
    places: &[usize],
    reports: Vec<Report>,
) -> Result<Vec<Report>, NoMemory>
    requires { first + length reports.items ≡ end }
    ensures { IfOk result (λ kept. kept.items ≡ without first places.now reports.items) }
{
    let mut kept = Vec::with_capacity(alloc, end - first)?;
    let mut rest = places;
    let mut place = first;
    for report in reports {
        rest = add_unless_there(rest, place, report, &mut kept)?;
        place += 1;
    }
    Ok(kept)
}

// Adds the report, unless its place is the first of these; and gives the places behind it.
fn add_unless_there<'a>(
    places: &'a [usize],
    place: usize,
    report: Report,
    kept: &mut Vec<Report>,
) -> Result<&'a [usize], NoMemory>
    ensures { IfOk result (λ more. (rs : List Report) → kept.new.items ++ without (place + 1) more.now rs ≡ kept.old.items ++ without place places.now (report ∷ rs)) }
{
    match behind(places, place) {
        Some(more) => Ok(more),
        None => {
            kept.push(report)?;
            Ok(places)
        }
    }
}

// The places behind the first, where it is this one.
fn behind(places: &[usize], place: usize) -> Option<&[usize]>
    ensures { MatchOption result ((more : List ℕ) → places.now ≢ place ∷ more) (λ more. places.now ≡ place ∷ more.now) }
{
    match places {
        [first, more @ ..] if *first == place => Some(more),
        _ => None,
    }
}
