//! What judging a repository comes to, and how many of its queries records answer.
ghost use Rattle.gv_checks.specs.Named.{HasNamed};

use crate::checks::add_name;
use crate::reports::printed;
use crate::written::Telling;
use gv_base::{Ledger, NoMemory, Steps};
use gv_cert::{Known, write_known};
use gv_checks::{
    Found1, JudgeFault, Judged, QueryName, RecallFault, ask_one, judge, known_one, queries, recall,
};
use gv_load::Repo;
use gv_lower::LowerFault;
use gv_report::{Options, Reports};
use gv_solver::FlagSets;
use std::alloc::Global;

/// The number of queries and what is known of them, or why a repository is not judged.
pub(crate) fn judged<L: Ledger>(
    alloc: Global,
    repo: &Repo,
    options: &Options,
    steps: &mut Steps<L>,
    told: &mut Telling,
) {
    match judge(alloc, repo, options, &Known::new(alloc), steps) {
        Ok(found) => of_copy(alloc, repo, options, found, steps, told),
        Err(fault) => refused(alloc, &fault, told),
    }
}

fn of_copy<L: Ledger>(
    alloc: Global,
    repo: &Repo,
    options: &Options,
    found: Judged,
    steps: &mut Steps<L>,
    told: &mut Telling,
) {
    match found.copy(alloc) {
        Ok(found) => counts(alloc, repo, options, found, steps, told),
        Err(NoMemory) => told.lack(),
    }
}

/// Why a repository is not judged.
pub(crate) fn refused(alloc: Global, fault: &JudgeFault, told: &mut Telling) {
    match fault {
        JudgeFault::Spent { name, sets } => {
            told.say("spent ");
            add_name(alloc, name, told);
            add_sets(sets, told);
        }
        JudgeFault::Limit { place, number } => {
            told.text(place.copy(alloc));
            told.add(b" ");
            told.number(*number);
        }
        JudgeFault::NoMemory => told.lack(),
    }
}

fn add_sets(sets: &FlagSets, told: &mut Telling) {
    for set in sets.items() {
        told.add(b";");
        add_flags(set.items(), told);
    }
}

fn add_flags(flags: &[u32], told: &mut Telling) {
    for flag in flags {
        told.add(b" ");
        told.number(u64::from(*flag));
    }
}

/// A number and what it is of.
pub(crate) fn add_count(count: u32, what: &str, told: &mut Telling) {
    told.number(u64::from(count));
    told.say(what);
}

// How many queries and records there are, how many queries the records answer alone, with the same answer, how many reports
// a recall of them has, the query that it tells where there are none, or 0, and whether judging over them leaves them.
fn counts<L: Ledger>(
    alloc: Global,
    repo: &Repo,
    options: &Options,
    found: Judged,
    steps: &mut Steps<L>,
    told: &mut Telling,
) {
    add_count(found.queries, " queries, ", told);
    add_count(found.certs.count(), " records, ", told);
    let known = known_count(alloc, repo, options, &found.certs, steps, told);
    add_count(known, " known, ", told);
    recalled(alloc, repo, options, &found, steps, told);
    wanting(alloc, repo, options, steps, told);
    left(alloc, repo, options, &found.certs, steps, told);
}

fn known_count<L: Ledger>(
    alloc: Global,
    repo: &Repo,
    options: &Options,
    certs: &Known,
    steps: &mut Steps<L>,
    told: &mut Telling,
) -> u32 {
    let mut known: u32 = 0;
    let Ok(names) = queries(alloc, repo, options) else {
        told.lack();
        return known;
    };
    for name in names.items() {
        if is_known(alloc, repo, name, options, certs, steps, told) {
            known = known.saturating_add(1);
        }
    }
    known
}

/// How many of the queries the records of a file of the store answer, and how many records it has.
pub(crate) fn answered<L: Ledger>(
    alloc: Global,
    repo: &Repo,
    options: &Options,
    certs: &Known,
    steps: &mut Steps<L>,
    told: &mut Telling,
) {
    let Ok(names) = queries(alloc, repo, options) else {
        return told.lack();
    };
    let mut count: u32 = 0;
    for name in names.items() {
        if is_reused(alloc, repo, name, options, certs, steps) {
            count = count.saturating_add(1);
        }
    }
    add_count(count, " of ", told);
    told.number(names.items().len() as u64);
    told.say(" by ");
    add_count(certs.count(), " records", told);
}

fn is_reused<L: Ledger>(
    alloc: Global,
    repo: &Repo,
    name: &QueryName,
    options: &Options,
    certs: &Known,
    steps: &mut Steps<L>,
) -> bool
    requires { HasNamed options.now repo.now name.now }
{
    match ask_one(alloc, repo, name, options, certs, steps) {
        Ok(found) => found.reused,
        Err(_) => false,
    }
}

// Whether the records answer the query, asked or looked for, and none of no records does.
fn is_known<L: Ledger>(
    alloc: Global,
    repo: &Repo,
    name: &QueryName,
    options: &Options,
    certs: &Known,
    steps: &mut Steps<L>,
    told: &mut Telling,
) -> bool
    requires { HasNamed options.now repo.now name.now }
{
    match ask_one(alloc, repo, name, options, certs, steps) {
        Ok(found) => {
            found.reused
                && is_found_again(alloc, repo, name, options, certs, &found, steps, told)
                && is_unknown(alloc, repo, name, options, steps)
        }
        Err(_) => false,
    }
}

fn is_found_again<L: Ledger>(
    alloc: Global,
    repo: &Repo,
    name: &QueryName,
    options: &Options,
    certs: &Known,
    found: &Found1,
    steps: &mut Steps<L>,
    told: &mut Telling,
) -> bool
    requires { HasNamed options.now repo.now name.now }
{
    match known_one(alloc, repo, name, options, certs, steps) {
        Ok(Some(again)) => again.reused && again.answer == found.answer,
        Ok(None) => false,
        Err(LowerFault::NoMemory) => {
            told.lack();
            false
        }
        Err(_) => false,
    }
}

fn is_unknown<L: Ledger>(
    alloc: Global,
    repo: &Repo,
    name: &QueryName,
    options: &Options,
    steps: &mut Steps<L>,
) -> bool
    requires { HasNamed options.now repo.now name.now }
{
    let none = Known::new(alloc);
    is_nothing(known_one(alloc, repo, name, options, &none, steps))
}

fn is_nothing(found: Result<Option<Found1>, LowerFault>) -> bool {
    matches!(&found, Ok(None))
}

// Whether the records alone give as many queries and the same reports.
fn recalled<L: Ledger>(
    alloc: Global,
    repo: &Repo,
    options: &Options,
    found: &Judged,
    steps: &mut Steps<L>,
    told: &mut Telling,
) {
    let is_same = match recall(alloc, repo, options, &found.certs, steps) {
        Ok(again) => {
            again.queries == found.queries
                && are_same(alloc, options, &again.reports, &found.reports)
        }
        Err(_) => false,
    };
    told.say(if is_same {
        "recalled, "
    } else {
        "not recalled, "
    });
}

fn are_same(alloc: Global, options: &Options, one: &Reports, other: &Reports) -> bool {
    let mut first = Telling::new(alloc);
    printed(alloc, options, one, &mut first);
    let mut second = Telling::new(alloc);
    printed(alloc, options, other, &mut second);
    first.is(&second)
}

// The query that is told where there are no records, or 0.
fn wanting<L: Ledger>(
    alloc: Global,
    repo: &Repo,
    options: &Options,
    steps: &mut Steps<L>,
    told: &mut Telling,
) {
    match recall(alloc, repo, options, &Known::new(alloc), steps) {
        Ok(none) => add_count(none.queries, " wanting, ", told),
        Err(RecallFault::NotBacked { query }) => add_count(query, " wanting, ", told),
        Err(RecallFault::Limit { .. }) => add_count(0, " wanting, ", told),
        Err(RecallFault::NoMemory) => told.lack(),
    }
}

// Whether judging over the records leaves the same ones.
fn left<L: Ledger>(
    alloc: Global,
    repo: &Repo,
    options: &Options,
    certs: &Known,
    steps: &mut Steps<L>,
    told: &mut Telling,
) {
    let is_left = match judge(alloc, repo, options, certs, steps) {
        Ok(again) => are_written_alike(alloc, &again.certs, certs),
        Err(_) => Ok(false),
    };
    match is_left {
        Ok(is_left) => told.say(if is_left { "left" } else { "not left" }),
        Err(NoMemory) => told.lack(),
    }
}

fn are_written_alike(alloc: Global, one: &Known, other: &Known) -> Result<bool, NoMemory> {
    let first = write_known(alloc, one)?;
    let second = write_known(alloc, other)?;
    Ok(first == second)
}
