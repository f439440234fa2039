//! Calls of `gv_checks` over the loaded tree.
ghost use Rattle.std.specs.Prelude.{◌≡◌};
ghost use Rattle.gv_checks.specs.Named.{HasNamed};

use crate::entry::digits;
use crate::given::Given;
use crate::judging::{answered, judged};
use crate::loading::repo_of;
use crate::made::words;
use crate::outside::Outside;
use crate::reports::printed;
use crate::walking::walked;
use crate::written::Telling;
use gv_base::{Ledger, NoMemory, Steps};
use gv_cert::{Known, read_known};
use gv_checks::{
    Found1, JudgeFault, Judged, QueryName, QueryNames, ask_one, judge, plain, plain_one, queries,
};
use gv_facts::{Level, class_text};
use gv_load::Repo;
use gv_report::{Options, Reports};
use gv_words::default_options;
use std::alloc::Global;
use std::marker::Brand;
use std::sync::ledger::Blank;

/// Tells the answer to a call of this library, if it is one. The first part is the budget, and the second has the paths of the
/// profiles that are asked about, where not all are.
pub(crate) fn answer(
    alloc: Global,
    call: &str,
    given: &Given,
    outside: &Outside,
    told: &mut Telling,
) -> bool {
    let Some(call) = call_of(call) else {
        return false;
    };
    if let Some(repo) = repo_of(alloc, outside, told) {
        of_repo(alloc, call, given, outside, repo, told);
    }
    true
}

fn of_repo(
    alloc: Global,
    call: Call,
    given: &Given,
    outside: &Outside,
    repo: Repo,
    told: &mut Telling,
) {
    match read_known(alloc, outside.kept_at(given.bytes(0))) {
        Ok(certs) => over::<Brand>(alloc, Blank::new(2), call, given, &repo, certs, told),
        Err(NoMemory) => told.lack(),
    }
}

#[derive(Clone, Copy)]
enum Call {
    Judge,
    Ask,
    Queries,
    Gates,
    Records,
    PlainReports,
    PlainOne,
    Answered,
    Walk,
}

fn call_of(call: &str) -> Option<Call> {
    match call {
        "judge" => Some(Call::Judge),
        "ask" => Some(Call::Ask),
        "queries" => Some(Call::Queries),
        "gates" => Some(Call::Gates),
        "records" => Some(Call::Records),
        "plain-reports" => Some(Call::PlainReports),
        "plain-one" => Some(Call::PlainOne),
        "answered" => Some(Call::Answered),
        "walk" => Some(Call::Walk),
        _ => None,
    }
}

fn over<L: Ledger>(
    alloc: Global,
    blank: Blank,
    call: Call,
    given: &Given,
    repo: &Repo,
    certs: Known,
    told: &mut Telling,
)
    requires name { blank.name ≡ L.name }
    requires parts { blank.parts ≡ L.parts }
    requires two { blank.parts ≡ 2 }
{
    let mut steps = Steps::<L>::open(blank);
    match options_for(alloc, call, given) {
        Ok(options) => by_call(alloc, call, given, repo, &certs, options, &mut steps, told),
        Err(NoMemory) => told.lack(),
    }
}

fn options_for(alloc: Global, call: Call, given: &Given) -> Result<Options, NoMemory> {
    match call {
        Call::Answered => default_options(alloc),
        _ => options(alloc, given),
    }
}

fn by_call<L: Ledger>(
    alloc: Global,
    call: Call,
    given: &Given,
    repo: &Repo,
    certs: &Known,
    options: Options,
    steps: &mut Steps<L>,
    told: &mut Telling,
) {
    match call {
        Call::Judge => judged(alloc, repo, &options, steps, told),
        Call::Ask => asked(alloc, repo, &options, steps, told),
        Call::Gates => gates(alloc, repo, &options, given, steps, told),
        Call::Records => records(alloc, repo, &options, steps, told),
        Call::Answered => answered(alloc, repo, &options, certs, steps, told),
        Call::Walk => walked(alloc, repo, &options, given, steps, told),
        Call::PlainReports => told_plain(alloc, plain(alloc, repo, &options), &options, told),
        Call::PlainOne => one_plain(alloc, repo, given, &options, told),
        Call::Queries => names(alloc, repo, &options, told),
    }
}

fn one_plain(alloc: Global, repo: &Repo, given: &Given, options: &Options, told: &mut Telling) {
    let reports = plain_one(alloc, repo, given.small_number(2), options);
    told_plain(alloc, reports, options, told);
}

fn told_plain(
    alloc: Global,
    reports: Result<Reports, NoMemory>,
    options: &Options,
    told: &mut Telling,
) {
    match reports {
        Ok(reports) => printed(alloc, options, &reports, told),
        Err(NoMemory) => told.lack(),
    }
}

/// The options of the first two parts.
pub(crate) fn options(alloc: Global, given: &Given) -> Result<Options, NoMemory> {
    let Options { keywords, .. } = default_options(alloc)?;
    let paths = given.words(1);
    let profiles = if paths.is_empty() {
        None
    } else {
        Some(words(alloc, paths)?)
    };
    Ok(Options {
        keywords,
        profiles,
        json: false,
        budget: given.number(0).clamp(1, 1_000_000) as u32,
    })
}

// The queries in order, each as its name is told.
fn names(alloc: Global, repo: &Repo, options: &Options, told: &mut Telling) {
    match names_of(alloc, repo, options) {
        Ok(names) => add_names(alloc, names.items(), told),
        Err(NoMemory) => told.lack(),
    }
}

fn names_of(alloc: Global, repo: &Repo, options: &Options) -> Result<QueryNames, NoMemory> {
    queries(alloc, repo, options)?.copy(alloc)
}

fn add_names(alloc: Global, names: &[QueryName], told: &mut Telling) {
    for name in names {
        add_name(alloc, name, told);
        told.say("; ");
    }
}

/// The place of the package, the class, the line of the profile and the level.
pub(crate) fn add_name(alloc: Global, name: &QueryName, told: &mut Telling) {
    match name.copy(alloc) {
        Ok(name) => add_fields(name, told),
        Err(NoMemory) => told.lack(),
    }
}

fn add_fields(name: QueryName, told: &mut Telling) {
    told.number(u64::from(name.package));
    told.add(b" ");
    told.add(class_text(name.class));
    told.add(b" ");
    told.number(u64::from(name.context.line));
    told.say(match name.context.level {
        Level::Stable => " stable",
        Level::Testing => " testing",
    });
}

// The answer to one query, if there is one.
fn found<L: Ledger>(
    alloc: Global,
    repo: &Repo,
    name: &QueryName,
    options: &Options,
    steps: &mut Steps<L>,
    told: &mut Telling,
) -> Option<Found1>
    requires { HasNamed options.now repo.now name.now }
{
    match ask_one(alloc, repo, name, options, &Known::new(alloc), steps) {
        Ok(found) => copied(alloc, found, told),
        Err(JudgeFault::NoMemory) => {
            told.lack();
            None
        }
        Err(_) => None,
    }
}

fn copied(alloc: Global, found: Found1, told: &mut Telling) -> Option<Found1> {
    let copy = found.copy(alloc).ok();
    if copy.is_none() {
        told.lack();
    }
    copy
}

// Of each query its assignment, and whether it is reported.
fn asked<L: Ledger>(
    alloc: Global,
    repo: &Repo,
    options: &Options,
    steps: &mut Steps<L>,
    told: &mut Telling,
) {
    let Ok(names) = queries(alloc, repo, options) else {
        return told.lack();
    };
    for name in names.items() {
        if let Some(found) = found(alloc, repo, name, options, steps, told) {
            add_found(found, told);
        }
        told.say("; ");
    }
}

fn add_found(found: Found1, told: &mut Telling) {
    match &found.witness {
        Some(witness) => told.add(witness.bytes()),
        None => told.say("none"),
    }
    if found.report.is_some() {
        told.say(", reported");
    }
}

// The bytes of the gates of the first query of a package and a class, of the third part and the fourth, in digits.
fn gates<L: Ledger>(
    alloc: Global,
    repo: &Repo,
    options: &Options,
    given: &Given,
    steps: &mut Steps<L>,
    told: &mut Telling,
) {
    let Ok(names) = queries(alloc, repo, options) else {
        return told.lack();
    };
    for name in names.items() {
        if u64::from(name.package) == given.number(2) && class_text(name.class) == given.bytes(3) {
            return gates_of(alloc, repo, name, options, steps, told);
        }
    }
    told.say("no query");
}

fn gates_of<L: Ledger>(
    alloc: Global,
    repo: &Repo,
    name: &QueryName,
    options: &Options,
    steps: &mut Steps<L>,
    told: &mut Telling,
)
    requires { HasNamed options.now repo.now name.now }
{
    match found(alloc, repo, name, options, steps, told) {
        Some(found) => digits(found.query.bytes(), told),
        None => told.say("refused"),
    }
}

// Of each record the first query, from 0, that has its gates.
fn records<L: Ledger>(
    alloc: Global,
    repo: &Repo,
    options: &Options,
    steps: &mut Steps<L>,
    told: &mut Telling,
) {
    match judge(alloc, repo, options, &Known::new(alloc), steps) {
        Ok(judged) => places(alloc, repo, options, judged, steps, told),
        Err(_) => told.say("refused"),
    }
}

fn places<L: Ledger>(
    alloc: Global,
    repo: &Repo,
    options: &Options,
    judged: Judged,
    steps: &mut Steps<L>,
    told: &mut Telling,
) {
    let certs = &judged.certs;
    for number in 0..certs.count() {
        let place = first_place(alloc, repo, options, certs.query(number), steps, told);
        told.number(u64::from(place));
        told.add(b" ");
    }
}

fn first_place<L: Ledger>(
    alloc: Global,
    repo: &Repo,
    options: &Options,
    query: &[u8],
    steps: &mut Steps<L>,
    told: &mut Telling,
) -> u32 {
    let mut place: u32 = 0;
    let Ok(names) = queries(alloc, repo, options) else {
        told.lack();
        return place;
    };
    for name in names.items() {
        if has_gates(alloc, repo, name, options, query, steps, told) {
            return place;
        }
        place = place.saturating_add(1);
    }
    place
}

fn has_gates<L: Ledger>(
    alloc: Global,
    repo: &Repo,
    name: &QueryName,
    options: &Options,
    query: &[u8],
    steps: &mut Steps<L>,
    told: &mut Telling,
) -> bool
    requires { HasNamed options.now repo.now name.now }
{
    match found(alloc, repo, name, options, steps, told) {
        Some(found) => found.query.bytes() == query,
        None => false,
    }
}
