//! Queries judged one by one.
ghost use Rattle.std.specs.Prelude.{◌≡◌, ◌≤◌, ◌+◌, ◌++◌, ◌∷◌, [], ℕ, List, true, map, filter, option_to_list, IfOk, IfErr, OnOk};
ghost use Rattle.gv_base.specs.Steps.{after};
ghost use Rattle.gv_base.specs.declared.steps.Kind.TheVariants.{Lower};
ghost use Rattle.gv_cert.specs.Known.{KnownRecord};
ghost use Rattle.gv_report.specs.Line.{package_text};
ghost use Rattle.gv_lower.specs.Lowering.{IsQuery};
ghost use Rattle.gv_query.specs.Asking.{MayCount};
ghost use Rattle.gv_visible.specs.Candidates.{test_of};
ghost use Rattle.gv_checks.specs.Certs.{CountsAtMost};
ghost use Rattle.gv_checks.specs.Around.{AreAround};
ghost use Rattle.gv_plain.specs.Context.{IsNumbered, case_of};
ghost use Rattle.gv_checks.specs.Keys.{ArePartsOf};
ghost use Rattle.gv_checks.specs.Limits.{Cause, IsLimit, IsLimitOf, IsWithin};
ghost use Rattle.gv_checks.specs.Shared.{AnswersKept, AreHere, AreReady, IsLoweredAs, IsNoted, IsSharedAt, MayLower, StayNoted};
ghost use Rattle.gv_plain.specs.Seen.{seen};
ghost use Rattle.gv_checks.specs.Progress.{AreSome, IsSomewhere, Judges};
ghost use Rattle.gv_checks.specs.Queries.{class_queries, flags_of, gates_of, has_query, is_asked, items_of, preferred_of, query_name, query_of};

use crate::chosen::Asking;
use crate::laws::gates_law;
use crate::lowering::lower_query;
use crate::reporting::{query_keyword, report_of};
use crate::shared::{Shared, SharedQuery};
use crate::spot::Spot;
use crate::used::Used;
use crate::walking::Errand;
use crate::{JudgeFault, QueryName, QueryNames};
use gv_base::{Ledger, NoMemory, Steps, Text, next_number};
use gv_facts::{Class, Context, Pkg, has_class};
use gv_lower::{LowerFault, Query};
use gv_plain::{JudgedPkg, is_told, is_whole};
use gv_query::AskFault;
use gv_report::{Options, Report, Reports};
use gv_visible::{Candidates, visible};
use std::alloc::Global;

/// How far judging has come: the answers so far, the reports, and the number of queries.
#[derive(Drop)]
pub(crate) struct Progress {
    pub(crate) used: Used,
    pub(crate) reports: Reports,
    pub(crate) queries: u32,
}

pub(crate) fn name_of(judged: &JudgedPkg<'_>, class: Class) -> QueryName
    ensures { result ≡ query_name (query_of (case_of judged.now) class) }
{
    QueryName {
        package: judged.number,
        class,
        context: Context {
            line: judged.profile.line,
            level: judged.level,
        },
    }
}

/// The gates of the query, where it is within the limits.
pub(crate) fn lowered<F: Fn(&Pkg) -> bool, L: Ledger>(
    alloc: Global,
    candidates: &Candidates<'_, F>,
    judged: &JudgedPkg<'_>,
    class: Class,
    steps: &mut Steps<L>,
) -> Result<Query, JudgeFault>
    requires around { AreAround (F.pre (test_of candidates.now)) (F.post (test_of candidates.now)) candidates.now judged.now }
    requires has { has_query (case_of judged.now) class ≡ true }
    ensures within { IfOk result (λ _. IsWithin (query_of (case_of judged.now) class)) }
    ensures query { IfOk result (IsQuery (gates_of (query_of (case_of judged.now) class)) (flags_of (query_of (case_of judged.now) class)) (items_of (query_of (case_of judged.now) class)) (preferred_of (query_of (case_of judged.now) class))) }
    ensures refused { IfErr result (λ fault. (budget : ℕ) (given : List KnownRecord) → Cause budget given (query_of (case_of judged.now) class) fault) }
    ensures steps { steps.new ≡ after Lower steps.old }
{
    match lower_query(alloc, candidates, judged, class, steps) {
        Ok(query) => Ok(query),
        Err(fault) => Err(limit_of(alloc, judged.pkg, fault)),
    }
}

/// Answers the query, and adds its report if it has one. With no budget only records answer.
pub(crate) fn judge_query<L: Ledger>(
    errand: &Errand<'_>,
    spot: &Spot<'_>,
    class: Class,
    progress: &mut Progress,
    shared: &mut Shared,
    steps: &mut Steps<L>,
) -> Result<(), JudgeFault>
    requires numbered { IsNumbered spot.now.judged }
    requires view { spot.now.view.now ≡ seen spot.now.judged.pkgs.now spot.now.judged.profile.now }
    requires parts { ArePartsOf spot.now.judged spot.now.judged.profile.now spot.now.sites.now shared.old.required.items }
    requires has { has_query (case_of spot.now.judged) class ≡ true }
    requires shared { AreReady spot.now.judged progress.old.used.certs shared.old }
    requires somewhere { IsSomewhere errand.now.asking.now.budget errand.now.asking.now.given.now progress.old steps.old }
    ensures judges { Judges errand.now.asking.now.budget errand.now.asking.now.given.now (query_of (case_of spot.now.judged) class ∷ []) progress.old progress.new steps.old steps.new result }
    ensures few { CountsAtMost 1 steps.old steps.new }
    ensures unsolved { errand.now.asking.now.budget ≡ 0 → steps.new.solve ≡ steps.old.solve }
    ensures shared { OnOk result (AreReady spot.now.judged progress.new.used.certs shared.new) }
    ensures required { shared.new.required.items ≡ shared.old.required.items }
{
    let alloc = errand.alloc;
    let at = match place_query(alloc, spot, class, shared, steps) {
        Ok(at) => at,
        Err(fault) => return Err(fault),
    };
    let kept = &shared.queries[at];
    let asking = errand.asking;
    let place = match judge_kept(alloc, asking, &spot.judged, class, kept, progress, steps) {
        Ok(place) => place,
        Err(fault) => return Err(fault),
    };
    shared.note(at, place);
    Ok(())
}

// The place of the query among those that are kept, for one of which it is lowered if need be.
fn place_query<L: Ledger>(
    alloc: Global,
    spot: &Spot<'_>,
    class: Class,
    shared: &mut Shared,
    steps: &mut Steps<L>,
) -> Result<usize, JudgeFault>
    requires numbered { IsNumbered spot.now.judged }
    requires view { spot.now.view.now ≡ seen spot.now.judged.pkgs.now spot.now.judged.profile.now }
    requires parts { ArePartsOf spot.now.judged spot.now.judged.profile.now spot.now.sites.now shared.old.required.items }
    requires has { has_query (case_of spot.now.judged) class ≡ true }
    requires here { AreHere spot.now.judged shared.old }
    ensures at { IfOk result (IsSharedAt (query_of (case_of spot.now.judged) class) shared.new.queries.items) }
    ensures here { IfOk result (λ _. AreHere spot.now.judged shared.new) }
    ensures noted { IfOk result (λ _. StayNoted shared.old.queries.items shared.new.queries.items) }
    ensures refused { IfErr result (λ fault. (budget : ℕ) (given : List KnownRecord) → Cause budget given (query_of (case_of spot.now.judged) class) fault) }
    ensures steps { MayLower steps.old steps.new }
    ensures required { shared.new.required.items ≡ shared.old.required.items }
{
    let view = spot.view;
    let profile = view.profile();
    let level = spot.judged.level;
    let test = |pkg: &Pkg| visible(pkg, profile, level);
    let candidates = match view.candidates(alloc, level, test) {
        Ok(candidates) => candidates,
        Err(NoMemory) => return Err(JudgeFault::NoMemory),
    };
    shared.place(alloc, &candidates, spot, class, steps)
}

/// Whether the query is one of those that the options select.
pub(crate) fn is_asked(options: &Options, judged: &JudgedPkg<'_>, class: Class) -> bool
    ensures { result ≡ is_asked options.now (case_of judged.now) class }
{
    let body = judged.body;
    let is_there = has_class(judged.pkg.eapi, class)
        && (is_whole(body, Class::Required) && is_whole(body, class));
    is_there && is_told(options, judged, query_keyword(judged.profile.status, class))
}

// CATEGORY/PF
fn place_text(alloc: Global, pkg: &Pkg) -> Result<Text, NoMemory>
    ensures { IfOk result (λ text. text ≡ package_text pkg.now.category pkg.now.pf) }
{
    let mut text = pkg.category.copy(alloc)?;
    text.append(b"/")?;
    text.append(pkg.pf.bytes())?;
    Ok(text)
}

fn limit(alloc: Global, pkg: &Pkg, number: u64) -> JudgeFault
    ensures { IsLimit pkg.now number result }
{
    match place_text(alloc, pkg) {
        Ok(place) => JudgeFault::Limit { place, number },
        Err(NoMemory) => JudgeFault::NoMemory,
    }
}

fn limit_of(alloc: Global, pkg: &Pkg, fault: LowerFault) -> JudgeFault
    ensures { IsLimitOf pkg.now fault result }
{
    match fault {
        LowerFault::Flags { .. } => limit(alloc, pkg, 4096),
        LowerFault::Weight { .. } => limit(alloc, pkg, 2_000_000),
        LowerFault::NoMemory => JudgeFault::NoMemory,
    }
}

/// Adds a report where there is one.
pub(crate) fn add_report(reports: &mut Reports, report: Option<Report>) -> Result<(), NoMemory>
    ensures { OnOk result (reports.new ≡ reports.old ++ option_to_list report) }
{
    match report {
        Some(report) => reports.add(report),
        None => Ok(()),
    }
}

// Answers a query that was lowered; where its answer stands.
fn judge_kept<L: Ledger>(
    alloc: Global,
    asking: &Asking<'_>,
    judged: &JudgedPkg<'_>,
    class: Class,
    kept: &SharedQuery,
    progress: &mut Progress,
    steps: &mut Steps<L>,
) -> Result<usize, JudgeFault>
    requires kept { IsLoweredAs (query_of (case_of judged.now) class) kept.now }
    requires noted { IsNoted progress.old.used.certs kept.now }
    requires used { AreSome asking.now.budget asking.now.given.now progress.old.used steps.old }
    ensures answers { AnswersKept asking.now.budget asking.now.given.now (query_of (case_of judged.now) class) progress.old progress.new steps.old steps.new result }
    ensures few { MayCount steps.old steps.new }
    ensures unsolved { asking.now.budget ≡ 0 → steps.new ≡ steps.old }
{
    gates_law();
    let query = &kept.query;
    let _inputs = query.gates.inputs();
    let place = match progress.used.place_near(
        alloc,
        kept.place,
        &kept.bytes,
        &query.gates,
        asking,
        steps,
    ) {
        Ok(place) => place,
        Err(AskFault::Spent { sets }) => {
            let name = name_of(judged, class);
            return Err(JudgeFault::Spent { name, sets });
        }
        Err(AskFault::NoMemory) => return Err(JudgeFault::NoMemory),
    };
    let queries = next_number(progress.queries)?;
    let found = &progress.used.found[place];
    let report = report_of(alloc, judged, class, query, found)?;
    add_report(&mut progress.reports, report)?;
    progress.queries = queries;
    Ok(place)
}

/// Adds the names of the queries of a package in a context, of these classes.
pub(crate) fn add_names(
    options: &Options,
    judged: &JudgedPkg<'_>,
    classes: &[Class],
    names: &mut QueryNames,
) -> Result<(), NoMemory>
    ensures { OnOk result (names.new ≡ names.old ++ map query_name (class_queries options.now classes.now (case_of judged.now))) }
{
    for class in classes {
        if is_asked(options, judged, *class) {
            names.add(name_of(judged, *class))?;
        }
    }
    Ok(())
}
