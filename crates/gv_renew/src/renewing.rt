//! The reports of a repository in which entries were edited, from those of before.
//!
//! What of each package rests on edited entries is found as `touched` says. The reports of before cost what `lasting` says, and a
//! package that is edited, or has an atom of the name of an edited entry, what `afresh` and `due` say; the others cost no more. What
//! each profile shows is asked of all packages where more than one in 32 is so, and else of those that are asked about; the flags
//! that rules name are put into a set in the same case alone. Stale reports are exchanged for what is told anew as `exchanging` says.
ghost use Rattle.std.specs.Prelude.{◌≡◌, ◌++◌, [], Bool, not, filter, flat_map, length, map, IfErr, IfOk};
ghost use Rattle.std.specs.List.{AllByRecursion};
ghost use Rattle.gv_facts.specs.Places.{places_of};
ghost use Rattle.gv_report.specs.Distinct.{ordered};
ghost use Rattle.gv_renew.specs.Renewing.{FollowsOrder};
ghost use Rattle.gv_report.specs.Selecting.{selected};
ghost use Rattle.gv_report.specs.declared.report.Report.{Report};
ghost use Rattle.gv_reload.specs.EntryEdits.{IsPartOf};
ghost use Rattle.gv_load.specs.Repository.{AreInPackageOrder};
ghost use Rattle.gv_load.specs.declared.loading.Repo.{Repo};
ghost use Rattle.gv_checks.specs.Certs.{CountsAtMost};
ghost use Rattle.gv_checks.specs.Chosen.{chosen};
ghost use Rattle.gv_renew.specs.Due.{AreAnswered, IsRenewedHere};
ghost use Rattle.gv_checks.specs.Limits.{Refuses, RefusesFirst};
ghost use Rattle.gv_checks.specs.Queries.{queries};
ghost use Rattle.gv_renew.specs.Renewal.{AreOfBefore, IsRenewed, is_due};
ghost use Rattle.gv_renew.specs.Touched.{AreTouched, IsIn, anew_at};

use crate::afresh::add_anew;
use crate::due::due_sets;
use crate::exchanging::exchanged;
use crate::lasting::stale_places;
use crate::laws::renewed_law;
use crate::mentioned::Mentioned;
use crate::touched::{Touched, all_touched};
use gv_base::{Ledger, NoMemory, Steps};
use gv_cert::Known;
use gv_checks::{Answers, Asking, Chosen, JudgeFault, Stopped, Walk, noted, parts_law, walk_law};
use gv_load::Repo;
use gv_reload::EntryEdits;
use gv_report::{Options, Reports};
use std::alloc::Global;

/// The reports of a scan of a repository in which the entries at these paths were edited, and nothing else, from those of a scan
/// of before, which are in order, and from the names that its packages mention. Its notes need to hold only what is told of edited
/// entries. Only queries of packages that are edited, or of classes with an atom of the name of an edited entry, are judged:
/// whatever it answers, no more are lowered than there are of these, and no more solved. The first of these that is refused ends
/// it: each of them before it has its certificate, and all queries before it are within the limits.
/// Packages are numbered by 32 bits, and more of them find no memory.
pub fn renew<L: Ledger>(
    alloc: Global,
    repo: &Repo,
    options: &Options,
    edits: &EntryEdits,
    mentioned: &Mentioned,
    before: Reports,
    steps: &mut Steps<L>,
) -> Result<Reports, JudgeFault>
    requires order { AreInPackageOrder repo.now.pkgs }
    requires bodies { length repo.now.bodies ≡ length repo.now.pkgs }
    requires mentioned { mentioned.now ≡ repo.now.bodies }
    requires before { ordered before ≡ before }
    ensures renewed { (whole : Repo) → IsPartOf edits.now repo.now whole → AreOfBefore options.now edits.now whole before → IfOk result (IsRenewed options.now edits.now whole steps.old steps.new) }
    ensures first { IfErr result (RefusesFirst options.now.budget [] (filter (is_due edits.now) (queries options.now repo.now))) }
    ensures few { CountsAtMost (length (filter (is_due edits.now) (queries options.now repo.now))) steps.old steps.new }
    ensures cause { (whole : Repo) → IsPartOf edits.now repo.now whole → AreOfBefore options.now edits.now whole before → IfErr result (Refuses options.now.budget [] (queries options.now whole)) }
{
    renewed_law();
    parts_law();
    renew_here(alloc, &*repo, &*options, edits, mentioned, before, steps)
}

// The same in terms of the repository that is there.
#[tactic(auto, using(crate::proofs::RenewLemmas::own_options, crate::proofs::RenewLemmas::renewed_by, crate::proofs::RenewLemmas::refused_by))]
fn renew_here<'a, L: Ledger>(
    alloc: Global,
    repo: &'a Repo,
    options: &'a Options,
    edits: &EntryEdits,
    mentioned: &Mentioned,
    before: Reports,
    steps: &mut Steps<L>,
) -> Result<Reports, JudgeFault>
    requires bodies { length repo.now.bodies ≡ length repo.now.pkgs }
    requires mentioned { mentioned.now ≡ repo.now.bodies }
    requires before { ordered before ≡ before }
    ensures renewed { IfOk result (IsRenewedHere options.now edits.now repo.now before steps.old steps.new) }
    ensures first { IfErr result (RefusesFirst options.now.budget [] (filter (is_due edits.now) (queries options.now repo.now))) }
    ensures few { CountsAtMost (length (filter (is_due edits.now) (queries options.now repo.now))) steps.old steps.new }
{
    let touched = all_touched(alloc, repo, mentioned, edits)?;
    let walk = walk_over(alloc, repo, options, are_many(&touched))?;
    renew_touched(alloc, &walk, repo, edits, &touched, before, steps)
}

fn walk_over<'a>(
    alloc: Global,
    repo: &'a Repo,
    options: &'a Options,
    many: bool,
) -> Result<Walk<'a>, NoMemory>
    ensures { IfOk result (λ walk. walk ≡ record { repo = repo.now; options = options.now }) }
{
    if many {
        return Walk::new(alloc, repo, options);
    }
    Walk::few(alloc, repo, options)
}

// Whether many packages are come to.
fn are_many(touched: &[Touched<'_>]) -> bool {
    let count = touched.iter().filter(|one| one.touches()).count();
    count > touched.len() / 32
}

// The reports told anew without a query.
fn anew(
    alloc: Global,
    walk: &Walk<'_>,
    repo: &Repo,
    touched: &[Touched<'_>],
) -> Result<Reports, NoMemory>
    requires walk { walk.now ≡ record { repo = repo.now; options = walk.now.options } }
    requires touched { AllByRecursion (IsIn repo.now.pkgs repo.now.bodies) touched.now }
    ensures { IfOk result (λ reports. reports ≡ filter (selected walk.now.options) repo.now.notes ++ flat_map (anew_at walk.now.options repo.now) touched.now) }
{
    let mut reports = noted(alloc, repo, walk.options())?;
    add_anew(alloc, walk, touched, &mut reports)?;
    Ok(reports)
}

// The reports of queries that are due.
fn answered<L: Ledger>(
    alloc: Global,
    walk: &Walk<'_>,
    due: &Chosen<'_>,
    steps: &mut Steps<L>,
) -> Result<Reports, JudgeFault>
    ensures answers { IfOk result (AreAnswered (chosen due.now (queries walk.now.options walk.now.repo)) steps.old steps.new) }
    ensures first { IfErr result (RefusesFirst walk.now.options.budget [] (chosen due.now (queries walk.now.options walk.now.repo))) }
    ensures few { CountsAtMost (length (chosen due.now (queries walk.now.options walk.now.repo))) steps.old steps.new }
{
    walk_law();
    let none = Known::new(alloc);
    let options = walk.options();
    let asking = Asking {
        chosen: *due,
        budget: options.budget,
        given: &none,
    };
    let Answers {
        plain: _,
        reports,
        certs: _,
        queries: _,
    } = match walk.judge(alloc, &asking, steps) {
        Ok(answers) => answers,
        Err(Stopped { fault, behind: _ }) => return Err(fault),
    };
    Ok(reports)
}

// The reports of before without those at these places, which are stale, and with those told anew, in order.
fn renewed(
    alloc: Global,
    before: Reports,
    stale: Vec<usize>,
    mut told: Reports,
    answered: Reports,
) -> Result<Reports, NoMemory>
    requires order { ordered before ≡ before }
    requires places { (is_stale : Report → Bool) × (FollowsOrder is_stale × (stale.items ≡ places_of is_stale before)) }
    ensures { (is_stale : Report → Bool) → FollowsOrder is_stale → stale.items ≡ places_of is_stale before
        → IfOk result (λ renewed. renewed ≡ ordered (filter (λ r. not (is_stale r)) before ++ (told ++ answered))) }
{
    told.append(answered)?;
    exchanged(alloc, before, stale, told)
}

#[tactic(auto, using(crate::proofs::TouchedLemmas::pkgs_are))]
fn renew_touched<L: Ledger>(
    alloc: Global,
    walk: &Walk<'_>,
    repo: &Repo,
    edits: &EntryEdits,
    touched: &[Touched<'_>],
    before: Reports,
    steps: &mut Steps<L>,
) -> Result<Reports, JudgeFault>
    requires bodies { length repo.now.bodies ≡ length repo.now.pkgs }
    requires walk { walk.now ≡ record { repo = repo.now; options = walk.now.options } }
    requires touched { AreTouched edits.now repo.now.pkgs repo.now.bodies touched.now }
    requires before { ordered before ≡ before }
    ensures renewed { IfOk result (IsRenewedHere walk.now.options edits.now repo.now before steps.old steps.new) }
    ensures first { IfErr result (RefusesFirst walk.now.options.budget [] (filter (is_due edits.now) (queries walk.now.options repo.now))) }
    ensures few { CountsAtMost (length (filter (is_due edits.now) (queries walk.now.options repo.now))) steps.old steps.new }
{
    let stale = stale_places(alloc, &repo.pkgs, edits, touched, before.items())?;
    let told = anew(alloc, walk, repo, touched)?;
    let sets = due_sets(alloc, touched)?;
    let due = Chosen::Classes(&sets);
    let answered = match answered(alloc, walk, &due, steps) {
        Ok(answered) => answered,
        Err(fault) => return Err(fault),
    };
    Ok(renewed(alloc, before, stale, told, answered)?)
}
