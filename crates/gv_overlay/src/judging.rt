//! The overlay's packages judged.
//!
//! The masters' packages are candidates, and aren't judged: each of them costs O(1), and where the overlay's packages are few no
//! profile is asked which of them it shows before an atom names them.
ghost use Rattle.std.specs.Prelude.{◌≡◌, ◌++◌, length, filter, IfErr, IfOk};
ghost use Rattle.gv_checks.specs.Answers.{AreAnswers};
ghost use Rattle.gv_checks.specs.Certs.{CountsAtMost};
ghost use Rattle.gv_checks.specs.Limits.{RefusesFirst};
ghost use Rattle.gv_checks.specs.SomePackages.{queries_on, reports_on};
ghost use Rattle.gv_report.specs.Distinct.{ordered};
ghost use Rattle.gv_report.specs.Selecting.{selected};
ghost use Rattle.gv_overlay.specs.Judged.{JudgesOwn, overlay_queries};

use crate::Overlay;
use gv_base::{Ledger, NoMemory, Steps};
use gv_cert::Known;
use gv_checks::{
    Answers, Asking, Chosen, JudgeFault, Judged, Stopped, Walk, packages_law, selected_of, walk_law,
};
use gv_load::Repo;
use gv_logic::Bits;
use gv_report::{Options, Reports, ordered};
use std::alloc::Global;

/// As `judge`, for the overlay's packages alone: their reports and the notes on the overlay's entries, as far as the options select
/// them, in order, equal ones once; and one record for each distinct query of these packages. All packages are candidates. Whatever it
/// answers, no more are lowered than these packages have queries, and no more solved. The first query that is refused ends it.
pub fn judge_own<L: Ledger>(
    alloc: Global,
    over: &Overlay,
    options: &Options,
    certs: &Known,
    steps: &mut Steps<L>,
) -> Result<Judged, JudgeFault>
    ensures judges { JudgesOwn options.now certs.now over.now steps.old steps.new result }
    ensures few { CountsAtMost (length (overlay_queries options.now over.now)) steps.old steps.new }
{
    judge_by(alloc, &*over, &*options, &*certs, steps)
}

#[tactic(auto, using(crate::proofs::OwnLemmas::own_judged, crate::proofs::OwnLemmas::own_refused))]
fn judge_by<'a, L: Ledger>(
    alloc: Global,
    over: &'a Overlay,
    options: &'a Options,
    certs: &'a Known,
    steps: &mut Steps<L>,
) -> Result<Judged, JudgeFault>
    ensures judges { JudgesOwn options.now certs.now over.now steps.old steps.new result }
    ensures few { CountsAtMost (length (overlay_queries options.now over.now)) steps.old steps.new }
{
    let walk = walk_over(alloc, &over.repo, options, are_many(&over.own))?;
    let Answers {
        plain,
        reports: asked,
        certs,
        queries,
    } = match answered(alloc, &walk, &over.own, certs, steps) {
        Ok(answers) => answers,
        Err(fault) => return Err(fault),
    };
    let reports = own_reports(alloc, over, options, plain, asked)?;
    Ok(Judged {
        reports,
        certs,
        queries,
    })
}

fn walk_over<'a>(
    alloc: Global,
    repo: &'a Repo,
    options: &'a Options,
    many: bool,
) -> Result<Walk<'a>, NoMemory>
    ensures { IfOk result (λ walk. walk ≡ record { repo = repo.now; options = options.now }) }
{
    if many {
        return Walk::new(alloc, repo, options);
    }
    Walk::few(alloc, repo, options)
}

// Whether more than one in 32 packages is the overlay's.
fn are_many(own: &Bits) -> bool {
    let count = own.items().iter().filter(|own| **own).count();
    count > own.items().len() / 32
}

// The queries of the packages whose bits are on, answered.
#[tactic(auto, using(crate::proofs::OwnLemmas::told_by, crate::proofs::OwnLemmas::answers_by, crate::proofs::OwnLemmas::refused_by))]
fn answered<L: Ledger>(
    alloc: Global,
    walk: &Walk<'_>,
    own: &Bits,
    certs: &Known,
    steps: &mut Steps<L>,
) -> Result<Answers, JudgeFault>
    ensures told { IfOk result (λ a. a.plain ++ a.reports ≡ filter (selected walk.now.options) (reports_on own.now walk.now.repo)) }
    ensures answers { IfOk result (AreAnswers walk.now.options.budget certs.now (queries_on own.now walk.now.options walk.now.repo) steps.old steps.new) }
    ensures refuses { IfErr result (RefusesFirst walk.now.options.budget certs.now (queries_on own.now walk.now.options walk.now.repo)) }
    ensures few { CountsAtMost (length (queries_on own.now walk.now.options walk.now.repo)) steps.old steps.new }
{
    packages_law();
    walk_law();
    let options = walk.options();
    let asking = Asking {
        chosen: Chosen::Packages(own),
        budget: options.budget,
        given: certs,
    };
    match walk.judge(alloc, &asking, steps) {
        Ok(answers) => Ok(answers),
        Err(Stopped { fault, behind: _ }) => Err(fault),
    }
}

// The selected notes, what is told without a query, and the reports of queries, in order, equal ones once.
fn own_reports(
    alloc: Global,
    over: &Overlay,
    options: &Options,
    mut plain: Reports,
    asked: Reports,
) -> Result<Reports, NoMemory>
    ensures { IfOk result (λ reports. reports ≡ ordered (filter (selected options.now) over.now.notes ++ (plain ++ asked))) }
{
    plain.append(asked)?;
    let mut reports = selected_of(alloc, over.notes.items(), options)?;
    reports.append(plain)?;
    Ok(ordered(alloc, reports)?)
}
