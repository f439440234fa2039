//! A repository judged: its reports, and the certificates of its queries.
//!
//! It costs what `walk` says of many packages, the walk over all queries, and putting the reports in order.
ghost use Rattle.std.specs.Prelude.{◌≡◌, ◌++◌, length, filter, IfErr, IfOk};
ghost use Rattle.gv_report.specs.Distinct.{ordered};
ghost use Rattle.gv_report.specs.Selecting.{selected};
ghost use Rattle.gv_checks.specs.Answered.{JudgesAll};
ghost use Rattle.gv_checks.specs.Certs.{CountsAtMost};
ghost use Rattle.gv_checks.specs.Limits.{RefusesFirst};
ghost use Rattle.gv_checks.specs.Queries.{queries};

use crate::JudgeFault;
use crate::chosen::{Asking, Chosen};
use crate::walk::Walk;
use crate::walking::{Answers, Stopped};
use gv_base::{Ledger, NoMemory, Steps};
use gv_cert::Known;
use gv_load::Repo;
use gv_plain::{noted, told_law};
use gv_report::{Options, Reports, ordered};
use std::alloc::Global;

/// What judging a repository answers.
#[derive(Drop)]
pub struct Judged {
    /// In order.
    pub reports: Reports,
    /// One record for each distinct query, in the order of first use.
    pub certs: Known,
    /// The number of queries.
    pub queries: u32,
}

impl Judged {
    /// The same once more. O(bytes).
    pub fn copy(&self, alloc: Global) -> Result<Judged, NoMemory>
        ensures { IfOk result (λ judged. judged ≡ self.now) }
    {
        Ok(Judged {
            reports: self.reports.copy(alloc)?,
            certs: self.certs.copy(alloc)?,
            queries: self.queries,
        })
    }
}

/// The reports of a scan, in order, equal ones once; and one record for each distinct query by the bytes of its gates, in
/// the order of first use, with the answer of the first backed record among the given ones where there is one. Whatever it
/// answers, no more are lowered than there are queries, and no more solved; each distinct one without such a record is solved once.
/// The first query that is refused ends it.
pub fn judge<L: Ledger>(
    alloc: Global,
    repo: &Repo,
    options: &Options,
    certs: &Known,
    steps: &mut Steps<L>,
) -> Result<Judged, JudgeFault>
    ensures judges { JudgesAll options.now certs.now repo.now steps.old steps.new result }
    ensures first { IfErr result (RefusesFirst options.now.budget certs.now (queries options.now repo.now)) }
    ensures few { CountsAtMost (length (queries options.now repo.now)) steps.old steps.new }
{
    judge_by(alloc, &*repo, &*options, &*certs, steps)
}

fn judge_by<'a, L: Ledger>(
    alloc: Global,
    repo: &'a Repo,
    options: &'a Options,
    certs: &'a Known,
    steps: &mut Steps<L>,
) -> Result<Judged, JudgeFault>
    ensures judges { JudgesAll options.now certs.now repo.now steps.old steps.new result }
    ensures first { IfErr result (RefusesFirst options.now.budget certs.now (queries options.now repo.now)) }
    ensures few { CountsAtMost (length (queries options.now repo.now)) steps.old steps.new }
{
    told_law();
    let walk = Walk::new(alloc, repo, options)?;
    let asking = Asking {
        chosen: Chosen::All,
        budget: options.budget,
        given: certs,
    };
    let Answers {
        plain,
        reports: asked,
        certs,
        queries,
    } = match walk.judge(alloc, &asking, steps) {
        Ok(answers) => answers,
        Err(Stopped { fault, behind: _ }) => {
            drop(walk);
            return Err(fault);
        }
    };
    drop(walk);
    let reports = all_reports(alloc, repo, options, plain, asked)?;
    Ok(Judged {
        reports,
        certs,
        queries,
    })
}

/// The selected notes, what is told without a query, and the reports of queries, in order, equal ones once.
pub(crate) fn all_reports(
    alloc: Global,
    repo: &Repo,
    options: &Options,
    plain: Reports,
    asked: Reports,
) -> Result<Reports, NoMemory>
    ensures { IfOk result (λ reports. reports ≡ ordered ((filter (selected options.now) repo.now.notes ++ plain) ++ asked)) }
{
    let mut reports = noted(alloc, repo, options)?;
    reports.append(plain)?;
    reports.append(asked)?;
    Ok(ordered(alloc, reports)?)
}
