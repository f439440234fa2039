//! The queries of one part of a scan, judged.
ghost use Rattle.std.specs.Prelude.{length};
ghost use Rattle.gv_checks.specs.Certs.{CountsAtMost};
ghost use Rattle.gv_merge.specs.Parts.{JudgesPart, part_queries};

use gv_base::{Ledger, Steps};
use gv_cert::Known;
use gv_checks::{Answers, Asking, Chosen, JudgeFault, Stopped, Walk, walk_law};
use gv_load::Repo;
use gv_report::Options;
use std::alloc::Global;

/// What judging a part answers.
#[derive(Drop)]
pub struct Part {
    /// One record for each distinct query of the part, in the order of first use.
    pub certs: Known,
    /// The number of the part's queries.
    pub queries: u32,
}

/// One record for each distinct query of a part, by the bytes of its gates, in the order of first use, with the answer of the first
/// backed record among the given ones where there is one. Query number q, from 1, is of part ((q - 1) modulo `parts`) + 1. Whatever it
/// answers, no more are lowered than the part has queries, and no more solved; each distinct one without such a record is solved once.
/// The part's first query that is refused ends it. A part that isn't one of so many has no queries.
pub fn judge_part<L: Ledger>(
    alloc: Global,
    repo: &Repo,
    options: &Options,
    part: u32,
    parts: u32,
    certs: &Known,
    steps: &mut Steps<L>,
) -> Result<Part, JudgeFault>
    ensures judges { JudgesPart part parts options.now certs.now repo.now steps.old steps.new result }
    ensures few { CountsAtMost (length (part_queries part parts options.now repo.now)) steps.old steps.new }
{
    judge_by(alloc, &*repo, &*options, part, parts, &*certs, steps)
}

#[tactic(auto, using(crate::proofs::PartLemmas::is_part, crate::proofs::PartLemmas::is_refused))]
fn judge_by<'a, L: Ledger>(
    alloc: Global,
    repo: &'a Repo,
    options: &'a Options,
    part: u32,
    parts: u32,
    certs: &'a Known,
    steps: &mut Steps<L>,
) -> Result<Part, JudgeFault>
    ensures judges { JudgesPart part parts options.now certs.now repo.now steps.old steps.new result }
    ensures few { CountsAtMost (length (part_queries part parts options.now repo.now)) steps.old steps.new }
{
    walk_law();
    let walk = Walk::new(alloc, repo, options)?;
    let asking = Asking {
        chosen: Chosen::Part { part, parts },
        budget: options.budget,
        given: certs,
    };
    match walk.judge(alloc, &asking, steps) {
        Ok(
            Answers {
                plain: _,
                reports: _,
                certs,
                queries,
            },
        ) => Ok(Part { certs, queries }),
        Err(Stopped { fault, behind: _ }) => Err(fault),
    }
}
