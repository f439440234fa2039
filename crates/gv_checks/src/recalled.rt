//! A repository judged by records alone, without a solver.
//!
//! It costs what `judge` costs, but no solving: each distinct query is looked for by its bytes once, and its records are
//! checked up to the first that is backed.
ghost use Rattle.std.specs.Prelude.{◌≡◌, List, length};
ghost use Rattle.gv_cert.specs.Known.{KnownRecord};
ghost use Rattle.gv_checks.specs.Certs.{CountsAtMost};
ghost use Rattle.gv_checks.specs.Progress.{Stops};
ghost use Rattle.gv_checks.specs.Queries.{Query, queries};
ghost use Rattle.gv_checks.specs.Recalled.{NotRecalls, Recalls};

use crate::JudgeFault;
use crate::chosen::{Asking, Chosen};
use crate::walk::Walk;
use crate::walking::{Answers, Stopped};
use crate::whole::all_reports;
use gv_base::{Ledger, NoMemory, Steps, Text, next_number};
use gv_cert::Known;
use gv_load::Repo;
use gv_plain::told_law;
use gv_report::{Options, Reports};
use std::alloc::Global;

/// What the records say of a repository.
#[derive(Drop)]
pub struct Recalled {
    /// In order.
    pub reports: Reports,
    /// For each distinct query its first backed record, in the order of first use.
    pub certs: Known,
    /// The number of queries.
    pub queries: u32,
}

/// Why queries have no answer.
#[derive(Drop)]
pub enum RecallFault {
    /// No record of the query of this number, from 1, is backed.
    NotBacked { query: u32 },
    /// A query has more than 4,096 flags or weighs more than 2,000,000: CATEGORY/PF of its package, and the limit.
    Limit { place: Text, number: u64 },
    /// Memory was wanted and not given, at whichever query.
    NoMemory,
}

impl From<NoMemory> for RecallFault {
    ghost use Rattle.std.specs.Prelude.{◌≡◌};
    ghost use Rattle.gv_checks.specs.declared.recalled.RecallFault.TheVariants.{NoMemory};

    ghost from_gives = { λ _ fault. fault ≡ NoMemory };

    fn from(_refused: NoMemory) -> RecallFault {
        RecallFault::NoMemory
    }
}

/// The reports of a scan, in order, equal ones once, and for each distinct query the first of its records that is backed, where each
/// has one among the given ones. Whatever it answers, no more are lowered than there are queries, and none is solved. The first query
/// that is past a limit, or has no backed record, ends it.
pub fn recall<L: Ledger>(
    alloc: Global,
    repo: &Repo,
    options: &Options,
    certs: &Known,
    steps: &mut Steps<L>,
) -> Result<Recalled, RecallFault>
    ensures recalls { Recalls options.now certs.now repo.now result }
    ensures few { CountsAtMost (length (queries options.now repo.now)) steps.old steps.new }
    ensures unsolved { steps.new.solve ≡ steps.old.solve }
{
    recall_by(alloc, &*repo, &*options, &*certs, steps)
}

// Why no more than these many queries are recalled.
#[tactic(auto, using(crate::proofs::AllLemmas::not_backed, crate::proofs::AllLemmas::past_limit))]
fn fault_behind(fault: JudgeFault, queries: u32) -> RecallFault
    ensures { (given : List KnownRecord) (all : List Query) → Stops 0 given all queries fault → NotRecalls given all result }
{
    match fault {
        JudgeFault::Spent { .. } => match next_number(queries) {
            Ok(query) => RecallFault::NotBacked { query },
            Err(NoMemory) => RecallFault::NoMemory,
        },
        JudgeFault::Limit { place, number } => RecallFault::Limit { place, number },
        JudgeFault::NoMemory => RecallFault::NoMemory,
    }
}

fn recall_by<'a, L: Ledger>(
    alloc: Global,
    repo: &'a Repo,
    options: &'a Options,
    certs: &'a Known,
    steps: &mut Steps<L>,
) -> Result<Recalled, RecallFault>
    ensures recalls { Recalls options.now certs.now repo.now result }
    ensures few { CountsAtMost (length (queries options.now repo.now)) steps.old steps.new }
    ensures unsolved { steps.new.solve ≡ steps.old.solve }
{
    told_law();
    let walk = Walk::new(alloc, repo, options)?;
    let asking = Asking {
        chosen: Chosen::All,
        budget: 0,
        given: certs,
    };
    let Answers {
        plain,
        reports: asked,
        certs,
        queries,
    } = match walk.judge(alloc, &asking, steps) {
        Ok(answers) => answers,
        Err(Stopped { fault, behind }) => {
            drop(walk);
            return Err(fault_behind(fault, behind));
        }
    };
    drop(walk);
    let reports = all_reports(alloc, repo, options, plain, asked)?;
    Ok(Recalled {
        reports,
        certs,
        queries,
    })
}
