//! Records of parts, merged into the report of the whole.
ghost use Rattle.std.specs.Prelude.{◌≡◌, ◌≤◌, length};
ghost use Rattle.gv_checks.specs.Certs.{CountsAtMost};
ghost use Rattle.gv_checks.specs.Queries.{queries};
ghost use Rattle.gv_merge.specs.Merging.{Hands, IsNumbered, Merges};
ghost use Rattle.gv_merge.specs.Parts.{part_of};

use gv_base::{Ledger, Steps, Text};
use gv_cert::Known;
use gv_checks::{RecallFault, Recalled, recall};
use gv_load::Repo;
use gv_report::{Options, Reports};
use std::alloc::Global;

/// What merging answers.
#[derive(Drop)]
pub struct Merged {
    /// In order.
    pub reports: Reports,
    /// For each distinct query its first backed record, in the order of first use.
    pub certs: Known,
}

/// Why records aren't merged.
#[derive(Drop)]
pub enum MergeFault {
    /// No record of the query of this number, from 1, is backed; it is of this part.
    NotBacked { query: u32, part: u32 },
    /// A query has more than 4,096 flags or weighs more than 2,000,000: CATEGORY/PF of its package, and the limit.
    Limit { place: Text, number: u64 },
    /// Memory was wanted and not given, at whichever query.
    NoMemory,
}

/// The reports of a scan, in order, equal ones once, and for each distinct query the first of its records that is backed, where each
/// has one among the given ones, whatever else these are. Whatever it answers, no more are lowered than there are queries, and none is
/// solved. The first query that is past a limit, or has no backed record, ends it.
#[tactic(auto, using(crate::proofs::MergeLemmas::is_merged, crate::proofs::MergeLemmas::is_numbered, crate::proofs::MergeLemmas::handed))]
pub fn merge<L: Ledger>(
    alloc: Global,
    repo: &Repo,
    options: &Options,
    parts: u32,
    known: &Known,
    steps: &mut Steps<L>,
) -> Result<Merged, MergeFault>
    requires some { 1 ≤ parts }
    ensures merges { Merges parts options.now known.now repo.now result }
    ensures few { CountsAtMost (length (queries options.now repo.now)) steps.old steps.new }
    ensures unsolved { steps.new.solve ≡ steps.old.solve }
{
    match recall(alloc, repo, options, known, steps) {
        Ok(
            Recalled {
                reports,
                certs,
                queries: _,
            },
        ) => Ok(Merged { reports, certs }),
        Err(fault) => Err(fault_of(fault, parts)),
    }
}

// The part of the query of this number.
fn part_of(query: u32, parts: u32) -> u32
    requires number { 1 ≤ query }
    requires some { 1 ≤ parts }
    ensures { result ≡ part_of parts query }
{
    (query - 1) % parts + 1
}

fn fault_of(fault: RecallFault, parts: u32) -> MergeFault
    requires numbered { IsNumbered fault }
    requires some { 1 ≤ parts }
    ensures { Hands parts fault result }
{
    match fault {
        RecallFault::NotBacked { query } => MergeFault::NotBacked {
            query,
            part: part_of(query, parts),
        },
        RecallFault::Limit { place, number } => MergeFault::Limit { place, number },
        RecallFault::NoMemory => MergeFault::NoMemory,
    }
}
