//! What given records know of one query, without a solver.
//!
//! `known_one` costs finding the query, lowering it, and checking its records up to the first that is backed.
ghost use Rattle.std.specs.Prelude.{◌≡◌, true};
ghost use Rattle.gv_base.specs.Steps.{after};
ghost use Rattle.gv_base.specs.declared.steps.Kind.TheVariants.{Lower};
ghost use Rattle.gv_visible.specs.Candidates.{test_of};
ghost use Rattle.gv_checks.specs.Answered.{CountsKnown, Knows};
ghost use Rattle.gv_checks.specs.Around.{AreAround};
ghost use Rattle.gv_plain.specs.Context.{IsNumbered, case_of};
ghost use Rattle.gv_checks.specs.Named.{HasNamed, KnowsNamed};
ghost use Rattle.gv_checks.specs.Queries.{has_query, query_of};

use crate::finding::find_named;
use crate::lowering::lower_query;
use crate::one::found_at;
use crate::{Found1, QueryName};
use gv_base::{Ledger, NoMemory, Steps};
use gv_cert::Known;
use gv_facts::{Class, Pkg};
use gv_load::Repo;
use gv_lower::LowerFault;
use gv_plain::JudgedPkg;
use gv_query::{Answer, first_backed};
use gv_report::Options;
use gv_visible::{Candidates, visible};
use std::alloc::Global;

/// The answer of the first backed record of the query of this name, which is one of those of the repository under the
/// options; None exactly where none is backed. The query is lowered once and never solved.
#[tactic(auto, using(crate::proofs::KnownLemmas::knows_named))]
pub fn known_one<L: Ledger>(
    alloc: Global,
    repo: &Repo,
    name: &QueryName,
    options: &Options,
    certs: &Known,
    steps: &mut Steps<L>,
) -> Result<Option<Found1>, LowerFault>
    requires { HasNamed options.now repo.now name.now }
    ensures knows { KnowsNamed options.now certs.now repo.now name.now result }
    ensures counted { CountsKnown result steps.old steps.new }
{
    let judged = find_named(repo, name, options);
    known_case(alloc, &judged, name.class, certs, steps)
}

// What is known of the query among the candidates.
#[tactic(auto, using(crate::proofs::KnownLemmas::knows_found))]
fn known_at<F: Fn(&Pkg) -> bool, L: Ledger>(
    alloc: Global,
    candidates: &Candidates<'_, F>,
    judged: &JudgedPkg<'_>,
    class: Class,
    certs: &Known,
    steps: &mut Steps<L>,
) -> Result<Option<Found1>, LowerFault>
    requires around { AreAround (F.pre (test_of candidates.now)) (F.post (test_of candidates.now)) candidates.now judged.now }
    requires has { has_query (case_of judged.now) class ≡ true }
    ensures knows { Knows certs.now (query_of (case_of judged.now) class) result }
    ensures steps { steps.new ≡ after Lower steps.old }
{
    let lowered = match lower_query(alloc, candidates, judged, class, steps) {
        Ok(lowered) => lowered,
        Err(fault) => return Err(fault),
    };
    let claim = match first_backed(alloc, &lowered.gates, certs) {
        Ok(Some(claim)) => claim,
        Ok(None) => {
            drop(lowered);
            return Ok(None);
        }
        Err(NoMemory) => {
            drop(lowered);
            return Err(LowerFault::NoMemory);
        }
    };
    let answer = Answer {
        claim,
        reused: true,
    };
    let found = found_at(alloc, judged, class, &lowered, answer);
    drop(lowered);
    match found {
        Ok(found) => Ok(Some(found)),
        Err(NoMemory) => Err(LowerFault::NoMemory),
    }
}

// What is known of the query of a package in a context.
#[tactic(auto, using(crate::proofs::KnownLemmas::counts_known))]
fn known_case<L: Ledger>(
    alloc: Global,
    judged: &JudgedPkg<'_>,
    class: Class,
    certs: &Known,
    steps: &mut Steps<L>,
) -> Result<Option<Found1>, LowerFault>
    requires numbered { IsNumbered judged.now }
    requires has { has_query (case_of judged.now) class ≡ true }
    ensures knows { Knows certs.now (query_of (case_of judged.now) class) result }
    ensures counted { CountsKnown result steps.old steps.new }
{
    let profile = judged.profile;
    let level = judged.level;
    let test = |pkg: &Pkg| visible(pkg, profile, level);
    let candidates = match Candidates::new(alloc, judged.pkgs, profile, level, test) {
        Ok(candidates) => candidates,
        Err(NoMemory) => return Err(LowerFault::NoMemory),
    };
    known_at(alloc, &candidates, judged, class, certs, steps)
}
