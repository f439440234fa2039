//! One query answered.
//!
//! `ask_one` costs finding the query, lowering it, its look-up among the records or the solver, and the bytes that it hands
//! out.
ghost use Rattle.std.specs.Prelude.{◌≡◌, true, option_map, IfOk};
ghost use Rattle.gv_base.specs.Words.{joined};
ghost use Rattle.gv_entry.specs.Allowed.{values_by};
ghost use Rattle.gv_cert.specs.Backing.{Backs};
ghost use Rattle.gv_cert.specs.Claim.{IsAnswerTo, answer_bytes};
ghost use Rattle.gv_lower.specs.Lowering.{IsQuery};
ghost use Rattle.gv_query.specs.Truth.{IsSo};
ghost use Rattle.gv_visible.specs.Candidates.{test_of};
ghost use Rattle.gv_checks.specs.Answered.{AnswersOne, CountsOne};
ghost use Rattle.gv_checks.specs.Around.{AreAround};
ghost use Rattle.gv_plain.specs.Context.{IsNumbered, case_of};
ghost use Rattle.gv_checks.specs.Named.{AnswersNamed, HasNamed};
ghost use Rattle.gv_checks.specs.Queries.{flags_of, gates_bytes, gates_of, has_query, items_of, least_of, preferred_of, query_of};
ghost use Rattle.gv_checks.specs.RepoReports.{query_report, witness_of, witness_words};

use crate::finding::find_named;
use crate::judging::{lowered, name_of};
use crate::laws::gates_law;
use crate::reporting::{report_of, witness_of};
use crate::used::into_found;
use crate::{JudgeFault, QueryName};
use gv_base::{Ledger, NoMemory, Steps, Text};
use gv_cert::{Known, naming_law, write_answer};
use gv_facts::{Class, Pkg};
use gv_load::Repo;
use gv_logic::{Bits, clause_count, gate_bytes};
use gv_lower::Query;
use gv_plain::JudgedPkg;
use gv_query::{Answer, AskFault, answer_of};
use gv_report::{Options, Report};
use gv_visible::{Candidates, visible};
use std::alloc::Global;

/// The answer to a query.
#[derive(Drop)]
pub struct Found1 {
    /// The bytes of its gates.
    pub query: Text,
    /// The bytes of the answer, which is backed for them.
    pub answer: Text,
    /// The least assignment that is asked for, None exactly where there is none.
    pub witness: Option<Text>,
    /// The report of the query, if it has one.
    pub report: Option<Report>,
    /// Whether the answer is that of the first backed record.
    pub reused: bool,
}

impl Found1 {
    /// The same answer once more. O(bytes).
    pub fn copy(&self, alloc: Global) -> Result<Found1, NoMemory>
        ensures { IfOk result (λ found. found ≡ self.now) }
    {
        let query = self.query.copy(alloc)?;
        let answer = self.answer.copy(alloc)?;
        let witness = copied_text(alloc, &self.witness)?;
        let report = copied_report(alloc, &self.report)?;
        Ok(Found1 {
            query,
            answer,
            witness,
            report,
            reused: self.reused,
        })
    }
}

fn copied_text(alloc: Global, text: &Option<Text>) -> Result<Option<Text>, NoMemory>
    ensures { IfOk result (λ copy. copy ≡ text.now) }
{
    match text {
        None => Ok(None),
        Some(text) => Ok(Some(text.copy(alloc)?)),
    }
}

fn copied_report(alloc: Global, report: &Option<Report>) -> Result<Option<Report>, NoMemory>
    ensures { IfOk result (λ copy. copy ≡ report.now) }
{
    match report {
        None => Ok(None),
        Some(report) => Ok(Some(report.copy(alloc)?)),
    }
}

/// The answer as it is handed out.
pub(crate) fn found_at(
    alloc: Global,
    judged: &JudgedPkg<'_>,
    class: Class,
    lowered: &Query,
    answer: Answer,
) -> Result<Found1, NoMemory>
    requires lowered { IsQuery (gates_of (query_of (case_of judged.now) class)) (flags_of (query_of (case_of judged.now) class)) (items_of (query_of (case_of judged.now) class)) (preferred_of (query_of (case_of judged.now) class)) lowered.now }
    requires so { IsSo (gates_of (query_of (case_of judged.now) class)) answer.claim }
    requires backed { Backs (gates_of (query_of (case_of judged.now) class)) answer.claim }
    ensures query { IfOk result (λ f. f.query ≡ gates_bytes (query_of (case_of judged.now) class)) }
    ensures formed { IfOk result (λ f. IsAnswerTo (gates_of (query_of (case_of judged.now) class)) answer.claim) }
    ensures answer { IfOk result (λ f. f.answer ≡ answer_bytes (gates_of (query_of (case_of judged.now) class)) answer.claim) }
    ensures witness { IfOk result (λ f. f.witness ≡ option_map (witness_of (query_of (case_of judged.now) class)) (least_of (query_of (case_of judged.now) class))) }
    ensures report { IfOk result (λ f. f.report ≡ query_report (query_of (case_of judged.now) class)) }
    ensures reused { IfOk result (λ f. f.reused ≡ answer.reused) }
{
    gates_law();
    naming_law();
    let Answer { claim, reused } = answer;
    let query = gate_bytes(alloc, &lowered.gates)?;
    let answer = write_answer(alloc, clause_count(&lowered.gates), &claim)?;
    let found = into_found(claim);
    let witness = found_text(alloc, lowered, &found)?;
    let report = report_of(alloc, judged, class, lowered, &found)?;
    Ok(Found1 {
        query,
        answer,
        witness,
        report,
        reused,
    })
}

/// The answer to the query of this name, which is one of those of the repository under the options. It is lowered once, and
/// solved where no record is backed.
#[tactic(auto, using(crate::proofs::NamedLemmas::answers_named))]
pub fn ask_one<L: Ledger>(
    alloc: Global,
    repo: &Repo,
    name: &QueryName,
    options: &Options,
    certs: &Known,
    steps: &mut Steps<L>,
) -> Result<Found1, JudgeFault>
    requires { HasNamed options.now repo.now name.now }
    ensures answers { AnswersNamed options.now certs.now repo.now name.now result }
    ensures counted { CountsOne result steps.old steps.new }
{
    let judged = find_named(repo, name, options);
    answer_case(alloc, &judged, name.class, options, certs, steps)
}

// The words of what was found, if anything was.
fn found_text(alloc: Global, query: &Query, found: &Option<Bits>) -> Result<Option<Text>, NoMemory>
    ensures { IfOk result (λ text. text ≡ option_map (λ bits. joined (witness_words query.now.flags (values_by query.now.preferred bits))) found.now) }
{
    match found {
        None => Ok(None),
        Some(bits) => Ok(Some(witness_of(alloc, query, bits)?)),
    }
}

// The answer to the query among the candidates.
fn answer_at<F: Fn(&Pkg) -> bool, L: Ledger>(
    alloc: Global,
    candidates: &Candidates<'_, F>,
    judged: &JudgedPkg<'_>,
    class: Class,
    options: &Options,
    certs: &Known,
    steps: &mut Steps<L>,
) -> Result<Found1, JudgeFault>
    requires around { AreAround (F.pre (test_of candidates.now)) (F.post (test_of candidates.now)) candidates.now judged.now }
    requires has { has_query (case_of judged.now) class ≡ true }
    ensures answers { AnswersOne options.now.budget certs.now (query_of (case_of judged.now) class) result }
    ensures counted { CountsOne result steps.old steps.new }
{
    let lowered = match lowered(alloc, candidates, judged, class, steps) {
        Ok(lowered) => lowered,
        Err(fault) => return Err(fault),
    };
    let answer = match answer_of(alloc, &lowered.gates, options.budget, certs, steps) {
        Ok(answer) => answer,
        Err(AskFault::Spent { sets }) => {
            drop(lowered);
            let name = name_of(judged, class);
            return Err(JudgeFault::Spent { name, sets });
        }
        Err(AskFault::NoMemory) => {
            drop(lowered);
            return Err(JudgeFault::NoMemory);
        }
    };
    let found = found_at(alloc, judged, class, &lowered, answer);
    drop(lowered);
    match found {
        Ok(found) => Ok(found),
        Err(NoMemory) => Err(JudgeFault::NoMemory),
    }
}

// The answer to the query of a package in a context.
fn answer_case<L: Ledger>(
    alloc: Global,
    judged: &JudgedPkg<'_>,
    class: Class,
    options: &Options,
    certs: &Known,
    steps: &mut Steps<L>,
) -> Result<Found1, JudgeFault>
    requires numbered { IsNumbered judged.now }
    requires has { has_query (case_of judged.now) class ≡ true }
    ensures answers { AnswersOne options.now.budget certs.now (query_of (case_of judged.now) class) result }
    ensures counted { CountsOne result steps.old steps.new }
{
    let profile = judged.profile;
    let level = judged.level;
    let test = |pkg: &Pkg| visible(pkg, profile, level);
    let candidates = match Candidates::new(alloc, judged.pkgs, profile, level, test) {
        Ok(candidates) => candidates,
        Err(NoMemory) => return Err(JudgeFault::NoMemory),
    };
    answer_at(alloc, &candidates, judged, class, options, certs, steps)
}
