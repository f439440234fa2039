//! The answers of a scan: a repository read and judged, as the text of its reports and the file of its certificates.
//!
//! Besides what `load` and `judge` cost, O(the bytes of both).
ghost use Rattle.std.specs.Prelude.{◌≡◌, ◌≤◌, IfOk, IfErr, OnOk};
ghost use Rattle.gv_report.specs.Emitted.{emitted};
ghost use Rattle.gv_base.specs.Causes.{Rose};
ghost use Rattle.gv_checks.specs.Answered.{IsJudged};
ghost use Rattle.gv_checks.specs.Queries.{queries};
ghost use Rattle.gv_checks.specs.RepoReports.{scan_text};
ghost use Rattle.gv_load.specs.OwnLines.{HaveOwnLines};
ghost use Rattle.gv_ending.specs.Causes.{Why, of_queries, of_reading};
ghost use Rattle.gv_run.specs.Scan.{IsLoaded};
ghost use Rattle.gv_run.specs.ScanSteps.{AreAnswersOf, HasAnswers, IsUnanswered, IsUnread, answer_causes, reading};
ghost use Rattle.gv_run.specs.Scanning.{scan_of};

use crate::refusing::{judge_refusal, load_refusal};
use gv_base::{Ledger, NoMemory, Steps, Text, Tree};
use gv_cert::{Known, write_known};
use gv_checks::{Judged, gates_law, judge, names_law, records_law};
use gv_ending::Refusal;
use gv_load::{Repo, load};
use gv_report::{Emitter, Options, Report, Reports, selected, selected_law};
use gv_words::Asked;
use std::alloc::Global;

/// What a scan answers.
#[derive(Drop)]
pub struct Answers {
    /// The text of the reports.
    pub text: Text,
    /// The file of the certificates.
    pub file: Text,
}

/// The repository that stands in the tree.
#[tactic(auto, using(crate::proofs::AnswerLemmas::unread))]
pub(crate) fn read<T: Tree>(alloc: Global, tree: &mut T) -> Result<Repo, Refusal>
    ensures repo { IfOk result (IsLoaded (T.files tree.old)) }
    ensures own { IfOk result (λ repo. HaveOwnLines repo.profiles) }
    ensures cause { IfErr result (Why (of_reading (Rose (T.faults tree.old) (T.faults tree.new)) (IsUnread (T.files tree.old) (T.faults tree.old) (T.faults tree.new)))) }
    ensures files { T.files tree.new ≡ T.files tree.old }
    ensures root { T.entered tree.new ≡ T.entered tree.old }
    ensures later { T.faults tree.old ≤ T.faults tree.new }
    ensures calm { OnOk result (T.faults tree.new ≡ T.faults tree.old) }
{
    match load(alloc, tree) {
        Ok(repo) => Ok(repo),
        Err(fault) => Err(load_refusal(fault)),
    }
}

/// The text of the reports that the options select.
pub(crate) fn text_of(alloc: Global, options: &Options, reports: &Reports) -> Result<Text, NoMemory>
    ensures { IfOk result (λ text. text ≡ emitted options.now reports.now) }
{
    let test = |report: &Report| selected(options, report);
    Emitter::new(options, test).emit(alloc, reports)
}

/// The answers of the repository that stands in the tree, by records that are given where these are backed.
#[tactic(auto, using(crate::proofs::AnswerLemmas::not_read, crate::proofs::AnswerLemmas::not_judged, crate::proofs::AnswerLemmas::has_answers))]
pub(crate) fn answer_root<T: Tree, L: Ledger>(
    alloc: Global,
    asked: &Asked,
    given: &Known,
    tree: &mut T,
    steps: &mut Steps<L>,
) -> Result<Answers, Refusal>
    ensures answers { IfOk result (HasAnswers (scan_of asked.now (T.files tree.old)) given.now (reading (T.faults tree.old) (T.faults tree.new) steps.old steps.new)) }
    ensures cause { IfErr result (Why (answer_causes (scan_of asked.now (T.files tree.old)) given.now (reading (T.faults tree.old) (T.faults tree.new) steps.old steps.new))) }
    ensures files { T.files tree.new ≡ T.files tree.old }
    ensures root { T.entered tree.new ≡ T.entered tree.old }
    ensures later { T.faults tree.old ≤ T.faults tree.new }
{
    let repo = read(alloc, tree)?;
    answers_of(alloc, repo, &asked.options, given, steps)
}

fn judged<L: Ledger>(
    alloc: Global,
    repo: &Repo,
    options: &Options,
    given: &Known,
    steps: &mut Steps<L>,
) -> Result<Judged, Refusal>
    requires own { HaveOwnLines repo.now.profiles }
    ensures judged { IfOk result (IsJudged options.now given.now repo.now steps.old steps.new) }
    ensures cause { IfErr result (Why (of_queries (IsUnanswered options.now.budget given.now repo.now (queries options.now repo.now)))) }
{
    names_law();
    match judge(alloc, repo, options, given, steps) {
        Ok(judged) => Ok(judged),
        Err(fault) => Err(judge_refusal(alloc, fault, repo)),
    }
}

// What isn't needed any more is given back before the text and the file are made.
#[tactic(auto, using(crate::proofs::AnswerLemmas::are_answers))]
fn answers_of<L: Ledger>(
    alloc: Global,
    repo: Repo,
    options: &Options,
    given: &Known,
    steps: &mut Steps<L>,
) -> Result<Answers, Refusal>
    requires own { HaveOwnLines repo.profiles }
    ensures answers { IfOk result (AreAnswersOf options.now.budget given.now (queries options.now repo) (scan_text options.now repo) steps.old steps.new) }
    ensures cause { IfErr result (Why (of_queries (IsUnanswered options.now.budget given.now repo (queries options.now repo)))) }
{
    selected_law();
    gates_law();
    records_law();
    let judged = match judged(alloc, &repo, options, given, steps) {
        Ok(judged) => judged,
        Err(refusal) => {
            drop(repo);
            return Err(refusal);
        }
    };
    drop(repo);
    let Judged {
        reports,
        certs,
        queries: _,
    } = judged;
    let text = text_of(alloc, options, &reports)?;
    drop(reports);
    let file = write_known(alloc, &certs)?;
    Ok(Answers { text, file })
}
