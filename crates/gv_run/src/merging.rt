//! A merge: the certificates of files are taken, the repository is read, and where each query has one that holds, the certificates are
//! kept and the reports written. Nothing is solved.
//!
//! Costs what `load` and gv_merge's `merge` cost, and O(the bytes of all files).
ghost use Rattle.std.specs.Prelude.{◌≡◌, ◌≤◌, IfOk, IfErr};
ghost use Rattle.gv_checks.specs.Queries.{queries};
ghost use Rattle.gv_checks.specs.RepoReports.{scan_text};
ghost use Rattle.gv_words.specs.declared.command.Command.TheVariants as commands;
ghost use Rattle.gv_ending.specs.Causes.{Why, of_queries};
ghost use Rattle.gv_run.specs.Naming.{TellsLacking};
ghost use Rattle.gv_run.specs.Performs.{Performs};
ghost use Rattle.gv_run.specs.Refusing.{HandsMerge};
ghost use Rattle.gv_run.specs.ScanSteps.{AreAnswersOf, HasAnswers, answer_causes, reading};
ghost use Rattle.gv_run.specs.Scanning.{merge_of};
ghost use Rattle.gv_ending.specs.World.{Fed, world};

use crate::answering::{Answers, read, text_of};
use crate::scanning::leave;
use gv_base::{Ledger, Sink, Steps, Store, Tree};
use gv_cert::{Known, write_known};
use gv_checks::{certs_law, gates_law};
use gv_ending::{Refusal, fetch_joined};
use gv_load::Repo;
use gv_merge::{MergeFault, merge};
use gv_report::selected_law;
use gv_words::Merging;
use std::alloc::Global;

/// Merges, and answers whether there are reports.
#[tactic(auto, using(crate::proofs::Parted::merge_unfetched, crate::proofs::Parted::merge_unanswered, crate::proofs::Parted::merge_left_from))]
pub(crate) fn merge_parts<T: Tree, K: Store, S: Sink, L: Ledger>(
    alloc: Global,
    merging: &Merging,
    tree: &mut T,
    store: &mut K,
    out: &mut S,
    steps: &mut Steps<L>,
) -> Result<bool, Refusal>
    ensures performs { (input : Fed) → Performs (commands.Merge merging.now)
        (world (T.files tree.old) (T.faults tree.old) (K.files store.old) (K.faults store.old) (S.held out.old) (S.faults out.old) steps.old)
        (world (T.files tree.new) (T.faults tree.new) (K.files store.new) (K.faults store.new) (S.held out.new) (S.faults out.new) steps.new)
        input result }
    ensures root { T.entered tree.new ≡ T.entered tree.old }
{
    let given = fetch_joined(alloc, merging.from.items(), store)?;
    let answers = merge_root(alloc, merging, &given, tree, steps)?;
    leave(alloc, &merging.certs, &answers, store, out)
}

// The answers of the repository that stands in the tree, by records alone.
#[tactic(auto, using(crate::proofs::Parted::merge_not_read, crate::proofs::Parted::not_merged, crate::proofs::Parted::merge_has_answers))]
fn merge_root<T: Tree, L: Ledger>(
    alloc: Global,
    merging: &Merging,
    given: &Known,
    tree: &mut T,
    steps: &mut Steps<L>,
) -> Result<Answers, Refusal>
    ensures answers { IfOk result (HasAnswers (merge_of merging.now (T.files tree.old)) given.now (reading (T.faults tree.old) (T.faults tree.new) steps.old steps.new)) }
    ensures cause { IfErr result (Why (answer_causes (merge_of merging.now (T.files tree.old)) given.now (reading (T.faults tree.old) (T.faults tree.new) steps.old steps.new))) }
    ensures files { T.files tree.new ≡ T.files tree.old }
    ensures root { T.entered tree.new ≡ T.entered tree.old }
    ensures later { T.faults tree.old ≤ T.faults tree.new }
    ensures unsolved { steps.new.solve ≡ steps.old.solve }
{
    let repo = read(alloc, tree)?;
    let answers = merged(alloc, &repo, merging, given, steps);
    drop(repo);
    answers
}

#[tactic(auto, using(crate::proofs::Parted::unmerged, crate::proofs::Parted::are_merged))]
fn merged<L: Ledger>(
    alloc: Global,
    repo: &Repo,
    merging: &Merging,
    given: &Known,
    steps: &mut Steps<L>,
) -> Result<Answers, Refusal>
    ensures answers { IfOk result (AreAnswersOf 0 given.now (queries merging.now.options repo.now) (scan_text merging.now.options repo.now) steps.old steps.new) }
    ensures cause { IfErr result (Why (of_queries (TellsLacking given.now (queries merging.now.options repo.now) merging.now.parts))) }
    ensures unsolved { steps.new.solve ≡ steps.old.solve }
{
    selected_law();
    gates_law();
    certs_law();
    let options = &merging.options;
    let parts = merging.parts;
    let merged = match merge(alloc, repo, options, parts, given, steps) {
        Ok(merged) => merged,
        Err(fault) => return Err(merge_refusal(fault, parts)),
    };
    let text = text_of(alloc, options, &merged.reports)?;
    let file = write_known(alloc, &merged.certs)?;
    Ok(Answers { text, file })
}

fn merge_refusal(fault: MergeFault, parts: u32) -> Refusal
    ensures { HandsMerge parts fault result }
{
    match fault {
        MergeFault::NotBacked { query, part } => Refusal::Lacks { part, parts, query },
        MergeFault::Limit { place, number } => Refusal::Limit { place, number },
        MergeFault::NoMemory => Refusal::NoMemory,
    }
}
