//! A scan of a part: its queries are answered and their certificates kept. Nothing is written.
ghost use Rattle.std.specs.Prelude.{◌≡◌, ◌≤◌, ℕ, List, [], Option, IfOk, IfErr};
ghost use Rattle.gv_base.specs.Causes.{Rose};
ghost use Rattle.gv_load.specs.OwnLines.{HaveOwnLines};
ghost use Rattle.gv_merge.specs.Parts.{part_queries};
ghost use Rattle.gv_words.specs.declared.command.Command.TheVariants as commands;
ghost use Rattle.gv_ending.specs.Causes.{Why, of_queries};
ghost use Rattle.gv_run.specs.Performs.{Performs};
ghost use Rattle.gv_run.specs.ScanSteps.{HasAnswers, IsFileOf, IsUnanswered, answer_causes, reading};
ghost use Rattle.gv_run.specs.Scanning.{part_scan_of};
ghost use Rattle.gv_ending.specs.World.{Fed, world};

use crate::answering::read;
use crate::refusing::judge_refusal;
use gv_base::{Ledger, Steps, Store, Text, Tree};
use gv_cert::{Known, write_known};
use gv_checks::{certs_law, gates_law, names_law};
use gv_ending::{Refusal, given, keep};
use gv_load::Repo;
use gv_merge::judge_part;
use gv_report::Options;
use gv_words::{Asked, Share};
use std::alloc::Global;

/// Scans a part. It has no reports.
#[tactic(auto, using(crate::proofs::Parted::part_unfetched, crate::proofs::Parted::part_unanswered, crate::proofs::Parted::part_unkept, crate::proofs::Parted::part_left))]
pub(crate) fn scan_part<T: Tree, K: Store, L: Ledger>(
    alloc: Global,
    asked: &Asked,
    share: &Share,
    tree: &mut T,
    store: &mut K,
    steps: &mut Steps<L>,
) -> Result<bool, Refusal>
    ensures performs { (input : Fed) (out : Option (List ℕ)) (out_faults : ℕ) → Performs (commands.Part asked.now share.now)
        (world (T.files tree.old) (T.faults tree.old) (K.files store.old) (K.faults store.old) out out_faults steps.old)
        (world (T.files tree.new) (T.faults tree.new) (K.files store.new) (K.faults store.new) out out_faults steps.new)
        input result }
    ensures root { T.entered tree.new ≡ T.entered tree.old }
{
    let given = given(alloc, asked.fresh, &asked.certs, store)?;
    let file = part_file(alloc, asked, share, &given, tree, steps)?;
    keep(alloc, &asked.certs, &file, store)?;
    Ok(false)
}

// The file of the certificates of the part, of the repository that stands in the tree.
#[tactic(auto, using(crate::proofs::Parted::part_not_read, crate::proofs::Parted::part_not_judged, crate::proofs::Parted::part_has_answers))]
fn part_file<T: Tree, L: Ledger>(
    alloc: Global,
    asked: &Asked,
    share: &Share,
    given: &Known,
    tree: &mut T,
    steps: &mut Steps<L>,
) -> Result<Text, Refusal>
    ensures answers { IfOk result (λ file. HasAnswers (part_scan_of asked.now share.now (T.files tree.old)) given.now (reading (T.faults tree.old) (T.faults tree.new) steps.old steps.new) (record { text = []; file = file })) }
    ensures cause { IfErr result (Why (answer_causes (part_scan_of asked.now share.now (T.files tree.old)) given.now (reading (T.faults tree.old) (T.faults tree.new) steps.old steps.new))) }
    ensures files { T.files tree.new ≡ T.files tree.old }
    ensures root { T.entered tree.new ≡ T.entered tree.old }
    ensures later { T.faults tree.old ≤ T.faults tree.new }
{
    let repo = read(alloc, tree)?;
    let file = file_of(alloc, &repo, &asked.options, share, given, steps);
    drop(repo);
    file
}

#[tactic(auto, using(crate::proofs::Parted::part_unjudged, crate::proofs::Parted::is_file_of))]
fn file_of<L: Ledger>(
    alloc: Global,
    repo: &Repo,
    options: &Options,
    share: &Share,
    given: &Known,
    steps: &mut Steps<L>,
) -> Result<Text, Refusal>
    requires own { HaveOwnLines repo.now.profiles }
    ensures file { IfOk result (IsFileOf options.now.budget given.now (part_queries share.now.part share.now.parts options.now repo.now) steps.old steps.new) }
    ensures cause { IfErr result (Why (of_queries (IsUnanswered options.now.budget given.now repo.now (part_queries share.now.part share.now.parts options.now repo.now)))) }
{
    names_law();
    gates_law();
    certs_law();
    let (part, parts) = (share.part, share.parts);
    match judge_part(alloc, repo, options, part, parts, given, steps) {
        Ok(answers) => Ok(write_known(alloc, &answers.certs)?),
        Err(fault) => Err(judge_refusal(alloc, fault, repo)),
    }
}
