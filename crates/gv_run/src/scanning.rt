//! A scan: takes the certificates of before, reads a repository, judges it, keeps the certificates and writes the reports.
//! The store is read before the tree and replaced once, after all queries were answered; nothing is written before.
ghost use Rattle.std.specs.Prelude.{◌≡◌, ◌≤◌, IfOk, IfErr};
ghost use Rattle.gv_words.specs.declared.command.Command.TheVariants as commands;
ghost use Rattle.gv_ending.specs.Causes.{Why};
ghost use Rattle.gv_run.specs.Performs.{Performs};
ghost use Rattle.gv_run.specs.ScanSteps.{HasLeft, leave_causes, writing};
ghost use Rattle.gv_ending.specs.World.{Fed, world};

use crate::answering::{Answers, answer_root};
use gv_base::{Ledger, Sink, Steps, Store, Text, Tree};
use gv_ending::{Refusal, given, keep, write};
use gv_words::Asked;
use std::alloc::Global;

/// Scans, and answers whether there are reports.
#[tactic(auto, using(crate::proofs::Scanned::unfetched, crate::proofs::Scanned::unanswered))]
pub(crate) fn scan<T: Tree, K: Store, S: Sink, L: Ledger>(
    alloc: Global,
    asked: &Asked,
    tree: &mut T,
    store: &mut K,
    out: &mut S,
    steps: &mut Steps<L>,
) -> Result<bool, Refusal>
    ensures performs { (input : Fed) → Performs (commands.Scan asked.now)
        (world (T.files tree.old) (T.faults tree.old) (K.files store.old) (K.faults store.old) (S.held out.old) (S.faults out.old) steps.old)
        (world (T.files tree.new) (T.faults tree.new) (K.files store.new) (K.faults store.new) (S.held out.new) (S.faults out.new) steps.new)
        input result }
    ensures root { T.entered tree.new ≡ T.entered tree.old }
{
    let given = given(alloc, asked.fresh, &asked.certs, store)?;
    let answers = answer_root(alloc, asked, &given, tree, steps)?;
    leave(alloc, &asked.certs, &answers, store, out)
}

/// Keeps the file, and then writes the text; answers whether it has bytes.
#[tactic(auto, using(crate::proofs::Leaving::unkept, crate::proofs::Leaving::unwritten))]
pub(crate) fn leave<K: Store, S: Sink>(
    alloc: Global,
    path: &Text,
    answers: &Answers,
    store: &mut K,
    out: &mut S,
) -> Result<bool, Refusal>
    ensures left { IfOk result (HasLeft path.now answers.now (writing (K.files store.old) (K.files store.new) (K.faults store.old) (K.faults store.new) (S.held out.old) (S.held out.new) (S.faults out.old) (S.faults out.new))) }
    ensures cause { IfErr result (Why (leave_causes path.now answers.now (writing (K.files store.old) (K.files store.new) (K.faults store.old) (K.faults store.new) (S.held out.old) (S.held out.new) (S.faults out.old) (S.faults out.new)))) }
    ensures store_later { K.faults store.old ≤ K.faults store.new }
    ensures out_later { S.faults out.old ≤ S.faults out.new }
{
    keep(alloc, path, &answers.file, store)?;
    write(out, &answers.text)?;
    Ok(!answers.text.bytes().is_empty())
}
