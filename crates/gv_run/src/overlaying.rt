//! A scan of an overlay: as a scan, over the overlay with its masters and for its packages alone.
//!
//! Besides what `load_overlay` and `judge_own` cost, O(the bytes of the text and of the file).
ghost use Rattle.std.specs.Prelude.{◌≡◌, ◌≤◌, IfOk, IfErr, OnOk};
ghost use Rattle.gv_base.specs.Causes.{Rose};
ghost use Rattle.gv_load.specs.OwnLines.{HaveOwnLines};
ghost use Rattle.gv_overlay.specs.Judged.{IsOwnJudged, overlay_queries, overlay_text};
ghost use Rattle.gv_words.specs.declared.command.Command.TheVariants as commands;
ghost use Rattle.gv_ending.specs.Causes.{Why, of_queries, of_reading};
ghost use Rattle.gv_run.specs.Overlaying.{IsNotOverlaid, IsOverlaid, overlay_of};
ghost use Rattle.gv_run.specs.Performs.{Performs};
ghost use Rattle.gv_run.specs.ScanSteps.{AreAnswersOf, HasAnswers, IsUnanswered, IsUnreadBy, answer_causes, reading};
ghost use Rattle.gv_ending.specs.World.{Fed, world};

use crate::answering::{Answers, text_of};
use crate::refusing::{judge_refusal, overlay_refusal};
use crate::scanning::leave;
use gv_base::{Ledger, Sink, Steps, Store, Text, Tree};
use gv_cert::{Known, write_known};
use gv_checks::{Judged, gates_law, packages_law, records_law};
use gv_ending::{Refusal, given};
use gv_overlay::{Overlay, judge_own, load_overlay};
use gv_report::{Options, selected_law};
use gv_words::OverlayScan;
use std::alloc::Global;

/// Scans, and answers whether there are reports.
#[tactic(auto, using(crate::proofs::Overlaid::unfetched, crate::proofs::Overlaid::unanswered))]
pub(crate) fn scan_overlay<T: Tree, K: Store, S: Sink, L: Ledger>(
    alloc: Global,
    scan: &OverlayScan,
    tree: &mut T,
    store: &mut K,
    out: &mut S,
    steps: &mut Steps<L>,
) -> Result<bool, Refusal>
    ensures performs { (input : Fed) → Performs (commands.Overlay scan.now)
        (world (T.files tree.old) (T.faults tree.old) (K.files store.old) (K.faults store.old) (S.held out.old) (S.faults out.old) steps.old)
        (world (T.files tree.new) (T.faults tree.new) (K.files store.new) (K.faults store.new) (S.held out.new) (S.faults out.new) steps.new)
        input result }
    ensures root { T.entered tree.new ≡ T.entered tree.old }
{
    let given = given(alloc, scan.asked.fresh, &scan.asked.certs, store)?;
    let answers = answer_overlay(alloc, scan, &given, tree, steps)?;
    leave(alloc, &scan.asked.certs, &answers, store, out)
}

// The answers of the overlay, by records that are given where these are backed.
#[tactic(auto, using(crate::proofs::Overlaid::not_read, crate::proofs::Overlaid::not_judged, crate::proofs::Overlaid::has_answers))]
fn answer_overlay<T: Tree, L: Ledger>(
    alloc: Global,
    scan: &OverlayScan,
    given: &Known,
    tree: &mut T,
    steps: &mut Steps<L>,
) -> Result<Answers, Refusal>
    ensures answers { IfOk result (HasAnswers (overlay_of scan.now (T.files tree.old)) given.now (reading (T.faults tree.old) (T.faults tree.new) steps.old steps.new)) }
    ensures cause { IfErr result (Why (answer_causes (overlay_of scan.now (T.files tree.old)) given.now (reading (T.faults tree.old) (T.faults tree.new) steps.old steps.new))) }
    ensures files { T.files tree.new ≡ T.files tree.old }
    ensures root { T.entered tree.new ≡ T.entered tree.old }
    ensures later { T.faults tree.old ≤ T.faults tree.new }
{
    let over = read(alloc, tree, &scan.repo)?;
    answers_of(alloc, over, &scan.asked.options, given, steps)
}

// The overlay of this name, with its masters.
#[tactic(auto, using(crate::proofs::Overlaid::unread))]
fn read<T: Tree>(alloc: Global, tree: &mut T, name: &Text) -> Result<Overlay, Refusal>
    ensures over { IfOk result (IsOverlaid (T.files tree.old) name.now) }
    ensures own { IfOk result (λ over. HaveOwnLines over.repo.profiles) }
    ensures cause { IfErr result (Why (of_reading (Rose (T.faults tree.old) (T.faults tree.new)) (IsUnreadBy (IsNotOverlaid (T.files tree.old) name.now) (T.faults tree.old) (T.faults tree.new)))) }
    ensures files { T.files tree.new ≡ T.files tree.old }
    ensures root { T.entered tree.new ≡ T.entered tree.old }
    ensures later { T.faults tree.old ≤ T.faults tree.new }
    ensures calm { OnOk result (T.faults tree.new ≡ T.faults tree.old) }
{
    match load_overlay(alloc, tree, name) {
        Ok(over) => Ok(over),
        Err(fault) => Err(overlay_refusal(fault)),
    }
}

fn judged<L: Ledger>(
    alloc: Global,
    over: &Overlay,
    options: &Options,
    given: &Known,
    steps: &mut Steps<L>,
) -> Result<Judged, Refusal>
    requires own { HaveOwnLines over.now.repo.profiles }
    ensures judged { IfOk result (IsOwnJudged options.now given.now over.now steps.old steps.new) }
    ensures cause { IfErr result (Why (of_queries (IsUnanswered options.now.budget given.now over.now.repo (overlay_queries options.now over.now)))) }
{
    packages_law();
    match judge_own(alloc, over, options, given, steps) {
        Ok(judged) => Ok(judged),
        Err(fault) => Err(judge_refusal(alloc, fault, &over.repo)),
    }
}

// What isn't needed any more is given back before the text and the file are made.
#[tactic(auto, using(crate::proofs::Overlaid::are_answers))]
fn answers_of<L: Ledger>(
    alloc: Global,
    over: Overlay,
    options: &Options,
    given: &Known,
    steps: &mut Steps<L>,
) -> Result<Answers, Refusal>
    requires own { HaveOwnLines over.repo.profiles }
    ensures answers { IfOk result (AreAnswersOf options.now.budget given.now (overlay_queries options.now over) (overlay_text options.now over) steps.old steps.new) }
    ensures cause { IfErr result (Why (of_queries (IsUnanswered options.now.budget given.now over.repo (overlay_queries options.now over)))) }
{
    selected_law();
    gates_law();
    records_law();
    let judged = match judged(alloc, &over, options, given, steps) {
        Ok(judged) => judged,
        Err(refusal) => {
            drop(over);
            return Err(refusal);
        }
    };
    drop(over);
    let Judged {
        reports,
        certs,
        queries: _,
    } = judged;
    let text = text_of(alloc, options, &reports)?;
    drop(reports);
    let file = write_known(alloc, &certs)?;
    Ok(Answers { text, file })
}
