//! The reports of the edited files: judged anew, or renewed from those of the last report.
//!
//! Judging anew costs what `load_counted`, `judge` and `Mentioned::of` cost. After edits of entries alone a report costs what `reread_entries` and
//! `renew` cost; where it isn't told by these entries alone what they come to, what `load_counted`, `with_entries` and `renew` cost.
ghost use Rattle.std.specs.Prelude.{◌≡◌, ◌<◌, ◌≤◌, Some, length, IfOk, IfErr, IfSome, OnOk};
ghost use Rattle.gv_reload.specs.EntryEdits.{IsPartOf};
ghost use Rattle.gv_load.specs.Repository.{AreInPackageOrder};
ghost use Rattle.gv_load.specs.declared.loading.Repo.{Repo};
ghost use Rattle.gv_report.specs.Distinct.{ordered};
ghost use Rattle.gv_renew.specs.Mentioned.{other_bodies};
ghost use Rattle.gv_renew.specs.Renewal.{AreOfBefore};
ghost use Rattle.gv_session.specs.Due.{new_paths};
ghost use Rattle.gv_session.specs.Judging.{IsAgain, IsAll, IsAnew, IsJudgedFor, IsRefusedFor, outset, seen_by};
ghost use Rattle.gv_session.specs.Session.{CauseFor, IsLast, JudgeCause};
ghost use Rattle.gv_session.specs.Small.{AreSmall};

use crate::fault::{judge_fault, load_fault};
use crate::reporting::{load_edited, reread_edited};
use crate::small::small_edits;
use crate::{Last, SessionFault};
use gv_base::{Ledger, Steps, Tree};
use gv_cert::Known;
use gv_checks::{Judged, judge};
use gv_edits::Edits;
use gv_load::Loaded;
use gv_reload::{Changed, EntryEdits, Reread, entries_law, with_entries};
use gv_renew::{Mentioned, renew};
use gv_report::{Options, Reports, ordered_law};
use std::alloc::Global;

/// The reports of the tree's files with the edits, and what they are told of. Where no edit came behind the last report they are
/// its own; where all of these are small, they are its own renewed.
#[tactic(auto, using(crate::proofs::JudgingLemmas::unchanged, crate::proofs::JudgingLemmas::all_first, crate::proofs::JudgingLemmas::all_large))]
pub(crate) fn judge_edited<T: Tree, L: Ledger>(
    alloc: Global,
    last: Option<Last>,
    tree: &mut T,
    edits: &Edits,
    options: &Options,
    steps: &mut Steps<L>,
) -> Result<Last, SessionFault>
    requires last { IfSome last (IsLast options.now edits.now (T.files tree.old)) }
    ensures judged { IfOk result (IsJudgedFor (outset options.now edits.now (T.files tree.old) (seen_by last) steps.old) steps.new) }
    ensures cause { IfErr result (IsRefusedFor (outset options.now edits.now (T.files tree.old) (seen_by last) steps.old) (T.faults tree.old) (T.faults tree.new) steps.new) }
    ensures files { T.files tree.new ≡ T.files tree.old }
    ensures root { T.entered tree.new ≡ T.entered tree.old }
    ensures lent { T.lent tree.new ≡ T.lent tree.old }
    ensures later { T.faults tree.old ≤ T.faults tree.new }
    ensures calm { OnOk result (T.faults tree.new ≡ T.faults tree.old) }
{
    entries_law();
    let Some(last) = last else {
        return judge_all(alloc, tree, edits, options, steps);
    };
    if last.seen >= edits.len() {
        return Ok(last);
    }
    let Some(entries) = small_edits(alloc, &last.loaded.folders, edits, last.seen)? else {
        return judge_all(alloc, tree, edits, options, steps);
    };
    judge_small(alloc, last, &entries, tree, edits, options, steps)
}

// All anew.
#[tactic(auto, using(crate::proofs::CauseLemmas::load_cause, crate::proofs::CauseLemmas::refused_all, crate::proofs::JudgingLemmas::all_judged))]
fn judge_all<T: Tree, L: Ledger>(
    alloc: Global,
    tree: &mut T,
    edits: &Edits,
    options: &Options,
    steps: &mut Steps<L>,
) -> Result<Last, SessionFault>
    ensures judged { IfOk result (IsAll options.now edits.now (T.files tree.old) steps.old steps.new) }
    ensures cause { IfErr result (CauseFor options.now edits.now (T.files tree.old) (T.faults tree.old) (T.faults tree.new) steps.old steps.new) }
    ensures files { T.files tree.new ≡ T.files tree.old }
    ensures root { T.entered tree.new ≡ T.entered tree.old }
    ensures lent { T.lent tree.new ≡ T.lent tree.old }
    ensures later { T.faults tree.old ≤ T.faults tree.new }
    ensures calm { OnOk result (T.faults tree.new ≡ T.faults tree.old) }
{
    match load_edited(alloc, tree, edits) {
        Ok(loaded) => judge_anew(alloc, loaded, edits, options, steps),
        Err(fault) => Err(load_fault(fault)),
    }
}

// After edits of these entries, which alone are read.
#[tactic(auto, using(crate::proofs::CauseLemmas::reread_cause))]
fn judge_small<T: Tree, L: Ledger>(
    alloc: Global,
    last: Last,
    entries: &EntryEdits,
    tree: &mut T,
    edits: &Edits,
    options: &Options,
    steps: &mut Steps<L>,
) -> Result<Last, SessionFault>
    requires last { IsLast options.now edits.now (T.files tree.old) last }
    requires small { AreSmall last.loaded.folders (new_paths edits.now last.seen) (Some entries.now) }
    requires some { last.seen < length edits.now }
    ensures judged { IfOk result (IsJudgedFor (outset options.now edits.now (T.files tree.old) (Some last.seen) steps.old) steps.new) }
    ensures cause { IfErr result (IsRefusedFor (outset options.now edits.now (T.files tree.old) (Some last.seen) steps.old) (T.faults tree.old) (T.faults tree.new) steps.new) }
    ensures files { T.files tree.new ≡ T.files tree.old }
    ensures root { T.entered tree.new ≡ T.entered tree.old }
    ensures lent { T.lent tree.new ≡ T.lent tree.old }
    ensures later { T.faults tree.old ≤ T.faults tree.new }
    ensures calm { OnOk result (T.faults tree.new ≡ T.faults tree.old) }
{
    ordered_law();
    let Last {
        seen,
        loaded: old,
        reports,
        mentioned,
    } = last;
    let kept = mentioned.without(alloc, &old.repo, entries)?;
    match reread_edited(alloc, tree, edits, old, entries) {
        Ok(Reread::Done { loaded }) => judge_again(
            alloc, reports, kept, loaded, entries, edits, options, steps,
        ),
        Ok(Reread::Unclear { loaded }) => {
            let mentioned = kept.with(alloc, &loaded.repo, entries)?;
            let last = Last {
                seen,
                loaded,
                reports,
                mentioned,
            };
            judge_loaded(alloc, last, entries, tree, edits, options, steps)
        }
        Err(fault) => Err(load_fault(fault)),
    }
}

// After edits of these entries, though all is loaded.
#[tactic(auto, using(crate::proofs::CauseLemmas::load_cause))]
fn judge_loaded<T: Tree, L: Ledger>(
    alloc: Global,
    last: Last,
    entries: &EntryEdits,
    tree: &mut T,
    edits: &Edits,
    options: &Options,
    steps: &mut Steps<L>,
) -> Result<Last, SessionFault>
    requires last { IsLast options.now edits.now (T.files tree.old) last }
    requires small { AreSmall last.loaded.folders (new_paths edits.now last.seen) (Some entries.now) }
    requires some { last.seen < length edits.now }
    ensures judged { IfOk result (IsJudgedFor (outset options.now edits.now (T.files tree.old) (Some last.seen) steps.old) steps.new) }
    ensures cause { IfErr result (IsRefusedFor (outset options.now edits.now (T.files tree.old) (Some last.seen) steps.old) (T.faults tree.old) (T.faults tree.new) steps.new) }
    ensures files { T.files tree.new ≡ T.files tree.old }
    ensures root { T.entered tree.new ≡ T.entered tree.old }
    ensures lent { T.lent tree.new ≡ T.lent tree.old }
    ensures later { T.faults tree.old ≤ T.faults tree.new }
    ensures calm { OnOk result (T.faults tree.new ≡ T.faults tree.old) }
{
    entries_law();
    ordered_law();
    let Last {
        loaded: old,
        reports,
        mentioned,
        ..
    } = last;
    let Loaded {
        repo,
        folders,
        found,
    } = match load_edited(alloc, tree, edits) {
        Ok(loaded) => loaded,
        Err(fault) => return Err(load_fault(fault)),
    };
    let kept = mentioned.without(alloc, &old.repo, entries)?;
    match with_entries(alloc, old.repo, repo, entries)? {
        Changed::Part { repo } => {
            let loaded = Loaded {
                repo,
                folders,
                found,
            };
            judge_again(alloc, reports, kept, loaded, entries, edits, options, steps)
        }
        Changed::Other { repo } => {
            let loaded = Loaded {
                repo,
                folders,
                found,
            };
            judge_anew(alloc, loaded, edits, options, steps)
        }
    }
}

#[tactic(auto, using(crate::proofs::CauseLemmas::judge_cause))]
fn judge_anew<L: Ledger>(
    alloc: Global,
    loaded: Loaded,
    edits: &Edits,
    options: &Options,
    steps: &mut Steps<L>,
) -> Result<Last, SessionFault>
    ensures judged { IfOk result (IsAnew options.now loaded edits.now steps.old steps.new) }
    ensures cause { IfErr result (JudgeCause options.now loaded.repo) }
{
    match judge(alloc, &loaded.repo, options, &Known::new(alloc), steps) {
        Ok(judged) => {
            let Judged {
                reports,
                certs: _,
                queries: _,
            } = judged;
            let mentioned = Mentioned::of(alloc, &loaded.repo)?;
            Ok(Last {
                seen: edits.len(),
                loaded,
                reports,
                mentioned,
            })
        }
        Err(fault) => Err(judge_fault(fault, loaded.repo)),
    }
}

// The reports of the last report, renewed after edits of entries, with the names that packages which aren't edited mention.
fn judge_again<L: Ledger>(
    alloc: Global,
    before: Reports,
    kept: Mentioned,
    loaded: Loaded,
    entries: &EntryEdits,
    edits: &Edits,
    options: &Options,
    steps: &mut Steps<L>,
) -> Result<Last, SessionFault>
    requires bodies { length loaded.repo.bodies ≡ length loaded.repo.pkgs }
    requires order { AreInPackageOrder loaded.repo.pkgs }
    requires kept { kept ≡ other_bodies entries.now loaded.repo }
    requires before { ordered before ≡ before }
    ensures judged { (whole : Repo) → IsPartOf entries.now loaded.repo whole → AreOfBefore options.now entries.now whole before
        → IfOk result (IsAgain options.now entries.now loaded whole edits.now steps.old steps.new) }
    ensures cause { (whole : Repo) → IsPartOf entries.now loaded.repo whole → AreOfBefore options.now entries.now whole before → IfErr result (JudgeCause options.now whole) }
{
    let Ok(mentioned) = kept.with(alloc, &loaded.repo, entries) else {
        return Err(SessionFault::NoMemory);
    };
    match renew(
        alloc,
        &loaded.repo,
        options,
        entries,
        &mentioned,
        before,
        steps,
    ) {
        Ok(reports) => Ok(Last {
            seen: edits.len(),
            loaded,
            reports,
            mentioned,
        }),
        Err(fault) => Err(judge_fault(fault, loaded.repo)),
    }
}
