//! The reply to a `report` of a session: its line, and the report of the files with the edits so far.
//!
//! Costs what `Session::report` costs, and O(the bytes of the report).
ghost use Rattle.std.specs.Prelude.{◌≡◌, ◌≤◌, ◌++◌, IfOk, IfErr, OnOk};
ghost use Rattle.gv_edits.specs.Edits.{edited_told};
ghost use Rattle.gv_session.specs.Session.{Agrees};
ghost use Rattle.gv_run.specs.Session.{IsReport, report_text};
ghost use Rattle.gv_ending.specs.Causes.{Why};
ghost use Rattle.gv_run.specs.SessionSteps.{IsAnswered, Sees, answer_causes, make_causes, writing};

use crate::refusing::{judge_refusal, load_refusal};
use gv_base::{Ledger, NoMemory, Sink, Steps, Text, Tree};
use gv_ending::{Refusal, write};
use gv_session::{Session, SessionFault};
use std::alloc::Global;

/// Writes the line and the report of the files with the edits so far.
#[tactic(auto, using(crate::proofs::Replied::unmade, crate::proofs::Replied::no_text, crate::proofs::Replied::unwritten, crate::proofs::Replied::answered))]
pub(crate) fn answer_report<T: Tree, S: Sink, L: Ledger>(
    alloc: Global,
    session: &mut Session,
    tree: &mut T,
    out: &mut S,
    steps: &mut Steps<L>,
) -> Result<(), Refusal>
    requires { Agrees (T.files tree.old) session.old }
    ensures answered { OnOk result (IsAnswered session.old (T.files tree.old) (writing (T.faults tree.old) (T.faults tree.new) (S.held out.old) (S.held out.new) (S.faults out.old) (S.faults out.new))) }
    ensures cause { IfErr result (Why (answer_causes session.old (T.files tree.old) (writing (T.faults tree.old) (T.faults tree.new) (S.held out.old) (S.held out.new) (S.faults out.old) (S.faults out.new)))) }
    ensures sees { OnOk result (Sees (T.files tree.old) session.old session.new steps.old.lower steps.new.lower) }
    ensures files { T.files tree.new ≡ T.files tree.old }
    ensures root { T.entered tree.new ≡ T.entered tree.old }
    ensures tree_later { T.faults tree.old ≤ T.faults tree.new }
    ensures out_later { S.faults out.old ≤ S.faults out.new }
{
    let report = make_report(alloc, session, tree, steps)?;
    let text = report_text(alloc, &report)?;
    write(out, &text)
}

// The report of the files with the edits so far.
#[tactic(auto, using(crate::proofs::Replied::unloaded, crate::proofs::Replied::unjudged, crate::proofs::Replied::is_report))]
fn make_report<T: Tree, L: Ledger>(
    alloc: Global,
    session: &mut Session,
    tree: &mut T,
    steps: &mut Steps<L>,
) -> Result<Text, Refusal>
    requires { Agrees (T.files tree.old) session.old }
    ensures report { IfOk result (IsReport session.old.options (edited_told (T.files tree.old) session.old.edits)) }
    ensures cause { IfErr result (Why (make_causes session.old (T.files tree.old) (T.faults tree.old) (T.faults tree.new))) }
    ensures sees { OnOk result (Sees (T.files tree.old) session.old session.new steps.old.lower steps.new.lower) }
    ensures files { T.files tree.new ≡ T.files tree.old }
    ensures root { T.entered tree.new ≡ T.entered tree.old }
    ensures later { T.faults tree.old ≤ T.faults tree.new }
    ensures calm { OnOk result (T.faults tree.new ≡ T.faults tree.old) }
{
    match session.report(tree, steps) {
        Ok(report) => Ok(report),
        Err(SessionFault::Load { fault }) => Err(load_refusal(fault)),
        Err(SessionFault::Judge { fault, repo }) => {
            let refusal = judge_refusal(alloc, fault, &repo);
            drop(repo);
            Err(refusal)
        }
        Err(SessionFault::NoMemory) => Err(Refusal::NoMemory),
    }
}

// Its line, and then the report.
fn report_text(alloc: Global, report: &Text) -> Result<Text, NoMemory>
    ensures { IfOk result (λ text. text ≡ report_text report.now) }
{
    let digits = report.bytes().len().to_string(alloc)?;
    let mut text = Text::of(alloc, b"report ")?;
    text.append(digits.as_bytes())?;
    text.append(b"\n")?;
    text.append(report.bytes())?;
    Ok(text)
}
