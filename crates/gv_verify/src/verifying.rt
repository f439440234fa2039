//! A report held against certificates.
ghost use Rattle.std.specs.Prelude.{◌≡◌, length, IfOk};
ghost use Rattle.gv_checks.specs.Certs.{CountsAtMost};
ghost use Rattle.gv_checks.specs.Queries.{queries};
ghost use Rattle.gv_report.specs.Emitted.{emitted};
ghost use Rattle.gv_verify.specs.Verifying.{Hands, Verifies};

use crate::differing::first_difference;
use gv_base::{Ledger, NoMemory, Steps, Text};
use gv_cert::Known;
use gv_checks::{RecallFault, recall};
use gv_load::Repo;
use gv_report::{Emitter, Options, Report, Reports, selected, selected_law};
use std::alloc::Global;

/// Why a report isn't accepted.
#[derive(Drop)]
pub enum VerifyFault {
    /// No record of the query of this number, from 1, is backed.
    NotBacked { query: u32 },
    /// Each query has a backed record, and the report first differs from the text of a scan at this byte, from 0: the
    /// shorter one's length, where it begins the other.
    NoSuchText { offset: u64 },
    /// A query has more than 4,096 flags or weighs more than 2,000,000: CATEGORY/PF of its package, and the limit.
    Limit { place: Text, number: u64 },
    /// Memory was wanted and not given: nothing is told of the report.
    NoMemory,
}

impl From<NoMemory> for VerifyFault {
    ghost use Rattle.std.specs.Prelude.{◌≡◌};
    ghost use Rattle.gv_verify.specs.declared.verifying.VerifyFault.TheVariants.{NoMemory};

    ghost from_gives = { λ _ fault. fault ≡ NoMemory };

    fn from(_refused: NoMemory) -> VerifyFault {
        VerifyFault::NoMemory
    }
}

/// The number of queries, where each of them has a backed record among the given ones and the report is the text of a
/// scan. The queries are taken in their order: the first that is past a limit, or has no backed record, ends it. Whatever it
/// answers, no more are lowered than there are queries, and none is solved.
#[tactic(auto, using(crate::proofs::VerifyLemmas::handed))]
pub fn verify<L: Ledger>(
    alloc: Global,
    repo: &Repo,
    options: &Options,
    report: &[u8],
    certs: &Known,
    steps: &mut Steps<L>,
) -> Result<u32, VerifyFault>
    ensures verifies { Verifies options.now certs.now repo.now report.now result }
    ensures few { CountsAtMost (length (queries options.now repo.now)) steps.old steps.new }
    ensures unsolved { steps.new.solve ≡ steps.old.solve }
{
    selected_law();
    let recalled = match recall(alloc, repo, options, certs, steps) {
        Ok(recalled) => recalled,
        Err(fault) => return Err(fault_of(fault)),
    };
    let text = text_of(alloc, options, &recalled.reports)?;
    match first_difference(text.bytes(), report) {
        None => Ok(recalled.queries),
        Some(offset) => Err(VerifyFault::NoSuchText {
            offset: offset as u64,
        }),
    }
}

fn fault_of(fault: RecallFault) -> VerifyFault
    ensures { Hands fault result }
{
    match fault {
        RecallFault::NotBacked { query } => VerifyFault::NotBacked { query },
        RecallFault::Limit { place, number } => VerifyFault::Limit { place, number },
        RecallFault::NoMemory => VerifyFault::NoMemory,
    }
}

// The text of the reports that the options select.
fn text_of(alloc: Global, options: &Options, reports: &Reports) -> Result<Text, NoMemory>
    ensures { IfOk result (λ text. text ≡ emitted options.now reports.now) }
{
    let test = |report: &Report| selected(options, report);
    Emitter::new(options, test).emit(alloc, reports)
}
