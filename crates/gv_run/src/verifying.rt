//! A verification: a report held against certificates, on the repository of the tree. Nothing is solved, and the store is
//! only read.
//!
//! Costs what `load` and gv_verify's `verify` cost, and O(the bytes of both files).
ghost use Rattle.std.specs.Prelude.{◌≡◌, ◌≤◌, IfOk, IfErr, OnOk};
ghost use Rattle.gv_words.specs.declared.command.Command.TheVariants as commands;
ghost use Rattle.gv_ending.specs.Causes.{Why, of_queries, of_store};
ghost use Rattle.gv_run.specs.Performs.{Performs};
ghost use Rattle.gv_run.specs.Verify.{AreFetched, IsVerdict};
ghost use Rattle.gv_run.specs.VerifySteps.{IsFound, IsUnheld, IsUntaken, find_causes, seeking};
ghost use Rattle.gv_ending.specs.World.{Fed, world};

use crate::answering::read;
use crate::verdict::{Verdict, is_refused, verdict_text};
use gv_base::{Ledger, Sink, Steps, Store, Text, Tree};
use gv_cert::Known;
use gv_ending::{Refusal, fetch, fetch_known, write};
use gv_load::Repo;
use gv_report::Options;
use gv_verify::{VerifyFault, verify};
use gv_words::Verification;
use std::alloc::Global;

// What was fetched.
#[derive(Drop)]
struct Evidence {
    certs: Known,
    report: Text,
}

/// Verifies, and answers whether the report is refused.
#[tactic(auto, using(crate::proofs::Verified::unfound, crate::proofs::Verified::no_line, crate::proofs::Verified::line_stops, crate::proofs::Verified::verified))]
pub(crate) fn verify_report<T: Tree, K: Store, S: Sink, L: Ledger>(
    alloc: Global,
    verification: &Verification,
    tree: &mut T,
    store: &mut K,
    out: &mut S,
    steps: &mut Steps<L>,
) -> Result<bool, Refusal>
    ensures performs { (input : Fed) → Performs (commands.Verify verification.now)
        (world (T.files tree.old) (T.faults tree.old) (K.files store.old) (K.faults store.old) (S.held out.old) (S.faults out.old) steps.old)
        (world (T.files tree.new) (T.faults tree.new) (K.files store.new) (K.faults store.new) (S.held out.new) (S.faults out.new) steps.new)
        input result }
    ensures root { T.entered tree.new ≡ T.entered tree.old }
{
    let verdict = find(alloc, verification, tree, store, steps)?;
    let text = verdict_text(alloc, &verdict)?;
    write(out, &text)?;
    Ok(is_refused(&verdict))
}

// The certificate file comes first.
#[tactic(auto, using(crate::proofs::Verified::first_untaken, crate::proofs::Verified::second_untaken, crate::proofs::Verified::are_fetched))]
fn take<K: Store>(
    alloc: Global,
    verification: &Verification,
    store: &mut K,
) -> Result<Evidence, Refusal>
    ensures evidence { IfOk result (λ evidence. AreFetched verification.now (K.files store.old) evidence.certs evidence.report) }
    ensures cause { IfErr result (Why (of_store (IsUntaken verification.now (K.faults store.old) (K.faults store.new)))) }
    ensures files { K.files store.new ≡ K.files store.old }
    ensures later { K.faults store.old ≤ K.faults store.new }
    ensures calm { OnOk result (K.faults store.new ≡ K.faults store.old) }
{
    let certs = fetch_known(alloc, &verification.certs, store)?;
    let report = fetch(alloc, &verification.report, store)?;
    Ok(Evidence { certs, report })
}

// Holds the report against the certificates.
fn hold<L: Ledger>(
    alloc: Global,
    repo: &Repo,
    options: &Options,
    evidence: &Evidence,
    steps: &mut Steps<L>,
) -> Result<Verdict, Refusal>
    ensures verdict { IfOk result (IsVerdict options.now evidence.now.certs repo.now evidence.now.report) }
    ensures cause { IfErr result (Why (of_queries (IsUnheld options.now evidence.now.certs repo.now))) }
    ensures unsolved { steps.new.solve ≡ steps.old.solve }
{
    match verify(
        alloc,
        repo,
        options,
        evidence.report.bytes(),
        &evidence.certs,
        steps,
    ) {
        Ok(queries) => Ok(Verdict::Accepted { queries }),
        Err(VerifyFault::NotBacked { query }) => Ok(Verdict::NotBacked { query }),
        Err(VerifyFault::NoSuchText { offset }) => Ok(Verdict::OtherText { offset }),
        Err(VerifyFault::Limit { place, number }) => Err(Refusal::Limit { place, number }),
        Err(VerifyFault::NoMemory) => Err(Refusal::NoMemory),
    }
}

// Both files are fetched before the repository is read.
#[tactic(auto, using(crate::proofs::Verified::untaken, crate::proofs::Verified::unread, crate::proofs::Verified::unheld, crate::proofs::Verified::is_found))]
fn find<T: Tree, K: Store, L: Ledger>(
    alloc: Global,
    verification: &Verification,
    tree: &mut T,
    store: &mut K,
    steps: &mut Steps<L>,
) -> Result<Verdict, Refusal>
    ensures found { IfOk result (IsFound verification.now (seeking (T.files tree.old) (T.faults tree.old) (T.faults tree.new) (K.files store.old) (K.faults store.old) (K.faults store.new) steps.old steps.new)) }
    ensures cause { IfErr result (Why (find_causes verification.now (seeking (T.files tree.old) (T.faults tree.old) (T.faults tree.new) (K.files store.old) (K.faults store.old) (K.faults store.new) steps.old steps.new))) }
    ensures files { T.files tree.new ≡ T.files tree.old }
    ensures root { T.entered tree.new ≡ T.entered tree.old }
    ensures tree_later { T.faults tree.old ≤ T.faults tree.new }
    ensures kept { K.files store.new ≡ K.files store.old }
    ensures store_later { K.faults store.old ≤ K.faults store.new }
    ensures unsolved { steps.new.solve ≡ steps.old.solve }
{
    let evidence = take(alloc, verification, store)?;
    let repo = match read(alloc, tree) {
        Ok(repo) => repo,
        Err(refusal) => {
            drop(evidence);
            return Err(refusal);
        }
    };
    let verdict = hold(alloc, &repo, &verification.options, &evidence, steps);
    drop(repo);
    drop(evidence);
    verdict
}
