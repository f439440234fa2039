//! A lint: the defaults of flags, needless versions and unknown names of a repository. No query is asked, and the store isn't
//! touched.
//!
//! Costs what `load`, `walk_files`, `use_reports`, `redundant` and `unknown_packages` cost, and O(the bytes of the reports).
ghost use Rattle.std.specs.Prelude.{◌≡◌, ◌≤◌, ◌++◌, ℕ, Option, filter, not, IfOk, IfErr, OnOk};
ghost use Rattle.gv_base.specs.Causes.{Rose};
ghost use Rattle.gv_base.specs.Counts.{Counts};
ghost use Rattle.gv_base.specs.FileMap.{FileMap};
ghost use Rattle.gv_base.specs.Words.{is_empty};
ghost use Rattle.gv_report.specs.Distinct.{ordered};
ghost use Rattle.gv_report.specs.Selecting.{selected};
ghost use Rattle.gv_usedefaults.specs.Reports.{use_reports};
ghost use Rattle.gv_profcheck.specs.Redundant.{redundant};
ghost use Rattle.gv_profcheck.specs.Unknown.{unknown_reports};
ghost use Rattle.gv_words.specs.declared.command.Command.TheVariants as commands;
ghost use Rattle.gv_ending.specs.Causes.{Why, of_reading};
ghost use Rattle.gv_run.specs.Lint.{IsWalked, lint_text};
ghost use Rattle.gv_run.specs.LintSteps.{IsLinted, IsUnmade, IsUnwalkedAt};
ghost use Rattle.gv_run.specs.Performs.{Performs};
ghost use Rattle.gv_ending.specs.World.{Fed, world};

use crate::answering::{read, text_of};
use crate::refusing::load_refusal;
use gv_base::{NoMemory, Sink, Text, Tree};
use gv_ending::{Refusal, write};
use gv_load::Repo;
use gv_profcheck::{redundant, unknown_packages};
use gv_report::{Options, Reports, ordered, selected_law};
use gv_usedefaults::{Walk, use_reports, walk_files};
use gv_words::Linting;
use std::alloc::Global;

/// Lints, and answers whether there are reports.
#[tactic(auto, using(crate::proofs::Linted::untold))]
pub(crate) fn lint<T: Tree, S: Sink>(
    alloc: Global,
    linting: &Linting,
    tree: &mut T,
    out: &mut S,
) -> Result<bool, Refusal>
    ensures performs { (input : Fed) (kept : Option FileMap) (store_faults : ℕ) (counts : Counts) → Performs (commands.Lint linting.now)
        (world (T.files tree.old) (T.faults tree.old) kept store_faults (S.held out.old) (S.faults out.old) counts)
        (world (T.files tree.new) (T.faults tree.new) kept store_faults (S.held out.new) (S.faults out.new) counts)
        input result }
    ensures root { T.entered tree.new ≡ T.entered tree.old }
{
    let text = made(alloc, &linting.options, tree)?;
    match write(out, &text) {
        Ok(()) => Ok(has_some(&text)),
        Err(refusal) => Err(refusal),
    }
}

fn has_some(text: &Text) -> bool
    ensures { result ≡ not (is_empty text.now) }
{
    !text.bytes().is_empty()
}

// The text of the reports of what stands in the tree.
#[tactic(auto, using(crate::proofs::Linted::unread, crate::proofs::Linted::unwalked_behind, crate::proofs::Linted::is_made))]
fn made<T: Tree>(alloc: Global, options: &Options, tree: &mut T) -> Result<Text, Refusal>
    ensures made { IfOk result (IsLinted options.now (T.files tree.old)) }
    ensures cause { IfErr result (Why (of_reading (Rose (T.faults tree.old) (T.faults tree.new)) (IsUnmade (T.files tree.old) (T.faults tree.old) (T.faults tree.new)))) }
    ensures files { T.files tree.new ≡ T.files tree.old }
    ensures root { T.entered tree.new ≡ T.entered tree.old }
    ensures later { T.faults tree.old ≤ T.faults tree.new }
    ensures calm { OnOk result (T.faults tree.new ≡ T.faults tree.old) }
{
    let repo = read(alloc, tree)?;
    let walk = match walked(alloc, tree, &repo) {
        Ok(walk) => walk,
        Err(refusal) => {
            drop(repo);
            return Err(refusal);
        }
    };
    let text = lint_text(alloc, options, &repo, &walk);
    drop(walk);
    drop(repo);
    Ok(text?)
}

// The files whose lines are looked at, and the stacks of the profiles.
#[tactic(auto, using(crate::proofs::Linted::unwalked))]
fn walked<T: Tree>(alloc: Global, tree: &mut T, repo: &Repo) -> Result<Walk, Refusal>
    ensures walk { IfOk result (IsWalked (T.files tree.old) repo.now) }
    ensures cause { IfErr result (Why (of_reading (Rose (T.faults tree.old) (T.faults tree.new)) (IsUnwalkedAt (T.files tree.old) (T.faults tree.old) (T.faults tree.new) repo.now))) }
    ensures files { T.files tree.new ≡ T.files tree.old }
    ensures root { T.entered tree.new ≡ T.entered tree.old }
    ensures later { T.faults tree.old ≤ T.faults tree.new }
    ensures calm { OnOk result (T.faults tree.new ≡ T.faults tree.old) }
{
    match walk_files(alloc, tree, repo) {
        Ok(walk) => Ok(walk),
        Err(fault) => Err(load_refusal(fault)),
    }
}

#[tactic(auto, using(crate::proofs::Linted::is_text))]
fn lint_text(alloc: Global, options: &Options, repo: &Repo, walk: &Walk) -> Result<Text, NoMemory>
    ensures { IfOk result (λ text. text ≡ lint_text options.now repo.now walk.now) }
{
    selected_law();
    let reports = lint_reports(alloc, options, repo, walk)?;
    text_of(alloc, options, &reports)
}

// The reports, of the defaults only those that the options select.
fn lint_reports(
    alloc: Global,
    options: &Options,
    repo: &Repo,
    walk: &Walk,
) -> Result<Reports, NoMemory>
    ensures { IfOk result (λ reports. reports ≡ ordered ((filter (selected options.now) (use_reports repo.now walk.now) ++ redundant repo.now.pkgs) ++ unknown_reports repo.now.pkgs walk.now.files)) }
{
    let mut reports = use_reports(alloc, repo, walk, options)?;
    reports.append(redundant(alloc, repo)?)?;
    reports.append(unknown_packages(alloc, repo, walk)?)?;
    ordered(alloc, reports)
}
