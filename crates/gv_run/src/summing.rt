//! The demo: a repository that a number draws is read and judged as any other, and summed up.
//!
//! Costs what drawing it, `load` and `judge` cost.
ghost use Rattle.std.specs.Prelude.{◌≡◌, ◌++◌, ℕ, Option, Ok, IfOk, OnOk, decimal, length};
ghost use Rattle.gv_base.specs.FileMap.{FileMap};
ghost use Rattle.gv_demo.specs.Files.{demo};
ghost use Rattle.gv_load.specs.Loading.{loading};
ghost use Rattle.gv_reading.specs.Look.{look_of};
ghost use Rattle.gv_checks.specs.Queries.{queries};
ghost use Rattle.gv_checks.specs.RepoReports.{scan_text};
ghost use Rattle.gv_words.specs.declared.command.Command.TheVariants as commands;
ghost use Rattle.gv_run.specs.Performs.{Performs};
ghost use Rattle.gv_run.specs.Summary.{IsSummary, line_count, summary_text};
ghost use Rattle.gv_ending.specs.World.{Fed, world};

use crate::answering::text_of;
use gv_base::{Calls, Ledger, MemTree, NoMemory, Sink, Steps, Text};
use gv_cert::Known;
use gv_checks::judge;
use gv_demo::demo_files;
use gv_ending::{Refusal, write};
use gv_load::{Repo, load};
use gv_report::{Options, selected_law};
use gv_words::default_options;
use std::alloc::Global;

/// Writes the summary of the demo repository of a number. Neither tree, store nor input is touched, and no certificate kept.
#[tactic(auto, using(crate::proofs::Summed::unsummed, crate::proofs::Summed::cut, crate::proofs::Summed::summed))]
pub(crate) fn write_summary<S: Sink, L: Ledger>(
    alloc: Global,
    number: u64,
    out: &mut S,
    steps: &mut Steps<L>,
) -> Result<bool, Refusal>
    ensures { (input : Fed) (files : Option FileMap) (tree_faults : ℕ) (kept : Option FileMap) (store_faults : ℕ) → Performs (commands.Demo number)
        (world files tree_faults kept store_faults (S.held out.old) (S.faults out.old) steps.old)
        (world files tree_faults kept store_faults (S.held out.new) (S.faults out.new) steps.new)
        input result }
{
    let summary = summary_of(alloc, number, steps)?;
    write(out, &summary)?;
    Ok(false)
}

// How many lines a text has.
fn line_count(text: &[u8]) -> u64
    ensures { result ≡ line_count text.now }
{
    let mut count = 0;
    for b in text {
        if *b == b'\n' {
            count += 1;
        }
    }
    count
}

fn append_number(alloc: Global, text: &mut Text, number: u64) -> Result<(), NoMemory>
    ensures { OnOk result (text.new ≡ text.old ++ decimal number) }
{
    let digits = number.to_string(alloc)?;
    text.append(digits.as_bytes())
}

// The four lines for this text of reports.
fn summary_text(alloc: Global, text: &Text) -> Result<Text, NoMemory>
    ensures { IfOk result (λ summary. summary ≡ summary_text text.now) }
{
    let mut summary = Text::of(alloc, b"packages 1000\nqueries 12000\nreports ")?;
    append_number(alloc, &mut summary, line_count(text.bytes()))?;
    summary.append(b"\nbytes ")?;
    append_number(alloc, &mut summary, text.bytes().len() as u64)?;
    summary.append(b"\n")?;
    Ok(summary)
}

// The repository that a number draws, where it has as many packages as a demo has.
fn drawn(alloc: Global, number: u64) -> Result<Repo, NoMemory>
    ensures repo { IfOk result (λ repo. loading (look_of (demo number)) ≡ Ok repo) }
    ensures packages { IfOk result (λ repo. length repo.pkgs ≡ 1000) }
{
    let mut tree = MemTree::new(demo_files(alloc, number)?, Calls::new(alloc));
    let Ok(repo) = load(alloc, &mut tree) else {
        drop(tree);
        return Err(NoMemory);
    };
    drop(tree);
    if repo.pkgs.items().len() != 1000 {
        drop(repo);
        return Err(NoMemory);
    }
    Ok(repo)
}

// The text of the scan of a repository with as many queries as a demo has.
#[tactic(auto, using(crate::proofs::Summed::is_text))]
fn demo_text<L: Ledger>(
    alloc: Global,
    repo: &Repo,
    options: &Options,
    steps: &mut Steps<L>,
) -> Result<Text, NoMemory>
    ensures text { IfOk result (λ text. text ≡ scan_text options.now repo.now) }
    ensures queries { OnOk result (length (queries options.now repo.now) ≡ 12000) }
{
    selected_law();
    let Ok(judged) = judge(alloc, repo, options, &Known::new(alloc), steps) else {
        return Err(NoMemory);
    };
    if judged.queries != 12_000 {
        return Err(NoMemory);
    }
    text_of(alloc, options, &judged.reports)
}

// The summary of what a number draws. Every number draws a repository without a refusal, with as many packages and queries
// as the summary says; where one didn't, memory is said to be wanting.
fn summary_of<L: Ledger>(alloc: Global, number: u64, steps: &mut Steps<L>) -> Result<Text, NoMemory>
    ensures { IfOk result (IsSummary number) }
{
    let options = default_options(alloc)?;
    let repo = drawn(alloc, number)?;
    let text = match demo_text(alloc, &repo, &options, steps) {
        Ok(text) => text,
        Err(refused) => {
            drop(repo);
            return Err(refused);
        }
    };
    drop(repo);
    summary_text(alloc, &text)
}
