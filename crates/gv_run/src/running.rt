//! The top call: all that the program does, over any outside.
ghost use Rattle.std.specs.Prelude.{◌≡◌, ◌≤◌, ◌⊎◌, ℕ, List, None, IfSome, OnOk, OnErr};
ghost use Rattle.std.specs.Option.{option_copied};
ghost use Rattle.gv_base.specs.Causes.{Rose};
ghost use Rattle.gv_cert.specs.Known.{KnownRecord};
ghost use Rattle.gv_edits.specs.Script.{script_of};
ghost use Rattle.gv_load.specs.Loading.{loading};
ghost use Rattle.gv_reading.specs.Look.{look_of};
ghost use Rattle.gv_words.specs.Command.{IsCommand, command_of};
ghost use Rattle.gv_words.specs.declared.command.Asked.{Asked};
ghost use Rattle.gv_words.specs.declared.command.Command.TheVariants as commands;
ghost use Rattle.gv_words.specs.declared.command.Linting.{Linting};
ghost use Rattle.gv_words.specs.declared.merging.Merging.{Merging};
ghost use Rattle.gv_words.specs.declared.values.Share.{Share};
ghost use Rattle.gv_words.specs.declared.command.OverlayScan.{OverlayScan};
ghost use Rattle.gv_words.specs.declared.command.Sitting.{Sitting};
ghost use Rattle.gv_words.specs.declared.command.Verification.{Verification};
ghost use Rattle.gv_ending.specs.Endings.{told};
ghost use Rattle.gv_ending.specs.Fetching.{AreJoined, IsGiven};
ghost use Rattle.gv_run.specs.Lint.{LintSays};
ghost use Rattle.gv_run.specs.Overlaying.{OverlaySays};
ghost use Rattle.gv_run.specs.Parting.{AreLeftByPartScans, MergeSays, PartSays};
ghost use Rattle.gv_run.specs.Performs.{Leaves, Performs, Runs, root_of};
ghost use Rattle.gv_run.specs.Scan.{Says};
ghost use Rattle.gv_run.specs.Session.{SessionSays};
ghost use Rattle.gv_run.specs.Verify.{IsLeftByScan, VerifySays};
ghost use Rattle.gv_ending.specs.World.{entered, fed, roots, world};

use crate::linting::lint;
use crate::merging::merge_parts;
use crate::overlaying::scan_overlay;
use crate::parting::scan_part;
use crate::scanning::scan;
use crate::serving::serve;
use crate::summing::write_summary;
use crate::verifying::verify_report;
use gv_base::{Ledger, NoMemory, Sink, Source, Steps, Store, Text, Texts, Tree};
use gv_cert::file_law;
use gv_ending::{Refusal, tell};
use gv_merge::merged_law;
use gv_overlay::overlay_law;
use gv_verify::accepted_law;
use gv_words::{Command, command_law, read_words};
use std::alloc::Global;

/// Runs the command that the words ask for, and answers the status to end with.
///
/// `words` are the command's words without the program's name.
///
/// - A `scan` takes the certificates that the store holds, where it isn't fresh. Then it reads the repository and judges
///   it, and a query of which one of these is backed isn't solved; then the store gets the file of the certificates, one
///   for each distinct query; then the reports go to `out`.
/// - A `scan` of a part takes them alike, asks its queries alone, and leaves their certificates; nothing goes to `out`.
/// - A `merge` takes the certificates of several files and reads the repository. Where each query has one that holds, the store gets
///   the first of each, and the reports go to `out`. Nothing is solved.
/// - An `overlay` is a scan of a repository that stands as a folder beside its masters, which its layout names: of its packages alone,
///   among those of the masters.
/// - A `verify` fetches the files of the certificates and of the report, reads the repository, and writes a line to `out`:
///   whether each query has a certificate that holds and the report is the repository's, or where that fails first.
///   Nothing is solved, and the store stays as it is.
/// - A `demo` judges the repository that its number draws, and writes its summary to `out`.
/// - A `lint` reads the repository and, for their lines, the files of its profiles, and writes its reports to `out`: defaults of
///   flags that REQUIRED_USE doesn't allow, needless versions and unknown names. The store isn't touched.
/// - A `session` reads the commands of the input, edits over the tree among them, and writes for each `report` its length and
///   the report of the files with the edits so far, up to `end`. What was written before a refusal stays. The store isn't
///   touched. The other commands don't touch the input.
///
/// The line of a refusal goes to `err`. The statuses are 0 (no reports; accepted; a summary; `end` was read), 1 (reports; not
/// accepted), 2 (bad command line), 3 (the tree, the store, the input or the output failed), 4 (the budget of a query is
/// spent), 5 (out of memory), 6 (not a repository), 7 (a limit is passed), 8 (a command of the script is bad), 10 (a query lacks a certificate).
pub fn run<T: Tree, K: Store, I: Source, S: Sink, E: Sink, L: Ledger>(
    alloc: Global,
    words: &Texts,
    tree: &mut T,
    store: &mut K,
    input: &mut I,
    out: &mut S,
    err: &mut E,
    steps: &mut Steps<L>,
) -> u8
    // What it leaves, by the status.
    ensures leaves { Leaves words.now (roots (T.entered tree.old) (T.entered tree.new))
        (world (T.files tree.old) (T.faults tree.old) (K.files store.old) (K.faults store.old) (S.held out.old) (S.faults out.old) steps.old)
        (world (T.files tree.new) (T.faults tree.new) (K.files store.new) (K.faults store.new) (S.held out.new) (S.faults out.new) steps.new)
        (fed (I.left input.old) (I.left input.new) (I.faults input.old) (I.faults input.new))
        (told (E.held err.old) (E.held err.new) (E.faults err.old) (E.faults err.new)) result }

    // What isn't touched, whatever the status.
    ensures input { ((s : Sitting) → IsCommand words.now (commands.Session s) → ⊥) → input.new ≡ input.old }
    ensures only_read { (v : Verification) → IsCommand words.now (commands.Verify v) → K.files store.new ≡ K.files store.old }
    ensures unsolved { (v : Verification) → IsCommand words.now (commands.Verify v) → steps.new.solve ≡ steps.old.solve }

    // A scan of a part writes nothing and never says that there are reports, and a merge solves nothing.
    ensures unwritten { (a : Asked) (share : Share) → IsCommand words.now (commands.Part a share) → (S.held out.new ≡ S.held out.old) × (S.faults out.new ≡ S.faults out.old) }
    ensures unsaid { (a : Asked) (share : Share) → IsCommand words.now (commands.Part a share) → result ≡ 1 → ⊥ }
    ensures merge_unsolved { (m : Merging) → IsCommand words.now (commands.Merge m) → steps.new.solve ≡ steps.old.solve }

    // Other words are told. Where nothing outside fails, those of a scan or of an overlay give what the files say, those of a verification a
    // verdict, those of a demo its summary, those of a lint its text, those of a part nothing, those of a merge what the files and their records say, and those of a session what its script and the edited files say.
    ensures bad_words_only { command_of words.now ≡ None → (result ≡ 2) ⊎ (result ≡ 5) }
    ensures complete { (a : Asked) → IsCommand words.now (commands.Scan a) → (Rose (T.faults tree.old) (T.faults tree.new) → ⊥) → (Rose (K.faults store.old) (K.faults store.new) → ⊥)
        → (Rose (S.faults out.old) (S.faults out.new) → ⊥)
        → (result ≡ 5) ⊎ ((given : List KnownRecord) × IsGiven a.fresh (K.files store.old) a.certs given × IfSome (T.files tree.old) (λ files. Says a.options given (loading (look_of files)) result)) }
    ensures complete_overlay { (s : OverlayScan) → IsCommand words.now (commands.Overlay s) → (Rose (T.faults tree.old) (T.faults tree.new) → ⊥) → (Rose (K.faults store.old) (K.faults store.new) → ⊥)
        → (Rose (S.faults out.old) (S.faults out.new) → ⊥)
        → (result ≡ 5) ⊎ ((given : List KnownRecord) × IsGiven s.asked.fresh (K.files store.old) s.asked.certs given × IfSome (T.files tree.old) (λ files. OverlaySays s given files result)) }
    ensures complete_verify { (v : Verification) → IsCommand words.now (commands.Verify v) → (Rose (T.faults tree.old) (T.faults tree.new) → ⊥) → (Rose (K.faults store.old) (K.faults store.new) → ⊥)
        → (Rose (S.faults out.old) (S.faults out.new) → ⊥)
        → (result ≡ 5) ⊎ IfSome (T.files tree.old) (λ files. VerifySays v (K.files store.old) (loading (look_of files)) result) }
    ensures complete_demo { (number : ℕ) → IsCommand words.now (commands.Demo number) → (Rose (S.faults out.old) (S.faults out.new) → ⊥) → (result ≡ 0) ⊎ (result ≡ 5) }
    ensures complete_lint { (l : Linting) → IsCommand words.now (commands.Lint l) → (Rose (T.faults tree.old) (T.faults tree.new) → ⊥) → (Rose (S.faults out.old) (S.faults out.new) → ⊥)
        → (result ≡ 5) ⊎ IfSome (T.files tree.old) (λ files. LintSays l.options files result) }
    ensures complete_session { (s : Sitting) → IsCommand words.now (commands.Session s) → (Rose (T.faults tree.old) (T.faults tree.new) → ⊥) → (Rose (I.faults input.old) (I.faults input.new) → ⊥)
        → (Rose (S.faults out.old) (S.faults out.new) → ⊥)
        → (result ≡ 5) ⊎ IfSome (T.files tree.old) (λ files. IfSome (I.left input.old) (λ bytes. SessionSays s files (script_of bytes) result)) }

    ensures complete_part { (a : Asked) (share : Share) → IsCommand words.now (commands.Part a share) → (Rose (T.faults tree.old) (T.faults tree.new) → ⊥) → (Rose (K.faults store.old) (K.faults store.new) → ⊥)
        → (Rose (S.faults out.old) (S.faults out.new) → ⊥)
        → (result ≡ 5) ⊎ ((given : List KnownRecord) × IsGiven a.fresh (K.files store.old) a.certs given × IfSome (T.files tree.old) (λ files. PartSays share a.options given (loading (look_of files)) result)) }
    ensures complete_merge { (m : Merging) → IsCommand words.now (commands.Merge m) → (Rose (T.faults tree.old) (T.faults tree.new) → ⊥) → (Rose (K.faults store.old) (K.faults store.new) → ⊥)
        → (Rose (S.faults out.old) (S.faults out.new) → ⊥)
        → (result ≡ 5) ⊎ ((given : List KnownRecord) × AreJoined (K.files store.old) m.from given × IfSome (T.files tree.old) (λ files. MergeSays m.options given (loading (look_of files)) result)) }

    // What scans of all parts left is merged.
    ensures merges_parts { (m : Merging) → IsCommand words.now (commands.Merge m) → AreLeftByPartScans m (T.files tree.old) (K.files store.old)
        → (Rose (T.faults tree.old) (T.faults tree.new) → ⊥) → (Rose (K.faults store.old) (K.faults store.new) → ⊥) → (Rose (S.faults out.old) (S.faults out.new) → ⊥)
        → (result ≡ 0) ⊎ ((result ≡ 1) ⊎ (result ≡ 5)) }

    // What a scan left is accepted.
    ensures accepts_scans { (v : Verification) → IsCommand words.now (commands.Verify v) → IsLeftByScan v (T.files tree.old) (K.files store.old)
        → (Rose (T.faults tree.old) (T.faults tree.new) → ⊥) → (Rose (K.faults store.old) (K.faults store.new) → ⊥) → (Rose (S.faults out.old) (S.faults out.new) → ⊥)
        → (result ≡ 0) ⊎ (result ≡ 5) }
{
    command_law();
    file_law();
    accepted_law();
    merged_law();
    overlay_law();
    let ending = perform(alloc, words, tree, store, input, out, steps);
    tell(alloc, &ending, err)
}

// Performs the command that the words are, in the folder that it is of. Of a scan or a lint, answers whether there are reports; of a verification,
// whether the report is refused.
#[tactic(auto, using(crate::proofs::Performed::bad_words, crate::proofs::Performed::unbegun, crate::proofs::Performed::begun))]
fn perform<T: Tree, K: Store, I: Source, S: Sink, L: Ledger>(
    alloc: Global,
    words: &Texts,
    tree: &mut T,
    store: &mut K,
    input: &mut I,
    out: &mut S,
    steps: &mut Steps<L>,
) -> Result<bool, Refusal>
    ensures runs { Runs words.now (roots (T.entered tree.old) (T.entered tree.new))
        (world (T.files tree.old) (T.faults tree.old) (K.files store.old) (K.faults store.old) (S.held out.old) (S.faults out.old) steps.old)
        (world (T.files tree.new) (T.faults tree.new) (K.files store.new) (K.faults store.new) (S.held out.new) (S.faults out.new) steps.new)
        (fed (I.left input.old) (I.left input.new) (I.faults input.old) (I.faults input.new)) result }
    ensures input { ((s : Sitting) → IsCommand words.now (commands.Session s) → ⊥) → input.new ≡ input.old }
    ensures input_later { I.faults input.old ≤ I.faults input.new }
{
    let Some(command) = read_words(alloc, words)? else {
        return Err(Refusal::BadWords);
    };
    match enter(alloc, &command, tree) {
        Ok(()) => {
            let ending = carry_out(alloc, &command, tree, store, input, out, steps);
            drop(command);
            ending
        }
        Err(NoMemory) => {
            drop(command);
            Err(Refusal::NoMemory)
        }
    }
}

// The folder that a command is of.
fn root_of(command: &Command) -> Option<&Text>
    ensures { option_copied result ≡ root_of command.now }
{
    match command {
        Command::Scan { asked } => Some(&asked.root),
        Command::Part { asked, .. } => Some(&asked.root),
        Command::Merge { merging } => Some(&merging.root),
        Command::Overlay { scan } => Some(&scan.asked.root),
        Command::Verify { verification } => Some(&verification.root),
        Command::Session { sitting } => Some(&sitting.root),
        Command::Demo { .. } => None,
        Command::Lint { linting } => Some(&linting.root),
    }
}

fn enter<T: Tree>(alloc: Global, command: &Command, tree: &mut T) -> Result<(), NoMemory>
    ensures entered { OnOk result (T.entered tree.new ≡ entered (root_of command.now) (T.entered tree.old)) }
    ensures left { OnErr result (T.entered tree.new ≡ T.entered tree.old) }
    ensures files { T.files tree.new ≡ T.files tree.old }
    ensures faults { T.faults tree.new ≡ T.faults tree.old }
{
    match root_of(command) {
        Some(root) => tree.enter(alloc, root),
        None => Ok(()),
    }
}

fn carry_out<T: Tree, K: Store, I: Source, S: Sink, L: Ledger>(
    alloc: Global,
    command: &Command,
    tree: &mut T,
    store: &mut K,
    input: &mut I,
    out: &mut S,
    steps: &mut Steps<L>,
) -> Result<bool, Refusal>
    ensures performs { Performs command.now
        (world (T.files tree.old) (T.faults tree.old) (K.files store.old) (K.faults store.old) (S.held out.old) (S.faults out.old) steps.old)
        (world (T.files tree.new) (T.faults tree.new) (K.files store.new) (K.faults store.new) (S.held out.new) (S.faults out.new) steps.new)
        (fed (I.left input.old) (I.left input.new) (I.faults input.old) (I.faults input.new)) result }
    ensures root { T.entered tree.new ≡ T.entered tree.old }
    ensures input { ((s : Sitting) → command.now ≡ commands.Session s → ⊥) → input.new ≡ input.old }
    ensures input_later { I.faults input.old ≤ I.faults input.new }
{
    match command {
        Command::Scan { asked } => scan(alloc, asked, tree, store, out, steps),
        Command::Part { asked, share } => scan_part(alloc, asked, share, tree, store, steps),
        Command::Merge { merging } => merge_parts(alloc, merging, tree, store, out, steps),
        Command::Overlay { scan } => scan_overlay(alloc, scan, tree, store, out, steps),
        Command::Verify { verification } => {
            verify_report(alloc, verification, tree, store, out, steps)
        }
        Command::Session { sitting } => serve(alloc, sitting, tree, input, out, steps),
        Command::Demo { number } => write_summary(alloc, *number, out, steps),
        Command::Lint { linting } => lint(alloc, linting, tree, out),
    }
}
