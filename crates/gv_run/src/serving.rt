//! A session: the commands of a script, each performed as it is read. The store isn't touched, and nothing of the tree is read
//! but at a `report`.
//!
//! A command costs what reading it costs, a put and a cut what those of `Session` cost, and a `report` what its reply costs: of
//! queries no more are lowered than are due since the report before, and so for a whole script (`work`). The memory of a script is
//! that of its longest command, of the edits so far, and of what the last report left: a repository and its reports.
ghost use Rattle.std.specs.Prelude.{◌≡◌, ◌≤◌, ◌<◌, ◌+◌, ℕ, Option, false, true, length, IfOk, IfErr, OnOk};
ghost use Rattle.std.specs.Option.{option_map};
ghost use Rattle.gv_base.specs.FileMap.{FileMap};
ghost use Rattle.gv_edits.specs.Command.{IsBounded, is_edit_path};
ghost use Rattle.gv_edits.specs.Script.{Leads, led_script, script_left};
ghost use Rattle.gv_edits.specs.declared.edit.Edit.TheVariants as edits;
ghost use Rattle.gv_session.specs.Session.{Agrees, with_edit};
ghost use Rattle.gv_words.specs.declared.command.Command.TheVariants as commands;
ghost use Rattle.gv_ending.specs.Causes.{Why, of_input};
ghost use Rattle.gv_run.specs.Performs.{Performs};
ghost use Rattle.gv_run.specs.SessionSteps.{DoCause, Does, Ends, IsTooMany, IsUnread, StepIs, ahead, at, leaving, stop_causes, writing};
ghost use Rattle.gv_ending.specs.World.{fed, world};

use crate::replying::answer_report;
use gv_base::{Ledger, Sink, Source, Steps, Text, Tree};
use gv_edits::{Command, EditFault, MAX_COMMANDS, ScriptFault, ScriptReader};
use gv_ending::Refusal;
use gv_session::Session;
use gv_words::Sitting;
use std::alloc::Global;

/// Serves a session: reads the commands of the input, and writes a reply for each `report`, up to `end`.
pub(crate) fn serve<T: Tree, I: Source, S: Sink, L: Ledger>(
    alloc: Global,
    sitting: &Sitting,
    tree: &mut T,
    input: &mut I,
    out: &mut S,
    steps: &mut Steps<L>,
) -> Result<bool, Refusal>
    ensures performs { (kept : Option FileMap) (store_faults : ℕ) → Performs (commands.Session sitting.now)
        (world (T.files tree.old) (T.faults tree.old) kept store_faults (S.held out.old) (S.faults out.old) steps.old)
        (world (T.files tree.new) (T.faults tree.new) kept store_faults (S.held out.new) (S.faults out.new) steps.new)
        (fed (I.left input.old) (I.left input.new) (I.faults input.old) (I.faults input.new)) result }
    ensures root { T.entered tree.new ≡ T.entered tree.old }
    ensures input_later { I.faults input.old ≤ I.faults input.new }
{
    let Ok(options) = sitting.options.copy(alloc) else {
        return Err(Refusal::NoMemory);
    };
    let Ok(mut reader) = ScriptReader::new(alloc) else {
        return Err(Refusal::NoMemory);
    };
    let mut session = Session::start(alloc, options);
    match serve_script(alloc, &mut session, &mut reader, tree, input, out, steps) {
        Ok(()) => {
            drop(session);
            Ok(false)
        }
        Err(refusal) => {
            drop(session);
            Err(refusal)
        }
    }
}

// That the limit of commands is passed.
fn too_many(alloc: Global) -> Refusal
    ensures { IsTooMany result }
{
    match Text::of(alloc, b"script") {
        Ok(place) => Refusal::Limit {
            place,
            number: MAX_COMMANDS as u64,
        },
        Err(_) => Refusal::NoMemory,
    }
}

// The next command.
fn take_command<I: Source>(
    alloc: Global,
    reader: &mut ScriptReader,
    input: &mut I,
) -> Result<Command, Refusal>
    requires { reader.old.read ≤ 1000000 }
    ensures command { IfOk result (λ command. script_left reader.old (I.left input.old) ≡ option_map (led_script command) (script_left reader.new (I.left input.new))) }
    ensures leads { IfOk result (λ command. Leads reader.old reader.new (I.left input.old) (I.left input.new) command) }
    ensures bounded { IfOk result IsBounded }
    ensures few { OnOk result (length reader.new.taken ≤ 4096) }
    ensures counted { OnOk result (reader.new.read ≡ reader.old.read + 1) }
    ensures more { OnOk result (reader.old.read < 1000000) }
    ensures cause { IfErr result (Why (of_input (IsUnread (script_left reader.old (I.left input.old)) (ahead reader.old.taken (I.left input.old)) (ahead reader.new.taken (I.left input.new)) reader.old.read (I.faults input.old) (I.faults input.new)))) }
    ensures later { I.faults input.old ≤ I.faults input.new }
    ensures calm { OnOk result (I.faults input.new ≡ I.faults input.old) }
{
    match reader.next_command(input) {
        Ok(command) => Ok(command),
        Err(ScriptFault::Bad { command }) => Err(Refusal::BadCommand { number: command }),
        Err(ScriptFault::Limit) => Err(too_many(alloc)),
        Err(ScriptFault::Failed) => Err(Refusal::InputFailed),
        Err(ScriptFault::NoMemory) => Err(Refusal::NoMemory),
    }
}

#[tactic(auto, using(crate::proofs::Bounded::no_bad_path, crate::proofs::Bounded::no_long_path, crate::proofs::Bounded::no_limit))]
fn put(session: &mut Session, path: &Text, bytes: &Text) -> Result<(), Refusal>
    requires path { is_edit_path path.now ≡ true }
    requires bytes { length bytes.now ≤ 16777216 }
    ensures ok { OnOk result (session.new ≡ with_edit session.old (edits.Put path.now bytes.now)) }
    ensures err { IfErr result (λ refusal. refusal ≡ Refusal.NoMemory) }
{
    match session.put(path.bytes(), bytes.bytes()) {
        Ok(()) => Ok(()),
        Err(EditFault::BadPath) => unreachable!(),
        Err(EditFault::Limit) => unreachable!(),
        Err(EditFault::NoMemory) => Err(Refusal::NoMemory),
    }
}

#[tactic(auto, using(crate::proofs::Bounded::no_bad_path, crate::proofs::Bounded::no_long_path))]
fn cut(session: &mut Session, path: &Text) -> Result<(), Refusal>
    requires { is_edit_path path.now ≡ true }
    ensures ok { OnOk result (session.new ≡ with_edit session.old (edits.Cut path.now)) }
    ensures err { IfErr result (λ refusal. refusal ≡ Refusal.NoMemory) }
{
    match session.cut(path.bytes()) {
        Ok(()) => Ok(()),
        Err(EditFault::BadPath) => unreachable!(),
        Err(EditFault::Limit) => unreachable!(),
        Err(EditFault::NoMemory) => Err(Refusal::NoMemory),
    }
}

// Performs a command, and answers whether it ends the session.
fn perform_command<T: Tree, S: Sink, L: Ledger>(
    alloc: Global,
    command: &Command,
    session: &mut Session,
    tree: &mut T,
    out: &mut S,
    steps: &mut Steps<L>,
) -> Result<bool, Refusal>
    requires agrees { Agrees (T.files tree.old) session.old }
    requires bounded { IsBounded command.now }
    ensures done { IfOk result (Does (T.files tree.old) session.old command.now session.new (writing (T.faults tree.old) (T.faults tree.new) (S.held out.old) (S.held out.new) (S.faults out.old) (S.faults out.new)) steps.old.lower steps.new.lower) }
    ensures cause { IfErr result (DoCause (T.files tree.old) session.old command.now (writing (T.faults tree.old) (T.faults tree.new) (S.held out.old) (S.held out.new) (S.faults out.old) (S.faults out.new))) }
    ensures files { T.files tree.new ≡ T.files tree.old }
    ensures root { T.entered tree.new ≡ T.entered tree.old }
    ensures tree_later { T.faults tree.old ≤ T.faults tree.new }
    ensures out_later { S.faults out.old ≤ S.faults out.new }
{
    match command {
        Command::Put { path, bytes } => {
            put(session, path, bytes)?;
            Ok(false)
        }
        Command::Cut { path } => {
            cut(session, path)?;
            Ok(false)
        }
        Command::Report => {
            answer_report(alloc, session, tree, out, steps)?;
            Ok(false)
        }
        Command::End => Ok(true),
    }
}

// Reads a command and performs it, and answers whether it ended the session.
#[tactic(auto, using(crate::proofs::Served::untaken, crate::proofs::Served::undone, crate::proofs::Served::stepped))]
fn step<T: Tree, I: Source, S: Sink, L: Ledger>(
    alloc: Global,
    session: &mut Session,
    reader: &mut ScriptReader,
    tree: &mut T,
    input: &mut I,
    out: &mut S,
    steps: &mut Steps<L>,
) -> Result<bool, Refusal>
    requires read { reader.old.read ≤ 1000000 }
    requires agrees { Agrees (T.files tree.old) session.old }
    ensures done { IfOk result (StepIs (T.files tree.old)
        (at session.old (script_left reader.old (I.left input.old)) (ahead reader.old.taken (I.left input.old)) reader.old.read (S.held out.old) steps.old.lower)
        (at session.new (script_left reader.new (I.left input.new)) (ahead reader.new.taken (I.left input.new)) reader.new.read (S.held out.new) steps.new.lower)
        (leaving (ahead reader.new.taken (I.left input.new)) (T.faults tree.old) (T.faults tree.new) (I.faults input.old) (I.faults input.new) (S.held out.new) (S.faults out.old) (S.faults out.new))) }
    ensures cause { IfErr result (Why (stop_causes (T.files tree.old)
        (at session.old (script_left reader.old (I.left input.old)) (ahead reader.old.taken (I.left input.old)) reader.old.read (S.held out.old) steps.old.lower)
        (leaving (ahead reader.new.taken (I.left input.new)) (T.faults tree.old) (T.faults tree.new) (I.faults input.old) (I.faults input.new) (S.held out.new) (S.faults out.old) (S.faults out.new)))) }
    ensures counted { OnOk result (reader.new.read ≡ reader.old.read + 1) }
    ensures more { OnOk result (reader.old.read < 1000000) }
    ensures files { T.files tree.new ≡ T.files tree.old }
    ensures root { T.entered tree.new ≡ T.entered tree.old }
    ensures tree_later { T.faults tree.old ≤ T.faults tree.new }
    ensures input_later { I.faults input.old ≤ I.faults input.new }
    ensures out_later { S.faults out.old ≤ S.faults out.new }
{
    let command = take_command(alloc, reader, input)?;
    perform_command(alloc, &command, session, tree, out, steps)
}

// Performs the commands up to `end`.
fn serve_script<T: Tree, I: Source, S: Sink, L: Ledger>(
    alloc: Global,
    session: &mut Session,
    reader: &mut ScriptReader,
    tree: &mut T,
    input: &mut I,
    out: &mut S,
    steps: &mut Steps<L>,
) -> Result<(), Refusal>
    requires read { reader.old.read ≤ 1000000 }
    requires few { length reader.old.taken ≤ 4096 }
    requires agrees { Agrees (T.files tree.old) session.old }
    ensures done { OnOk result (Ends (T.files tree.old)
        (at session.old (script_left reader.old (I.left input.old)) (ahead reader.old.taken (I.left input.old)) reader.old.read (S.held out.old) steps.old.lower)
        (leaving (ahead reader.new.taken (I.left input.new)) (T.faults tree.old) (T.faults tree.new) (I.faults input.old) (I.faults input.new) (S.held out.new) (S.faults out.old) (S.faults out.new)) steps.new.lower) }
    ensures cause { IfErr result (Why (stop_causes (T.files tree.old)
        (at session.old (script_left reader.old (I.left input.old)) (ahead reader.old.taken (I.left input.old)) reader.old.read (S.held out.old) steps.old.lower)
        (leaving (ahead reader.new.taken (I.left input.new)) (T.faults tree.old) (T.faults tree.new) (I.faults input.old) (I.faults input.new) (S.held out.new) (S.faults out.old) (S.faults out.new)))) }
    ensures files { T.files tree.new ≡ T.files tree.old }
    ensures root { T.entered tree.new ≡ T.entered tree.old }
    ensures tree_later { T.faults tree.old ≤ T.faults tree.new }
    ensures input_later { I.faults input.old ≤ I.faults input.new }
    ensures out_later { S.faults out.old ≤ S.faults out.new }
{
    'commands: loop {
        match step(alloc, session, reader, tree, input, out, steps) {
            Ok(over) => {
                if over {
                    return Ok(());
                }
            }
            Err(refusal) => return Err(refusal),
        }
    }
}
