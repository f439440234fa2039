//! The commands of the script of a session, one after another.
//!
//! A command costs O(its bytes), and takes memory for the longest one alone.
ghost use Rattle.std.specs.Prelude.{◌≡◌, ◌≤◌, ℕ, List, true, nat_lt, length, option_map, IfOk, IfSome, OnOk, IsErrOf, MatchOption};
ghost use Rattle.gv_base.specs.Causes.{Rose};
ghost use Rattle.gv_edits.specs.Command.{before_feed, behind_line, completed, first_command, first_content};
ghost use Rattle.gv_edits.specs.Pending.{whole};
ghost use Rattle.gv_edits.specs.declared.command.Command as commands;
ghost use Rattle.gv_edits.specs.Reading.{Finds, FindsNone, Reads, and_rest};

use crate::begun::{Begun, read_begun};
use crate::line::read_line;
use crate::pending::{Pending, ReadFault};
use gv_base::{Source, Text};
use std::alloc::Global;

/// A command of a session.
#[derive(Drop)]
pub enum Command {
    /// Sets one path.
    Put {
        /// The second word of the command's line: a path of at most `MAX_PATH_BYTES` bytes.
        path: Text,
        /// The bytes of the file.
        bytes: Text,
    },
    /// Removes one path.
    Cut {
        /// The second word of the command's line: a path of at most `MAX_PATH_BYTES` bytes.
        path: Text,
    },
    /// Writes the report of the files with the edits so far.
    Report,
    /// Ends the session.
    End,
}

/// The next command, and `None` exactly where it is bad or none begins. It reads no more bytes than it must to know that.
#[tactic(auto, using(crate::proofs::Commands::no_line, crate::proofs::Commands::some_line, crate::proofs::Heads::command_lacks_line, crate::proofs::Heads::command_found_if, crate::proofs::Heads::command_lacks))]
pub(crate) fn read_command<I: Source>(
    alloc: Global,
    pending: &mut Pending,
    input: &mut I,
) -> Result<Option<Command>, ReadFault>
    ensures command { IfOk result (λ command. option_map first_command (whole pending.old (I.left input.old)) ≡ option_map (and_rest command) (whole pending.new (I.left input.new))) }
    ensures finds { IfOk result (λ command. IfSome command (Finds commands.Command first_command pending.old (I.left input.old) pending.new (I.left input.new))) }
    ensures lacks { IsErrOf result ReadFault.Failed → FindsNone commands.Command first_command pending.old (I.left input.old) (I.left input.new) }
    ensures later { I.faults input.old ≤ I.faults input.new }
    ensures calm { OnOk result (I.faults input.new ≡ I.faults input.old) }
    ensures failed { IsErrOf result ReadFault.Failed → Rose (I.faults input.old) (I.faults input.new) }
{
    match read_line(alloc, pending, input)? {
        Some(line) => read_behind(alloc, pending, input, &line),
        None => Ok(None),
    }
}

// The command of a line.
#[tactic(auto, using(crate::proofs::Commands::no_begun, crate::proofs::Commands::some_begun, crate::proofs::Heads::behind_found_if, crate::proofs::Heads::behind_lacks))]
fn read_behind<I: Source>(
    alloc: Global,
    pending: &mut Pending,
    input: &mut I,
    line: &Text,
) -> Result<Option<Command>, ReadFault>
    ensures command { IfOk result (λ command. option_map (behind_line line.now) (whole pending.old (I.left input.old)) ≡ option_map (and_rest command) (whole pending.new (I.left input.new))) }
    ensures finds { IfOk result (λ command. IfSome command (Finds commands.Command (behind_line line.now) pending.old (I.left input.old) pending.new (I.left input.new))) }
    ensures lacks { IsErrOf result ReadFault.Failed → FindsNone commands.Command (behind_line line.now) pending.old (I.left input.old) (I.left input.new) }
    ensures later { I.faults input.old ≤ I.faults input.new }
    ensures calm { OnOk result (I.faults input.new ≡ I.faults input.old) }
    ensures failed { IsErrOf result ReadFault.Failed → Rose (I.faults input.old) (I.faults input.new) }
{
    match read_begun(alloc, line.bytes())? {
        Some(begun) => complete(alloc, pending, input, begun),
        None => Ok(None),
    }
}

#[tactic(auto, using(crate::proofs::Commands::put_completed, crate::proofs::Commands::cut_completed, crate::proofs::Commands::report_completed, crate::proofs::Commands::end_completed, crate::proofs::Heads::put_found_if, crate::proofs::Heads::put_lacks, crate::proofs::Heads::cut_found, crate::proofs::Heads::report_found, crate::proofs::Heads::end_found))]
fn complete<I: Source>(
    alloc: Global,
    pending: &mut Pending,
    input: &mut I,
    begun: Begun,
) -> Result<Option<Command>, ReadFault>
    ensures command { IfOk result (λ command. option_map (completed begun) (whole pending.old (I.left input.old)) ≡ option_map (and_rest command) (whole pending.new (I.left input.new))) }
    ensures finds { IfOk result (λ command. IfSome command (Finds commands.Command (completed begun) pending.old (I.left input.old) pending.new (I.left input.new))) }
    ensures lacks { IsErrOf result ReadFault.Failed → FindsNone commands.Command (completed begun) pending.old (I.left input.old) (I.left input.new) }
    ensures later { I.faults input.old ≤ I.faults input.new }
    ensures calm { OnOk result (I.faults input.new ≡ I.faults input.old) }
    ensures failed { IsErrOf result ReadFault.Failed → Rose (I.faults input.old) (I.faults input.new) }
{
    match begun {
        Begun::Put { path, size } => {
            let content = read_content(alloc, pending, input, size)?;
            Ok(put_of(path, content))
        }
        Begun::Cut { path } => Ok(Some(Command::Cut { path })),
        Begun::Report => Ok(Some(Command::Report)),
        Begun::End => Ok(Some(Command::End)),
    }
}

fn put_of(path: Text, content: Option<Text>) -> Option<Command>
    ensures { result ≡ option_map (Command.Put path) content }
{
    match content {
        None => None,
        Some(bytes) => Some(Command::Put { path, bytes }),
    }
}

// The next bytes, so many, where a line feed is behind them; `None` exactly where they are fewer or other bytes follow.
#[tactic(auto, using(crate::proofs::Commands::too_few, crate::proofs::Commands::content_read, crate::proofs::Heads::content_found_if, crate::proofs::Heads::content_lacks))]
fn read_content<I: Source>(
    alloc: Global,
    pending: &mut Pending,
    input: &mut I,
    size: u32,
) -> Result<Option<Text>, ReadFault>
    ensures content { IfOk result (λ content. option_map (first_content size) (whole pending.old (I.left input.old)) ≡ option_map (and_rest content) (whole pending.new (I.left input.new))) }
    ensures finds { IfOk result (λ content. IfSome content (Finds (List ℕ) (first_content size) pending.old (I.left input.old) pending.new (I.left input.new))) }
    ensures lacks { IsErrOf result ReadFault.Failed → FindsNone (List ℕ) (first_content size) pending.old (I.left input.old) (I.left input.new) }
    ensures later { I.faults input.old ≤ I.faults input.new }
    ensures calm { OnOk result (I.faults input.new ≡ I.faults input.old) }
    ensures failed { IsErrOf result ReadFault.Failed → Rose (I.faults input.old) (I.faults input.new) }
{
    match read_bytes(alloc, pending, input, size)? {
        Some(content) => before_feed(pending, input, content),
        None => Ok(None),
    }
}

// The bytes, where a line feed comes next.
#[tactic(auto, using(crate::proofs::Commands::fed, crate::proofs::Commands::unfed, crate::proofs::Commands::never_fed, crate::proofs::Heads::feed_found, crate::proofs::Heads::feed_lacks))]
fn before_feed<I: Source>(
    pending: &mut Pending,
    input: &mut I,
    content: Text,
) -> Result<Option<Text>, ReadFault>
    ensures content { IfOk result (λ fed. option_map (before_feed content) (whole pending.old (I.left input.old)) ≡ option_map (and_rest fed) (whole pending.new (I.left input.new))) }
    ensures finds { IfOk result (λ fed. IfSome fed (Finds (List ℕ) (before_feed content) pending.old (I.left input.old) pending.new (I.left input.new))) }
    ensures lacks { IsErrOf result ReadFault.Failed → FindsNone (List ℕ) (before_feed content) pending.old (I.left input.old) (I.left input.new) }
    ensures later { I.faults input.old ≤ I.faults input.new }
    ensures calm { OnOk result (I.faults input.new ≡ I.faults input.old) }
    ensures failed { IsErrOf result ReadFault.Failed → Rose (I.faults input.old) (I.faults input.new) }
{
    match pending.next_byte(input) {
        Ok(Some(b'\n')) => Ok(Some(content)),
        Ok(Some(_)) => Ok(None),
        Ok(None) => Ok(None),
        Err(_) => Err(ReadFault::Failed),
    }
}

// The next bytes, so many, and `None` exactly where fewer are left.
#[tactic(auto, using(crate::proofs::Commands::few_left, crate::proofs::Heads::reads_nothing, crate::proofs::Heads::reads_moved, crate::proofs::Heads::bytes_lack))]
fn read_bytes<I: Source>(
    alloc: Global,
    pending: &mut Pending,
    input: &mut I,
    size: u32,
) -> Result<Option<Text>, ReadFault>
    ensures bytes { IfOk result (λ read. MatchOption read (option_map (λ bytes. nat_lt (length bytes) size) (whole pending.old (I.left input.old)) ≡ option_map (λ _. true) (whole pending.new (I.left input.new))) (λ text. (length text ≡ size) × (whole pending.old (I.left input.old) ≡ whole text (whole pending.new (I.left input.new))))) }
    ensures reads { IfOk result (λ read. IfSome read (λ text. Reads pending.old (I.left input.old) text pending.new (I.left input.new))) }
    ensures lacks { IsErrOf result ReadFault.Failed → FindsNone (List ℕ) (first_content size) pending.old (I.left input.old) (I.left input.new) }
    ensures later { I.faults input.old ≤ I.faults input.new }
    ensures calm { OnOk result (I.faults input.new ≡ I.faults input.old) }
    ensures failed { IsErrOf result ReadFault.Failed → Rose (I.faults input.old) (I.faults input.new) }
{
    let most = size as usize;
    let mut text = Text::of(alloc, &[])?;
    while text.bytes().len() < most {
        let missing = most - text.bytes().len();
        if pending.move_bytes(input, missing, &mut text)? == 0 {
            return Ok(None);
        }
    }
    Ok(Some(text))
}
