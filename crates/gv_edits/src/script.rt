//! The script of a session: its commands in turn, with the number of a bad one and the limit of commands.
//!
//! A command costs O(its bytes), in memory that the longest one bounds.
ghost use Rattle.std.specs.Prelude.{◌≡◌, ◌↔◌, ◌≤◌, ◌+◌, ℕ, List, Option, [], length, IfOk, OnOk, IsErrOf, IfSome, option_map};
ghost use Rattle.gv_base.specs.Causes.{Rose};
ghost use Rattle.gv_edits.specs.Command.{IsBounded};
ghost use Rattle.gv_edits.specs.Script.{Lacks, Leads, led_script, script_left, script_of, without_commands, Broken};

use crate::Command;
use crate::command::read_command;
use crate::pending::{Pending, ReadFault};
use gv_base::{NoMemory, Source};
use std::alloc::Global;
use std::marker::Model;
use thiserror::Error;

/// The most commands of a script that doesn't end before.
pub const MAX_COMMANDS: u32 = 1_000_000;

/// Why no command is read.
#[derive(Clone, Copy, Debug, PartialEq, Eq, Error)]
pub enum ScriptFault {
    /// The command is bad: its line has no command's form, no line feed follows the bytes of a put, or the input ends in it
    /// or where it should begin.
    #[error("bad script: command {command}")]
    Bad {
        /// Its number, from 1.
        command: u32,
    },
    /// `MAX_COMMANDS` commands were read, none of which is `end`.
    #[error("a script has too many commands")]
    Limit,
    /// The source failed, and its count of faults rose.
    #[error("the script could not be read")]
    Failed,
    /// Memory was wanted and not given.
    #[error("out of memory")]
    NoMemory,
}

impl From<ReadFault> for ScriptFault {
    ghost use Rattle.std.specs.Prelude.{◌≡◌};
    ghost use Rattle.gv_edits.specs.ScriptFaults.{as_script_fault};

    ghost from_gives = { λ read fault. fault ≡ as_script_fault read };

    fn from(fault: ReadFault) -> Self {
        match fault {
            ReadFault::Failed => ScriptFault::Failed,
            ReadFault::NoMemory => ScriptFault::NoMemory,
        }
    }
}

/// A script that is read command by command, seen as how many commands were read, and the bytes that were taken from the
/// source and not read yet.
#[derive(Drop)]
pub struct ScriptReader {
    alloc: Global,
    pending: Pending,
    read: u32,
}

impl Model for ScriptReader {
    ghost use Rattle.std.specs.Prelude.{◌≤◌};
    ghost use Rattle.gv_edits.specs.Script.{Reading};

    ghost Value = { Reading };

    ghost view = { λ s. record { read = s.read; taken = s.pending } };

    ghost invariant = { λ s. s.read ≤ 1000000 };
}

impl ScriptReader {
    /// Nothing was read yet, so all of the script is left.
    pub fn new(alloc: Global) -> Result<ScriptReader, NoMemory>
        ensures new { IfOk result (λ reader. reader ≡ record { read = 0; taken = [] }) }
        ensures whole { IfOk result (λ reader. (left : Option (List ℕ)) → script_left reader left ≡ option_map script_of left) }
    {
        let pending = Pending::new(alloc)?;
        Ok(ScriptReader {
            alloc,
            pending,
            read: 0,
        })
    }

    /// The next command of the script that the source gives, in pieces of any size. It asks the source for more only where what
    /// was taken tells neither the command nor that it is bad, so that at most the bytes of one call, 4,096, are taken and not read
    /// yet; where `Limit` is answered it asks for none. The path and the bytes of a command are as short as an edit's. Behind `End` and behind an error nothing is to be read.
    pub fn next_command<I: Source>(&mut self, input: &mut I) -> Result<Command, ScriptFault>
        ensures command { IfOk result (λ command. script_left self.old (I.left input.old) ≡ option_map (led_script command) (script_left self.new (I.left input.new))) }
        ensures leads { IfOk result (λ command. Leads self.old self.new (I.left input.old) (I.left input.new) command) }
        ensures bounded { IfOk result IsBounded }
        ensures lacks { IsErrOf result ScriptFault.Failed → Lacks self.old (I.left input.old) (I.left input.new) }
        ensures few { OnOk result (length self.new.taken ≤ 4096) }
        ensures counted { OnOk result (self.new.read ≡ self.old.read + 1) }
        ensures bad { (number : ℕ) → IsErrOf result (ScriptFault.Bad number) → IfSome (script_left self.old (I.left input.old)) (λ script. script ≡ without_commands Broken) }
        ensures number { (number : ℕ) → IsErrOf result (ScriptFault.Bad number) → number ≡ self.old.read + 1 }
        ensures limit { IsErrOf result ScriptFault.Limit ↔ (self.old.read ≡ 1000000) }
        ensures unread { IsErrOf result ScriptFault.Limit → I.left input.new ≡ I.left input.old }
        ensures same { IsErrOf result ScriptFault.Limit → self.new ≡ self.old }
        ensures few_behind { IsErrOf result ScriptFault.Limit → length self.new.taken ≤ 4096 }
        ensures later { I.faults input.old ≤ I.faults input.new }
        ensures calm { OnOk result (I.faults input.new ≡ I.faults input.old) }
        ensures calm_bad { (number : ℕ) → IsErrOf result (ScriptFault.Bad number) → I.faults input.new ≡ I.faults input.old }
        ensures calm_limit { IsErrOf result ScriptFault.Limit → I.faults input.new ≡ I.faults input.old }
        ensures failed { IsErrOf result ScriptFault.Failed → Rose (I.faults input.old) (I.faults input.new) }
    {
        self.pending.are_few();
        if self.read == MAX_COMMANDS {
            return Err(ScriptFault::Limit);
        }
        match read_command(self.alloc, &mut self.pending, input)? {
            Some(command) => {
                self.read += 1;
                self.pending.are_few();
                Ok(command)
            }
            None => Err(ScriptFault::Bad {
                command: self.read + 1,
            }),
        }
    }
}
