//! The stacks of profiles, by line. `add` costs O(1) on average, `at` a comparison of numbers for each stack up to the one
//! that it finds, `copy` O(bytes).
ghost use Rattle.std.specs.Prelude.{◌≡◌, [], ◌∷◌, ◌++◌, IfOk, OnOk, OnErr};
ghost use Rattle.std.specs.Option.{option_copied};
ghost use Rattle.gv_usedefaults.specs.Walk.{stack_at};

use gv_base::{NoMemory, Texts};
use std::alloc::Global;
use std::marker::Model;

/// The stack of a profile.
#[derive(Drop)]
pub struct Stack {
    /// The line of the profile in `profiles/profiles.desc`, from 1.
    pub line: u32,
    /// The directories, those of the parents first; one that is reached twice stands here twice.
    pub dirs: Texts,
}

impl Stack {
    /// An equal stack.
    pub fn copy(&self, alloc: Global) -> Result<Stack, NoMemory>
        ensures { IfOk result (λ stack. stack ≡ self.now) }
    {
        Ok(Stack {
            line: self.line,
            dirs: self.dirs.copy(alloc)?,
        })
    }
}

/// A list of stacks, in the order of their lines where a walk made them.
#[derive(Drop)]
pub struct Stacks {
    items: Vec<Stack>,
}

impl Model for Stacks {
    ghost use Rattle.std.specs.Prelude.{List};
    ghost use Rattle.gv_usedefaults.specs.declared.stacks.Stack.{Stack};

    ghost Value = { List Stack };

    ghost view = { λ l. l.items.items };
}

impl Stacks {
    /// No stacks.
    pub fn new(alloc: Global) -> Self
        ensures { result ≡ [] }
    {
        Stacks {
            items: Vec::new(alloc),
        }
    }

    /// Adds a stack at the end. After an error the list is unchanged.
    pub fn add(&mut self, item: Stack) -> Result<(), NoMemory>
        ensures ok { OnOk result (self.new ≡ self.old ++ item ∷ []) }
        ensures err { OnErr result (self.new ≡ self.old) }
    {
        self.items.push(item)?;
        Ok(())
    }

    /// The stacks, in order.
    pub fn items(&self) -> &[Stack]
        ensures { result.now ≡ self.now }
    {
        &self.items
    }

    /// The first stack of a line.
    pub fn at(&self, line: u32) -> Option<&Stack>
        ensures { option_copied result ≡ stack_at self.now line }
    {
        for stack in self.items() {
            if stack.line == line {
                return Some(stack);
            }
        }
        None
    }

    /// An equal list.
    pub fn copy(&self, alloc: Global) -> Result<Self, NoMemory>
        ensures { IfOk result (λ stacks. stacks ≡ self.now) }
    {
        let mut stacks = Stacks::new(alloc);
        for item in self.items() {
            stacks.add(item.copy(alloc)?)?;
        }
        Ok(stacks)
    }
}
