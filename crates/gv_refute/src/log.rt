//! Logs: lists of steps.

ghost use Rattle.std.specs.Prelude.{◌≡◌, ◌<◌, ◌^◌, List, ℕ, [], ◌∷◌, ◌++◌, length, IfOk, OnOk, OnErr};
ghost use Rattle.gv_logic.specs.Logs.{Step as LogStep};

use gv_base::NoMemory;
use gv_logic::Clause;
use std::alloc::Global;
use std::marker::Model;

/// The numbers of clauses by which a step follows, in the order in which they are taken: below the
/// number of clauses a clause, from there on the clause of a step. At most `2^32 - 1`.
#[derive(Drop)]
pub struct Hints {
    items: Vec<u32>,
}

impl Model for Hints {
    ghost Value = { List ℕ };

    ghost view = { λ h. h.items.items };

    ghost invariant = { λ h. length h.items.items < 2 ^ 32 };
}

impl Hints {
    /// No hints.
    pub fn new(alloc: Global) -> Hints
        ensures { result ≡ [] }
    {
        Hints {
            items: Vec::new(alloc),
        }
    }

    /// These hints. There is no room for more than a list can have.
    pub fn of(alloc: Global, hints: &[u32]) -> Result<Hints, NoMemory>
        ensures { IfOk result (λ list. list ≡ hints.now) }
    {
        if hints.len() > u32::MAX as usize {
            return Err(NoMemory);
        }
        Ok(Hints {
            items: Vec::from_slice(alloc, hints)?,
        })
    }

    /// Adds a hint at the end. After an error the list is unchanged; a full list has no room either.
    pub fn add(&mut self, item: u32) -> Result<(), NoMemory>
        ensures ok { OnOk result (self.new ≡ self.old ++ item ∷ []) }
        ensures err { OnErr result (self.new ≡ self.old) }
    {
        if self.items.len() >= u32::MAX as usize {
            return Err(NoMemory);
        }
        self.items.push(item)?;
        Ok(())
    }

    /// The numbers in order.
    pub fn items(&self) -> &[u32]
        ensures items { result.now ≡ self.now }
        ensures few { length self.now < 2 ^ 32 }
    {
        &self.items
    }

    /// The same hints once more. O(length).
    pub fn copy(&self, alloc: Global) -> Result<Hints, NoMemory>
        ensures { IfOk result (λ hints. hints ≡ self.now) }
    {
        Ok(Hints {
            items: Vec::from_slice(alloc, &self.items)?,
        })
    }
}

/// A clause, and the hints by which it follows from the clauses and the earlier steps.
#[derive(Drop)]
pub struct Step {
    /// What follows.
    pub clause: Clause,
    /// By which clauses.
    pub hints: Hints,
}

impl Model for Step {
    ghost use Rattle.gv_logic.specs.Logs.{Step as LogStep};

    ghost Value = { LogStep };

    ghost view = { λ s. record { clause = s.clause; hints = s.hints } };
}

impl Step {
    /// The same step once more. O(literals and hints).
    pub fn copy(&self, alloc: Global) -> Result<Step, NoMemory>
        ensures { IfOk result (λ step. step ≡ self.now) }
    {
        Ok(Step {
            clause: self.clause.copy(alloc)?,
            hints: self.hints.copy(alloc)?,
        })
    }
}

/// Steps, numbered from 0. At most `2^32 - 1`.
#[derive(Drop)]
pub struct Log {
    items: Vec<Step>,
}

impl Model for Log {
    ghost use Rattle.std.specs.Prelude.{◌<◌, ◌^◌, List, length};
    ghost use Rattle.gv_logic.specs.Logs.{Step as LogStep};

    ghost Value = { List LogStep };

    ghost view = { λ l. l.items.items };

    ghost invariant = { λ l. length l.items.items < 2 ^ 32 };
}

impl Log {
    /// No steps.
    pub fn new(alloc: Global) -> Log
        ensures { result ≡ [] }
    {
        Log {
            items: Vec::new(alloc),
        }
    }

    /// Adds a step at the end. After an error the log is unchanged; a full log has no room either.
    pub fn add(&mut self, item: Step) -> Result<(), NoMemory>
        ensures ok { OnOk result (self.new ≡ self.old ++ item ∷ []) }
        ensures err { OnErr result (self.new ≡ self.old) }
    {
        if self.items.len() >= u32::MAX as usize {
            return Err(NoMemory);
        }
        self.items.push(item)?;
        Ok(())
    }

    /// The steps in order.
    pub fn items(&self) -> &[Step]
        ensures items { result.now ≡ self.now }
        ensures few { length self.now < 2 ^ 32 }
    {
        &self.items
    }

    /// The same steps once more. O(steps, literals and hints).
    pub fn copy(&self, alloc: Global) -> Result<Log, NoMemory>
        ensures { IfOk result (λ log. log ≡ self.now) }
    {
        let mut log = Log::new(alloc);
        for step in self.items() {
            log.add(step.copy(alloc)?)?;
        }
        Ok(log)
    }
}
