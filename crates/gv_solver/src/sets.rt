//! Sets of inputs, and lists of them.

ghost use Rattle.std.specs.Prelude.{◌≡◌, List, ℕ, [], ◌∷◌, ◌++◌, IfOk, OnOk, OnErr};

use gv_base::NoMemory;
use std::alloc::Global;
use std::marker::Model;

/// A set of inputs, by their numbers. The solver hands them out in rising order.
#[derive(Drop)]
pub struct FlagSet {
    items: Vec<u32>,
}

impl Model for FlagSet {
    ghost Value = { List ℕ };

    ghost view = { λ s. s.items.items };
}

impl FlagSet {
    /// The set of these inputs.
    pub fn of(items: Vec<u32>) -> FlagSet
        ensures { result ≡ items.items }
    {
        FlagSet { items }
    }

    /// The inputs in order.
    pub fn items(&self) -> &[u32]
        ensures { result.now ≡ self.now }
    {
        &self.items
    }

    /// The same set once more.
    pub fn copy(&self, alloc: Global) -> Result<FlagSet, NoMemory>
        ensures { IfOk result (λ set. set ≡ self.now) }
    {
        Ok(FlagSet {
            items: self.items.to_vec(alloc)?,
        })
    }
}

/// A list of sets of inputs.
#[derive(Drop)]
pub struct FlagSets {
    items: Vec<FlagSet>,
}

impl Model for FlagSets {
    ghost Value = { List (List ℕ) };

    ghost view = { λ s. s.items.items };
}

impl FlagSets {
    /// No sets.
    pub fn new(alloc: Global) -> FlagSets
        ensures { result ≡ [] }
    {
        FlagSets {
            items: Vec::new(alloc),
        }
    }

    /// Adds a set at the end. After an error the list is unchanged.
    pub fn add(&mut self, item: FlagSet) -> Result<(), NoMemory>
        ensures ok { OnOk result (self.new ≡ self.old ++ item ∷ []) }
        ensures err { OnErr result (self.new ≡ self.old) }
    {
        self.items.push(item)?;
        Ok(())
    }

    /// The sets in order.
    pub fn items(&self) -> &[FlagSet]
        ensures { result.now ≡ self.now }
    {
        &self.items
    }

    /// The same sets once more.
    pub fn copy(&self, alloc: Global) -> Result<FlagSets, NoMemory>
        ensures { IfOk result (λ sets. sets ≡ self.now) }
    {
        let mut sets = FlagSets::new(alloc);
        for set in &self.items {
            sets.add(set.copy(alloc)?)?;
        }
        Ok(sets)
    }
}
