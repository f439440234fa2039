//! Lists of literals, one after another in one list, so that none has memory of its own.

ghost use Rattle.std.specs.Prelude.{◌≡◌, ◌<◌, ◌≤◌, ◌^◌, List, ℕ, [], ◌∷◌, ◌++◌, length, IfOk, OnOk, OnErr, slice_index_or};
ghost use Rattle.gv_logic.specs.LitLists.{cut_at, lit_count, start_of, IsCut};

use crate::Lit;
use gv_base::NoMemory;
use std::alloc::Global;
use std::marker::Model;

/// Lists of literals: at most `2^32 - 1`, of at most `2^32 - 1` literals in all.
#[derive(Drop)]
pub(crate) struct LitLists {
    // those of all lists
    lits: Vec<Lit>,
    // by list, how many literals stand up to its end
    ends: Vec<u32>,
}

impl Model for LitLists {
    ghost Value = { List (List ℕ) };

    ghost view = { λ l. cut_at l.ends.items l.lits.items };

    ghost invariant = { λ l. IsCut l.ends.items l.lits.items };
}

impl LitLists {
    /// No lists.
    pub(crate) fn new(alloc: Global) -> LitLists
        ensures { result ≡ [] }
    {
        LitLists {
            lits: Vec::new(alloc),
            ends: Vec::new(alloc),
        }
    }

    /// Adds a list at the end. After an error the lists are unchanged; full ones have no room
    /// either. O(literals) on average.
    pub(crate) fn add(&mut self, lits: &[Lit]) -> Result<(), NoMemory>
        ensures ok { OnOk result (self.new ≡ self.old ++ lits.now ∷ []) }
        ensures few { OnOk result (length self.new < 2 ^ 32) }
        ensures err { OnErr result (self.new ≡ self.old) }
    {
        if self.ends.len() >= u32::MAX as usize {
            return Err(NoMemory);
        }
        if lits.len() > u32::MAX as usize - self.lits.len() {
            return Err(NoMemory);
        }
        // so no step behind the literals can fail
        self.ends.reserve(1)?;
        self.lits.extend_from_slice(lits)?;
        self.ends.push_reserved(self.lits.len() as u32);
        Ok(())
    }

    /// Makes room for so many more lists, of so many literals in all.
    pub(crate) fn reserve(&mut self, lists: usize, literals: usize) -> Result<(), NoMemory>
        ensures { self.new ≡ self.old }
    {
        self.ends.reserve(lists)?;
        self.lits.reserve(literals)?;
        Ok(())
    }

    /// How many lists there are.
    #[tactic(auto, using(crate::proofs::LitLists::length_cut))]
    pub(crate) fn count(&self) -> u32
        ensures count { result ≡ length self.now }
    {
        self.ends.len() as u32
    }

    /// How many literals the lists have together. O(1).
    pub(crate) fn literals(&self) -> u32
        ensures { result ≡ lit_count self.now }
    {
        self.lits.len() as u32
    }

    /// The list of this number, from 0. O(1).
    pub(crate) fn at(&self, number: u32) -> &[Lit]
        requires { number < length self.now }
        ensures list { (other : List ℕ) → result.now ≡ slice_index_or self.now number other }
        ensures few { length result.now < 2 ^ 32 }
    {
        let number = number as usize;
        let from = start(&self.ends, number);
        &self.lits[from..self.ends[number] as usize]
    }

    /// The same lists once more. O(lists and literals).
    pub(crate) fn copy(&self, alloc: Global) -> Result<LitLists, NoMemory>
        ensures { IfOk result (λ lists. lists ≡ self.now) }
    {
        Ok(LitLists {
            lits: Vec::from_slice(alloc, &self.lits)?,
            ends: Vec::from_slice(alloc, &self.ends)?,
        })
    }
}

// Where the list of this number begins.
#[tactic(auto, using(crate::proofs::LitLists::first_start, crate::proofs::LitLists::next_start))]
fn start(ends: &[u32], number: usize) -> usize
    requires { number ≤ length ends.now }
    ensures { result ≡ start_of ends.now number }
{
    if number == 0 {
        return 0;
    }
    ends[number - 1] as usize
}
