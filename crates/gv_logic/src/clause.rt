//! Clauses and lists of clauses.

ghost use Rattle.std.specs.Prelude.{◌≡◌, ◌*◌, ◌<◌, ◌≤◌, ◌^◌, List, ℕ, [], ◌∷◌, ◌++◌, length, IfOk, OnOk, OnErr, slice_get, slice_index_or, option_map};
ghost use Rattle.std.specs.List.{AllByRecursion};
ghost use Rattle.gv_logic.specs.Formulas.{Formula, IsFormula};

use crate::Lit;
use crate::lit_lists::LitLists;
use gv_base::NoMemory;
use std::alloc::Global;
use std::marker::Model;

/// A clause: literals, of which at least one is meant to be true. At most `2^32 - 1` literals, in
/// the order in which they were written.
#[derive(Drop)]
pub struct Clause {
    items: Vec<Lit>,
}

impl Model for Clause {
    ghost Value = { List ℕ };

    ghost view = { λ c. c.items.items };

    ghost invariant = { λ c. length c.items.items < 2 ^ 32 };
}

impl Clause {
    /// The empty clause, which is never true.
    pub fn new(alloc: Global) -> Clause
        ensures { result ≡ [] }
    {
        Clause {
            items: Vec::new(alloc),
        }
    }

    /// The empty clause, with room for so many literals.
    pub fn with_room(alloc: Global, room: usize) -> Result<Clause, NoMemory>
        ensures { IfOk result (λ clause. clause ≡ []) }
    {
        Ok(Clause {
            items: Vec::with_capacity(alloc, room)?,
        })
    }

    /// The clause of these literals. There is no room for more than a clause can have.
    pub fn of(alloc: Global, lits: &[Lit]) -> Result<Clause, NoMemory>
        ensures { IfOk result (λ clause. clause ≡ lits.now) }
    {
        if lits.len() > u32::MAX as usize {
            return Err(NoMemory);
        }
        Ok(Clause {
            items: Vec::from_slice(alloc, lits)?,
        })
    }

    /// Adds a literal at the end. After an error the clause is unchanged; a full clause has no room
    /// either.
    pub fn add(&mut self, item: Lit) -> Result<(), NoMemory>
        ensures ok { OnOk result (self.new ≡ self.old ++ item ∷ []) }
        ensures err { OnErr result (self.new ≡ self.old) }
    {
        if self.items.len() >= u32::MAX as usize {
            return Err(NoMemory);
        }
        self.items.push(item)?;
        Ok(())
    }

    /// The literals in order.
    pub fn items(&self) -> &[Lit]
        ensures items { result.now ≡ self.now }
        ensures few { length self.now < 2 ^ 32 }
    {
        &self.items
    }

    /// The same clause once more. O(length).
    pub fn copy(&self, alloc: Global) -> Result<Clause, NoMemory>
        ensures { IfOk result (λ clause. clause ≡ self.now) }
    {
        Ok(Clause {
            items: Vec::from_slice(alloc, &self.items)?,
        })
    }
}

/// Clauses over so many variables, numbered from 0: at most `2^32 - 1` of them, with literals of
/// these variables alone, at most `2^32 - 1` in all.
#[derive(Drop)]
pub struct Clauses {
    variables: u32,
    lists: LitLists,
}

impl Model for Clauses {
    ghost Value = { Formula };

    ghost view = { λ c. record { variables = c.variables; clauses = c.lists } };

    ghost invariant = { λ c. IsFormula (record { variables = c.variables; clauses = c.lists }) };
}

impl Clauses {
    /// No clauses over variables 0 to `variables - 1`.
    pub fn new(alloc: Global, variables: u32) -> Clauses
        ensures { result ≡ record { variables = variables; clauses = [] } }
    {
        Clauses {
            variables,
            lists: LitLists::new(alloc),
        }
    }

    /// Adds the clause of these literals at the end. After an error the list is unchanged; a full
    /// list has no room either. O(literals) on average.
    pub fn add(&mut self, lits: &[Lit]) -> Result<(), NoMemory>
        requires { AllByRecursion (λ lit. lit < 2 * self.old.variables) lits.now }
        ensures ok { OnOk result (self.new ≡ record self.old { clauses = self.old.clauses ++ lits.now ∷ [] }) }
        ensures err { OnErr result (self.new ≡ self.old) }
    {
        self.lists.add(lits)?;
        Ok(())
    }

    /// Makes room for so many more clauses, of so many literals in all.
    pub fn reserve(&mut self, clauses: usize, literals: usize) -> Result<(), NoMemory>
        ensures { self.new ≡ self.old }
    {
        self.lists.reserve(clauses, literals)
    }

    /// That the clauses are well formed, which is so of all clauses. It does nothing.
    pub fn formed_law(&self)
        ensures { IsFormula self.now }
    {
        let _ = &self.lists;
    }

    /// The number of variables. O(1).
    pub fn variables(&self) -> u32
        ensures { result ≡ self.now.variables }
    {
        self.variables
    }

    /// The number of clauses. O(1).
    pub fn count(&self) -> u32
        ensures count { result ≡ length self.now.clauses }
        ensures formed { IsFormula self.now }
    {
        self.lists.count()
    }

    /// The literals of the clause of this number, from 0. O(1).
    pub fn at(&self, number: u32) -> &[Lit]
        requires { number < length self.now.clauses }
        ensures { (other : List ℕ) → result.now ≡ slice_index_or self.now.clauses number other }
    {
        self.lists.at(number)
    }

    /// The same; none where there are fewer clauses. O(1).
    pub fn get(&self, number: u32) -> Option<&[Lit]>
        ensures { slice_get self.now.clauses number ≡ option_map (λ lits. lits.now) result }
    {
        if number >= self.count() {
            return None;
        }
        Some(self.at(number))
    }

    /// The same clauses once more. O(clauses and literals).
    pub fn copy(&self, alloc: Global) -> Result<Clauses, NoMemory>
        ensures { IfOk result (λ clauses. clauses ≡ self.now) }
    {
        Ok(Clauses {
            variables: self.variables,
            lists: self.lists.copy(alloc)?,
        })
    }
}
