//! Literals and lists of literals.

ghost use Rattle.std.specs.Prelude.{◌≡◌, ◌<◌, ◌^◌, List, ℕ, [], ◌∷◌, ◌++◌, length, IfOk, OnOk, OnErr};
ghost use Rattle.gv_logic.specs.Literals.{opposite};
ghost use Rattle.gv_logic.specs.Partial.{is_true};

use gv_base::NoMemory;
use std::alloc::Global;
use std::marker::Model;

/// A literal, by its number: `2 * v` is true where variable v is on, and its opposite `2 * v + 1`
/// where v is off.
#[derive(Clone, Copy, Debug, PartialEq, Eq)]
pub struct Lit(pub u32);

impl Model for Lit {
    ghost Value = { ℕ };

    ghost view = { λ l. l.0 };

    ghost inverse = { λ n. record { 0 = n } };
}

impl Lit {
    /// The literal of the same variable that is true where this one is not.
    pub fn opposite(self) -> Lit
        ensures { result ≡ opposite self }
    {
        if self.0 % 2 == 0 {
            Lit(self.0 + 1)
        } else {
            Lit(self.0 - 1)
        }
    }
}

/// Whether the literal is true under a partial assignment, which has a truth value for each literal
/// by its number. One past its end isn't true.
pub fn is_on(on: &[bool], lit: Lit) -> bool
    ensures { result ≡ is_true on.now lit }
{
    match on.get(lit.0 as usize) {
        Some(value) => *value,
        None => false,
    }
}

/// A list of literals, of at most `2^32 - 1`.
#[derive(Drop)]
pub struct Lits {
    items: Vec<Lit>,
}

impl Model for Lits {
    ghost Value = { List ℕ };

    ghost view = { λ l. l.items.items };

    ghost invariant = { λ l. length l.items.items < 2 ^ 32 };
}

impl Lits {
    /// No literals.
    pub fn new(alloc: Global) -> Lits
        ensures { result ≡ [] }
    {
        Lits {
            items: Vec::new(alloc),
        }
    }

    /// These literals. There is no room for more than a list can have.
    pub fn of(alloc: Global, lits: &[Lit]) -> Result<Lits, NoMemory>
        ensures { IfOk result (λ list. list ≡ lits.now) }
    {
        if lits.len() > u32::MAX as usize {
            return Err(NoMemory);
        }
        Ok(Lits {
            items: Vec::from_slice(alloc, lits)?,
        })
    }

    /// Adds a literal at the end. After an error the list is unchanged; a full list has no room
    /// either.
    pub fn add(&mut self, item: Lit) -> Result<(), NoMemory>
        ensures ok { OnOk result (self.new ≡ self.old ++ item ∷ []) }
        ensures err { OnErr result (self.new ≡ self.old) }
    {
        if self.items.len() >= u32::MAX as usize {
            return Err(NoMemory);
        }
        self.items.push(item)?;
        Ok(())
    }

    /// The literals in order.
    pub fn items(&self) -> &[Lit]
        ensures items { result.now ≡ self.now }
        ensures few { length self.now < 2 ^ 32 }
    {
        &self.items
    }

    /// The same literals once more. O(length).
    pub fn copy(&self, alloc: Global) -> Result<Lits, NoMemory>
        ensures { IfOk result (λ lits. lits ≡ self.now) }
    {
        Ok(Lits {
            items: Vec::from_slice(alloc, &self.items)?,
        })
    }
}
