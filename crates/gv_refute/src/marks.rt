//! Which literals are true, for one step at a time.
//!
//! Marking and asking are O(1). Unmarking costs what was marked and not the number of variables,
//! since the marked literals are noted in order. Room for all notes is taken by `new`, so marking
//! takes no memory.

ghost use Rattle.std.specs.Prelude.{◌≡◌, ◌*◌, false, true, List, Bool, length, replicate, slice_set, IfOk};
ghost use Rattle.gv_logic.specs.Partial.{is_true};
ghost use Rattle.gv_refute.specs.Marks.{IsNoted};

use gv_base::NoMemory;
use gv_logic::Lit;
use std::alloc::Global;
use std::marker::Model;

/// A mark for each literal of so many variables. Contracts see the list of the marks by literal
/// number.
#[derive(Drop)]
pub struct Marks {
    on: Vec<bool>,
    noted: Vec<Lit>,
}

impl Model for Marks {
    ghost use Rattle.std.specs.Prelude.{◌≤◌, List, Bool, length, vec_capacity};
    ghost use Rattle.gv_refute.specs.Marks.{IsNoted};

    ghost Value = { List Bool };

    ghost view = { λ m. m.on.items };

    ghost invariant = { λ m. IsNoted m.on.items m.noted.items × (length m.on.items ≤ vec_capacity m.noted) };
}

impl Marks {
    /// Marks for so many variables, with nothing marked.
    pub fn new(alloc: Global, variables: u32) -> Result<Marks, NoMemory>
        ensures { IfOk result (λ marks. marks ≡ replicate (2 * variables) false) }
    {
        let literals = 2 * variables as usize;
        let on = vec![in alloc; false; literals]?;
        let noted = Vec::with_capacity(alloc, literals)?;
        Ok(Marks { on, noted })
    }

    // How many literals there are.
    pub(crate) fn count(&self) -> usize
        ensures { result ≡ length self.now }
    {
        self.on.len()
    }

    pub(crate) fn is_true(&self, lit: Lit) -> bool
        ensures { result ≡ is_true self.now lit }
    {
        match self.on.get(lit.0 as usize) {
            Some(on) => *on,
            None => false,
        }
    }

    // Marks a literal that isn't marked; nothing happens where there is no such literal.
    pub(crate) fn set(&mut self, lit: Lit)
        requires { is_true self.old lit ≡ false }
        ensures { self.new ≡ slice_set self.old lit true }
    {
        if lit.0 as usize >= self.on.len() {
            return;
        }
        self.on[lit.0 as usize] = true;
        match self.noted.push(lit) {
            Ok(()) => {}
            Err(_) => unreachable!(),
        }
    }

    // Takes all marks away.
    pub(crate) fn clear(&mut self)
        ensures { self.new ≡ replicate (length self.old) false }
    {
        while let Some(lit) = self.noted.pop() {
            if (lit.0 as usize) < self.on.len() {
                self.on[lit.0 as usize] = false;
            }
        }
    }
}
