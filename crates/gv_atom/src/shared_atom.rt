//! An atom that several have. Each call costs O(1); sharing takes no memory for it.
ghost use Rattle.std.specs.Prelude.{◌≡◌, IfOk};

use crate::Atom;
use gv_base::NoMemory;
use std::alloc::Global;
use std::marker::Model;
use std::rc::Rc;

/// An atom that several may have.
#[derive(Drop)]
pub struct SharedAtom {
    atom: Rc<Atom>,
}

impl Model for SharedAtom {
    ghost use Rattle.gv_atom.specs.declared.atom.Atom.{Atom};

    ghost Value = { Atom };

    ghost view = { λ s. s.atom.value };
}

impl SharedAtom {
    /// The atom, which one has.
    pub fn new(alloc: Global, atom: Atom) -> Result<SharedAtom, NoMemory>
        ensures { IfOk result (λ shared. shared ≡ atom) }
    {
        let atom = Rc::new(alloc, atom)?;
        Ok(SharedAtom { atom })
    }

    /// The atom.
    pub fn atom(&self) -> &Atom
        ensures { result.now ≡ self.now }
    {
        self.atom.as_ref()
    }

    /// The same atom for one more.
    pub fn share(&self) -> Result<SharedAtom, NoMemory>
        ensures { IfOk result (λ shared. shared ≡ self.now) }
    {
        let atom = self.atom.clone()?;
        Ok(SharedAtom { atom })
    }
}
