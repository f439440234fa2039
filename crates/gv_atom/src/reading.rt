//! Reading an atom. O(bytes).
ghost use Rattle.std.specs.Prelude.{◌≡◌, ◌<◌, ◌^◌, None, Some, IfOk, IfErr};
ghost use Rattle.gv_atom.specs.declared.atom.Atom.{Atom};
ghost use Rattle.gv_atom.specs.Grammar.{IsAtomOf};
ghost use Rattle.gv_atom.specs.Reading.{atom_in, division_fault, read_atom};
ghost use Rattle.gv_atom.specs.Fault.{GivesAtom, IsFaultOf};
ghost use Rattle.gv_atom.specs.Parts.{end_place, shown, IsPartFault};

use crate::dividing::{Division, divide};
use crate::items_reading::read_items;
use crate::naming::read_names;
use crate::slots::read_slot;
use crate::{Atom, AtomFault};
use gv_version::split_pf_law;
use std::alloc::Global;

/// The atom that the bytes are (PMS chapter 8). Where they are none, the first part that is bad is told, with its place.
/// Places have 32 bits: where one doesn't fit, which takes bytes of 2^32 and more, no memory is found.
pub fn read_atom(alloc: Global, bytes: &[u8]) -> Result<Atom, AtomFault>
    // What is read is the atom of these bytes.
    ensures atom { IfOk result (λ atom. IsAtomOf bytes.now atom) }
    ensures read { IfOk result (λ atom. read_atom bytes.now ≡ Some atom) }
    // Each atom is read from its text.
    ensures again { (a : Atom) → IsAtomOf bytes.now a → GivesAtom result a }
    ensures bad { IfErr result (IsFaultOf bytes.now) }
{
    split_pf_law();
    match read(alloc, bytes) {
        Ok(atom) => Ok(atom),
        Err(fault) => Err(fault),
    }
}

// The parts are judged in the order in which they stand, the slot part's repository before its slot.
fn read_division(alloc: Global, division: &Division<'_>) -> Result<Atom, AtomFault>
    requires { end_place (shown division.now) < 2 ^ 64 }
    ensures none { IfOk result (λ atom. division_fault (shown division.now) ≡ None) }
    ensures atom { IfOk result (λ atom. atom_in (shown division.now) ≡ Some atom) }
    ensures bad { IfErr result (IsPartFault (division_fault (shown division.now))) }
{
    let names = read_names(alloc, division)?;
    let (slot, mark) = read_slot(alloc, division)?;
    let items = read_items(alloc, division)?;
    Ok(Atom {
        block: division.block,
        op: division.op,
        category: names.category,
        name: names.name,
        version: names.version,
        star: names.star,
        slot,
        mark,
        items,
    })
}

fn read(alloc: Global, bytes: &[u8]) -> Result<Atom, AtomFault>
    ensures read { IfOk result (λ atom. read_atom bytes.now ≡ Some atom) }
    ensures bad { IfErr result (IsFaultOf bytes.now) }
{
    read_division(alloc, &divide(bytes))
}
