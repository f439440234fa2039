//! A law of the definitions: the function does nothing, and its contract holds of all texts and atoms.
ghost use Rattle.std.specs.Prelude.{◌≡◌, ℕ, List, None, true};
ghost use Rattle.gv_atom.specs.declared.atom.Atom.{Atom};
ghost use Rattle.gv_atom.specs.Grammar.{is_atom};
ghost use Rattle.gv_atom.specs.Reading.{atom_fault};
ghost use Rattle.gv_atom.specs.Laws.{IsRead, IsWritten};

use gv_version::split_pf_law;

/// A text without a fault is that of the atom that is read of it, and the text of each atom is read as that atom.
pub fn atom_law()
    ensures read { (bytes : List ℕ) → atom_fault bytes ≡ None → IsRead bytes }
    ensures written { (a : Atom) → is_atom a ≡ true → IsWritten a }
{
    split_pf_law();
}
