//! What the clauses of gates say.

ghost use Rattle.std.specs.Prelude.{◌≡◌, ◌↔◌, Bool, true, List, length};
ghost use Rattle.gv_logic.specs.Literals.{AllTrue};
ghost use Rattle.gv_logic.specs.Circuits.{Circuit, IsCircuit, at, values, value};
ghost use Rattle.gv_logic.specs.Encoding.{all_clauses};
ghost use Rattle.gv_encode.specs.Extends.{Extends};

/// The encoding law. For each choice of the inputs' bits there is one assignment of all variables
/// that agrees with it and makes every clause but the last true, and it gives each gate its value.
/// So bits give the root true exactly where they extend to an assignment that makes all clauses
/// true.
pub fn encoding_law()
    ensures one { (g : Circuit) (bits : List Bool) → IsCircuit g → length bits ≡ g.inputs
        → Extends g bits (values g bits) }
    ensures only { (g : Circuit) (bits all : List Bool) → IsCircuit g → Extends g bits all
        → all ≡ values g bits }
    ensures root { (g : Circuit) (bits : List Bool) → IsCircuit g → length bits ≡ g.inputs
        → ((value g bits ≡ true) ↔ ((all : List Bool) × Extends g bits all × AllTrue (at all) (all_clauses g))) }
{}
