//! How many clauses gates have. What they are stands in the definitions; they are made in the crate above.

ghost use Rattle.std.specs.Prelude.{◌≡◌};
ghost use Rattle.gv_logic.specs.Encoding.{clause_count};

use crate::Gates;

/// The number of clauses of the gates: one for each operand, one for each gate, and that of the root. O(1).
pub fn clause_count(gates: &Gates) -> u32
    ensures { result ≡ clause_count gates.now }
{
    gates.operand_count() + gates.count() + 1
}
