//! What a backed claim says of gates, and that its bytes are a backed answer.

ghost use Rattle.gv_logic.specs.Circuits.{Circuit, IsCircuit};
ghost use Rattle.gv_logic.specs.Encoding.{clause_count};
ghost use Rattle.gv_cert.specs.Claim.{answer_bytes, log_of, IsLog};
ghost use Rattle.gv_cert.specs.Backing.{Backs, IsBacked};
ghost use Rattle.gv_cert.specs.declared.claim.Claim.{Claim};
ghost use Rattle.gv_query.specs.Truth.{IsSo};

use gv_solver::backed_law;

/// The backing law. What is claimed of gates and backed by its log is so: no bits give the root true, or these are the
/// least that do. The bytes that `write_answer` writes of it are a backed answer.
pub fn backing_law()
    ensures so { (g : Circuit) (claim : Claim) → IsCircuit g → Backs g claim → IsSo g claim }
    ensures written { (g : Circuit) (claim : Claim) → Backs g claim → IsLog (clause_count g) (log_of claim) → IsBacked g (answer_bytes g claim) }
{
    backed_law();
}
