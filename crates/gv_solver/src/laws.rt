//! What can be relied on without the solver: what a backed answer means, and how many kept sets there
//! can be.

ghost use Rattle.std.specs.Prelude.{◌<◌, ◌^◌, ℕ, List, [], length};
ghost use Rattle.gv_logic.specs.Circuits.{Circuit};
ghost use Rattle.gv_logic.specs.Kept.{AreKept};
ghost use Rattle.gv_solver.specs.Laws.{BackedLaw, KeptBoundLaw};

use gv_encode::encoding_law;
use gv_refute::{least_bits_law, step_law};

/// The law of backed answers. Where a valid log proves none, no bits give the gates' root true. Where
/// bits give it true and a valid log proves them least, they are the least of all that do. So an
/// answer whose log the checker accepts is right, wherever it came from.
pub fn backed_law()
    ensures { BackedLaw }
{
    // what a log says of the clauses, said of the gates
    encoding_law();
    step_law();
    least_bits_law();
}

/// The bound on kept sets. Of k inputs there are at most `2^k` sets of which none contains an earlier
/// one; so there are fewer kept sets for gates than that.
pub fn kept_bound_law()
    ensures apart { KeptBoundLaw }
    ensures kept { (g : Circuit) (sets : List (List ℕ)) → AreKept g [] sets → length sets < 2 ^ g.inputs }
{}
