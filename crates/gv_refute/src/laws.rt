//! What a valid log says of the assignments that make all clauses true.

ghost use Rattle.std.specs.Prelude.{◌≡◌, ◌↔◌, ◌*◌, ◌<◌, ℕ, Bool, true, false, List, length, slice_index_or};
ghost use Rattle.gv_logic.specs.Literals.{AllTrue};
ghost use Rattle.gv_logic.specs.Formulas.{Formula};
ghost use Rattle.gv_logic.specs.Logs.{Step as LogStep, follows, IsValid, step_clauses, ProvesNone, ProvesLeast};
ghost use Rattle.gv_base.specs.Least.{Lesser};
ghost use Rattle.gv_refute.specs.Reached.{Reaches};
ghost use Rattle.gv_refute.specs.Rules.{Follows};

/// The step law. Where all clauses are true, so is the clause of each step of a valid log. So a
/// valid log that proves that there is none leaves no assignment that makes all clauses true.
pub fn step_law()
    ensures steps { (f : Formula) (log : List LogStep) (v : ℕ → Bool) → IsValid f log → AllTrue v f.clauses
        → AllTrue v (step_clauses log) }
    ensures none { (f : Formula) (log : List LogStep) (v : ℕ → Bool) → IsValid f log → ProvesNone log
        → AllTrue v f.clauses → ⊥ }
{}

/// A step follows exactly where it meets each rule: its clause has literals of the variables alone,
/// none twice and none with its opposite; with all of them false and nothing else assigned, each
/// hint but the last names a clause with no true literal and just one that isn't assigned, which
/// becomes true; and the last hint names a clause whose literals are all false.
pub fn rule_law()
    ensures { (variables : ℕ) (names : List (List ℕ)) (clause hints : List ℕ)
        → ((follows (2 * variables) names clause hints ≡ true) ↔ Follows (2 * variables) names clause hints) }
{}

/// The least-bits law. Other bits aren't lesser than bits exactly where for each input that is on
/// they have it on or have some lower one on that is off in the bits. So a valid log that proves
/// bits least leaves no lesser ones: not where an assignment that has them makes all clauses true.
pub fn least_bits_law()
    ensures lesser { (bits other : List Bool) → length other ≡ length bits
        → ((Lesser other bits → ⊥) ↔ Reaches bits other) }
    ensures least { (f : Formula) (log : List LogStep) (bits other : List Bool) (v : ℕ → Bool) → IsValid f log
        → ProvesLeast log bits → AllTrue v f.clauses → length other ≡ length bits
        → ((i : ℕ) → i < length bits → v i ≡ slice_index_or other i false) → Lesser other bits → ⊥ }
{}
