//! What makes the gates of queries right: laws of the definitions. Each function does nothing, and its contract holds of
//! all packages, profiles, expressions and assignments.
ghost use Rattle.std.specs.Prelude.{◌≡◌, ℕ, Bool, List, length, ◌+◌, ◌*◌, ◌≤◌, [], map};
ghost use Rattle.gv_expr.specs.Dep.{Dep};
ghost use Rattle.gv_expr.specs.Required.{Req};
ghost use Rattle.gv_entry.specs.Allowed.{IsFit, Parent, assignment, is_allowed, is_failing, item_holds};
ghost use Rattle.gv_entry.specs.Weight.{weight};
ghost use Rattle.gv_logic.specs.Circuits.{at, value, values};
ghost use Rattle.gv_logic.specs.Literals.{lit_true};
ghost use Rattle.gv_lower.specs.Laws.{IsRightAllowed, IsRightFailing, size};
ghost use Rattle.gv_lower.specs.QueryGates.{allowed_gates, failing_gates, failing_items};

use gv_entry::{allowed_law, failing_law};

/// An assignment of the parent's flags that is on at On, off at Off and off at flags that aren't effective is allowed
/// exactly where the gates have the value true at the bits that say which of the query's flags haven't their preferred value
/// under it; it is failing for a class exactly where the gates of that query do, and each top item of the class holds under it
/// exactly where its literal is true there.
pub fn lowering_law()
    ensures allowed { (c : Parent) (required : List Req) (on : List ℕ → Bool) → IsFit c on → IsRightAllowed c required on }
    ensures failing { (c : Parent) (required : List Req) (class : List Dep) (on : List ℕ → Bool) → IsFit c on → IsRightFailing c required class on }
{
    allowed_law();
    failing_law();
}

/// The same by bits of flags: the gates of a query over any flags have the value that the definition of an allowed or a
/// failing assignment of these bits has.
#[tactic(auto, using(crate::proofs::QueryLaw::allowed_value, crate::proofs::QueryLaw::failing_value, crate::proofs::QueryLaw::items_value))]
pub fn value_law()
    ensures allowed { (c : Parent) (flags : List (List ℕ)) (required : List Req) (bits : List Bool) → length bits ≡ length flags
        → value (allowed_gates c required flags) bits ≡ is_allowed c required flags bits }
    ensures failing { (c : Parent) (flags : List (List ℕ)) (required : List Req) (class : List Dep) (bits : List Bool) → length bits ≡ length flags
        → value (failing_gates c required class flags) bits ≡ is_failing c required class flags bits }
    // each top item of the class holds exactly where its literal is true
    ensures items { (c : Parent) (flags : List (List ℕ)) (required : List Req) (class : List Dep) (bits : List Bool) → length bits ≡ length flags
        → map (lit_true (at (values (failing_gates c required class flags) bits))) (failing_items c required class flags) ≡ map (item_holds c (assignment c flags bits)) class }
{}

/// Besides its inputs, a query's gates have together at most 16 times its weight and 16 places and operands.
#[tactic(auto, using(crate::proofs::Sizes::allowed_size, crate::proofs::Sizes::failing_size))]
pub fn size_law()
    ensures allowed { (c : Parent) (flags : List (List ℕ)) (required : List Req) → size (allowed_gates c required flags) ≤ 16 * weight c required [] + 16 }
    ensures failing { (c : Parent) (flags : List (List ℕ)) (required : List Req) (class : List Dep) → size (failing_gates c required class flags) ≤ 16 * weight c required class + 16 }
{}
