//! Laws of the definitions: each function does nothing, and its contract is a law that holds of all
//! texts, whether they are versions or not.
ghost use Rattle.std.specs.Prelude.{◌≡◌, ◌↔◌, ℕ, List, true};
ghost use Rattle.std.specs.Cmp.{IsTotalOrder};
ghost use Rattle.std.specs.declared.cmp.Ordering.TheVariants.{Equal};
ghost use Rattle.gv_version.specs.Laws.{IsDivided, IsFronts, IsOrder, IsSameness};
ghost use Rattle.gv_version.specs.Form.{HasForm, has_form};
ghost use Rattle.gv_version.specs.Order.{compare, same_but_revision};
ghost use Rattle.gv_version.specs.Pieces.{begins};

/// The test of the form is true exactly where the bytes are the text of good parts.
#[tactic(auto, using(crate::proofs::FormLaw::form_says, crate::proofs::FormLaw::says_form))]
pub fn form_law()
    ensures { (bytes : List ℕ) → (has_form bytes ≡ true) ↔ HasForm bytes }
{}

/// The order of versions is reflexive, total, transitive and antisymmetric up to equal versions,
/// which are alike against every third; std's words for it are the second clause.
#[tactic(auto, using(crate::proofs::OrderIs::is_order, crate::specs::Total::version_total))]
pub fn order_law()
    ensures order { IsOrder compare }
    ensures total { IsTotalOrder compare }
{}

/// To be the same but for the revision is an equivalence, and equal versions are so.
#[tactic(auto, using(crate::proofs::OrderIs::is_sameness, crate::proofs::OrderIs::equal_is_same))]
pub fn same_but_revision_law()
    ensures sameness { IsSameness same_but_revision }
    ensures equal { (a b : List ℕ) → compare a b ≡ Equal → same_but_revision a b ≡ true }
{}

/// A version begins itself, what begins a front of a version begins the version, and versions that begin each other are
/// equal in the order.
#[tactic(auto, using(crate::proofs::FrontLaw::are_fronts))]
pub fn begins_law()
    ensures { IsFronts begins }
{}

/// A text is divided at the one hyphen by which it is a package name, a hyphen and a version.
#[tactic(auto, using(crate::proofs::Division::is_divided))]
pub fn split_pf_law()
    ensures { (bytes : List ℕ) → IsDivided bytes }
{}
