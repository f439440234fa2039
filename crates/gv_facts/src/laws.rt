//! Laws of the definitions: each function does nothing, and its contract holds of all states and items, packages and profiles.
ghost use Rattle.std.specs.Prelude.{◌≡◌, ◌↔◌, ℕ, Bool, List, None, Some, false, if◌then◌else◌, true};
ghost use Rattle.gv_atom.specs.declared.items.UseItem.{UseItem};
ghost use Rattle.gv_facts.specs.declared.kinds.FlagState.{FlagState};
ghost use Rattle.gv_facts.specs.declared.kinds.Level.TheVariants.{Stable, Testing};
ghost use Rattle.gv_facts.specs.declared.pkg.Pkg.{Pkg};
ghost use Rattle.gv_facts.specs.declared.profile.Profile.{Profile};
ghost use Rattle.gv_facts.specs.AtomMet.{Meets, items_met};
ghost use Rattle.gv_facts.specs.Visible.{judged, visible};

/// The test of an atom's items, flag by flag, is true exactly where one setting of all flags, as their states allow it,
/// gives every item what it asks.
#[tactic(auto, using(crate::proofs::MeetsLaw::meets_if, crate::proofs::MeetsLaw::if_meets))]
pub fn meets_law()
    ensures { (states : List ℕ → FlagState) (parent : List ℕ → Bool) (items : List UseItem) → (items_met states parent items ≡ true) ↔ Meets states parent items }
{}

/// A profile that accepts its arch with `~` judges what it shows at testing, and at that level alone. Any other judges at
/// stable what it shows there, and else at testing what it shows there.
#[tactic(auto, using(crate::proofs::JudgedLaw::at_testing, crate::proofs::JudgedLaw::stable_first))]
pub fn judged_law()
    ensures testing { (p : Pkg) (profile : Profile) → profile.testing ≡ true → judged p profile ≡ (if visible p profile Testing then Some Testing else None) }
    ensures other { (p : Pkg) (profile : Profile) → profile.testing ≡ false
        → judged p profile ≡ (if visible p profile Stable then Some Stable else if visible p profile Testing then Some Testing else None) }
{}
