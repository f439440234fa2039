//! Laws of the definitions: each function does nothing, and its contract holds of all directories, lines and rules.
ghost use Rattle.std.specs.Prelude.{◌≡◌, ◌++◌, ℕ, Bool, true, List, [], None, Some, codes};
ghost use Rattle.gv_profile.specs.Laws.{IsApplied, IsUndone, LastDecides, staying};
ghost use Rattle.gv_profile.specs.MaskLines.{mask_of, masks_of};
ghost use Rattle.gv_profile.specs.Stacks.{AreParents, IsLineStack, stack_below};
ghost use Rattle.gv_profile.specs.Walking.{Look, line_dir, line_walk, most_visits, stack_fault, stack_of};
ghost use Rattle.gv_profile.specs.declared.desc.DescLine.{DescLine};
ghost use Rattle.gv_reading.specs.declared.files.NamedFile.{NamedFile};
ghost use Rattle.gv_profile.specs.declared.mask_lines.MaskLine.{MaskLine};

/// A stack is the stacks of the parents, left to right, then the directory; a parent that is named twice stands there
/// twice, with all that is above it. Each directory is applied as often as it stands there.
pub fn stack_law()
    ensures stack { (look : Look) (line : DescLine) → stack_fault look line ≡ None → IsLineStack look line (stack_of (line_walk look line)) }
    // The same by the paths of parents alone, where no directory is followed again that led to it.
    ensures below { (look : Look) (known : List ℕ → Bool) (parents : List ℕ → List (List ℕ)) (line : DescLine) (dir : List ℕ) → AreParents look known parents → known dir ≡ true
        → stack_fault look line ≡ None → line_dir line ≡ Some dir → stack_of (line_walk look line) ≡ stack_below most_visits parents [] dir }
    ensures applied { (look : Look) (first : List NamedFile) (line : DescLine) → IsApplied look first line (stack_of (line_walk look line)) }
{}

/// A `-text` line takes every earlier mask with this text away and no other: the masks of lines are those that no line
/// behind them takes away.
#[tactic(auto, using(crate::proofs::MaskLaw::all_staying))]
pub fn mask_law()
    ensures takes { (text : List ℕ) → mask_of (codes "-" ++ text) ≡ Some (MaskLine.Takes text) }
    ensures stay { (lines : List MaskLine) → masks_of lines ≡ staying lines }
{}

/// A flag is masked, or forced, as the last rule says that decides on it for the package, and `-flag` undoes what stands
/// in front of it.
pub fn flag_law()
    ensures last { LastDecides }
    ensures undone { IsUndone }
{}
