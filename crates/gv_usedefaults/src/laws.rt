//! A law of the definitions: the function does nothing, and its contract holds of all trees and lines.
ghost use Rattle.std.specs.Prelude.{◌≡◌, ℕ, List, None, Some, true};
ghost use Rattle.gv_base.specs.Order.{has_text};
ghost use Rattle.gv_load.specs.Directories.{dir_at};
ghost use Rattle.gv_usedefaults.specs.LineFiles.{are_all, line_files};
ghost use Rattle.gv_reading.specs.Look.{Look};
ghost use Rattle.gv_profile.specs.Walking.{line_dir, line_walk, stack_fault, stack_of};
ghost use Rattle.gv_profile.specs.declared.desc.DescLine.{DescLine};
ghost use Rattle.gv_usedefaults.specs.Stacks.{stack_from};

use gv_profile::stack_law;

/// The stack of a line without a fault, by the `parent` files that are read from its directory on, is the line's stack.
pub fn walk_law()
    ensures { (look : Look) (starts : List (List ℕ)) (line : DescLine) (dir : List ℕ) → are_all look starts ≡ true → has_text starts dir ≡ true
        → stack_fault (dir_at look) line ≡ None → line_dir line ≡ Some dir → stack_from (line_files look starts) dir ≡ stack_of (line_walk (dir_at look) line) }
{
    stack_law();
}
