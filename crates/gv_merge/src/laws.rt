//! What the definitions come to. Each of these does nothing at run time, and its contract holds of all repositories, options and records.
ghost use Rattle.std.specs.Prelude.{◌≤◌, ℕ, List, Result};
ghost use Rattle.gv_cert.specs.Known.{KnownRecord};
ghost use Rattle.gv_load.specs.declared.loading.Repo.{Repo};
ghost use Rattle.gv_report.specs.declared.options.Options.{Options};
ghost use Rattle.gv_merge.specs.Left.{AreLeftByParts, MayMerge};
ghost use Rattle.gv_merge.specs.Merging.{Merges};
ghost use Rattle.gv_merge.specs.Parts.{IsInItsPart, IsOneOfParts};
ghost use Rattle.gv_merge.specs.declared.merging.MergeFault.{MergeFault};
ghost use Rattle.gv_merge.specs.declared.merging.Merged.{Merged};

use gv_checks::certs_law;

/// Each query is of just one of the parts.
pub fn parts_law()
    ensures one { (parts number : ℕ) → 1 ≤ parts → IsOneOfParts parts number }
    ensures its { (parts place : ℕ) → 1 ≤ parts → IsInItsPart parts place }
{}

/// Where among the given records stand those that a judging of each part left, of the same repository, keywords and profiles, each answer
/// to them is the report, or finds no memory.
pub fn merged_law()
    ensures { (parts : ℕ) (o : Options) (r : Repo) (given : List KnownRecord) → 1 ≤ parts → AreLeftByParts parts o r given
        → (answer : Result Merged MergeFault) → Merges parts o given r answer → MayMerge answer }
{
    certs_law();
}
