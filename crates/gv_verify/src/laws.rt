//! That what a scan leaves is accepted: a law of the definitions. The function does nothing, and its contract holds of all
//! repositories, options and records.
ghost use Rattle.std.specs.Prelude.{ℕ, List, Result, length};
ghost use Rattle.gv_base.specs.Counts.{Counts};
ghost use Rattle.gv_cert.specs.Known.{KnownRecord};
ghost use Rattle.gv_checks.specs.Answered.{IsJudged};
ghost use Rattle.gv_checks.specs.Queries.{queries};
ghost use Rattle.gv_checks.specs.RepoReports.{scan_text};
ghost use Rattle.gv_checks.specs.declared.whole.Judged.{Judged};
ghost use Rattle.gv_load.specs.declared.loading.Repo.{Repo};
ghost use Rattle.gv_report.specs.declared.options.Options.{Options};
ghost use Rattle.gv_verify.specs.Verifying.{MayAccept, Verifies};
ghost use Rattle.gv_verify.specs.declared.verifying.VerifyFault.{VerifyFault};

use gv_checks::{certs_law, records_law};

/// Where a repository was judged, whatever the records before, each answer to the text of its scan and the records of its
/// certificates accepts it, with the number of queries, or finds no memory.
pub fn accepted_law()
    ensures { (o : Options) (r : Repo) (given : List KnownRecord) (before now : Counts) (j : Judged) → IsJudged o given r before now j
        → (answer : Result ℕ VerifyFault) → Verifies o j.certs r (scan_text o r) answer → MayAccept (length (queries o r)) answer }
{
    records_law();
    certs_law();
}
