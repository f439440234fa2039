//! What the answers to queries mean: laws of the definitions. Each function does nothing, and its contract holds of all
//! packages, profiles, expressions and assignments.
ghost use Rattle.std.specs.Prelude.{◌≡◌, ◌≤◌, ◌+◌, ℕ, Bool, List, Option, length, map, MatchOption};
ghost use Rattle.std.specs.Borrow.{Bor};
ghost use Rattle.std.specs.List.{AllByRecursion};
ghost use Rattle.gv_base.specs.Counts.{Counts};
ghost use Rattle.gv_cert.specs.Known.{KnownRecord};
ghost use Rattle.gv_expr.specs.Dep.{Dep};
ghost use Rattle.gv_expr.specs.Required.{Req};
ghost use Rattle.gv_entry.specs.Allowed.{Parent};
ghost use Rattle.gv_cert.specs.declared.claim.Claim.{Claim};
ghost use Rattle.gv_logic.specs.Circuits.{Circuit, IsCircuit};
ghost use Rattle.gv_query.specs.Truth.{IsSo};
ghost use Rattle.gv_report.specs.declared.options.Options.{Options};
ghost use Rattle.gv_report.specs.declared.report.Report.{Report};
ghost use Rattle.gv_checks.specs.Answered.{AreJudged};
ghost use Rattle.gv_checks.specs.Answers.{AreAnswers, StopsAt};
ghost use Rattle.gv_checks.specs.Asked.{IsLeastAsked, NoneAsked, asked_gates, found_bits, least_asked};
ghost use Rattle.gv_checks.specs.Certs.{AreCerts, Cert, HasBacked, HasRecord, cert_record};
ghost use Rattle.gv_checks.specs.Limits.{RefusesFirst};
ghost use Rattle.gv_checks.specs.Named.{IsNamed};
ghost use Rattle.gv_checks.specs.Queries.{Query, gates_of, queries, query_name};
ghost use Rattle.gv_checks.specs.SomePackages.{PackagesLaw, queries_on};
ghost use Rattle.gv_checks.specs.Parts.{PartsLaw};
ghost use Rattle.gv_checks.specs.declared.names.QueryName.{QueryName};
ghost use Rattle.gv_checks.specs.declared.walking.Answers.{Answers};
ghost use Rattle.gv_checks.specs.declared.walking.Stopped.{Stopped};
ghost use Rattle.gv_checks.specs.declared.whole.Judged.{Judged};
ghost use Rattle.gv_load.specs.OwnLines.{HaveOwnLines};
ghost use Rattle.gv_load.specs.declared.loading.Repo.{Repo};

use gv_entry::{least_allowed_law, least_failing_law, least_law};
use gv_logic::circuit_law;
use gv_lower::value_law;
use gv_plain::told_law;

/// What is found among the bits of a query's flags is the least among all assignments of all flags that are asked for, and
/// nothing is found only where none is.
#[tactic(auto, using(crate::proofs::AnswersLaw::least_of_all))]
pub fn answers_law()
    ensures { (c : Parent) (required : List Req) (class : Option (List Dep))
        → MatchOption (least_asked c required class) (NoneAsked c required class) (IsLeastAsked c required class) }
{
    least_allowed_law();
    least_failing_law();
}

/// What is so of the gates of a query is so of the query: where no bits give the root true nothing is found, and the least
/// bits that do are those that are found.
#[tactic(auto, using(crate::proofs::GatesLaw::found_by_gates))]
pub fn gates_law()
    ensures { (c : Parent) (required : List Req) (class : Option (List Dep)) (claim : Claim)
        → IsSo (asked_gates c required class) claim → least_asked c required class ≡ found_bits claim }
{
    value_law();
    least_law();
}

/// Each query of a repository is one of its name; and where profiles with one line are one profile, it is the only one.
#[tactic(auto, using(crate::proofs::NamedLemmas::all_named, crate::proofs::NamedLemmas::one_named))]
pub fn names_law()
    ensures each { (o : Options) (r : Repo) → AllByRecursion (λ q. IsNamed o r (query_name q) q) (queries o r) }
    ensures only { (o : Options) (r : Repo) → HaveOwnLines r.profiles → (name : QueryName) (p q : Query) → IsNamed o r name p → IsNamed o r name q → p ≡ q }
{}

/// The selected reports of a repository are its selected notes, what is told of each package without a query, and the reports of
/// the queries that the options ask, in this order.
pub fn parts_law()
    ensures { PartsLaw }
{
    told_law();
}

/// Judging some queries lowers and solves at most one for each of them; and where it stops, it refuses one of them, and those
/// before it are within the limits and have their certificates.
#[tactic(auto, using(crate::proofs::AllLemmas::lowered_few, crate::proofs::AllLemmas::solved_few, crate::proofs::AllLemmas::first_refused))]
pub fn walk_law()
    ensures lowered { (budget : ℕ) (given : List KnownRecord) (qs : List Query) (before now : Counts) (a : Answers) → AreAnswers budget given qs before now a → now.lower ≤ before.lower + length qs }
    ensures solved { (budget : ℕ) (given : List KnownRecord) (qs : List Query) (before now : Counts) (a : Answers) → AreAnswers budget given qs before now a → now.solve ≤ before.solve + length qs }
    ensures refuses { (budget : ℕ) (given : List KnownRecord) (qs : List Query) (s : Stopped) → StopsAt budget given qs s → RefusesFirst budget given qs s.fault }
{}

/// Whatever queries were judged, each of them, if its gates are a circuit, has its record among their certificates; and records among which
/// gates have one back an answer to them.
pub fn certs_law()
    ensures have { (budget : ℕ) (given : List KnownRecord) (qs : List Query) (certs : List Cert) → AreCerts budget given (map gates_of qs) certs → AllByRecursion (λ q. IsCircuit (gates_of q)) qs
        → AllByRecursion (λ q. HasRecord (map cert_record certs) (gates_of q)) qs }
    ensures backed { (records : List KnownRecord) (g : Circuit) → HasRecord records g → HasBacked records g }
{
    circuit_law();
}

/// Choosing some packages chooses their queries, and what is then told of them and of these queries are their selected reports. Each of
/// these queries is one of its name.
pub fn packages_law()
    ensures chosen { (bits : Bor (List Bool)) (options : Options) (repo : Repo) → PackagesLaw bits options repo }
    ensures named { (bits : List Bool) (options : Options) (repo : Repo) → AllByRecursion (λ q. IsNamed options repo (query_name q) q) (queries_on bits options repo) }
{
    told_law();
}

/// Where queries were judged each of them has its record among those that are left.
pub fn records_law()
    ensures { (budget : ℕ) (given : List KnownRecord) (asked : List Query) (told : List Report) (before now : Counts) (j : Judged) → AreJudged budget given asked told before now j → AllByRecursion (λ q. HasRecord j.certs (gates_of q)) asked }
{
    circuit_law();
}
