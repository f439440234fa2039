//! The gates of a query.
ghost use Rattle.std.specs.Prelude.{◌≡◌, true};
ghost use Rattle.gv_base.specs.Steps.{after};
ghost use Rattle.gv_base.specs.declared.steps.Kind.TheVariants.{Lower};
ghost use Rattle.gv_lower.specs.Lowering.{IsQuery, Lowered};
ghost use Rattle.gv_visible.specs.Candidates.{test_of};
ghost use Rattle.gv_checks.specs.Around.{AreAround};
ghost use Rattle.gv_plain.specs.Context.{case_of};
ghost use Rattle.gv_checks.specs.Queries.{flags_of, gates_of, has_query, items_of, preferred_of, query_of, weight_of};

use gv_base::{Ledger, Steps};
use gv_entry::class_in;
use gv_facts::{Class, Pkg};
use gv_lower::{LowerFault, Query, lower_allowed, lower_failing};
use gv_plain::JudgedPkg;
use gv_visible::Candidates;
use std::alloc::Global;

/// The query of a class, lowered: about REQUIRED_USE alone, or about the class.
#[tactic(auto, using(crate::proofs::LowerLemmas::within, crate::proofs::LowerLemmas::whole, crate::proofs::LowerLemmas::allowed_lowered, crate::proofs::LowerLemmas::failing_lowered))]
pub(crate) fn lower_query<F: Fn(&Pkg) -> bool, L: Ledger>(
    alloc: Global,
    candidates: &Candidates<'_, F>,
    judged: &JudgedPkg<'_>,
    class: Class,
    steps: &mut Steps<L>,
) -> Result<Query, LowerFault>
    requires around { AreAround (F.pre (test_of candidates.now)) (F.post (test_of candidates.now)) candidates.now judged.now }
    requires has { has_query (case_of judged.now) class ≡ true }
    ensures lowered { let q = query_of (case_of judged.now) class in Lowered (flags_of q) (weight_of q) (IsQuery (gates_of q) (flags_of q) (items_of q) (preferred_of q)) result }
    ensures steps { steps.new ≡ after Lower steps.old }
{
    let (number, body) = (judged.number, judged.body);
    match class_in(body, class) {
        None => lower_allowed(alloc, number, body, candidates, steps),
        Some(_) => lower_failing(alloc, number, body, class, candidates, steps),
    }
}
