//! The queries of a package among candidates.
ghost use Rattle.std.specs.Prelude.{◌≡◌, ◌<◌, List, length, slice_get, Some, IsSome};
ghost use Rattle.gv_base.specs.Steps.{after};
ghost use Rattle.gv_base.specs.declared.steps.Kind.TheVariants.{Lower};
ghost use Rattle.gv_entry.specs.Queries.{class_in};
ghost use Rattle.gv_expr.specs.Dep.{Dep};
ghost use Rattle.gv_expr.specs.Required.{Req};
ghost use Rattle.gv_facts.specs.declared.pkg.Pkg.{Pkg};
ghost use Rattle.gv_lower.specs.Around.{parent_of};
ghost use Rattle.gv_lower.specs.Lowering.{LoweredAllowed, LoweredFailing};
ghost use Rattle.gv_visible.specs.StoredTest.{AnswersVisible};
ghost use Rattle.gv_visible.specs.Candidates.{level_of, pkgs_of, profile_of, test_of};

use crate::lowering::{lower_class, lower_required};
use crate::query::{LowerFault, Query};
use gv_base::{Kind, Steps};
use gv_entry::{Body, class_in};
use gv_facts::{Class, Pkg};
use gv_visible::Candidates;
use std::alloc::Global;
use std::sync::ledger::Ledger;

/// Whether an assignment of the package's flags is allowed, as gates: they are true exactly where REQUIRED_USE holds. Counts
/// one more `Lower`, whatever is answered.
///
/// Flags exactly where the query has more than 4,096 flags, and else Weight exactly where it weighs more than 2,000,000.
pub fn lower_allowed<F: Fn(&Pkg) -> bool, L: Ledger>(
    alloc: Global,
    number: u32,
    body: &Body,
    candidates: &Candidates<'_, F>,
    steps: &mut Steps<L>,
) -> Result<Query, LowerFault>
    requires told { AnswersVisible (F.pre (test_of candidates.now)) (F.post (test_of candidates.now)) (profile_of candidates.now) (level_of candidates.now) }
    requires number { number < length (pkgs_of candidates.now) }
    requires whole { IsSome body.now.required }
    ensures ticks { steps.new ≡ after Lower steps.old }
    ensures lowered { (pkg : Pkg) (required : List Req) → slice_get (pkgs_of candidates.now) number ≡ Some pkg → body.now.required ≡ Some required
        → LoweredAllowed (parent_of candidates.now pkg) required result }
{
    steps.tick(Kind::Lower);
    let pkg = package(candidates.pkgs().items(), number);
    let Some(required) = &body.required else {
        unreachable!()
    };
    lower_required(
        alloc,
        pkg,
        candidates.profile(),
        candidates.level(),
        required,
    )
}

/// Whether an assignment of the package's flags is failing for a class, as gates: they are true exactly where REQUIRED_USE
/// holds and the class doesn't. Counts one more `Lower`, whatever is answered.
///
/// Flags exactly where the query has more than 4,096 flags, and else Weight exactly where it weighs more than 2,000,000.
pub fn lower_failing<F: Fn(&Pkg) -> bool, L: Ledger>(
    alloc: Global,
    number: u32,
    body: &Body,
    class: Class,
    candidates: &Candidates<'_, F>,
    steps: &mut Steps<L>,
) -> Result<Query, LowerFault>
    requires told { AnswersVisible (F.pre (test_of candidates.now)) (F.post (test_of candidates.now)) (profile_of candidates.now) (level_of candidates.now) }
    requires number { number < length (pkgs_of candidates.now) }
    requires whole { IsSome body.now.required }
    requires class { IsSome (class_in body.now class) }
    ensures ticks { steps.new ≡ after Lower steps.old }
    ensures lowered { (pkg : Pkg) (required : List Req) (items : List Dep) → slice_get (pkgs_of candidates.now) number ≡ Some pkg → body.now.required ≡ Some required
        → class_in body.now class ≡ Some items → LoweredFailing (parent_of candidates.now pkg) required items result }
{
    steps.tick(Kind::Lower);
    let pkg = package(candidates.pkgs().items(), number);
    let Some(required) = &body.required else {
        unreachable!()
    };
    let Some(items) = class_in(body, class) else {
        unreachable!()
    };
    lower_class(alloc, pkg, required, items, candidates)
}

// The package with this number.
fn package(pkgs: &[Pkg], number: u32) -> &Pkg
    requires { number < length pkgs.now }
    ensures { (pkg : Pkg) → slice_get pkgs.now number ≡ Some pkg → pkg ≡ result.now }
{
    &pkgs[number as usize]
}
