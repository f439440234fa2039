//! Queries, lowered.
//!
//! Linear in the weight and in what the look-ups of flags cost.
ghost use Rattle.std.specs.Prelude.{◌≡◌, ◌<◌, ◌≤◌, [], ◌∷◌, length, IfOk};
ghost use Rattle.gv_entry.specs.Holds.{empty_holds};
ghost use Rattle.gv_entry.specs.Weight.{weight};
ghost use Rattle.gv_facts.specs.Preferred.{preferred};
ghost use Rattle.gv_logic.specs.Circuits.{IsCircuit};
ghost use Rattle.gv_lower.specs.Around.{alone, parent_of};
ghost use Rattle.gv_lower.specs.Lowering.{IsQuery, Lowered, LoweredAllowed, LoweredFailing};
ghost use Rattle.gv_entry.specs.Queries.{class_flags, required_flags};
ghost use Rattle.gv_lower.specs.QueryGates.{allowed_gates, failing_gates, failing_items};
ghost use Rattle.gv_visible.specs.StoredTest.{AnswersVisible};
ghost use Rattle.gv_visible.specs.Candidates.{level_of, profile_of, test_of};

use crate::flags::{class_flags, required_flags};
use crate::parent::{Inputs, ParentFlags};
use crate::query::{LowerFault, Query, inputs_of, preferred_values};
use crate::sketch::Sketch;
use crate::weigh::{light_class, light_required};
use crate::{class, required};
use gv_base::NoMemory;
use gv_expr::{DepExpr, UseExpr};
use gv_facts::{Eapi, Level, Pkg, Profile};
use gv_logic::{Gates, Lit, Lits, Op};
use gv_visible::Candidates;
use std::alloc::Global;

pub(crate) fn lower_required(
    alloc: Global,
    pkg: &Pkg,
    profile: &Profile,
    level: Level,
    required: &UseExpr,
) -> Result<Query, LowerFault>
    ensures { LoweredAllowed (alone pkg.now profile.now level) required.now result }
{
    let flags = required_flags(alloc, pkg, profile, level, required)?;
    match inputs_of(flags) {
        Ok(inputs) => lower_few(alloc, pkg, profile, level, inputs, required),
        Err(fault) => Err(fault),
    }
}

pub(crate) fn lower_class<F: Fn(&Pkg) -> bool>(
    alloc: Global,
    pkg: &Pkg,
    required: &UseExpr,
    class: &DepExpr,
    candidates: &Candidates<'_, F>,
) -> Result<Query, LowerFault>
    requires { AnswersVisible (F.pre (test_of candidates.now)) (F.post (test_of candidates.now)) (profile_of candidates.now) (level_of candidates.now) }
    ensures { LoweredFailing (parent_of candidates.now pkg.now) required.now class.now result }
{
    let flags = class_flags(
        alloc,
        pkg,
        candidates.profile(),
        candidates.level(),
        required,
        class,
    )?;
    match inputs_of(flags) {
        Ok(inputs) => lower_few_of(alloc, pkg, inputs, required, class, candidates),
        Err(fault) => Err(fault),
    }
}

// Whether a `||` or `^^` without members counts as met.
fn empty_holds(eapi: Eapi) -> bool
    ensures { result ≡ empty_holds eapi }
{
    match eapi {
        Eapi::Five | Eapi::Six => true,
        Eapi::Seven | Eapi::Eight => false,
    }
}

fn draw_allowed(
    alloc: Global,
    pkg: &Pkg,
    profile: &Profile,
    level: Level,
    inputs: &Inputs,
    required: &UseExpr,
) -> Result<Gates, NoMemory>
    requires { IsCircuit (allowed_gates (alone pkg.now profile.now level) required.now inputs.now) }
    ensures { IfOk result (λ gates. gates ≡ allowed_gates (alone pkg.now profile.now level) required.now inputs.now) }
{
    let count = inputs.count();
    let mut sketch = Sketch::begin(alloc, count)?;
    let parent = ParentFlags {
        pkg,
        profile,
        level,
        inputs,
        on: Lit(2 * count),
        off: Lit(2 * (count + 1)),
    };
    let root = required::draw_all(&mut sketch, required, &parent, empty_holds(pkg.eapi))?;
    Ok(sketch.finish(root))
}

// The gates, and the literals of the class's top items.
fn draw_failing<F: Fn(&Pkg) -> bool>(
    alloc: Global,
    pkg: &Pkg,
    inputs: &Inputs,
    required: &UseExpr,
    class: &DepExpr,
    candidates: &Candidates<'_, F>,
) -> Result<(Gates, Lits), NoMemory>
    requires told { AnswersVisible (F.pre (test_of candidates.now)) (F.post (test_of candidates.now)) (profile_of candidates.now) (level_of candidates.now) }
    requires formed { IsCircuit (failing_gates (parent_of candidates.now pkg.now) required.now class.now inputs.now) }
    ensures gates { IfOk result (λ r. r.0 ≡ failing_gates (parent_of candidates.now pkg.now) required.now class.now inputs.now) }
    ensures items { IfOk result (λ r. r.1 ≡ failing_items (parent_of candidates.now pkg.now) required.now class.now inputs.now) }
{
    let count = inputs.count();
    let mut sketch = Sketch::begin(alloc, count)?;
    let parent = ParentFlags {
        pkg,
        profile: candidates.profile(),
        level: candidates.level(),
        inputs,
        on: Lit(2 * count),
        off: Lit(2 * (count + 1)),
    };
    let empty = empty_holds(pkg.eapi);
    let allowed = required::draw_all(&mut sketch, required, &parent, empty)?;
    let items = class::draw_each(&mut sketch, class, &parent, candidates, empty, false)?;
    let holds = sketch.add(Op::And, items.items())?;
    let root = sketch.add(Op::And, &[allowed, holds.opposite()])?;
    Ok((sketch.finish(root), items))
}

fn allowed_query(
    alloc: Global,
    pkg: &Pkg,
    profile: &Profile,
    level: Level,
    inputs: Inputs,
    required: &UseExpr,
) -> Result<Query, NoMemory>
    requires { IsCircuit (allowed_gates (alone pkg.now profile.now level) required.now inputs) }
    ensures { IfOk result (λ q. IsQuery (allowed_gates (alone pkg.now profile.now level) required.now inputs) inputs [] (preferred pkg.now inputs) q) }
{
    let gates = draw_allowed(alloc, pkg, profile, level, &inputs, required)?;
    let preferred = preferred_values(alloc, pkg, &inputs.flags)?;
    Ok(Query {
        gates,
        flags: inputs.flags,
        items: Lits::new(alloc),
        preferred,
    })
}

// With few enough flags.
fn lower_few(
    alloc: Global,
    pkg: &Pkg,
    profile: &Profile,
    level: Level,
    inputs: Inputs,
    required: &UseExpr,
) -> Result<Query, LowerFault>
    requires { length inputs ≤ 4096 }
    ensures { Lowered inputs (weight (alone pkg.now profile.now level) required.now []) (IsQuery (allowed_gates (alone pkg.now profile.now level) required.now inputs) inputs [] (preferred pkg.now inputs)) result }
{
    match light_required(required) {
        Ok(()) => {
            let query = allowed_query(alloc, pkg, profile, level, inputs, required)?;
            Ok(query)
        }
        Err(fault) => Err(fault),
    }
}

fn failing_query<F: Fn(&Pkg) -> bool>(
    alloc: Global,
    pkg: &Pkg,
    inputs: Inputs,
    required: &UseExpr,
    class: &DepExpr,
    candidates: &Candidates<'_, F>,
) -> Result<Query, NoMemory>
    requires told { AnswersVisible (F.pre (test_of candidates.now)) (F.post (test_of candidates.now)) (profile_of candidates.now) (level_of candidates.now) }
    requires formed { IsCircuit (failing_gates (parent_of candidates.now pkg.now) required.now class.now inputs) }
    ensures { IfOk result (λ q. IsQuery (failing_gates (parent_of candidates.now pkg.now) required.now class.now inputs) inputs (failing_items (parent_of candidates.now pkg.now) required.now class.now inputs) (preferred pkg.now inputs) q) }
{
    let (gates, items) = draw_failing(alloc, pkg, &inputs, required, class, candidates)?;
    let preferred = preferred_values(alloc, pkg, &inputs.flags)?;
    Ok(Query {
        gates,
        flags: inputs.flags,
        items,
        preferred,
    })
}

// With few enough flags.
fn lower_few_of<F: Fn(&Pkg) -> bool>(
    alloc: Global,
    pkg: &Pkg,
    inputs: Inputs,
    required: &UseExpr,
    class: &DepExpr,
    candidates: &Candidates<'_, F>,
) -> Result<Query, LowerFault>
    requires told { AnswersVisible (F.pre (test_of candidates.now)) (F.post (test_of candidates.now)) (profile_of candidates.now) (level_of candidates.now) }
    requires few { length inputs ≤ 4096 }
    ensures { Lowered inputs (weight (parent_of candidates.now pkg.now) required.now class.now) (IsQuery (failing_gates (parent_of candidates.now pkg.now) required.now class.now inputs) inputs (failing_items (parent_of candidates.now pkg.now) required.now class.now inputs) (preferred pkg.now inputs)) result }
{
    match light_class(required, class, pkg, candidates) {
        Ok(()) => {
            let query = failing_query(alloc, pkg, inputs, required, class, candidates)?;
            Ok(query)
        }
        Err(fault) => Err(fault),
    }
}
