//! A class of dependencies as gates. O(its trees), down at most 64 groups, besides its atoms and a look-up for each
//! conditional.
ghost use Rattle.std.specs.Prelude.{◌≡◌, false, [], ◌∷◌, IfOk};
ghost use Rattle.gv_expr.specs.Dep.{deps};
ghost use Rattle.gv_expr.specs.DepView.{dep_of};
ghost use Rattle.gv_lower.specs.Around.{parent_of};
ghost use Rattle.gv_lower.specs.AtomGates.{atom_plan};
ghost use Rattle.gv_lower.specs.Drawn.{Drew, DrewEach};
ghost use Rattle.gv_lower.specs.Groups.{all_of};
ghost use Rattle.gv_lower.specs.Parent.{base_at};
ghost use Rattle.gv_lower.specs.Plans.{built_on};
ghost use Rattle.gv_lower.specs.TreeGates.{dep_plan, dep_plans, dep_unmet, if_met};
ghost use Rattle.gv_visible.specs.StoredTest.{AnswersVisible};
ghost use Rattle.gv_visible.specs.Candidates.{level_of, profile_of, test_of};

use crate::atoms::draw_atom;
use crate::groups::{conditional, gate_over, some_of};
use crate::parent::ParentFlags;
use crate::sketch::Sketch;
use gv_base::NoMemory;
use gv_expr::{DepExpr, DepTree};
use gv_facts::Pkg;
use gv_logic::{Lit, Lits, Op};
use gv_visible::Candidates;
use std::alloc::Global;

/// Each of them, as members of a `||` or elsewhere.
#[cycle(class)]
pub(crate) fn draw_each<F: Fn(&Pkg) -> bool>(
    sketch: &mut Sketch,
    items: &DepExpr,
    parent: &ParentFlags<'_>,
    candidates: &Candidates<'_, F>,
    empty: bool,
    members: bool,
) -> Result<Lits, NoMemory>
    requires { AnswersVisible (F.pre (test_of candidates.now)) (F.post (test_of candidates.now)) (profile_of candidates.now) (level_of candidates.now) }
    ensures { IfOk result (λ lits. DrewEach (dep_plans (deps items.now) (atom_plan (parent_of candidates.now parent.now.pkg.now) (base_at parent.now)) (base_at parent.now) empty members) sketch.old sketch.new lits) }
{
    let mut lits = Lits::new(sketch.alloc);
    for tree in &items.items {
        let lit = draw_tree(sketch, tree, parent, candidates, empty, members)?;
        lits.add(lit)?;
    }
    Ok(lits)
}

// The opposites of the conditions, where all are conditionals.
fn unmet(alloc: Global, items: &DepExpr, parent: &ParentFlags<'_>) -> Result<Option<Lits>, NoMemory>
    ensures { IfOk result (λ unmet. unmet ≡ dep_unmet (deps items.now) (base_at parent.now)) }
{
    let mut lits = Lits::new(alloc);
    for tree in &items.items {
        match tree {
            DepTree::If { flag, negated, .. } => {
                lits.add(parent.condition(flag, *negated).opposite())?;
            }
            _ => return Ok(None),
        }
    }
    Ok(Some(lits))
}

fn unmet_if(
    alloc: Global,
    items: &DepExpr,
    parent: &ParentFlags<'_>,
    empty: bool,
) -> Result<Option<Lits>, NoMemory>
    ensures { IfOk result (λ unmet. unmet ≡ if_met empty (dep_unmet (deps items.now) (base_at parent.now))) }
{
    if empty {
        unmet(alloc, items, parent)
    } else {
        Ok(None)
    }
}

#[cycle(class)]
fn draw_tree<F: Fn(&Pkg) -> bool>(
    sketch: &mut Sketch,
    tree: &DepTree,
    parent: &ParentFlags<'_>,
    candidates: &Candidates<'_, F>,
    empty: bool,
    member: bool,
) -> Result<Lit, NoMemory>
    requires { AnswersVisible (F.pre (test_of candidates.now)) (F.post (test_of candidates.now)) (profile_of candidates.now) (level_of candidates.now) }
    ensures { IfOk result (λ lit. Drew (dep_plan (dep_of tree.now) (atom_plan (parent_of candidates.now parent.now.pkg.now) (base_at parent.now)) (base_at parent.now) empty member) sketch.old sketch.new lit) }
{
    match tree {
        DepTree::Leaf { atom } => draw_atom(sketch, atom, parent, candidates),
        DepTree::All { items } => draw_all(sketch, items, parent, candidates, empty),
        DepTree::Any { items } => {
            let lits = draw_each(sketch, items, parent, candidates, empty, true)?;
            let unmet = unmet_if(sketch.alloc, items, parent, empty)?;
            some_of(sketch, unmet, lits)
        }
        DepTree::If {
            flag,
            negated,
            items,
        } => {
            let held = draw_all(sketch, items, parent, candidates, empty)?;
            let condition = parent.condition(flag, *negated);
            conditional(sketch, member, condition, held)
        }
    }
}

// As an all-of.
#[cycle(class)]
fn draw_all<F: Fn(&Pkg) -> bool>(
    sketch: &mut Sketch,
    items: &DepExpr,
    parent: &ParentFlags<'_>,
    candidates: &Candidates<'_, F>,
    empty: bool,
) -> Result<Lit, NoMemory>
    requires { AnswersVisible (F.pre (test_of candidates.now)) (F.post (test_of candidates.now)) (profile_of candidates.now) (level_of candidates.now) }
    ensures { IfOk result (λ lit. Drew (built_on all_of (dep_plans (deps items.now) (atom_plan (parent_of candidates.now parent.now.pkg.now) (base_at parent.now)) (base_at parent.now) empty false)) sketch.old sketch.new lit) }
{
    let lits = draw_each(sketch, items, parent, candidates, empty, false)?;
    gate_over(sketch, Op::And, lits.items())
}
