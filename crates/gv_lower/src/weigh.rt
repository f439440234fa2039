//! The weight of a query: its tokens, and for each visible package that an atom matches one and the atom's items.
//!
//! O(its trees) steps, down at most 64 groups. Only where all packages for each atom were too many is each atom looked up, and
//! only where those of the atoms' names are too many are these looked at, each by a look-up and a call of the test.
ghost use Rattle.std.specs.Prelude.{◌≡◌, ℕ, ◌+◌, ◌*◌, [], ◌∷◌, length, filter, sum_by, IfOk};
ghost use Rattle.gv_expr.specs.Dep as dep;
ghost use Rattle.gv_expr.specs.Dep.{deps};
ghost use Rattle.gv_expr.specs.DepView.{dep_of};
ghost use Rattle.gv_expr.specs.Required as req;
ghost use Rattle.gv_expr.specs.Required.{reqs};
ghost use Rattle.gv_expr.specs.RequiredGrammar.{req_tokens};
ghost use Rattle.gv_expr.specs.RequiredView.{req_of};
ghost use Rattle.gv_entry.specs.Weight.{weight};
ghost use Rattle.gv_facts.specs.Places.{is_pkg_of};
ghost use Rattle.gv_facts.specs.declared.pkg.Pkg.{Pkg};
ghost use Rattle.gv_lower.specs.Around.{parent_of};
ghost use Rattle.gv_lower.specs.Lowering.{LightWeight};
ghost use Rattle.gv_lower.specs.Weigh.{capped, class_weight, packages_weight};
ghost use Rattle.gv_visible.specs.VisiblePkgs.{shows};
ghost use Rattle.gv_visible.specs.StoredTest.{AnswersVisible};
ghost use Rattle.gv_visible.specs.Candidates.{level_of, pkgs_of, profile_of, test_of};

use crate::query::LowerFault;
use gv_atom::{Atom, Block, UseItem};
use gv_base::{NoMemory, next_number};
use gv_expr::{DepExpr, DepTree, UseExpr, UseTree};
use gv_facts::Pkg;
use gv_visible::Candidates;

/// A query weighs at most so much.
const MOST_WEIGHT: u64 = 2_000_000;

// Which packages of an atom are counted.
#[derive(Clone, Copy)]
enum Counted {
    // all packages
    Every,
    // those of its name
    Named,
    // those that it matches and that are visible
    Shown,
}

// Whether the query of REQUIRED_USE is light enough.
pub(crate) fn light_required(required: &UseExpr) -> Result<(), LowerFault>
    ensures { LightWeight (length (req_tokens (reqs required.now))) result }
{
    light(required_tokens(required))
}

// Whether the query of a class is. All packages are counted for each atom first, without a look-up; those of its name where
// these are too many, and only then those that are shown.
pub(crate) fn light_class<F: Fn(&Pkg) -> bool>(
    required: &UseExpr,
    class: &DepExpr,
    pkg: &Pkg,
    candidates: &Candidates<'_, F>,
) -> Result<(), LowerFault>
    requires { AnswersVisible (F.pre (test_of candidates.now)) (F.post (test_of candidates.now)) (profile_of candidates.now) (level_of candidates.now) }
    ensures { LightWeight (weight (parent_of candidates.now pkg.now) required.now class.now) result }
{
    let tokens = required_tokens(required);
    if let Ok(()) = light_counted(Counted::Every, tokens, class, pkg, candidates) {
        return Ok(());
    }
    if let Ok(()) = light_counted(Counted::Named, tokens, class, pkg, candidates) {
        return Ok(());
    }
    light_counted(Counted::Shown, tokens, class, pkg, candidates)
}

// Whether so many tokens and what is counted of a class are light enough.
fn light_counted<F: Fn(&Pkg) -> bool>(
    counted: Counted,
    tokens: u64,
    class: &DepExpr,
    pkg: &Pkg,
    candidates: &Candidates<'_, F>,
) -> Result<(), LowerFault>
    requires { AnswersVisible (F.pre (test_of candidates.now)) (F.post (test_of candidates.now)) (profile_of candidates.now) (level_of candidates.now) }
    ensures { (all : ℕ) → tokens ≡ capped all → LightWeight (all + class_weight counted (parent_of candidates.now pkg.now) (deps class.now)) result }
{
    let weight = class_weight(counted, class, pkg, candidates)?;
    light(plus(tokens, weight))
}

// A sum that ends at the last number.
fn plus(a: u64, b: u64) -> u64
    ensures { (x y : ℕ) → a ≡ capped x → b ≡ capped y → result ≡ capped (x + y) }
{
    a.saturating_add(b)
}

// A product that ends there.
fn times(a: u64, b: u64) -> u64
    ensures { (x y : ℕ) → a ≡ capped x → b ≡ capped y → result ≡ capped (x * y) }
{
    a.saturating_mul(b)
}

#[cycle(tokens)]
fn required_tokens(items: &UseExpr) -> u64
    ensures { result ≡ capped (length (req_tokens (reqs items.now))) }
{
    let mut tokens = 0;
    for tree in &items.items {
        tokens = plus(tokens, tree_tokens(tree));
    }
    tokens
}

#[cycle(tokens)]
fn tree_tokens(tree: &UseTree) -> u64
    ensures { result ≡ capped (length (req_tokens (req.more (req_of tree.now) req.end))) }
{
    match tree {
        UseTree::Leaf { .. } => 1,
        UseTree::All { items } => plus(2, required_tokens(items)),
        UseTree::Any { items } => plus(3, required_tokens(items)),
        UseTree::One { items } => plus(3, required_tokens(items)),
        UseTree::Most { items } => plus(3, required_tokens(items)),
        UseTree::If { items, .. } => plus(3, required_tokens(items)),
    }
}

fn count(items: &[UseItem]) -> u64
    ensures { result ≡ capped (length items.now) }
{
    items.len() as u64
}

// One and the atom's items, for each package.
fn every_weight<F: Fn(&Pkg) -> bool>(atom: &Atom, candidates: &Candidates<'_, F>) -> u64
    ensures { result ≡ capped (sum_by (λ (p : Pkg). 1 + length atom.now.items) (pkgs_of candidates.now)) }
{
    let each = plus(1, count(atom.items.items()));
    let pkgs = candidates.pkgs().items();
    times(each, pkgs.len() as u64)
}

// One and the atom's items, for each package of its name. No package is looked at.
fn named_weight<F: Fn(&Pkg) -> bool>(atom: &Atom, candidates: &Candidates<'_, F>) -> u64
    ensures { result ≡ capped (sum_by (λ (p : Pkg). 1 + length atom.now.items) (filter (is_pkg_of atom.now.category atom.now.name) (pkgs_of candidates.now))) }
{
    let each = plus(1, count(atom.items.items()));
    let places = candidates.places(atom);
    times(each, places.len() as u64)
}

// One and the atom's items, for each visible package that it matches.
fn shown_weight<F: Fn(&Pkg) -> bool>(
    atom: &Atom,
    candidates: &Candidates<'_, F>,
) -> Result<u64, NoMemory>
    requires { AnswersVisible (F.pre (test_of candidates.now)) (F.post (test_of candidates.now)) (profile_of candidates.now) (level_of candidates.now) }
    ensures { IfOk result (λ weight. weight ≡ capped (sum_by (λ (p : Pkg). 1 + length atom.now.items) (filter (shows (profile_of candidates.now) (level_of candidates.now) atom.now) (pkgs_of candidates.now)))) }
{
    let each = plus(1, count(atom.items.items()));
    let mut weight = 0;
    let mut from = 0;
    while let Some(n) = candidates.next(atom, from) {
        weight = plus(weight, each);
        from = next_number(n)?;
    }
    Ok(weight)
}

fn packages_weight<F: Fn(&Pkg) -> bool>(
    counted: Counted,
    atom: &Atom,
    pkg: &Pkg,
    candidates: &Candidates<'_, F>,
) -> Result<u64, NoMemory>
    requires { AnswersVisible (F.pre (test_of candidates.now)) (F.post (test_of candidates.now)) (profile_of candidates.now) (level_of candidates.now) }
    ensures { IfOk result (λ weight. weight ≡ capped (packages_weight counted (parent_of candidates.now pkg.now) atom.now)) }
{
    match counted {
        Counted::Every => Ok(every_weight(atom, candidates)),
        Counted::Named => Ok(named_weight(atom, candidates)),
        Counted::Shown => shown_weight(atom, candidates),
    }
}

#[cycle(weight)]
fn tree_weight<F: Fn(&Pkg) -> bool>(
    counted: Counted,
    tree: &DepTree,
    pkg: &Pkg,
    candidates: &Candidates<'_, F>,
) -> Result<u64, NoMemory>
    requires { AnswersVisible (F.pre (test_of candidates.now)) (F.post (test_of candidates.now)) (profile_of candidates.now) (level_of candidates.now) }
    ensures { IfOk result (λ weight. weight ≡ capped (class_weight counted (parent_of candidates.now pkg.now) (dep.more (dep_of tree.now) dep.end))) }
{
    match tree {
        DepTree::Leaf { atom } => match atom.block {
            Block::Weak | Block::Strong => Ok(1),
            Block::No => Ok(plus(1, packages_weight(counted, atom, pkg, candidates)?)),
        },
        DepTree::All { items } => Ok(plus(2, class_weight(counted, items, pkg, candidates)?)),
        DepTree::Any { items } => Ok(plus(3, class_weight(counted, items, pkg, candidates)?)),
        DepTree::If { items, .. } => Ok(plus(3, class_weight(counted, items, pkg, candidates)?)),
    }
}

#[cycle(weight)]
fn class_weight<F: Fn(&Pkg) -> bool>(
    counted: Counted,
    items: &DepExpr,
    pkg: &Pkg,
    candidates: &Candidates<'_, F>,
) -> Result<u64, NoMemory>
    requires { AnswersVisible (F.pre (test_of candidates.now)) (F.post (test_of candidates.now)) (profile_of candidates.now) (level_of candidates.now) }
    ensures { IfOk result (λ weight. weight ≡ capped (class_weight counted (parent_of candidates.now pkg.now) (deps items.now))) }
{
    let mut weight = 0;
    for tree in &items.items {
        weight = plus(weight, tree_weight(counted, tree, pkg, candidates)?);
    }
    Ok(weight)
}

// Whether what weighs so much is light enough.
fn light(count: u64) -> Result<(), LowerFault>
    ensures { (weight : ℕ) → count ≡ capped weight → LightWeight weight result }
{
    if count > MOST_WEIGHT {
        Err(LowerFault::Weight { count })
    } else {
        Ok(())
    }
}
