//! Whether a REQUIRED_USE holds where the flags have their defaults (PMS chapter 7).
//!
//! O(its trees) steps, down at most 64 groups, of which a leaf and a conditional cost a default.
ghost use Rattle.std.specs.Prelude.{◌≡◌, Bool, List, length};
ghost use Rattle.gv_expr.specs.Required.{reqs};
ghost use Rattle.gv_expr.specs.RequiredView.{req_of};
ghost use Rattle.gv_entry.specs.Holds.{any_of, empty_holds, is_met, is_req_member, most_of, one_of, req_holds, req_members, reqs_hold, trues};
ghost use Rattle.gv_usedefaults.specs.Asked.{on_of};

use crate::{UseDefaults, default_on};
use gv_base::Text;
use gv_expr::{UseExpr, UseTree};
use gv_facts::{Eapi, Level, Pkg, Profile};

/// A package in a profile at a level, with the defaults there.
#[derive(Clone, Copy)]
pub(crate) struct Asked<'a> {
    pub(crate) pkg: &'a Pkg,
    pub(crate) profile: &'a Profile,
    pub(crate) level: Level,
    pub(crate) defaults: &'a UseDefaults,
}

impl Asked<'_> {
    /// Whether the flag is on.
    pub(crate) fn on(&self, flag: &Text) -> bool
        ensures { result ≡ on_of self.now flag.now }
    {
        default_on(self.pkg, self.profile, self.level, self.defaults, flag)
    }

    fn meets(&self, flag: &Text, negated: bool) -> bool
        ensures { result ≡ is_met negated (on_of self.now flag.now) }
    {
        if negated {
            !self.on(flag)
        } else {
            self.on(flag)
        }
    }
}

// How many members a group has, and how many of them hold.
#[derive(Clone, Copy)]
struct Tally {
    members: usize,
    holding: usize,
}

impl Tally {
    fn any(self, empty: bool) -> bool
        ensures { (bs : List Bool) → self.members ≡ length bs → self.holding ≡ trues bs → result ≡ any_of empty bs }
    {
        if self.members == 0 {
            empty
        } else {
            self.holding > 0
        }
    }

    #[tactic(auto, using(crate::proofs::Members::one_by_numbers))]
    fn one(self, empty: bool) -> bool
        ensures { (bs : List Bool) → self.members ≡ length bs → self.holding ≡ trues bs → result ≡ one_of empty bs }
    {
        if self.members == 0 {
            empty
        } else {
            self.holding == 1
        }
    }

    fn most(self) -> bool
        ensures { (bs : List Bool) → self.holding ≡ trues bs → result ≡ most_of bs }
    {
        self.holding <= 1
    }
}

/// What a `||` or `^^` without members counts as (PMS chapter 8).
pub(crate) fn empty_holds(eapi: Eapi) -> bool
    ensures { result ≡ empty_holds eapi }
{
    match eapi {
        Eapi::Five | Eapi::Six => true,
        Eapi::Seven | Eapi::Eight => false,
    }
}

// Whether the tree is a member of the group that it stands in: a conditional that isn't enabled is none.
fn is_member(tree: &UseTree, on: &Asked<'_>) -> bool
    ensures { result ≡ is_req_member (req_of tree.now) (on_of on.now) }
{
    match tree {
        UseTree::If { flag, negated, .. } => on.meets(flag, *negated),
        _ => true,
    }
}

#[cycle(required)]
fn tree_holds(tree: &UseTree, on: &Asked<'_>, empty: bool) -> bool
    ensures { result ≡ req_holds (req_of tree.now) (on_of on.now) empty }
{
    match tree {
        UseTree::Leaf { flag, negated } => on.meets(flag, *negated),
        UseTree::All { items } => all_hold(items, on, empty),
        UseTree::Any { items } => members_of(items, on, empty).any(empty),
        UseTree::One { items } => members_of(items, on, empty).one(empty),
        UseTree::Most { items } => members_of(items, on, empty).most(),
        UseTree::If {
            flag,
            negated,
            items,
        } => !on.meets(flag, *negated) || all_hold(items, on, empty),
    }
}

/// Whether the REQUIRED_USE holds, where this is what a `||` or `^^` without members counts as.
#[cycle(required)]
pub(crate) fn all_hold(items: &UseExpr, on: &Asked<'_>, empty: bool) -> bool
    ensures { result ≡ reqs_hold (reqs items.now) (on_of on.now) empty }
{
    for tree in &items.items {
        if !tree_holds(tree, on, empty) {
            return false;
        }
    }
    true
}

#[cycle(required)]
fn members_of(items: &UseExpr, on: &Asked<'_>, empty: bool) -> Tally
    ensures members { result.members ≡ length (req_members (reqs items.now) (on_of on.now) empty) }
    ensures holding { result.holding ≡ trues (req_members (reqs items.now) (on_of on.now) empty) }
{
    let mut tally = Tally {
        members: 0,
        holding: 0,
    };
    for tree in &items.items {
        if is_member(tree, on) {
            tally.members += 1;
            if tree_holds(tree, on, empty) {
                tally.holding += 1;
            }
        }
    }
    tally
}
