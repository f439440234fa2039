//! A look at one clause under a partial assignment: O(its length).

ghost use Rattle.std.specs.Prelude.{◌≡◌, None, IfSome};
ghost use Rattle.gv_logic.specs.Partial.{Has};
ghost use Rattle.gv_trail.specs.Look.{look_after, open_other, IsOther, IsPicked};

use crate::cause::{Cause, cause_of};
use gv_logic::{Lit, is_on};

/// What stands in the way of a clause's being neither false nor unit.
#[derive(Clone, Copy, Drop)]
pub(crate) enum Look {
    Quiet,
    AllFalse,
    OneLeft(Lit),
}

pub(crate) fn look_at(on: &[bool], lits: &[Lit]) -> Look
    ensures { result ≡ look_after on.now None lits.now }
{
    let mut left: Option<Lit> = None;
    for lit in lits {
        if is_on(on, *lit) {
            return Look::Quiet;
        }
        if !is_on(on, lit.opposite()) {
            if let Some(other) = left {
                if other != *lit {
                    return Look::Quiet;
                }
            }
            left = Some(*lit);
        }
    }
    match left {
        None => Look::AllFalse,
        Some(lit) => Look::OneLeft(lit),
    }
}

/// The first of the literals that isn't false, but for one.
pub(crate) fn find_open(on: &[bool], but: Lit, lits: &[Lit]) -> Option<Lit>
    ensures { result ≡ open_other on.now but lits.now }
{
    for lit in lits {
        if *lit == but {
            continue;
        }
        if !is_on(on, lit.opposite()) {
            return Some(*lit);
        }
    }
    None
}

/// Two literals that differ.
#[derive(Clone, Copy, Drop)]
pub(crate) struct Picked {
    pub(crate) first: Lit,
    pub(crate) second: Lit,
}

/// Two literals to watch, those that aren't false first, then those that became so at the highest
/// level; none where no two differ.
pub(crate) fn pick(on: &[bool], causes: &[Cause], lits: &[Lit]) -> Option<Picked>
    ensures { IfSome result (IsPicked lits.now) }
{
    if lits.is_empty() {
        return None;
    }
    pick_beside(on, causes, lits, lits[0])
}

// The one of the literals, but for one, that was assigned at the highest level.
fn find_latest(causes: &[Cause], but: Lit, lits: &[Lit]) -> Option<Lit>
    ensures { IfSome result (IsOther but lits.now) }
{
    let mut latest: Option<Lit> = None;
    let mut top = 0;
    for lit in lits {
        if *lit == but {
            continue;
        }
        let level = cause_of(causes, *lit).level;
        if level < top {
            continue;
        }
        top = level;
        latest = Some(*lit);
    }
    latest
}

// A literal, and the latest of the others.
fn pick_latest(causes: &[Cause], lits: &[Lit], first: Lit) -> Option<Picked>
    requires { Has first lits.now }
    ensures { IfSome result (IsPicked lits.now) }
{
    match find_latest(causes, first, lits) {
        Some(second) => Some(Picked { first, second }),
        None => None,
    }
}

// The literals to watch, the one that is found first being one of them.
fn pick_beside(on: &[bool], causes: &[Cause], lits: &[Lit], first: Lit) -> Option<Picked>
    requires { Has first lits.now }
    ensures { IfSome result (IsPicked lits.now) }
{
    match find_open(on, first, lits) {
        Some(open) => match find_open(on, open, lits) {
            Some(second) => Some(Picked {
                first: open,
                second,
            }),
            None => pick_latest(causes, lits, open),
        },
        None => pick_latest(causes, lits, first),
    }
}
