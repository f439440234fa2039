//! The way down: the least undecided input is decided off after each complete propagation, and so
//! one propagation for each decision. Behind a conflict the search goes on from the level below that
//! of the kept set's last decision.

ghost use Rattle.std.specs.Prelude.{◌+◌, ◌<◌, ◌≤◌};
ghost use Rattle.gv_logic.specs.Partial.{AllQuiet, Has};
ghost use Rattle.gv_trail.specs.Entries.{assignment};
ghost use Rattle.gv_trail.specs.Propagation.{Tells};
ghost use Rattle.gv_solver.specs.Clash.{decided};
ghost use Rattle.gv_solver.specs.Search.{Ready, IsSearch, IsSearched, IsResumed, TakesBack, Arrives, TellsBegan};

use crate::probing::settle;
use gv_logic::{Clauses, Lit};
use gv_trail::{Propagation, Trail};

/// Decides inputs off, from this one on, until a clause is false or all inputs are assigned.
pub(crate) fn descend(trail: &mut Trail, clauses: &Clauses, inputs: u32, from: u32) -> Propagation
    requires ready { Ready clauses.now inputs trail.old }
    requires within { from ≤ inputs }
    requires resumed { IsResumed clauses.now.clauses from trail.old }
    ensures ready { Ready clauses.now inputs trail.new }
    ensures searched { IsSearched clauses.now.clauses inputs trail.new }
    ensures arrives { Arrives clauses.now.clauses inputs trail.new result }
    ensures began { TellsBegan clauses.now.clauses trail.new result }
{
    if let Propagation::Conflict { clause } = settle(trail, clauses) {
        return Propagation::Conflict { clause };
    }
    for input in from..inputs {
        if let Propagation::Conflict { clause } = step_down(trail, clauses, inputs, input) {
            return Propagation::Conflict { clause };
        }
    }
    Propagation::Fixed
}

/// Takes back the decision of an input, and all that was assigned since.
pub(crate) fn retreat(trail: &mut Trail, clauses: &Clauses, inputs: u32, input: u32)
    requires ready { Ready clauses.now inputs trail.old }
    requires searched { IsSearched clauses.now.clauses inputs trail.old }
    requires decided { Has input (decided trail.old.entries) }
    ensures ready { Ready clauses.now inputs trail.new }
    ensures back { TakesBack clauses.now.clauses input trail.old trail.new }
{
    if let Some(level) = trail.level_of(Lit(2 * input)) {
        trail.back_to(level - 1);
    }
}

// Decides an input off, unless it is assigned, and propagates.
fn step_down(trail: &mut Trail, clauses: &Clauses, inputs: u32, input: u32) -> Propagation
    requires ready { Ready clauses.now inputs trail.old }
    requires search { IsSearch clauses.now.clauses input trail.old }
    requires quiet { AllQuiet (assignment trail.old) clauses.now.clauses }
    requires below { input < inputs }
    ensures ready { Ready clauses.now inputs trail.new }
    ensures search { IsSearch clauses.now.clauses (input + 1) trail.new }
    ensures told { Tells clauses.now.clauses trail.new result }
    ensures began { TellsBegan clauses.now.clauses trail.new result }
{
    let off = Lit(2 * input + 1);
    match trail.of(off) {
        Some(_) => Propagation::Fixed,
        None => {
            trail.decide(off);
            settle(trail, clauses)
        }
    }
}
