//! Random calls of a trail beside the plain definition of false and unit.

ghost use Rattle.std.specs.Prelude.{◌≡◌, ◌*◌, ◌<◌, OnOk};
ghost use Rattle.std.specs.List.{AllByRecursion};
ghost use Rattle.gv_logic.specs.Formulas.{Formula};
ghost use Rattle.gv_trail.specs.Derived.{IsTrail};

use gv_base::NoMemory;
use gv_logic::{Clauses, Lit};
use gv_trail::{Propagation, Trail};
use std::alloc::Global;
use std::test::Fail;

// Adds a clause and attaches it.
fn attach(trail: &mut Trail, clauses: &mut Clauses, lits: &[Lit]) -> Result<(), NoMemory>
    requires range { AllByRecursion (λ lit. lit < 2 * clauses.old.variables) lits.now }
    requires over { IsTrail clauses.old trail.old }
    ensures variables { clauses.new.variables ≡ clauses.old.variables }
    ensures over { OnOk result (IsTrail clauses.new trail.new) }
{
    let number = clauses.count();
    clauses.add(lits)?;
    trail.attach(clauses, number)
}

// Makes a literal true, unless its variable is assigned.
fn put_on(trail: &mut Trail, lit: Lit)
    requires range { lit < 2 * trail.old.variables }
    ensures variables { trail.new.variables ≡ trail.old.variables }
    ensures over { (f : Formula) → IsTrail f trail.old → IsTrail f trail.new }
{
    match trail.of(lit) {
        Some(_) => {}
        None => trail.decide(lit),
    }
}

// Numbers that look random, the same at each run.
#[derive(Drop)]
struct Draws {
    state: u32,
}

impl Draws {
    fn below(&mut self, limit: u32) -> u32 {
        self.state = self.state.wrapping_mul(1664525).wrapping_add(1013904223);
        self.state / 65536 % limit.max(1)
    }

    // A literal of six variables.
    fn lit(&mut self) -> Lit
        ensures { result < 12 }
    {
        Lit(self.below(12) % 12)
    }
}

// Attaches a clause of four literals at most, now and then an empty one, in whatever state the trail
// is.
fn attach_drawn(draws: &mut Draws, trail: &mut Trail, clauses: &mut Clauses) -> Result<(), NoMemory>
    requires six { clauses.old.variables ≡ 6 }
    requires over { IsTrail clauses.old trail.old }
    ensures six { clauses.new.variables ≡ 6 }
    ensures over { OnOk result (IsTrail clauses.new trail.new) }
{
    let lits = [draws.lit(), draws.lit(), draws.lit(), draws.lit()];
    match draws.below(32) {
        0 => attach(trail, clauses, &[]),
        1..4 => attach(trail, clauses, &[lits[0]]),
        4..16 => attach(trail, clauses, &[lits[0], lits[1]]),
        16..28 => attach(trail, clauses, &[lits[0], lits[1], lits[2]]),
        _ => attach(trail, clauses, &lits),
    }
}

fn is_false(trail: &Trail, lits: &[Lit]) -> bool {
    for lit in lits {
        if trail.of(*lit) != Some(false) {
            return false;
        }
    }
    true
}

// Whether the clause is neither false nor unit: a literal is true, or two that differ aren't assigned.
fn is_quiet(trail: &Trail, lits: &[Lit]) -> bool {
    for lit in lits {
        if trail.of(*lit) == Some(true) {
            return true;
        }
        for other in lits {
            if other != lit && trail.of(*lit).is_none() && trail.of(*other).is_none() {
                return true;
            }
        }
    }
    false
}

fn all_quiet(trail: &Trail, clauses: &Clauses) -> bool {
    for number in 0..clauses.count() {
        if !is_quiet(trail, clauses.at(number)) {
            return false;
        }
    }
    true
}

// Whether each literal that is true was decided, or the others of its reason are false.
fn is_explained(trail: &Trail, clauses: &Clauses) -> bool {
    for lit in trail.assigned() {
        let Some(number) = trail.reason(*lit) else {
            continue;
        };
        let Some(reason) = clauses.get(number) else {
            return false;
        };
        for other in reason {
            if other != lit && trail.of(*other) != Some(false) {
                return false;
            }
        }
    }
    true
}

// Propagates, and tries by all clauses whether what is answered is so.
fn answers_rightly(trail: &mut Trail, clauses: &Clauses) -> bool
    requires over { IsTrail clauses.now trail.old }
    ensures over { IsTrail clauses.now trail.new }
{
    let said = trail.propagate(clauses);
    if !is_explained(trail, clauses) {
        return false;
    }
    match said {
        Propagation::Fixed => all_quiet(trail, clauses),
        Propagation::Conflict { clause } => match clauses.get(clause) {
            Some(named) => is_false(trail, named),
            None => false,
        },
    }
}

// Goes back to some level that isn't above the present one.
fn go_back(draws: &mut Draws, trail: &mut Trail)
    ensures over { (f : Formula) → IsTrail f trail.old → IsTrail f trail.new }
{
    let level = draws.below(8).min(trail.level());
    trail.back_to(level);
}

// One call, drawn; whether what it answered is so.
fn one_call(draws: &mut Draws, trail: &mut Trail, clauses: &mut Clauses) -> Result<bool, NoMemory>
    requires six { clauses.old.variables ≡ 6 }
    requires over { IsTrail clauses.old trail.old }
    ensures six { clauses.new.variables ≡ 6 }
    ensures over { OnOk result (IsTrail clauses.new trail.new) }
{
    match draws.below(8) {
        0 | 1 => {
            attach_drawn(draws, trail, clauses)?;
            Ok(true)
        }
        2 | 3 => {
            put_on(trail, draws.lit());
            Ok(true)
        }
        4 => {
            go_back(draws, trail);
            Ok(true)
        }
        _ => Ok(answers_rightly(trail, clauses)),
    }
}

fn one_run(alloc: Global, draws: &mut Draws) -> Result<bool, NoMemory> {
    let mut clauses = Clauses::new(alloc, 6);
    let mut trail = Trail::new(alloc, &clauses)?;
    for _ in 0..60 {
        if !one_call(draws, &mut trail, &mut clauses)? {
            return Ok(false);
        }
    }
    Ok(true)
}

#[test]
fn random_calls_answer_by_the_definition(rt: HostRuntime) -> Result<(), Fail> {
    let alloc = rt.alloc();
    let mut draws = Draws { state: 1 };
    for run in 0..400 {
        assert!(rt; one_run(alloc, &mut draws)?, "run {run}");
    }
    Ok(())
}
