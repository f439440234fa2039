//! The first implication point of a conflict: the last literal of its level through which everything
//! went that made the clause false. Its clause says that this literal and those of lower levels that
//! are needed aren't all true. O(length of the reasons that are looked at, and variables).

ghost use Rattle.std.specs.Prelude.{◌≡◌, ◌*◌, [], ◌∷◌, ◌<◌, ◌↔◌, false, length, replicate, slice_get, IsSome, IfOk, IfSome, OnOk};
ghost use Rattle.gv_logic.specs.Literals.{opposite};
ghost use Rattle.gv_solver.specs.LevelCounts.{is_level, at_level, Counts, CountsClause, Notes, Points, Chooses, PassesCounted};
ghost use Rattle.gv_solver.specs.Point.{hints_back, IsSameClause, Needs, NeedsAll, NeedsClause, Passes};
ghost use Rattle.gv_solver.specs.Search.{IsLateAt};
ghost use Rattle.gv_solver.specs.Work.{Lesson};
ghost use Rattle.gv_trail.specs.Derived.{IsTrail};
ghost use Rattle.gv_trail.specs.Entries.{assignment, level_of, reason_of};
ghost use Rattle.gv_trail.specs.Propagation.{IsFalseAt};

use crate::marks::{mark, unmarked};
use gv_base::NoMemory;
use gv_logic::{Clause, Clauses, Lit, is_on};
use gv_refute::{Hints, Step};
use gv_trail::Trail;
use std::alloc::Global;

/// The way back from a conflict: the literals that are needed are marked, and either their reasons
/// are taken or they belong to the clause.
#[derive(Drop)]
pub(crate) struct Way {
    level: u32,
    marks: Vec<bool>,
    // how many literals of the level are marked and were not met
    unmet: usize,
    found: bool,
    // the numbers of the reasons, the last first
    reasons: Vec<u32>,
    clause: Clause,
}

impl Way {
    fn start(alloc: Global, variables: u32, level: u32) -> Result<Way, NoMemory>
        ensures level { IfOk result (λ way. way.level ≡ level) }
        ensures count { IfOk result (λ way. way.unmet ≡ 0) }
        ensures found { IfOk result (λ way. way.found ≡ false) }
        ensures marks { IfOk result (λ way. way.marks.items ≡ replicate (2 * variables) false) }
        ensures clause { IfOk result (λ way. way.clause ≡ []) }
        ensures reasons { IfOk result (λ way. way.reasons.items ≡ []) }
    {
        Ok(Way {
            level,
            marks: unmarked(alloc, variables)?,
            unmet: 0,
            found: false,
            reasons: Vec::new(alloc),
            clause: Clause::new(alloc),
        })
    }

    // Counts a literal, if it is of the level.
    fn note(&mut self, trail: &Trail, lit: Lit)
        ensures { Notes (is_level self.old.level (level_of lit trail.now.entries)) self.old self.new }
    {
        match trail.level_of(lit) {
            Some(level) if level == self.level => self.unmet = self.unmet.saturating_add(1),
            _ => {}
        }
    }

    // Marks a literal, if it is true.
    fn need(&mut self, trail: &Trail, lit: Lit)
        requires { length self.old.marks.items ≡ 2 * trail.now.variables }
        ensures needs { Needs (assignment trail.now) lit self.old self.new }
        ensures counts { Counts trail.now (opposite lit ∷ []) self.old self.new }
    {
        if is_on(&self.marks, lit) {
            return;
        }
        if let Some(true) = trail.of(lit) {
            mark(&mut self.marks, lit);
            self.note(trail, lit);
        }
    }

    // Marks what makes the literals of a clause false.
    fn need_all(&mut self, trail: &Trail, lits: &[Lit])
        requires { length self.old.marks.items ≡ 2 * trail.now.variables }
        ensures needs { NeedsAll (assignment trail.now) lits.now self.old self.new }
        ensures counts { Counts trail.now lits.now self.old self.new }
    {
        for lit in lits {
            self.need(trail, lit.opposite());
        }
    }

    fn need_clause(&mut self, trail: &Trail, clauses: &Clauses, number: u32)
        requires { length self.old.marks.items ≡ 2 * trail.now.variables }
        ensures needs { NeedsClause (assignment trail.now) (slice_get clauses.now.clauses number) self.old self.new }
        ensures counts { CountsClause trail.now (slice_get clauses.now.clauses number) self.old self.new }
    {
        if let Some(lits) = clauses.get(number) {
            self.need_all(trail, lits);
        }
    }

    // The reason that is taken for a literal of the level: for none behind the first point, and the
    // last one that is counted is the point.
    fn reason_at(&mut self, trail: &Trail, lit: Lit) -> Option<u32>
        ensures same { IsSameClause self.old self.new }
        ensures marks { self.new.marks ≡ self.old.marks }
        ensures reason { IfSome result (λ number. reason_of lit trail.now.entries ≡ Some number) }
        ensures points { Points trail.now lit self.old self.new result }
    {
        if self.found {
            return None;
        }
        if self.unmet <= 1 {
            self.found = true;
            return None;
        }
        self.unmet -= 1;
        trail.reason(lit)
    }

    // The reason that is taken for a literal, unless it belongs to the clause: of the level only the
    // first point does, and none of level 0.
    fn reason(&mut self, trail: &Trail, lit: Lit) -> Option<u32>
        ensures same { IsSameClause self.old self.new }
        ensures marks { self.new.marks ≡ self.old.marks }
        ensures reason { IfSome result (λ number. reason_of lit trail.now.entries ≡ Some number) }
        ensures chooses { Chooses trail.now lit self.old self.new result }
    {
        match trail.level_of(lit) {
            Some(0) => trail.reason(lit),
            Some(level) if level == self.level => self.reason_at(trail, lit),
            _ => None,
        }
    }

    // Goes back over a literal.
    fn pass(&mut self, trail: &Trail, clauses: &Clauses, lit: Lit) -> Result<(), NoMemory>
        requires over { IsTrail clauses.now trail.now }
        requires marks { length self.old.marks.items ≡ 2 * trail.now.variables }
        ensures passes { OnOk result (Passes clauses.now.clauses trail.now lit self.old self.new) }
        ensures counts { OnOk result (PassesCounted trail.now lit self.old self.new) }
    {
        if !is_on(&self.marks, lit) {
            return Ok(());
        }
        match self.reason(trail, lit) {
            None => self.clause.add(lit.opposite()),
            Some(number) => {
                self.reasons.push(number)?;
                self.need_clause(trail, clauses, number);
                Ok(())
            }
        }
    }

    // The step, `conflict` being the clause that is false.
    fn step(self, alloc: Global, conflict: u32) -> Result<Step, NoMemory>
        ensures clause { IfOk result (λ step. step.clause ≡ self.clause) }
        ensures hints { IfOk result (λ step. step.hints ≡ hints_back self.reasons.items (conflict ∷ [])) }
    {
        let mut hints = Hints::new(alloc);
        let mut at = self.reasons.len();
        while at > 0 {
            at -= 1;
            hints.add(self.reasons[at])?;
        }
        hints.add(conflict)?;
        Ok(Step {
            clause: self.clause,
            hints,
        })
    }
}

/// The step of the first implication point of a conflict, `conflict` being the clause that is false;
/// none where the conflict rests on no decision.
pub(crate) fn first_point(
    alloc: Global,
    trail: &Trail,
    clauses: &Clauses,
    conflict: u32,
) -> Result<Option<Step>, NoMemory>
    requires over { IsTrail clauses.now trail.now }
    requires conflict { IsFalseAt clauses.now.clauses (assignment trail.now) conflict }
    requires late { 0 < trail.now.level → IsLateAt clauses.now.clauses trail.now conflict }
    ensures step_follows { IfOk result (λ point. IfSome point (Lesson clauses.now)) }
    ensures point { IfOk result (λ point. IsSome point ↔ 0 < trail.now.level) }
    ensures one { IfOk result (λ point. IfSome point (λ step. at_level trail.now.level trail.now.entries step.clause ≡ 1)) }
{
    if trail.level() == 0 {
        return Ok(None);
    }
    let mut way = Way::start(alloc, clauses.variables(), trail.level())?;
    way.need_clause(trail, clauses, conflict);
    let lits = trail.assigned();
    let mut left = lits.len();
    while left > 0 {
        left -= 1;
        way.pass(trail, clauses, lits[left])?;
    }
    Ok(Some(way.step(alloc, conflict)?))
}
