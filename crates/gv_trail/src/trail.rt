//! The trail itself.

ghost use Rattle.std.specs.Prelude.{◌≡◌, ℕ, ◌+◌, ◌*◌, ◌<◌, ◌≤◌, ◌^◌, ◌++◌, ◌∷◌, [], true, false, None, length, IsTrue, ◌↔◌, IfOk, OnOk, OnErr, Option};
ghost use Rattle.gv_logic.specs.Literals.{opposite};
ghost use Rattle.gv_logic.specs.Formulas.{Formula, InRange};
ghost use Rattle.gv_logic.specs.Partial.{is_true};
ghost use Rattle.gv_trail.specs.Entries.{assignment, lits_of, reason_of, level_of, value_of, front_to, level_after};
ghost use Rattle.gv_trail.specs.Derived.{IsTrail, front};
ghost use Rattle.gv_trail.specs.Links.{IsLinked, requeued, taken};
ghost use Rattle.gv_trail.specs.Look.{open_other, open_to};
ghost use Rattle.gv_trail.specs.Propagation.{Tells, Propagates};
ghost use Rattle.gv_trail.specs.Watches.{HasLasting, lit_at};
ghost use Rattle.gv_trail.specs.Follows.{relinked, watching, holding_apart, advanced, passing, sure_after, entry_at, Waits, Passes, Holds, Looks, Forces, Drains, Follows, Goes, Settles, Sweeps};

use crate::Propagation;
use crate::cause::{Cause, cause_of, take_back};
use crate::look::{Look, Picked, find_open, look_at, pick};
use crate::propagation::Sweep;
use crate::watches::{Watches, sibling};
use gv_base::NoMemory;
use gv_logic::{Clauses, Lit, is_on};
use std::alloc::Global;
use std::marker::Model;

/// An assignment with levels and reasons, over given clauses.
#[derive(Drop)]
pub struct Trail {
    // by literal, whether it is true
    on: Vec<bool>,
    // the true literals in order
    lits: Vec<Lit>,
    // by variable; those of variables that aren't assigned mean nothing
    causes: Vec<Cause>,
    level: u32,
    watches: Watches,
    // the clauses without two literals that differ
    apart: Vec<u32>,
    // how many literals were followed, and how many of these at their own level
    seen: usize,
    sure: usize,
    // how many of the clauses that are held apart are true at level 0, for good
    lasting: usize,
}

impl Model for Trail {
    ghost use Rattle.gv_trail.specs.Entries.{State};

    ghost Value = { State };

    ghost use Rattle.gv_trail.specs.Kept.{state_of, IsKept};

    ghost view = { state_of };

    ghost invariant = { IsKept };
}

impl Trail {
    /// A trail over these clauses with nothing assigned, at level 0. It has room for fewer than
    /// `2^31` variables and clauses.
    pub fn new(alloc: Global, clauses: &Clauses) -> Result<Trail, NoMemory>
        ensures variables { IfOk result (λ trail. trail.variables ≡ clauses.now.variables) }
        ensures entries { IfOk result (λ trail. trail.entries ≡ []) }
        ensures level { IfOk result (λ trail. trail.level ≡ 0) }
        ensures over { IfOk result (IsTrail clauses.now) }
    {
        let count = clauses.count();
        let room = (count as usize).saturating_mul(2);
        let mut trail = Trail::empty(alloc, clauses.variables(), room)?;
        for number in 0..count {
            trail.hold(clauses, number)?;
        }
        Ok(trail)
    }

    /// The last of the clauses, which has this number, takes part from now on. What is assigned
    /// stays. After an error the trail is unchanged.
    pub fn attach(&mut self, clauses: &Clauses, number: u32) -> Result<(), NoMemory>
        requires last { length clauses.now.clauses ≡ number + 1 }
        requires over { IsTrail (front number clauses.now) self.old }
        ensures entries { OnOk result (self.new.entries ≡ self.old.entries) }
        ensures level { OnOk result (self.new.level ≡ self.old.level) }
        ensures over { OnOk result (IsTrail clauses.now self.new) }
        ensures err { OnErr result (self.new ≡ self.old) }
    {
        self.hold(clauses, number)
    }

    /// Makes a literal true at a new level. Its variable isn't assigned.
    pub fn decide(&mut self, lit: Lit)
        requires range { lit < 2 * self.old.variables }
        requires unassigned { value_of (assignment self.old) lit ≡ None }
        ensures variables { self.new.variables ≡ self.old.variables }
        ensures entries { self.new.entries ≡ self.old.entries ++ (record { lit = lit; reason = None; level = self.old.level + 1 }) ∷ [] }
        ensures level { self.new.level ≡ self.old.level + 1 }
        ensures over { (f : Formula) → IsTrail f self.old → IsTrail f self.new }
    {
        let level = self.next_level();
        self.assign(lit, None, level);
    }

    /// Assigns what the clauses ask for, until none is unit or one is false.
    pub fn propagate(&mut self, clauses: &Clauses) -> Propagation
        requires { IsTrail clauses.now self.old }
        ensures told { Tells clauses.now.clauses self.new result }
        ensures adds { Propagates clauses.now.clauses self.old self.new }
        ensures over { IsTrail clauses.now self.new }
    {
        'rounds: loop {
            if self.some_unseen() {
                if let Some(clause) = self.follow(clauses) {
                    return Propagation::Conflict { clause };
                }
                continue 'rounds;
            }
            self.pass_lasting(clauses);
            match self.sweep(clauses) {
                Sweep::Nothing => return Propagation::Fixed,
                Sweep::Falsified(clause) => return Propagation::Conflict { clause },
                Sweep::Assigned => {}
            }
        }
    }

    /// Keeps what was assigned up to a level, which isn't above the present one.
    pub fn back_to(&mut self, level: u32)
        requires { level ≤ self.old.level }
        ensures variables { self.new.variables ≡ self.old.variables }
        ensures entries { self.new.entries ≡ front_to level self.old.entries }
        ensures level { self.new.level ≡ level }
        ensures over { (f : Formula) → IsTrail f self.old → IsTrail f self.new }
    {
        let kept = take_back(&mut self.on, &self.lits, &self.causes, level);
        self.lits.truncate(kept);
        self.level = level;
        self.sure = self.sure.min(self.lits.len());
        self.seen = self.sure;
    }

    /// Whether the literal is true; none where its variable isn't assigned.
    pub fn of(&self, lit: Lit) -> Option<bool>
        ensures { result ≡ value_of (assignment self.now) lit }
    {
        if is_on(&self.on, lit) {
            return Some(true);
        }
        if is_on(&self.on, lit.opposite()) {
            return Some(false);
        }
        None
    }

    /// The literals that are true, in the order in which they were assigned.
    pub fn assigned(&self) -> &[Lit]
        ensures { result.now ≡ lits_of self.now.entries }
    {
        &self.lits
    }

    /// The number of the clause that is the literal's reason; none where the literal isn't true or
    /// was decided.
    pub fn reason(&self, lit: Lit) -> Option<u32>
        ensures { result ≡ reason_of lit self.now.entries }
    {
        if !is_on(&self.on, lit) {
            return None;
        }
        cause_of(&self.causes, lit).reason
    }

    /// The present level.
    pub fn level(&self) -> u32
        ensures { result ≡ self.now.level }
    {
        self.level
    }

    /// The level at which the literal's variable was assigned; none where it isn't.
    pub fn level_of(&self, lit: Lit) -> Option<u32>
        ensures { result ≡ level_of lit self.now.entries }
    {
        match self.of(lit) {
            None => None,
            Some(_) => Some(cause_of(&self.causes, lit).level),
        }
    }
}

// How the clauses that are watched are followed.
impl Trail {
    // A trail over no clauses, with room for so many watches.
    fn empty(alloc: Global, variables: u32, room: usize) -> Result<Trail, NoMemory>
        ensures variables { IfOk result (λ trail. trail.variables ≡ variables) }
        ensures entries { IfOk result (λ trail. trail.entries ≡ []) }
        ensures level { IfOk result (λ trail. trail.level ≡ 0) }
        ensures over { IfOk result (IsTrail (record { variables = variables; clauses = [] })) }
    {
        let variables = variables as usize;
        if 2 * variables > u32::MAX as usize {
            return Err(NoMemory);
        }
        let cause = Cause {
            reason: None,
            level: 0,
        };
        let on = vec![in alloc; false; 2 * variables]?;
        let causes = vec![in alloc; cause; variables]?;
        let lits = Vec::with_capacity(alloc, 2 * variables)?;
        let watches = Watches::new(alloc, 2 * variables, room)?;
        Ok(Trail {
            on,
            lits,
            causes,
            level: 0,
            watches,
            apart: Vec::new(alloc),
            seen: 0,
            sure: 0,
            lasting: 0,
        })
    }

    // The next of the clauses takes part from now on.
    fn hold(&mut self, clauses: &Clauses, number: u32) -> Result<(), NoMemory>
        requires there { number < length clauses.now.clauses }
        requires over { IsTrail (front number clauses.now) self.old }
        ensures ok { OnOk result (Holds clauses.now number self.old self.new) }
        ensures err { OnErr result (self.new ≡ self.old) }
    {
        if number > u32::MAX / 2 - 1 {
            return Err(NoMemory);
        }
        clauses.formed_law();
        match pick(&self.on, &self.causes, clauses.at(number)) {
            Some(picked) => self.watch(picked),
            None => self.keep_apart(number),
        }
    }

    // Two watches of the next clause.
    fn watch(&mut self, picked: Picked) -> Result<(), NoMemory>
        requires many { length self.old.watched.links.nodes + 2 < 2 ^ 32 }
        requires first { picked.first < length self.old.watched.links.chains }
        requires second { picked.second < length self.old.watched.links.chains }
        requires links { IsLinked self.old.watched.links }
        ensures ok { OnOk result (self.new ≡ watching self.old picked) }
        ensures err { OnErr result (self.new ≡ self.old) }
    {
        self.watches.add_both(picked.first, picked.second)?;
        let from = self.open_to(picked.first).min(self.open_to(picked.second));
        self.seen = self.seen.min(from);
        self.sure = self.sure.min(from);
        Ok(())
    }

    // How many literals stand before the one that makes this one false.
    fn open_to(&self, lit: Lit) -> usize
        ensures { result ≡ open_to lit (lits_of self.now.entries) }
    {
        open_to(&self.lits, lit.opposite())
    }

    // The next clause is held apart.
    fn keep_apart(&mut self, number: u32) -> Result<(), NoMemory>
        ensures ok { OnOk result (self.new ≡ holding_apart self.old number) }
        ensures err { OnErr result (self.new ≡ self.old) }
    {
        self.apart.reserve(1)?;
        self.watches.skip_both()?;
        self.apart.push_reserved(number);
        Ok(())
    }

    // Makes a literal true.
    fn assign(&mut self, lit: Lit, reason: Option<u32>, level: u32)
        requires range { lit < 2 * self.old.variables }
        requires free { is_true (assignment self.old) lit ≡ false }
        requires other { is_true (assignment self.old) (opposite lit) ≡ false }
        requires level { level ≡ level_after reason self.old.level }
        ensures { self.new ≡ record { variables = self.old.variables; entries = self.old.entries ++ (record { lit = lit; reason = reason; level = level }) ∷ []; level = level; watched = self.old.watched } }
    {
        self.level = level;
        self.on[lit.0 as usize] = true;
        self.causes[lit.0 as usize / 2] = Cause { reason, level };
        match self.lits.push(lit) {
            Ok(()) => {}
            Err(_) => unreachable!(),
        }
    }

    fn next_level(&self) -> u32
        ensures { result ≡ self.now.level + 1 }
    {
        self.level + 1
    }

    // Puts the first watch that waits on a literal.
    fn requeue(&mut self, to: Lit)
        requires some { 0 < Waits self.old }
        requires to { to < length self.old.watched.links.chains }
        requires links { IsLinked self.old.watched.links }
        requires few { length self.old.watched.links.nodes < 2 ^ 32 }
        ensures { self.new ≡ relinked self.old (requeued self.old.watched.links to) }
    {
        self.watches.requeue(to);
    }

    // Lets the watches on a literal wait.
    fn take(&mut self, lit: Lit)
        requires lit { lit < length self.old.watched.links.chains }
        ensures { self.new ≡ relinked self.old (taken self.old.watched.links lit) }
    {
        self.watches.take(lit);
    }

    fn some_wait(&self) -> bool
        ensures { IsTrue result ↔ 0 < Waits self.now }
    {
        self.watches.waiting.count > 0
    }

    fn first_waiting(&self) -> u32
        ensures { result ≡ self.now.watched.links.waiting.first }
    {
        self.watches.waiting.first
    }

    // The literal that a watch is on.
    fn lit_of(&self, watch: u32) -> Lit
        ensures { result ≡ lit_at self.now.watched.links watch }
    {
        self.watches.lit_of(watch)
    }

    fn is_on(&self, lit: Lit) -> bool
        ensures { result ≡ is_true (assignment self.now) lit }
    {
        is_on(&self.on, lit)
    }

    fn find_open(&self, but: Lit, lits: &[Lit]) -> Option<Lit>
        ensures { result ≡ open_other (assignment self.now) but lits.now }
    {
        find_open(&self.on, but, lits)
    }

    // The first watch that waits stays on its literal, and the other becomes true, unless it is
    // false.
    fn force(&mut self, lit: Lit, other: Lit, number: u32) -> Option<u32>
        requires some { 0 < Waits self.old }
        requires lit { lit < length self.old.watched.links.chains }
        requires links { IsLinked self.old.watched.links }
        requires few { length self.old.watched.links.nodes < 2 ^ 32 }
        requires range { other < 2 * self.old.variables }
        requires free { is_true (assignment self.old) other ≡ false }
        ensures { Forces lit other number self.old self.new result }
    {
        if self.is_on(other.opposite()) {
            return Some(number);
        }
        let level = self.level;
        self.requeue(lit);
        self.assign(other, Some(number), level);
        None
    }

    // Looks at the clause of the first watch that waits, and assigns what it asks for. Says which
    // clause is false.
    fn look(&mut self, clauses: &Clauses) -> Option<u32>
        requires over { IsTrail clauses.now self.old }
        requires some { 0 < Waits self.old }
        ensures { Looks clauses.now self.old self.new result }
    {
        clauses.formed_law();
        let watch = self.first_waiting();
        let lit = self.lit_of(watch);
        let other = self.lit_of(sibling(watch));
        if !self.is_on(lit.opposite()) {
            self.requeue(lit);
            return None;
        }
        if self.is_on(other) {
            self.requeue(lit);
            return None;
        }
        let number = watch / 2;
        match self.find_open(other, clauses.at(number)) {
            Some(to) => {
                self.requeue(to);
                None
            }
            None => self.force(lit, other, number),
        }
    }

    // Looks at the clauses of all watches that wait.
    fn drain(&mut self, clauses: &Clauses) -> Option<u32>
        requires { IsTrail clauses.now self.old }
        ensures { Drains clauses.now self.old self.new result }
    {
        'waiting: while self.some_wait() {
            if let Some(clause) = self.look(clauses) {
                return Some(clause);
            }
        }
        None
    }

    // The next literal to follow.
    fn next_lit(&self) -> Lit
        requires { self.now.watched.seen < length self.now.entries }
        ensures { result ≡ (entry_at self.now.entries self.now.watched.seen).lit }
    {
        self.lits[self.seen]
    }

    fn sure_after(&self) -> usize
        requires { self.now.watched.seen < length self.now.entries }
        ensures { result ≡ sure_after self.now }
    {
        if self.sure != self.seen {
            return self.sure;
        }
        if cause_of(&self.causes, self.lits[self.seen]).level != self.level {
            return self.sure;
        }
        self.sure + 1
    }

    // One more literal was followed.
    fn advance(&mut self)
        requires { self.old.watched.seen < length self.old.entries }
        ensures { self.new ≡ advanced self.old }
    {
        self.sure = self.sure_after();
        self.seen += 1;
    }

    // Looks at the clauses that watch the opposite of the next literal.
    fn follow(&mut self, clauses: &Clauses) -> Option<u32>
        requires over { IsTrail clauses.now self.old }
        requires some { self.old.watched.seen < length self.old.entries }
        ensures { Follows clauses.now self.old self.new result }
    {
        if let Some(clause) = self.drain(clauses) {
            return Some(clause);
        }
        let lit = self.next_lit();
        self.take(lit.opposite());
        if let Some(clause) = self.drain(clauses) {
            return Some(clause);
        }
        self.advance();
        None
    }

    // Looks at a clause, and assigns what it asks for.
    fn settle(&mut self, clauses: &Clauses, number: u32) -> Sweep
        requires { InRange (2 * self.old.variables) clauses.now.clauses }
        ensures adds { Propagates clauses.now.clauses self.old self.new }
        ensures watched { self.new.watched ≡ self.old.watched }
        ensures settles { Settles clauses.now.clauses number self.old self.new result }
    {
        let level = self.level;
        match clauses.get(number) {
            None => Sweep::Nothing,
            Some(lits) => match look_at(&self.on, lits) {
                Look::Quiet => Sweep::Nothing,
                Look::AllFalse => Sweep::Falsified(number),
                Look::OneLeft(lit) => {
                    self.assign(lit, Some(number), level);
                    Sweep::Assigned
                }
            },
        }
    }

    fn apart(&self) -> &[u32]
        ensures { result.now ≡ self.now.watched.apart }
    {
        &self.apart
    }

    // Passes over the next of the clauses that are held apart, as long as they are true at level 0.
    fn pass_lasting(&mut self, clauses: &Clauses)
        requires { IsTrail clauses.now self.old }
        ensures { Passes clauses.now self.old self.new }
    {
        while self.lasting < self.apart().len() {
            match clauses.get(self.apart()[self.lasting]) {
                Some(lits) if self.is_lasting(clauses, lits) => self.pass_one(),
                _ => return,
            }
        }
    }

    // Whether one of the literals is true at level 0.
    fn is_lasting(&self, clauses: &Clauses, lits: &[Lit]) -> bool
        requires { IsTrail clauses.now self.now }
        ensures { result ≡ true → HasLasting self.now.entries lits.now }
    {
        for lit in lits {
            match self.level_of(*lit) {
                Some(0) if self.is_on(*lit) => return true,
                _ => {}
            }
        }
        false
    }

    fn pass_one(&mut self)
        requires { self.old.watched.lasting < length self.old.watched.apart }
        ensures { self.new ≡ passing self.old }
    {
        self.lasting += 1;
    }

    // Goes once over the clauses that are held apart, but for those that are passed over, and assigns what each asks for at its turn.
    fn sweep(&mut self, clauses: &Clauses) -> Sweep
        requires { IsTrail clauses.now self.old }
        ensures goes { Goes clauses.now self.old self.new }
        ensures watched { self.new.watched ≡ self.old.watched }
        ensures says { Sweeps clauses.now.clauses self.old self.new result }
    {
        clauses.formed_law();
        let mut assigned = false;
        let mut at = self.lasting;
        while at < self.apart().len() {
            let number = self.apart()[at];
            match self.settle(clauses, number) {
                Sweep::Nothing => {}
                Sweep::Falsified(clause) => return Sweep::Falsified(clause),
                Sweep::Assigned => assigned = true,
            }
            at += 1;
        }
        if assigned {
            Sweep::Assigned
        } else {
            Sweep::Nothing
        }
    }

    fn some_unseen(&self) -> bool
        ensures { IsTrue result ↔ self.now.watched.seen < length self.now.entries }
    {
        self.seen < self.lits.len()
    }
}

// How many literals stand before this one.
fn open_to(lits: &[Lit], against: Lit) -> usize
    ensures { (lit : ℕ) → opposite lit ≡ against → result ≡ open_to lit lits.now }
{
    for (at, lit) in lits.iter().enumerate() {
        if *lit == against {
            return at;
        }
    }
    lits.len()
}
