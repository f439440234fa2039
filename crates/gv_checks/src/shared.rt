//! The queries of one package that were lowered, by their expressions and keys: contexts in which the package has one and the
//! same query share it, and so do its classes with one and the same expression.
//!
//! In a context a class costs nothing but a look where one with its expression was asked about before. Any other costs its key
//! and a comparison with each query that is kept; only where none has its expression and key its lowering and the bytes of its
//! gates. At most 64 are kept, so that the cost grows with the contexts and not with their square.
ghost use Rattle.std.specs.Prelude.{◌≡◌, ◌⊎◌, [], ◌∷◌, ◌++◌, ℕ, List, true, IfOk, IfErr, IfSome};
ghost use Rattle.gv_base.specs.Steps.{after};
ghost use Rattle.gv_base.specs.declared.steps.Kind.TheVariants.{Lower};
ghost use Rattle.gv_cert.specs.Known.{KnownRecord};
ghost use Rattle.gv_entry.specs.Queries.{class_in};
ghost use Rattle.gv_visible.specs.Candidates.{test_of};
ghost use Rattle.gv_plain.specs.Cases.{Case};
ghost use Rattle.gv_checks.specs.Around.{AreAround};
ghost use Rattle.gv_plain.specs.Context.{case_of};
ghost use Rattle.gv_checks.specs.Keys.{ArePartsOf};
ghost use Rattle.gv_checks.specs.Limits.{Cause};
ghost use Rattle.gv_checks.specs.Queries.{has_query, query_of};
ghost use Rattle.gv_plain.specs.Seen.{seen};
ghost use Rattle.gv_checks.specs.Shared.{AreHere, ArePlaced, AreReady, AreShared, IsAnsweredAt, IsKeptAs, IsSharedAt, Keeps, MayLower, StayNoted, key_of};
ghost use Rattle.gv_plain.specs.declared.context.JudgedPkg.{JudgedPkg};

use crate::JudgeFault;
use crate::judging::lowered;
use crate::spot::Spot;
use gv_base::{Ledger, NoMemory, Steps, Text};
use gv_facts::{Class, Pkg};
use gv_logic::gate_bytes;
use gv_lower::{Query, key_law};
use gv_plain::JudgedPkg;
use gv_visible::Candidates;
use std::alloc::Global;

/// So many queries of a package are kept.
const MOST_KEPT: usize = 64;

/// A query that was lowered.
#[derive(Drop)]
pub(crate) struct SharedQuery {
    /// The first of the package's classes with its expression.
    pub(crate) class: Class,
    pub(crate) key: Text,
    pub(crate) query: Query,
    /// The bytes of its gates.
    pub(crate) bytes: Text,
    /// The place of its answer, where one is known.
    pub(crate) place: Option<usize>,
}

/// Where the query of a class in the present context stands among those that are kept.
#[derive(Clone, Copy)]
pub(crate) struct Placed {
    pub(crate) class: Class,
    pub(crate) at: usize,
}

/// The queries of a package that are kept.
#[derive(Drop)]
pub(crate) struct Shared {
    pub(crate) queries: Vec<SharedQuery>,
    // The key of REQUIRED_USE in the present context.
    pub(crate) required: Vec<u8>,
    // The key that was made last.
    pub(crate) key: Vec<u8>,
    // Where those of the present context stand, as far as it is known.
    pub(crate) here: Vec<Placed>,
}

fn is_kept(kept: &SharedQuery, class: Class, key: &[u8]) -> bool
    ensures class { result ≡ true → kept.now.class ≡ class }
    ensures key { result ≡ true → kept.now.key ≡ key.now }
{
    kept.class == class && kept.key.bytes() == key
}

impl Shared {
    pub(crate) fn new(alloc: Global) -> Shared
        ensures { result.queries.items ≡ [] }
    {
        Shared {
            queries: Vec::new(alloc),
            required: Vec::new(alloc),
            key: Vec::new(alloc),
            here: Vec::new(alloc),
        }
    }

    /// Begins a context.
    pub(crate) fn begin(&mut self)
        ensures queries { self.new.queries.items ≡ self.old.queries.items }
        ensures here { self.new.here.items ≡ [] }
        ensures required { self.new.required.items ≡ self.old.required.items }
    {
        self.here.clear();
    }

    // The place of a query of this class with the key that was made last.
    #[tactic(auto, using(crate::proofs::SharedLemmas::kept_at))]
    fn find(&self, class: Class) -> Option<usize>
        ensures { IfSome result (IsKeptAs class self.now.key.items self.now.queries.items) }
    {
        for (i, kept) in self.queries.iter().enumerate() {
            if is_kept(kept, class, &self.key) {
                return Some(i);
            }
        }
        None
    }

    // The place of the query of this class in the present context.
    fn find_here(&self, class: Class) -> Option<usize>
        ensures { IfSome result (λ at. (c : Case) → ArePlaced c self.now.queries.items self.now.here.items → IsSharedAt (query_of c class) self.now.queries.items at) }
    {
        for placed in &self.here {
            if placed.class == class {
                return Some(placed.at);
            }
        }
        None
    }

    fn make_room(&mut self)
        ensures queries { (self.new.queries.items ≡ self.old.queries.items) ⊎ (self.new.queries.items ≡ []) }
        ensures key { self.new.key ≡ self.old.key }
        ensures required { self.new.required.items ≡ self.old.required.items }
        ensures here { self.new.here.items ≡ [] }
    {
        self.here.clear();
        if self.queries.len() >= MOST_KEPT {
            self.queries.clear();
        }
    }

    // Keeps a query of this class with the key that was made last.
    fn keep(&mut self, alloc: Global, class: Class, query: Query) -> Result<usize, NoMemory>
        ensures keeps { IfOk result (Keeps class self.old.key.items query self.old.queries.items self.new.queries.items) }
        ensures here { self.new.here.items ≡ [] }
        ensures required { self.new.required.items ≡ self.old.required.items }
    {
        self.make_room();
        let key = Text::of(alloc, &self.key)?;
        let bytes = gate_bytes(alloc, &query.gates)?;
        let place = self.queries.len();
        self.queries.push(SharedQuery {
            class,
            key,
            query,
            bytes,
            place: None,
        })?;
        Ok(place)
    }

    // Lowers the query, and keeps it as that of the first class with its expression.
    fn lower<F: Fn(&Pkg) -> bool, L: Ledger>(
        &mut self,
        alloc: Global,
        candidates: &Candidates<'_, F>,
        judged: &JudgedPkg<'_>,
        class: Class,
        first: Class,
        steps: &mut Steps<L>,
    ) -> Result<usize, JudgeFault>
        requires around { AreAround (F.pre (test_of candidates.now)) (F.post (test_of candidates.now)) candidates.now judged.now }
        requires has { has_query (case_of judged.now) class ≡ true }
        requires first { class_in judged.now.body.now first ≡ class_in judged.now.body.now class }
        requires key { self.old.key.items ≡ key_of (query_of (case_of judged.now) class) }
        requires shared { AreShared judged.now.pkg.now judged.now.body.now self.old.queries.items }
        ensures at { IfOk result (IsSharedAt (query_of (case_of judged.now) class) self.new.queries.items) }
        ensures here { IfOk result (λ _. AreHere judged.now self.new) }
        ensures noted { IfOk result (λ _. StayNoted self.old.queries.items self.new.queries.items) }
        ensures refused { IfErr result (λ fault. (budget : ℕ) (given : List KnownRecord) → Cause budget given (query_of (case_of judged.now) class) fault) }
        ensures steps { steps.new ≡ after Lower steps.old }
        ensures required { self.new.required.items ≡ self.old.required.items }
    {
        let query = match lowered(alloc, candidates, judged, class, steps) {
            Ok(query) => query,
            Err(fault) => return Err(fault),
        };
        match self.keep(alloc, first, query) {
            Ok(place) => Ok(place),
            Err(NoMemory) => Err(JudgeFault::NoMemory),
        }
    }

    // The place of the query, which is lowered where none that is kept has its expression and key.
    fn seek<F: Fn(&Pkg) -> bool, L: Ledger>(
        &mut self,
        alloc: Global,
        candidates: &Candidates<'_, F>,
        spot: &Spot<'_>,
        class: Class,
        steps: &mut Steps<L>,
    ) -> Result<usize, JudgeFault>
        requires parts { ArePartsOf spot.now.judged spot.now.judged.profile.now spot.now.sites.now self.old.required.items }
        requires view { spot.now.view.now ≡ seen spot.now.judged.pkgs.now spot.now.judged.profile.now }
        requires around { AreAround (F.pre (test_of candidates.now)) (F.post (test_of candidates.now)) candidates.now spot.now.judged }
        requires has { has_query (case_of spot.now.judged) class ≡ true }
        requires here { AreHere spot.now.judged self.old }
        ensures at { IfOk result (IsSharedAt (query_of (case_of spot.now.judged) class) self.new.queries.items) }
        ensures here { IfOk result (λ _. AreHere spot.now.judged self.new) }
        ensures noted { IfOk result (λ _. StayNoted self.old.queries.items self.new.queries.items) }
        ensures refused { IfErr result (λ fault. (budget : ℕ) (given : List KnownRecord) → Cause budget given (query_of (case_of spot.now.judged) class) fault) }
        ensures steps { MayLower steps.old steps.new }
        ensures required { self.new.required.items ≡ self.old.required.items }
    {
        key_law();
        let judged = &spot.judged;
        let first = spot.sites.first(class);
        self.key.clear();
        match spot.sites.add_key(
            candidates,
            judged,
            class,
            spot.view.states(),
            &self.required,
            &mut self.key,
        ) {
            Ok(()) => {}
            Err(NoMemory) => return Err(JudgeFault::NoMemory),
        }
        match self.find(first) {
            Some(place) => Ok(place),
            None => self.lower(alloc, candidates, judged, class, first, steps),
        }
    }

    // Notes where the query of a class in the present context stands.
    fn add_here(&mut self, class: Class, at: usize) -> Result<(), NoMemory>
        ensures required { self.new.required.items ≡ self.old.required.items }
        ensures queries { self.new.queries.items ≡ self.old.queries.items }
        ensures here { IfOk result (λ _. self.new.here.items ≡ self.old.here.items ++ record { class = class; at = at } ∷ []) }
    {
        self.here.push(Placed { class, at })?;
        Ok(())
    }

    /// The place of the query, which is lowered where no class with its expression had it in any context of the package.
    pub(crate) fn place<F: Fn(&Pkg) -> bool, L: Ledger>(
        &mut self,
        alloc: Global,
        candidates: &Candidates<'_, F>,
        spot: &Spot<'_>,
        class: Class,
        steps: &mut Steps<L>,
    ) -> Result<usize, JudgeFault>
        requires parts { ArePartsOf spot.now.judged spot.now.judged.profile.now spot.now.sites.now self.old.required.items }
        requires view { spot.now.view.now ≡ seen spot.now.judged.pkgs.now spot.now.judged.profile.now }
        requires around { AreAround (F.pre (test_of candidates.now)) (F.post (test_of candidates.now)) candidates.now spot.now.judged }
        requires has { has_query (case_of spot.now.judged) class ≡ true }
        requires here { AreHere spot.now.judged self.old }
        ensures at { IfOk result (IsSharedAt (query_of (case_of spot.now.judged) class) self.new.queries.items) }
        ensures here { IfOk result (λ _. AreHere spot.now.judged self.new) }
        ensures noted { IfOk result (λ _. StayNoted self.old.queries.items self.new.queries.items) }
        ensures refused { IfErr result (λ fault. (budget : ℕ) (given : List KnownRecord) → Cause budget given (query_of (case_of spot.now.judged) class) fault) }
        ensures steps { MayLower steps.old steps.new }
        ensures required { self.new.required.items ≡ self.old.required.items }
    {
        let first = spot.sites.first(class);
        if let Some(at) = self.find_here(first) {
            return Ok(at);
        }
        match self.seek(alloc, candidates, spot, class, steps) {
            Ok(at) => match self.add_here(first, at) {
                Ok(()) => Ok(at),
                Err(NoMemory) => Err(JudgeFault::NoMemory),
            },
            Err(fault) => Err(fault),
        }
    }

    /// Notes where the answer of the query at a place stands.
    pub(crate) fn note(&mut self, at: usize, place: usize)
        ensures notes { (judged : JudgedPkg) (certs : List KnownRecord) → AreReady judged certs self.old → IsAnsweredAt certs self.old.queries.items at place → AreReady judged certs self.new }
        ensures required { self.new.required.items ≡ self.old.required.items }
    {
        match self.queries.get_mut(at) {
            Some(kept) => kept.place = Some(place),
            None => {}
        }
    }
}
