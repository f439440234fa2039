//! Answers to gates, one for each distinct ones.
//!
//! Gates cost a look-up by their bytes, O(their places and operands), and nothing where the number of their record is known;
//! only the first time their records or the solver.
ghost use Rattle.std.specs.Prelude.{◌≡◌, ℕ, true, Some, ◌≤◌, ◌∷◌, ◌++◌, [], if◌then◌else◌, IfErr, IfOk, OnOk};
ghost use Rattle.gv_base.specs.Steps.{after};
ghost use Rattle.gv_base.specs.declared.steps.Kind.TheVariants.{Solve};
ghost use Rattle.gv_cert.specs.Known.{HasQuery};
ghost use Rattle.gv_logic.specs.Bytes.{circuit_bytes};
ghost use Rattle.gv_query.specs.Answering.{SpentBy};
ghost use Rattle.gv_query.specs.Asking.{IsAnswered, MayCount};
ghost use Rattle.gv_checks.specs.Asked.{found_bits};
ghost use Rattle.gv_checks.specs.Progress.{AreSome, Uses};

use crate::chosen::Asking;
use gv_base::{Ledger, NoMemory, Steps, Text};
use gv_cert::{Claim, Known, naming_law, write_answer};
use gv_logic::{Bits, Gates, circuit_law, clause_count};
use gv_query::{Answer, AskFault, answer_of, answer_within};
use std::alloc::Global;

/// Records of gates and answers, and what each found: the least bits, or that there are none.
#[derive(Drop)]
pub(crate) struct Used {
    pub(crate) certs: Known,
    pub(crate) found: Vec<Option<Bits>>,
}

/// The bits that it found.
pub(crate) fn into_found(claim: Claim) -> Option<Bits>
    ensures { result ≡ found_bits claim }
{
    match claim {
        Claim::Refuted { .. } => None,
        Claim::Found { bits, .. } => Some(bits),
    }
}

// The answer as `answer_within` has it; and where there is none, at most one is solved too.
fn answer<L: Ledger>(
    alloc: Global,
    gates: &Gates,
    budget: u32,
    given: &Known,
    steps: &mut Steps<L>,
) -> Result<Answer, AskFault>
    requires most { budget ≤ 1000000 }
    ensures answered { IfOk result (λ a. IsAnswered gates.now budget given.now a.claim a.reused) }
    ensures counted { IfOk result (λ a. steps.new ≡ (if a.reused then steps.old else after Solve steps.old)) }
    ensures few { MayCount steps.old steps.new }
    ensures spent { IfErr result (SpentBy gates.now budget given.now) }
    ensures reused { IfOk result (λ a. budget ≡ 0 → a.reused ≡ true) }
    ensures unsolved { budget ≡ 0 → steps.new ≡ steps.old }
{
    if budget == 0 {
        return answer_within(alloc, gates, budget, given, steps);
    }
    answer_of(alloc, gates, budget, given, steps)
}

impl Used {
    pub(crate) fn new(alloc: Global) -> Used
        ensures certs { result.certs ≡ [] }
        ensures found { result.found.items ≡ [] }
    {
        Used {
            certs: Known::new(alloc),
            found: Vec::new(alloc),
        }
    }

    fn keep(&mut self, query: &Text, claim: Claim, answer: &Text) -> Result<(), NoMemory>
        ensures certs { OnOk result (self.new.certs ≡ self.old.certs ++ record { query = query.now; answer = answer.now } ∷ []) }
        ensures found { OnOk result (self.new.found.items ≡ self.old.found.items ++ found_bits claim ∷ []) }
    {
        self.certs.insert(query, answer)?;
        self.found.push(into_found(claim))?;
        Ok(())
    }

    // The place of what is found for the gates, which have these bytes, and are asked about where they are new; with no
    // budget, of the records alone.
    fn place<L: Ledger>(
        &mut self,
        alloc: Global,
        query: &Text,
        gates: &Gates,
        budget: u32,
        given: &Known,
        steps: &mut Steps<L>,
    ) -> Result<usize, AskFault>
        requires bytes { query.now ≡ circuit_bytes gates.now }
        requires most { budget ≤ 1000000 }
        requires used { AreSome budget given.now self.old steps.old }
        ensures uses { Uses budget given.now gates.now self.old self.new steps.old steps.new result }
        ensures few { MayCount steps.old steps.new }
        ensures unsolved { budget ≡ 0 → steps.new ≡ steps.old }
    {
        circuit_law();
        let _inputs = gates.inputs();
        if let Some(number) = self.certs.find(query.bytes(), 0) {
            return Ok(number as usize);
        }
        let Answer { claim, reused: _ } = answer(alloc, gates, budget, given, steps)?;
        naming_law();
        let bytes = write_answer(alloc, clause_count(gates), &claim)?;
        let place = self.found.as_slice().len();
        self.keep(query, claim, &bytes)?;
        Ok(place)
    }

    /// The same, but where the number of a record with these bytes is known, they aren't looked for.
    pub(crate) fn place_near<L: Ledger>(
        &mut self,
        alloc: Global,
        near: Option<usize>,
        query: &Text,
        gates: &Gates,
        asking: &Asking<'_>,
        steps: &mut Steps<L>,
    ) -> Result<usize, AskFault>
        requires near { (n : ℕ) → near ≡ Some n → HasQuery query.now self.old.certs n }
        requires bytes { query.now ≡ circuit_bytes gates.now }
        requires used { AreSome asking.now.budget asking.now.given.now self.old steps.old }
        ensures uses { Uses asking.now.budget asking.now.given.now gates.now self.old self.new steps.old steps.new result }
        ensures few { MayCount steps.old steps.new }
        ensures unsolved { asking.now.budget ≡ 0 → steps.new ≡ steps.old }
    {
        circuit_law();
        let _inputs = gates.inputs();
        match near {
            Some(near) => Ok(near),
            None => self.place(alloc, query, gates, asking.budget, asking.given, steps),
        }
    }
}
