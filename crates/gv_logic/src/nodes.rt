//! Gates one after another, with neither inputs nor a root. The operands of all stand in one list.

ghost use Rattle.std.specs.Prelude.{◌≡◌, ◌<◌, ◌^◌, [], ◌∷◌, ◌++◌, length, slice_index_or, IfOk, OnOk, OnErr};
ghost use Rattle.gv_logic.specs.Circuits.{Gate, operand_count};

use crate::lit_lists::LitLists;
use crate::{Lit, Op};
use gv_base::NoMemory;
use std::alloc::Global;
use std::marker::Model;

/// Gates in order: at most `2^32 - 1`, over at most `2^32 - 1` operands in all.
#[derive(Drop)]
pub struct Nodes {
    ops: Vec<Op>,
    operands: LitLists,
}

impl Model for Nodes {
    ghost use Rattle.std.specs.Prelude.{◌≡◌, List, length};
    ghost use Rattle.gv_logic.specs.Circuits.{Gate};
    ghost use Rattle.gv_logic.specs.Nodes.{gates_of};

    ghost Value = { List Gate };

    ghost view = { λ n. gates_of n.ops.items n.operands };

    ghost invariant = { λ n. length n.ops.items ≡ length n.operands };
}

impl Nodes {
    /// No gates.
    pub fn new(alloc: Global) -> Nodes
        ensures { result ≡ [] }
    {
        Nodes {
            ops: Vec::new(alloc),
            operands: LitLists::new(alloc),
        }
    }

    /// Adds a gate. After an error the gates are unchanged; where there are too many, there is no
    /// room either. O(operands) on average.
    pub fn add(&mut self, op: Op, operands: &[Lit]) -> Result<(), NoMemory>
        ensures ok { OnOk result (self.new ≡ self.old ++ record { op = op; operands = operands.now } ∷ []) }
        ensures err { OnErr result (self.new ≡ self.old) }
    {
        // so no step behind the operands can fail
        self.ops.reserve(1)?;
        self.operands.add(operands)?;
        self.ops.push_reserved(op);
        Ok(())
    }

    /// Makes room for so many more gates, of so many operands in all.
    pub fn reserve(&mut self, gates: usize, operands: usize) -> Result<(), NoMemory>
        ensures { self.new ≡ self.old }
    {
        self.ops.reserve(gates)?;
        self.operands.reserve(gates, operands)
    }

    /// The same gates once more. O(operands).
    pub fn copy(&self, alloc: Global) -> Result<Nodes, NoMemory>
        ensures { IfOk result (λ nodes. nodes ≡ self.now) }
    {
        Ok(Nodes {
            ops: Vec::from_slice(alloc, &self.ops)?,
            operands: self.operands.copy(alloc)?,
        })
    }

    /// The number of gates. O(1).
    #[tactic(auto, using(crate::proofs::NodeLemmas::length_gates))]
    pub fn count(&self) -> u32
        ensures { result ≡ length self.now }
    {
        self.operands.count()
    }

    /// The number of operands of all gates. O(1).
    pub fn operand_count(&self) -> u32
        ensures { result ≡ operand_count self.now }
    {
        self.operands.literals()
    }

    /// What gate n asks of its operands, from gate 0. O(1).
    #[tactic(auto, using(crate::proofs::NodeLemmas::length_gates, crate::proofs::NodeLemmas::nth_op))]
    pub fn op(&self, n: u32) -> Op
        requires { n < length self.now }
        ensures { (other : Gate) → result ≡ (slice_index_or self.now n other).op }
    {
        self.ops[n as usize]
    }

    /// The operands of gate n, from gate 0. O(1).
    #[tactic(auto, using(crate::proofs::NodeLemmas::length_gates, crate::proofs::NodeLemmas::nth_operands))]
    pub fn operands(&self, n: u32) -> &[Lit]
        requires { n < length self.now }
        ensures operands { (other : Gate) → result.now ≡ (slice_index_or self.now n other).operands }
        ensures few { length result.now < 2 ^ 32 }
    {
        self.operands.at(n)
    }
}
