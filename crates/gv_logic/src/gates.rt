//! Gates: inputs, And and Or over literals of earlier places, and a root.
//!
//! Each reader is O(1), and so is `GateList::add`, on average, beside the copy of its operands.

ghost use Rattle.std.specs.Prelude.{◌≡◌, ◌+◌, ◌*◌, ◌<◌, ◌≤◌, ◌^◌, [], ◌∷◌, ◌++◌, length, slice_index_or, IfOk, OnErr};
ghost use Rattle.std.specs.List.{AllByRecursion};
ghost use Rattle.gv_logic.specs.Circuits.{Gate, Draft, Circuit, IsDraft, IsCircuit, operand_count};

use crate::Lit;
use crate::nodes::Nodes;
use gv_base::NoMemory;
use std::alloc::Global;
use std::marker::Model;

/// What a gate asks of its operands: And that all are true, Or that some is. And of nothing is
/// true, Or of nothing is false.
#[derive(Clone, Copy, Debug, PartialEq, Eq)]
pub enum Op {
    /// All operands are true.
    And,
    /// Some operand is true.
    Or,
}

/// Gates with a root. Places are numbered from 0: the inputs, then the gates in order. The literal
/// of place p is `2 * p`. An operand of a gate is a literal of an earlier place, and the root is a
/// literal of some place. There are at most `2^30` places and `2^30` operands.
#[derive(Drop)]
pub struct Gates {
    inputs: u32,
    nodes: Nodes,
    root: Lit,
}

impl Model for Gates {
    ghost Value = { Circuit };

    ghost view = { λ g. record { inputs = g.inputs; gates = g.nodes; root = g.root } };

    ghost invariant = { λ g. IsCircuit (record { inputs = g.inputs; gates = g.nodes; root = g.root }) };
}

impl Gates {
    /// So many inputs, and gates of which this literal is the root. O(1).
    pub fn of(inputs: u32, nodes: Nodes, root: Lit) -> Gates
        requires { IsCircuit (record { inputs = inputs; gates = nodes; root = root }) }
        ensures { result ≡ record { inputs = inputs; gates = nodes; root = root } }
    {
        Gates {
            inputs,
            nodes,
            root,
        }
    }

    /// The same gates once more. O(operands).
    pub fn copy(&self, alloc: Global) -> Result<Gates, NoMemory>
        ensures { IfOk result (λ gates. gates ≡ self.now) }
    {
        Ok(Gates {
            inputs: self.inputs,
            nodes: self.nodes.copy(alloc)?,
            root: self.root,
        })
    }

    /// The number of inputs.
    pub fn inputs(&self) -> u32
        ensures inputs { result ≡ self.now.inputs }
        ensures formed { IsCircuit self.now }
    {
        self.inputs
    }

    /// The number of gates.
    pub fn count(&self) -> u32
        ensures count { result ≡ length self.now.gates }
        ensures formed { IsCircuit self.now }
    {
        self.nodes.count()
    }

    /// The number of operands of all gates.
    pub(crate) fn operand_count(&self) -> u32
        ensures { result ≡ operand_count self.now.gates }
    {
        self.nodes.operand_count()
    }

    /// What gate n asks of its operands, from gate 0.
    pub fn op(&self, n: u32) -> Op
        requires { n < length self.now.gates }
        ensures { (other : Gate) → result ≡ (slice_index_or self.now.gates n other).op }
    {
        self.nodes.op(n)
    }

    /// The operands of gate n, from gate 0.
    pub fn operands(&self, n: u32) -> &[Lit]
        requires { n < length self.now.gates }
        ensures operands { (other : Gate) → result.now ≡ (slice_index_or self.now.gates n other).operands }
        ensures few { length result.now < 2 ^ 32 }
    {
        self.nodes.operands(n)
    }

    /// The literal whose value is that of the gates.
    pub fn root(&self) -> Lit
        ensures { result ≡ self.now.root }
    {
        self.root
    }
}

/// Gates in the making: inputs, and the gates so far.
#[derive(Drop)]
pub struct GateList {
    inputs: u32,
    nodes: Nodes,
}

impl Model for GateList {
    ghost Value = { Draft };

    ghost view = { λ g. record { inputs = g.inputs; gates = g.nodes } };

    ghost invariant = { λ g. IsDraft (record { inputs = g.inputs; gates = g.nodes }) };
}

impl GateList {
    /// So many inputs and no gates.
    pub fn new(alloc: Global, inputs: u32) -> GateList
        requires { inputs ≤ 2 ^ 30 }
        ensures { result ≡ record { inputs = inputs; gates = [] } }
    {
        GateList {
            inputs,
            nodes: Nodes::new(alloc),
        }
    }

    /// Adds a gate and gives its literal. After an error the list is unchanged.
    pub fn add(&mut self, op: Op, operands: &[Lit]) -> Result<Lit, NoMemory>
        requires earlier { AllByRecursion (λ l. l < 2 * (self.old.inputs + length self.old.gates)) operands.now }
        requires places { self.old.inputs + length self.old.gates < 2 ^ 30 }
        requires operands { operand_count self.old.gates + length operands.now ≤ 2 ^ 30 }
        ensures ok { IfOk result (λ lit. (lit ≡ 2 * (self.old.inputs + length self.old.gates))
            × (self.new ≡ record self.old { gates = self.old.gates ++ record { op = op; operands = operands.now } ∷ [] })) }
        ensures err { OnErr result (self.new ≡ self.old) }
    {
        let place = self.inputs + self.nodes.count();
        self.nodes.add(op, operands)?;
        Ok(Lit(2 * place))
    }

    /// These gates with the root.
    pub fn finish(self, root: Lit) -> Gates
        requires { root < 2 * (self.inputs + length self.gates) }
        ensures { result ≡ record { inputs = self.inputs; gates = self.gates; root = root } }
    {
        Gates {
            inputs: self.inputs,
            nodes: self.nodes,
            root,
        }
    }
}
