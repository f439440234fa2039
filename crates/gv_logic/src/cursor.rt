//! Reading numbers, operands and gates from bytes. Each call costs what it takes.

ghost use Rattle.std.specs.Prelude.{◌≡◌, ◌+◌, ◌^◌, ◌<◌, ◌≤◌, ◌++◌, ◌∷◌, [], length, drop, MatchBool, MatchOption, IfOk, IfSome};
ghost use Rattle.gv_logic.specs.Bytes.{number_bytes};
ghost use Rattle.gv_logic.specs.Cursor.{ReadsNumbers, ReadsOp, ReadsGate, ReadsGates};

use crate::{GateList, Lit, Lits, Op};
use gv_base::NoMemory;
use std::alloc::Global;
use std::marker::Model;

// The bytes that are left.
#[derive(Drop)]
pub(crate) struct Reader<'a> {
    rest: &'a [u8],
}

impl<'a> Model for Reader<'a> {
    ghost use Rattle.std.specs.Prelude.{List, ℕ};

    ghost Value = { List ℕ };

    ghost view = { λ r. r.rest.now };
}

impl<'a> Reader<'a> {
    pub(crate) fn new(bytes: &'a [u8]) -> Reader<'a>
        ensures { result ≡ bytes.now }
    {
        Reader { rest: bytes }
    }

    pub(crate) fn is_empty(&self) -> bool
        ensures { MatchBool result (self.now ≡ []) (0 < length self.now) }
    {
        self.rest.is_empty()
    }

    // The next byte, where there is one.
    pub(crate) fn byte(&mut self) -> Option<u8>
        ensures { MatchOption result (self.old ≡ []) (λ b. self.old ≡ b ∷ self.new) }
    {
        if self.rest.is_empty() {
            return None;
        }
        let byte = self.rest[0];
        self.rest = &self.rest[1..];
        Some(byte)
    }

    // The next four bytes as a number, where there are as many.
    pub(crate) fn number(&mut self) -> Option<u32>
        ensures number { MatchOption result (length self.old < 4) (λ n. self.old ≡ number_bytes n ++ self.new) }
        ensures fits { IfSome result (λ n. n < 2 ^ 32) }
    {
        let number = first_number(self.rest)?;
        self.rest = &self.rest[4..];
        Some(number)
    }

    // The next literals, so many, each below `bound`; None exactly where these don't come next.
    // Nothing is reserved: a literal is added when its bytes were there.
    fn literals(&mut self, alloc: Global, count: u32, bound: u32) -> Result<Option<Lits>, NoMemory>
        ensures { IfOk result (ReadsNumbers count bound self.old self.new) }
    {
        let mut lits = Lits::new(alloc);
        for n in 0..count {
            let Some(number) = self.number() else {
                return Ok(None);
            };
            if number >= bound {
                return Ok(None);
            }
            lits.add(Lit(number))?;
        }
        Ok(Some(lits))
    }

    // The next byte as an op, where it is one.
    fn op(&mut self) -> Option<Op>
        ensures { ReadsOp self.old self.new result }
    {
        match self.byte()? {
            0 => Some(Op::And),
            1 => Some(Op::Or),
            _ => None,
        }
    }

    // The next gate, over at most `room` literals below `bound`; None exactly where no such comes
    // next.
    fn gate(&mut self, alloc: Global, bound: u32, room: u32) -> Result<Option<Node>, NoMemory>
        ensures { IfOk result (ReadsGate bound room self.old self.new) }
    {
        let Some(op) = self.op() else {
            return Ok(None);
        };
        let Some(count) = self.number() else {
            return Ok(None);
        };
        if count > room {
            return Ok(None);
        }
        let Some(operands) = self.literals(alloc, count, bound)? else {
            return Ok(None);
        };
        Ok(Some(Node { op, operands }))
    }

    // The next gates, so many, behind so many inputs; None exactly where these don't come next.
    // Nothing is reserved: a gate is added when its bytes were there.
    pub(crate) fn gates(
        &mut self,
        alloc: Global,
        inputs: u32,
        count: u32,
    ) -> Result<Option<GateList>, NoMemory>
        requires { inputs + count ≤ 2 ^ 30 }
        ensures { IfOk result (ReadsGates inputs count self.old self.new) }
    {
        let mut list = GateList::new(alloc, inputs);
        let mut room: u32 = 1 << 30;
        for n in 0..count {
            let Some(node) = self.gate(alloc, 2 * (inputs + n), room)? else {
                return Ok(None);
            };
            let operands = node.operands.items();
            room -= operands.len() as u32;
            list.add(node.op, operands)?;
        }
        Ok(Some(list))
    }
}

// A gate as it was read.
#[derive(Drop)]
struct Node {
    op: Op,
    operands: Lits,
}

impl Model for Node {
    ghost use Rattle.gv_logic.specs.Circuits.{Gate};

    ghost Value = { Gate };

    ghost view = { λ n. record { op = n.op; operands = n.operands } };
}

// The first four bytes as a number.
fn first_number(bytes: &[u8]) -> Option<u32>
    ensures { MatchOption result (length bytes.now < 4) (λ n. (4 ≤ length bytes.now) × (bytes.now ≡ number_bytes n ++ drop 4 bytes.now)) }
{
    if bytes.len() < 4 {
        return None;
    }
    Some(u32::from_be_bytes([bytes[0], bytes[1], bytes[2], bytes[3]]))
}
