//! The canonical bytes of gates: their key among queries. Linear in gates and operands.

ghost use Rattle.std.specs.Prelude.{◌≡◌, ◌<◌, ◌^◌, ◌++◌, length, IfOk, OnOk};
ghost use Rattle.gv_logic.specs.Bytes.{number_bytes, numbers_bytes, gate_bytes, circuit_bytes};

use crate::{Gates, Lit, Op};
use gv_base::{NoMemory, Text};
use std::alloc::Global;

/// The canonical bytes: the number of inputs, the number of gates, for each gate one byte (0 And,
/// 1 Or), the number of operands and the operands, and the root. A number is four bytes, the most
/// significant first.
pub fn gate_bytes(alloc: Global, gates: &Gates) -> Result<Text, NoMemory>
    ensures { IfOk result (λ text. text ≡ circuit_bytes gates.now) }
{
    let mut bytes = Vec::with_capacity(alloc, room_of(gates))?;
    put_number(&mut bytes, gates.inputs())?;
    put_number(&mut bytes, gates.count())?;
    for n in 0..gates.count() {
        put_gate(&mut bytes, gates.op(n), gates.operands(n))?;
    }
    put_number(&mut bytes, gates.root().0)?;
    Text::of(alloc, &bytes)
}

// As many bytes as there are.
fn room_of(gates: &Gates) -> usize {
    let fronts = (gates.count() as usize).saturating_mul(5);
    let operands = (gates.operand_count() as usize).saturating_mul(4);
    fronts.saturating_add(operands).saturating_add(12)
}

// Four bytes, the most significant first.
fn put_number(bytes: &mut Vec<u8>, n: u32) -> Result<(), NoMemory>
    ensures { OnOk result (bytes.new.items ≡ bytes.old.items ++ number_bytes n) }
{
    bytes.extend_from_slice(&n.to_be_bytes())?;
    Ok(())
}

fn put_numbers(bytes: &mut Vec<u8>, lits: &[Lit]) -> Result<(), NoMemory>
    ensures { OnOk result (bytes.new.items ≡ bytes.old.items ++ numbers_bytes lits.now) }
{
    for lit in lits {
        put_number(bytes, lit.0)?;
    }
    Ok(())
}

#[tactic(auto, unfolding(crate::specs::Bytes::number_bytes))]
fn put_gate(bytes: &mut Vec<u8>, op: Op, operands: &[Lit]) -> Result<(), NoMemory>
    requires { length operands.now < 2 ^ 32 }
    ensures { OnOk result (bytes.new.items ≡ bytes.old.items ++ gate_bytes (record { op = op; operands = operands.now })) }
{
    let word: u8 = match op {
        Op::And => 0,
        Op::Or => 1,
    };
    let [a, b, c, d] = (operands.len() as u32).to_be_bytes();
    match operands {
        [one] => {
            let [e, f, g, h] = one.0.to_be_bytes();
            bytes.extend_from_slice(&[word, a, b, c, d, e, f, g, h])?;
            Ok(())
        }
        _ => {
            bytes.extend_from_slice(&[word, a, b, c, d])?;
            put_numbers(bytes, operands)
        }
    }
}
