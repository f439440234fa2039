//! The values of gates at given bits. Both calls are linear in places and operands.

ghost use Rattle.std.specs.Prelude.{◌≡◌, length, IfOk};
ghost use Rattle.gv_logic.specs.Literals.{lit_true, clause_true};
ghost use Rattle.gv_logic.specs.Circuits.{at, all_lits_true, op_value, value, values};

use crate::{Bits, Gates, Lit, Op};
use gv_base::NoMemory;
use std::alloc::Global;

/// The value of each place, in order, where the inputs have these bits.
pub fn values(alloc: Global, gates: &Gates, bits: &Bits) -> Result<Bits, NoMemory>
    requires { length bits.now ≡ gates.now.inputs }
    ensures { IfOk result (λ places. places ≡ values gates.now bits.now) }
{
    let mut places = bits.copy(alloc)?;
    for n in 0..gates.count() {
        let on = op_value(places.items(), gates.op(n), gates.operands(n));
        places.add(on)?;
    }
    Ok(places)
}

/// The root's value where the inputs have these bits.
pub fn value(alloc: Global, gates: &Gates, bits: &Bits) -> Result<bool, NoMemory>
    requires { length bits.now ≡ gates.now.inputs }
    ensures { IfOk result (λ on. on ≡ value gates.now bits.now) }
{
    let places = values(alloc, gates, bits)?;
    Ok(lit_value(places.items(), gates.root()))
}

// Of a literal, from the values of the places.
fn lit_value(places: &[bool], lit: Lit) -> bool
    ensures { result ≡ lit_true (at places.now) lit }
{
    let on = match places.get((lit.0 / 2) as usize) {
        Some(on) => *on,
        None => false,
    };
    if lit.0 % 2 == 0 { on } else { !on }
}

fn all_true(places: &[bool], lits: &[Lit]) -> bool
    ensures { result ≡ all_lits_true (at places.now) lits.now }
{
    for lit in lits {
        if !lit_value(places, *lit) {
            return false;
        }
    }
    true
}

fn some_true(places: &[bool], lits: &[Lit]) -> bool
    ensures { result ≡ clause_true (at places.now) lits.now }
{
    for lit in lits {
        if lit_value(places, *lit) {
            return true;
        }
    }
    false
}

fn op_value(places: &[bool], op: Op, operands: &[Lit]) -> bool
    ensures { result ≡ op_value (at places.now) op operands.now }
{
    match op {
        Op::And => all_true(places, operands),
        Op::Or => some_true(places, operands),
    }
}
