//! Gates that are added one by one: a call that says of the gates so far which literals there are.
ghost use Rattle.std.specs.Prelude.{◌≡◌, length, IfOk};

use gv_base::NoMemory;
use gv_logic::{Bits, GateList, Gates, Lit, Op, gate_bytes, value, values};
use std::alloc::Global;
use std::test::Fail;

// No input, and Or of nothing as root.
const OR_OF_NOTHING: [u8; 17] = [0, 0, 0, 0, 0, 0, 0, 1, 1, 0, 0, 0, 0, 0, 0, 0, 0];

fn or_of_nothing(alloc: Global) -> Result<Gates, NoMemory>
    ensures { IfOk result (λ gates. gates.inputs ≡ 0) }
{
    let mut list = GateList::new(alloc, 0);
    let root = list.add(Op::Or, &[])?;
    Ok(list.finish(root))
}

fn is_false(alloc: Global) -> Result<bool, NoMemory> {
    let gates = or_of_nothing(alloc)?;
    Ok(!value(alloc, &gates, &Bits::new(alloc))?)
}

fn has_one_false_value(alloc: Global) -> Result<bool, NoMemory> {
    let gates = or_of_nothing(alloc)?;
    let values = values(alloc, &gates, &Bits::new(alloc))?;
    Ok(values.items() == [false].as_slice())
}

fn has_its_bytes(alloc: Global) -> Result<bool, NoMemory> {
    let gates = or_of_nothing(alloc)?;
    let bytes = gate_bytes(alloc, &gates)?;
    Ok(bytes.bytes() == OR_OF_NOTHING.as_slice())
}

fn input_has_its_bit(alloc: Global) -> Result<bool, NoMemory> {
    let gates = GateList::new(alloc, 1).finish(Lit(0));
    value(alloc, &gates, &Bits::of(alloc, &[true])?)
}

#[test]
fn gates_are_added_one_by_one(rt: HostRuntime) -> Result<(), Fail> {
    let alloc = rt.alloc();
    assert!(rt; is_false(alloc)?);
    assert!(rt; has_one_false_value(alloc)?);
    assert!(rt; has_its_bytes(alloc)?);
    assert!(rt; input_has_its_bit(alloc)?);
    Ok(())
}
