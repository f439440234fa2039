//! The steps that prove bits least: for each input that is on, that it or a lower one that is off
//! has to be on. A probe for each input that is on.

ghost use Rattle.std.specs.Prelude.{◌≡◌, ◌<◌, ◌≤◌, ◌^◌, IfOk, OnOk, length};
ghost use Rattle.gv_logic.specs.Logs.{offs, least_set};
ghost use Rattle.gv_trail.specs.Entries.{assignment};
ghost use Rattle.gv_solver.specs.Found.{bits_to};
ghost use Rattle.gv_solver.specs.Proving.{AreOnByForce, Proves, AreLeastBits};
ghost use Rattle.gv_solver.specs.Rounds.{IsModel};
ghost use Rattle.gv_solver.specs.Search.{Ready};

use crate::probing::refute;
use gv_base::NoMemory;
use gv_logic::{Bits, Clauses, Lit};
use gv_refute::Log;
use gv_trail::Trail;
use std::alloc::Global;

/// The bits of a trail that leaves no clause false or unit. They are the least, and the steps that
/// prove it are added to the log.
pub(crate) fn least_bits(
    alloc: Global,
    trail: &mut Trail,
    clauses: &Clauses,
    log: &mut Log,
    inputs: u32,
) -> Result<Bits, NoMemory>
    requires ready { Ready clauses.now inputs trail.old }
    requires model { IsModel clauses.now.clauses inputs trail.old }
    ensures { IfOk result (λ bits. AreLeastBits clauses.now inputs trail.old bits log.old log.new) }
{
    let bits = bits_of(alloc, trail, inputs)?;
    prove_least(alloc, trail, clauses, log, bits.items(), inputs)?;
    Ok(bits)
}

// The bits of the inputs.
fn bits_of(alloc: Global, trail: &Trail, inputs: u32) -> Result<Bits, NoMemory>
    requires { inputs ≤ 2 ^ 30 }
    ensures { IfOk result (λ bits. bits ≡ bits_to (assignment trail.now) inputs) }
{
    let mut bits = Bits::new(alloc);
    for i in 0..inputs {
        bits.add(trail.of(Lit(2 * i)) == Some(true))?;
    }
    Ok(bits)
}

// The places of the bits that are off.
fn off_places(alloc: Global, bits: &[bool]) -> Result<Vec<u32>, NoMemory>
    requires { length bits.now < 2 ^ 32 }
    ensures { IfOk result (λ set. set.items ≡ offs 0 bits.now) }
{
    let mut set = Vec::new(alloc);
    for (place, on) in bits.iter().enumerate() {
        if !*on {
            set.push(place as u32)?;
        }
    }
    Ok(set)
}

// An input, and those below it that are off.
fn least_of(alloc: Global, bits: &[bool], input: u32) -> Result<Vec<u32>, NoMemory>
    requires { input < length bits.now }
    ensures { IfOk result (λ set. set.items ≡ least_set bits.now input) }
{
    let mut set = off_places(alloc, &bits[..input as usize])?;
    set.push(input)?;
    Ok(set)
}

// Adds for each input that is on the step that it is so in the least bits.
fn prove_least(
    alloc: Global,
    trail: &mut Trail,
    clauses: &Clauses,
    log: &mut Log,
    bits: &[bool],
    inputs: u32,
) -> Result<(), NoMemory>
    requires ready { Ready clauses.now inputs trail.old }
    requires bits { length bits.now ≡ inputs }
    requires forced { AreOnByForce clauses.now.clauses bits.now inputs }
    ensures { OnOk result (Proves clauses.now bits.now inputs log.old log.new) }
{
    for input in 0..inputs {
        if !bits[input as usize] {
            continue;
        }
        let set = least_of(alloc, bits, input)?;
        let step = refute(alloc, trail, clauses, inputs, &set)?;
        log.add(step)?;
    }
    Ok(())
}
