//! The clauses of gates, gate by gate. Linear in gates and operands; one list of literals is kept for all long clauses.

ghost use Rattle.std.specs.Prelude.{◌≡◌, ◌+◌, ◌*◌, ◌<◌, ◌≤◌, ◌^◌, [], ◌∷◌, ◌++◌, map, IfOk, OnOk};
ghost use Rattle.std.specs.List.{AllByRecursion};
ghost use Rattle.gv_logic.specs.Literals.{opposite};
ghost use Rattle.gv_logic.specs.declared.gates.Op.TheVariants.{And, Or};
ghost use Rattle.gv_logic.specs.Encoding.{op_clauses, formula_of};

use gv_base::NoMemory;
use gv_logic::{Clauses, Gates, Lit, Op, clause_count};
use std::alloc::Global;

/// The clauses of gates over the places as variables, gate by gate. For an And gate g over l1 to
/// lm: for each i the clause (not g, li), then (g, not l1, .., not lm). For an Or gate: for each i
/// the clause (g, not li), then (not g, l1, .., lm). Last the clause (root). The literals of a
/// clause stand in this order.
pub fn encode(alloc: Global, gates: &Gates) -> Result<Clauses, NoMemory>
    ensures { IfOk result (λ clauses. clauses ≡ formula_of gates.now) }
{
    let inputs = gates.inputs();
    let mut clauses = Clauses::new(alloc, inputs + gates.count());
    let count = clause_count(gates) as usize;
    clauses.reserve(count, count.saturating_mul(3))?;
    let mut room = Vec::new(alloc);
    for n in 0..gates.count() {
        add_gate(
            &mut room,
            &mut clauses,
            inputs + n,
            gates.op(n),
            gates.operands(n),
        )?;
    }
    clauses.add(&[gates.root()])?;
    Ok(clauses)
}

// For each literal the clause of `first` and it.
fn add_pairs(clauses: &mut Clauses, first: Lit, lits: &[Lit]) -> Result<(), NoMemory>
    requires first { first < 2 * clauses.old.variables }
    requires named { AllByRecursion (λ l. l < 2 * clauses.old.variables) lits.now }
    ensures { OnOk result (clauses.new ≡ record clauses.old {
      clauses = clauses.old.clauses ++ map (λ l. first ∷ l ∷ []) lits.now;
    }) }
{
    for lit in lits {
        clauses.add(&[first, *lit])?;
    }
    Ok(())
}

// For each literal the clause of `first` and its opposite.
#[tactic(auto, using(gv_logic::specs::Opposites::opposite_below))]
fn add_opposite_pairs(clauses: &mut Clauses, first: Lit, lits: &[Lit]) -> Result<(), NoMemory>
    requires first { first < 2 * clauses.old.variables }
    requires named { AllByRecursion (λ l. l < 2 * clauses.old.variables) lits.now }
    ensures { OnOk result (clauses.new ≡ record clauses.old {
      clauses = clauses.old.clauses ++ map (λ l. first ∷ opposite l ∷ []) lits.now;
    }) }
{
    for lit in lits {
        clauses.add(&[first, lit.opposite()])?;
    }
    Ok(())
}

// The clause of `first` and all the literals.
fn add_whole(
    whole: &mut Vec<Lit>,
    clauses: &mut Clauses,
    first: Lit,
    lits: &[Lit],
) -> Result<(), NoMemory>
    requires first { first < 2 * clauses.old.variables }
    requires named { AllByRecursion (λ l. l < 2 * clauses.old.variables) lits.now }
    ensures { OnOk result (clauses.new ≡ record clauses.old {
      clauses = clauses.old.clauses ++ (first ∷ lits.now) ∷ [];
    }) }
{
    whole.clear();
    whole.push(first)?;
    for lit in lits {
        whole.push(*lit)?;
    }
    clauses.add(whole)
}

// The clause of `first` and the opposites of all the literals.
fn add_whole_of_opposites(
    turned: &mut Vec<Lit>,
    clauses: &mut Clauses,
    first: Lit,
    lits: &[Lit],
) -> Result<(), NoMemory>
    requires first { first < 2 * clauses.old.variables }
    requires named { AllByRecursion (λ l. l < 2 * clauses.old.variables) lits.now }
    ensures { OnOk result (clauses.new ≡ record clauses.old {
      clauses = clauses.old.clauses ++ (first ∷ map opposite lits.now) ∷ [];
    }) }
{
    turned.clear();
    turned.push(first)?;
    for lit in lits {
        turned.push(lit.opposite())?;
    }
    clauses.add(turned)
}

// (not g, li) for each i, then (g, not l1, .., not lm).
fn add_and(
    room: &mut Vec<Lit>,
    clauses: &mut Clauses,
    place: u32,
    operands: &[Lit],
) -> Result<(), NoMemory>
    requires few { clauses.old.variables ≤ 2 ^ 30 }
    requires place { place < clauses.old.variables }
    requires earlier { AllByRecursion (λ l. l < 2 * place) operands.now }
    ensures { OnOk result (clauses.new ≡ record clauses.old {
      clauses = clauses.old.clauses ++ op_clauses place And operands.now;
    }) }
{
    let on = Lit(2 * place);
    let off = Lit(2 * place + 1);
    add_pairs(clauses, off, operands)?;
    add_whole_of_opposites(room, clauses, on, operands)
}

// (g, not li) for each i, then (not g, l1, .., lm).
fn add_or(
    room: &mut Vec<Lit>,
    clauses: &mut Clauses,
    place: u32,
    operands: &[Lit],
) -> Result<(), NoMemory>
    requires few { clauses.old.variables ≤ 2 ^ 30 }
    requires place { place < clauses.old.variables }
    requires earlier { AllByRecursion (λ l. l < 2 * place) operands.now }
    ensures { OnOk result (clauses.new ≡ record clauses.old {
      clauses = clauses.old.clauses ++ op_clauses place Or operands.now;
    }) }
{
    let on = Lit(2 * place);
    let off = Lit(2 * place + 1);
    add_opposite_pairs(clauses, on, operands)?;
    add_whole(room, clauses, off, operands)
}

// The two clauses of a gate over one literal.
fn add_single(clauses: &mut Clauses, place: u32, op: Op, lit: Lit) -> Result<(), NoMemory>
    requires few { clauses.old.variables ≤ 2 ^ 30 }
    requires place { place < clauses.old.variables }
    requires earlier { lit < 2 * place }
    ensures { OnOk result (clauses.new ≡ record clauses.old {
      clauses = clauses.old.clauses ++ op_clauses place op (lit ∷ []);
    }) }
{
    let forth = [Lit(2 * place + 1), lit];
    let back = [Lit(2 * place), lit.opposite()];
    match op {
        Op::And => {
            clauses.add(&forth)?;
            clauses.add(&back)
        }
        Op::Or => {
            clauses.add(&back)?;
            clauses.add(&forth)
        }
    }
}

fn add_gate(
    room: &mut Vec<Lit>,
    clauses: &mut Clauses,
    place: u32,
    op: Op,
    operands: &[Lit],
) -> Result<(), NoMemory>
    requires few { clauses.old.variables ≤ 2 ^ 30 }
    requires place { place < clauses.old.variables }
    requires earlier { AllByRecursion (λ l. l < 2 * place) operands.now }
    ensures { OnOk result (clauses.new ≡ record clauses.old {
      clauses = clauses.old.clauses ++ op_clauses place op operands.now;
    }) }
{
    match (operands, op) {
        ([one], _) => add_single(clauses, place, op, *one),
        (_, Op::And) => add_and(room, clauses, place, operands),
        (_, Op::Or) => add_or(room, clauses, place, operands),
    }
}
