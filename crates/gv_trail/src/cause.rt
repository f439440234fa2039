//! Why a variable is assigned, and how assignments are taken back.

ghost use Rattle.std.specs.Prelude.{◌≡◌, ◌*◌, ◌/◌, ℕ, false, length, take, replicate, slice_set};
ghost use Rattle.gv_trail.specs.Cause.{cause_at, entries_of};
ghost use Rattle.gv_trail.specs.Entries.{AreLevels, made_true, front_to};
ghost use Rattle.gv_trail.specs.Marks.{AreFresh};

use gv_logic::Lit;

/// The number of the clause that asked for a variable's literal, unless it was decided, and its
/// level.
#[derive(Clone, Copy, Drop)]
pub(crate) struct Cause {
    pub(crate) reason: Option<u32>,
    pub(crate) level: u32,
}

/// The cause of the literal's variable.
pub(crate) fn cause_of(causes: &[Cause], lit: Lit) -> Cause
    ensures { result ≡ cause_at causes.now (lit / 2) }
{
    match causes.get(lit.0 as usize / 2) {
        Some(cause) => *cause,
        None => Cause {
            reason: None,
            level: 0,
        },
    }
}

/// Unmarks the literals at the end that stand above a level, and says how many are left.
pub(crate) fn take_back(on: &mut Vec<bool>, lits: &[Lit], causes: &[Cause], level: u32) -> usize
    requires marked { on.old.items ≡ made_true (replicate (2 * length causes.now) false) (entries_of causes.now lits.now) }
    requires fresh { AreFresh (replicate (2 * length causes.now) false) (entries_of causes.now lits.now) }
    requires levels { (last : ℕ) × AreLevels 0 (entries_of causes.now lits.now) last }
    ensures left { entries_of causes.now (take result lits.now) ≡ front_to level (entries_of causes.now lits.now) }
    ensures marked { on.new.items ≡ made_true (replicate (2 * length causes.now) false) (entries_of causes.now (take result lits.now)) }
{
    let mut left = lits.len();
    while left > 0 {
        let lit = lits[left - 1];
        if cause_of(causes, lit).level <= level {
            return left;
        }
        unmark(on, lit);
        left -= 1;
    }
    0
}

fn unmark(on: &mut Vec<bool>, lit: Lit)
    ensures { on.new.items ≡ slice_set on.old.items lit false }
{
    if (lit.0 as usize) < on.len() {
        on[lit.0 as usize] = false;
    }
}
