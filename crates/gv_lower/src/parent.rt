//! The literals of the parent's flags: of a flag of the query its input, which says that it hasn't its preferred value, or the
//! opposite; any other is on where it is forced.
ghost use Rattle.std.specs.Prelude.{◌≡◌, ℕ, ◌+◌, ◌*◌, ◌≤◌, Bool, length};
ghost use Rattle.std.specs.Option.{option_map_or};
ghost use Rattle.gv_lower.specs.Inputs.{AreInputs};
ghost use Rattle.gv_lower.specs.Parent.{base_at};
ghost use Rattle.gv_lower.specs.QueryGates.{input_or};
ghost use Rattle.gv_lower.specs.TreeGates.{signed};

use gv_base::{Text, Texts, byte_order_law};
use gv_facts::{FlagState, Level, Pkg, Profile, preferred_on};
use gv_logic::Lit;
use gv_usestate::state;
use std::marker::Model;

// The flags of a query, in byte order, each once: at most 4,096.
#[derive(Drop)]
pub(crate) struct Inputs {
    pub(crate) flags: Texts,
}

impl Model for Inputs {
    ghost use Rattle.std.specs.Prelude.{List, ℕ};
    ghost use Rattle.gv_lower.specs.Inputs.{AreInputs};

    ghost Value = { List (List ℕ) };

    ghost view = { λ i. i.flags };

    ghost invariant = { λ i. AreInputs i.flags };
}

impl Inputs {
    pub(crate) fn count(&self) -> u32
        ensures count { result ≡ length self.now }
        ensures few { length self.now ≤ 4096 }
    {
        self.flags.items().len() as u32
    }

    // The input of the flag where it has one: O(log n) comparisons.
    fn lit(&self, flag: &Text) -> Option<Lit>
        ensures { (preferred : Bool) (other : ℕ) → input_or 0 self.now flag.now preferred other ≡ option_map_or (signed preferred) result other }
    {
        byte_order_law();
        match self.flags.items().binary_search(flag) {
            Ok(i) => Some(Lit(2 * i as u32)),
            Err(_) => None,
        }
    }
}

// A package in a profile at a level, and the literals of its flags.
#[derive(Clone, Copy)]
pub(crate) struct ParentFlags<'a> {
    pub(crate) pkg: &'a Pkg,
    pub(crate) profile: &'a Profile,
    pub(crate) level: Level,
    pub(crate) inputs: &'a Inputs,
    // A literal that is true, and one that is false.
    pub(crate) on: Lit,
    pub(crate) off: Lit,
}

impl ParentFlags<'_> {
    pub(crate) fn flag(&self, flag: &Text) -> Lit
        ensures { result ≡ (base_at self.now).flag flag.now }
    {
        match self.inputs.lit(flag) {
            Some(input) => signed(preferred_on(self.pkg, flag), input),
            None => match state(self.pkg, self.profile, self.level, flag) {
                FlagState::On => self.on,
                _ => self.off,
            },
        }
    }

    // The flag's literal, or its opposite where it is negated.
    pub(crate) fn condition(&self, flag: &Text, negated: bool) -> Lit
        ensures { result ≡ signed negated ((base_at self.now).flag flag.now) }
    {
        signed(negated, self.flag(flag))
    }
}

fn signed(negated: bool, lit: Lit) -> Lit
    ensures { result ≡ signed negated lit }
{
    if negated { lit.opposite() } else { lit }
}
