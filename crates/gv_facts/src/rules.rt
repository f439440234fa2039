//! Rules on flags (PMS chapter 5). A copy costs O(bytes of flags), the other calls what `index` says.
ghost use Rattle.std.specs.Prelude.{◌≡◌, [], ◌∷◌, ◌++◌, Some, filter, map, slice_get, IfOk, OnOk, OnErr};
ghost use Rattle.gv_facts.specs.Places.{names_flag, places_of};

use crate::index::{Index, next_place};
use gv_atom::SharedAtom;
use gv_base::{NoMemory, Text};
use std::alloc::Global;
use std::marker::Model;

/// What a rule does to a flag.
#[derive(Clone, Copy, Debug, PartialEq, Eq)]
pub enum Effect {
    /// The flag is on where it isn't masked too.
    Force,
    /// The flag is off, also where it is forced.
    Mask,
}

/// A flag in a file that forces or masks flags.
#[derive(Drop)]
pub struct Rule {
    /// Told by the name of the file: a `.force` or a `.mask`.
    pub effect: Effect,
    /// Whether it counts only where stable restrictions apply.
    pub stable: bool,
    /// The packages for which it counts, all where there is none.
    pub atom: Option<SharedAtom>,
    /// The name alone, without the `-` of a rule that ends an effect.
    pub flag: Text,
    /// Whether the effect begins, or an earlier one ends (`-flag`).
    pub on: bool,
}

impl Rule {
    /// An equal rule.
    pub fn copy(&self, alloc: Global) -> Result<Rule, NoMemory>
        ensures { IfOk result (λ rule. rule ≡ self.now) }
    {
        Ok(Rule {
            effect: self.effect,
            stable: self.stable,
            atom: share_atom(&self.atom)?,
            flag: self.flag.copy(alloc)?,
            on: self.on,
        })
    }
}

/// A list of rules, in the order in which they apply, which knows the places of those that name each flag.
#[derive(Drop)]
pub struct Rules {
    items: Vec<Rule>,
    by_flag: Index,
}

impl Model for Rules {
    ghost use Rattle.std.specs.Prelude.{List};
    ghost use Rattle.gv_facts.specs.declared.rules.Rule.{Rule};
    ghost use Rattle.gv_facts.specs.Index.{HasRules};

    ghost Value = { List Rule };

    ghost view = { λ l. l.items.items };

    ghost invariant = { λ l. HasRules l.by_flag l.items.items };
}

impl Rules {
    /// No rules.
    pub fn new(alloc: Global) -> Self
        ensures { result ≡ [] }
    {
        Rules {
            items: Vec::new(alloc),
            by_flag: Index::new(alloc),
        }
    }

    /// Adds a rule at the end. After an error the list is unchanged.
    pub fn add(&mut self, item: Rule) -> Result<(), NoMemory>
        ensures ok { OnOk result (self.new ≡ self.old ++ item ∷ []) }
        ensures err { OnErr result (self.new ≡ self.old) }
    {
        self.items.reserve(1)?;
        let place = next_place(self.items.len())?;
        self.by_flag.add(item.flag.bytes(), place)?;
        self.items.push_reserved(item);
        Ok(())
    }

    /// The rules, in order.
    pub fn items(&self) -> &[Rule]
        ensures { result.now ≡ self.now }
    {
        &self.items
    }

    /// The places, from 0 and ascending, of the rules that name this flag. Takes no memory.
    pub fn places_of(&self, flag: &[u8]) -> &[u32]
        ensures places { result.now ≡ places_of (names_flag flag.now) self.now }
        // What stands at them is what was looked for.
        ensures items { map (slice_get self.now) result.now ≡ map Some (filter (names_flag flag.now) self.now) }
    {
        self.by_flag.at(flag)
    }

    /// An equal list.
    pub fn copy(&self, alloc: Global) -> Result<Self, NoMemory>
        ensures { IfOk result (λ rules. rules ≡ self.now) }
    {
        let mut rules = Rules::new(alloc);
        for item in self.items() {
            rules.add(item.copy(alloc)?)?;
        }
        Ok(rules)
    }
}

fn share_atom(atom: &Option<SharedAtom>) -> Result<Option<SharedAtom>, NoMemory>
    ensures { IfOk result (λ shared. shared ≡ atom.now) }
{
    match atom {
        Some(atom) => Ok(Some(atom.share()?)),
        None => Ok(None),
    }
}
