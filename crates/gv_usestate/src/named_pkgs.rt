//! The packages that atoms of rules name, by category and name, in a hash set.
//!
//! `new` costs O(1) on average for each rule, `has` a look-up by hash, O(bytes of category and name), without memory.
ghost use Rattle.std.specs.Prelude.{◌≡◌, ◌||◌, List, ℕ, IfOk, OnOk};
ghost use Rattle.gv_usestate.specs.NamedPkgs.{AreNamed, has_key, is_named, names_pkg};

use gv_base::NoMemory;
use gv_facts::{Pkg, Rule, Rules};
use indexmap::IndexSet;
use std::alloc::Global;
use std::marker::Model;

/// Rules with the categories and names of their atoms.
#[derive(Drop)]
pub(crate) struct NamedPkgs<'a> {
    rules: &'a Rules,
    keys: IndexSet<(&'a [u8], &'a [u8])>,
}

impl<'a> Model for NamedPkgs<'a> {
    ghost use Rattle.std.specs.Prelude.{List};
    ghost use Rattle.gv_facts.specs.declared.rules.Rule.{Rule};
    ghost use Rattle.gv_usestate.specs.NamedPkgs.{AreNamed};

    ghost Value = { List Rule };

    ghost view = { λ n. n.rules.now };

    ghost invariant = { λ n. AreNamed n.keys.keys n.rules.now };
}

impl<'a> NamedPkgs<'a> {
    pub(crate) fn new(alloc: Global, rules: &'a Rules) -> Result<NamedPkgs<'a>, NoMemory>
        ensures { IfOk result (λ named. named ≡ rules.now) }
    {
        let keys = named_by(alloc, rules)?;
        Ok(NamedPkgs { rules, keys })
    }

    /// Whether an atom of a rule has the category and the name of the package.
    pub(crate) fn has(&self, pkg: &Pkg) -> bool
        ensures { result ≡ is_named self.now pkg.now }
    {
        let category = pkg.category.bytes();
        let name = pkg.name.bytes();
        self.keys.contains(&(category, name))
    }
}

// Adds the category and the name of the rule's atom.
fn add_named<'a>(keys: &mut IndexSet<(&'a [u8], &'a [u8])>, rule: &'a Rule) -> Result<(), NoMemory>
    ensures { OnOk result ((category name : List ℕ) → has_key keys.new.keys category name ≡ (has_key keys.old.keys category name || names_pkg category name rule.now)) }
{
    if let Some(shared) = &rule.atom {
        let atom = shared.atom();
        let category = atom.category.bytes();
        let name = atom.name.bytes();
        keys.insert((category, name))?;
    }
    Ok(())
}

fn named_by<'a>(alloc: Global, rules: &'a Rules) -> Result<IndexSet<(&'a [u8], &'a [u8])>, NoMemory>
    ensures { IfOk result (λ keys. AreNamed keys.keys rules.now) }
{
    let mut keys = IndexSet::new(alloc);
    for rule in rules.items() {
        add_named(&mut keys, rule)?;
    }
    Ok(keys)
}
