//! What is made once of a profile that is asked often: the flags that it makes effective and the packages that atoms of its rules
//! name, in hash sets, and the rules for every package once more by themselves. For a package that no atom names, as for most,
//! they alone count, so that what a state costs doesn't grow with the rules for other packages.
//!
//! `new` costs O(1) on average for each rule, O(bytes) for each rule for every package, and O(bytes) for each flag that the profile
//! makes effective, which it copies. `is_implicit` is a look-up by hash. `effective_state` costs a look-up and the rules for every
//! package that name the flag, or all rules that name it where an atom names the package; for all flags of a package it is found
//! once whether an atom does.
ghost use Rattle.std.specs.Prelude.{◌≡◌, true, filter, List, ℕ, IfOk};
ghost use Rattle.gv_base.specs.Order.{has_text};
ghost use Rattle.gv_facts.specs.Effective.{is_effective};
ghost use Rattle.gv_facts.specs.States.{state};
ghost use Rattle.gv_usestate.specs.FlagSets.{AreImplicit, has_owned, implicit_flags};
ghost use Rattle.gv_usestate.specs.NamedPkgs.{is_general};

use crate::flags::add_implicit;
use crate::named_pkgs::NamedPkgs;
use crate::pkg_in_profile::PkgInProfile;
use crate::states::{effective_state, general_state};
use gv_base::{NoMemory, Texts};
use gv_facts::{FlagState, Profile, Rules};
use indexmap::IndexSet;
use std::alloc::Global;
use std::marker::Model;

/// A profile with its rules for every package, the packages that its other rules name, and the flags that it makes effective.
#[derive(Drop)]
pub(crate) struct ProfileSets<'a> {
    profile: &'a Profile,
    general: Rules,
    named: NamedPkgs<'a>,
    implicit: IndexSet<Vec<u8>>,
}

impl<'a> Model for ProfileSets<'a> {
    ghost use Rattle.std.specs.Prelude.{◌≡◌, filter};
    ghost use Rattle.gv_facts.specs.declared.profile.Profile.{Profile};
    ghost use Rattle.gv_usestate.specs.NamedPkgs.{is_general};
    ghost use Rattle.gv_usestate.specs.FlagSets.{AreImplicit};

    ghost Value = { Profile };

    ghost view = { λ s. s.profile.now };

    ghost invariant = { λ s. (s.general ≡ filter is_general s.profile.now.rules) × ((s.named ≡ s.profile.now.rules) × (AreImplicit s.implicit.keys s.profile.now)) };
}

impl<'a> ProfileSets<'a> {
    pub(crate) fn new(alloc: Global, profile: &'a Profile) -> Result<ProfileSets<'a>, NoMemory>
        ensures { IfOk result (λ sets. sets ≡ profile.now) }
    {
        let general = general_rules(alloc, &profile.rules)?;
        let named = NamedPkgs::new(alloc, &profile.rules)?;
        let implicit = implicit_by(alloc, profile)?;
        Ok(ProfileSets {
            profile,
            general,
            named,
            implicit,
        })
    }

    /// Whether the flag is effective for a package that doesn't have it in IUSE.
    pub(crate) fn is_implicit(&self, flag: &[u8]) -> bool
        ensures { result ≡ has_text (implicit_flags self.now) flag.now }
    {
        self.implicit.contains(flag)
    }

    /// The state of an effective flag.
    pub(crate) fn effective_state(&self, pkg: &mut PkgInProfile<'_>, flag: &[u8]) -> FlagState
        requires profile { pkg.old.profile ≡ self.now }
        requires effective { is_effective pkg.old.pkg self.now flag.now ≡ true }
        ensures value { result ≡ state pkg.old.pkg self.now pkg.old.level flag.now }
        ensures same { pkg.new ≡ pkg.old }
    {
        if pkg.is_named(&self.named) {
            effective_state(pkg, flag, self.profile.rules.places_of(flag))
        } else {
            general_state(pkg, flag, &self.general)
        }
    }
}

// The rules for every package, in order.
fn general_rules(alloc: Global, rules: &Rules) -> Result<Rules, NoMemory>
    ensures { IfOk result (λ general. general ≡ filter is_general rules.now) }
{
    let mut general = Rules::new(alloc);
    for rule in rules.items() {
        if rule.atom.is_none() {
            general.add(rule.copy(alloc)?)?;
        }
    }
    Ok(general)
}

// The flags, as keys of their own.
fn set_of(alloc: Global, flags: &Texts) -> Result<IndexSet<Vec<u8>>, NoMemory>
    ensures { IfOk result (λ set. (flag : List ℕ) → has_owned set.keys flag ≡ has_text flags.now flag) }
{
    let mut set = IndexSet::new(alloc);
    for flag in flags.items() {
        let key = Vec::from_slice(alloc, flag.bytes())?;
        set.insert(key)?;
    }
    Ok(set)
}

// The flags that the profile makes effective.
fn implicit_by(alloc: Global, profile: &Profile) -> Result<IndexSet<Vec<u8>>, NoMemory>
    ensures { IfOk result (λ set. AreImplicit set.keys profile.now) }
{
    let mut flags = Texts::new(alloc);
    add_implicit(alloc, &mut flags, profile)?;
    set_of(alloc, &flags)
}
