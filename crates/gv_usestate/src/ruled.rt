//! What is known of the state of a package's flag whatever the profile: found once for the package, and not in each profile. For
//! many packages a hash set is made of the flags that rules name (`new`, O(1) on average for each rule of each profile); for few of
//! them the profiles are asked as they stand (`of`, O(1), without memory).
//!
//! `kind` costs O(the package's flags) comparisons and, where the flag is among them, a look-up by hash: by the set one, without it
//! one in each profile until a rule names the flag. It takes no memory.
ghost use Rattle.std.specs.Prelude.{◌≡◌, ◌||◌, List, ℕ, IfOk, OnOk};
ghost use Rattle.std.specs.List.{list_any};
ghost use Rattle.gv_facts.specs.Places.{names_flag};
ghost use Rattle.gv_facts.specs.declared.profile.Profile.{Profile};
ghost use Rattle.gv_facts.specs.declared.pkg.Pkg.{Pkg};
ghost use Rattle.gv_usestate.specs.Kinds.{IsKind, IsOneOf, flag_kind, is_ruled};
ghost use Rattle.gv_usestate.specs.FlagSets.{AreRuled, has_flag};

use gv_base::NoMemory;
use gv_facts::{Pkg, Profile, Rules};
use indexmap::IndexSet;
use std::alloc::Global;
use std::marker::Model;

/// How far the state of a package's flag rests on the profile.
#[derive(Clone, Copy, Debug, PartialEq, Eq)]
pub enum FlagKind {
    /// It is in IUSE and no rule names it: it is free in each of the profiles at each level.
    Plain,
    /// It is in IUSE, so it is effective in each profile.
    Listed,
    /// It isn't.
    Other,
}

/// Profiles that are asked whether their rules name a flag: made once for the profiles, and asked of the flags of every package.
#[derive(Drop)]
pub struct RuledFlags<'a> {
    profiles: &'a [Profile],
    // The flags that their rules name, where they were put into a set for many packages.
    flags: Option<IndexSet<&'a [u8]>>,
}

impl<'a> Model for RuledFlags<'a> {
    ghost use Rattle.std.specs.Prelude.{IfSome, List};
    ghost use Rattle.gv_facts.specs.declared.profile.Profile.{Profile};
    ghost use Rattle.gv_usestate.specs.FlagSets.{AreRuled};

    ghost Value = { List Profile };

    ghost view = { λ r. r.profiles.now };

    ghost invariant = { λ r. IfSome r.flags (λ flags. AreRuled flags.keys r.profiles.now) };
}

impl<'a> RuledFlags<'a> {
    /// The profiles with a set of the flags that their rules name: for many packages.
    pub fn new(alloc: Global, profiles: &'a [Profile]) -> Result<RuledFlags<'a>, NoMemory>
        ensures { IfOk result (λ ruled. ruled ≡ profiles.now) }
    {
        let flags = ruled_by(alloc, profiles)?;
        Ok(RuledFlags {
            profiles,
            flags: Some(flags),
        })
    }

    /// The profiles as they stand: for few packages.
    pub fn of(profiles: &'a [Profile]) -> RuledFlags<'a>
        ensures { result ≡ profiles.now }
    {
        RuledFlags {
            profiles,
            flags: None,
        }
    }

    // Whether a rule of one of the profiles names the flag.
    fn is_ruled(&self, flag: &[u8]) -> bool
        ensures { result ≡ is_ruled self.now flag.now }
    {
        match &self.flags {
            Some(flags) => flags.contains(&flag),
            None => is_ruled(self.profiles, flag),
        }
    }

    /// What is known of the flag, by its bytes, of the package in each of the profiles.
    pub fn kind(&self, pkg: &Pkg, flag: &[u8]) -> FlagKind
        ensures { result ≡ flag_kind self.now pkg.now flag.now }
    {
        if !pkg.iuse.has(flag) {
            return FlagKind::Other;
        }
        if self.is_ruled(flag) {
            FlagKind::Listed
        } else {
            FlagKind::Plain
        }
    }
}

/// What is known of a flag in each of some profiles holds in one of them.
#[tactic(auto, using(crate::proofs::KindLaw::kind_in))]
pub fn kind_law()
    ensures { (profiles : List Profile) (profile : Profile) (p : Pkg) (flag : List ℕ) → IsOneOf profiles profile → IsKind profile p flag (flag_kind profiles p flag) }
{}

// Whether one of the rules names the flag.
fn is_named(rules: &Rules, flag: &[u8]) -> bool
    ensures { result ≡ list_any (names_flag flag.now) rules.now }
{
    !rules.places_of(flag).is_empty()
}

// Whether a rule of one of these profiles names the flag.
fn is_ruled(profiles: &[Profile], flag: &[u8]) -> bool
    ensures { result ≡ is_ruled profiles.now flag.now }
{
    for profile in profiles {
        if is_named(&profile.rules, flag) {
            return true;
        }
    }
    false
}

// Adds the flags that these rules name.
fn add_rules<'a>(flags: &mut IndexSet<&'a [u8]>, rules: &'a Rules) -> Result<(), NoMemory>
    ensures { OnOk result ((flag : List ℕ) → has_flag flags.new.keys flag ≡ (has_flag flags.old.keys flag || list_any (names_flag flag) rules.now)) }
{
    for rule in rules.items() {
        flags.insert(rule.flag.bytes())?;
    }
    Ok(())
}

// The flags that rules of these profiles name.
fn ruled_by<'a>(alloc: Global, profiles: &'a [Profile]) -> Result<IndexSet<&'a [u8]>, NoMemory>
    ensures { IfOk result (λ flags. AreRuled flags.keys profiles.now) }
{
    let mut flags = IndexSet::new(alloc);
    for profile in profiles {
        add_rules(&mut flags, &profile.rules)?;
    }
    Ok(flags)
}
