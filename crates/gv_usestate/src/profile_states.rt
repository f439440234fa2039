//! A profile that is asked for states of flags. The rules that name a flag are found in the hash map that the list of rules keeps.
//! For many packages hash sets are made of the profile (`new`, at the costs of `ProfileSets::new`); for few of them it is asked as
//! it stands (`of`, O(1), without memory).
//!
//! `state` takes no memory. `of` a profile it costs what `state` of the package, the profile, the level and the flag does; by the
//! sets the same, with a look-up by hash in place of the profile's sources of effective flags, and one in place of comparisons of
//! names. `state_in` is told what is known of the flag: a plain one costs O(1), and another one, by the sets, one look-up where the
//! profile doesn't make it effective, two at most, and the rules for every package that name it, or all rules that name it where
//! an atom names the package; for all flags of a package it finds once whether an atom does, and whether stable restrictions
//! apply. Without sets it goes through the sources where the flag isn't in IUSE, and through all rules that name the flag.
ghost use Rattle.std.specs.Prelude.{◌≡◌, true, false, IfOk};
ghost use Rattle.gv_base.specs.Order.{has_text};
ghost use Rattle.gv_facts.specs.Effective.{is_effective};
ghost use Rattle.gv_facts.specs.States.{state};
ghost use Rattle.gv_usestate.specs.FlagSets.{implicit_flags};
ghost use Rattle.gv_usestate.specs.Kinds.{IsKind};

use crate::pkg_in_profile::PkgInProfile;
use crate::profile_sets::ProfileSets;
use crate::ruled::FlagKind;
use crate::sources::is_implicit;
use crate::states::effective_state;
use gv_base::NoMemory;
use gv_facts::{FlagState, Level, Pkg, Profile};
use std::alloc::Global;
use std::marker::Model;

/// A profile that is asked for the states of flags of packages at every level.
#[derive(Drop)]
pub struct ProfileStates<'a> {
    profile: &'a Profile,
    // What was made of it for many packages.
    sets: Option<ProfileSets<'a>>,
}

impl<'a> Model for ProfileStates<'a> {
    ghost use Rattle.std.specs.Prelude.{◌≡◌, IfSome};
    ghost use Rattle.gv_facts.specs.declared.profile.Profile.{Profile};

    ghost Value = { Profile };

    ghost view = { λ s. s.profile.now };

    ghost invariant = { λ s. IfSome s.sets (λ sets. sets ≡ s.profile.now) };
}

impl<'a> ProfileStates<'a> {
    /// The profile with sets that are made of it: for many packages.
    pub fn new(alloc: Global, profile: &'a Profile) -> Result<ProfileStates<'a>, NoMemory>
        ensures { IfOk result (λ states. states ≡ profile.now) }
    {
        let sets = ProfileSets::new(alloc, profile)?;
        Ok(ProfileStates {
            profile,
            sets: Some(sets),
        })
    }

    /// The profile as it stands: for few packages.
    pub fn of(profile: &'a Profile) -> ProfileStates<'a>
        ensures { result ≡ profile.now }
    {
        ProfileStates {
            profile,
            sets: None,
        }
    }

    /// The profile.
    pub fn profile(&self) -> &'a Profile
        ensures { result.now ≡ self.now }
    {
        self.profile
    }

    // Whether the flag is effective for a package that doesn't have it in IUSE.
    fn is_implicit(&self, flag: &[u8]) -> bool
        ensures { result ≡ has_text (implicit_flags self.now) flag.now }
    {
        match &self.sets {
            Some(sets) => sets.is_implicit(flag),
            None => is_implicit(self.profile, flag),
        }
    }

    fn is_effective(&self, pkg: &Pkg, flag: &[u8]) -> bool
        ensures { result ≡ is_effective pkg.now self.now flag.now }
    {
        pkg.iuse.has(flag) || self.is_implicit(flag)
    }

    /// The state of the flag, by its bytes: what `state_of` the package, the profile, the level and the flag says.
    pub fn state(&self, pkg: &Pkg, level: Level, flag: &[u8]) -> FlagState
        ensures { result ≡ state pkg.now self.now level flag.now }
    {
        if !self.is_effective(pkg, flag) {
            return FlagState::Absent;
        }
        let mut pkg = PkgInProfile::new(pkg, self.profile(), level);
        self.effective_state(&mut pkg, flag)
    }

    // The state of an effective flag.
    fn effective_state(&self, pkg: &mut PkgInProfile<'_>, flag: &[u8]) -> FlagState
        requires profile { pkg.old.profile ≡ self.now }
        requires effective { is_effective pkg.old.pkg self.now flag.now ≡ true }
        ensures value { result ≡ state pkg.old.pkg self.now pkg.old.level flag.now }
        ensures same { pkg.new ≡ pkg.old }
    {
        match &self.sets {
            Some(sets) => sets.effective_state(pkg, flag),
            None => effective_state(pkg, flag, self.profile.rules.places_of(flag)),
        }
    }

    // The state of a flag that the profile makes effective, or doesn't.
    fn implicit_state(&self, pkg: &mut PkgInProfile<'_>, flag: &[u8]) -> FlagState
        requires profile { pkg.old.profile ≡ self.now }
        requires other { has_text pkg.old.pkg.iuse flag.now ≡ false }
        ensures value { result ≡ state pkg.old.pkg self.now pkg.old.level flag.now }
        ensures same { pkg.new ≡ pkg.old }
    {
        if !self.is_implicit(flag) {
            return FlagState::Absent;
        }
        self.effective_state(pkg, flag)
    }

    /// The same of a flag of which is known how far its state rests on the profile, for a package in this profile.
    #[tactic(auto, using(crate::proofs::KindLaw::plain_free))]
    pub fn state_in(&self, pkg: &mut PkgInProfile<'_>, kind: FlagKind, flag: &[u8]) -> FlagState
        requires profile { pkg.old.profile ≡ self.now }
        requires kind { IsKind self.now pkg.old.pkg flag.now kind }
        ensures value { result ≡ state pkg.old.pkg self.now pkg.old.level flag.now }
        ensures same { pkg.new ≡ pkg.old }
    {
        match kind {
            FlagKind::Plain => FlagState::Free,
            FlagKind::Listed => self.effective_state(pkg, flag),
            FlagKind::Other => self.implicit_state(pkg, flag),
        }
    }
}
