//! A package in a profile at a level, and which rules apply to it there. Whether stable restrictions apply is found where a
//! rule first rests on it, in O(the package's keywords), and once; so is whether an atom of the profile's rules names it, in a
//! look-up by hash.
ghost use Rattle.std.specs.Prelude.{◌≡◌};
ghost use Rattle.gv_facts.specs.States.{applies, is_restricted};
ghost use Rattle.gv_usestate.specs.NamedPkgs.{is_named};

use crate::named_pkgs::NamedPkgs;
use crate::restricted::is_restricted;
use gv_facts::{Level, Pkg, Profile, Rule, matches_pkg};
use std::marker::Model;

/// A package in a profile at a level: made for a list of flags, each of which is asked for its state.
#[derive(Drop)]
pub struct PkgInProfile<'a> {
    pkg: &'a Pkg,
    profile: &'a Profile,
    level: Level,
    // Whether stable restrictions apply, where that was asked.
    restricted: Option<bool>,
    // Whether an atom of the profile's rules names the package, where that was asked.
    named: Option<bool>,
}

impl<'a> Model for PkgInProfile<'a> {
    ghost use Rattle.std.specs.Prelude.{◌≡◌, IfSome};
    ghost use Rattle.gv_facts.specs.States.{is_restricted};
    ghost use Rattle.gv_usestate.specs.NamedPkgs.{is_named};
    ghost use Rattle.gv_usestate.specs.PkgInProfile.{PkgInProfile as Seen};

    ghost Value = { Seen };

    ghost view = { λ p. record { pkg = p.pkg.now; profile = p.profile.now; level = p.level } };

    ghost invariant = { λ p. (IfSome p.restricted (λ b. b ≡ is_restricted p.pkg.now p.profile.now p.level)) × (IfSome p.named (λ b. b ≡ is_named p.profile.now.rules p.pkg.now)) };
}

impl<'a> PkgInProfile<'a> {
    /// The package in the profile at this level.
    pub fn new(pkg: &'a Pkg, profile: &'a Profile, level: Level) -> PkgInProfile<'a>
        ensures { result ≡ record { pkg = pkg.now; profile = profile.now; level = level } }
    {
        PkgInProfile {
            pkg,
            profile,
            level,
            restricted: None,
            named: None,
        }
    }

    /// The profile.
    pub(crate) fn profile(&self) -> &'a Profile
        ensures { result.now ≡ self.now.profile }
    {
        self.profile
    }

    // Whether stable restrictions apply to the package.
    fn is_restricted(&mut self) -> bool
        ensures value { result ≡ is_restricted self.old.pkg self.old.profile self.old.level }
        ensures same { self.new ≡ self.old }
    {
        match self.restricted {
            Some(restricted) => restricted,
            None => {
                let restricted = is_restricted(self.pkg, self.profile, self.level);
                self.restricted = Some(restricted);
                restricted
            }
        }
    }

    /// Whether an atom of a rule of the profile has the package's category and name.
    pub(crate) fn is_named(&mut self, named: &NamedPkgs<'_>) -> bool
        requires { named.now ≡ self.old.profile.rules }
        ensures value { result ≡ is_named self.old.profile.rules self.old.pkg }
        ensures same { self.new ≡ self.old }
    {
        match self.named {
            Some(is_named) => is_named,
            None => {
                let is_named = named.has(self.pkg);
                self.named = Some(is_named);
                is_named
            }
        }
    }

    // Whether the rule applies to the package.
    pub(crate) fn applies(&mut self, rule: &Rule) -> bool
        ensures value { result ≡ applies self.old.pkg self.old.profile self.old.level rule.now }
        ensures same { self.new ≡ self.old }
    {
        if rule.stable && !self.is_restricted() {
            return false;
        }
        match &rule.atom {
            Some(atom) => matches_pkg(atom.atom(), self.pkg),
            None => true,
        }
    }
}
