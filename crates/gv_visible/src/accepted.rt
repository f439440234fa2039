//! What keywords accept of packages, asked once for each arch.
//!
//! `shown` costs an index of the profile's masks, a look at each arch that was asked about and, for each package that is
//! accepted, a look-up of its masks by hash; for an arch that wasn't, a test of each package's keywords besides. It keeps two
//! bits for each package and arch.
ghost use Rattle.std.specs.Prelude.{◌≡◌, true, slice_get, IfOk, IfSome};
ghost use Rattle.gv_facts.specs.Visible.{accepts};
ghost use Rattle.gv_facts.specs.declared.kinds.Level.TheVariants.{Stable, Testing};
ghost use Rattle.gv_visible.specs.Accepted.{IsAccepted};

use crate::bit_list::BitList;
use crate::mask_index::Shown;
use crate::visible_pkgs::VisiblePkgs;
use gv_base::NoMemory;
use gv_facts::{Level, Pkg, Pkgs, Profile, accepts};
use std::alloc::Global;
use std::marker::Model;

/// Of each package whether its keywords accept it in this profile, at each level.
#[derive(Drop)]
pub(crate) struct ArchBits<'a> {
    pub(crate) profile: &'a Profile,
    pub(crate) stable: BitList,
    pub(crate) testing: BitList,
}

/// Packages, with what their keywords say of the arches that were asked about.
#[derive(Drop)]
pub struct AcceptedPkgs<'a> {
    alloc: Global,
    pkgs: &'a Pkgs,
    arches: Vec<ArchBits<'a>>,
}

impl<'a> Model for AcceptedPkgs<'a> {
    ghost use Rattle.std.specs.Prelude.{List};
    ghost use Rattle.std.specs.List.{AllByRecursion};
    ghost use Rattle.gv_facts.specs.declared.pkg.Pkg.{Pkg};
    ghost use Rattle.gv_visible.specs.Accepted.{IsAccepted};

    ghost Value = { List Pkg };

    ghost view = { λ a. a.pkgs.now };

    ghost invariant = { λ a. AllByRecursion (IsAccepted a.pkgs.now) a.arches.items };
}

impl<'a> AcceptedPkgs<'a> {
    /// The packages. Takes no memory.
    pub fn new(alloc: Global, pkgs: &'a Pkgs) -> AcceptedPkgs<'a>
        ensures { result ≡ pkgs.now }
    {
        AcceptedPkgs {
            alloc,
            pkgs,
            arches: Vec::new(alloc),
        }
    }

    /// What the profile shows of the packages.
    pub fn shown(&mut self, profile: &'a Profile) -> Result<VisiblePkgs<'a>, NoMemory>
        ensures shown { IfOk result (λ shown. shown ≡ record { pkgs = self.old; profile = profile.now }) }
        ensures same { self.new ≡ self.old }
    {
        for bits in &self.arches {
            if is_of(bits, profile) {
                return VisiblePkgs::by(self.alloc, self.pkgs, profile, bits);
            }
        }
        let bits = accepted(self.alloc, self.pkgs.items(), profile)?;
        let shown = VisiblePkgs::by(self.alloc, self.pkgs, profile, &bits)?;
        self.arches.push(bits)?;
        Ok(shown)
    }
}

fn is_of(bits: &ArchBits<'_>, profile: &Profile) -> bool
    ensures { result ≡ true → bits.now.profile.now.arch ≡ profile.now.arch }
{
    bits.profile.arch.bytes() == profile.arch.bytes()
}

// What keywords accept in the profile.
fn accepted<'a>(alloc: Global, pkgs: &[Pkg], profile: &'a Profile) -> Result<ArchBits<'a>, NoMemory>
    ensures bits { IfOk result (IsAccepted pkgs.now) }
    ensures profile { IfOk result (λ bits. bits.profile.now ≡ profile.now) }
{
    let arch = profile.arch.bytes();
    let mut stable = BitList::with_capacity(alloc, pkgs.len())?;
    let mut testing = BitList::with_capacity(alloc, pkgs.len())?;
    for pkg in pkgs {
        stable.push(accepts(Level::Stable, arch, &pkg.keywords))?;
        testing.push(accepts(Level::Testing, arch, &pkg.keywords))?;
    }
    Ok(ArchBits {
        profile,
        stable,
        testing,
    })
}

/// At which levels keywords accept the package at this place.
pub(crate) fn accepted_at(bits: &ArchBits<'_>, place: usize, pkg: &Pkg) -> Shown
    requires stable { IfSome (slice_get bits.now.stable place) (λ b. b ≡ accepts Stable bits.now.profile.now.arch pkg.now.keywords) }
    requires testing { IfSome (slice_get bits.now.testing place) (λ b. b ≡ accepts Testing bits.now.profile.now.arch pkg.now.keywords) }
    ensures stable { result.stable ≡ accepts Stable bits.now.profile.now.arch pkg.now.keywords }
    ensures testing { result.testing ≡ accepts Testing bits.now.profile.now.arch pkg.now.keywords }
{
    Shown {
        stable: bit_or_test(bits, &bits.stable, place, Level::Stable, pkg),
        testing: bit_or_test(bits, &bits.testing, place, Level::Testing, pkg),
    }
}

// The bit at the place, or where there is none what it would be.
fn bit_or_test(bits: &ArchBits<'_>, kept: &BitList, place: usize, level: Level, pkg: &Pkg) -> bool
    requires { IfSome (slice_get kept.now place) (λ b. b ≡ accepts level bits.now.profile.now.arch pkg.now.keywords) }
    ensures { result ≡ accepts level bits.now.profile.now.arch pkg.now.keywords }
{
    match kept.get(place) {
        Some(bit) => bit,
        None => accepts(level, bits.profile.arch.bytes(), &pkg.keywords),
    }
}
