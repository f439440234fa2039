//! The packages that a profile shows, asked of all of them at once.
//!
//! `AcceptedPkgs` makes them, with a bit for each level and package; the other calls cost O(1) and take no memory.
ghost use Rattle.std.specs.Prelude.{◌≡◌, ◌&&◌, Some, not, slice_get, IfOk};
ghost use Rattle.gv_facts.specs.Visible.{judged, visible};
ghost use Rattle.gv_facts.specs.declared.kinds.Level.TheVariants.{Stable};
ghost use Rattle.gv_facts.specs.declared.pkg.Pkg.{Pkg};
ghost use Rattle.gv_visible.specs.Accepted.{IsAccepted};
ghost use Rattle.gv_visible.specs.Tested.{AreAllKept};
ghost use Rattle.gv_visible.specs.VisiblePkgs.{are_visible};

use crate::accepted::{ArchBits, accepted_at};
use crate::bit_list::BitList;
use crate::mask_index::MaskIndex;
use gv_base::NoMemory;
use gv_facts::{Level, Pkg, Pkgs, Profile};
use std::alloc::Global;
use std::marker::Model;

/// Packages and a profile, with what the profile shows at each level: made once for the profile, and lent to the candidates of
/// each level.
#[derive(Drop)]
pub struct VisiblePkgs<'a> {
    pkgs: &'a Pkgs,
    profile: &'a Profile,
    stable: BitList,
    testing: BitList,
}

impl<'a> Model for VisiblePkgs<'a> {
    ghost use Rattle.gv_visible.specs.Tested.{AreAllKept};
    ghost use Rattle.gv_visible.specs.Candidates.{VisiblePkgs};

    ghost Value = { VisiblePkgs };

    ghost view = { λ v. record { pkgs = v.pkgs.now; profile = v.profile.now } };

    ghost invariant = { λ v. AreAllKept v.stable v.testing v.profile.now v.pkgs.now };
}

impl<'a> VisiblePkgs<'a> {
    /// What the profile shows of the packages, by what keywords accept for its arch.
    pub(crate) fn by(
        alloc: Global,
        pkgs: &'a Pkgs,
        profile: &'a Profile,
        accepted: &ArchBits<'_>,
    ) -> Result<VisiblePkgs<'a>, NoMemory>
        requires accepted { IsAccepted pkgs.now accepted.now }
        requires arch { accepted.now.profile.now.arch ≡ profile.now.arch }
        ensures { IfOk result (λ shown. shown ≡ record { pkgs = pkgs.now; profile = profile.now }) }
    {
        let masks = MaskIndex::new(alloc, profile)?;
        let (stable, testing) = shown(alloc, pkgs.items(), &masks, accepted)?;
        Ok(VisiblePkgs {
            pkgs,
            profile,
            stable,
            testing,
        })
    }

    /// The packages.
    pub fn pkgs(&self) -> &'a Pkgs
        ensures { result.now ≡ self.now.pkgs }
    {
        self.pkgs
    }

    /// The profile by which it was asked what is visible, at both levels.
    pub fn profile(&self) -> &'a Profile
        ensures { result.now ≡ self.now.profile }
    {
        self.profile
    }

    /// Of each package whether it is visible at the level.
    pub fn at(&self, level: Level) -> &BitList
        ensures { result.now ≡ are_visible self.now.profile level self.now.pkgs }
    {
        match level {
            Level::Stable => &self.stable,
            Level::Testing => &self.testing,
        }
    }

    fn is_visible(&self, number: u32, level: Level) -> bool
        ensures { (pkg : Pkg) → slice_get self.now.pkgs number ≡ Some pkg → result ≡ visible pkg self.now.profile level }
    {
        match self.at(level).get(number as usize) {
            Some(shown) => shown,
            None => false,
        }
    }

    // Whether it is judged at stable.
    fn is_for_stable(&self, number: u32) -> bool
        ensures { (pkg : Pkg) → slice_get self.now.pkgs number ≡ Some pkg → result ≡ not self.now.profile.testing && visible pkg self.now.profile Stable }
    {
        !self.profile.testing && self.is_visible(number, Level::Stable)
    }

    /// The level at which the package with this number is judged, if it is.
    #[tactic(auto, using(crate::proofs::Levels::stable_first, crate::proofs::Levels::testing_next, crate::proofs::Levels::neither))]
    pub fn judged(&self, number: u32) -> Option<Level>
        ensures { (pkg : Pkg) → slice_get self.now.pkgs number ≡ Some pkg → result ≡ judged pkg self.now.profile }
    {
        if self.is_for_stable(number) {
            return Some(Level::Stable);
        }
        if self.is_visible(number, Level::Testing) {
            return Some(Level::Testing);
        }
        None
    }
}

// Of each package whether it is visible at stable, and of each whether at testing.
fn shown(
    alloc: Global,
    pkgs: &[Pkg],
    masks: &MaskIndex<'_>,
    accepted: &ArchBits<'_>,
) -> Result<(BitList, BitList), NoMemory>
    requires accepted { IsAccepted pkgs.now accepted.now }
    requires arch { accepted.now.profile.now.arch ≡ masks.now.arch }
    ensures { IfOk result (λ shown. AreAllKept shown.0 shown.1 masks.now pkgs.now) }
{
    let mut stable = BitList::with_capacity(alloc, pkgs.len())?;
    let mut testing = BitList::with_capacity(alloc, pkgs.len())?;
    for (i, pkg) in pkgs.iter().enumerate() {
        let shown = masks.shown(pkg, accepted_at(accepted, i, pkg));
        stable.push(shown.stable)?;
        testing.push(shown.testing)?;
    }
    Ok((stable, testing))
}
