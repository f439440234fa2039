//! What each profile shows of the packages and says of flags.
//!
//! A view of a profile that is asked about few packages costs O(1). Where many are, it costs the sets of its flags and a test of each package, whose
//! keywords are looked at once for each arch, and each of its answers O(1); else each answer is a test of the package that is asked about. What rules of the profiles name is put into a set in the
//! same case alone.
ghost use Rattle.std.specs.Prelude.{◌≡◌, map, Some, slice_get, IfOk, IfSome};
ghost use Rattle.gv_facts.specs.Visible.{judged};
ghost use Rattle.gv_visible.specs.Candidates.{level_of, pkgs_of, profile_of, test_of};
ghost use Rattle.gv_visible.specs.StoredTest.{AnswersVisible};
ghost use Rattle.gv_plain.specs.Seen.{seen};

use gv_base::NoMemory;
use gv_facts::{Level, Pkg, Pkgs, Profile};
use gv_usestate::{ProfileStates, RuledFlags};
use gv_visible::{AcceptedPkgs, Candidates, VisiblePkgs, judged};
use std::alloc::Global;
use std::marker::Model;

/// How many packages a view is asked about.
#[derive(Clone, Copy)]
pub(crate) enum Asked {
    Few,
    Many,
}

/// A profile with the states of flags in it and, where it is asked about many packages, what it shows of them.
#[derive(Drop)]
pub struct ProfileView<'a> {
    pkgs: &'a Pkgs,
    profile: &'a Profile,
    states: ProfileStates<'a>,
    shown: Option<VisiblePkgs<'a>>,
}

impl<'a> Model for ProfileView<'a> {
    ghost use Rattle.gv_plain.specs.Views.{HasParts};
    ghost use Rattle.gv_plain.specs.Seen.{seen};
    ghost use Rattle.gv_visible.specs.Candidates.{VisiblePkgs};

    ghost Value = { VisiblePkgs };

    ghost view = { λ v. seen v.pkgs.now v.profile.now };

    ghost invariant = { λ v. HasParts v.pkgs.now v.profile.now v.states v.shown };
}

impl<'a> ProfileView<'a> {
    fn new(
        alloc: Global,
        pkgs: &'a Pkgs,
        profile: &'a Profile,
        asked: Asked,
        accepted: &mut AcceptedPkgs<'a>,
    ) -> Result<ProfileView<'a>, NoMemory>
        requires { accepted.old ≡ pkgs.now }
        ensures view { IfOk result (λ view. view ≡ seen pkgs.now profile.now) }
        ensures same { accepted.new ≡ accepted.old }
    {
        let states = states(alloc, profile, asked)?;
        let shown = shown(accepted, profile, asked)?;
        Ok(ProfileView {
            pkgs,
            profile,
            states,
            shown,
        })
    }

    /// The packages as candidates in the profile at this level. The test answers `visible` there.
    pub fn candidates<F: Fn(&Pkg) -> bool>(
        &'a self,
        alloc: Global,
        level: Level,
        test: F,
    ) -> Result<Candidates<'a, F>, NoMemory>
        requires test { AnswersVisible (F.pre test) (F.post test) self.now.profile level }
        ensures pkgs { IfOk result (λ candidates. pkgs_of candidates ≡ self.now.pkgs) }
        ensures profile { IfOk result (λ candidates. profile_of candidates ≡ self.now.profile) }
        ensures level { IfOk result (λ candidates. level_of candidates ≡ level) }
        ensures test { IfOk result (λ candidates. AnswersVisible (F.pre (test_of candidates)) (F.post (test_of candidates)) (profile_of candidates) (level_of candidates)) }
    {
        match &self.shown {
            Some(shown) => Ok(Candidates::among(shown, level, test)),
            None => Candidates::new(alloc, self.pkgs, self.profile, level, test),
        }
    }

    /// The states of flags in it.
    pub fn states(&self) -> &ProfileStates<'a>
        ensures { result.now ≡ self.now.profile }
    {
        &self.states
    }

    /// The profile.
    pub fn profile(&self) -> &'a Profile
        ensures { result.now ≡ self.now.profile }
    {
        self.profile
    }

    /// The level at which the package, which has this number, is judged, if it is.
    pub fn judged(&self, number: u32, pkg: &Pkg) -> Option<Level>
        ensures { slice_get self.now.pkgs number ≡ Some pkg.now → result ≡ judged pkg.now self.now.profile }
    {
        match &self.shown {
            Some(shown) => shown.judged(number),
            None => judged(pkg, self.profile),
        }
    }
}

// The states of flags in the profile, by sets that are made of it where it is asked about many packages.
fn states<'a>(
    alloc: Global,
    profile: &'a Profile,
    asked: Asked,
) -> Result<ProfileStates<'a>, NoMemory>
    ensures { IfOk result (λ states. states ≡ profile.now) }
{
    match asked {
        Asked::Few => Ok(ProfileStates::of(profile)),
        Asked::Many => ProfileStates::new(alloc, profile),
    }
}

// What the profile shows, where it is asked about many packages.
fn shown<'a>(
    accepted: &mut AcceptedPkgs<'a>,
    profile: &'a Profile,
    asked: Asked,
) -> Result<Option<VisiblePkgs<'a>>, NoMemory>
    ensures shown { IfOk result (λ shown. IfSome shown (λ views. views ≡ seen accepted.old profile.now)) }
    ensures same { accepted.new ≡ accepted.old }
{
    match asked {
        Asked::Few => Ok(None),
        Asked::Many => Ok(Some(accepted.shown(profile)?)),
    }
}

/// What rules of the profiles name, by a set of it where many packages are asked about.
pub(crate) fn ruled<'a>(
    alloc: Global,
    profiles: &'a [Profile],
    asked: Asked,
) -> Result<RuledFlags<'a>, NoMemory>
    ensures { IfOk result (λ ruled. ruled ≡ profiles.now) }
{
    match asked {
        Asked::Few => Ok(RuledFlags::of(profiles)),
        Asked::Many => RuledFlags::new(alloc, profiles),
    }
}

/// The view of each profile.
pub(crate) fn all_views<'a>(
    alloc: Global,
    pkgs: &'a Pkgs,
    profiles: &'a [Profile],
    asked: Asked,
) -> Result<Vec<ProfileView<'a>>, NoMemory>
    ensures { IfOk result (λ views. views.items ≡ map (seen pkgs.now) profiles.now) }
{
    let mut accepted = AcceptedPkgs::new(alloc, pkgs);
    let mut views = Vec::with_capacity(alloc, profiles.len())?;
    for profile in profiles {
        let view = ProfileView::new(alloc, pkgs, profile, asked, &mut accepted)?;
        views.push(view)?;
    }
    Ok(views)
}
