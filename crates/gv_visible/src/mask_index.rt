//! A profile's masks by category and name.
//!
//! `new` costs O(1) on average for each mask, besides its look-up in the list of masks; `visible` costs the
//! package's keywords and, where these accept it, a look-up by hash, O(bytes of category and name), and the masks of its
//! category and name; `shown` the same without the keywords. They take no memory.
ghost use Rattle.std.specs.Prelude.{◌≡◌, IfOk};
ghost use Rattle.gv_facts.specs.Places.{is_mask_of, places_of};
ghost use Rattle.gv_facts.specs.Visible.{accepts, is_masked, visible};
ghost use Rattle.gv_facts.specs.declared.kinds.Level.TheVariants.{Stable, Testing};
ghost use Rattle.gv_visible.specs.ByName.{HasPlaces};

use crate::visibility::some_matches;
use gv_base::NoMemory;
use gv_facts::{Level, Masks, Pkg, Profile, accepts};
use indexmap::IndexMap;
use std::alloc::Global;
use std::marker::Model;

/// At which levels a package is accepted, or shown.
#[derive(Clone, Copy)]
pub(crate) struct Shown {
    pub(crate) stable: bool,
    pub(crate) testing: bool,
}

/// A profile with the places of its masks of each category and name: made once for the profile, and lent to the tests of
/// every level.
#[derive(Drop)]
pub struct MaskIndex<'a> {
    profile: &'a Profile,
    places: IndexMap<(&'a [u8], &'a [u8]), &'a [u32]>,
}

impl<'a> Model for MaskIndex<'a> {
    ghost use Rattle.gv_facts.specs.Places.{is_mask_of};
    ghost use Rattle.gv_facts.specs.declared.profile.Profile.{Profile};
    ghost use Rattle.gv_visible.specs.ByName.{HasPlaces};

    ghost Value = { Profile };

    ghost view = { λ l. l.profile.now };

    ghost invariant = { λ l. HasPlaces is_mask_of l.places.entries l.profile.now.masks };
}

impl<'a> MaskIndex<'a> {
    /// An index of the profile's masks.
    pub fn new(alloc: Global, profile: &'a Profile) -> Result<MaskIndex<'a>, NoMemory>
        ensures { IfOk result (λ index. index ≡ profile.now) }
    {
        let places = by_name(alloc, &profile.masks)?;
        Ok(MaskIndex { profile, places })
    }

    /// The profile whose masks are indexed.
    pub fn profile(&self) -> &'a Profile
        ensures { result.now ≡ self.now }
    {
        self.profile
    }

    fn at(&self, category: &[u8], name: &[u8]) -> &[u32]
        ensures { result.now ≡ places_of (is_mask_of category.now name.now) self.now.masks }
    {
        match self.places.get(&(category, name)) {
            Some(places) => places,
            None => &[],
        }
    }

    fn is_masked(&self, pkg: &Pkg) -> bool
        ensures { result ≡ is_masked pkg.now self.now.masks }
    {
        let places = self.at(pkg.category.bytes(), pkg.name.bytes());
        some_matches(self.profile().masks.items(), places, pkg)
    }

    /// Whether the profile shows the package at this level: what `visible` of the package, the profile and the level says.
    pub fn visible(&self, pkg: &Pkg, level: Level) -> bool
        ensures { result ≡ visible pkg.now self.now level }
    {
        let arch = self.profile().arch.bytes();
        accepts(level, arch, &pkg.keywords) && !self.is_masked(pkg)
    }

    /// At which levels the profile shows the package, whose keywords accept it at these: what `visible` says at each.
    pub(crate) fn shown(&self, pkg: &Pkg, accepted: Shown) -> Shown
        requires stable { accepted.stable ≡ accepts Stable self.now.arch pkg.now.keywords }
        requires testing { accepted.testing ≡ accepts Testing self.now.arch pkg.now.keywords }
        ensures stable { result.stable ≡ visible pkg.now self.now Stable }
        ensures testing { result.testing ≡ visible pkg.now self.now Testing }
    {
        // What accepts at stable accepts at testing too.
        let testing = accepted.testing && !self.is_masked(pkg);
        Shown {
            stable: accepted.stable && testing,
            testing,
        }
    }
}

// The places of the masks of each category and name.
fn by_name<'a>(
    alloc: Global,
    masks: &'a Masks,
) -> Result<IndexMap<(&'a [u8], &'a [u8]), &'a [u32]>, NoMemory>
    ensures { IfOk result (λ places. HasPlaces is_mask_of places.entries masks.now) }
{
    let mut places = IndexMap::new(alloc);
    for mask in masks.items() {
        let category = mask.atom.category.bytes();
        let name = mask.atom.name.bytes();
        places.insert((category, name), masks.places_of(category, name))?;
    }
    Ok(places)
}
