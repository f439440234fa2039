//! Whether a package is accepted by its keywords, and masked.
ghost use Rattle.std.specs.Prelude.{◌≡◌};
ghost use Rattle.std.specs.List.{list_any};
ghost use Rattle.gv_facts.specs.Visible.{is_masked, judged, visible};
ghost use Rattle.gv_visible.specs.MaskIndex.{matches_at};

use gv_facts::{Level, Mask, Masks, Pkg, Profile, accepts, matches_pkg};

/// Whether the package is accepted at this level and no mask matches it: at stable its keywords have the profile's arch,
/// at testing that or the arch with `~`.
pub fn visible(pkg: &Pkg, profile: &Profile, level: Level) -> bool
    ensures { result ≡ visible pkg.now profile.now level }
{
    accepts(level, profile.arch.bytes(), &pkg.keywords) && !is_masked(pkg, &profile.masks)
}

/// The level at which the profile judges the package: stable where its keywords have the arch, else testing where they
/// have the arch with `~`. A profile that accepts its arch with `~` judges both at testing. A masked package isn't judged.
pub fn judged(pkg: &Pkg, profile: &Profile) -> Option<Level>
    ensures { result ≡ judged pkg.now profile.now }
{
    if is_masked(pkg, &profile.masks) {
        None
    } else if !profile.testing && accepts(Level::Stable, profile.arch.bytes(), &pkg.keywords) {
        Some(Level::Stable)
    } else if accepts(Level::Testing, profile.arch.bytes(), &pkg.keywords) {
        Some(Level::Testing)
    } else {
        None
    }
}

pub(crate) fn some_matches(masks: &[Mask], places: &[u32], pkg: &Pkg) -> bool
    ensures { result ≡ list_any (matches_at pkg.now masks.now) places.now }
{
    for place in places {
        if matches_at(masks, *place, pkg) {
            return true;
        }
    }
    false
}

// Whether the mask at this place matches.
fn matches_at(masks: &[Mask], place: u32, pkg: &Pkg) -> bool
    ensures { result ≡ matches_at pkg.now masks.now place }
{
    match masks.get(place as usize) {
        Some(mask) => matches_pkg(&mask.atom, pkg),
        None => false,
    }
}

// A mask that matches has the package's category and name, so no other is looked at.
fn is_masked(pkg: &Pkg, masks: &Masks) -> bool
    ensures { result ≡ is_masked pkg.now masks.now }
{
    let places = masks.places_of(pkg.category.bytes(), pkg.name.bytes());
    some_matches(masks.items(), places, pkg)
}
