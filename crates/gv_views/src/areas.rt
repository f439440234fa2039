//! Which part of a repository a path belongs to. Costs O(its bytes).
ghost use Rattle.std.specs.Prelude.{◌≡◌};
ghost use Rattle.std.specs.Str.{bytes_eq};
ghost use Rattle.gv_views.specs.Areas.{area_of, categories_path, eclasses_path, profiles_path, top_area};

use gv_base::until;

/// A part of a repository.
#[derive(Clone, Copy, PartialEq, Eq)]
pub(crate) enum Area {
    /// `profiles/categories`.
    Categories,
    /// Another path below `profiles`.
    InProfiles,
    /// A path below `eclass`.
    InEclasses,
    /// `profiles`.
    Profiles,
    /// `eclass`.
    Eclasses,
    /// All else.
    Other,
}

/// The part that the path belongs to.
pub(crate) fn area_of(path: &[u8]) -> Area
    ensures { result ≡ area_of path.now }
{
    if is_categories(path) {
        return Area::Categories;
    }
    let first = until(path, b'/');
    top_area(first, first.len() < path.len())
}

fn top_area(first: &[u8], more: bool) -> Area
    ensures { result ≡ top_area first.now more }
{
    if is_profiles(first) {
        if more {
            Area::InProfiles
        } else {
            Area::Profiles
        }
    } else if is_eclasses(first) {
        if more {
            Area::InEclasses
        } else {
            Area::Eclasses
        }
    } else {
        Area::Other
    }
}

#[tactic(auto, unfolding(crate::specs::Areas::categories_path))]
fn is_categories(path: &[u8]) -> bool
    ensures { result ≡ bytes_eq path.now categories_path }
{
    path == b"profiles/categories".as_slice()
}

#[tactic(auto, unfolding(crate::specs::Areas::profiles_path))]
fn is_profiles(path: &[u8]) -> bool
    ensures { result ≡ bytes_eq path.now profiles_path }
{
    path == b"profiles".as_slice()
}

#[tactic(auto, unfolding(crate::specs::Areas::eclasses_path))]
fn is_eclasses(path: &[u8]) -> bool
    ensures { result ≡ bytes_eq path.now eclasses_path }
{
    path == b"eclass".as_slice()
}
