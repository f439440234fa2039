//! The calls by which packages are compared with atoms and with keywords, for the crates that judge. Each is linear in the
//! bytes that it compares, and takes no memory.
ghost use Rattle.std.specs.Prelude.{◌≡◌, true};
ghost use Rattle.std.specs.Str.{bytes_eq};
ghost use Rattle.gv_base.specs.Order.{has_text};
ghost use Rattle.gv_facts.specs.Places.{is_pkg_of};
ghost use Rattle.gv_facts.specs.Visible.{accepts, matches_pkg, testing};

use crate::{Level, Pkg};
use gv_atom::{Atom, matches};
use gv_base::Texts;

/// Whether the atom asks for the package, but for its USE items.
pub fn matches_pkg(atom: &Atom, pkg: &Pkg) -> bool
    ensures { result ≡ matches_pkg atom.now pkg.now }
{
    matches(
        atom,
        &pkg.category,
        &pkg.name,
        &pkg.version,
        &pkg.slot,
        &pkg.sub,
    )
}

/// The same of a package that has the atom's category and name. Where any version and slot will do, nothing is looked at.
#[tactic(auto, using(crate::proofs::PlacesLemmas::named_matches))]
pub fn matches_named(atom: &Atom, pkg: &Pkg) -> bool
    requires { is_pkg_of atom.now.category atom.now.name pkg.now ≡ true }
    ensures { result ≡ matches_pkg atom.now pkg.now }
{
    gv_atom::matches_named(atom, &pkg.version, &pkg.slot, &pkg.sub)
}

/// Whether the keywords accept a package at this level: at stable where they have the arch, at testing where they have it,
/// or it with `~`.
pub fn accepts(level: Level, arch: &[u8], keywords: &Texts) -> bool
    ensures { result ≡ accepts level arch.now keywords.now }
{
    match level {
        Level::Stable => keywords.has(arch),
        Level::Testing => keywords.has(arch) || has_testing(keywords, arch),
    }
}

/// Whether the keyword is the arch with `~`.
pub fn is_testing(arch: &[u8], keyword: &[u8]) -> bool
    ensures { result ≡ bytes_eq (testing arch.now) keyword.now }
{
    match keyword {
        [b'~', rest @ ..] => arch == rest,
        _ => false,
    }
}

/// Whether one of the keywords is the arch with `~`.
pub fn has_testing(keywords: &Texts, arch: &[u8]) -> bool
    ensures { result ≡ has_text keywords.now (testing arch.now) }
{
    for keyword in keywords.items() {
        if is_testing(arch, keyword.bytes()) {
            return true;
        }
    }
    false
}
