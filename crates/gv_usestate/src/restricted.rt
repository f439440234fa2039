//! Where stable restrictions apply (PMS chapter 5): where the package is accepted, and wouldn't be if its stable keywords
//! were written with `~`. Below, keywords that were written so are demoted; no list of them is made.
ghost use Rattle.std.specs.Prelude.{◌≡◌, map};
ghost use Rattle.std.specs.Str.{bytes_eq};
ghost use Rattle.gv_base.specs.Order.{has_text};
ghost use Rattle.gv_facts.specs.States.{as_testing, is_restricted};
ghost use Rattle.gv_facts.specs.Visible.{accepts, testing};

use gv_base::Texts;
use gv_facts::{Level, Pkg, Profile, accepts, is_testing};

/// Whether stable restrictions apply to the package at this level.
pub fn is_restricted(pkg: &Pkg, profile: &Profile, level: Level) -> bool
    ensures { result ≡ is_restricted pkg.now profile.now level }
{
    let arch = profile.arch.bytes();
    accepts(level, arch, &pkg.keywords) && !accepts_demoted(level, arch, &pkg.keywords)
}

// Whether the demoted keywords accept a package.
fn accepts_demoted(level: Level, arch: &[u8], keywords: &Texts) -> bool
    ensures { result ≡ accepts level arch.now (map as_testing keywords.now) }
{
    match level {
        Level::Stable => has_arch_demoted(keywords, arch),
        Level::Testing => has_arch_demoted(keywords, arch) || has_testing_demoted(keywords, arch),
    }
}

// Whether the demoted keywords have the arch.
fn has_arch_demoted(keywords: &Texts, arch: &[u8]) -> bool
    ensures { result ≡ has_text (map as_testing keywords.now) arch.now }
{
    for keyword in keywords.items() {
        if is_arch_demoted(arch, keyword.bytes()) {
            return true;
        }
    }
    false
}

// Whether the demoted keywords have the arch with `~`.
fn has_testing_demoted(keywords: &Texts, arch: &[u8]) -> bool
    ensures { result ≡ has_text (map as_testing keywords.now) (testing arch.now) }
{
    for keyword in keywords.items() {
        if is_testing_demoted(arch, keyword.bytes()) {
            return true;
        }
    }
    false
}

// Whether the demoted keyword is the arch.
fn is_arch_demoted(arch: &[u8], keyword: &[u8]) -> bool
    ensures { result ≡ bytes_eq arch.now (as_testing keyword.now) }
{
    match keyword {
        [b'~' | b'-', ..] => arch == keyword,
        _ => is_testing(keyword, arch),
    }
}

// Whether the demoted keyword is the arch with `~`.
fn is_testing_demoted(arch: &[u8], keyword: &[u8]) -> bool
    ensures { result ≡ bytes_eq (testing arch.now) (as_testing keyword.now) }
{
    match keyword {
        [b'~' | b'-', ..] => is_testing(arch, keyword),
        _ => arch == keyword,
    }
}
