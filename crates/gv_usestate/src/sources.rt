//! Whether a flag is effective: the four sources, one after another, without memory.
ghost use Rattle.std.specs.Prelude.{◌≡◌, ◌&&◌, false, ℕ, List, map};
ghost use Rattle.std.specs.Option.{option_map_or};
ghost use Rattle.std.specs.Str.{bytes_eq};
ghost use Rattle.gv_base.specs.Order.{has_text};
ghost use Rattle.gv_facts.specs.Effective.{is_effective, expand_flags, prefixed, unprefixed_flags, values_of};
ghost use Rattle.gv_usestate.specs.FlagSets.{implicit_flags};

use gv_base::Text;
use gv_facts::{Pkg, Profile, ValueLists};

/// Whether the flag is one of the package's effective flags.
pub fn is_effective(pkg: &Pkg, profile: &Profile, flag: &[u8]) -> bool
    ensures { result ≡ is_effective pkg.now profile.now flag.now }
{
    pkg.iuse.has(flag) || is_implicit(profile, flag)
}

/// Whether the flag is effective in the profile for a package that doesn't have it in IUSE.
pub(crate) fn is_implicit(profile: &Profile, flag: &[u8]) -> bool
    ensures { result ≡ has_text (implicit_flags profile.now) flag.now }
{
    profile.iuse_implicit.has(flag) || has_expanded(profile, flag) || has_unprefixed(profile, flag)
}

// Whether a variable of this name has the word among its values.
fn has_value(values: &ValueLists, name: &Text, word: &[u8]) -> bool
    ensures { result ≡ has_text (values_of values.now name.now) word.now }
{
    for list in values.items() {
        if list.name == *name && list.words.has(word) {
            return true;
        }
    }
    false
}

// What stands in the flag behind the name in small letters and `_`, if it begins so.
fn word_behind<'a>(name: &[u8], flag: &'a [u8]) -> Option<&'a [u8]>
    ensures { (word : List ℕ) → bytes_eq flag.now (prefixed name.now word) ≡ option_map_or (λ rest. bytes_eq rest.now word) result false }
{
    let mut rest = flag;
    for letter in name {
        match rest {
            [first, more @ ..] if *first == letter.to_ascii_lowercase() => rest = more,
            _ => return None,
        }
    }
    match rest {
        [b'_', word @ ..] => Some(word),
        _ => None,
    }
}

// Whether the flag is one of this name of USE_EXPAND, and the name is implicit.
fn is_expanded(profile: &Profile, name: &Text, flag: &[u8]) -> bool
    ensures { result ≡ (has_text profile.now.expand_implicit name.now && has_text (map (prefixed name.now) (values_of profile.now.values name.now)) flag.now) }
{
    match word_behind(name.bytes(), flag) {
        Some(word) => {
            profile.expand_implicit.has(name.bytes()) && has_value(&profile.values, name, word)
        }
        None => false,
    }
}

fn has_expanded(profile: &Profile, flag: &[u8]) -> bool
    ensures { result ≡ has_text (expand_flags profile.now) flag.now }
{
    for name in profile.expand.items() {
        if is_expanded(profile, name, flag) {
            return true;
        }
    }
    false
}

fn has_unprefixed(profile: &Profile, flag: &[u8]) -> bool
    ensures { result ≡ has_text (unprefixed_flags profile.now) flag.now }
{
    for name in profile.unprefixed.items() {
        if profile.expand_implicit.has(name.bytes()) && has_value(&profile.values, name, flag) {
            return true;
        }
    }
    false
}
