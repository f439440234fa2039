//! The default of a flag of a package in a profile.
//!
//! Costs what `gv_usestate` says of a state, what `flag_values` says, and O(log n) comparisons for USE and IUSE of n words.
//! Without memory.
ghost use Rattle.std.specs.Prelude.{◌≡◌};
ghost use Rattle.gv_usedefaults.specs.Defaults.{default_of, free_default, is_usual};

use crate::UseDefaults;
use crate::flag_values::{last_word, values_say};
use gv_base::Text;
use gv_facts::{FlagState, Level, Pkg, Profile};
use gv_usestate::state;

/// Whether the flag is on by default (PMS chapters 5 and 7), where these are the defaults of the profile: on where it is
/// forced; off where it is masked or isn't the package's. Else the first that says something decides: the last word that
/// names it in a `package.use` line whose atom matches the package; the values of the USE_EXPAND variables whose flag it is;
/// USE, where it is in it; and IUSE, where it is written with `+` there and no `-` of a profile's USE took it away.
pub fn default_on(
    pkg: &Pkg,
    profile: &Profile,
    level: Level,
    defaults: &UseDefaults,
    flag: &Text,
) -> bool
    ensures { result ≡ default_of pkg.now profile.now level defaults.now flag.now }
{
    match state(pkg, profile, level, flag) {
        FlagState::On => true,
        FlagState::Off | FlagState::Absent => false,
        FlagState::Free => free_default(pkg, defaults, flag),
    }
}

fn free_default(pkg: &Pkg, defaults: &UseDefaults, flag: &Text) -> bool
    ensures { result ≡ free_default pkg.now defaults.now flag.now }
{
    if let Some(on) = last_word(pkg, &defaults.rules, flag) {
        return on;
    }
    if let Some(on) = values_say(&defaults.expand, flag) {
        return on;
    }
    is_usual(pkg, defaults, flag)
}

fn is_usual(pkg: &Pkg, defaults: &UseDefaults, flag: &Text) -> bool
    ensures { result ≡ is_usual pkg.now defaults.now flag.now }
{
    defaults.on.has(flag) || (defaults.kept.has(flag) && pkg.iuse_plus.has(flag.bytes()))
}
