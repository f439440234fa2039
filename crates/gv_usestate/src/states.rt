//! The state of a flag (PMS chapter 5).
ghost use Rattle.std.specs.Prelude.{◌≡◌, true, false, filter, fold, if◌then◌else◌};
ghost use Rattle.gv_facts.specs.Effective.{is_effective};
ghost use Rattle.gv_facts.specs.States.{has_effect, is_restricted, is_same, state};
ghost use Rattle.gv_facts.specs.declared.rules.Effect.TheVariants.{Force, Mask};
ghost use Rattle.gv_facts.specs.declared.kinds.FlagState.TheVariants.{Free, Off, On};
ghost use Rattle.gv_usestate.specs.FlagPlaces.{AreRulesOf};
ghost use Rattle.gv_usestate.specs.NamedPkgs.{is_general, is_named};
ghost use Rattle.gv_usestate.specs.RulesInTurn.{behind_at};

use crate::pkg_in_profile::PkgInProfile;
use crate::sources::is_effective;
use gv_base::Text;
use gv_facts::{Effect, FlagState, Level, Pkg, Profile, Rule, Rules};

// Whether the flag is masked and whether it is forced.
#[derive(Clone, Copy)]
struct Effects {
    mask: bool,
    force: bool,
}

/// The state of an effective flag, by the places of the rules that name it.
pub(crate) fn effective_state(pkg: &mut PkgInProfile<'_>, flag: &[u8], places: &[u32]) -> FlagState
    requires effective { is_effective pkg.old.pkg pkg.old.profile flag.now ≡ true }
    requires places { AreRulesOf pkg.old.profile.rules flag.now places.now }
    ensures value { result ≡ state pkg.old.pkg pkg.old.profile pkg.old.level flag.now }
    ensures same { pkg.new ≡ pkg.old }
{
    state_by(flag_effects(pkg, flag, places))
}

/// The same of a package that no atom of the rules names, by the rules for every package.
pub(crate) fn general_state(pkg: &mut PkgInProfile<'_>, flag: &[u8], general: &Rules) -> FlagState
    requires effective { is_effective pkg.old.pkg pkg.old.profile flag.now ≡ true }
    requires general { general.now ≡ filter is_general pkg.old.profile.rules }
    requires other { is_named pkg.old.profile.rules pkg.old.pkg ≡ false }
    ensures value { result ≡ state pkg.old.pkg pkg.old.profile pkg.old.level flag.now }
    ensures same { pkg.new ≡ pkg.old }
{
    state_by(general_effects(pkg, flag, general))
}

/// The state of the flag for the package in the profile, at this level: absent where it isn't effective, else masked,
/// else forced, else free. Of the rules for one effect that apply to the package and name the flag the last decides.
pub fn state(pkg: &Pkg, profile: &Profile, level: Level, flag: &Text) -> FlagState
    ensures { result ≡ state pkg.now profile.now level flag.now }
{
    state_of(pkg, profile, level, flag.bytes())
}

/// The same of a flag by its bytes.
pub fn state_of(pkg: &Pkg, profile: &Profile, level: Level, flag: &[u8]) -> FlagState
    ensures { result ≡ state pkg.now profile.now level flag.now }
{
    if !is_effective(pkg, profile, flag) {
        return FlagState::Absent;
    }
    let places = profile.rules.places_of(flag);
    let mut pkg = PkgInProfile::new(pkg, profile, level);
    effective_state(&mut pkg, flag, places)
}

// The state of an effective flag.
fn state_by(effects: Effects) -> FlagState
    ensures { result ≡ (if effects.mask then Off else if effects.force then On else Free) }
{
    if effects.mask {
        FlagState::Off
    } else if effects.force {
        FlagState::On
    } else {
        FlagState::Free
    }
}

// The effects, with that of a rule that applies.
fn with_rule(effects: Effects, rule: &Rule) -> Effects
    ensures mask { result.mask ≡ (if is_same Mask rule.now.effect then rule.now.on else effects.mask) }
    ensures force { result.force ≡ (if is_same Force rule.now.effect then rule.now.on else effects.force) }
{
    match rule.effect {
        Effect::Mask => Effects {
            mask: rule.on,
            force: effects.force,
        },
        Effect::Force => Effects {
            mask: effects.mask,
            force: rule.on,
        },
    }
}

// What is on behind the rule at this place.
fn behind(effects: Effects, rules: &[Rule], place: u32, pkg: &mut PkgInProfile<'_>) -> Effects
    ensures mask { result.mask ≡ behind_at Mask pkg.old.pkg (is_restricted pkg.old.pkg pkg.old.profile pkg.old.level) rules.now effects.mask place }
    ensures force { result.force ≡ behind_at Force pkg.old.pkg (is_restricted pkg.old.pkg pkg.old.profile pkg.old.level) rules.now effects.force place }
    ensures same { pkg.new ≡ pkg.old }
{
    match rules.get(place as usize) {
        Some(rule) => {
            if pkg.applies(rule) {
                with_rule(effects, rule)
            } else {
                effects
            }
        }
        None => effects,
    }
}

// What is on behind the rules at these places.
fn effects_at(rules: &[Rule], places: &[u32], pkg: &mut PkgInProfile<'_>) -> Effects
    ensures mask { result.mask ≡ fold (behind_at Mask pkg.old.pkg (is_restricted pkg.old.pkg pkg.old.profile pkg.old.level) rules.now) false places.now }
    ensures force { result.force ≡ fold (behind_at Force pkg.old.pkg (is_restricted pkg.old.pkg pkg.old.profile pkg.old.level) rules.now) false places.now }
    ensures same { pkg.new ≡ pkg.old }
{
    let mut effects = Effects {
        mask: false,
        force: false,
    };
    for place in places {
        effects = behind(effects, rules, *place, pkg);
    }
    effects
}

// What is on behind the rules that name the flag.
fn flag_effects(pkg: &mut PkgInProfile<'_>, flag: &[u8], places: &[u32]) -> Effects
    requires { AreRulesOf pkg.old.profile.rules flag.now places.now }
    ensures mask { result.mask ≡ has_effect Mask pkg.old.pkg pkg.old.profile pkg.old.level flag.now }
    ensures force { result.force ≡ has_effect Force pkg.old.pkg pkg.old.profile pkg.old.level flag.now }
    ensures same { pkg.new ≡ pkg.old }
{
    let rules = pkg.profile().rules.items();
    effects_at(rules, places, pkg)
}

// The same by the rules for every package.
fn general_effects(pkg: &mut PkgInProfile<'_>, flag: &[u8], general: &Rules) -> Effects
    requires general { general.now ≡ filter is_general pkg.old.profile.rules }
    requires other { is_named pkg.old.profile.rules pkg.old.pkg ≡ false }
    ensures mask { result.mask ≡ has_effect Mask pkg.old.pkg pkg.old.profile pkg.old.level flag.now }
    ensures force { result.force ≡ has_effect Force pkg.old.pkg pkg.old.profile pkg.old.level flag.now }
    ensures same { pkg.new ≡ pkg.old }
{
    effects_at(general.items(), general.places_of(flag), pkg)
}
