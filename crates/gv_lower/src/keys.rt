//! Keys of queries: what tells whether two contexts of a package have one and the same query, without its gates.
//!
//! A key costs O(1) for each mention of a flag that is plain in all profiles, for any other its state, for each package that
//! an atom matches what the candidates' `is_visible` costs, and where that is visible the same for the flags that the atom's
//! items name. It takes no memory but that of the bytes that are added.
ghost use Rattle.std.specs.Prelude.{◌≡◌, ◌++◌, ◌∷◌, List, flat_map, OnErr, OnOk};
ghost use Rattle.std.specs.List.{AllByRecursion};
ghost use Rattle.gv_entry.specs.Allowed.{Parent};
ghost use Rattle.gv_expr.specs.Dep.{Dep};
ghost use Rattle.gv_expr.specs.Required.{Req};
ghost use Rattle.gv_facts.specs.States.{state};
ghost use Rattle.gv_lower.specs.Around.{alone, parent_of};
ghost use Rattle.gv_lower.specs.Keys.{HaveSameAllowed, HaveSameFailing, class_key, other_key, own_key, query_key, required_key};
ghost use Rattle.gv_lower.specs.KeysAround.{AreKnown, Begins, IsKnownAt, other_keys, own_keys, place_key, site_key};
ghost use Rattle.gv_usestate.specs.Kinds.{IsOneOf};
ghost use Rattle.gv_visible.specs.Candidates.{level_of, pkgs_of, profile_of, test_of};
ghost use Rattle.gv_visible.specs.StoredTest.{AnswersVisible};

use crate::known::KnownFlag;
use crate::sites::{AtomSite, ClassSites, PlaceSite, RequiredFlags};
use gv_base::NoMemory;
use gv_facts::{FlagState, Level, Pkg};
use gv_usestate::{PkgInProfile, ProfileStates, kind_law};
use gv_visible::Candidates;

/// Two parents of the same EAPI that prefer the same flags on have one and the same query about REQUIRED_USE where the keys of
/// REQUIRED_USE are equal, and about a class where those of the whole query are.
pub fn key_law()
    ensures allowed { (c d : Parent) (required : List Req) → c.pkg.eapi ≡ d.pkg.eapi → c.pkg.iuse_plus ≡ d.pkg.iuse_plus → required_key c required ≡ required_key d required → HaveSameAllowed c d required }
    ensures failing { (c d : Parent) (required : List Req) (class : List Dep) → c.pkg.eapi ≡ d.pkg.eapi → c.pkg.iuse_plus ≡ d.pkg.iuse_plus → query_key c required class ≡ query_key d required class → HaveSameFailing c d required class }
{}

/// Adds the key of the package's REQUIRED_USE in the profile, which is one of those of the flags, at this level. After an error the key is
/// as before.
pub fn add_required_key(
    flags: &RequiredFlags<'_>,
    states: &ProfileStates<'_>,
    level: Level,
    key: &mut Vec<u8>,
) -> Result<(), NoMemory>
    requires { IsOneOf flags.now.profiles states.now }
    ensures ok { OnOk result (key.new.items ≡ key.old.items ++ required_key (alone flags.now.of states.now level) flags.now.required) }
    ensures err { OnErr result (key.new.items ≡ key.old.items) }
{
    kind_law();
    add_own(flags.flags(), flags.pkg(), states, level, key)
}

/// Adds the key of a class of the package among the candidates, whose profile is one of those of the sites. Behind that of its
/// REQUIRED_USE it makes that of the query. After an error the key is as before.
pub fn add_class_key<F: Fn(&Pkg) -> bool>(
    sites: &ClassSites<'_>,
    candidates: &Candidates<'_, F>,
    states: &ProfileStates<'_>,
    key: &mut Vec<u8>,
) -> Result<(), NoMemory>
    requires test { AnswersVisible (F.pre (test_of candidates.now)) (F.post (test_of candidates.now)) (profile_of candidates.now) (level_of candidates.now) }
    requires pkgs { sites.now.pkgs ≡ pkgs_of candidates.now }
    requires profile { states.now ≡ profile_of candidates.now }
    requires one { IsOneOf sites.now.profiles states.now }
    ensures ok { OnOk result (key.new.items ≡ key.old.items ++ class_key (parent_of candidates.now sites.now.of) sites.now.class) }
    ensures err { OnErr result (key.new.items ≡ key.old.items) }
{
    kind_law();
    let before = key.len();
    add_own(sites.flags(), sites.pkg(), states, candidates.level(), key)?;
    match add_atoms(sites.atoms(), candidates, states, key) {
        Ok(()) => Ok(()),
        Err(fault) => {
            key.truncate(before);
            Err(fault)
        }
    }
}

fn own_key(state: FlagState) -> u8
    ensures { result ≡ own_key state }
{
    match state {
        FlagState::Absent | FlagState::Off => 0,
        FlagState::On => 1,
        FlagState::Free => 2,
    }
}

fn other_key(state: FlagState) -> u8
    ensures { result ≡ other_key state }
{
    match state {
        FlagState::Absent => 0,
        FlagState::Off => 1,
        FlagState::On => 2,
        FlagState::Free => 3,
    }
}

// Of the parent's flags.
fn add_own(
    flags: &[KnownFlag<'_>],
    pkg: &Pkg,
    states: &ProfileStates<'_>,
    level: Level,
    key: &mut Vec<u8>,
) -> Result<(), NoMemory>
    requires { AreKnown states.now pkg.now flags.now }
    ensures ok { OnOk result (key.new.items ≡ key.old.items ++ own_keys (state pkg.now states.now level) flags.now) }
    ensures err { OnErr result (key.new.items ≡ key.old.items) }
{
    key.reserve(flags.len())?;
    let mut parent = PkgInProfile::new(pkg, states.profile(), level);
    for known in flags {
        let state = states.state_in(&mut parent, known.kind, known.flag);
        key.push_reserved(own_key(state));
    }
    Ok(())
}

// Of a candidate's flags that the items name.
fn add_states(
    flags: &[KnownFlag<'_>],
    pkg: &Pkg,
    states: &ProfileStates<'_>,
    level: Level,
    key: &mut Vec<u8>,
) -> Result<(), NoMemory>
    requires { AreKnown states.now pkg.now flags.now }
    ensures ok { OnOk result (key.new.items ≡ key.old.items ++ other_keys (state pkg.now states.now level) flags.now) }
    ensures err { OnErr result (key.new.items ≡ key.old.items) }
{
    key.reserve(flags.len())?;
    let mut candidate = PkgInProfile::new(pkg, states.profile(), level);
    for known in flags {
        let state = states.state_in(&mut candidate, known.kind, known.flag);
        key.push_reserved(other_key(state));
    }
    Ok(())
}

fn add_candidate(
    flags: &[KnownFlag<'_>],
    pkg: &Pkg,
    states: &ProfileStates<'_>,
    level: Level,
    key: &mut Vec<u8>,
) -> Result<(), NoMemory>
    requires { AreKnown states.now pkg.now flags.now }
    ensures ok { OnOk result (key.new.items ≡ key.old.items ++ 1 ∷ other_keys (state pkg.now states.now level) flags.now) }
    ensures err { OnErr result (Begins key.old.items key.new.items) }
{
    key.push(1)?;
    add_states(flags, pkg, states, level, key)
}

// The package at this place, where it is visible.
fn add_shown<F: Fn(&Pkg) -> bool>(
    site: &PlaceSite<'_>,
    candidates: &Candidates<'_, F>,
    states: &ProfileStates<'_>,
    key: &mut Vec<u8>,
) -> Result<(), NoMemory>
    requires test { AnswersVisible (F.pre (test_of candidates.now)) (F.post (test_of candidates.now)) (profile_of candidates.now) (level_of candidates.now) }
    requires profile { states.now ≡ profile_of candidates.now }
    requires known { IsKnownAt states.now (pkgs_of candidates.now) site.now }
    ensures ok { OnOk result (key.new.items ≡ key.old.items ++ place_key states.now (level_of candidates.now) (pkgs_of candidates.now) site.now) }
    ensures err { OnErr result (Begins key.old.items key.new.items) }
{
    let place = site.place();
    match candidates.pkgs().items().get(place as usize) {
        Some(pkg) if candidates.is_visible(place, pkg) => {
            add_candidate(site.flags(), pkg, states, candidates.level(), key)
        }
        _ => Ok(()),
    }
}

// Each visible package that the atom matches, and the mark behind them.
fn add_atom<F: Fn(&Pkg) -> bool>(
    site: &AtomSite<'_>,
    candidates: &Candidates<'_, F>,
    states: &ProfileStates<'_>,
    key: &mut Vec<u8>,
) -> Result<(), NoMemory>
    requires test { AnswersVisible (F.pre (test_of candidates.now)) (F.post (test_of candidates.now)) (profile_of candidates.now) (level_of candidates.now) }
    requires profile { states.now ≡ profile_of candidates.now }
    requires known { AllByRecursion (IsKnownAt states.now (pkgs_of candidates.now)) site.now }
    ensures ok { OnOk result (key.new.items ≡ key.old.items ++ site_key states.now (level_of candidates.now) (pkgs_of candidates.now) site.now) }
    ensures err { OnErr result (Begins key.old.items key.new.items) }
{
    for place in site.places() {
        add_shown(place, candidates, states, key)?;
    }
    key.push(0)?;
    Ok(())
}

fn add_atoms<F: Fn(&Pkg) -> bool>(
    sites: &[AtomSite<'_>],
    candidates: &Candidates<'_, F>,
    states: &ProfileStates<'_>,
    key: &mut Vec<u8>,
) -> Result<(), NoMemory>
    requires test { AnswersVisible (F.pre (test_of candidates.now)) (F.post (test_of candidates.now)) (profile_of candidates.now) (level_of candidates.now) }
    requires profile { states.now ≡ profile_of candidates.now }
    requires known { AllByRecursion (AllByRecursion (IsKnownAt states.now (pkgs_of candidates.now))) sites.now }
    ensures ok { OnOk result (key.new.items ≡ key.old.items ++ flat_map (site_key states.now (level_of candidates.now) (pkgs_of candidates.now)) sites.now) }
    ensures err { OnErr result (Begins key.old.items key.new.items) }
{
    for site in sites {
        add_atom(site, candidates, states, key)?;
    }
    Ok(())
}
