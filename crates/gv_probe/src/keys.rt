//! Keys of queries: of each mention 0, or 1 where the flag is on, or 2 where it is free; and of each atom for each package
//! that it matches 1 and the states of its items' flags (0 absent, 1 off, 2 on, 3 free), and 0 at its end.
ghost use Rattle.std.specs.Prelude.{◌≡◌, IfSome};
ghost use Rattle.gv_usestate.specs.Kinds.{IsOneOf};

use crate::given::Given;
use crate::lower::{Case, case_of};
use crate::written::Telling;
use gv_base::NoMemory;
use gv_entry::{Body, class_in};
use gv_expr::{DepExpr, UseExpr};
use gv_facts::{Class, Level, Pkg, Pkgs, Profile, Profiles};
use gv_lower::{ClassSites, RequiredFlags, add_class_key, add_required_key};
use gv_usestate::{ProfileStates, RuledFlags};
use gv_visible::{Candidates, visible};
use std::alloc::Global;

/// Tells the answer to the call of keys, whose parts are those of a query.
pub(crate) fn answer(alloc: Global, call: &str, given: &Given, told: &mut Telling) -> bool {
    if call != "key" {
        return false;
    }
    match case_of(alloc, given) {
        Ok(Some(case)) => tell_key(alloc, case, told),
        Ok(None) => told.say("no packages"),
        Err(NoMemory) => told.lack(),
    }
    true
}

fn tell_key(alloc: Global, case: Case, told: &mut Telling) {
    match key_of(alloc, &case) {
        Ok(key) => add_numbers(key.as_slice(), told),
        Err(NoMemory) => told.lack(),
    }
}

fn add_numbers(key: &[u8], told: &mut Telling) {
    for number in key {
        told.add(&[number.saturating_add(b'0')]);
    }
}

fn key_of(alloc: Global, case: &Case) -> Result<Vec<u8>, NoMemory> {
    let mut profiles = Profiles::new(alloc);
    profiles.add(case.profile.copy(alloc)?)?;
    key_among(alloc, &case.pkgs, &profiles, &case.body)
}

fn first(profiles: &[Profile]) -> Option<&Profile>
    ensures { IfSome result (λ profile. IsOneOf profiles.now profile.now) }
{
    match profiles {
        [profile, ..] => Some(profile),
        [] => None,
    }
}

fn key_among(
    alloc: Global,
    pkgs: &Pkgs,
    profiles: &Profiles,
    body: &Body,
) -> Result<Vec<u8>, NoMemory> {
    let ruled = RuledFlags::new(alloc, profiles.items())?;
    match first(profiles.items()) {
        Some(profile) => key_over(alloc, pkgs, &ruled, profile, body),
        None => Ok(Vec::new(alloc)),
    }
}

fn key_over(
    alloc: Global,
    pkgs: &Pkgs,
    ruled: &RuledFlags<'_>,
    profile: &Profile,
    body: &Body,
) -> Result<Vec<u8>, NoMemory>
    requires { IsOneOf ruled.now profile.now }
{
    key_in(alloc, &*pkgs, &*ruled, &*profile, &*body)
}

// The key of the query about RDEPEND of the first package, at stable.
fn key_in<'a>(
    alloc: Global,
    pkgs: &'a Pkgs,
    ruled: &'a RuledFlags<'a>,
    profile: &'a Profile,
    body: &'a Body,
) -> Result<Vec<u8>, NoMemory>
    requires { IsOneOf ruled.now profile.now }
{
    let mut key = Vec::new(alloc);
    if let [pkg, ..] = pkgs.items() {
        add_key(alloc, pkgs, ruled, profile, pkg, body, &mut key)?;
    }
    Ok(key)
}

fn add_key<'a>(
    alloc: Global,
    pkgs: &'a Pkgs,
    ruled: &'a RuledFlags<'a>,
    profile: &'a Profile,
    pkg: &'a Pkg,
    body: &'a Body,
    key: &mut Vec<u8>,
) -> Result<(), NoMemory>
    requires { IsOneOf ruled.now profile.now }
{
    let states = ProfileStates::new(alloc, profile)?;
    add_both(alloc, pkgs, ruled, &states, profile, pkg, body, key)
}

fn add_both<'a>(
    alloc: Global,
    pkgs: &'a Pkgs,
    ruled: &'a RuledFlags<'a>,
    states: &ProfileStates<'_>,
    profile: &'a Profile,
    pkg: &'a Pkg,
    body: &'a Body,
    key: &mut Vec<u8>,
) -> Result<(), NoMemory>
    requires one { IsOneOf ruled.now profile.now }
    requires states { states.now ≡ profile.now }
{
    if let Some(required) = &body.required {
        add_required(alloc, ruled, states, pkg, required, key)?;
    }
    match class_in(body, Class::Rdepend) {
        Some(class) => add_class(alloc, pkgs, ruled, states, profile, pkg, class, key),
        None => Ok(()),
    }
}

fn add_required<'a>(
    alloc: Global,
    ruled: &'a RuledFlags<'a>,
    states: &ProfileStates<'_>,
    pkg: &'a Pkg,
    required: &'a UseExpr,
    key: &mut Vec<u8>,
) -> Result<(), NoMemory>
    requires { IsOneOf ruled.now states.now }
{
    let flags = RequiredFlags::new(alloc, ruled, pkg, required)?;
    add_required_key(&flags, states, Level::Stable, key)
}

// Adds the key of a class of the package.
fn add_class<'a>(
    alloc: Global,
    pkgs: &'a Pkgs,
    ruled: &'a RuledFlags<'a>,
    states: &ProfileStates<'_>,
    profile: &'a Profile,
    pkg: &'a Pkg,
    class: &'a DepExpr,
    key: &mut Vec<u8>,
) -> Result<(), NoMemory>
    requires one { IsOneOf ruled.now profile.now }
    requires states { states.now ≡ profile.now }
{
    let level = Level::Stable;
    let sites = ClassSites::new(alloc, ruled, pkg, pkgs, class)?;
    let test = |pkg: &Pkg| visible(pkg, profile, level);
    let candidates = Candidates::new(alloc, pkgs, profile, level, test)?;
    add_class_key(&sites, &candidates, states, key)
}
