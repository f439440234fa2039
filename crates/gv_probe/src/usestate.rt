//! Calls of `gv_usestate`.
ghost use Rattle.std.specs.Prelude.{IfSome};
ghost use Rattle.gv_usestate.specs.Kinds.{IsOneOf};

use crate::given::Given;
use crate::made::{Made, bare_profile, member_of, rules, words};
use crate::written::Telling;
use gv_base::{NoMemory, Text};
use gv_facts::{Level, Pkg, Profile, Profiles, ValueList, ValueLists};
use gv_usestate::{
    FlagKind, FlagState, PkgInProfile, ProfileStates, RuledFlags, effective, kind_law, state,
    state_of,
};
use std::alloc::Global;

/// Tells the answer to a call of this library, if it is one. Each is about x/y-1.2 in slot 0/3 with these keywords and flags,
/// and a profile with these rules, where ELIBC and ARCH are implicit and ARCH isn't prefixed.
pub(crate) fn answer(alloc: Global, call: &str, given: &Given, told: &mut Telling) -> bool {
    if !matches!(call, "state" | "effective" | "kind") {
        return false;
    }
    match made_of(alloc, given) {
        Ok(Some(made)) => of_made(alloc, call, made, given, told),
        Ok(None) => told.say("no package"),
        Err(NoMemory) => told.lack(),
    }
    true
}

fn made_of(alloc: Global, given: &Given) -> Result<Option<Made>, NoMemory> {
    let lines = Telling::of(
        alloc,
        &[
            b"EAPI=8\nSLOT=0/3\nKEYWORDS=",
            given.bytes(0),
            b"\nIUSE=",
            given.bytes(1),
        ],
    );
    member_of(alloc, b"x", b"y-1.2", lines.bytes()?)
}

fn of_made(alloc: Global, call: &str, made: Made, given: &Given, told: &mut Telling) {
    of_pkg(alloc, call, &made.pkg, given, told);
}

fn of_pkg(alloc: Global, call: &str, pkg: &Pkg, given: &Given, told: &mut Telling) {
    match call {
        "state" => states(alloc, pkg, given, told),
        "kind" => kinds(alloc, pkg, given, told),
        _ => flags(alloc, pkg, given, told),
    }
}

fn flags(alloc: Global, pkg: &Pkg, given: &Given, told: &mut Telling) {
    match profile(alloc, given.words(2)) {
        Ok(profile) => flags_in(alloc, pkg, profile, told),
        Err(NoMemory) => told.lack(),
    }
}

fn flags_in(alloc: Global, pkg: &Pkg, profile: Profile, told: &mut Telling) {
    told.texts(effective(alloc, pkg, &profile), b' ');
}

// Variables and their values.
const VALUES: [(&str, &str); 7] = [
    ("ELIBC", "musl glibc"),
    ("KERNEL", "linux"),
    ("PYTHON_TARGETS", "python3_12"),
    ("ARCH", "x86 amd64"),
    ("LOOSE", "loose"),
    ("NEITHER", "neither"),
    ("ELIBC", "uclibc"),
];

fn profile(alloc: Global, lines: &str) -> Result<Profile, NoMemory> {
    let mut profile = bare_profile(alloc)?;
    fill(alloc, lines, &mut profile)?;
    Ok(profile)
}

fn fill(alloc: Global, lines: &str, profile: &mut Profile) -> Result<(), NoMemory> {
    profile.iuse_implicit = words(alloc, "prefix b")?;
    profile.expand = words(alloc, "PYTHON_TARGETS ELIBC KERNEL")?;
    profile.expand_implicit = words(alloc, "ARCH ELIBC NEITHER")?;
    profile.unprefixed = words(alloc, "LOOSE ARCH")?;
    for (name, list) in VALUES {
        add_values(alloc, name, list, &mut profile.values)?;
    }
    profile.rules = rules(alloc, lines)?;
    Ok(())
}

fn add_values(
    alloc: Global,
    name: &str,
    list: &str,
    values: &mut ValueLists,
) -> Result<(), NoMemory> {
    let name = Text::of(alloc, name.as_bytes())?;
    let words = words(alloc, list)?;
    values.add(ValueList { name, words })
}

fn state_text(state: FlagState) -> &'static [u8] {
    match state {
        FlagState::Absent => b"absent",
        FlagState::Off => b"off",
        FlagState::On => b"on",
        FlagState::Free => b"free",
    }
}

fn kind_text(kind: FlagKind) -> &'static [u8] {
    match kind {
        FlagKind::Plain => b"plain",
        FlagKind::Listed => b"listed",
        FlagKind::Other => b"other",
    }
}

// The states at stable and at testing.
fn both(alloc: Global, stable: FlagState, testing: FlagState) -> Telling {
    Telling::of(alloc, &[state_text(stable), b" ", state_text(testing)])
}

fn add_profile(alloc: Global, lines: &str, profiles: &mut Profiles) -> Result<(), NoMemory> {
    profiles.add(profile(alloc, lines)?)
}

// The states of the flag, asked in each way.
fn states(alloc: Global, pkg: &Pkg, given: &Given, told: &mut Telling) {
    let mut profiles = Profiles::new(alloc);
    told.done(add_profile(alloc, given.words(2), &mut profiles));
    if let Some(profile) = first(profiles.items()) {
        states_in(alloc, profiles.items(), profile, pkg, given.part(3), told);
    }
}

fn states_in(
    alloc: Global,
    profiles: &[Profile],
    profile: &Profile,
    pkg: &Pkg,
    flag: &Text,
    told: &mut Telling,
)
    requires { IsOneOf profiles.now profile.now }
{
    plain_states(alloc, pkg, profile, flag, told);
    add_kept(alloc, profiles, profile, pkg, flag.bytes(), told);
    let asked = ProfileStates::of(profile);
    add_ruled(alloc, profiles, &asked, pkg, flag.bytes(), told);
}

fn plain_states(alloc: Global, pkg: &Pkg, profile: &Profile, flag: &Text, told: &mut Telling) {
    let (stable, testing) = (Level::Stable, Level::Testing);
    let own = both(
        alloc,
        state(pkg, profile, stable, flag),
        state(pkg, profile, testing, flag),
    );
    let other = both(
        alloc,
        state_of(pkg, profile, stable, flag.bytes()),
        state_of(pkg, profile, testing, flag.bytes()),
    );
    told.all_of(&own);
    told.also(&other);
}

fn add_kept(
    alloc: Global,
    profiles: &[Profile],
    profile: &Profile,
    pkg: &Pkg,
    flag: &[u8],
    told: &mut Telling,
)
    requires { IsOneOf profiles.now profile.now }
{
    match ProfileStates::new(alloc, profile) {
        Ok(kept) => add_ruled(alloc, profiles, &kept, pkg, flag, told),
        Err(NoMemory) => told.lack(),
    }
}

fn add_ruled(
    alloc: Global,
    profiles: &[Profile],
    states: &ProfileStates<'_>,
    pkg: &Pkg,
    flag: &[u8],
    told: &mut Telling,
)
    requires { IsOneOf profiles.now states.now }
{
    match RuledFlags::new(alloc, profiles) {
        Ok(ruled) => add_states(alloc, &ruled, states, pkg, flag, told),
        Err(NoMemory) => told.lack(),
    }
    add_states(alloc, &RuledFlags::of(profiles), states, pkg, flag, told);
}

fn first(profiles: &[Profile]) -> Option<&Profile>
    ensures { IfSome result (λ profile. IsOneOf profiles.now profile.now) }
{
    match profiles {
        [profile, ..] => Some(profile),
        [] => None,
    }
}

// The states by what is known of the flag, where they are those without it.
fn add_states(
    alloc: Global,
    ruled: &RuledFlags<'_>,
    states: &ProfileStates<'_>,
    pkg: &Pkg,
    flag: &[u8],
    told: &mut Telling,
)
    requires { IsOneOf ruled.now states.now }
{
    let mut by = both(
        alloc,
        state_by_kind(ruled, states, pkg, Level::Stable, flag),
        state_by_kind(ruled, states, pkg, Level::Testing, flag),
    );
    let plain = both(
        alloc,
        states.state(pkg, Level::Stable, flag),
        states.state(pkg, Level::Testing, flag),
    );
    by.also(&plain);
    told.also(&by);
}

fn state_by_kind(
    ruled: &RuledFlags<'_>,
    states: &ProfileStates<'_>,
    pkg: &Pkg,
    level: Level,
    flag: &[u8],
) -> FlagState
    requires { IsOneOf ruled.now states.now }
{
    kind_law();
    let kind = ruled.kind(pkg, flag);
    let mut seen = PkgInProfile::new(pkg, states.profile(), level);
    states.state_in(&mut seen, kind, flag)
}

// What is known of the flag where one profile has no rules and another has these.
fn kinds(alloc: Global, pkg: &Pkg, given: &Given, told: &mut Telling) {
    let mut profiles = Profiles::new(alloc);
    told.done(add_profile(alloc, "", &mut profiles));
    told.done(add_profile(alloc, given.words(2), &mut profiles));
    add_kinds(alloc, pkg, profiles.items(), given.bytes(3), told);
}

fn add_kinds(alloc: Global, pkg: &Pkg, profiles: &[Profile], flag: &[u8], told: &mut Telling) {
    let asked = RuledFlags::of(profiles).kind(pkg, flag);
    match RuledFlags::new(alloc, profiles) {
        Ok(ruled) => tell_kinds(alloc, ruled.kind(pkg, flag), asked, told),
        Err(NoMemory) => told.lack(),
    }
}

fn tell_kinds(alloc: Global, by: FlagKind, asked: FlagKind, told: &mut Telling) {
    told.add(kind_text(by));
    told.also(&Telling::of(alloc, &[kind_text(asked)]));
}
