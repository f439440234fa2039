//! Calls of `gv_lower`: queries of app/p-1 at stable, beside x/y-1.
ghost use Rattle.std.specs.Prelude.{◌≡◌, ◌<◌, length, IsSome};
ghost use Rattle.gv_entry.specs.Queries.{class_in};
ghost use Rattle.gv_facts.specs.declared.kinds.Class.TheVariants.{Rdepend};

use crate::given::{Given, cut_at};
use crate::made::{Made, add_member, bare_profile, member_of, rules};
use crate::written::Telling;
use gv_base::{Ledger, NoMemory, Steps, Text};
use gv_entry::{Body, class_in};
use gv_facts::{Class, Level, Pkg, Pkgs, Profile};
use gv_logic::{Bits, Gates, Lit, value, values};
use gv_lower::{LowerFault, Query, lower_allowed, lower_failing};
use gv_visible::{Candidates, visible};
use std::alloc::Global;
use std::marker::Brand;
use std::sync::ledger::Blank;

/// The packages, the expressions of the first, and a profile.
#[derive(Drop)]
pub(crate) struct Case {
    pub pkgs: Pkgs,
    pub body: Body,
    pub profile: Profile,
}

/// Tells the answer to a call of this library, if it is one. The parts are the EAPI, the flags of app/p-1, those of x/y-1 or
/// `-` where it isn't there, rules, REQUIRED_USE and RDEPEND; then the bits, and how often x/y-1 is there besides.
pub(crate) fn answer(alloc: Global, call: &str, given: &Given, told: &mut Telling) -> bool {
    let Some(call) = call_of(call) else {
        return false;
    };
    match case_of(alloc, given) {
        Ok(Some(case)) => over_steps::<Brand>(alloc, Blank::new(2), call, given, case, told),
        Ok(None) => told.say("no packages"),
        Err(NoMemory) => told.lack(),
    }
    true
}

#[derive(Clone, Copy, PartialEq, Eq)]
enum Call {
    Failing,
    Allowed,
    Preferring,
    Tables,
}

fn call_of(call: &str) -> Option<Call> {
    match call {
        "failing" => Some(Call::Failing),
        "allowed" => Some(Call::Allowed),
        "preferring" => Some(Call::Preferring),
        "tables" => Some(Call::Tables),
        _ => None,
    }
}

fn parent_lines(alloc: Global, given: &Given) -> Telling {
    Telling::of(
        alloc,
        &[
            b"SLOT=0\nKEYWORDS=amd64\nEAPI=",
            given.bytes(0),
            b"\nIUSE=",
            given.bytes(1),
            b"\nREQUIRED_USE=",
            given.bytes(4),
            b"\nRDEPEND=",
            given.bytes(5),
        ],
    )
}

// Adds app/p-1, and answers its expressions if it is a package.
fn add_parent(alloc: Global, given: &Given, pkgs: &mut Pkgs) -> Result<Option<Body>, NoMemory> {
    let lines = parent_lines(alloc, given);
    match member_of(alloc, b"app", b"p-1", lines.bytes()?)? {
        Some(made) => Ok(Some(add_made(alloc, made, pkgs)?)),
        None => Ok(None),
    }
}

fn add_made(alloc: Global, made: Made, pkgs: &mut Pkgs) -> Result<Body, NoMemory> {
    let Made { pkg, body } = made;
    pkgs.add(pkg)?;
    body.copy(alloc)
}

fn add_other(alloc: Global, pkgs: &mut Pkgs, name: &[u8], iuse: &[u8]) -> Result<(), NoMemory> {
    let lines = Telling::of(alloc, &[b"EAPI=8\nSLOT=0\nKEYWORDS=amd64\nIUSE=", iuse]);
    add_member(alloc, b"x", name, lines.bytes()?, pkgs)
}

fn add_same(alloc: Global, pkgs: &mut Pkgs, given: &Given) -> Result<(), NoMemory> {
    if given.words(2) == "-" {
        return Ok(());
    }
    for _ in 0..=given.number(7).min(10_000) {
        add_other(alloc, pkgs, b"y-1", given.bytes(2))?;
    }
    Ok(())
}

// A package by its name and its flags.
fn add_others(alloc: Global, pkgs: &mut Pkgs, parts: &[Text]) -> Result<(), NoMemory> {
    for part in parts {
        let (name, flags) = cut_at(part.bytes(), b' ');
        add_other(alloc, pkgs, name, flags)?;
    }
    Ok(())
}

fn add_all(alloc: Global, given: &Given, pkgs: &mut Pkgs) -> Result<Option<Body>, NoMemory> {
    let body = add_parent(alloc, given, pkgs)?;
    add_same(alloc, pkgs, given)?;
    add_others(alloc, pkgs, given.from(8))?;
    Ok(body)
}

/// What the parts of a line say, if app/p-1 is a package.
pub(crate) fn case_of(alloc: Global, given: &Given) -> Result<Option<Case>, NoMemory> {
    let mut pkgs = Pkgs::new(alloc);
    match add_all(alloc, given, &mut pkgs)? {
        Some(body) => Ok(Some(case_with(alloc, given, pkgs, body)?)),
        None => Ok(None),
    }
}

fn case_with(alloc: Global, given: &Given, pkgs: Pkgs, body: Body) -> Result<Case, NoMemory> {
    let profile = ruled_profile(alloc, given.words(3))?;
    Ok(Case {
        pkgs,
        body,
        profile,
    })
}

fn ruled_profile(alloc: Global, lines: &str) -> Result<Profile, NoMemory> {
    let mut profile = bare_profile(alloc)?;
    profile.rules = rules(alloc, lines)?;
    Ok(profile)
}

fn over_steps<L: Ledger>(
    alloc: Global,
    blank: Blank,
    call: Call,
    given: &Given,
    case: Case,
    told: &mut Telling,
)
    requires name { blank.name ≡ L.name }
    requires parts { blank.parts ≡ L.parts }
    requires two { blank.parts ≡ 2 }
{
    let mut steps = Steps::<L>::open(blank);
    over_case(alloc, call, given, &case, &mut steps, told);
}

fn over_case<L: Ledger>(
    alloc: Global,
    call: Call,
    given: &Given,
    case: &Case,
    steps: &mut Steps<L>,
    told: &mut Telling,
) {
    if call == Call::Tables {
        return tables(alloc, case, steps, told);
    }
    if let Some(query) = query_of(alloc, call == Call::Allowed, case, steps, told) {
        of_query(alloc, call, query, given, told);
    }
}

fn of_query(alloc: Global, call: Call, query: Query, given: &Given, told: &mut Telling) {
    if call == Call::Preferring {
        preferred(&query, told);
    } else {
        at_bits(alloc, &query, given.bytes(6), told);
    }
}

// The query about REQUIRED_USE or RDEPEND, or none and why.
fn query_of<L: Ledger>(
    alloc: Global,
    is_allowed: bool,
    case: &Case,
    steps: &mut Steps<L>,
    told: &mut Telling,
) -> Option<Query> {
    if case.pkgs.items().is_empty() || case.body.required.is_none() {
        told.say("broken");
        return None;
    }
    if is_allowed {
        let found = allowed_among(alloc, &case.pkgs, &case.profile, &case.body, steps);
        return asked(alloc, found, told);
    }
    if class_in(&case.body, Class::Rdepend).is_none() {
        told.say("broken");
        return None;
    }
    let found = failing_among(alloc, &case.pkgs, &case.profile, &case.body, steps);
    asked(alloc, found, told)
}

// The query, or none and why.
fn asked(alloc: Global, found: Result<Query, LowerFault>, told: &mut Telling) -> Option<Query> {
    match found {
        Ok(query) => copied(alloc, query, told),
        Err(fault) => {
            refused(fault, told);
            None
        }
    }
}

fn copied(alloc: Global, query: Query, told: &mut Telling) -> Option<Query> {
    let copy = query.copy(alloc).ok();
    if copy.is_none() {
        told.lack();
    }
    copy
}

fn refused(fault: LowerFault, told: &mut Telling) {
    match fault {
        LowerFault::Flags { count } => {
            told.number(u64::from(count));
            told.say(" flags");
        }
        LowerFault::Weight { count } => {
            told.say("weight ");
            told.number(u64::from(count));
        }
        LowerFault::NoMemory => told.lack(),
    }
}

fn allowed_among<L: Ledger>(
    alloc: Global,
    pkgs: &Pkgs,
    profile: &Profile,
    body: &Body,
    steps: &mut Steps<L>,
) -> Result<Query, LowerFault>
    requires number { 0 < length pkgs.now }
    requires whole { IsSome body.now.required }
{
    let level = Level::Stable;
    let test = |pkg: &Pkg| visible(pkg, profile, level);
    let candidates = Candidates::new(alloc, pkgs, profile, level, test)?;
    lower_allowed(alloc, 0, body, &candidates, steps)
}

fn failing_among<L: Ledger>(
    alloc: Global,
    pkgs: &Pkgs,
    profile: &Profile,
    body: &Body,
    steps: &mut Steps<L>,
) -> Result<Query, LowerFault>
    requires number { 0 < length pkgs.now }
    requires whole { IsSome body.now.required }
    requires class { IsSome (class_in body.now Rdepend) }
{
    let level = Level::Stable;
    let test = |pkg: &Pkg| visible(pkg, profile, level);
    let candidates = Candidates::new(alloc, pkgs, profile, level, test)?;
    lower_failing(alloc, 0, body, Class::Rdepend, &candidates, steps)
}

// The flags of a query, each behind `+` where it is preferred on.
fn preferred(query: &Query, told: &mut Telling) {
    for (flag, on) in query.flags.items().iter().zip(query.preferred.items()) {
        told.say(if *on { " +" } else { " " });
        told.add(flag.bytes());
    }
}

// Whether the gates are on where the inputs are these digits.
fn at_bits(alloc: Global, query: &Query, digits: &[u8], told: &mut Telling) {
    match is_on_at(alloc, &query.gates, digits) {
        Ok(Some(yes)) => told.yes_no(yes),
        Ok(None) => told.say("other inputs"),
        Err(NoMemory) => told.lack(),
    }
}

fn is_on_at(alloc: Global, gates: &Gates, digits: &[u8]) -> Result<Option<bool>, NoMemory> {
    let mut bits = Bits::new(alloc);
    for digit in digits {
        bits.add(*digit == b'1')?;
    }
    is_on(alloc, gates, &bits)
}

fn is_on(alloc: Global, gates: &Gates, bits: &Bits) -> Result<Option<bool>, NoMemory> {
    if bits.items().len() != gates.inputs() as usize {
        return Ok(None);
    }
    Ok(Some(value(alloc, gates, bits)?))
}

fn digit_of(flag: &[u8]) -> u8 {
    match flag {
        [b'f', digit] => digit.saturating_sub(b'0'),
        _ => 0,
    }
}

// The bits that an assignment of f0 to f5, which has a bit for each, gives the flags of a query.
fn bits_of(alloc: Global, query: &Query, assignment: u32) -> Result<Bits, NoMemory> {
    let mut bits = Bits::new(alloc);
    for flag in query.flags.items() {
        let digit = digit_of(flag.bytes());
        bits.add((assignment >> u32::from(digit % 6)) & 1 == 1)?;
    }
    Ok(bits)
}

// At all assignments of f0 to f5, of which the last has all of them on: where the query of REQUIRED_USE is on, where the one
// of RDEPEND is, and where each literal of its top items.
fn tables<L: Ledger>(alloc: Global, case: &Case, steps: &mut Steps<L>, told: &mut Telling) {
    let mut why = Telling::new(alloc);
    let Some(allowed) = query_of(alloc, true, case, steps, &mut why) else {
        return refused_for(&why, told);
    };
    match query_of(alloc, false, case, steps, &mut why) {
        Some(failing) => both_tables(alloc, &allowed, failing, told),
        None => refused_for(&why, told),
    }
}

fn refused_for(why: &Telling, told: &mut Telling) {
    match why.bytes() {
        Ok(_) => told.say("refused"),
        Err(NoMemory) => told.lack(),
    }
}

// What of a query a table is about.
#[derive(Clone, Copy)]
enum Part {
    All,
    Item(Lit),
}

fn both_tables(alloc: Global, allowed: &Query, failing: Query, told: &mut Telling) {
    table(alloc, allowed, &Part::All, told);
    told.add(b" ");
    table(alloc, &failing, &Part::All, told);
    for lit in failing.items.items() {
        told.add(b" ");
        table(alloc, &failing, &Part::Item(*lit), told);
    }
}

// Where the query is on, or one of its literals.
fn table(alloc: Global, query: &Query, part: &Part, told: &mut Telling) {
    match on_in(alloc, query, part) {
        Ok(on) => told.formatted(format!(in alloc; "{on:016x}")),
        Err(NoMemory) => told.lack(),
    }
}

fn on_in(alloc: Global, query: &Query, part: &Part) -> Result<u64, NoMemory> {
    let mut on: u64 = 0;
    for assignment in 0..64u32 {
        if is_part_on(alloc, query, assignment, part)? {
            on |= 1u64 << assignment;
        }
    }
    Ok(on)
}

fn is_part_on(
    alloc: Global,
    query: &Query,
    assignment: u32,
    part: &Part,
) -> Result<bool, NoMemory> {
    let bits = bits_of(alloc, query, assignment)?;
    match *part {
        Part::Item(lit) => is_item_on(alloc, &query.gates, &bits, lit),
        Part::All => Ok(is_on(alloc, &query.gates, &bits)? == Some(true)),
    }
}

fn is_item_on(alloc: Global, gates: &Gates, bits: &Bits, lit: Lit) -> Result<bool, NoMemory> {
    if bits.items().len() != gates.inputs() as usize {
        return Ok(false);
    }
    let places = values(alloc, gates, bits)?;
    let place = places.items().get((lit.0 / 2) as usize);
    Ok(matches!(place, Some(is_on) if *is_on != (lit.0 % 2 == 1)))
}
