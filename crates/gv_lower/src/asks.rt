//! What the items of an atom ask of each flag that they name, by literals.
ghost use Rattle.std.specs.Prelude.{◌≡◌, ◌++◌, [], ◌∷◌, IfOk, OnOk, drop, map, flat_map};
ghost use Rattle.gv_facts.specs.States.{state};
ghost use Rattle.gv_lower.specs.AtomGates.{asked_by, flag_plan, item_missing, item_off, item_on, naming, none_of, not_both};
ghost use Rattle.gv_lower.specs.Asks.{ask_from, ask_plan, asked_in, asks_of, asks_plan, item_side};
ghost use Rattle.gv_lower.specs.Chains.{HasFlag};
ghost use Rattle.gv_lower.specs.Drawn.{Drew, DrewEach};
ghost use Rattle.gv_lower.specs.Parent.{base_at};

use crate::chains::Chains;
use crate::groups::gate_over;
use crate::parent::ParentFlags;
use crate::sketch::Sketch;
use gv_atom::{Ask, UseItem};
use gv_base::{NoMemory, Text};
use gv_facts::{FlagState, Level, Pkg, Profile};
use gv_logic::{Lit, Lits, Op};
use gv_usestate::state;
use std::alloc::Global;
use std::marker::Model;

// What is asked of a flag.
#[derive(Drop)]
pub(crate) struct FlagAsks<'a> {
    flag: &'a Text,
    // Where one of these is true it has to be on.
    on: Lits,
    // Where one of these is true it has to be off.
    off: Lits,
    // None of these may be true where there is no such flag.
    missing: Lits,
}

impl<'a> Model for FlagAsks<'a> {
    ghost use Rattle.gv_lower.specs.Asks.{FlagAsks};

    ghost Value = { FlagAsks };

    ghost view = { λ a. record { flag = a.flag.now; on = a.on; off = a.off; missing = a.missing } };
}

// Which of the three lists.
#[derive(Clone, Copy)]
enum Side {
    On,
    Off,
    Missing,
}

// One for each flag, by the first item that names it.
pub(crate) fn asks_of<'a>(
    alloc: Global,
    items: &'a [UseItem],
    parent: &ParentFlags<'_>,
) -> Result<Vec<FlagAsks<'a>>, NoMemory>
    ensures { IfOk result (λ asks. asks.items ≡ asks_of (base_at parent.now) items.now) }
{
    let chains = Chains::of(alloc, items)?;
    let mut asks = Vec::new(alloc);
    for (i, item) in items.iter().enumerate() {
        if !chains.is_first(i, &item.flag) {
            continue;
        }
        let ask = ask_at(alloc, &chains, i, &item.flag, parent)?;
        asks.push(ask)?;
    }
    Ok(asks)
}

// Whether the flags of the package may be set so that all have what is asked.
pub(crate) fn draw_asks(
    sketch: &mut Sketch,
    asks: &[FlagAsks<'_>],
    pkg: &Pkg,
    profile: &Profile,
    level: Level,
) -> Result<Lit, NoMemory>
    ensures { IfOk result (λ lit. Drew (asks_plan (state pkg.now profile.now level) asks.now) sketch.old sketch.new lit) }
{
    let lits = draw_each_ask(sketch, asks, pkg, profile, level)?;
    gate_over(sketch, Op::And, lits.items())
}

fn add_on(lits: &mut Lits, item: &UseItem, parent: &ParentFlags<'_>) -> Result<(), NoMemory>
    ensures { OnOk result (lits.new ≡ lits.old ++ item_on (base_at parent.now) item.now) }
{
    match item.ask {
        Ask::On => lits.add(parent.on),
        Ask::Same | Ask::OnIf => lits.add(parent.flag(&item.flag)),
        Ask::Opposite => lits.add(parent.flag(&item.flag).opposite()),
        Ask::Off | Ask::OffIfNot => Ok(()),
    }
}

fn add_off(lits: &mut Lits, item: &UseItem, parent: &ParentFlags<'_>) -> Result<(), NoMemory>
    ensures { OnOk result (lits.new ≡ lits.old ++ item_off (base_at parent.now) item.now) }
{
    match item.ask {
        Ask::Off => lits.add(parent.on),
        Ask::Same | Ask::OffIfNot => lits.add(parent.flag(&item.flag).opposite()),
        Ask::Opposite => lits.add(parent.flag(&item.flag)),
        Ask::On | Ask::OnIf => Ok(()),
    }
}

fn add_missing(lits: &mut Lits, item: &UseItem, parent: &ParentFlags<'_>) -> Result<(), NoMemory>
    ensures { OnOk result (lits.new ≡ lits.old ++ item_missing (base_at parent.now) item.now) }
{
    match item.missing {
        Some(true) => add_off(lits, item, parent),
        Some(false) => add_on(lits, item, parent),
        None => {
            add_on(lits, item, parent)?;
            add_off(lits, item, parent)
        }
    }
}

fn add_side(
    lits: &mut Lits,
    side: Side,
    item: &UseItem,
    parent: &ParentFlags<'_>,
) -> Result<(), NoMemory>
    ensures { OnOk result (lits.new ≡ lits.old ++ item_side side (base_at parent.now) item.now) }
{
    match side {
        Side::On => add_on(lits, item, parent),
        Side::Off => add_off(lits, item, parent),
        Side::Missing => add_missing(lits, item, parent),
    }
}

// The literals of the items that name this flag, from the first of them on.
fn side_of(
    alloc: Global,
    side: Side,
    chains: &Chains<'_>,
    first: usize,
    flag: &Text,
    parent: &ParentFlags<'_>,
) -> Result<Lits, NoMemory>
    requires { HasFlag chains.now first flag.now }
    ensures { IfOk result (λ lits. lits ≡ flat_map (item_side side (base_at parent.now)) (naming flag.now (drop first chains.now))) }
{
    let items = chains.items();
    let mut lits = Lits::new(alloc);
    let mut at = Some(first);
    while let Some(place) = at {
        add_side(&mut lits, side, &items[place], parent)?;
        at = chains.later(place);
    }
    Ok(lits)
}

// What the items ask of this flag, which the first of them names.
fn ask_at<'a>(
    alloc: Global,
    chains: &Chains<'_>,
    first: usize,
    flag: &'a Text,
    parent: &ParentFlags<'_>,
) -> Result<FlagAsks<'a>, NoMemory>
    requires { HasFlag chains.now first flag.now }
    ensures { IfOk result (λ asks. asks ≡ ask_from flag.now (asked_by (base_at parent.now) (naming flag.now (drop first chains.now)))) }
{
    let on = side_of(alloc, Side::On, chains, first, flag, parent)?;
    let off = side_of(alloc, Side::Off, chains, first, flag, parent)?;
    let missing = side_of(alloc, Side::Missing, chains, first, flag, parent)?;
    Ok(FlagAsks {
        flag,
        on,
        off,
        missing,
    })
}

fn none_of(sketch: &mut Sketch, lits: &[Lit]) -> Result<Lit, NoMemory>
    ensures { IfOk result (λ lit. Drew (none_of lits.now) sketch.old sketch.new lit) }
{
    let some = sketch.add(Op::Or, lits)?;
    Ok(some.opposite())
}

fn not_both(sketch: &mut Sketch, on: &[Lit], off: &[Lit]) -> Result<Lit, NoMemory>
    ensures { IfOk result (λ lit. Drew (not_both on.now off.now) sketch.old sketch.new lit) }
{
    let some_on = sketch.add(Op::Or, on)?;
    let some_off = sketch.add(Op::Or, off)?;
    sketch.add(Op::Or, &[some_on.opposite(), some_off.opposite()])
}

// Whether a flag of this state may be set so that it has what is asked.
fn draw_ask(sketch: &mut Sketch, ask: &FlagAsks<'_>, state: FlagState) -> Result<Lit, NoMemory>
    ensures { IfOk result (λ lit. Drew (flag_plan state (asked_in ask.now)) sketch.old sketch.new lit) }
{
    match state {
        FlagState::Free => not_both(sketch, ask.on.items(), ask.off.items()),
        FlagState::On => none_of(sketch, ask.off.items()),
        FlagState::Off => none_of(sketch, ask.on.items()),
        FlagState::Absent => none_of(sketch, ask.missing.items()),
    }
}

fn draw_each_ask(
    sketch: &mut Sketch,
    asks: &[FlagAsks<'_>],
    pkg: &Pkg,
    profile: &Profile,
    level: Level,
) -> Result<Lits, NoMemory>
    ensures { IfOk result (λ lits. DrewEach (map (ask_plan (state pkg.now profile.now level)) asks.now) sketch.old sketch.new lits) }
{
    let mut lits = Lits::new(sketch.alloc);
    for ask in asks {
        let lit = draw_ask(sketch, ask, state(pkg, profile, level, ask.flag))?;
        lits.add(lit)?;
    }
    Ok(lits)
}
