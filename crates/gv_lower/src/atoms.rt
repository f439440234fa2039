//! Atoms as gates: for each visible package that an atom matches, whether the package's flags may be set as its items ask.
//!
//! An atom costs O(n log n) comparisons of flags for n items, a look-up of its packages, and for each that is shown the
//! states of the flags that are named and O(n).
ghost use Rattle.std.specs.Prelude.{◌≡◌, map, filter, IfOk, OnOk};
ghost use Rattle.std.specs.Option.{option_map};
ghost use Rattle.gv_facts.specs.States.{state};
ghost use Rattle.gv_lower.specs.Around.{parent_of, wanted_plan};
ghost use Rattle.gv_lower.specs.Asks.{asks_plan};
ghost use Rattle.gv_lower.specs.AtomGates.{atom_plan};
ghost use Rattle.gv_lower.specs.Drawn.{Drew, DrewEach, DrewIf};
ghost use Rattle.gv_lower.specs.Parent.{base_at};
ghost use Rattle.gv_visible.specs.VisiblePkgs.{shown_at, shows};
ghost use Rattle.gv_visible.specs.StoredTest.{AnswersVisible};
ghost use Rattle.gv_visible.specs.Candidates.{level_of, pkgs_of, profile_of, test_of};

use crate::asks::{FlagAsks, asks_of, draw_asks};
use crate::groups::gate_over;
use crate::parent::ParentFlags;
use crate::sketch::Sketch;
use gv_atom::{Atom, Block};
use gv_base::NoMemory;
use gv_facts::Pkg;
use gv_logic::{Lit, Lits, Op};
use gv_visible::Candidates;

// A blocker counts as met.
pub(crate) fn draw_atom<F: Fn(&Pkg) -> bool>(
    sketch: &mut Sketch,
    atom: &Atom,
    parent: &ParentFlags<'_>,
    candidates: &Candidates<'_, F>,
) -> Result<Lit, NoMemory>
    requires { AnswersVisible (F.pre (test_of candidates.now)) (F.post (test_of candidates.now)) (profile_of candidates.now) (level_of candidates.now) }
    ensures { IfOk result (λ lit. Drew (atom_plan (parent_of candidates.now parent.now.pkg.now) (base_at parent.now) atom.now) sketch.old sketch.new lit) }
{
    match atom.block {
        Block::Weak | Block::Strong => Ok(parent.on),
        Block::No => {
            let asks = asks_of(sketch.alloc, atom.items.items(), parent)?;
            draw_wanted(sketch, &asks, atom, candidates)
        }
    }
}

// For the package at this place, where it is visible and the atom matches it.
fn draw_shown<F: Fn(&Pkg) -> bool>(
    sketch: &mut Sketch,
    asks: &[FlagAsks<'_>],
    atom: &Atom,
    place: u32,
    candidates: &Candidates<'_, F>,
    lits: &mut Lits,
) -> Result<(), NoMemory>
    requires { AnswersVisible (F.pre (test_of candidates.now)) (F.post (test_of candidates.now)) (profile_of candidates.now) (level_of candidates.now) }
    ensures { OnOk result (DrewIf (option_map (λ p. asks_plan (state p (profile_of candidates.now) (level_of candidates.now)) asks.now) (shown_at (profile_of candidates.now) (level_of candidates.now) atom.now (pkgs_of candidates.now) place)) sketch.old sketch.new lits.old lits.new) }
{
    match candidates.shown(place, atom) {
        None => Ok(()),
        Some(pkg) => {
            let profile = candidates.profile();
            let level = candidates.level();
            let lit = draw_asks(sketch, asks, pkg, profile, level)?;
            lits.add(lit)?;
            Ok(())
        }
    }
}

// For each visible package that the atom matches. Those of its name are looked up once.
fn draw_packages<F: Fn(&Pkg) -> bool>(
    sketch: &mut Sketch,
    asks: &[FlagAsks<'_>],
    atom: &Atom,
    candidates: &Candidates<'_, F>,
) -> Result<Lits, NoMemory>
    requires { AnswersVisible (F.pre (test_of candidates.now)) (F.post (test_of candidates.now)) (profile_of candidates.now) (level_of candidates.now) }
    ensures { IfOk result (λ lits. DrewEach (map (λ p. asks_plan (state p (profile_of candidates.now) (level_of candidates.now)) asks.now) (filter (shows (profile_of candidates.now) (level_of candidates.now) atom.now) (pkgs_of candidates.now))) sketch.old sketch.new lits) }
{
    let mut lits = Lits::new(sketch.alloc);
    for place in candidates.places(atom) {
        draw_shown(sketch, asks, atom, *place, candidates, &mut lits)?;
    }
    Ok(lits)
}

fn draw_wanted<F: Fn(&Pkg) -> bool>(
    sketch: &mut Sketch,
    asks: &[FlagAsks<'_>],
    atom: &Atom,
    candidates: &Candidates<'_, F>,
) -> Result<Lit, NoMemory>
    requires { AnswersVisible (F.pre (test_of candidates.now)) (F.post (test_of candidates.now)) (profile_of candidates.now) (level_of candidates.now) }
    ensures { IfOk result (λ lit. Drew (wanted_plan candidates.now atom.now asks.now) sketch.old sketch.new lit) }
{
    let lits = draw_packages(sketch, asks, atom, candidates)?;
    gate_over(sketch, Op::Or, lits.items())
}
