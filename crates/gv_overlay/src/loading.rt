//! An overlay loaded with its masters.
//!
//! Costs what loading each master and the overlay's view costs, and what `combining` says of all packages.
ghost use Rattle.std.specs.Prelude.{◌≡◌, ◌≤◌, Ok, map, ◌++◌, ◌∷◌, [], filter, Some, IfErr, IfOk, OnOk};
ghost use Rattle.gv_overlay.specs.Overlays.{IsOverlay, OverlayCause, is_of_entry, layered_loading, master_loading, masters_refusal, own_refusal};
ghost use Rattle.gv_overlay.specs.Refused.{IsMasterRefused, Refused};
ghost use Rattle.gv_views.specs.Told.{IsTold, told_files};
ghost use Rattle.gv_overlay.specs.Combined.{master_entries};
ghost use Rattle.gv_overlay.specs.Loaded.{HasAdded, IsPutTogether};
ghost use Rattle.gv_load.specs.OwnLines.{HaveOwnLines};
ghost use Rattle.gv_load.specs.declared.loading.Repo.{Repo};
ghost use Rattle.std.specs.Prelude.{IfSome};

use crate::combining::{Entry, add_entries, apart, in_package_order};
use crate::masters::read_masters;
use crate::repositories::{load_master, load_own};
use crate::{Overlay, OverlayFault};
use gv_base::{NoMemory, Text, Tree};
use gv_load::Repo;
use gv_report::{Report, Reports, Subject};
use gv_views::layers_of;
use std::alloc::Global;

/// The overlay of this name in a folder of the tree, together with the masters that its layout names, or the first refusal: of the
/// layout, which is read first, then of each master, then of the overlay's view, each in the order of loading.
///
/// `Tree` comes with the path in the tree, and only where the tree's count of faults rose. A path of a master has its folder in front,
/// a path of the overlay's view is given as in the view. `NotARepository` comes with the layout's path where the layout is no file, has
/// no masters line, or this line has no word, or a word that isn't one part of a path, stands twice or is the name; `Limit` comes with
/// the layout's path where that has more than 4,096 bytes, the layout more than 16,777,216, or the line more than 8 words.
#[tactic(auto, using(crate::proofs::Loads::overlay_is, crate::proofs::Loads::own_lines, crate::proofs::Loads::layout_cause, crate::proofs::Loads::masters_cause, crate::proofs::Loads::own_cause))]
pub fn load_overlay<T: Tree>(
    alloc: Global,
    tree: &mut T,
    name: &Text,
) -> Result<Overlay, OverlayFault>
    ensures overlay { IfOk result (λ over. IfSome (T.files tree.old) (λ files. IsOverlay files name.now over)) }
    ensures own { IfOk result (λ over. HaveOwnLines over.repo.profiles) }
    ensures cause { IfErr result (OverlayCause (T.files tree.old) name.now (T.faults tree.old) (T.faults tree.new)) }
    ensures files { T.files tree.new ≡ T.files tree.old }
    ensures root { T.entered tree.new ≡ T.entered tree.old }
    ensures lent { T.lent tree.new ≡ T.lent tree.old }
    ensures later { T.faults tree.old ≤ T.faults tree.new }
    ensures calm { OnOk result (T.faults tree.new ≡ T.faults tree.old) }
{
    let masters = match read_masters(alloc, tree, name) {
        Ok(masters) => masters,
        Err(fault) => return Err(fault),
    };
    let layers = layers_of(alloc, name, &masters)?;
    let mut entries = Vec::new(alloc);
    match add_masters(alloc, tree, masters.items(), &mut entries) {
        Ok(()) => {}
        Err(fault) => return Err(fault),
    }
    let own = match load_own(alloc, tree, &layers) {
        Ok(own) => own,
        Err(fault) => return Err(fault),
    };
    Ok(combined(alloc, entries, own)?)
}

// Adds the packages of the repositories in these folders.
#[tactic(auto, using(crate::proofs::Loads::none_added, crate::proofs::Loads::more_added, crate::proofs::Loads::all_added, crate::proofs::Loads::master_cause))]
fn add_masters<T: Tree>(
    alloc: Global,
    tree: &mut T,
    folders: &[Text],
    entries: &mut Vec<Entry>,
) -> Result<(), OverlayFault>
    ensures added { OnOk result (IsTold (T.files tree.old) → HasAdded (map (master_loading (told_files (T.files tree.old))) folders.now) entries.old.items entries.new.items) }
    ensures cause { IfErr result (Refused (T.files tree.old) (T.faults tree.old) (T.faults tree.new) (IsMasterRefused folders.now)) }
    ensures files { T.files tree.new ≡ T.files tree.old }
    ensures root { T.entered tree.new ≡ T.entered tree.old }
    ensures lent { T.lent tree.new ≡ T.lent tree.old }
    ensures later { T.faults tree.old ≤ T.faults tree.new }
    ensures calm { OnOk result (T.faults tree.new ≡ T.faults tree.old) }
{
    for folder in folders {
        match add_master(alloc, tree, folder, entries) {
            Ok(()) => {}
            Err(fault) => return Err(fault),
        }
    }
    Ok(())
}

// Adds the packages of the repository in a folder.
#[tactic(auto, using(crate::proofs::Loads::one_added, crate::proofs::Loads::one_cause))]
fn add_master<T: Tree>(
    alloc: Global,
    tree: &mut T,
    folder: &Text,
    entries: &mut Vec<Entry>,
) -> Result<(), OverlayFault>
    ensures added { OnOk result (IsTold (T.files tree.old) → HasAdded (map (master_loading (told_files (T.files tree.old))) (folder.now ∷ [])) entries.old.items entries.new.items) }
    ensures cause { IfErr result (Refused (T.files tree.old) (T.faults tree.old) (T.faults tree.new) (IsMasterRefused (folder.now ∷ []))) }
    ensures files { T.files tree.new ≡ T.files tree.old }
    ensures root { T.entered tree.new ≡ T.entered tree.old }
    ensures lent { T.lent tree.new ≡ T.lent tree.old }
    ensures later { T.faults tree.old ≤ T.faults tree.new }
    ensures calm { OnOk result (T.faults tree.new ≡ T.faults tree.old) }
{
    let repo = match load_master(alloc, tree, folder) {
        Ok(repo) => repo,
        Err(fault) => return Err(fault),
    };
    let Repo { pkgs, bodies, .. } = repo;
    Ok(add_entries(entries, pkgs, bodies, false)?)
}

// The packages of the masters and those of the overlay together, with its profiles.
fn combined(alloc: Global, mut entries: Vec<Entry>, own: Repo) -> Result<Overlay, NoMemory>
    ensures { IfOk result (IsPutTogether entries.items own) }
{
    let Repo {
        pkgs,
        bodies,
        profiles,
        lines,
        notes,
    } = own;
    add_entries(&mut entries, pkgs, bodies, true)?;
    let sorted = in_package_order(entries)?;
    let parts = apart(alloc, sorted)?;
    let notes = notes_of_entries(alloc, notes.items())?;
    Ok(Overlay {
        repo: Repo {
            pkgs: parts.pkgs,
            bodies: parts.bodies,
            profiles,
            lines,
            notes: Reports::new(alloc),
        },
        own: parts.own,
        notes,
    })
}

// Those that are told of entries and not of places.
fn notes_of_entries(alloc: Global, notes: &[Report]) -> Result<Reports, NoMemory>
    ensures { IfOk result (λ kept. kept ≡ filter is_of_entry notes.now) }
{
    let mut kept = Reports::new(alloc);
    for note in notes {
        if is_of_entry(note) {
            kept.add(note.copy(alloc)?)?;
        }
    }
    Ok(kept)
}

fn is_of_entry(note: &Report) -> bool
    ensures { result ≡ is_of_entry note.now }
{
    match &note.subject {
        Subject::Place { .. } => false,
        Subject::Package { .. } => true,
    }
}
