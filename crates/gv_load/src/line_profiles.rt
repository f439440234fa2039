//! The profiles of the lines: the directories that they reach, their stacks, and the bad lines that were read.
//!
//! Costs what `reaching` and `stacks` say, and O(bytes) for the bad lines of each directory, once.
ghost use Rattle.std.specs.Prelude.{◌≡◌, ◌++◌, IfOk, OnOk};
ghost use Rattle.std.specs.FinMap as finite;
ghost use Rattle.gv_reading.specs.Causes.{Knows, Reads, view};
ghost use Rattle.gv_load.specs.Layout.{layout};
ghost use Rattle.gv_load.specs.Notes.{notes_at, notes_in};
ghost use Rattle.gv_load.specs.Order.{profiles_steps};
ghost use Rattle.gv_load.specs.OwnLines.{AreNumbered, HaveOwnLines};
ghost use Rattle.gv_load.specs.PartsRead.{profiled_of};

use crate::layout::Layout;
use crate::lists::add_notes;
use crate::reaching::{Reached, read_dirs};
use crate::stacks::{Folds, fold_lines};
use gv_base::{NoMemory, Text, Texts, Tree};
use gv_facts::Profiles;
use gv_profile::{DescLines, Dirs, PlaceNotes, dir_notes};
use gv_reading::{LoadFault, NamedFiles, Reader};
use std::alloc::Global;

/// What the lines come to.
#[derive(Drop)]
pub(crate) struct Profiled {
    /// Those of the lines whose stack has no fault.
    pub profiles: Profiles,
    /// The faults of the others.
    pub errors: PlaceNotes,
    /// The bad lines of all directories that were read.
    pub notes: PlaceNotes,
    /// Their paths, in the order in which they were read.
    pub directories: Texts,
}

/// Reads the directories that the lines reach, and folds their stacks over the repository's own masks.
pub(crate) fn read_profiles<T: Tree>(
    alloc: Global,
    reader: &mut Reader,
    tree: &mut T,
    names: &Layout,
    masks: &NamedFiles,
    lines: &DescLines,
) -> Result<Profiled, LoadFault>
    requires knows { Knows (T.files tree.old) reader.old }
    requires names { names.now ≡ layout }
    requires lines { AreNumbered lines.now }
    ensures own { IfOk result (λ p. HaveOwnLines p.profiles) }
    ensures reads { Reads T.failed_at (view T.files T.faults T.entered T.lent) tree.old tree.new (λ look. profiles_steps look lines.now) (λ look value. value ≡ profiled_of look masks.now lines.now) reader.old reader.new result }
{
    let reached = read_dirs(alloc, reader, tree, names, lines)?;
    let folds = fold_lines(alloc, &reached.dirs, masks, lines)?;
    Ok(with_notes(alloc, folds, reached)?)
}

fn add_dir_notes(
    alloc: Global,
    notes: &mut PlaceNotes,
    dirs: &Dirs,
    dir: &Text,
) -> Result<(), NoMemory>
    ensures { OnOk result (notes.new ≡ notes.old ++ notes_at dir.now (finite.get dirs.now dir.now)) }
{
    match dirs.get(dir.bytes()) {
        Some(files) => {
            let more = dir_notes(alloc, dir, files)?;
            add_notes(alloc, notes, &more)?;
            Ok(())
        }
        None => Ok(()),
    }
}

fn notes_in(alloc: Global, reached: &Reached) -> Result<PlaceNotes, NoMemory>
    ensures { IfOk result (λ notes. notes ≡ notes_in (finite.get reached.now.dirs) reached.now.order) }
{
    let mut notes = PlaceNotes::new(alloc);
    for dir in reached.order.items() {
        add_dir_notes(alloc, &mut notes, &reached.dirs, dir)?;
    }
    Ok(notes)
}

fn with_notes(alloc: Global, folds: Folds, reached: Reached) -> Result<Profiled, NoMemory>
    ensures { IfOk result (λ p. p ≡ record { profiles = folds.profiles; errors = folds.errors; notes = notes_in (finite.get reached.dirs) reached.order; directories = reached.order }) }
{
    let Folds { profiles, errors } = folds;
    let notes = notes_in(alloc, &reached)?;
    Ok(Profiled {
        profiles,
        errors,
        notes,
        directories: reached.order,
    })
}
