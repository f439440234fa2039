//! The bad lines of a profile directory. Reading them costs O(bytes).
ghost use Rattle.std.specs.Prelude.{◌≡◌, ◌++◌, IfOk, OnOk};
ghost use Rattle.gv_defaults.specs.Assignments.{file_of};
ghost use Rattle.gv_profile.specs.BadLines.{parent_notes, shape_note, defaults_notes, head_notes, flag_notes, package_notes, dir_notes, mask_notes};
ghost use Rattle.gv_profile.specs.FlagLines.{bad_in, flag_line};
ghost use Rattle.gv_profile.specs.Lines.{line_words};
ghost use Rattle.gv_profile.specs.Names.{defaults_path};
ghost use Rattle.gv_profile.specs.Notes.{bad_parent, bad_mask, bad_line, line_notes, files_notes, notes_among};

use crate::flag_lines::{FlagLine, flag_line};
use crate::lines::line_words;
use crate::mask_lines::mask_in;
use crate::notes::{Bad, LineFile, add_note};
use crate::parent_files::is_parent;
use crate::walking::parent_path;
use crate::{DirFiles, NamedFiles, PlaceNotes};
use gv_base::{Cut, NoMemory, Text, next_number, next_piece};
use gv_defaults::{Vars, read_defaults};
use std::alloc::Global;

/// The bad lines of a directory's files, file by file in reading order: those of `parent` and of the mask and flag files,
/// and the first assignment of `make.defaults` that has no good form. `eapi` has none.
pub fn dir_notes(alloc: Global, dir: &Text, files: &DirFiles) -> Result<PlaceNotes, NoMemory>
    ensures { IfOk result (λ notes. notes ≡ dir_notes dir.now files.now) }
{
    let mut notes = PlaceNotes::new(alloc);
    add_head_notes(alloc, &mut notes, dir, files)?;
    add_flag_notes(alloc, &mut notes, files)?;
    add_files_notes(alloc, &mut notes, LineFile::MaskFile, &files.package_mask)?;
    add_package_notes(alloc, &mut notes, files)?;
    Ok(notes)
}

/// The bad lines of mask files, as the repository's own.
pub fn mask_notes(alloc: Global, files: &NamedFiles) -> Result<PlaceNotes, NoMemory>
    ensures { IfOk result (λ notes. notes ≡ mask_notes files.now) }
{
    let mut notes = PlaceNotes::new(alloc);
    add_files_notes(alloc, &mut notes, LineFile::MaskFile, files)?;
    Ok(notes)
}

fn bad_parent(words: &[Text]) -> Option<Bad>
    ensures { result ≡ bad_parent words.now }
{
    match words {
        [] => None,
        [word] => {
            if is_parent(word.bytes()) {
                None
            } else {
                Some(Bad::Line)
            }
        }
        _ => Some(Bad::Line),
    }
}

fn bad_mask(alloc: Global, words: &[Text]) -> Result<Option<Bad>, NoMemory>
    ensures { IfOk result (λ bad. bad ≡ bad_mask words.now) }
{
    match words {
        [] => Ok(None),
        _ => {
            let line = mask_in(alloc, words)?;
            let is_bad = line.is_none();
            drop(line);
            if is_bad {
                Ok(Some(Bad::AtomText))
            } else {
                Ok(None)
            }
        }
    }
}

fn bad_flags(alloc: Global, by_package: bool, words: &[Text]) -> Result<Option<Bad>, NoMemory>
    ensures { IfOk result (λ bad. bad ≡ bad_in (flag_line by_package words.now)) }
{
    match flag_line(alloc, by_package, words)? {
        FlagLine::Blank => Ok(None),
        FlagLine::Good { .. } => Ok(None),
        FlagLine::Bad { bad } => Ok(Some(bad)),
    }
}

fn bad_line(alloc: Global, kind: LineFile, words: &[Text]) -> Result<Option<Bad>, NoMemory>
    ensures { IfOk result (λ bad. bad ≡ bad_line kind words.now) }
{
    match kind {
        LineFile::ParentFile => Ok(bad_parent(words)),
        LineFile::MaskFile => bad_mask(alloc, words),
        LineFile::FlagFile => bad_flags(alloc, false, words),
        LineFile::PackageFile => bad_flags(alloc, true, words),
    }
}

fn add_line_notes(
    alloc: Global,
    notes: &mut PlaceNotes,
    kind: LineFile,
    path: &Text,
    bytes: &[u8],
) -> Result<(), NoMemory>
    ensures { OnOk result (notes.new ≡ notes.old ++ line_notes kind path.now bytes.now) }
{
    let mut rest = Some(bytes);
    let mut line = 1u32;
    while let Some(piece) = next_piece(&mut rest, Cut::Lines) {
        let words = line_words(alloc, piece)?;
        match bad_line(alloc, kind, words.items())? {
            Some(bad) => add_note(alloc, notes, path, line, bad)?,
            None => {}
        }
        line = next_number(line)?;
    }
    Ok(())
}

fn add_files_notes(
    alloc: Global,
    notes: &mut PlaceNotes,
    kind: LineFile,
    files: &NamedFiles,
) -> Result<(), NoMemory>
    ensures { OnOk result (notes.new ≡ notes.old ++ files_notes kind files.now) }
{
    for file in files.items() {
        add_line_notes(alloc, notes, kind, &file.path, file.bytes.bytes())?;
    }
    Ok(())
}

fn add_parent_notes(
    alloc: Global,
    notes: &mut PlaceNotes,
    dir: &Text,
    parent: &Option<Text>,
) -> Result<(), NoMemory>
    ensures { OnOk result (notes.new ≡ notes.old ++ parent_notes dir.now parent.now) }
{
    match parent {
        Some(bytes) => {
            let path = parent_path(alloc, dir)?;
            add_line_notes(alloc, notes, LineFile::ParentFile, &path, bytes.bytes())
        }
        None => Ok(()),
    }
}

#[tactic(auto, unfolding(crate::specs::Names::defaults_path))]
fn defaults_path(alloc: Global, dir: &Text) -> Result<Text, NoMemory>
    ensures { IfOk result (λ path. path ≡ defaults_path dir.now) }
{
    let mut path = dir.copy(alloc)?;
    path.append(b"/make.defaults")?;
    Ok(path)
}

fn add_shape_note(
    alloc: Global,
    notes: &mut PlaceNotes,
    dir: &Text,
    bad: Option<u32>,
) -> Result<(), NoMemory>
    ensures { OnOk result (notes.new ≡ notes.old ++ shape_note dir.now bad) }
{
    match bad {
        Some(line) => {
            let path = defaults_path(alloc, dir)?;
            add_note(alloc, notes, &path, line, Bad::Assignment)
        }
        None => Ok(()),
    }
}

fn shape_fault(alloc: Global, bytes: &Text) -> Result<Option<u32>, NoMemory>
    ensures { IfOk result (λ bad. bad ≡ (file_of bytes.now).bad) }
{
    let before = Vars::new(alloc);
    let read = read_defaults(alloc, bytes.bytes(), &before)?;
    Ok(read.bad)
}

fn add_defaults_notes(
    alloc: Global,
    notes: &mut PlaceNotes,
    dir: &Text,
    defaults: &Option<Text>,
) -> Result<(), NoMemory>
    ensures { OnOk result (notes.new ≡ notes.old ++ defaults_notes dir.now defaults.now) }
{
    match defaults {
        Some(bytes) => {
            let bad = shape_fault(alloc, bytes)?;
            add_shape_note(alloc, notes, dir, bad)
        }
        None => Ok(()),
    }
}

fn add_head_notes(
    alloc: Global,
    notes: &mut PlaceNotes,
    dir: &Text,
    files: &DirFiles,
) -> Result<(), NoMemory>
    ensures { OnOk result (notes.new ≡ notes.old ++ head_notes dir.now files.now) }
{
    add_parent_notes(alloc, notes, dir, &files.parent)?;
    add_defaults_notes(alloc, notes, dir, &files.defaults)
}

fn add_flag_notes(alloc: Global, notes: &mut PlaceNotes, files: &DirFiles) -> Result<(), NoMemory>
    ensures { OnOk result (notes.new ≡ notes.old ++ flag_notes files.now) }
{
    add_files_notes(alloc, notes, LineFile::FlagFile, &files.use_mask)?;
    add_files_notes(alloc, notes, LineFile::FlagFile, &files.use_force)?;
    add_files_notes(alloc, notes, LineFile::FlagFile, &files.use_stable_mask)?;
    add_files_notes(alloc, notes, LineFile::FlagFile, &files.use_stable_force)
}

fn add_package_notes(
    alloc: Global,
    notes: &mut PlaceNotes,
    files: &DirFiles,
) -> Result<(), NoMemory>
    ensures { OnOk result (notes.new ≡ notes.old ++ package_notes files.now) }
{
    add_files_notes(alloc, notes, LineFile::PackageFile, &files.package_use_mask)?;
    add_files_notes(
        alloc,
        notes,
        LineFile::PackageFile,
        &files.package_use_force,
    )?;
    add_files_notes(
        alloc,
        notes,
        LineFile::PackageFile,
        &files.package_use_stable_mask,
    )?;
    add_files_notes(
        alloc,
        notes,
        LineFile::PackageFile,
        &files.package_use_stable_force,
    )
}
