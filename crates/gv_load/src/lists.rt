//! The lists at the top of a repository and its own masks (PMS chapter 4). O(bytes), and the categories are sorted.
ghost use Rattle.std.specs.Prelude.{◌≡◌, ◌++◌, IfOk, OnOk};
ghost use Rattle.gv_load.specs.Categories.{category_in, categories_in};
ghost use Rattle.gv_reading.specs.Causes.{Knows, Reads, view};
ghost use Rattle.gv_load.specs.Notes.{bad_category, category_detail, category_notes, is_bad_category};
ghost use Rattle.gv_load.specs.Order.{list_steps};
ghost use Rattle.gv_load.specs.OwnLines.{AreNumbered};
ghost use Rattle.gv_load.specs.PartsRead.{lists_of, lists_with, top_paths};
ghost use Rattle.gv_profile.specs.Lines.{line_words};

use crate::paths::{categories_path, mask_path};
use gv_base::{Cut, NoMemory, Text, Texts, Tree, next_number, next_piece};
use gv_profile::{
    DescLines, DescRead, PlaceNote, PlaceNotes, desc_path, line_words, mask_notes, read_desc,
};
use gv_reading::{LoadFault, NamedFiles, Reader, read_files};
use gv_version::is_category;
use std::alloc::Global;

/// The paths that are read first.
#[derive(Drop)]
pub(crate) struct TopPaths {
    desc: Text,
    categories: Text,
    masks: Text,
}

/// What these paths say.
#[derive(Drop)]
pub(crate) struct Lists {
    pub lines: DescLines,
    /// In byte order, each once.
    pub categories: Texts,
    pub masks: NamedFiles,
    /// The bad lines of all three.
    pub notes: PlaceNotes,
}

/// The paths from the top of the repository: all three stand in its folder `profiles`.
pub(crate) fn top_paths(alloc: Global) -> Result<TopPaths, NoMemory>
    ensures { IfOk result (λ paths. paths ≡ top_paths) }
{
    Ok(TopPaths {
        desc: desc_path(alloc)?,
        categories: categories_path(alloc)?,
        masks: mask_path(alloc)?,
    })
}

/// Reads both lists, which have to be there, and the repository's own masks.
pub(crate) fn read_lists<T: Tree>(
    alloc: Global,
    reader: &mut Reader,
    tree: &mut T,
    paths: &TopPaths,
) -> Result<Lists, LoadFault>
    requires knows { Knows (T.files tree.old) reader.old }
    requires paths { paths.now ≡ top_paths }
    ensures lines { IfOk result (λ lists. AreNumbered lists.lines) }
    ensures reads { Reads T.failed_at (view T.files T.faults T.entered T.lent) tree.old tree.new (λ look. list_steps look) (λ look value. value ≡ lists_of look) reader.old reader.new result }
{
    let desc = reader.need(tree, &paths.desc)?;
    let categories = reader.need(tree, &paths.categories)?;
    let masks = read_files(alloc, reader, tree, &paths.masks)?;
    Ok(lists_with(alloc, &desc, &categories, masks)?)
}

/// Adds notes behind others.
pub(crate) fn add_notes(
    alloc: Global,
    notes: &mut PlaceNotes,
    more: &PlaceNotes,
) -> Result<(), NoMemory>
    ensures { OnOk result (notes.new ≡ notes.old ++ more.now) }
{
    for note in more.items() {
        notes.add(note.copy(alloc)?)?;
    }
    Ok(())
}

fn lists_with(
    alloc: Global,
    desc: &Text,
    categories: &Text,
    masks: NamedFiles,
) -> Result<Lists, NoMemory>
    ensures lists { IfOk result (λ lists. lists ≡ lists_with desc.now categories.now masks) }
    ensures lines { IfOk result (λ lists. AreNumbered lists.lines) }
{
    let DescRead { lines, mut notes } = read_desc(alloc, desc.bytes())?;
    add_notes(
        alloc,
        &mut notes,
        &category_notes(alloc, categories.bytes())?,
    )?;
    add_notes(alloc, &mut notes, &mask_notes(alloc, &masks)?)?;
    let categories = categories_in(alloc, categories.bytes())?;
    Ok(Lists {
        lines,
        categories,
        masks,
        notes,
    })
}

fn category_in(alloc: Global, words: &[Text]) -> Result<Option<Text>, NoMemory>
    ensures { IfOk result (λ category. category ≡ category_in words.now) }
{
    match words {
        [word] => {
            if is_category(word.bytes()) {
                Ok(Some(word.copy(alloc)?))
            } else {
                Ok(None)
            }
        }
        _ => Ok(None),
    }
}

fn categories_in(alloc: Global, bytes: &[u8]) -> Result<Texts, NoMemory>
    ensures { IfOk result (λ categories. categories ≡ categories_in bytes.now) }
{
    let mut categories = Texts::new(alloc);
    let mut rest = Some(bytes);
    while let Some(line) = next_piece(&mut rest, Cut::Lines) {
        let words = line_words(alloc, line)?;
        match category_in(alloc, words.items())? {
            Some(category) => categories.add(category)?,
            None => {}
        }
    }
    Ok(categories.in_order(alloc)?)
}

fn is_bad_category(words: &[Text]) -> bool
    ensures { result ≡ is_bad_category words.now }
{
    match words {
        [] => false,
        [word] => !is_category(word.bytes()),
        _ => true,
    }
}

#[tactic(auto, unfolding(crate::specs::Notes::category_detail))]
fn category_detail(alloc: Global) -> Result<Text, NoMemory>
    ensures { IfOk result (λ detail. detail ≡ category_detail) }
{
    Text::of(alloc, b"bad category")
}

fn bad_category(alloc: Global, line: u32, piece: &[u8]) -> Result<Option<PlaceNote>, NoMemory>
    ensures { IfOk result (λ note. note ≡ bad_category line (line_words piece.now)) }
{
    let words = line_words(alloc, piece)?;
    let is_bad = is_bad_category(words.items());
    drop(words);
    if !is_bad {
        return Ok(None);
    }
    let path = categories_path(alloc)?;
    let detail = category_detail(alloc)?;
    Ok(Some(PlaceNote { path, line, detail }))
}

fn category_notes(alloc: Global, bytes: &[u8]) -> Result<PlaceNotes, NoMemory>
    ensures { IfOk result (λ notes. notes ≡ category_notes bytes.now) }
{
    let mut notes = PlaceNotes::new(alloc);
    let mut rest = Some(bytes);
    let mut line = 1u32;
    while let Some(piece) = next_piece(&mut rest, Cut::Lines) {
        match bad_category(alloc, line, piece)? {
            Some(note) => notes.add(note)?,
            None => {}
        }
        line = next_number(line)?;
    }
    Ok(notes)
}
