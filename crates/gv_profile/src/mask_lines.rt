//! The lines of `package.mask` files, and the masks that they come to.
//!
//! Reading costs O(bytes). `masks_of` goes through the lines once, from the last to the first, with the set of the texts
//! that the lines behind take away: O(n log n) comparisons for n lines, however many of them take something away.
ghost use Rattle.std.specs.Prelude.{◌≡◌, ◌++◌, ◌∷◌, [], List, ℕ, reverse, IfOk, OnOk, OnErr};
ghost use Rattle.gv_facts.specs.declared.masks.Mask as declared_mask;
ghost use Rattle.gv_atom.specs.Reading.{read_atom};
ghost use Rattle.gv_profile.specs.Behind.{still};
ghost use Rattle.gv_profile.specs.MaskLines.{plain, file_atom, adding, mask_of, mask_in, mask_lines, mask_after, masks_among, masks_of};
ghost use Rattle.gv_profile.specs.Lines.{file_lines};

use crate::NamedFiles;
use crate::lines::line_words;
use crate::room::MAX_LINES;
use gv_atom::{Atom, AtomFault, read_atom};
use gv_base::{Cut, NoMemory, Text, add_key, has_key, next_piece};
use gv_facts::{Mask, Masks};
use std::alloc::Global;
use std::collections::BTreeSet;
use std::marker::Model;

/// A good line of a `package.mask`.
#[derive(Drop)]
pub(crate) enum MaskLine {
    /// An atom and its text.
    Adds { mask: Mask },
    /// A hyphen and this text: every earlier line with the text is taken away.
    Takes { text: Text },
}

/// Lines in their order.
#[derive(Drop)]
pub(crate) struct MaskLines {
    items: Vec<MaskLine>,
}

impl MaskLine {
    fn copy(&self, alloc: Global) -> Result<MaskLine, NoMemory>
        ensures { IfOk result (λ line. line ≡ self.now) }
    {
        match self {
            MaskLine::Adds { mask } => Ok(MaskLine::Adds {
                mask: mask.copy(alloc)?,
            }),
            MaskLine::Takes { text } => Ok(MaskLine::Takes {
                text: text.copy(alloc)?,
            }),
        }
    }
}

impl Model for MaskLines {
    ghost use Rattle.std.specs.Prelude.{List};
    ghost use Rattle.gv_profile.specs.declared.mask_lines.MaskLine.{MaskLine};

    ghost Value = { List MaskLine };

    ghost view = { λ l. l.items.items };
}

impl MaskLines {
    pub(crate) fn new(alloc: Global) -> Self
        ensures { result ≡ [] }
    {
        MaskLines {
            items: Vec::new(alloc),
        }
    }

    fn add(&mut self, item: MaskLine) -> Result<(), NoMemory>
        ensures ok { OnOk result (self.new ≡ self.old ++ item ∷ []) }
        ensures err { OnErr result (self.new ≡ self.old) }
    {
        if self.items.len() >= MAX_LINES {
            return Err(NoMemory);
        }
        self.items.push(item)?;
        Ok(())
    }

    /// Adds copies of these lines.
    pub(crate) fn add_copies(&mut self, alloc: Global, lines: &MaskLines) -> Result<(), NoMemory>
        ensures { OnOk result (self.new ≡ self.old ++ lines.now) }
    {
        for line in &lines.items {
            self.add(line.copy(alloc)?)?;
        }
        Ok(())
    }

    fn into_items(self) -> Vec<MaskLine>
        ensures { result.items ≡ self }
    {
        self.items
    }
}

/// The atom of a word of a file under `profiles`, where it is one that blocks nothing and asks nothing of flags.
#[tactic(auto, unfolding(crate::specs::MaskLines::file_atom))]
pub fn file_atom(alloc: Global, bytes: &[u8]) -> Result<Option<Atom>, NoMemory>
    ensures { IfOk result (λ atom. atom ≡ file_atom bytes.now) }
{
    match any_atom(alloc, bytes)? {
        Some(atom) => Ok(plain(atom)),
        None => Ok(None),
    }
}

// What a word of a `package.mask` says.
fn mask_of(alloc: Global, word: &[u8]) -> Result<Option<MaskLine>, NoMemory>
    ensures { IfOk result (λ line. line ≡ mask_of word.now) }
{
    match word {
        [] => Ok(None),
        [b'-', text @ ..] => {
            let text = Text::of(alloc, text)?;
            Ok(Some(MaskLine::Takes { text }))
        }
        _ => adding(alloc, word),
    }
}

/// Adds the lines of mask files.
pub(crate) fn add_mask_lines(
    alloc: Global,
    lines: &mut MaskLines,
    files: &NamedFiles,
) -> Result<(), NoMemory>
    ensures { OnOk result (lines.new ≡ lines.old ++ mask_lines files.now) }
{
    for file in files.items() {
        add_lines(alloc, lines, file.bytes.bytes())?;
    }
    Ok(())
}

/// What is known of the lines from some place on.
#[derive(Drop)]
pub(crate) struct Behind {
    // The texts that they take away.
    taken: BTreeSet<Text>,
    // The masks that stay, the last first.
    kept: Vec<Mask>,
}

/// The masks that the lines come to: each is added at its turn, and `-text` takes every earlier one with this text away.
pub(crate) fn masks_of(alloc: Global, lines: MaskLines) -> Result<Masks, NoMemory>
    ensures { IfOk result (λ masks. masks ≡ masks_of lines) }
{
    let kept = look_back(alloc, lines.into_items())?;
    turned(alloc, kept)
}

fn plain(atom: Atom) -> Option<Atom>
    ensures { result ≡ plain atom }
{
    if !atom.is_blocker() && atom.items.items().is_empty() {
        Some(atom)
    } else {
        None
    }
}

fn any_atom(alloc: Global, bytes: &[u8]) -> Result<Option<Atom>, NoMemory>
    ensures { IfOk result (λ atom. atom ≡ read_atom bytes.now) }
{
    match read_atom(alloc, bytes) {
        Ok(atom) => Ok(Some(atom)),
        Err(AtomFault::Bad { .. }) => Ok(None),
        Err(AtomFault::NoMemory) => Err(NoMemory),
    }
}

fn adding(alloc: Global, text: &[u8]) -> Result<Option<MaskLine>, NoMemory>
    ensures { IfOk result (λ line. line ≡ adding text.now) }
{
    match file_atom(alloc, text)? {
        Some(atom) => {
            let text = Text::of(alloc, text)?;
            Ok(Some(MaskLine::Adds {
                mask: Mask { text, atom },
            }))
        }
        None => Ok(None),
    }
}

/// What a line of a `package.mask` with these words says, where it is a good one.
pub(crate) fn mask_in(alloc: Global, words: &[Text]) -> Result<Option<MaskLine>, NoMemory>
    ensures { IfOk result (λ line. line ≡ mask_in words.now) }
{
    match words {
        [word] => mask_of(alloc, word.bytes()),
        _ => Ok(None),
    }
}

fn add_lines(alloc: Global, lines: &mut MaskLines, bytes: &[u8]) -> Result<(), NoMemory>
    ensures { OnOk result (lines.new ≡ lines.old ++ masks_among (file_lines bytes.now)) }
{
    let mut rest = Some(bytes);
    while let Some(piece) = next_piece(&mut rest, Cut::Lines) {
        let words = line_words(alloc, piece)?;
        match mask_in(alloc, words.items())? {
            Some(line) => lines.add(line)?,
            None => {}
        }
    }
    Ok(())
}

// One line more, in front of those that were passed.
fn pass(behind: &mut Behind, line: MaskLine) -> Result<(), NoMemory>
    ensures { OnOk result ((masks : List declared_mask.Mask) → still behind.new masks ≡ still behind.old (mask_after masks line)) }
{
    match line {
        MaskLine::Adds { mask } => keep(behind, mask),
        MaskLine::Takes { text } => take(behind, text),
    }
}

fn keep(behind: &mut Behind, mask: Mask) -> Result<(), NoMemory>
    ensures { OnOk result ((masks : List declared_mask.Mask) → still behind.new masks ≡ still behind.old (masks ++ mask ∷ [])) }
{
    if has_key(&behind.taken, &mask.text) {
        return Ok(());
    }
    behind.kept.push(mask)?;
    Ok(())
}

fn take(behind: &mut Behind, text: Text) -> Result<(), NoMemory>
    ensures { OnOk result ((masks : List declared_mask.Mask) → still behind.new masks ≡ still behind.old (mask_after masks (MaskLine.Takes text))) }
{
    add_key(&mut behind.taken, text)?;
    Ok(())
}

// The masks that stay, the last first.
fn look_back(alloc: Global, mut lines: Vec<MaskLine>) -> Result<Vec<Mask>, NoMemory>
    ensures { IfOk result (λ kept. reverse kept.items ≡ masks_of lines.items) }
{
    let mut behind = Behind {
        taken: BTreeSet::new(alloc),
        kept: Vec::new(alloc),
    };
    while let Some(line) = lines.pop() {
        pass(&mut behind, line)?;
    }
    Ok(behind.kept)
}

fn turned(alloc: Global, mut kept: Vec<Mask>) -> Result<Masks, NoMemory>
    ensures { IfOk result (λ masks. masks ≡ reverse kept.items) }
{
    let mut masks = Masks::new(alloc);
    while let Some(mask) = kept.pop() {
        masks.add(mask)?;
    }
    Ok(masks)
}
