//! The parents of a profile directory. Reading them costs O(bytes), and for each line the bytes of the directory's path.
ghost use Rattle.std.specs.Prelude.{◌≡◌, ◌==◌, ◌++◌, ◌∷◌, [], OnOk, OnErr, IfOk};
ghost use Rattle.std.specs.List.{list_any};
ghost use Rattle.std.specs.Str.{byte};
ghost use Rattle.gv_profile.specs.ParentWords.{is_parent};
ghost use Rattle.gv_profile.specs.ParentFiles.{parent_in, parent_lines};
ghost use Rattle.gv_profile.specs.Lines.{line_words};

use crate::lines::line_words;
use crate::paths::{is_relative, resolve};
use gv_base::{Cut, NoMemory, Text, next_number, next_piece};
use std::alloc::Global;
use std::marker::Model;

/// A good line of a `parent` file.
#[derive(Drop)]
pub struct ParentLine {
    /// The path of the parent, `None` where it leaves the root or is the root.
    pub path: Option<Text>,
    /// From 1.
    pub line: u32,
}

impl ParentLine {
    /// An equal line.
    pub fn copy(&self, alloc: Global) -> Result<ParentLine, NoMemory>
        ensures { IfOk result (λ line. line ≡ self.now) }
    {
        Ok(ParentLine {
            path: copy_path(alloc, &self.path)?,
            line: self.line,
        })
    }
}

/// A list of parents, in their order.
#[derive(Drop)]
pub struct ParentLines {
    items: Vec<ParentLine>,
}

impl Model for ParentLines {
    ghost use Rattle.std.specs.Prelude.{List};
    ghost use Rattle.gv_profile.specs.declared.parent_files.ParentLine.{ParentLine};

    ghost Value = { List ParentLine };

    ghost view = { λ l. l.items.items };
}

impl ParentLines {
    /// No parents.
    pub fn new(alloc: Global) -> Self
        ensures { result ≡ [] }
    {
        ParentLines {
            items: Vec::new(alloc),
        }
    }

    /// Adds a parent at the end. After an error the list is unchanged.
    pub fn add(&mut self, item: ParentLine) -> Result<(), NoMemory>
        ensures ok { OnOk result (self.new ≡ self.old ++ item ∷ []) }
        ensures err { OnErr result (self.new ≡ self.old) }
    {
        self.items.push(item)?;
        Ok(())
    }

    /// The parents, in order.
    pub fn items(&self) -> &[ParentLine]
        ensures { result.now ≡ self.now }
    {
        &self.items
    }

    /// An equal list.
    pub fn copy(&self, alloc: Global) -> Result<Self, NoMemory>
        ensures { IfOk result (λ lines. lines ≡ self.now) }
    {
        let mut lines = ParentLines::new(alloc);
        for item in self.items() {
            lines.add(item.copy(alloc)?)?;
        }
        Ok(lines)
    }
}

/// Whether a word is a relative path without a colon.
pub(crate) fn is_parent(word: &[u8]) -> bool
    ensures { result ≡ is_parent word.now }
{
    is_relative(word) && !has_colon(word)
}

/// The parents that the bytes of a directory's `parent` file name, each with its line: those of the lines with one word,
/// a relative path without a colon. A path is taken from the directory, and is `None` exactly where it leaves the root or
/// is the root.
pub fn parents(alloc: Global, dir: &Text, bytes: &[u8]) -> Result<ParentLines, NoMemory>
    ensures { IfOk result (λ lines. lines ≡ parent_lines dir.now bytes.now) }
{
    let mut lines = ParentLines::new(alloc);
    let mut rest = Some(bytes);
    let mut line = 1u32;
    while let Some(piece) = next_piece(&mut rest, Cut::Lines) {
        let words = line_words(alloc, piece)?;
        match parent_in(alloc, dir, line, words.items())? {
            Some(parent) => lines.add(parent)?,
            None => {}
        }
        line = next_number(line)?;
    }
    Ok(lines)
}

fn copy_path(alloc: Global, path: &Option<Text>) -> Result<Option<Text>, NoMemory>
    ensures { IfOk result (λ copied. copied ≡ path.now) }
{
    match path {
        Some(path) => Ok(Some(path.copy(alloc)?)),
        None => Ok(None),
    }
}

fn has_colon(word: &[u8]) -> bool
    ensures { result ≡ list_any (λ b. b == byte ":") word.now }
{
    for b in word {
        if *b == b':' {
            return true;
        }
    }
    false
}

fn parent_in(
    alloc: Global,
    dir: &Text,
    line: u32,
    words: &[Text],
) -> Result<Option<ParentLine>, NoMemory>
    ensures { IfOk result (λ parent. parent ≡ parent_in dir.now line words.now) }
{
    match words {
        [] => Ok(None),
        [word] => {
            if !is_parent(word.bytes()) {
                return Ok(None);
            }
            let path = resolve(alloc, dir.bytes(), word.bytes())?;
            Ok(Some(ParentLine { path, line }))
        }
        _ => Ok(None),
    }
}
