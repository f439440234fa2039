//! What the stacks of one load are folded from. Each file of masks or flags is parsed once, when a stack first comes to it.
//!
//! The first visit of a directory costs O(the bytes of its files of masks and flags), each later one O(log n) comparisons of
//! paths for n directories; each visit costs a copy of its good lines. The lines of all visited directories are kept.
ghost use Rattle.std.specs.Prelude.{◌≡◌, ◌++◌, Some, IfOk, OnOk};
ghost use Rattle.std.specs.FinMap as finite;
ghost use Rattle.std.specs.Option.{option_copied};
ghost use Rattle.gv_base.specs.ByteMap.{map_of};
ghost use Rattle.gv_profile.specs.FlagRules.{dir_rules};
ghost use Rattle.gv_profile.specs.MaskLines.{mask_lines};
ghost use Rattle.gv_profile.specs.Sources.{lines_of};

use crate::dirs::put_at;
use crate::flag_rules::{add_copies, add_dir_rules};
use crate::mask_lines::{MaskLines, add_mask_lines};
use crate::{DirFiles, Dirs, NamedFiles};
use gv_base::{NoMemory, Text, map_law};
use gv_facts::Rules;
use std::alloc::Global;
use std::collections::BTreeMap;
use std::marker::Model;

/// What the files of a directory say of masks and flags.
#[derive(Drop)]
pub(crate) struct DirLines {
    masks: MaskLines,
    rules: Rules,
}

/// Directories, and the repository's own mask files, which come before those of a stack.
#[derive(Drop)]
pub struct Sources<'a> {
    alloc: Global,
    dirs: &'a Dirs,
    first: &'a NamedFiles,
    // Of the files that were visited what they say.
    first_lines: Option<MaskLines>,
    lines: BTreeMap<Vec<u8>, DirLines>,
}

impl<'a> Model for Sources<'a> {
    ghost use Rattle.gv_base.specs.ByteMap.{map_of};
    ghost use Rattle.gv_profile.specs.Sources.{AreParsed, Sources, coded_sources};

    ghost Value = { Sources };

    ghost coded = { coded_sources };

    ghost view = { λ s. record { dirs = s.dirs.now; first = s.first.now } };

    ghost invariant = { λ s. AreParsed s.dirs.now (map_of s.lines.entries) s.first.now s.first_lines };
}

impl<'a> Sources<'a> {
    /// These directories and mask files. Takes no memory.
    pub fn of(alloc: Global, dirs: &'a Dirs, first: &'a NamedFiles) -> Sources<'a>
        ensures { result ≡ record { dirs = dirs.now; first = first.now } }
    {
        Sources {
            alloc,
            dirs,
            first,
            first_lines: None,
            lines: BTreeMap::new(alloc),
        }
    }

    /// The directories.
    pub(crate) fn dirs(&self) -> &'a Dirs
        ensures { result.now ≡ self.now.dirs }
    {
        self.dirs
    }

    /// The mask files.
    pub(crate) fn first(&self) -> &'a NamedFiles
        ensures { result.now ≡ self.now.first }
    {
        self.first
    }

    /// Adds the lines of the mask files that come before those of a stack.
    pub(crate) fn add_first(&mut self, masks: &mut MaskLines) -> Result<(), NoMemory>
        ensures same { self.new ≡ self.old }
        ensures masks { OnOk result (masks.new ≡ masks.old ++ mask_lines self.old.first) }
    {
        let lines = match self.first_lines.take() {
            Some(lines) => lines,
            None => parsed(self.alloc, self.first)?,
        };
        masks.add_copies(self.alloc, &lines)?;
        self.first_lines = Some(lines);
        Ok(())
    }

    /// Adds what the files of a directory say.
    pub(crate) fn add_dir(
        &mut self,
        dir: &Text,
        files: &DirFiles,
        masks: &mut MaskLines,
        rules: &mut Rules,
    ) -> Result<(), NoMemory>
        requires { finite.get self.old.dirs dir.now ≡ Some files.now }
        ensures same { self.new ≡ self.old }
        ensures masks { OnOk result (masks.new ≡ masks.old ++ mask_lines files.now.package_mask) }
        ensures rules { OnOk result (rules.new ≡ rules.old ++ dir_rules files.now) }
    {
        if let Some(lines) = lines_at(&self.lines, dir) {
            return add_lines(self.alloc, lines, masks, rules);
        }
        let lines = parsed_dir(self.alloc, files)?;
        add_lines(self.alloc, &lines, masks, rules)?;
        put_at(self.alloc, &mut self.lines, dir, lines)
    }
}

fn lines_at<'m>(kept: &'m BTreeMap<Vec<u8>, DirLines>, dir: &Text) -> Option<&'m DirLines>
    ensures { option_copied result ≡ finite.get (map_of kept.now.entries) dir.now }
{
    map_law::<DirLines>();
    match kept.get(dir.bytes()) {
        Some(lines) => Some(lines),
        None => None,
    }
}

fn parsed(alloc: Global, files: &NamedFiles) -> Result<MaskLines, NoMemory>
    ensures { IfOk result (λ lines. lines ≡ mask_lines files.now) }
{
    let mut lines = MaskLines::new(alloc);
    add_mask_lines(alloc, &mut lines, files)?;
    Ok(lines)
}

fn parsed_dir(alloc: Global, files: &DirFiles) -> Result<DirLines, NoMemory>
    ensures { IfOk result (λ lines. lines ≡ lines_of files.now) }
{
    let masks = parsed(alloc, &files.package_mask)?;
    let mut rules = Rules::new(alloc);
    add_dir_rules(alloc, &mut rules, files)?;
    Ok(DirLines { masks, rules })
}

// Adds copies of the lines of a directory.
fn add_lines(
    alloc: Global,
    lines: &DirLines,
    masks: &mut MaskLines,
    rules: &mut Rules,
) -> Result<(), NoMemory>
    ensures masks { OnOk result (masks.new ≡ masks.old ++ lines.now.masks) }
    ensures rules { OnOk result (rules.new ≡ rules.old ++ lines.now.rules) }
{
    masks.add_copies(alloc, &lines.masks)?;
    add_copies(alloc, rules, &lines.rules)
}
