//! The paths of edited entries.
//!
//! A path that is added costs O(its bytes) and O(log n) comparisons of texts among n paths. `is_edited`, `is_of` and `is_named` take no
//! memory and cost what look-ups of `joined` do. `are_in` takes none and costs O(n) comparisons of the paths' beginnings.
ghost use Rattle.std.specs.Prelude.{◌≡◌, [], ◌∷◌, ◌++◌, ◌||◌, ℕ, List, map, IfOk, OnErr, OnOk};
ghost use Rattle.std.specs.Option.{is_some};
ghost use Rattle.std.specs.Str.{bytes_eq};
ghost use Rattle.gv_base.specs.Cut.{after_prefix};
ghost use Rattle.gv_base.specs.Order.{has_text};
ghost use Rattle.gv_reading.specs.Paths.{within};
ghost use Rattle.gv_load.specs.Paths.{entry_path};
ghost use Rattle.gv_reload.specs.EntryEdits.{entry_name, is_edited, is_edited_in};

use crate::entry_paths::entry_parts;
use crate::joined::Joined;
use gv_base::{NoMemory, Text, Texts, after_prefix};
use gv_load::name_in;
use gv_reading::within;
use gv_report::Subject;
use std::alloc::Global;
use std::marker::Model;
use std::mem;

/// The paths of edited entries, as they were added.
#[derive(Drop)]
pub struct EntryEdits {
    paths: Texts,
    // what follows the folder of entries
    entries: Joined,
    // of the packages
    names: Joined,
}

impl Model for EntryEdits {
    ghost use Rattle.std.specs.Prelude.{List, ℕ};
    ghost use Rattle.gv_reload.specs.EditKeys.{AreKeys};

    ghost Value = { List (List ℕ) };

    ghost view = { λ e. e.paths };

    ghost invariant = { λ e. AreKeys e.paths e.entries e.names };
}

impl EntryEdits {
    /// No paths.
    pub fn new(alloc: Global) -> EntryEdits
        ensures { result ≡ [] }
    {
        EntryEdits {
            paths: Texts::new(alloc),
            entries: Joined::new(alloc),
            names: Joined::new(alloc),
        }
    }

    /// Adds a path. After an error none is left.
    pub fn add(&mut self, alloc: Global, path: &Text) -> Result<(), NoMemory>
        ensures ok { OnOk result (self.new ≡ self.old ++ path.now ∷ []) }
        ensures err { OnErr result (self.new ≡ []) }
    {
        let edits = mem::replace(self, EntryEdits::new(alloc));
        *self = with_path(alloc, edits, path)?;
        Ok(())
    }

    /// The paths, as they were added.
    pub fn paths(&self) -> &[Text]
        ensures { result.now ≡ self.now }
    {
        self.paths.items()
    }

    /// CATEGORY/NAME of each path, in the order of these.
    pub fn names(&self) -> &[Text]
        ensures { result.now ≡ map entry_name self.now }
    {
        self.names.items()
    }

    /// Whether the entry of this PF is edited.
    pub fn is_edited(&self, category: &Text, pf: &Text) -> bool
        ensures { result ≡ has_text self.now (entry_path category.now pf.now) }
    {
        self.entries.has(category, pf)
    }

    /// Whether this is a package whose entry is edited.
    pub fn is_of(&self, subject: &Subject) -> bool
        ensures { result ≡ is_edited self.now subject.now }
    {
        match subject {
            Subject::Place { .. } => false,
            Subject::Package { category, pf, .. } => self.is_edited(category, pf),
        }
    }

    /// Whether an entry of this category is edited.
    pub fn are_in(&self, category: &Text) -> bool
        ensures { result ≡ is_edited_in self.now category.now }
    {
        any_in(self.paths.items(), category.bytes())
    }

    /// Whether an entry of a package of this name is edited.
    pub fn is_named(&self, category: &Text, name: &Text) -> bool
        ensures { result ≡ has_text (map entry_name self.now) (within category.now name.now) }
    {
        self.names.has(category, name)
    }
}

fn any_in(paths: &[Text], category: &[u8]) -> bool
    ensures { result ≡ is_edited_in paths.now category.now }
{
    for path in paths {
        if is_in(path.bytes(), category) {
            return true;
        }
    }
    false
}

fn is_in(path: &[u8], category: &[u8]) -> bool
    ensures { result ≡ is_some (after_prefix (entry_path category.now []) path.now) }
{
    match after_prefix(b"metadata/md5-cache/", path) {
        Some(rest) => is_below(category, rest),
        None => false,
    }
}

fn is_below(folder: &[u8], path: &[u8]) -> bool
    ensures { result ≡ is_some (after_prefix (folder.now ++ 47 ∷ []) path.now) }
{
    match after_prefix(folder, path) {
        Some(rest) => is_slash_first(rest),
        None => false,
    }
}

fn is_slash_first(path: &[u8]) -> bool
    ensures { result ≡ is_some (after_prefix (47 ∷ []) path.now) }
{
    match after_prefix(b"/", path) {
        Some(_) => true,
        None => false,
    }
}

fn with_path(alloc: Global, edits: EntryEdits, path: &Text) -> Result<EntryEdits, NoMemory>
    ensures { IfOk result (λ edits_. edits_ ≡ edits ++ path.now ∷ []) }
{
    let EntryEdits {
        mut paths,
        entries,
        names,
    } = edits;
    let names = names.with(alloc, entry_name(alloc, path)?)?;
    let entries = with_entry(alloc, entries, path)?;
    paths.add(path.copy(alloc)?)?;
    Ok(EntryEdits {
        paths,
        entries,
        names,
    })
}

// A path outside the folder of entries is that of none.
fn with_entry(alloc: Global, entries: Joined, path: &Text) -> Result<Joined, NoMemory>
    ensures { IfOk result (λ more. (category pf : List ℕ) → has_text more (within category pf) ≡ (bytes_eq (entry_path category pf) path.now || has_text entries (within category pf))) }
{
    match after_prefix(b"metadata/md5-cache/", path.bytes()) {
        Some(rest) => {
            let more = entries.with(alloc, Text::of(alloc, rest)?)?;
            Ok(more)
        }
        None => Ok(entries),
    }
}

// CATEGORY/NAME of the package of an entry's path.
fn entry_name(alloc: Global, path: &Text) -> Result<Text, NoMemory>
    ensures { IfOk result (λ name. name ≡ entry_name path.now) }
{
    match entry_parts(path.bytes()) {
        Some((category, pf)) => within(alloc, &Text::of(alloc, category)?, name_in(pf)?),
        None => Text::of(alloc, b""),
    }
}
