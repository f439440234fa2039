//! All edits in order, with what they come to.
//!
//! A put or a cut costs O(log n) comparisons of paths for n edited paths, and the copies of its path and bytes. The bytes of
//! a put are kept once, and no longer than until the path is put again or cut. A look-up costs O(log n) comparisons.
ghost use Rattle.std.specs.Prelude.{◌≡◌, ◌↔◌, ◌<◌, ◌⊎◌, List, [], ◌∷◌, ◌++◌, true, false, length, IfOk, OnOk, OnErr, IsErrOf, ◌≤◌, option_map, slice_get};
ghost use Rattle.std.specs.Option.{option_copied};
ghost use Rattle.std.specs.FinMap.{get, contains_key};
ghost use Rattle.gv_base.specs.Listing.{is_folder, names_below};
ghost use Rattle.gv_base.specs.Paths.{is_path};
ghost use Rattle.gv_edits.specs.Edits.{edit_path};
ghost use Rattle.gv_edits.specs.Kept.{put_files, cut_paths, are_short};
ghost use Rattle.gv_edits.specs.declared.edit.Edit.TheVariants.{Put, Cut};

use crate::{EditFault, MAX_PATH_BYTES};
use gv_base::{Files, MAX_FILE_BYTES, NoMemory, Text, Texts, is_path};
use std::alloc::Global;
use std::marker::Model;
use std::snapshot::Snapshot;

/// Edits in order, seen as the list of them.
#[derive(Drop)]
pub struct Edits {
    alloc: Global,
    list: Vec<Done>,
    puts: Files,
    cuts: Files,
}

// An edit that was done: its path, and for contracts alone the files that were put then and not cut since.
#[derive(Drop)]
struct Done {
    path: Text,
    puts: Snapshot<Files>,
}

impl Model for Edits {
    ghost use Rattle.std.specs.Prelude.{◌≡◌, List, true, map};
    ghost use Rattle.gv_edits.specs.declared.edit.Edit.{Edit};

    ghost Value = { List Edit };

    ghost use Rattle.gv_edits.specs.Kept.{put_files, cut_paths, are_short, edit_of};

    ghost view = { λ e. map (λ d. edit_of d.path d.puts.value) e.list.items };

    ghost invariant = { λ e.
        (e.puts ≡ put_files (map (λ d. edit_of d.path d.puts.value) e.list.items))
        × (e.cuts ≡ cut_paths (map (λ d. edit_of d.path d.puts.value) e.list.items))
        × (are_short (map (λ d. edit_of d.path d.puts.value) e.list.items) ≡ true) };
}

impl Edits {
    /// No edits.
    pub fn new(alloc: Global) -> Edits
        ensures { result ≡ [] }
    {
        Edits {
            alloc,
            list: Vec::new(alloc),
            puts: Files::new(alloc),
            cuts: Files::new(alloc),
        }
    }

    /// Sets a path. `BadPath` comes exactly where the bytes are no path, and `Limit` exactly where they are one and it has
    /// more than `MAX_PATH_BYTES` bytes or the file more than `MAX_FILE_BYTES`. After a refusal the edits are unchanged.
    pub fn put(&mut self, path: &[u8], bytes: &[u8]) -> Result<(), EditFault>
        ensures ok { OnOk result (self.new ≡ self.old ++ Put path.now bytes.now ∷ []) }
        ensures err { OnErr result (self.new ≡ self.old) }
        ensures bad_path { IsErrOf result EditFault.BadPath ↔ (is_path path.now ≡ false) }
        ensures limit { IsErrOf result EditFault.Limit ↔ ((is_path path.now ≡ true) × ((MAX_PATH_BYTES < length path.now) ⊎ (MAX_FILE_BYTES < length bytes.now))) }
    {
        if !is_path(path) {
            return Err(EditFault::BadPath);
        }
        if path.len() as u64 > MAX_PATH_BYTES || bytes.len() as u64 > MAX_FILE_BYTES {
            return Err(EditFault::Limit);
        }
        self.add_put(path, bytes)?;
        Ok(())
    }

    /// Removes a path. `BadPath` comes exactly where the bytes are no path, and `Limit` exactly where they are one and it
    /// has more than `MAX_PATH_BYTES` bytes. After a refusal the edits are unchanged.
    pub fn cut(&mut self, path: &[u8]) -> Result<(), EditFault>
        ensures ok { OnOk result (self.new ≡ self.old ++ Cut path.now ∷ []) }
        ensures err { OnErr result (self.new ≡ self.old) }
        ensures bad_path { IsErrOf result EditFault.BadPath ↔ (is_path path.now ≡ false) }
        ensures limit { IsErrOf result EditFault.Limit ↔ ((is_path path.now ≡ true) × (MAX_PATH_BYTES < length path.now)) }
    {
        if !is_path(path) {
            return Err(EditFault::BadPath);
        }
        if path.len() as u64 > MAX_PATH_BYTES {
            return Err(EditFault::Limit);
        }
        self.add_cut(path)?;
        Ok(())
    }

    /// How many edits there are.
    pub fn len(&self) -> usize
        ensures { result ≡ length self.now }
    {
        self.list.len()
    }

    /// The path of the edit at a place, from 0, and `None` exactly behind the last.
    pub fn path(&self, place: usize) -> Option<&Text>
        ensures { option_copied result ≡ option_map edit_path (slice_get self.now place) }
    {
        match self.list.get(place) {
            Some(done) => Some(&done.path),
            None => None,
        }
    }

    fn add_put(&mut self, path: &[u8], bytes: &[u8]) -> Result<(), NoMemory>
        requires path { length path.now ≤ 4096 }
        requires bytes { length bytes.now ≤ 16777216 }
        ensures ok { OnOk result (self.new ≡ self.old ++ Put path.now bytes.now ∷ []) }
        ensures err { OnErr result (self.new ≡ self.old) }
    {
        let text = Text::of(self.alloc, path)?;
        self.list.reserve(1)?;
        self.puts.put(path, bytes)?;
        self.cuts.cut(path);
        self.list.push_reserved(Done {
            path: text,
            puts: Snapshot::of(&self.puts),
        });
        Ok(())
    }

    fn add_cut(&mut self, path: &[u8]) -> Result<(), NoMemory>
        requires { length path.now ≤ 4096 }
        ensures ok { OnOk result (self.new ≡ self.old ++ Cut path.now ∷ []) }
        ensures err { OnErr result (self.new ≡ self.old) }
    {
        let text = Text::of(self.alloc, path)?;
        self.list.reserve(1)?;
        self.cuts.put(path, &[])?;
        self.puts.cut(path);
        self.list.push_reserved(Done {
            path: text,
            puts: Snapshot::of(&self.puts),
        });
        Ok(())
    }

    // The bytes that were put at a path, unless it was cut since.
    pub(crate) fn put_at(&self, path: &[u8]) -> Option<&[u8]>
        ensures value { option_copied result ≡ get (put_files self.now) path.now }
        ensures short { are_short self.now ≡ true }
    {
        self.puts.get(path)
    }

    // Whether a path was cut and not put since.
    pub(crate) fn is_cut(&self, path: &[u8]) -> bool
        ensures { result ≡ contains_key (cut_paths self.now) path.now }
    {
        self.cuts.get(path).is_some()
    }

    // Whether a file that was put is below the path.
    pub(crate) fn has_put_below(&self, path: &[u8]) -> Result<bool, NoMemory>
        ensures { IfOk result (λ has. has ≡ is_folder (put_files self.now) path.now) }
    {
        self.puts.is_folder(path)
    }

    // Whether a path that was cut is below the path.
    pub(crate) fn has_cut_below(&self, path: &[u8]) -> Result<bool, NoMemory>
        ensures { IfOk result (λ has. has ≡ is_folder (cut_paths self.now) path.now) }
    {
        self.cuts.is_folder(path)
    }

    // The next parts of the files below the path that were put.
    pub(crate) fn put_names_below(&self, alloc: Global, path: &[u8]) -> Result<Texts, NoMemory>
        ensures { IfOk result (λ names. names ≡ names_below (put_files self.now) path.now) }
    {
        self.puts.names_below(alloc, path)
    }

    // Tells the prover that the edits are short.
    pub(crate) fn tell(&self)
        ensures { are_short self.now ≡ true }
    {
        let _ = &self.alloc;
    }
}
