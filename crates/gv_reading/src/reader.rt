//! Reads the paths of a tree, and keeps what it found, so that no path is read twice.
//!
//! A look-up costs O(log paths) comparisons. What was read is kept until the reader is dropped.
ghost use Rattle.std.specs.Prelude.{◌≡◌, ◌≤◌, ◌∷◌, [], Ok, Err, Some, length, IfOk, IfErr, OnOk, Option, option_copied, ◌⊎◌};
ghost use Rattle.std.specs.FinMap as finite;
ghost use Rattle.gv_base.specs.FileMap.{FileMap};
ghost use Rattle.gv_base.specs.Outside.{HasAtMost, most_file_bytes};
ghost use Rattle.gv_reading.specs.Causes.{Cause, IsOfPath, IsTold, Knows, Reads, around, look_in, view};
ghost use Rattle.gv_reading.specs.Look.{bytes_in, bytes_at, text_at};
ghost use Rattle.gv_reading.specs.Reader.{Seen, nothing};
ghost use Rattle.gv_reading.specs.Reading.{Asks, most_files, most_path, after_read, after_new, after_list, with_new, with_found, read, list, need, once};

use crate::LoadFault;
use crate::faults::{failed, limit, missing};
use gv_base::{Found, MAX_FILE_BYTES, NoMemory, Text, Texts, Tree, TreeFault, map_law};
use std::alloc::Global;
use std::collections::BTreeMap;
use std::marker::Model;

const MAX_PATH_BYTES: u64 = 4096;

/// How many files may be found.
pub const MAX_FILES: u64 = 400_000;

/// What was read of a tree. Nothing is said of it after an error: a load ends at its first one, and lets its reader go.
#[derive(Drop)]
pub struct Reader {
    alloc: Global,
    known: BTreeMap<Vec<u8>, Found>,
    found: u64,
}

impl Model for Reader {
    ghost use Rattle.gv_base.specs.ByteMap.{map_of};
    ghost use Rattle.gv_reading.specs.Reader.{Seen, coded_seen};

    ghost Value = { Seen };

    ghost coded = { coded_seen };

    ghost view = { λ r. record { known = map_of r.known.entries; found = r.found } };
}

impl Reader {
    /// Nothing was read.
    pub fn new(alloc: Global) -> Reader
        ensures is { result ≡ nothing }
        ensures knows { (told : Option FileMap) → Knows told result }
    {
        Reader::fresh(alloc)
    }

    // The same, by its value alone.
    fn fresh(alloc: Global) -> Reader
        ensures { result ≡ nothing }
    {
        Reader {
            alloc,
            known: BTreeMap::new(alloc),
            found: 0,
        }
    }

    /// How many files were found.
    pub fn found(&self) -> u64
        ensures { result ≡ self.now.found }
    {
        self.found
    }

    fn get(&self, path: &[u8]) -> Option<&Found>
        ensures { option_copied result ≡ finite.get self.now.known path.now }
    {
        map_law::<Found>();
        match self.known.get(path) {
            Some(found) => Some(found),
            None => None,
        }
    }

    // The number of files with what stands at a new path.
    fn count_with(&self, path: &Text, found: &Found) -> Result<u64, LoadFault>
        requires { HasAtMost most_file_bytes found.now }
        ensures ok { IfOk result (λ files. with_new self.now path.now found.now ≡ Ok (with_found self.now path.now found.now files)) }
        ensures err { IfErr result (λ fault. (fault ≡ LoadFault.NoMemory) ⊎ ((fault ≡ LoadFault.Limit path.now most_files) × (with_new self.now path.now found.now ≡ Err fault))) }
    {
        match found {
            Found::File(_) => {
                if self.found < MAX_FILES {
                    Ok(self.found + 1)
                } else {
                    Err(limit(self.alloc, path, MAX_FILES))
                }
            }
            Found::Dir => Ok(self.found),
            Found::Absent => Ok(self.found),
        }
    }

    fn put(&mut self, path: &Text, found: Found, files: u64) -> Result<(), NoMemory>
        ensures { OnOk result (self.new ≡ with_found self.old path.now found files) }
    {
        map_law::<Found>();
        let key = copy_bytes(self.alloc, path.bytes())?;
        self.known.insert(key, found)?;
        self.found = files;
        Ok(())
    }

    // Reads a path that was not read before.
    fn learn<T: Tree>(&mut self, tree: &mut T, path: &Text) -> Result<(), LoadFault>
        requires { Knows (T.files tree.old) self.old }
        ensures passed { OnOk result (IsTold (T.files tree.old) → after_read (look_in (T.files tree.old)) self.old path.now ≡ Ok self.new) }
        ensures known { OnOk result (IsTold (T.files tree.old) → finite.get self.new.known path.now ≡ Some ((look_in (T.files tree.old)).found path.now)) }
        ensures knows { OnOk result (Knows (T.files tree.old) self.new) }
        ensures cause { IfErr result (Cause (T.files tree.old) (T.faults tree.old) (T.faults tree.new) (after_read (look_in (T.files tree.old)) self.old path.now)) }
        ensures asked { IfErr result (IsOfPath (Asks self.old (read path.now))) }
        ensures here { IfErr result (IsOfPath (T.failed_at tree.new)) }
        ensures files { T.files tree.new ≡ T.files tree.old }
        ensures around { around (T.entered tree.new) (T.lent tree.new) ≡ around (T.entered tree.old) (T.lent tree.old) }
        ensures later { T.faults tree.old ≤ T.faults tree.new }
        ensures calm { OnOk result (T.faults tree.new ≡ T.faults tree.old) }
    {
        if self.get(path.bytes()).is_some() {
            return Ok(());
        }
        let found = read_new(self.alloc, tree, path)?;
        let files = self.count_with(path, &found)?;
        Ok(self.put(path, found, files)?)
    }

    /// What stands at a path, which is read at most once.
    pub fn read<T: Tree>(&mut self, tree: &mut T, path: &Text) -> Result<Found, LoadFault>
        requires { Knows (T.files tree.old) self.old }
        ensures { Reads T.failed_at (view T.files T.faults T.entered T.lent) tree.old tree.new (λ look. read path.now ∷ []) (λ look found. found ≡ look.found path.now) self.old self.new result }
    {
        self.learn(tree, path)?;
        let alloc = self.alloc;
        match self.get(path.bytes()) {
            Some(found) => Ok(copy_found(alloc, found)?),
            None => Ok(Found::Absent),
        }
    }

    /// The bytes of a path, none where it is no file.
    pub fn bytes<T: Tree>(&mut self, tree: &mut T, path: &Text) -> Result<Option<Text>, LoadFault>
        requires { Knows (T.files tree.old) self.old }
        ensures { Reads T.failed_at (view T.files T.faults T.entered T.lent) tree.old tree.new (λ look. read path.now ∷ []) (λ look bytes. bytes ≡ bytes_in (look.found path.now)) self.old self.new result }
    {
        match self.read(tree, path)? {
            Found::File(text) => Ok(Some(text)),
            Found::Dir => Ok(None),
            Found::Absent => Ok(None),
        }
    }

    /// The bytes of a path that has to be a file.
    pub fn need<T: Tree>(&mut self, tree: &mut T, path: &Text) -> Result<Text, LoadFault>
        requires { Knows (T.files tree.old) self.old }
        ensures { Reads T.failed_at (view T.files T.faults T.entered T.lent) tree.old tree.new (λ look. need path.now ∷ []) (λ look bytes. bytes ≡ text_at look path.now) self.old self.new result }
    {
        match self.read(tree, path)? {
            Found::File(text) => Ok(text),
            Found::Dir => Err(missing(self.alloc, path)),
            Found::Absent => Err(missing(self.alloc, path)),
        }
    }

    // What was read of a path, if it was.
    fn known_at(&self, path: &Text) -> Result<Option<Found>, NoMemory>
        ensures { IfOk result (λ found. found ≡ finite.get self.now.known path.now) }
    {
        match self.get(path.bytes()) {
            Some(found) => Ok(Some(copy_found(self.alloc, found)?)),
            None => Ok(None),
        }
    }

    // Reads a path that was not read before, counts it, and keeps nothing.
    fn count<T: Tree>(&mut self, tree: &mut T, path: &Text) -> Result<Found, LoadFault>
        ensures found { IfOk result (λ found. IsTold (T.files tree.old) → found ≡ (look_in (T.files tree.old)).found path.now) }
        ensures known { OnOk result (self.new.known ≡ self.old.known) }
        ensures passed { IfOk result (λ found. IsTold (T.files tree.old) → after_new (look_in (T.files tree.old)) self.old path.now ≡ Ok (with_found self.old path.now found self.new.found)) }
        ensures cause { IfErr result (Cause (T.files tree.old) (T.faults tree.old) (T.faults tree.new) (after_new (look_in (T.files tree.old)) self.old path.now)) }
        ensures asked { IfErr result (IsOfPath (λ p. path.now ≡ p)) }
        ensures here { IfErr result (IsOfPath (T.failed_at tree.new)) }
        ensures files { T.files tree.new ≡ T.files tree.old }
        ensures around { around (T.entered tree.new) (T.lent tree.new) ≡ around (T.entered tree.old) (T.lent tree.old) }
        ensures later { T.faults tree.old ≤ T.faults tree.new }
        ensures calm { OnOk result (T.faults tree.new ≡ T.faults tree.old) }
    {
        let found = read_new(self.alloc, tree, path)?;
        let files = self.count_with(path, &found)?;
        self.found = files;
        Ok(found)
    }

    /// What stands at a path that no later step reads: it is counted, and isn't kept.
    pub fn read_once<T: Tree>(&mut self, tree: &mut T, path: &Text) -> Result<Found, LoadFault>
        requires { Knows (T.files tree.old) self.old }
        ensures { Reads T.failed_at (view T.files T.faults T.entered T.lent) tree.old tree.new (λ look. once path.now ∷ []) (λ look found. found ≡ look.found path.now) self.old self.new result }
    {
        match self.known_at(path)? {
            Some(found) => Ok(found),
            None => self.count(tree, path),
        }
    }

    /// The bytes of such a path, none where it is no file.
    pub fn bytes_once<T: Tree>(
        &mut self,
        tree: &mut T,
        path: &Text,
    ) -> Result<Option<Text>, LoadFault>
        requires { Knows (T.files tree.old) self.old }
        ensures { Reads T.failed_at (view T.files T.faults T.entered T.lent) tree.old tree.new (λ look. once path.now ∷ []) (λ look bytes. bytes ≡ bytes_at look path.now) self.old self.new result }
    {
        match self.read_once(tree, path)? {
            Found::File(text) => Ok(Some(text)),
            Found::Dir => Ok(None),
            Found::Absent => Ok(None),
        }
    }
}

/// The names below a path, in byte order. The reader is as before.
pub fn list_at<T: Tree>(
    alloc: Global,
    reader: &Reader,
    tree: &mut T,
    path: &Text,
) -> Result<Texts, LoadFault>
    requires { Knows (T.files tree.old) reader.now }
    ensures { Reads T.failed_at (view T.files T.faults T.entered T.lent) tree.old tree.new (λ look. list path.now ∷ []) (λ look value. value ≡ look.names path.now) reader.now reader.now result }
{
    list_names(alloc, tree, path)
}

#[tactic(auto, using(crate::proofs::Readings::told_names))]
fn list_names<T: Tree>(alloc: Global, tree: &mut T, path: &Text) -> Result<Texts, LoadFault>
    ensures names { IfOk result (λ names. IsTold (T.files tree.old) → names ≡ (look_in (T.files tree.old)).names path.now) }
    ensures passed { (seen : Seen) → OnOk result (after_list seen path.now ≡ Ok seen) }
    ensures cause { (seen : Seen) → IfErr result (Cause (T.files tree.old) (T.faults tree.old) (T.faults tree.new) (after_list seen path.now)) }
    ensures asked { IfErr result (IsOfPath (λ p. path.now ≡ p)) }
    ensures here { IfErr result (IsOfPath (T.failed_at tree.new)) }
    ensures files { T.files tree.new ≡ T.files tree.old }
    ensures around { around (T.entered tree.new) (T.lent tree.new) ≡ around (T.entered tree.old) (T.lent tree.old) }
    ensures later { T.faults tree.old ≤ T.faults tree.new }
    ensures calm { OnOk result (T.faults tree.new ≡ T.faults tree.old) }
{
    if path.bytes().len() as u64 > MAX_PATH_BYTES {
        return Err(limit(alloc, path, MAX_PATH_BYTES));
    }
    match tree.list(alloc, path) {
        Ok(parts) => match parts.in_order(alloc) {
            Ok(names) => Ok(names),
            Err(_) => Err(LoadFault::NoMemory),
        },
        Err(TreeFault::Failed) => Err(failed(alloc, path)),
        Err(TreeFault::TooLarge) => unreachable!(),
        Err(TreeFault::NoMemory) => Err(LoadFault::NoMemory),
    }
}

fn copy_found(alloc: Global, found: &Found) -> Result<Found, NoMemory>
    ensures { IfOk result (λ copied. copied ≡ found.now) }
{
    match found {
        Found::File(text) => Ok(Found::File(text.copy(alloc)?)),
        Found::Dir => Ok(Found::Dir),
        Found::Absent => Ok(Found::Absent),
    }
}

fn copy_bytes(alloc: Global, bytes: &[u8]) -> Result<Vec<u8>, NoMemory>
    ensures { IfOk result (λ copied. copied.items ≡ bytes.now) }
{
    Ok(Vec::from_slice(alloc, bytes)?)
}

#[tactic(auto, using(crate::proofs::Readings::told_found, crate::proofs::Readings::large_told))]
fn read_new<T: Tree>(alloc: Global, tree: &mut T, path: &Text) -> Result<Found, LoadFault>
    ensures found { IfOk result (λ found. IsTold (T.files tree.old) → found ≡ (look_in (T.files tree.old)).found path.now) }
    ensures short { OnOk result (length path.now ≤ most_path) }
    ensures small { IfOk result (HasAtMost most_file_bytes) }
    ensures cause { (seen : Seen) → IfErr result (Cause (T.files tree.old) (T.faults tree.old) (T.faults tree.new) (after_new (look_in (T.files tree.old)) seen path.now)) }
    ensures asked { IfErr result (IsOfPath (λ p. path.now ≡ p)) }
    ensures here { IfErr result (IsOfPath (T.failed_at tree.new)) }
    ensures files { T.files tree.new ≡ T.files tree.old }
    ensures around { around (T.entered tree.new) (T.lent tree.new) ≡ around (T.entered tree.old) (T.lent tree.old) }
    ensures later { T.faults tree.old ≤ T.faults tree.new }
    ensures calm { OnOk result (T.faults tree.new ≡ T.faults tree.old) }
{
    if path.bytes().len() as u64 > MAX_PATH_BYTES {
        return Err(limit(alloc, path, MAX_PATH_BYTES));
    }
    match tree.read(alloc, path) {
        Ok(found) => Ok(found),
        Err(TreeFault::Failed) => Err(failed(alloc, path)),
        Err(TreeFault::TooLarge) => Err(limit(alloc, path, MAX_FILE_BYTES)),
        Err(TreeFault::NoMemory) => Err(LoadFault::NoMemory),
    }
}
