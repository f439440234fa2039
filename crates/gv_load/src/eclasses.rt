//! The digests of the eclasses that entries name. Each eclass is read once, and its bytes are let go.
ghost use Rattle.std.specs.Prelude.{◌≡◌, ◌∷◌, [], ◌++◌, flat_map, map, IfOk, OnOk, OnErr};
ghost use Rattle.std.specs.FinMap as finite;
ghost use Rattle.gv_reading.specs.Causes.{Knows, Reads, view};
ghost use Rattle.gv_load.specs.DigestWords.{digests_with, AllNamed, KeepsDigests};
ghost use Rattle.gv_load.specs.Entries.{eclass_name, named_by, names_in, eclass_names, eclass_digest};
ghost use Rattle.gv_load.specs.Order.{eclass_steps};
ghost use Rattle.gv_load.specs.Paths.{eclass_path};
ghost use Rattle.gv_reading.specs.Reading.{once};

use crate::entries::{PfRead, PfReads, digest_once};
use crate::paths::eclass_path;
use gv_base::{NoMemory, Text, Texts, Tree, map_law};
use gv_entry::Eclasses;
use gv_reading::{LoadFault, Reader};
use std::alloc::Global;
use std::collections::BTreeMap;
use std::marker::Model;

/// A finite map from an eclass's name to the digest of its file.
#[derive(Drop)]
pub(crate) struct EclassDigests {
    alloc: Global,
    map: BTreeMap<Vec<u8>, [u8; 16]>,
}

impl Model for EclassDigests {
    ghost use Rattle.gv_base.specs.ByteMap.{map_of};
    ghost use Rattle.gv_load.specs.EclassDigests.{DigestMap, coded_digests};

    ghost Value = { DigestMap };

    ghost coded = { coded_digests };

    ghost view = { λ d. map_of d.map.entries };
}

impl EclassDigests {
    /// No eclasses.
    pub fn new(alloc: Global) -> EclassDigests
        ensures { result ≡ finite.empty }
    {
        EclassDigests {
            alloc,
            map: BTreeMap::new(alloc),
        }
    }

    /// Sets the digest of an eclass. After an error the map is unchanged.
    pub fn put(&mut self, name: &Text, digest: [u8; 16]) -> Result<(), NoMemory>
        ensures ok { OnOk result (self.new ≡ finite.insert self.old name.now digest) }
        ensures err { OnErr result (self.new ≡ self.old) }
    {
        map_law::<[u8; 16]>();
        let key = Vec::from_slice(self.alloc, name.bytes())?;
        self.map.insert(key, digest)?;
        Ok(())
    }

    /// The digest of an eclass, `None` exactly where its name isn't in the map.
    pub fn get(&self, name: &[u8]) -> Option<[u8; 16]>
        ensures { result ≡ finite.get self.now name.now }
    {
        map_law::<[u8; 16]>();
        match self.map.get(name) {
            Some(digest) => Some(*digest),
            None => None,
        }
    }
}

/// The eclasses that entries with an ebuild name, in byte order, each once.
#[tactic(auto, using(crate::proofs::JudgeLemmas::all_of_them))]
pub(crate) fn eclass_names(alloc: Global, reads: &PfReads) -> Result<Texts, NoMemory>
    ensures value { IfOk result (λ names. names ≡ eclass_names reads.now) }
    ensures named { IfOk result (λ names. AllNamed names reads.now) }
{
    let names = all_names(alloc, reads)?;
    Ok(names.in_order(alloc)?)
}

/// Reads these eclasses, in their order, and keeps the digests of those that are files.
pub(crate) fn read_eclasses<T: Tree>(
    alloc: Global,
    reader: &mut Reader,
    tree: &mut T,
    names: &Texts,
) -> Result<EclassDigests, LoadFault>
    requires knows { Knows (T.files tree.old) reader.old }
    ensures { Reads T.failed_at (view T.files T.faults T.entered T.lent) tree.old tree.new (λ look. eclass_steps names.now) (λ look digests. KeepsDigests look names.now digests) reader.old reader.new result }
{
    let mut digests = EclassDigests::new(alloc);
    for name in names.items() {
        read_eclass(alloc, reader, tree, name, &mut digests)?;
    }
    Ok(digests)
}

fn add_names(alloc: Global, names: &mut Texts, eclasses: &Eclasses) -> Result<(), NoMemory>
    ensures { OnOk result (names.new ≡ names.old ++ map eclass_name eclasses.now) }
{
    for e in eclasses.items() {
        names.add(e.name.copy(alloc)?)?;
    }
    Ok(())
}

pub(crate) fn add_readable(
    alloc: Global,
    names: &mut Texts,
    eclasses: &Option<Eclasses>,
) -> Result<(), NoMemory>
    ensures { OnOk result (names.new ≡ names.old ++ named_by eclasses.now) }
{
    match eclasses {
        Some(eclasses) => Ok(add_names(alloc, names, eclasses)?),
        None => Ok(()),
    }
}

fn add_named(alloc: Global, names: &mut Texts, read: &PfRead) -> Result<(), NoMemory>
    ensures { OnOk result (names.new ≡ names.old ++ names_in read.now) }
{
    match (&read.entry, &read.ebuild) {
        (Some(entry), Some(_)) => Ok(add_readable(alloc, names, &entry.eclasses)?),
        (Some(_), None) => Ok(()),
        (None, _) => Ok(()),
    }
}

fn all_names(alloc: Global, reads: &PfReads) -> Result<Texts, NoMemory>
    ensures { IfOk result (λ names. names ≡ flat_map names_in reads.now) }
{
    let mut names = Texts::new(alloc);
    for read in reads.items() {
        add_named(alloc, &mut names, read)?;
    }
    Ok(names)
}

fn put_if(
    digests: &mut EclassDigests,
    name: &Text,
    digest: Option<[u8; 16]>,
) -> Result<(), NoMemory>
    ensures { OnOk result (digests.new ≡ digests_with digests.old name.now digest) }
{
    match digest {
        Some(digest) => {
            digests.put(name, digest)?;
            Ok(())
        }
        None => Ok(()),
    }
}

// Reads the file of this name, and keeps its digest where it is a file.
fn read_eclass<T: Tree>(
    alloc: Global,
    reader: &mut Reader,
    tree: &mut T,
    name: &Text,
    digests: &mut EclassDigests,
) -> Result<(), LoadFault>
    requires knows { Knows (T.files tree.old) reader.old }
    ensures { Reads T.failed_at (view T.files T.faults T.entered T.lent) tree.old tree.new (λ look. once (eclass_path name.now) ∷ []) (λ look _. digests.new ≡ digests_with digests.old name.now (eclass_digest look name.now)) reader.old reader.new result }
{
    let path = eclass_path(alloc, name)?;
    let digest = digest_once(reader, tree, &path)?;
    Ok(put_if(digests, name, digest)?)
}
