//! What is read of each PF of a category: its entry where it is listed, and the digest of its ebuild (PMS chapter 14).
//!
//! A PF costs O(its bytes) and O(log n) comparisons for n listed names. The bytes of ebuilds are let go.
ghost use Rattle.std.specs.Prelude.{◌≡◌, ◌∷◌, [], ◌++◌, true, IfOk, OnOk, OnErr, map};
ghost use Rattle.std.specs.List.{list_all};
ghost use Rattle.gv_load.specs.Categories.{is_pf, name_of, pf_subject};
ghost use Rattle.gv_entry.specs.EntryRead.{entry_of};
ghost use Rattle.std.specs.Option.{option_map};
ghost use Rattle.gv_reading.specs.Look.{bytes_at};
ghost use Rattle.gv_reading.specs.Causes.{Knows, Reads, view};
ghost use Rattle.gv_load.specs.Entries.{entry_at, digest_at, pf_read, reads_of, all_reads};
ghost use Rattle.gv_load.specs.Order.{entry_steps, pf_steps, pfs_steps, category_steps, categories_steps};
ghost use Rattle.gv_load.specs.Paths.{entry_path, ebuild_path};
ghost use Rattle.gv_reading.specs.Reading.{once};

use crate::categories::{list_category, name_in, pf_subject};
use crate::paths::{ebuild_path, entry_path};
use gv_base::{Found, NoMemory, Text, Texts, Tree, has_key};
use gv_entry::{Entry, digest_of, read_entry};
use gv_reading::{LoadFault, Reader};
use gv_report::Subject;
use std::alloc::Global;
use std::collections::BTreeSet;
use std::marker::Model;

/// What was read of a PF.
#[derive(Drop)]
pub struct PfRead {
    /// The package that the PF is of.
    pub subject: Subject,
    /// `None` where it isn't listed, or is no file.
    pub entry: Option<Entry>,
    /// The digest of the ebuild, `None` where it is no file.
    pub ebuild: Option<[u8; 16]>,
}

/// A list of them.
#[derive(Drop)]
pub(crate) struct PfReads {
    items: Vec<PfRead>,
}

impl Model for PfReads {
    ghost use Rattle.std.specs.Prelude.{List};
    ghost use Rattle.std.specs.Coded.{coded_list};
    ghost use Rattle.gv_load.specs.contracts.entries.PfRead as one;
    ghost use Rattle.gv_load.specs.declared.entries.PfRead.{PfRead};

    ghost Value = { List PfRead };

    ghost coded = { coded_list one.the_row.coded };

    ghost view = { λ l. l.items.items };
}

impl PfReads {
    /// None.
    pub fn new(alloc: Global) -> Self
        ensures { result ≡ [] }
    {
        PfReads {
            items: Vec::new(alloc),
        }
    }

    /// Adds one at the end. After an error the list is unchanged.
    pub fn add(&mut self, item: PfRead) -> Result<(), NoMemory>
        ensures ok { OnOk result (self.new ≡ self.old ++ item ∷ []) }
        ensures err { OnErr result (self.new ≡ self.old) }
    {
        self.items.push(item)?;
        Ok(())
    }

    /// All, in order.
    pub fn items(&self) -> &[PfRead]
        ensures { result.now ≡ self.now }
    {
        &self.items
    }

    /// The same, given away.
    pub(crate) fn into_items(self) -> Vec<PfRead>
        ensures { result.items ≡ self }
    {
        self.items
    }
}

/// Reads these PFs of a category, in their order.
pub(crate) fn read_pfs<T: Tree>(
    alloc: Global,
    reader: &mut Reader,
    tree: &mut T,
    listed: &BTreeSet<Text>,
    category: &Text,
    pfs: &Texts,
    reads: &mut PfReads,
) -> Result<(), LoadFault>
    requires knows { Knows (T.files tree.old) reader.old }
    requires pfs { list_all is_pf pfs.now ≡ true }
    ensures { Reads T.failed_at (view T.files T.faults T.entered T.lent) tree.old tree.new (λ look. pfs_steps listed.now.keys category.now pfs.now) (λ look _. reads.new ≡ reads.old ++ map (pf_read look listed.now.keys category.now) pfs.now) reader.old reader.new result }
{
    for pf in pfs.items() {
        read_next(alloc, reader, tree, listed, category, pf, reads)?;
    }
    Ok(())
}

/// Reads the PFs of these categories, in their order: for each PF its entry where it is listed, and then its ebuild, whose
/// bytes are let go.
pub(crate) fn read_categories<T: Tree>(
    alloc: Global,
    reader: &mut Reader,
    tree: &mut T,
    categories: &Texts,
) -> Result<PfReads, LoadFault>
    requires knows { Knows (T.files tree.old) reader.old }
    ensures { Reads T.failed_at (view T.files T.faults T.entered T.lent) tree.old tree.new (λ look. categories_steps look categories.now) (λ look value. value ≡ all_reads look categories.now) reader.old reader.new result }
{
    let mut reads = PfReads::new(alloc);
    for category in categories.items() {
        read_category(alloc, reader, tree, category, &mut reads)?;
    }
    Ok(reads)
}

fn entry_in(
    alloc: Global,
    category: &Text,
    pf: &Text,
    bytes: Option<Text>,
) -> Result<Option<Entry>, NoMemory>
    requires { is_pf pf.now ≡ true }
    ensures { IfOk result (λ entry. entry ≡ option_map (entry_of category.now pf.now) bytes) }
{
    match bytes {
        Some(bytes) => Ok(Some(read_entry(alloc, category, pf, bytes.bytes())?)),
        None => Ok(None),
    }
}

fn read_there<T: Tree>(
    alloc: Global,
    reader: &mut Reader,
    tree: &mut T,
    category: &Text,
    pf: &Text,
) -> Result<Option<Entry>, LoadFault>
    requires knows { Knows (T.files tree.old) reader.old }
    requires pf { is_pf pf.now ≡ true }
    ensures { Reads T.failed_at (view T.files T.faults T.entered T.lent) tree.old tree.new (λ look. once (entry_path category.now pf.now) ∷ []) (λ look value. value ≡ option_map (entry_of category.now pf.now) (bytes_at look (entry_path category.now pf.now))) reader.old reader.new result }
{
    let path = entry_path(alloc, category, pf)?;
    let bytes = reader.bytes_once(tree, &path)?;
    Ok(entry_in(alloc, category, pf, bytes)?)
}

// The entry of a PF, where it is listed and is a file.
fn read_listed<T: Tree>(
    alloc: Global,
    reader: &mut Reader,
    tree: &mut T,
    listed: &BTreeSet<Text>,
    category: &Text,
    pf: &Text,
) -> Result<Option<Entry>, LoadFault>
    requires knows { Knows (T.files tree.old) reader.old }
    requires pf { is_pf pf.now ≡ true }
    ensures { Reads T.failed_at (view T.files T.faults T.entered T.lent) tree.old tree.new (λ look. entry_steps listed.now.keys category.now pf.now) (λ look value. value ≡ entry_at look listed.now.keys category.now pf.now) reader.old reader.new result }
{
    if !has_key(listed, pf) {
        return Ok(None);
    }
    read_there(alloc, reader, tree, category, pf)
}

/// The digest of a path that no later step reads, none where it is no file. The bytes are let go.
pub(crate) fn digest_once<T: Tree>(
    reader: &mut Reader,
    tree: &mut T,
    path: &Text,
) -> Result<Option<[u8; 16]>, LoadFault>
    requires { Knows (T.files tree.old) reader.old }
    ensures { Reads T.failed_at (view T.files T.faults T.entered T.lent) tree.old tree.new (λ look. once path.now ∷ []) (λ look digest. digest ≡ digest_at look path.now) reader.old reader.new result }
{
    match reader.read_once(tree, path)? {
        Found::File(text) => Ok(Some(digest_of(text.bytes()))),
        Found::Dir => Ok(None),
        Found::Absent => Ok(None),
    }
}

// The digest of a PF's ebuild, where it is a file.
fn read_ebuild<T: Tree>(
    alloc: Global,
    reader: &mut Reader,
    tree: &mut T,
    category: &Text,
    pf: &Text,
) -> Result<Option<[u8; 16]>, LoadFault>
    requires knows { Knows (T.files tree.old) reader.old }
    ensures { Reads T.failed_at (view T.files T.faults T.entered T.lent) tree.old tree.new (λ look. once (ebuild_path category.now (name_of pf.now) pf.now) ∷ []) (λ look value. value ≡ digest_at look (ebuild_path category.now (name_of pf.now) pf.now)) reader.old reader.new result }
{
    let path = ebuild_path_of(alloc, category, pf)?;
    digest_once(reader, tree, &path)
}

fn ebuild_path_of(alloc: Global, category: &Text, pf: &Text) -> Result<Text, NoMemory>
    ensures { IfOk result (λ path. path ≡ ebuild_path category.now (name_of pf.now) pf.now) }
{
    let name = name_in(pf.bytes())?;
    ebuild_path(alloc, category, name, pf)
}

fn pf_read(
    alloc: Global,
    category: &Text,
    pf: &Text,
    entry: Option<Entry>,
    ebuild: Option<[u8; 16]>,
) -> Result<PfRead, NoMemory>
    requires { is_pf pf.now ≡ true }
    ensures { IfOk result (λ read. read ≡ record { subject = pf_subject category.now pf.now; entry = entry; ebuild = ebuild }) }
{
    match pf_subject(alloc, category, pf) {
        Ok(subject) => Ok(PfRead {
            subject,
            entry,
            ebuild,
        }),
        Err(refused) => {
            drop(entry);
            Err(refused)
        }
    }
}

// Reads a PF: its entry where it is listed, then its ebuild.
fn read_pf<T: Tree>(
    alloc: Global,
    reader: &mut Reader,
    tree: &mut T,
    listed: &BTreeSet<Text>,
    category: &Text,
    pf: &Text,
) -> Result<PfRead, LoadFault>
    requires knows { Knows (T.files tree.old) reader.old }
    requires pf { is_pf pf.now ≡ true }
    ensures { Reads T.failed_at (view T.files T.faults T.entered T.lent) tree.old tree.new (λ look. pf_steps listed.now.keys category.now pf.now) (λ look value. value ≡ pf_read look listed.now.keys category.now pf.now) reader.old reader.new result }
{
    let entry = read_listed(alloc, reader, tree, listed, category, pf)?;
    let ebuild = match read_ebuild(alloc, reader, tree, category, pf) {
        Ok(ebuild) => ebuild,
        Err(fault) => {
            drop(entry);
            return Err(fault);
        }
    };
    Ok(pf_read(alloc, category, pf, entry, ebuild)?)
}

fn read_next<T: Tree>(
    alloc: Global,
    reader: &mut Reader,
    tree: &mut T,
    listed: &BTreeSet<Text>,
    category: &Text,
    pf: &Text,
    reads: &mut PfReads,
) -> Result<(), LoadFault>
    requires knows { Knows (T.files tree.old) reader.old }
    requires pf { is_pf pf.now ≡ true }
    ensures { Reads T.failed_at (view T.files T.faults T.entered T.lent) tree.old tree.new (λ look. pf_steps listed.now.keys category.now pf.now) (λ look _. reads.new ≡ reads.old ++ pf_read look listed.now.keys category.now pf.now ∷ []) reader.old reader.new result }
{
    let read = read_pf(alloc, reader, tree, listed, category, pf)?;
    Ok(reads.add(read)?)
}

// Lists a category, reads the entries and ebuilds of its PFs in byte order, and adds what they are at the end.
fn read_category<T: Tree>(
    alloc: Global,
    reader: &mut Reader,
    tree: &mut T,
    category: &Text,
    reads: &mut PfReads,
) -> Result<(), LoadFault>
    requires knows { Knows (T.files tree.old) reader.old }
    ensures { Reads T.failed_at (view T.files T.faults T.entered T.lent) tree.old tree.new (λ look. category_steps look category.now) (λ look _. reads.new ≡ reads.old ++ reads_of look category.now) reader.old reader.new result }
{
    let listing = list_category(alloc, reader, tree, category)?;
    read_pfs(
        alloc,
        reader,
        tree,
        &listing.listed,
        category,
        &listing.pfs,
        reads,
    )?;
    Ok(())
}
