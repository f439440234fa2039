//! The PFs of a category, as its three kinds of listings tell them (PMS chapter 14).
//!
//! Costs a listing for the entries, one for the category and one for each package name, and O(n log n) comparisons for n
//! names.
ghost use Rattle.std.specs.Prelude.{◌≡◌, ◌<◌, ◌∷◌, [], ◌+◌, ◌++◌, true, List, ℕ, take, drop, filter, filter_map, flat_map, IfOk, OnOk};
ghost use Rattle.std.specs.List.{list_all};
ghost use Rattle.gv_base.specs.Order.{in_order, has_text};
ghost use Rattle.gv_version.specs.Names.{split_pf, is_package};
ghost use Rattle.gv_load.specs.Categories.{is_pf, name_of, pf_subject, version_of, listed, folders, ends_as_ebuild, front_of, ebuild_in, ebuilds_in};
ghost use Rattle.gv_reading.specs.Causes.{Knows, Reads, view};
ghost use Rattle.gv_load.specs.Order.{folder_lists, listing_steps};
ghost use Rattle.gv_load.specs.PartsRead.{HasListed};
ghost use Rattle.gv_load.specs.Paths.{cache_dir};
ghost use Rattle.gv_reading.specs.Reading.{list};
ghost use Rattle.gv_reading.specs.Paths.{within};

use crate::paths::cache_dir;
use gv_base::{NoMemory, Text, Texts, Tree, add_key};
use gv_reading::{LoadFault, Reader, list_at, within};
use gv_report::Subject;
use gv_version::{Version, is_package, split_pf, split_pf_law};
use std::alloc::Global;
use std::collections::BTreeSet;

/// The package name in a PF.
pub fn name_in(pf: &[u8]) -> Result<&[u8], NoMemory>
    ensures { IfOk result (λ name. name.now ≡ name_of pf.now) }
{
    match hyphen_of(pf) {
        Ok(Some(at)) => Ok(front(pf, at as usize)),
        Ok(None) => Ok(front(pf, 0)),
        Err(_) => Err(NoMemory),
    }
}

/// The package that a PF of a category is of.
pub(crate) fn pf_subject(alloc: Global, category: &Text, pf: &Text) -> Result<Subject, NoMemory>
    requires { is_pf pf.now ≡ true }
    ensures { IfOk result (λ subject. subject ≡ pf_subject category.now pf.now) }
{
    split_pf_law();
    let name = name_in(pf.bytes())?;
    let version = version_in(pf.bytes())?;
    Ok(Subject::Package {
        category: category.copy(alloc)?,
        name: Text::of(alloc, name)?,
        version: Version::of(alloc, version)?,
        pf: pf.copy(alloc)?,
    })
}

/// The names among a category's entries, and its PFs in byte order.
#[derive(Drop)]
pub(crate) struct Listing {
    pub listed: BTreeSet<Text>,
    pub pfs: Texts,
}

/// Lists the folder of a category's entries, then the category's own folder, and then the folders in that one.
pub(crate) fn list_category<T: Tree>(
    alloc: Global,
    reader: &Reader,
    tree: &mut T,
    category: &Text,
) -> Result<Listing, LoadFault>
    requires { Knows (T.files tree.old) reader.now }
    ensures reads { Reads T.failed_at (view T.files T.faults T.entered T.lent) tree.old tree.new (λ look. listing_steps look category.now) (λ look listing. HasListed look category.now listing) reader.now reader.now result }
    ensures pfs { IfOk result (λ l. list_all is_pf l.pfs ≡ true) }
{
    let entries = list_entries(alloc, reader, tree, category)?;
    let names = list_packages(alloc, reader, tree, category)?;
    let ebuilds = list_folders(alloc, reader, tree, category, &names)?;
    Ok(with_both(alloc, &entries, &ebuilds)?)
}

// The place of the hyphen in a PF, None where the name is no PF. Places have 32 bits, and a longer name finds no memory.
fn hyphen_of(name: &[u8]) -> Result<Option<u32>, NoMemory>
    ensures { IfOk result (λ at. at ≡ split_pf name.now) }
{
    match u32::try_from(name.len()) {
        Ok(_) => Ok(split_pf(name)),
        Err(_) => Err(NoMemory),
    }
}

/// Whether a name is that of a PF.
pub fn is_pf(name: &[u8]) -> Result<bool, NoMemory>
    ensures { IfOk result (λ is. is ≡ is_pf name.now) }
{
    match hyphen_of(name) {
        Ok(Some(_)) => Ok(true),
        Ok(None) => Ok(false),
        Err(_) => Err(NoMemory),
    }
}

fn front(bytes: &[u8], at: usize) -> &[u8]
    ensures { result.now ≡ take at bytes.now }
{
    if at < bytes.len() {
        &bytes[..at]
    } else {
        bytes
    }
}

// What lies behind the byte at this place.
fn behind(bytes: &[u8], at: usize) -> &[u8]
    ensures { result.now ≡ drop (at + 1) bytes.now }
{
    if at < bytes.len() {
        &bytes[at + 1..]
    } else {
        &bytes[bytes.len()..]
    }
}

// The text behind the hyphen in a PF.
fn version_in(pf: &[u8]) -> Result<&[u8], NoMemory>
    ensures { IfOk result (λ version. version.now ≡ version_of pf.now) }
{
    match hyphen_of(pf) {
        Ok(Some(at)) => Ok(behind(pf, at as usize)),
        Ok(None) => Ok(behind(pf, 0)),
        Err(_) => Err(NoMemory),
    }
}

pub(crate) fn pfs_among(alloc: Global, names: &Texts) -> Result<Texts, NoMemory>
    ensures value { IfOk result (λ pfs. pfs ≡ filter is_pf names.now) }
    ensures pfs { IfOk result (λ pfs. list_all is_pf pfs ≡ true) }
{
    let mut pfs = Texts::new(alloc);
    for name in names.items() {
        if is_pf(name.bytes())? {
            pfs.add(name.copy(alloc)?)?;
        }
    }
    Ok(pfs)
}

fn packages_among(alloc: Global, names: &Texts) -> Result<Texts, NoMemory>
    ensures { IfOk result (λ packages. packages ≡ filter is_package names.now) }
{
    let mut packages = Texts::new(alloc);
    for name in names.items() {
        if is_package(name.bytes()) {
            packages.add(name.copy(alloc)?)?;
        }
    }
    Ok(packages)
}

#[tactic(auto, unfolding(crate::specs::Paths::ebuild_end))]
fn ends_as_ebuild(file: &[u8]) -> bool
    ensures { result ≡ ends_as_ebuild file.now }
{
    file.ends_with(b".ebuild".as_slice())
}

#[tactic(auto, unfolding(crate::specs::Paths::ebuild_end))]
fn front_of(file: &[u8]) -> &[u8]
    ensures { result.now ≡ front_of file.now }
{
    if file.len() < 7 {
        &file[..0]
    } else {
        &file[..file.len() - 7]
    }
}

// The PF whose ebuild a file in the folder of that name is.
fn ebuild_in(alloc: Global, name: &[u8], file: &[u8]) -> Result<Option<Text>, NoMemory>
    ensures { IfOk result (λ pf. pf ≡ ebuild_in name.now file.now) }
{
    if !ends_as_ebuild(file) {
        return Ok(None);
    }
    let pf = front_of(file);
    if name_in(pf)? == name {
        Ok(Some(Text::of(alloc, pf)?))
    } else {
        Ok(None)
    }
}

fn ebuilds_among(alloc: Global, name: &[u8], files: &Texts, pfs: &mut Texts) -> Result<(), NoMemory>
    ensures { OnOk result (pfs.new ≡ pfs.old ++ filter_map (ebuild_in name.now) files.now) }
{
    for file in files.items() {
        match ebuild_in(alloc, name, file.bytes())? {
            Some(pf) => pfs.add(pf)?,
            None => {}
        }
    }
    Ok(())
}

// The ebuilds in the folder of a name.
fn list_ebuilds<T: Tree>(
    alloc: Global,
    reader: &Reader,
    tree: &mut T,
    category: &Text,
    name: &Text,
    pfs: &mut Texts,
) -> Result<(), LoadFault>
    requires { Knows (T.files tree.old) reader.now }
    ensures { Reads T.failed_at (view T.files T.faults T.entered T.lent) tree.old tree.new (λ look. list (within category.now name.now) ∷ []) (λ look _. pfs.new ≡ pfs.old ++ ebuilds_in look category.now name.now) reader.now reader.now result }
{
    let path = within(alloc, category, name.bytes())?;
    let files = list_at(alloc, reader, tree, &path)?;
    Ok(ebuilds_among(alloc, name.bytes(), &files, pfs)?)
}

// The ebuilds in the folders of these names.
fn list_folders<T: Tree>(
    alloc: Global,
    reader: &Reader,
    tree: &mut T,
    category: &Text,
    names: &Texts,
) -> Result<Texts, LoadFault>
    requires { Knows (T.files tree.old) reader.now }
    ensures { Reads T.failed_at (view T.files T.faults T.entered T.lent) tree.old tree.new (λ look. folder_lists category.now names.now) (λ look value. value ≡ flat_map (ebuilds_in look category.now) names.now) reader.now reader.now result }
{
    let mut pfs = Texts::new(alloc);
    for name in names.items() {
        list_ebuilds(alloc, reader, tree, category, name, &mut pfs)?;
    }
    Ok(pfs)
}

// The names among the entries of a category.
fn list_entries<T: Tree>(
    alloc: Global,
    reader: &Reader,
    tree: &mut T,
    category: &Text,
) -> Result<Texts, LoadFault>
    requires { Knows (T.files tree.old) reader.now }
    ensures { Reads T.failed_at (view T.files T.faults T.entered T.lent) tree.old tree.new (λ look. list (cache_dir category.now) ∷ []) (λ look value. value ≡ listed look category.now) reader.now reader.now result }
{
    let path = cache_dir(alloc, category)?;
    list_at(alloc, reader, tree, &path)
}

// The package names among the folders of a category.
fn list_packages<T: Tree>(
    alloc: Global,
    reader: &Reader,
    tree: &mut T,
    category: &Text,
) -> Result<Texts, LoadFault>
    requires { Knows (T.files tree.old) reader.now }
    ensures { Reads T.failed_at (view T.files T.faults T.entered T.lent) tree.old tree.new (λ look. list category.now ∷ []) (λ look value. value ≡ folders look category.now) reader.now reader.now result }
{
    let names = list_at(alloc, reader, tree, category)?;
    Ok(packages_among(alloc, &names)?)
}

// The same texts, as a set.
pub(crate) fn set_of(alloc: Global, texts: &Texts) -> Result<BTreeSet<Text>, NoMemory>
    ensures { IfOk result (λ set. (text : List ℕ) → has_text set.keys text ≡ has_text texts.now text) }
{
    let mut set = BTreeSet::new(alloc);
    for text in texts.items() {
        add_key(&mut set, text.copy(alloc)?)?;
    }
    Ok(set)
}

#[tactic(auto, using(crate::specs::ListLemmas::all_pass))]
fn all_pfs(alloc: Global, entries: &Texts, ebuilds: &Texts) -> Result<Texts, NoMemory>
    ensures value { IfOk result (λ pfs. pfs ≡ filter is_pf (in_order (entries.now ++ ebuilds.now))) }
    ensures pfs { IfOk result (λ pfs. list_all is_pf pfs ≡ true) }
{
    let mut all = entries.copy(alloc)?;
    for pf in ebuilds.items() {
        all.add(pf.copy(alloc)?)?;
    }
    let names = all.in_order(alloc)?;
    Ok(pfs_among(alloc, &names)?)
}

fn with_both(alloc: Global, entries: &Texts, ebuilds: &Texts) -> Result<Listing, NoMemory>
    ensures listed { IfOk result (λ l. (text : List ℕ) → has_text l.listed.keys text ≡ has_text entries.now text) }
    ensures value { IfOk result (λ l. l.pfs ≡ filter is_pf (in_order (entries.now ++ ebuilds.now))) }
    ensures pfs { IfOk result (λ l. list_all is_pf l.pfs ≡ true) }
{
    let listed = set_of(alloc, entries)?;
    let pfs = all_pfs(alloc, entries, ebuilds)?;
    Ok(Listing { listed, pfs })
}
