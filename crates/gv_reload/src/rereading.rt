//! A repository after edits of entries, for which only these are read. Costs what `edited_reads` and `replacing`
//! say.
ghost use Rattle.std.specs.Prelude.{◌≡◌, ◌≤◌, ◌<◌, ◌+◌, true, IfErr, IfOk, MatchOption, OnOk};
ghost use Rattle.std.specs.List.{list_all};
ghost use Rattle.gv_reload.specs.EntryEdits.{is_entry};
ghost use Rattle.gv_reload.specs.Rereading.{IsMadeOf, IsPutTogether, IsReread, NameCause, RereadCause, UnclearCause, UntoldCause, small};
ghost use Rattle.gv_load.specs.Repository.{AreInPackageOrder};
ghost use Rattle.gv_reading.specs.Reading.{most_files};

use crate::edited_reads::read_edited;
use crate::entry_edits::EntryEdits;
use crate::replacing::{are_named, replaced};
use gv_base::{NoMemory, Tree, in_order_law};
use gv_facts::Profiles;
use gv_load::{GivenRead, Loaded, Repo};
use gv_profile::DescLines;
use gv_reading::{LoadFault, MAX_FILES, Reader};
use gv_version::split_pf_law;
use std::alloc::Global;

/// What reading edited entries anew came to.
#[derive(Drop)]
pub enum Reread {
    /// The repository, of whose notes those of edited entries alone are there, its folders, and how many files a load of all finds at
    /// most.
    Done { loaded: Loaded },
    /// It isn't told by these entries alone whether a load of all passes: the old repository, as it was given.
    Unclear { loaded: Loaded },
}

/// Reads edited entries anew, their ebuilds and the eclasses that they name, and puts the repository after the edits together of
/// these and of the old one, of whose load at most as many files were found as it says.
///
/// `Unclear` is answered where a path that would be read is too long, what stands there is too large, more files than a load may find
/// could be found, a category is called `metadata`, or an edited package, of those before or of those now, has a name that no edited
/// entry has.
pub fn reread_entries<T: Tree>(
    alloc: Global,
    tree: &mut T,
    old: Loaded,
    edits: &EntryEdits,
) -> Result<Reread, LoadFault>
    requires old_order { AreInPackageOrder old.repo.pkgs }
    requires entries { list_all (is_entry old.folders.categories) edits.now ≡ true }
    ensures reread { IfOk result (IsReread edits.now old (T.files tree.old)) }
    ensures unclear { IfOk result (UnclearCause edits.now old (T.files tree.old)) }
    ensures cause { IfErr result (RereadCause (T.faults tree.old) (T.faults tree.new)) }
    ensures files { T.files tree.new ≡ T.files tree.old }
    ensures root { T.entered tree.new ≡ T.entered tree.old }
    ensures lent { T.lent tree.new ≡ T.lent tree.old }
    ensures later { T.faults tree.old ≤ T.faults tree.new }
    ensures calm { OnOk result (T.faults tree.new ≡ T.faults tree.old) }
{
    in_order_law();
    split_pf_law();
    let mut reader = Reader::new(alloc);
    match read_edited(
        alloc,
        &mut reader,
        tree,
        &old.folders.categories,
        edits.paths(),
    ) {
        Ok(read) => match put_together(alloc, old, read, edits) {
            Ok(reread) => Ok(reread),
            Err(_) => Err(LoadFault::NoMemory),
        },
        Err(LoadFault::Tree { path }) => Err(LoadFault::Tree { path }),
        Err(LoadFault::NotARepository { .. }) => Ok(Reread::Unclear { loaded: old }),
        Err(LoadFault::Limit { .. }) => Ok(Reread::Unclear { loaded: old }),
        Err(LoadFault::NoMemory) => Err(LoadFault::NoMemory),
    }
}

// How many files may be found after the edits, where a load may find as many.
fn with_more(found: u64, more: u64) -> Option<u64>
    ensures { MatchOption result (most_files < found + more) (λ now. (now ≡ found + more) × (now ≤ most_files)) }
{
    match found.checked_add(more) {
        Some(now) => { if now <= MAX_FILES { Some(now) } else { None } }
        None => None,
    }
}

fn put_together(
    alloc: Global,
    old: Loaded,
    read: GivenRead,
    edits: &EntryEdits,
) -> Result<Reread, NoMemory>
    requires old_order { AreInPackageOrder old.repo.pkgs }
    requires new_order { AreInPackageOrder read.pkgs }
    ensures made { IfOk result (IsPutTogether edits.now old read) }
    ensures untold { IfOk result (UntoldCause edits.now old read) }
{
    if old.folders.categories.has(b"metadata") {
        return Ok(Reread::Unclear { loaded: old });
    }
    let Some(found) = with_more(old.found, read.more) else {
        return Ok(Reread::Unclear { loaded: old });
    };
    with_read(alloc, old, found, read, edits)
}

fn with_read(
    alloc: Global,
    old: Loaded,
    found: u64,
    read: GivenRead,
    edits: &EntryEdits,
) -> Result<Reread, NoMemory>
    requires old_order { AreInPackageOrder old.repo.pkgs }
    requires new_order { AreInPackageOrder read.pkgs }
    ensures made { IfOk result (IsMadeOf edits.now old found read) }
    ensures untold { IfOk result (NameCause edits.now old read) }
{
    if !are_named(old.repo.pkgs.items(), edits) {
        return Ok(Reread::Unclear { loaded: old });
    }
    if !are_named(read.pkgs.items(), edits) {
        return Ok(Reread::Unclear { loaded: old });
    }
    let Loaded { repo, folders, .. } = old;
    let repo = replaced(alloc, repo, small(alloc, read), edits)?;
    let loaded = Loaded {
        repo,
        folders,
        found,
    };
    Ok(Reread::Done { loaded })
}

// The repository of these PFs alone.
fn small(alloc: Global, read: GivenRead) -> Repo
    requires { AreInPackageOrder read.pkgs }
    ensures value { result ≡ small read }
    ensures order { AreInPackageOrder result.pkgs }
{
    Repo {
        pkgs: read.pkgs,
        bodies: read.bodies,
        profiles: Profiles::new(alloc),
        lines: DescLines::new(alloc),
        notes: read.notes,
    }
}
