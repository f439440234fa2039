//! A repository, read from a tree in a fixed order up to the first refusal.
//!
//! Costs O(the bytes that are read and the names that are listed), O(log n) comparisons for each path among those that
//! were read, and what folding the stacks costs. Files of profiles are kept until the end; of an entry what it says is
//! kept, and of ebuilds and eclasses their digests.
ghost use Rattle.std.specs.Prelude.{◌≡◌, ◌≤◌, Ok, length, IfOk, IfErr, IfSome, OnOk};
ghost use Rattle.gv_reading.specs.Causes.{IsOfPath, Knows, Reads, view};
ghost use Rattle.gv_load.specs.Loading.{Finds, LoadCause, PassesWithin, loading};
ghost use Rattle.gv_load.specs.Repository.{AreClassless, AreInPackageOrder, folders_of};
ghost use Rattle.gv_load.specs.Layout.{layout};
ghost use Rattle.gv_reading.specs.Look.{look_of};
ghost use Rattle.gv_load.specs.Order.{load_steps};
ghost use Rattle.gv_load.specs.OwnLines.{HaveOwnLines};
ghost use Rattle.gv_load.specs.PartsRead.{IsRepoOf, folders_with, notes_with, repo_with, top_paths};

use crate::freshness::PfsKept;
use crate::layout::{Layout, dir_names};
use crate::line_profiles::{Profiled, read_profiles};
use crate::lists::{Lists, TopPaths, read_lists, top_paths};
use crate::members::{Bodies, packages_in};
use crate::notes::{add_pfs, add_places};
use crate::packages::read_packages;
use gv_base::{NoMemory, Texts, Tree};
use gv_facts::{Pkgs, Profiles};
use gv_profile::DescLines;
use gv_reading::{LoadFault, Reader};
use gv_report::{Keyword, Reports};
use std::alloc::Global;

/// A repository.
#[derive(Drop)]
pub struct Repo {
    /// The packages that current entries say, in package order: by category, name, version and PF.
    pub pkgs: Pkgs,
    /// Their expressions, one body for each package.
    pub bodies: Bodies,
    /// Those of the lines whose stack has no fault.
    pub profiles: Profiles,
    /// The lines of `profiles/profiles.desc` that count.
    pub lines: DescLines,
    /// What is told of profiles and entries: bad lines, stacks with a fault, errors of current entries, and PFs that are
    /// stale, orphans or missing.
    pub notes: Reports,
}

impl Repo {
    /// An equal repository.
    pub fn copy(&self, alloc: Global) -> Result<Repo, NoMemory>
        ensures { IfOk result (λ repo. repo ≡ self.now) }
    {
        Ok(Repo {
            pkgs: self.pkgs.copy(alloc)?,
            bodies: self.bodies.copy(alloc)?,
            profiles: self.profiles.copy(alloc)?,
            lines: self.lines.copy(alloc)?,
            notes: self.notes.copy(alloc)?,
        })
    }
}

/// The folders of packages and of profiles.
#[derive(Drop)]
pub struct Folders {
    /// The categories, in byte order.
    pub categories: Texts,
    /// The paths that the lines of `profiles/profiles.desc` reach by parents, in the order in which they are read.
    pub directories: Texts,
}

impl Folders {
    /// Equal ones.
    pub fn copy(&self, alloc: Global) -> Result<Folders, NoMemory>
        ensures { IfOk result (λ folders. folders ≡ self.now) }
    {
        Ok(Folders {
            categories: self.categories.copy(alloc)?,
            directories: self.directories.copy(alloc)?,
        })
    }
}

/// A repository, its folders, and how many files its load found.
#[derive(Drop)]
pub struct Loaded {
    pub repo: Repo,
    pub folders: Folders,
    pub found: u64,
}

impl Loaded {
    /// An equal one.
    pub fn copy(&self, alloc: Global) -> Result<Loaded, NoMemory>
        ensures { IfOk result (λ loaded. loaded ≡ self.now) }
    {
        Ok(Loaded {
            repo: self.repo.copy(alloc)?,
            folders: self.folders.copy(alloc)?,
            found: self.found,
        })
    }
}

/// The repository that stands in a tree, or the first refusal in reading order.
///
/// `Tree` comes with the path of the call that failed, and only where the tree's count of faults rose: a step asks there, behind
/// steps that pass. `NotARepository` comes where a list that has to be there is no file;
/// `Limit` with the limit's number where it is passed: a path of more than 4,096 bytes that would be read or listed, a file
/// of more than 16,777,216 bytes, a file after 400,000 that were found, and a stack of more than 4,096 visits.
pub fn load<T: Tree>(alloc: Global, tree: &mut T) -> Result<Repo, LoadFault>
    ensures repo { IfOk result (λ repo. IfSome (T.files tree.old) (λ files. loading (look_of files) ≡ Ok repo)) }
    ensures bodies { IfOk result (λ repo. length repo.bodies ≡ length repo.pkgs) }
    ensures order { IfOk result (λ repo. AreInPackageOrder repo.pkgs) }
    ensures own { IfOk result (λ repo. HaveOwnLines repo.profiles) }
    ensures classless { IfOk result (λ repo. AreClassless repo.notes) }
    ensures cause { IfErr result (LoadCause (T.files tree.old) (T.faults tree.old) (T.faults tree.new)) }
    ensures here { IfErr result (IsOfPath (T.failed_at tree.new)) }
    ensures files { T.files tree.new ≡ T.files tree.old }
    ensures root { T.entered tree.new ≡ T.entered tree.old }
    ensures lent { T.lent tree.new ≡ T.lent tree.old }
    ensures later { T.faults tree.old ≤ T.faults tree.new }
    ensures calm { OnOk result (T.faults tree.new ≡ T.faults tree.old) }
{
    match load_counted(alloc, tree) {
        Ok(loaded) => Ok(loaded.repo),
        Err(fault) => Err(fault),
    }
}

/// The same, with the folders that stand there and exactly the number of files that were found.
pub fn load_counted<T: Tree>(alloc: Global, tree: &mut T) -> Result<Loaded, LoadFault>
    ensures repo { IfOk result (λ loaded. IfSome (T.files tree.old) (λ files. loading (look_of files) ≡ Ok loaded.repo)) }
    ensures found { IfOk result (λ loaded. IfSome (T.files tree.old) (λ files. PassesWithin files loaded.found)) }
    ensures exact { IfOk result (λ loaded. IfSome (T.files tree.old) (λ files. Finds files loaded.found)) }
    ensures folders { IfOk result (λ loaded. IfSome (T.files tree.old) (λ files. loaded.folders ≡ folders_of (look_of files))) }
    ensures bodies { IfOk result (λ loaded. length loaded.repo.bodies ≡ length loaded.repo.pkgs) }
    ensures order { IfOk result (λ loaded. AreInPackageOrder loaded.repo.pkgs) }
    ensures own { IfOk result (λ loaded. HaveOwnLines loaded.repo.profiles) }
    ensures classless { IfOk result (λ loaded. AreClassless loaded.repo.notes) }
    ensures cause { IfErr result (LoadCause (T.files tree.old) (T.faults tree.old) (T.faults tree.new)) }
    ensures here { IfErr result (IsOfPath (T.failed_at tree.new)) }
    ensures files { T.files tree.new ≡ T.files tree.old }
    ensures root { T.entered tree.new ≡ T.entered tree.old }
    ensures lent { T.lent tree.new ≡ T.lent tree.old }
    ensures later { T.faults tree.old ≤ T.faults tree.new }
    ensures calm { OnOk result (T.faults tree.new ≡ T.faults tree.old) }
{
    let paths = top_paths(alloc)?;
    let names = dir_names(alloc)?;
    let mut reader = Reader::new(alloc);
    match read_repo(alloc, &mut reader, tree, &paths, &names) {
        Ok(read) => Ok(Loaded {
            repo: read.repo,
            folders: read.folders,
            found: reader.found(),
        }),
        Err(fault) => Err(fault),
    }
}

// A repository and its folders.
#[derive(Drop)]
struct RepoRead {
    repo: Repo,
    folders: Folders,
}

// Reads the lists, the profiles and the packages.
fn read_repo<T: Tree>(
    alloc: Global,
    reader: &mut Reader,
    tree: &mut T,
    paths: &TopPaths,
    names: &Layout,
) -> Result<RepoRead, LoadFault>
    requires knows { Knows (T.files tree.old) reader.old }
    requires paths { paths.now ≡ top_paths }
    requires names { names.now ≡ layout }
    ensures reads { Reads T.failed_at (view T.files T.faults T.entered T.lent) tree.old tree.new (λ look. load_steps look) (λ look value. IsRepoOf look value) reader.old reader.new result }
    ensures bodies { IfOk result (λ read. length read.repo.bodies ≡ length read.repo.pkgs) }
    ensures order { IfOk result (λ read. AreInPackageOrder read.repo.pkgs) }
    ensures own { IfOk result (λ read. HaveOwnLines read.repo.profiles) }
    ensures classless { IfOk result (λ read. AreClassless read.repo.notes) }
{
    let lists = read_lists(alloc, reader, tree, paths)?;
    let profiled = read_profiles(alloc, reader, tree, names, &lists.masks, &lists.lines)?;
    let kepts = read_packages(alloc, reader, tree, &lists.categories)?;
    Ok(repo_with(alloc, lists, profiled, kepts)?)
}

#[tactic(auto, using(crate::specs::NoteClasses::of_parts))]
fn repo_with(
    alloc: Global,
    lists: Lists,
    profiled: Profiled,
    kepts: PfsKept,
) -> Result<RepoRead, NoMemory>
    ensures repo { IfOk result (λ read. read.repo ≡ repo_with lists profiled kepts) }
    ensures folders { IfOk result (λ read. read.folders ≡ folders_with lists profiled) }
    ensures bodies { IfOk result (λ read. length read.repo.bodies ≡ length read.repo.pkgs) }
    ensures order { IfOk result (λ read. AreInPackageOrder read.repo.pkgs) }
    ensures classless { IfOk result (λ read. AreClassless read.repo.notes) }
{
    let notes = notes_with(alloc, &lists, &profiled, &kepts)?;
    let packages = packages_in(alloc, kepts)?;
    let repo = Repo {
        pkgs: packages.pkgs,
        bodies: packages.bodies,
        profiles: profiled.profiles,
        lines: lists.lines,
        notes,
    };
    let folders = Folders {
        categories: lists.categories,
        directories: profiled.directories,
    };
    Ok(RepoRead { repo, folders })
}

fn notes_with(
    alloc: Global,
    lists: &Lists,
    profiled: &Profiled,
    kepts: &PfsKept,
) -> Result<Reports, NoMemory>
    ensures { IfOk result (λ notes. notes ≡ notes_with lists.now profiled.now kepts.now) }
{
    let mut notes = Reports::new(alloc);
    add_places(alloc, &mut notes, Keyword::ProfileNote, &lists.notes)?;
    add_places(alloc, &mut notes, Keyword::ProfileNote, &profiled.notes)?;
    add_places(alloc, &mut notes, Keyword::ProfileError, &profiled.errors)?;
    add_pfs(alloc, &mut notes, kepts)?;
    Ok(notes)
}
