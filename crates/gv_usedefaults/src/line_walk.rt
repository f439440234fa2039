//! Reads the files of profile directories whose lines are looked at one by one, from some directories on by parents, depth
//! first.
//!
//! A directory costs O(log n) comparisons of paths for n directories for each line that names it, and once its eight paths,
//! those of its file directories, and O(the bytes that are there). What is ahead is kept in a list, so that no depth ends the
//! program's own stack.
ghost use Rattle.std.specs.Prelude.{◌≡◌, ◌⊎◌, ◌≤◌, [], ◌∷◌, ◌++◌, true, map, reverse, IfOk, IfErr, IfSome, OnOk, Ok};
ghost use Rattle.gv_base.specs.Order.{has_text};
ghost use Rattle.gv_reading.specs.Causes.{Knows, Reads, view};
ghost use Rattle.gv_usedefaults.specs.LineFiles.{LinesCause, are_all, are_small, comes_to_end, dir_line_files, dir_line_steps, dirs_files, dirs_steps, is_plain, kind_files, kind_steps, kinds_behind, kinds_files, kinds_steps, line_file, line_files, line_steps, most_turns, parents_at, parents_by, path_files, path_steps, paths_in, reading_lines, to_come};
ghost use Rattle.gv_usedefaults.specs.LineTurns.{HasEntered, HasTurned, IsNoNeed, IsTurning, ahead_of, turn_steps};
ghost use Rattle.gv_reading.specs.Look.{look_of};
ghost use Rattle.gv_reading.specs.NamedFiles.{plain_file};
ghost use Rattle.gv_reading.specs.Reading.{read};
ghost use Rattle.gv_profile.specs.Names.{profiles};

use crate::file_kinds::{FileKind, LineFile, is_plain, kind_name};
use gv_base::{Found, NoMemory, Text, Texts, Tree, add_key, has_key};
use gv_load::mask_path;
use gv_profile::{parents, top_dir};
use gv_reading::{LoadFault, NamedFile, NamedFiles, Reader, read_files, within};
use std::alloc::Global;
use std::collections::BTreeSet;

const MAX_FILE_BYTES: usize = 16_777_216;

// What is read in a directory behind its parents, in order.
const KINDS_BEHIND: [FileKind; 7] = [
    FileKind::Defaults,
    FileKind::Use,
    FileKind::Mask,
    FileKind::UseMask,
    FileKind::UseForce,
    FileKind::StableMask,
    FileKind::StableForce,
];

/// What was read so far, and what is still gone to.
#[derive(Drop)]
pub(crate) struct Turning {
    files: Vec<LineFile>,
    // The directories that were read, in order, and as a set.
    order: Texts,
    set: BTreeSet<Text>,
    // The next one last.
    ahead: Vec<Text>,
}

/// The files whose lines are looked at: the repository's own masks, and then those of the directories that are reached by
/// parents from these, each when it is first reached, its `parent` first. Each path is read once. A directory that isn't
/// there is one without files.
///
/// The faults are those of loading, but for one that a file isn't there.
pub(crate) fn read_line_files<T: Tree>(
    alloc: Global,
    tree: &mut T,
    starts: &Texts,
) -> Result<Vec<LineFile>, LoadFault>
    ensures read { IfOk result (λ read. IfSome (T.files tree.old) (λ files. reading_lines (look_of files) starts.now ≡ Ok read.items)) }
    ensures all { OnOk result (IfSome (T.files tree.old) (λ files. are_all (look_of files) starts.now ≡ true)) }
    ensures small { IfOk result (λ read. are_small read.items ≡ true) }
    ensures cause { IfErr result (LinesCause (T.files tree.old) (T.faults tree.old) (T.faults tree.new) starts.now) }
    ensures files { T.files tree.new ≡ T.files tree.old }
    ensures root { T.entered tree.new ≡ T.entered tree.old }
    ensures lent { T.lent tree.new ≡ T.lent tree.old }
    ensures later { T.faults tree.old ≤ T.faults tree.new }
    ensures calm { OnOk result (T.faults tree.new ≡ T.faults tree.old) }
{
    let mut reader = Reader::new(alloc);
    match read_lines(alloc, &mut reader, tree, starts) {
        Ok(files) => when_small(files),
        Err(fault) => Err(without_need(fault)),
    }
}

/// The paths that the bytes of a `parent` name from a directory, without those that leave the root or are the root.
pub(crate) fn paths_in(alloc: Global, dir: &Text, bytes: &[u8]) -> Result<Texts, NoMemory>
    ensures { IfOk result (λ paths. paths ≡ paths_in dir.now bytes.now) }
{
    let mut paths = Texts::new(alloc);
    let lines = parents(alloc, dir, bytes)?;
    for line in lines.items() {
        match &line.path {
            Some(path) => paths.add(path.copy(alloc)?)?,
            None => {}
        }
    }
    Ok(paths)
}

fn are_small(files: &[LineFile]) -> bool
    ensures { result ≡ are_small files.now }
{
    for file in files {
        if file.bytes.bytes().len() > MAX_FILE_BYTES {
            return false;
        }
    }
    true
}

// No tree gives a larger file. Of one that did, memory is said to be wanting.
fn when_small(files: Vec<LineFile>) -> Result<Vec<LineFile>, LoadFault>
    ensures same { IfOk result (λ read. read.items ≡ files.items) }
    ensures small { IfOk result (λ read. are_small read.items ≡ true) }
    ensures fault { IfErr result (λ fault. fault ≡ LoadFault.NoMemory) }
{
    if are_small(&files) {
        Ok(files)
    } else {
        Err(LoadFault::NoMemory)
    }
}

// No step asks that a file be there, so this fault doesn't come. Of one that did, memory is said to be wanting.
fn without_need(fault: LoadFault) -> LoadFault
    ensures { ((result ≡ fault) × IsNoNeed fault) ⊎ (result ≡ LoadFault.NoMemory) }
{
    match fault {
        LoadFault::Tree { path } => LoadFault::Tree { path },
        LoadFault::Limit { place, number } => LoadFault::Limit { place, number },
        LoadFault::NotARepository { .. } | LoadFault::NoMemory => LoadFault::NoMemory,
    }
}

fn paths_by(alloc: Global, dir: &Text, files: &NamedFiles) -> Result<Texts, NoMemory>
    ensures { IfOk result (λ paths. paths ≡ parents_by dir.now files.now) }
{
    let mut paths = Texts::new(alloc);
    for file in files.items() {
        add_paths(
            alloc,
            &mut paths,
            &paths_in(alloc, dir, file.bytes.bytes())?,
        )?;
    }
    Ok(paths)
}

fn add_paths(alloc: Global, paths: &mut Texts, more: &Texts) -> Result<(), NoMemory>
    ensures { OnOk result (paths.new ≡ paths.old ++ more.now) }
{
    for path in more.items() {
        paths.add(path.copy(alloc)?)?;
    }
    Ok(())
}

// A file of a directory.
fn line_file(
    alloc: Global,
    dir: &Text,
    kind: FileKind,
    file: NamedFile,
) -> Result<LineFile, NoMemory>
    ensures { IfOk result (λ read. read ≡ line_file dir.now kind file) }
{
    let NamedFile { path, bytes } = file;
    let dir = dir.copy(alloc)?;
    Ok(LineFile {
        dir,
        kind,
        path,
        bytes,
    })
}

fn add_files(
    alloc: Global,
    files: &mut Vec<LineFile>,
    dir: &Text,
    kind: FileKind,
    named: Vec<NamedFile>,
) -> Result<(), NoMemory>
    ensures { OnOk result (files.new.items ≡ files.old.items ++ map (line_file dir.now kind) named.items) }
{
    for file in named {
        files.push(line_file(alloc, dir, kind, file)?)?;
    }
    Ok(())
}

fn add_named(
    alloc: Global,
    files: &mut Vec<LineFile>,
    dir: &Text,
    kind: FileKind,
    named: NamedFiles,
) -> Result<(), NoMemory>
    ensures { OnOk result (files.new.items ≡ files.old.items ++ map (line_file dir.now kind) named) }
{
    add_files(alloc, files, dir, kind, named.into_items())
}

// The file at a path, if there is one.
fn read_plain<T: Tree>(
    alloc: Global,
    reader: &mut Reader,
    tree: &mut T,
    path: &Text,
) -> Result<NamedFiles, LoadFault>
    requires { Knows (T.files tree.old) reader.old }
    ensures { Reads T.failed_at (view T.files T.faults T.entered T.lent) tree.old tree.new (λ look. read path.now ∷ []) (λ look named. named ≡ plain_file path.now (look.found path.now)) reader.old reader.new result }
{
    let found = reader.read(tree, path)?;
    Ok(plain_file(alloc, path, found)?)
}

fn plain_file(alloc: Global, path: &Text, found: Found) -> Result<NamedFiles, NoMemory>
    ensures { IfOk result (λ named. named ≡ plain_file path.now found) }
{
    let mut named = NamedFiles::new(alloc);
    match found {
        Found::File(bytes) => named.add(NamedFile {
            path: path.copy(alloc)?,
            bytes,
        })?,
        Found::Dir | Found::Absent => {}
    }
    Ok(named)
}

// A path that may be a folder of files, or may not.
fn read_path<T: Tree>(
    alloc: Global,
    reader: &mut Reader,
    tree: &mut T,
    plain: bool,
    path: &Text,
) -> Result<NamedFiles, LoadFault>
    requires { Knows (T.files tree.old) reader.old }
    ensures { Reads T.failed_at (view T.files T.faults T.entered T.lent) tree.old tree.new (λ look. path_steps look plain path.now) (λ look named. named ≡ path_files look plain path.now) reader.old reader.new result }
{
    if plain {
        read_plain(alloc, reader, tree, path)
    } else {
        read_files(alloc, reader, tree, path)
    }
}

// The path of one kind in a directory.
fn read_kind<T: Tree>(
    alloc: Global,
    reader: &mut Reader,
    tree: &mut T,
    dir: &Text,
    kind: &FileKind,
    files: &mut Vec<LineFile>,
) -> Result<(), LoadFault>
    requires { Knows (T.files tree.old) reader.old }
    ensures { Reads T.failed_at (view T.files T.faults T.entered T.lent) tree.old tree.new (λ look. kind_steps look dir.now kind.now) (λ look _. files.new.items ≡ files.old.items ++ kind_files look dir.now kind.now) reader.old reader.new result }
{
    let path = within(alloc, dir, kind_name(*kind))?;
    let named = read_path(alloc, reader, tree, is_plain(*kind), &path)?;
    Ok(add_named(alloc, files, dir, *kind, named)?)
}

fn read_kinds<T: Tree>(
    alloc: Global,
    reader: &mut Reader,
    tree: &mut T,
    dir: &Text,
    kinds: &[FileKind],
    files: &mut Vec<LineFile>,
) -> Result<(), LoadFault>
    requires { Knows (T.files tree.old) reader.old }
    ensures { Reads T.failed_at (view T.files T.faults T.entered T.lent) tree.old tree.new (λ look. kinds_steps look dir.now kinds.now) (λ look _. files.new.items ≡ files.old.items ++ kinds_files look dir.now kinds.now) reader.old reader.new result }
{
    for kind in kinds {
        read_kind(alloc, reader, tree, dir, kind, files)?;
    }
    Ok(())
}

// The `parent` of a directory, and the paths that it names.
fn read_parent<T: Tree>(
    alloc: Global,
    reader: &mut Reader,
    tree: &mut T,
    dir: &Text,
    files: &mut Vec<LineFile>,
) -> Result<Texts, LoadFault>
    requires { Knows (T.files tree.old) reader.old }
    ensures { Reads T.failed_at (view T.files T.faults T.entered T.lent) tree.old tree.new (λ look. kind_steps look dir.now FileKind.Parent)
        (λ look paths. (files.new.items ≡ files.old.items ++ kind_files look dir.now FileKind.Parent) × (paths ≡ parents_at look dir.now)) reader.old reader.new result }
{
    let path = within(alloc, dir, kind_name(FileKind::Parent))?;
    let named = read_path(alloc, reader, tree, true, &path)?;
    Ok(keep_parent(alloc, dir, named, files)?)
}

fn keep_parent(
    alloc: Global,
    dir: &Text,
    named: NamedFiles,
    files: &mut Vec<LineFile>,
) -> Result<Texts, NoMemory>
    ensures files { OnOk result (files.new.items ≡ files.old.items ++ map (line_file dir.now FileKind.Parent) named) }
    ensures paths { IfOk result (λ paths. paths ≡ parents_by dir.now named) }
{
    let paths = paths_by(alloc, dir, &named)?;
    add_named(alloc, files, dir, FileKind::Parent, named)?;
    Ok(paths)
}

// The files of a directory, and the paths of its parents.
fn read_dir<T: Tree>(
    alloc: Global,
    reader: &mut Reader,
    tree: &mut T,
    dir: &Text,
    files: &mut Vec<LineFile>,
) -> Result<Texts, LoadFault>
    requires { Knows (T.files tree.old) reader.old }
    ensures { Reads T.failed_at (view T.files T.faults T.entered T.lent) tree.old tree.new (λ look. dir_line_steps look dir.now)
        (λ look paths. (files.new.items ≡ files.old.items ++ dir_line_files look dir.now) × (paths ≡ parents_at look dir.now)) reader.old reader.new result }
{
    let paths = read_parent(alloc, reader, tree, dir, files)?;
    read_kinds(alloc, reader, tree, dir, &KINDS_BEHIND, files)?;
    Ok(paths)
}

// The last path comes first.
fn push_ahead(ahead: &mut Vec<Text>, mut paths: Vec<Text>) -> Result<(), NoMemory>
    ensures { OnOk result (ahead.new.items ≡ ahead.old.items ++ reverse paths.items) }
{
    while let Some(path) = paths.pop() {
        ahead.push(path)?;
    }
    Ok(())
}

fn copied(alloc: Global, paths: &Texts) -> Result<Vec<Text>, NoMemory>
    ensures { IfOk result (λ copies. copies.items ≡ paths.now) }
{
    let mut copies = Vec::new(alloc);
    for path in paths.items() {
        copies.push(path.copy(alloc)?)?;
    }
    Ok(copies)
}

// Notes that a directory was read, with the paths of its parents.
fn with_dir(alloc: Global, turning: Turning, dir: Text, paths: Texts) -> Result<Turning, NoMemory>
    requires { IsTurning turning }
    ensures files { IfOk result (λ t. t.files.items ≡ turning.files.items) }
    ensures order { IfOk result (λ t. t.order ≡ turning.order ++ dir ∷ []) }
    ensures ahead { IfOk result (λ t. t.ahead.items ≡ turning.ahead.items ++ reverse paths) }
    ensures indexed { IfOk result IsTurning }
{
    let Turning {
        files,
        mut order,
        mut set,
        mut ahead,
    } = turning;
    push_ahead(&mut ahead, copied(alloc, &paths)?)?;
    add_key(&mut set, dir.copy(alloc)?)?;
    order.add(dir)?;
    Ok(Turning {
        files,
        order,
        set,
        ahead,
    })
}

// Goes to a directory that was not read before.
fn enter<T: Tree>(
    alloc: Global,
    reader: &mut Reader,
    tree: &mut T,
    turning: Turning,
    dir: Text,
) -> Result<Turning, LoadFault>
    requires knows { Knows (T.files tree.old) reader.old }
    requires indexed { IsTurning turning }
    ensures reads { Reads T.failed_at (view T.files T.faults T.entered T.lent) tree.old tree.new (λ look. dir_line_steps look dir) (λ look t. HasEntered look turning dir t) reader.old reader.new result }
    ensures order { IfOk result (λ t. t.order ≡ turning.order ++ dir ∷ []) }
    ensures indexed { IfOk result IsTurning }
{
    let Turning {
        mut files,
        order,
        set,
        ahead,
    } = turning;
    let paths = read_dir(alloc, reader, tree, &dir, &mut files)?;
    let turning = Turning {
        files,
        order,
        set,
        ahead,
    };
    Ok(with_dir(alloc, turning, dir, paths)?)
}

// Goes to the next directory.
fn turn<T: Tree>(
    alloc: Global,
    reader: &mut Reader,
    tree: &mut T,
    turning: Turning,
    dir: Text,
) -> Result<Turning, LoadFault>
    requires knows { Knows (T.files tree.old) reader.old }
    requires indexed { IsTurning turning }
    ensures reads { Reads T.failed_at (view T.files T.faults T.entered T.lent) tree.old tree.new (λ look. turn_steps look turning.order dir) (λ look t. HasTurned look turning dir t) reader.old reader.new result }
    ensures indexed { IfOk result IsTurning }
{
    if has_key(&turning.set, &dir) {
        return Ok(turning);
    }
    match enter(alloc, reader, tree, turning, dir) {
        Ok(turning) => Ok(turning),
        Err(fault) => Err(fault),
    }
}

#[tactic(auto, unfolding(crate::specs::LineFiles::most_turns))]
fn most_turns() -> u64
    ensures { result ≡ most_turns }
{
    u64::MAX
}

// Goes to all that is ahead, and to what that leads to.
fn read_ahead<T: Tree>(
    alloc: Global,
    reader: &mut Reader,
    tree: &mut T,
    turning: Turning,
) -> Result<Vec<LineFile>, LoadFault>
    requires knows { Knows (T.files tree.old) reader.old }
    requires indexed { IsTurning turning }
    ensures { Reads T.failed_at (view T.files T.faults T.entered T.lent) tree.old tree.new
        (λ look. dirs_steps look (to_come most_turns (parents_at look) turning.order (ahead_of turning)))
        (λ look files. (files.items ≡ turning.files.items ++ dirs_files look (to_come most_turns (parents_at look) turning.order (ahead_of turning)))
        × (comes_to_end most_turns (parents_at look) turning.order (ahead_of turning) ≡ true)) reader.old reader.new result }
{
    let mut now = turning;
    let mut turns = most_turns();
    while turns > 0 {
        turns -= 1;
        let Some(dir) = now.ahead.pop() else {
            return Ok(now.files);
        };
        now = turn(alloc, reader, tree, now, dir)?;
    }
    Err(LoadFault::NoMemory)
}

// Before the first directory there are the repository's own masks.
fn begin(alloc: Global, top: &Text, own: NamedFiles, starts: &Texts) -> Result<Turning, NoMemory>
    ensures files { IfOk result (λ t. t.files.items ≡ map (line_file top.now FileKind.Mask) own) }
    ensures order { IfOk result (λ t. t.order ≡ []) }
    ensures ahead { IfOk result (λ t. ahead_of t ≡ starts.now) }
    ensures indexed { IfOk result IsTurning }
{
    let mut files = Vec::new(alloc);
    let mut ahead = Vec::new(alloc);
    add_named(alloc, &mut files, top, FileKind::Mask, own)?;
    push_ahead(&mut ahead, copied(alloc, starts)?)?;
    Ok(Turning {
        files,
        order: Texts::new(alloc),
        set: BTreeSet::new(alloc),
        ahead,
    })
}

fn read_lines<T: Tree>(
    alloc: Global,
    reader: &mut Reader,
    tree: &mut T,
    starts: &Texts,
) -> Result<Vec<LineFile>, LoadFault>
    requires { Knows (T.files tree.old) reader.old }
    ensures { Reads T.failed_at (view T.files T.faults T.entered T.lent) tree.old tree.new (λ look. line_steps look starts.now) (λ look files. (files.items ≡ line_files look starts.now) × (are_all look starts.now ≡ true)) reader.old reader.new result }
{
    let path = mask_path(alloc)?;
    let top = top_dir(alloc)?;
    let own = read_files(alloc, reader, tree, &path)?;
    let turning = begin(alloc, &top, own, starts)?;
    match read_ahead(alloc, reader, tree, turning) {
        Ok(files) => Ok(files),
        Err(fault) => Err(fault),
    }
}
