//! The directories that the lines of `profiles.desc` reach by parents, depth first, each read when it is first reached.
//!
//! A directory costs O(log n) comparisons of paths for n directories for each line that names it, and its files once. The
//! way is kept in a list, so that no depth ends the program's own stack.
ghost use Rattle.std.specs.Prelude.{◌≡◌, ◌∷◌, [], ◌++◌, ◌||◌, List, ℕ, false, length, IfOk, OnOk};
ghost use Rattle.std.specs.Str.{bytes_eq};
ghost use Rattle.gv_base.specs.Order.{has_text};
ghost use Rattle.gv_load.specs.Ahead.{reached_after, ahead_of, dirs_with, IsIndexed, HasVisited};
ghost use Rattle.gv_load.specs.Directories.{steps_of, dir_at, dir_steps};
ghost use Rattle.gv_load.specs.Going.{Reaches};
ghost use Rattle.gv_reading.specs.Causes.{Knows, Reads, view};
ghost use Rattle.gv_load.specs.Closed.{paths_left};
ghost use Rattle.gv_load.specs.PartsRead.{HasReached};
ghost use Rattle.gv_load.specs.Layout.{layout};
ghost use Rattle.gv_load.specs.Reaching.{paths_of, reach_below, reached_by, from_line};
ghost use Rattle.gv_profile.specs.Walking.{line_dir};

use crate::directories::read_directory;
use crate::layout::Layout;
use gv_base::{NoMemory, Text, Texts, Tree, add_key, has_key};
use gv_profile::{DescLine, DescLines, DirFiles, Dirs, line_dir, parents_of};
use gv_reading::{LoadFault, Reader};
use std::alloc::Global;
use std::collections::BTreeSet;

// The parents of a directory, of which the first were gone to.
#[derive(Drop)]
pub(crate) struct Ahead {
    paths: Texts,
    next: usize,
}

/// The paths that were reached, in order, and the files of those that are directories.
#[derive(Drop)]
pub(crate) struct Reached {
    /// Every path that was reached.
    pub order: Texts,
    set: BTreeSet<Text>,
    /// By path.
    pub dirs: Dirs,
}

// No chain is so long: each of its directories has a file, and more files are refused.
const MAX_DEPTH: u64 = 400_001;

/// The directories that the lines reach by parents, in the order in which they are read, with their files. Reading goes by
/// parents alone, also behind a fault of a stack. The stack of each line is the same over what was read as over the tree.
pub(crate) fn read_dirs<T: Tree>(
    alloc: Global,
    reader: &mut Reader,
    tree: &mut T,
    names: &Layout,
    lines: &DescLines,
) -> Result<Reached, LoadFault>
    requires knows { Knows (T.files tree.old) reader.old }
    requires names { names.now ≡ layout }
    ensures { Reads T.failed_at (view T.files T.faults T.entered T.lent) tree.old tree.new (λ look. steps_of look (reached_by (dir_at look) [] lines.now)) (λ look reached. HasReached look lines.now reached) reader.old reader.new result }
{
    let mut reached = Reached {
        order: Texts::new(alloc),
        set: BTreeSet::new(alloc),
        dirs: Dirs::new(alloc),
    };
    for line in lines.items() {
        reached = read_line(alloc, reader, tree, names, reached, line)?;
    }
    Ok(reached)
}

// The paths of a directory's parents.
fn paths_of(alloc: Global, dir: &Text, files: &DirFiles) -> Result<Texts, NoMemory>
    ensures { IfOk result (λ paths. paths ≡ paths_of dir.now files.now) }
{
    let mut paths = Texts::new(alloc);
    let parents = parents_of(alloc, dir, files)?;
    for parent in parents.items() {
        match &parent.path {
            Some(path) => paths.add(path.copy(alloc)?)?,
            None => {}
        }
    }
    Ok(paths)
}

fn push_ahead(
    alloc: Global,
    ahead: &mut Vec<Ahead>,
    dir: &Text,
    files: &Option<DirFiles>,
) -> Result<(), NoMemory>
    ensures { OnOk result (ahead.new.items ≡ ahead.old.items ++ ahead_of dir.now files.now) }
{
    match files {
        Some(files) => {
            let paths = paths_of(alloc, dir, files)?;
            ahead.push(Ahead { paths, next: 0 })?;
            Ok(())
        }
        None => Ok(()),
    }
}

fn keep_dir(dirs: &mut Dirs, dir: &Text, files: Option<DirFiles>) -> Result<(), NoMemory>
    ensures { OnOk result (dirs.new ≡ dirs_with dirs.old dir.now files) }
{
    match files {
        Some(files) => {
            dirs.put(dir, files)?;
            Ok(())
        }
        None => Ok(()),
    }
}

// Keeps the files of a path, where it is a directory, and its parents ahead.
fn keep_files(
    alloc: Global,
    dirs: &mut Dirs,
    dir: &Text,
    files: Option<DirFiles>,
    ahead: &mut Vec<Ahead>,
) -> Result<(), NoMemory>
    ensures dirs { OnOk result (dirs.new ≡ dirs_with dirs.old dir.now files) }
    ensures ahead { OnOk result (ahead.new.items ≡ ahead.old.items ++ ahead_of dir.now files) }
{
    match push_ahead(alloc, ahead, dir, &files) {
        Ok(()) => keep_dir(dirs, dir, files),
        Err(refused) => {
            drop(files);
            Err(refused)
        }
    }
}

// Adds a path to those that were reached.
fn add_path(
    alloc: Global,
    order: &mut Texts,
    set: &mut BTreeSet<Text>,
    path: Text,
) -> Result<(), NoMemory>
    ensures order { OnOk result (order.new ≡ order.old ++ path ∷ []) }
    ensures set { OnOk result ((text : List ℕ) → has_text set.new.keys text ≡ (bytes_eq text path || has_text set.old.keys text)) }
{
    add_key(set, path.copy(alloc)?)?;
    order.add(path)?;
    Ok(())
}

// Notes what was read of a path that was not reached before.
fn keep(
    alloc: Global,
    reached: Reached,
    dir: Text,
    files: Option<DirFiles>,
    ahead: &mut Vec<Ahead>,
) -> Result<Reached, NoMemory>
    requires { IsIndexed reached }
    ensures order { IfOk result (λ r. r.order ≡ reached.order ++ dir ∷ []) }
    ensures dirs { IfOk result (λ r. r.dirs ≡ dirs_with reached.dirs dir files) }
    ensures indexed { IfOk result IsIndexed }
    ensures ahead { OnOk result (ahead.new.items ≡ ahead.old.items ++ ahead_of dir files) }
{
    let Reached {
        mut order,
        mut set,
        mut dirs,
    } = reached;
    keep_files(alloc, &mut dirs, &dir, files, ahead)?;
    add_path(alloc, &mut order, &mut set, dir)?;
    Ok(Reached { order, set, dirs })
}

// Reads a path that was not reached before.
fn visit<T: Tree>(
    alloc: Global,
    reader: &mut Reader,
    tree: &mut T,
    names: &Layout,
    reached: Reached,
    dir: Text,
    ahead: &mut Vec<Ahead>,
) -> Result<Reached, LoadFault>
    requires knows { Knows (T.files tree.old) reader.old }
    requires names { names.now ≡ layout }
    requires indexed { IsIndexed reached }
    requires fresh { has_text reached.order dir ≡ false }
    ensures reads { Reads T.failed_at (view T.files T.faults T.entered T.lent) tree.old tree.new (λ look. dir_steps look dir) (λ look r. HasVisited (dir_at look) reached dir ahead.old.items ahead.new.items r) reader.old reader.new result }
    ensures order { IfOk result (λ r. r.order ≡ reached.order ++ dir ∷ []) }
    ensures indexed { IfOk result IsIndexed }
{
    let files = read_directory(alloc, reader, tree, names, &dir)?;
    Ok(keep(alloc, reached, dir, files, ahead)?)
}

// Comes to a path.
fn arrive<T: Tree>(
    alloc: Global,
    reader: &mut Reader,
    tree: &mut T,
    names: &Layout,
    reached: Reached,
    dir: Text,
    ahead: &mut Vec<Ahead>,
) -> Result<Reached, LoadFault>
    requires knows { Knows (T.files tree.old) reader.old }
    requires names { names.now ≡ layout }
    requires indexed { IsIndexed reached }
    ensures { Reaches T.failed_at (view T.files T.faults T.entered T.lent) tree.old tree.new reached (dir ∷ paths_left ahead.old.items) (λ dirs. reached_after dirs 0 ahead.old.items (reach_below dirs (length ahead.old.items) reached.order dir)) ahead.new.items reader.old reader.new result }
{
    if ahead.len() as u64 >= MAX_DEPTH {
        return Err(LoadFault::NoMemory);
    }
    if has_key(&reached.set, &dir) {
        return Ok(reached);
    }
    match visit(alloc, reader, tree, names, reached, dir, ahead) {
        Ok(reached) => Ok(reached),
        Err(fault) => Err(fault),
    }
}

// Goes to the next parent of the last directory.
fn go_on<T: Tree>(
    alloc: Global,
    reader: &mut Reader,
    tree: &mut T,
    names: &Layout,
    reached: Reached,
    mut rest: Ahead,
    ahead: &mut Vec<Ahead>,
) -> Result<Reached, LoadFault>
    requires knows { Knows (T.files tree.old) reader.old }
    requires names { names.now ≡ layout }
    requires indexed { IsIndexed reached }
    ensures { Reaches T.failed_at (view T.files T.faults T.entered T.lent) tree.old tree.new reached (paths_left (ahead.old.items ++ rest ∷ [])) (λ dirs. reached_after dirs 0 (ahead.old.items ++ rest ∷ []) reached.order) ahead.new.items reader.old reader.new result }
{
    let Some(path) = rest.paths.items().get(rest.next) else {
        return Ok(reached);
    };
    let Ok(path) = path.copy(alloc) else {
        return Err(LoadFault::NoMemory);
    };
    rest.next += 1;
    let Ok(()) = ahead.push(rest) else {
        return Err(LoadFault::NoMemory);
    };
    match arrive(alloc, reader, tree, names, reached, path, ahead) {
        Ok(reached) => Ok(reached),
        Err(fault) => Err(fault),
    }
}

// Reaches a directory and all that it leads to.
fn read_from<T: Tree>(
    alloc: Global,
    reader: &mut Reader,
    tree: &mut T,
    names: &Layout,
    reached: Reached,
    dir: Text,
) -> Result<Reached, LoadFault>
    requires knows { Knows (T.files tree.old) reader.old }
    requires names { names.now ≡ layout }
    requires indexed { IsIndexed reached }
    ensures { Reaches T.failed_at (view T.files T.faults T.entered T.lent) tree.old tree.new reached (dir ∷ []) (λ dirs. reach_below dirs 0 reached.order dir) [] reader.old reader.new result }
{
    let mut ahead = Vec::new(alloc);
    let mut now = match arrive(alloc, reader, tree, names, reached, dir, &mut ahead) {
        Ok(reached) => reached,
        Err(fault) => return Err(fault),
    };
    for _ in 0..u64::MAX {
        let Some(rest) = ahead.pop() else {
            return Ok(now);
        };
        now = match go_on(alloc, reader, tree, names, now, rest, &mut ahead) {
            Ok(reached) => reached,
            Err(fault) => return Err(fault),
        };
    }
    Err(LoadFault::NoMemory)
}

// Reaches the directory of a line, where it has one.
fn read_line<T: Tree>(
    alloc: Global,
    reader: &mut Reader,
    tree: &mut T,
    names: &Layout,
    reached: Reached,
    line: &DescLine,
) -> Result<Reached, LoadFault>
    requires knows { Knows (T.files tree.old) reader.old }
    requires names { names.now ≡ layout }
    requires indexed { IsIndexed reached }
    ensures { Reaches T.failed_at (view T.files T.faults T.entered T.lent) tree.old tree.new reached [] (λ dirs. from_line dirs reached.order (line_dir line.now)) [] reader.old reader.new result }
{
    match line_dir(alloc, line) {
        Ok(Some(dir)) => match read_from(alloc, reader, tree, names, reached, dir) {
            Ok(reached) => Ok(reached),
            Err(fault) => Err(fault),
        },
        Ok(None) => Ok(reached),
        Err(_) => Err(LoadFault::NoMemory),
    }
}
