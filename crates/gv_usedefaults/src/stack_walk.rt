//! The stack of a directory by the `parent` files that were read, made without recursion.
//!
//! A visit costs the bytes of the directory's `parent`, O(log n) comparisons of paths for each parent with n directories on
//! the way, and a copy of the path. At most 4,096 directories are visited.
ghost use Rattle.std.specs.Prelude.{◌≡◌, ◌+◌, ◌<◌, ◌||◌, false, if◌then◌else◌, List, ℕ, [], ◌∷◌, ◌++◌, map, flat_map, reverse, IfOk, OnOk};
ghost use Rattle.std.specs.Str.{bytes_eq};
ghost use Rattle.gv_base.specs.Order.{has_text};
ghost use Rattle.gv_usedefaults.specs.Going.{GoesOn, ahead_of};
ghost use Rattle.gv_usedefaults.specs.PrivateWords.{added_at};
ghost use Rattle.gv_usedefaults.specs.Stacks.{file_parents, parents_in, stack_from, unless_long};

use crate::line_walk::paths_in;
use crate::{FileKind, LineFile, LineFiles};
use gv_base::{NoMemory, Text, Texts, add_key, has_key};
use std::alloc::Global;
use std::collections::BTreeSet;

const MAX_VISITS: u32 = 4096;

/// What is still ahead.
#[derive(Drop)]
pub(crate) enum Ahead {
    /// A directory is come to, unless it is on the way.
    Come { dir: Text },
    /// A directory's parents are done, and it comes into the stack.
    Done { dir: Text },
}

/// A stack that is made.
#[derive(Drop)]
pub(crate) struct Going {
    stack: Texts,
    // The next one last.
    ahead: Vec<Ahead>,
    // The directories on the way.
    way: BTreeSet<Text>,
    visits: u32,
}

/// The stack of a directory; none where it has more than 4,096 visits.
pub(crate) fn stack_from(
    alloc: Global,
    files: &LineFiles,
    dir: Text,
) -> Result<Option<Texts>, NoMemory>
    ensures { IfOk result (λ stack. stack ≡ unless_long (stack_from files.now dir)) }
{
    let mut going = begin(alloc, dir)?;
    let mut turns = u64::MAX;
    while turns > 0 {
        turns -= 1;
        let Some(next) = going.ahead.pop() else {
            return Ok(Some(going.stack));
        };
        match go_on(alloc, files, going, next)? {
            Some(on) => going = on,
            None => return Ok(None),
        }
    }
    Err(NoMemory)
}

fn file_parents(alloc: Global, file: &LineFile) -> Result<Texts, NoMemory>
    ensures { IfOk result (λ paths. paths ≡ file_parents file.now) }
{
    match file.kind {
        FileKind::Parent => paths_in(alloc, &file.dir, file.bytes.bytes()),
        _ => Ok(Texts::new(alloc)),
    }
}

// What stands at a place adds its parents.
fn add_parents(
    alloc: Global,
    paths: &mut Vec<Text>,
    files: &[LineFile],
    place: u32,
) -> Result<(), NoMemory>
    ensures { OnOk result (paths.new.items ≡ paths.old.items ++ added_at file_parents files.now place) }
{
    match files.get(place as usize) {
        Some(file) => {
            let more = file_parents(alloc, file)?;
            add_paths(alloc, paths, &more)
        }
        None => Ok(()),
    }
}

fn add_paths(alloc: Global, paths: &mut Vec<Text>, more: &Texts) -> Result<(), NoMemory>
    ensures { OnOk result (paths.new.items ≡ paths.old.items ++ more.now) }
{
    for path in more.items() {
        paths.push(path.copy(alloc)?)?;
    }
    Ok(())
}

#[tactic(auto, using(crate::proofs::Places::added_all))]
fn parents_in(alloc: Global, files: &LineFiles, dir: &Text) -> Result<Vec<Text>, NoMemory>
    ensures { IfOk result (λ paths. paths.items ≡ parents_in files.now dir.now) }
{
    parents_at(alloc, files.items(), files.in_dir(dir.bytes()))
}

fn parents_at(alloc: Global, files: &[LineFile], places: &[u32]) -> Result<Vec<Text>, NoMemory>
    ensures { IfOk result (λ paths. paths.items ≡ flat_map (added_at file_parents files.now) places.now) }
{
    let mut paths = Vec::new(alloc);
    for place in places {
        add_parents(alloc, &mut paths, files, *place)?;
    }
    Ok(paths)
}

fn begin(alloc: Global, dir: Text) -> Result<Going, NoMemory>
    ensures stack { IfOk result (λ g. g.stack ≡ []) }
    ensures ahead { IfOk result (λ g. ahead_of g ≡ Ahead.Come dir ∷ []) }
    ensures way { IfOk result (λ g. (text : List ℕ) → has_text g.way.keys text ≡ false) }
    ensures visits { IfOk result (λ g. g.visits ≡ 0) }
{
    let mut ahead = Vec::new(alloc);
    ahead.push(Ahead::Come { dir })?;
    Ok(Going {
        stack: Texts::new(alloc),
        ahead,
        way: BTreeSet::new(alloc),
        visits: 0,
    })
}

// The first is come to first.
fn push_coming(ahead: &mut Vec<Ahead>, mut paths: Vec<Text>) -> Result<(), NoMemory>
    ensures { OnOk result (ahead.new.items ≡ ahead.old.items ++ reverse (map Ahead.Come paths.items)) }
{
    while let Some(dir) = paths.pop() {
        ahead.push(Ahead::Come { dir })?;
    }
    Ok(())
}

// Comes to a directory that isn't on the way.
fn enter(alloc: Global, files: &LineFiles, going: Going, dir: Text) -> Result<Going, NoMemory>
    requires { going.visits < 4096 }
    ensures stack { IfOk result (λ g. g.stack ≡ going.stack) }
    ensures ahead { IfOk result (λ g. g.ahead.items ≡ (going.ahead.items ++ Ahead.Done dir ∷ []) ++ reverse (map Ahead.Come (parents_in files.now dir))) }
    ensures way { IfOk result (λ g. (text : List ℕ) → has_text g.way.keys text ≡ (bytes_eq text dir || has_text going.way.keys text)) }
    ensures visits { IfOk result (λ g. g.visits ≡ going.visits + 1) }
{
    let Going {
        stack,
        mut ahead,
        mut way,
        visits,
    } = going;
    let parents = parents_in(alloc, files, &dir)?;
    add_key(&mut way, dir.copy(alloc)?)?;
    ahead.push(Ahead::Done { dir })?;
    push_coming(&mut ahead, parents)?;
    Ok(Going {
        stack,
        ahead,
        way,
        visits: visits + 1,
    })
}

fn cut_key(set: &mut BTreeSet<Text>, text: &Text)
    ensures { (other : List ℕ) → has_text set.new.keys other ≡ (if bytes_eq text.now other then false else has_text set.old.keys other) }
{
    set.remove(text);
}

// A directory whose parents are done comes into the stack.
fn leave(going: Going, dir: Text) -> Result<Going, NoMemory>
    ensures stack { IfOk result (λ g. g.stack ≡ going.stack ++ dir ∷ []) }
    ensures ahead { IfOk result (λ g. g.ahead.items ≡ going.ahead.items) }
    ensures way { IfOk result (λ g. (text : List ℕ) → has_text g.way.keys text ≡ (if bytes_eq dir text then false else has_text going.way.keys text)) }
    ensures visits { IfOk result (λ g. g.visits ≡ going.visits) }
{
    let Going {
        mut stack,
        ahead,
        mut way,
        visits,
    } = going;
    cut_key(&mut way, &dir);
    stack.add(dir)?;
    Ok(Going {
        stack,
        ahead,
        way,
        visits,
    })
}

// Takes what was next; none where that is a visit too many.
fn go_on(
    alloc: Global,
    files: &LineFiles,
    going: Going,
    next: Ahead,
) -> Result<Option<Going>, NoMemory>
    ensures on { IfOk result (λ on. (whole : List (List ℕ)) → GoesOn (parents_in files.now) whole going next on) }
{
    match next {
        Ahead::Done { dir } => Ok(Some(leave(going, dir)?)),
        Ahead::Come { dir } => come(alloc, files, going, dir),
    }
}

fn come(
    alloc: Global,
    files: &LineFiles,
    going: Going,
    dir: Text,
) -> Result<Option<Going>, NoMemory>
    ensures on { IfOk result (λ on. (whole : List (List ℕ)) → GoesOn (parents_in files.now) whole going (Ahead.Come dir) on) }
{
    if has_key(&going.way, &dir) {
        return Ok(Some(going));
    }
    if going.visits >= MAX_VISITS {
        return Ok(None);
    }
    Ok(Some(enter(alloc, files, going, dir)?))
}
