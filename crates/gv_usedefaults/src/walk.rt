//! The walk over the profiles of a repository: the files whose lines are looked at, and the stack of each profile.
//!
//! Costs what `line_walk` says of reading, and for each profile what `stack_walk` says of a visit for each directory of its
//! stack.
ghost use Rattle.std.specs.Prelude.{◌≡◌, ◌≤◌, [], ◌∷◌, ◌++◌, false, true, None, map, option_to_list, Ok, IfOk, IfErr, IfSome, OnOk};
ghost use Rattle.gv_usedefaults.specs.LineFiles.{are_all};
ghost use Rattle.gv_reading.specs.Look.{look_of};
ghost use Rattle.gv_load.specs.StackLimits.{LimitIs};
ghost use Rattle.gv_usedefaults.specs.Stacks.{is_long, unless_long};
ghost use Rattle.gv_usedefaults.specs.Walk.{IsWalk, WalkCause, dir_of, dirs_of, first_long, stack_of, starts_of, walking};

use crate::line_walk::read_line_files;
use crate::stack_walk::stack_from;
use crate::{LineFile, LineFiles, Stack, Stacks};
use gv_base::{NoMemory, Text, Texts, Tree};
use gv_facts::{Profile, Profiles};
use gv_load::{LoadFault, Repo, stack_limit};
use gv_profile::word_dir;
use std::alloc::Global;

/// What a walk over the profiles of a repository read.
#[derive(Drop)]
pub struct Walk {
    /// The repository's own masks, whose directory is `profiles`, and then the files of each directory when it was first
    /// reached.
    pub files: LineFiles,
    /// One for each profile, in line order.
    pub stacks: Stacks,
}

/// Reads what the profiles of a repository say of packages and of defaults, and makes their stacks.
///
/// First `profiles/package.mask` is read, then the directories of the profiles, profile by profile in line order, depth first
/// by parents, each when it is first reached. In a directory come `parent`, `make.defaults`, `package.use`, `package.mask`,
/// `package.use.mask`, `package.use.force` and their stable forms, and then its parents. All but the first two may be folders
/// of files. Each path is read once.
///
/// `Tree` comes with the path of the call that failed, and only where the tree's count of faults rose; `Limit` where one of
/// loading is passed, with the files counted anew, or where a stack has more than 4,096 visits; `NotARepository` never. Where
/// the tree doesn't tell its files, a parent that isn't there is a directory without files, and a directory among its own
/// ancestors isn't followed again.
pub fn walk_files<T: Tree>(alloc: Global, tree: &mut T, repo: &Repo) -> Result<Walk, LoadFault>
    ensures walk { IfOk result (λ walk. IfSome (T.files tree.old) (λ files. walking (look_of files) repo.now.profiles ≡ Ok walk)) }
    ensures all { OnOk result (IfSome (T.files tree.old) (λ files. are_all (look_of files) (starts_of repo.now.profiles) ≡ true)) }
    ensures made { IfOk result (IsWalk repo.now.profiles) }
    ensures cause { IfErr result (WalkCause (T.files tree.old) (T.faults tree.old) (T.faults tree.new) repo.now.profiles) }
    ensures files { T.files tree.new ≡ T.files tree.old }
    ensures root { T.entered tree.new ≡ T.entered tree.old }
    ensures lent { T.lent tree.new ≡ T.lent tree.old }
    ensures later { T.faults tree.old ≤ T.faults tree.new }
    ensures calm { OnOk result (T.faults tree.new ≡ T.faults tree.old) }
{
    let starts = starts_of(alloc, repo.profiles.items())?;
    let files = read_line_files(alloc, tree, &starts)?;
    stacked(alloc, files, &repo.profiles)
}

fn starts_of(alloc: Global, profiles: &[Profile]) -> Result<Texts, NoMemory>
    ensures { IfOk result (λ starts. starts ≡ starts_of profiles.now) }
{
    let mut starts = Texts::new(alloc);
    for profile in profiles {
        add_start(alloc, &mut starts, profile)?;
    }
    Ok(starts)
}

fn add_start(alloc: Global, starts: &mut Texts, profile: &Profile) -> Result<(), NoMemory>
    ensures { OnOk result (starts.new ≡ starts.old ++ option_to_list (dir_of profile.now)) }
{
    match word_dir(alloc, &profile.path)? {
        Some(dir) => starts.add(dir),
        None => Ok(()),
    }
}

// The directories of a profile's stack; none where they are too many.
fn dirs_of(alloc: Global, files: &LineFiles, profile: &Profile) -> Result<Option<Texts>, NoMemory>
    ensures { IfOk result (λ dirs. dirs ≡ unless_long (dirs_of files.now (dir_of profile.now))) }
{
    match word_dir(alloc, &profile.path)? {
        Some(dir) => stack_from(alloc, files, dir),
        None => Ok(Some(Texts::new(alloc))),
    }
}

fn add_stack(
    alloc: Global,
    files: &LineFiles,
    profile: &Profile,
    stacks: &mut Stacks,
) -> Result<(), LoadFault>
    ensures added { OnOk result (stacks.new ≡ stacks.old ++ stack_of files.now profile.now ∷ []) }
    ensures short { OnOk result (is_long (dirs_of files.now (dir_of profile.now)) ≡ false) }
    ensures cause { IfErr result (LimitIs (first_long files.now (profile.now ∷ []))) }
{
    match dirs_of(alloc, files, profile)? {
        Some(dirs) => {
            let line = profile.line;
            stacks.add(Stack { line, dirs })?;
            Ok(())
        }
        None => Err(stack_limit(alloc, &profile.path)),
    }
}

fn stacks_of(alloc: Global, files: &LineFiles, profiles: &[Profile]) -> Result<Stacks, LoadFault>
    ensures stacks { IfOk result (λ stacks. stacks ≡ map (stack_of files.now) profiles.now) }
    ensures short { OnOk result (first_long files.now profiles.now ≡ None) }
    ensures cause { IfErr result (LimitIs (first_long files.now profiles.now)) }
{
    let mut stacks = Stacks::new(alloc);
    for profile in profiles {
        add_stack(alloc, files, profile, &mut stacks)?;
    }
    Ok(stacks)
}

// The stacks of the profiles by these files.
fn stacked(alloc: Global, files: Vec<LineFile>, profiles: &Profiles) -> Result<Walk, LoadFault>
    ensures files { IfOk result (λ walk. walk.files ≡ files.items) }
    ensures stacks { IfOk result (λ walk. walk.stacks ≡ map (stack_of files.items) profiles.now) }
    ensures short { OnOk result (first_long files.items profiles.now ≡ None) }
    ensures cause { IfErr result (LimitIs (first_long files.items profiles.now)) }
{
    let files = LineFiles::of(alloc, files)?;
    let stacks = stacks_of(alloc, &files, profiles.items())?;
    Ok(Walk { files, stacks })
}
