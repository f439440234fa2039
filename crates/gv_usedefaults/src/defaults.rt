//! What a profile's stack says of the defaults of flags.
//!
//! `defaults_of` costs what folding the stack's files costs, twice for the make.defaults, and O(n log n) comparisons of the n
//! IUSE flags of all packages. These are the same in each profile: `defaults_at` is given them.
ghost use Rattle.std.specs.Prelude.{◌≡◌, ◌++◌, true, flat_map, map, IfOk, OnOk};
ghost use Rattle.std.specs.FinMap as finite;
ghost use Rattle.gv_defaults.specs.Incremental.{is_incremental};
ghost use Rattle.gv_defaults.specs.Settings.{words_of};
ghost use Rattle.gv_usedefaults.specs.Defaults.{all_iuse, defaults_over, expand_name, expanded, use_in, use_name, use_of, value_list};
ghost use Rattle.gv_usedefaults.specs.Reports.{defaults_of};
ghost use Rattle.gv_usedefaults.specs.Walk.{dirs_at};

use crate::folding::{vars_over, words_over};
use crate::{LineFiles, Stacks, Walk, WordSet};
use gv_base::{NoMemory, Text, Texts};
use gv_defaults::{Vars, incremental_law};
use gv_facts::{Pkg, Rules, ValueList, ValueLists};
use gv_load::Repo;
use std::alloc::Global;

/// What the stack of a profile says of the defaults of flags.
#[derive(Drop)]
pub struct UseDefaults {
    /// USE, folded over the stack.
    pub on: WordSet,
    /// The same, as if the IUSE flags of all packages had been there before the first directory: a flag that isn't here was
    /// taken away.
    pub kept: WordSet,
    /// The words of the variables that USE_EXPAND names.
    pub expand: ValueLists,
    /// The words of `package.use`, as rules that force flags.
    pub rules: Rules,
}

/// The defaults of the profile of a line: nothing where the walk has no stack of it.
pub fn defaults_of(
    alloc: Global,
    repo: &Repo,
    walk: &Walk,
    line: u32,
) -> Result<UseDefaults, NoMemory>
    ensures { IfOk result (λ defaults. defaults ≡ defaults_of repo.now walk.now line) }
{
    defaults_at(alloc, walk, &all_iuse(alloc, repo.pkgs.items())?, line)
}

/// The same, where these are the IUSE flags of all packages.
pub(crate) fn defaults_at(
    alloc: Global,
    walk: &Walk,
    flags: &Texts,
    line: u32,
) -> Result<UseDefaults, NoMemory>
    ensures { IfOk result (λ defaults. defaults ≡ defaults_over walk.now.files flags.now (dirs_at walk.now.stacks line)) }
{
    let dirs = dirs_at(alloc, &walk.stacks, line)?;
    defaults_over(alloc, &walk.files, flags, dirs.items())
}

/// The IUSE flags of all packages, in byte order.
pub(crate) fn all_iuse(alloc: Global, pkgs: &[Pkg]) -> Result<Texts, NoMemory>
    ensures { IfOk result (λ flags. flags ≡ all_iuse pkgs.now) }
{
    let mut flags = Texts::new(alloc);
    for pkg in pkgs {
        add_iuse(alloc, &mut flags, pkg)?;
    }
    flags.in_order(alloc)
}

fn dirs_at(alloc: Global, stacks: &Stacks, line: u32) -> Result<Texts, NoMemory>
    ensures { IfOk result (λ dirs. dirs ≡ dirs_at stacks.now line) }
{
    match stacks.at(line) {
        Some(stack) => stack.dirs.copy(alloc),
        None => Ok(Texts::new(alloc)),
    }
}

fn add_iuse(alloc: Global, flags: &mut Texts, pkg: &Pkg) -> Result<(), NoMemory>
    ensures { OnOk result (flags.new ≡ flags.old ++ pkg.now.iuse) }
{
    for flag in pkg.iuse.items() {
        flags.add(flag.copy(alloc)?)?;
    }
    Ok(())
}

#[tactic(auto, using(crate::proofs::Names::use_incremental), unfolding(crate::specs::Defaults::use_name))]
fn use_of(alloc: Global, flags: &Texts) -> Result<Vars, NoMemory>
    ensures { IfOk result (λ vars. vars ≡ use_of flags.now) }
{
    incremental_law();
    Vars::with(alloc, b"USE", flags)
}

#[tactic(auto, unfolding(crate::specs::Defaults::use_name))]
fn use_words(alloc: Global, vars: &Vars) -> Result<Texts, NoMemory>
    ensures { IfOk result (λ words. words ≡ use_in vars.now) }
{
    vars.words(alloc, b"USE")
}

fn use_in(alloc: Global, vars: &Vars) -> Result<WordSet, NoMemory>
    ensures { IfOk result (λ words. words ≡ use_in vars.now) }
{
    WordSet::of(alloc, use_words(alloc, vars)?)
}

#[tactic(auto, unfolding(crate::specs::Defaults::expand_name))]
fn expand_names(alloc: Global, vars: &Vars) -> Result<Texts, NoMemory>
    ensures { IfOk result (λ words. words ≡ words_of (finite.get vars.now expand_name)) }
{
    vars.words(alloc, b"USE_EXPAND")
}

fn value_list(alloc: Global, vars: &Vars, name: &Text) -> Result<ValueList, NoMemory>
    ensures { IfOk result (λ list. list ≡ value_list vars.now name.now) }
{
    let words = vars.words(alloc, name.bytes())?;
    let name = name.copy(alloc)?;
    Ok(ValueList { name, words })
}

fn value_lists(alloc: Global, vars: &Vars, names: &[Text]) -> Result<ValueLists, NoMemory>
    ensures { IfOk result (λ lists. lists ≡ map (value_list vars.now) names.now) }
{
    let mut lists = ValueLists::new(alloc);
    for name in names {
        lists.add(value_list(alloc, vars, name)?)?;
    }
    Ok(lists)
}

fn expanded(alloc: Global, vars: &Vars) -> Result<ValueLists, NoMemory>
    ensures { IfOk result (λ lists. lists ≡ expanded vars.now) }
{
    let names = expand_names(alloc, vars)?;
    value_lists(alloc, vars, names.items())
}

fn defaults_over(
    alloc: Global,
    files: &LineFiles,
    flags: &Texts,
    dirs: &[Text],
) -> Result<UseDefaults, NoMemory>
    ensures { IfOk result (λ defaults. defaults ≡ defaults_over files.now flags.now dirs.now) }
{
    let vars = vars_over(alloc, files, Vars::new(alloc), dirs)?;
    let own = use_of(alloc, flags)?;
    let kept = vars_over(alloc, files, own, dirs)?;
    Ok(UseDefaults {
        on: use_in(alloc, &vars)?,
        kept: use_in(alloc, &kept)?,
        expand: expanded(alloc, &vars)?,
        rules: words_over(alloc, files, dirs)?,
    })
}
