//! What the directories of a stack say: variables by their make.defaults, and words by their `package.use`.
//!
//! A directory costs O(log n) comparisons of paths, O(the bytes of its files), and for a make.defaults O(the bytes of the variables so
//! far).
ghost use Rattle.std.specs.Prelude.{◌≡◌, ◌++◌, flat_map, fold, IfOk, OnOk};
ghost use Rattle.gv_usedefaults.specs.Defaults.{dir_words, file_words, vars_over, with_dir, with_file, words_over};
ghost use Rattle.gv_usedefaults.specs.PrivateWords.{added_at, vars_at};

use crate::{FileKind, LineFile, LineFiles};
use gv_base::{NoMemory, Text};
use gv_defaults::{Vars, read_defaults};
use gv_facts::Rules;
use gv_profile::add_forcing_lines;
use std::alloc::Global;

/// The variables behind the make.defaults of these directories.
pub(crate) fn vars_over(
    alloc: Global,
    files: &LineFiles,
    vars: Vars,
    dirs: &[Text],
) -> Result<Vars, NoMemory>
    ensures { IfOk result (λ after. after ≡ vars_over files.now vars dirs.now) }
{
    let mut vars = vars;
    for dir in dirs {
        vars = with_dir(alloc, files, vars, dir)?;
    }
    Ok(vars)
}

/// The words of the `package.use` files of these directories, as rules that force.
pub(crate) fn words_over(alloc: Global, files: &LineFiles, dirs: &[Text]) -> Result<Rules, NoMemory>
    ensures { IfOk result (λ rules. rules ≡ words_over files.now dirs.now) }
{
    let mut rules = Rules::new(alloc);
    for dir in dirs {
        add_dir_words(alloc, files, &mut rules, dir)?;
    }
    Ok(rules)
}

fn with_file(alloc: Global, vars: Vars, file: &LineFile) -> Result<Vars, NoMemory>
    ensures { IfOk result (λ after. after ≡ with_file vars file.now) }
{
    match file.kind {
        FileKind::Defaults => {
            let read = read_defaults(alloc, file.bytes.bytes(), &vars)?;
            Ok(read.vars)
        }
        _ => Ok(vars),
    }
}

fn with_place(alloc: Global, vars: Vars, files: &[LineFile], place: u32) -> Result<Vars, NoMemory>
    ensures { IfOk result (λ after. after ≡ vars_at files.now vars place) }
{
    match files.get(place as usize) {
        Some(file) => with_file(alloc, vars, file),
        None => Ok(vars),
    }
}

fn with_places(
    alloc: Global,
    vars: Vars,
    files: &[LineFile],
    places: &[u32],
) -> Result<Vars, NoMemory>
    ensures { IfOk result (λ after. after ≡ fold (vars_at files.now) vars places.now) }
{
    let mut vars = vars;
    for place in places {
        vars = with_place(alloc, vars, files, *place)?;
    }
    Ok(vars)
}

#[tactic(auto, using(crate::proofs::Places::vars_all))]
fn with_dir(alloc: Global, files: &LineFiles, vars: Vars, dir: &Text) -> Result<Vars, NoMemory>
    ensures { IfOk result (λ after. after ≡ with_dir files.now vars dir.now) }
{
    with_places(alloc, vars, files.items(), files.in_dir(dir.bytes()))
}

fn add_file_words(alloc: Global, rules: &mut Rules, file: &LineFile) -> Result<(), NoMemory>
    ensures { OnOk result (rules.new ≡ rules.old ++ file_words file.now) }
{
    match file.kind {
        FileKind::Use => add_forcing_lines(alloc, rules, file.bytes.bytes()),
        _ => Ok(()),
    }
}

fn add_place_words(
    alloc: Global,
    rules: &mut Rules,
    files: &[LineFile],
    place: u32,
) -> Result<(), NoMemory>
    ensures { OnOk result (rules.new ≡ rules.old ++ added_at file_words files.now place) }
{
    match files.get(place as usize) {
        Some(file) => add_file_words(alloc, rules, file),
        None => Ok(()),
    }
}

fn add_places_words(
    alloc: Global,
    rules: &mut Rules,
    files: &[LineFile],
    places: &[u32],
) -> Result<(), NoMemory>
    ensures { OnOk result (rules.new ≡ rules.old ++ flat_map (added_at file_words files.now) places.now) }
{
    for place in places {
        add_place_words(alloc, rules, files, *place)?;
    }
    Ok(())
}

#[tactic(auto, using(crate::proofs::Places::added_all))]
fn add_dir_words(
    alloc: Global,
    files: &LineFiles,
    rules: &mut Rules,
    dir: &Text,
) -> Result<(), NoMemory>
    ensures { OnOk result (rules.new ≡ rules.old ++ dir_words files.now dir.now) }
{
    add_places_words(alloc, rules, files.items(), files.in_dir(dir.bytes()))
}
