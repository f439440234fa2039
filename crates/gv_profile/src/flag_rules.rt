//! The rules on flags of a profile directory. Reading costs O(bytes). The rules of a line share its atom.
ghost use Rattle.std.specs.Prelude.{◌≡◌, ◌++◌, ◌∷◌, [], false, true, map, IfOk, OnOk};
ghost use Rattle.gv_profile.specs.FlagLines.{is_off};
ghost use Rattle.gv_profile.specs.Lines.{file_lines};
ghost use Rattle.gv_profile.specs.FlagRules.{rule_of, line_rules, rules_among, rules_in, masks, forces, stable_rules, dir_rules};

use crate::eapi::has_stable;
use crate::flag_lines::{FlagLine, flag_line, flag_of, flag_words};
use crate::lines::line_words;
use crate::room::MAX_FLAGS;
use crate::{DirFiles, NamedFiles};
use gv_atom::{Atom, SharedAtom};
use gv_base::{Cut, NoMemory, Text, next_piece};
use gv_facts::{Effect, Rule, Rules};
use std::alloc::Global;

/// What the rules of a file do, whether they are for stable packages alone, and whether each line begins with an atom.
#[derive(Clone, Copy)]
pub(crate) struct RuleFile {
    effect: Effect,
    stable: bool,
    by_package: bool,
}

/// Adds the rules that the bytes of a file have whose lines are as those of `package.use.force`: an atom, then flags.
pub fn add_forcing_lines(alloc: Global, rules: &mut Rules, bytes: &[u8]) -> Result<(), NoMemory>
    ensures { OnOk result (rules.new ≡ rules.old ++ rules_among (forces false true) (file_lines bytes.now)) }
{
    let forcing = RuleFile {
        effect: Effect::Force,
        stable: false,
        by_package: true,
    };
    add_bytes(alloc, rules, forcing, bytes)
}

/// Adds the rules of a directory: those of plain files, stable files, package files and stable package files.
pub(crate) fn add_dir_rules(
    alloc: Global,
    rules: &mut Rules,
    files: &DirFiles,
) -> Result<(), NoMemory>
    ensures { OnOk result (rules.new ≡ rules.old ++ dir_rules files.now) }
{
    add_both(
        alloc,
        rules,
        false,
        false,
        &files.use_mask,
        &files.use_force,
    )?;
    add_stable(
        alloc,
        rules,
        files,
        false,
        &files.use_stable_mask,
        &files.use_stable_force,
    )?;
    add_both(
        alloc,
        rules,
        false,
        true,
        &files.package_use_mask,
        &files.package_use_force,
    )?;
    add_stable(
        alloc,
        rules,
        files,
        true,
        &files.package_use_stable_mask,
        &files.package_use_stable_force,
    )
}

/// Adds copies of these rules.
pub(crate) fn add_copies(alloc: Global, rules: &mut Rules, more: &Rules) -> Result<(), NoMemory>
    ensures { OnOk result (rules.new ≡ rules.old ++ more.now) }
{
    for rule in more.items() {
        add_rule(rules, rule.copy(alloc)?)?;
    }
    Ok(())
}

// Adds a rule, where a stack has room for it.
fn add_rule(rules: &mut Rules, rule: Rule) -> Result<(), NoMemory>
    ensures { OnOk result (rules.new ≡ rules.old ++ rule ∷ []) }
{
    if rules.items().len() >= MAX_FLAGS {
        return Err(NoMemory);
    }
    rules.add(rule)
}

fn is_off(word: &[u8]) -> bool
    ensures { result ≡ is_off word.now }
{
    match word {
        [] => false,
        [b, ..] => *b == b'-',
    }
}

// The atom of a line, which its rules share.
fn shared_atom(alloc: Global, atom: Option<Atom>) -> Result<Option<SharedAtom>, NoMemory>
    ensures { IfOk result (λ shared. shared ≡ atom) }
{
    match atom {
        Some(atom) => Ok(Some(SharedAtom::new(alloc, atom)?)),
        None => Ok(None),
    }
}

fn share_atom(atom: &Option<SharedAtom>) -> Result<Option<SharedAtom>, NoMemory>
    ensures { IfOk result (λ shared. shared ≡ atom.now) }
{
    match atom {
        Some(atom) => Ok(Some(atom.share()?)),
        None => Ok(None),
    }
}

fn rule_of(
    alloc: Global,
    file: RuleFile,
    atom: &Option<SharedAtom>,
    word: &[u8],
) -> Result<Rule, NoMemory>
    ensures { IfOk result (λ rule. rule ≡ rule_of file atom.now word.now) }
{
    let atom = share_atom(atom)?;
    let flag = Text::of(alloc, flag_of(word))?;
    Ok(Rule {
        effect: file.effect,
        stable: file.stable,
        atom,
        flag,
        on: !is_off(word),
    })
}

// Adds a rule for each word.
fn add_words(
    alloc: Global,
    rules: &mut Rules,
    file: RuleFile,
    atom: &Option<SharedAtom>,
    words: &[Text],
) -> Result<(), NoMemory>
    ensures { OnOk result (rules.new ≡ rules.old ++ map (rule_of file atom.now) words.now) }
{
    for word in words {
        add_rule(rules, rule_of(alloc, file, atom, word.bytes())?)?;
    }
    Ok(())
}

fn add_line(
    alloc: Global,
    rules: &mut Rules,
    file: RuleFile,
    words: &[Text],
) -> Result<(), NoMemory>
    ensures { OnOk result (rules.new ≡ rules.old ++ line_rules file words.now) }
{
    let flags = flag_words(file.by_package, words);
    match flag_line(alloc, file.by_package, words)? {
        FlagLine::Blank => Ok(()),
        FlagLine::Good { atom } => {
            let atom = shared_atom(alloc, atom)?;
            add_words(alloc, rules, file, &atom, flags)
        }
        FlagLine::Bad { .. } => Ok(()),
    }
}

fn add_bytes(alloc: Global, rules: &mut Rules, file: RuleFile, bytes: &[u8]) -> Result<(), NoMemory>
    ensures { OnOk result (rules.new ≡ rules.old ++ rules_among file (file_lines bytes.now)) }
{
    let mut rest = Some(bytes);
    while let Some(line) = next_piece(&mut rest, Cut::Lines) {
        let words = line_words(alloc, line)?;
        add_line(alloc, rules, file, words.items())?;
    }
    Ok(())
}

fn add_files(
    alloc: Global,
    rules: &mut Rules,
    file: RuleFile,
    files: &NamedFiles,
) -> Result<(), NoMemory>
    ensures { OnOk result (rules.new ≡ rules.old ++ rules_in file files.now) }
{
    for named in files.items() {
        add_bytes(alloc, rules, file, named.bytes.bytes())?;
    }
    Ok(())
}

// The rules that mask, and then those that force.
fn add_both(
    alloc: Global,
    rules: &mut Rules,
    stable: bool,
    by_package: bool,
    masked: &NamedFiles,
    forced: &NamedFiles,
) -> Result<(), NoMemory>
    ensures { OnOk result (rules.new ≡ rules.old ++ (rules_in (masks stable by_package) masked.now ++ rules_in (forces stable by_package) forced.now)) }
{
    let masking = RuleFile {
        effect: Effect::Mask,
        stable,
        by_package,
    };
    let forcing = RuleFile {
        effect: Effect::Force,
        stable,
        by_package,
    };
    add_files(alloc, rules, masking, masked)?;
    add_files(alloc, rules, forcing, forced)
}

// Those of stable files, where they count.
fn add_stable(
    alloc: Global,
    rules: &mut Rules,
    files: &DirFiles,
    by_package: bool,
    masked: &NamedFiles,
    forced: &NamedFiles,
) -> Result<(), NoMemory>
    ensures { OnOk result (rules.new ≡ rules.old ++ stable_rules files.now (rules_in (masks true by_package) masked.now ++ rules_in (forces true by_package) forced.now)) }
{
    if has_stable(alloc, files)? {
        add_both(alloc, rules, true, by_package, masked, forced)
    } else {
        Ok(())
    }
}
