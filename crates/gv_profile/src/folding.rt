//! What a stack comes to, folded directory by directory.
//!
//! Each time that a directory is reached it costs O(the bytes of its make.defaults and of the variables so far), and what
//! `sources` says of its lines.
ghost use Rattle.std.specs.Prelude.{◌≡◌, Some, map, IfOk};
ghost use Rattle.std.specs.FinMap as finite;
ghost use Rattle.gv_base.specs.Order.{has_text};
ghost use Rattle.gv_defaults.specs.Settings.{words_of};
ghost use Rattle.gv_facts.specs.Visible.{testing};
ghost use Rattle.gv_profile.specs.MaskLines.{masks_of};
ghost use Rattle.gv_profile.specs.Folding.{vars_with, with_files, with_dir, start, value_list, profile_with};
ghost use Rattle.gv_profile.specs.Names.{accept_keywords, iuse_implicit, use_expand, use_expand_implicit, use_expand_unprefixed, use_expand_values};

use crate::mask_lines::{MaskLines, masks_of};
use crate::{DescLine, DirFiles, Room, Sources};
use gv_base::{NoMemory, Text, Texts};
use gv_defaults::{Vars, read_defaults};
use gv_facts::{Masks, Profile, Rules, ValueList, ValueLists, has_testing};
use std::alloc::Global;

/// What the directories so far come to.
#[derive(Drop)]
pub(crate) struct Folded {
    vars: Vars,
    lines: MaskLines,
    rules: Rules,
}

/// Before the first directory there are the repository's own masks.
pub(crate) fn start(
    alloc: Global,
    sources: &mut Sources<'_>,
    room: &mut Room,
) -> Result<Folded, NoMemory>
    ensures same { sources.new ≡ sources.old }
    ensures folded { IfOk result (λ folded. folded ≡ start sources.old.first) }
{
    room.begin(sources.first())?;
    let mut lines = MaskLines::new(alloc);
    sources.add_first(&mut lines)?;
    Ok(Folded {
        vars: Vars::within(alloc, room.values),
        lines,
        rules: Rules::new(alloc),
    })
}

/// One directory more.
pub(crate) fn with_dir(
    alloc: Global,
    sources: &mut Sources<'_>,
    folded: Folded,
    dir: &Text,
    room: &mut Room,
) -> Result<Folded, NoMemory>
    ensures same { sources.new ≡ sources.old }
    ensures folded { IfOk result (λ after. after ≡ with_dir (finite.get sources.old.dirs) folded dir.now) }
{
    match sources.dirs().get(dir.bytes()) {
        Some(files) => with_files(alloc, sources, folded, dir, files, room),
        None => Ok(folded),
    }
}

/// The profile of a line whose whole stack was folded.
pub(crate) fn profile_with(
    alloc: Global,
    line: &DescLine,
    folded: Folded,
    room: &mut Room,
) -> Result<Profile, NoMemory>
    ensures { IfOk result (λ profile. profile ≡ profile_with line.now folded) }
{
    let Folded { vars, lines, rules } = folded;
    let masks = masks_within(alloc, lines, &vars, &rules, room)?;
    match bare_profile(alloc, line, &vars) {
        Ok(bare) => Ok(with_parts(bare, masks, rules)),
        Err(refused) => Err(refused),
    }
}

// The masks of the lines, for which there has to be room, with what else a profile keeps.
fn masks_within(
    alloc: Global,
    lines: MaskLines,
    vars: &Vars,
    rules: &Rules,
    room: &mut Room,
) -> Result<Masks, NoMemory>
    ensures { IfOk result (λ masks. masks ≡ masks_of lines) }
{
    let masks = masks_of(alloc, lines)?;
    room.values = vars.room();
    room.keep(rules.items().len().saturating_add(masks.items().len()))?;
    Ok(masks)
}

// A profile but for its masks and rules.
#[derive(Drop)]
struct BareProfile {
    testing: bool,
    iuse_implicit: Texts,
    expand: Texts,
    expand_implicit: Texts,
    unprefixed: Texts,
    values: ValueLists,
    line: DescLine,
}

fn bare_profile(alloc: Global, line: &DescLine, vars: &Vars) -> Result<BareProfile, NoMemory>
    ensures { IfOk result (λ bare. bare ≡ record {
      testing = has_text (words_of (finite.get vars.now accept_keywords)) (testing line.now.arch);
      iuse_implicit = words_of (finite.get vars.now iuse_implicit);
      expand = words_of (finite.get vars.now use_expand);
      expand_implicit = words_of (finite.get vars.now use_expand_implicit);
      unprefixed = words_of (finite.get vars.now use_expand_unprefixed);
      values = map (value_list vars.now) (words_of (finite.get vars.now use_expand_implicit));
      line = line.now;
    }) }
{
    let expand_implicit = use_expand_implicit(alloc, vars)?;
    let values = value_lists(alloc, vars, &expand_implicit)?;
    Ok(BareProfile {
        testing: accepts_testing(alloc, vars, &line.arch)?,
        iuse_implicit: iuse_implicit(alloc, vars)?,
        expand: use_expand(alloc, vars)?,
        expand_implicit,
        unprefixed: use_expand_unprefixed(alloc, vars)?,
        values,
        line: line.copy(alloc)?,
    })
}

fn with_parts(bare: BareProfile, masks: Masks, rules: Rules) -> Profile
    ensures { result ≡ record {
      line = bare.line.number;
      arch = bare.line.arch;
      path = bare.line.path;
      status = bare.line.status;
      testing = bare.testing;
      iuse_implicit = bare.iuse_implicit;
      expand = bare.expand;
      expand_implicit = bare.expand_implicit;
      unprefixed = bare.unprefixed;
      values = bare.values;
      masks = masks;
      rules = rules;
    } }
{
    let BareProfile {
        testing,
        iuse_implicit,
        expand,
        expand_implicit,
        unprefixed,
        values,
        line,
    } = bare;
    let DescLine {
        number,
        arch,
        path,
        status,
    } = line;
    Profile {
        line: number,
        arch,
        path,
        status,
        testing,
        iuse_implicit,
        expand,
        expand_implicit,
        unprefixed,
        values,
        masks,
        rules,
    }
}

fn vars_with(alloc: Global, vars: Vars, defaults: &Option<Text>) -> Result<Vars, NoMemory>
    ensures { IfOk result (λ after. after ≡ vars_with vars defaults.now) }
{
    match defaults {
        Some(bytes) => {
            let read = read_defaults(alloc, bytes.bytes(), &vars)?;
            Ok(read.vars)
        }
        None => Ok(vars),
    }
}

fn with_files(
    alloc: Global,
    sources: &mut Sources<'_>,
    folded: Folded,
    dir: &Text,
    files: &DirFiles,
    room: &mut Room,
) -> Result<Folded, NoMemory>
    requires { finite.get sources.old.dirs dir.now ≡ Some files.now }
    ensures same { sources.new ≡ sources.old }
    ensures folded { IfOk result (λ after. after ≡ with_files folded (Some files.now)) }
{
    let Folded {
        vars,
        mut lines,
        mut rules,
    } = folded;
    room.visit(files)?;
    let vars = vars_with(alloc, vars, &files.defaults)?;
    sources.add_dir(dir, files, &mut lines, &mut rules)?;
    Ok(Folded { vars, lines, rules })
}

#[tactic(auto, unfolding(crate::specs::Names::accept_keywords))]
fn accept_keywords(alloc: Global, vars: &Vars) -> Result<Texts, NoMemory>
    ensures { IfOk result (λ words. words ≡ words_of (finite.get vars.now accept_keywords)) }
{
    vars.words(alloc, b"ACCEPT_KEYWORDS")
}

// Whether ACCEPT_KEYWORDS has the arch with `~`.
fn accepts_testing(alloc: Global, vars: &Vars, arch: &Text) -> Result<bool, NoMemory>
    ensures { IfOk result (λ accepts. accepts ≡ has_text (words_of (finite.get vars.now accept_keywords)) (testing arch.now)) }
{
    let words = accept_keywords(alloc, vars)?;
    Ok(has_testing(&words, arch.bytes()))
}

#[tactic(auto, unfolding(crate::specs::Names::iuse_implicit))]
fn iuse_implicit(alloc: Global, vars: &Vars) -> Result<Texts, NoMemory>
    ensures { IfOk result (λ words. words ≡ words_of (finite.get vars.now iuse_implicit)) }
{
    vars.words(alloc, b"IUSE_IMPLICIT")
}

#[tactic(auto, unfolding(crate::specs::Names::use_expand))]
fn use_expand(alloc: Global, vars: &Vars) -> Result<Texts, NoMemory>
    ensures { IfOk result (λ words. words ≡ words_of (finite.get vars.now use_expand)) }
{
    vars.words(alloc, b"USE_EXPAND")
}

#[tactic(auto, unfolding(crate::specs::Names::use_expand_implicit))]
fn use_expand_implicit(alloc: Global, vars: &Vars) -> Result<Texts, NoMemory>
    ensures { IfOk result (λ words. words ≡ words_of (finite.get vars.now use_expand_implicit)) }
{
    vars.words(alloc, b"USE_EXPAND_IMPLICIT")
}

#[tactic(auto, unfolding(crate::specs::Names::use_expand_unprefixed))]
fn use_expand_unprefixed(alloc: Global, vars: &Vars) -> Result<Texts, NoMemory>
    ensures { IfOk result (λ words. words ≡ words_of (finite.get vars.now use_expand_unprefixed)) }
{
    vars.words(alloc, b"USE_EXPAND_UNPREFIXED")
}

#[tactic(auto, unfolding(crate::specs::Names::use_expand_values))]
fn values_name(alloc: Global, name: &Text) -> Result<Text, NoMemory>
    ensures { IfOk result (λ text. text ≡ use_expand_values name.now) }
{
    let mut text = Text::of(alloc, b"USE_EXPAND_VALUES_")?;
    text.append(name.bytes())?;
    Ok(text)
}

fn value_list(alloc: Global, vars: &Vars, name: &Text) -> Result<ValueList, NoMemory>
    ensures { IfOk result (λ list. list ≡ value_list vars.now name.now) }
{
    let variable = values_name(alloc, name)?;
    let words = vars.words(alloc, variable.bytes())?;
    let name = name.copy(alloc)?;
    Ok(ValueList { name, words })
}

fn value_lists(alloc: Global, vars: &Vars, names: &Texts) -> Result<ValueLists, NoMemory>
    ensures { IfOk result (λ lists. lists ≡ map (value_list vars.now) names.now) }
{
    let mut lists = ValueLists::new(alloc);
    for name in names.items() {
        lists.add(value_list(alloc, vars, name)?)?;
    }
    Ok(lists)
}
