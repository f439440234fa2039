//! The effective flags as a list.
ghost use Rattle.std.specs.Prelude.{◌≡◌, ◌++◌, map, IfOk, OnOk};
ghost use Rattle.std.specs.Str.{str_to_ascii_lowercase};
ghost use Rattle.gv_base.specs.Order.{HaveSameTexts, IsAscending};
ghost use Rattle.gv_facts.specs.Effective.{effective, expand_flags, flag_sources, prefixed, unprefixed_flags, values_of};
ghost use Rattle.gv_usestate.specs.FlagSets.{implicit_flags};

use gv_base::{NoMemory, Text, Texts};
use gv_facts::{Pkg, Profile, ValueLists};
use std::alloc::Global;

/// The effective flags of the package (PMS chapter 11) in byte order, each once: its IUSE, IUSE_IMPLICIT, and the values
/// of the variables that USE_EXPAND_IMPLICIT names: of those of USE_EXPAND with the name in small letters and `_` in
/// front, of those of USE_EXPAND_UNPREFIXED as they stand.
pub fn effective(alloc: Global, pkg: &Pkg, profile: &Profile) -> Result<Texts, NoMemory>
    ensures value { IfOk result (λ flags. flags ≡ effective pkg.now profile.now) }
    ensures ascends { IfOk result IsAscending }
    ensures members { IfOk result (HaveSameTexts (flag_sources pkg.now profile.now)) }
{
    let flags = sources(alloc, pkg, profile)?;
    flags.in_order(alloc)
}

// The name in small letters, `_` and the word.
fn prefixed(alloc: Global, name: &Text, word: &Text) -> Result<Text, NoMemory>
    ensures { IfOk result (λ flag. flag ≡ prefixed name.now word.now) }
{
    let mut flag = Text::of(alloc, b"")?;
    append_small(&mut flag, name.bytes())?;
    flag.append(b"_")?;
    flag.append(word.bytes())?;
    Ok(flag)
}

fn append_small(flag: &mut Text, name: &[u8]) -> Result<(), NoMemory>
    ensures { OnOk result (flag.new ≡ flag.old ++ str_to_ascii_lowercase name.now) }
{
    for letter in name {
        flag.append(&[letter.to_ascii_lowercase()])?;
    }
    Ok(())
}

fn add_words(alloc: Global, flags: &mut Texts, words: &Texts) -> Result<(), NoMemory>
    ensures { OnOk result (flags.new ≡ flags.old ++ words.now) }
{
    for word in words.items() {
        flags.add(word.copy(alloc)?)?;
    }
    Ok(())
}

fn add_prefixed(
    alloc: Global,
    flags: &mut Texts,
    name: &Text,
    words: &Texts,
) -> Result<(), NoMemory>
    ensures { OnOk result (flags.new ≡ flags.old ++ map (prefixed name.now) words.now) }
{
    for word in words.items() {
        flags.add(prefixed(alloc, name, word)?)?;
    }
    Ok(())
}

// Adds the values of this name.
fn add_values(
    alloc: Global,
    flags: &mut Texts,
    values: &ValueLists,
    name: &Text,
) -> Result<(), NoMemory>
    ensures { OnOk result (flags.new ≡ flags.old ++ values_of values.now name.now) }
{
    for list in values.items() {
        if list.name == *name {
            add_words(alloc, flags, &list.words)?;
        }
    }
    Ok(())
}

// Adds the values of this name, each behind the name.
fn add_name(
    alloc: Global,
    flags: &mut Texts,
    values: &ValueLists,
    name: &Text,
) -> Result<(), NoMemory>
    ensures { OnOk result (flags.new ≡ flags.old ++ map (prefixed name.now) (values_of values.now name.now)) }
{
    for list in values.items() {
        if list.name == *name {
            add_prefixed(alloc, flags, name, &list.words)?;
        }
    }
    Ok(())
}

fn add_expanded(alloc: Global, flags: &mut Texts, profile: &Profile) -> Result<(), NoMemory>
    ensures { OnOk result (flags.new ≡ flags.old ++ expand_flags profile.now) }
{
    for name in profile.expand.items() {
        if profile.expand_implicit.has(name.bytes()) {
            add_name(alloc, flags, &profile.values, name)?;
        }
    }
    Ok(())
}

fn add_unprefixed(alloc: Global, flags: &mut Texts, profile: &Profile) -> Result<(), NoMemory>
    ensures { OnOk result (flags.new ≡ flags.old ++ unprefixed_flags profile.now) }
{
    for name in profile.unprefixed.items() {
        if profile.expand_implicit.has(name.bytes()) {
            add_values(alloc, flags, &profile.values, name)?;
        }
    }
    Ok(())
}

/// Adds the flags that are effective in the profile for each package.
pub(crate) fn add_implicit(
    alloc: Global,
    flags: &mut Texts,
    profile: &Profile,
) -> Result<(), NoMemory>
    ensures { OnOk result (flags.new ≡ flags.old ++ implicit_flags profile.now) }
{
    add_words(alloc, flags, &profile.iuse_implicit)?;
    add_expanded(alloc, flags, profile)?;
    add_unprefixed(alloc, flags, profile)
}

// The sources, one behind the other.
fn sources(alloc: Global, pkg: &Pkg, profile: &Profile) -> Result<Texts, NoMemory>
    ensures { IfOk result (λ flags. flags ≡ flag_sources pkg.now profile.now) }
{
    let mut flags = Texts::new(alloc);
    add_words(alloc, &mut flags, &pkg.iuse)?;
    add_implicit(alloc, &mut flags, profile)?;
    Ok(flags)
}
