//! How a query is named to people. O(profiles) steps.
ghost use Rattle.std.specs.Prelude.{◌≡◌, ◌++◌, IfOk, OnOk, option_copied};
ghost use Rattle.std.specs.List.{find};
ghost use Rattle.gv_report.specs.Line.{level_text};
ghost use Rattle.gv_run.specs.Naming.{has_line, name_text, pkg_at, pkg_text, profile_at, profile_text};

use gv_base::{NoMemory, Text};
use gv_checks::QueryName;
use gv_facts::{Level, Pkg, Profile, class_text};
use gv_load::Repo;
use std::alloc::Global;

/// CATEGORY/PF CLASS ARCH PATH LEVEL: of the package with the name's number, and of the profile with its line.
pub(crate) fn name_text(alloc: Global, repo: &Repo, name: &QueryName) -> Result<Text, NoMemory>
    ensures { IfOk result (λ text. text ≡ name_text repo.now name.now) }
{
    let mut text = Text::of(alloc, b"")?;
    append_pkg_at(&mut text, repo, name.package)?;
    text.append(b" ")?;
    text.append(class_text(name.class))?;
    text.append(b" ")?;
    append_profile_at(&mut text, repo, name.context.line)?;
    text.append(b" ")?;
    text.append(level_text(name.context.level))?;
    Ok(text)
}

fn level_text(level: Level) -> &'static [u8]
    ensures { result.now ≡ level_text level }
{
    match level {
        Level::Stable => b"stable",
        Level::Testing => b"testing",
    }
}

// CATEGORY/PF.
fn append_pkg(text: &mut Text, pkg: &Pkg) -> Result<(), NoMemory>
    ensures { OnOk result (text.new ≡ text.old ++ pkg_text pkg.now) }
{
    text.append(pkg.category.bytes())?;
    text.append(b"/")?;
    text.append(pkg.pf.bytes())
}

// ARCH PATH.
fn append_profile(text: &mut Text, profile: &Profile) -> Result<(), NoMemory>
    ensures { OnOk result (text.new ≡ text.old ++ profile_text profile.now) }
{
    text.append(profile.arch.bytes())?;
    text.append(b" ")?;
    text.append(profile.path.bytes())
}

fn append_pkg_at(text: &mut Text, repo: &Repo, number: u32) -> Result<(), NoMemory>
    ensures { OnOk result (text.new ≡ text.old ++ pkg_at repo.now number) }
{
    match repo.pkgs.items().get(number as usize) {
        Some(pkg) => append_pkg(text, pkg),
        None => Ok(()),
    }
}

// The profile of this line of the profile list, if there is one.
fn profile_of(profiles: &[Profile], line: u32) -> Option<&Profile>
    ensures { option_copied result ≡ find (has_line line) profiles.now }
{
    profiles.iter().find(|profile| profile.line == line)
}

fn append_profile_at(text: &mut Text, repo: &Repo, line: u32) -> Result<(), NoMemory>
    ensures { OnOk result (text.new ≡ text.old ++ profile_at repo.now line) }
{
    match profile_of(repo.profiles.items(), line) {
        Some(profile) => append_profile(text, profile),
        None => Ok(()),
    }
}
