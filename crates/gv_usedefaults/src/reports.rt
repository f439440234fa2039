//! The reports of REQUIRED_USE that the defaults of flags don't meet.
//!
//! The IUSE flags of all packages are put in order once. Each profile costs its defaults, and for each package that it judges
//! what `required` says, and where it is told the bytes of the report. A profile that the options leave out costs O(the options).
ghost use Rattle.std.specs.Prelude.{◌≡◌, ◌++◌, filter, flat_map, map, codes, if◌then◌else◌, [], option_to_list, IfOk, OnOk};
ghost use Rattle.gv_base.specs.Words.{joined};
ghost use Rattle.gv_facts.specs.Visible.{judged};
ghost use Rattle.gv_report.specs.Selecting.{selected};
ghost use Rattle.gv_usedefaults.specs.Asked.{on_of};
ghost use Rattle.gv_usedefaults.specs.Defaults.{all_iuse};
ghost use Rattle.gv_usedefaults.specs.Reports.{context_in, profile_reports, told_among, told_at, told_of, unmet, use_report, use_reports, witness_of, witness_word};
ghost use Rattle.gv_usedefaults.specs.Selected.{is_told, selected_in};

use crate::defaults::{all_iuse, defaults_at};
use crate::required::{Asked, all_hold, empty_holds};
use crate::{UseDefaults, Walk};
use gv_base::{NoMemory, Text, Texts};
use gv_entry::Body;
use gv_expr::{UseExpr, mentioned_required, print_required};
use gv_facts::{Level, Pkg, Profile};
use gv_load::Repo;
use gv_report::{ContextName, Keyword, Options, Report, Reports, Subject};
use gv_visible::judged;
use std::alloc::Global;

/// The selected reports of packages whose REQUIRED_USE doesn't hold where their flags have their defaults, profile by profile
/// and package by package. Such a report comes in each context in which the package is judged, where REQUIRED_USE isn't
/// broken; its witness has the flags that REQUIRED_USE mentions, with their defaults.
#[tactic(auto, using(crate::proofs::SelectedLemmas::all_selected))]
pub fn use_reports(
    alloc: Global,
    repo: &Repo,
    walk: &Walk,
    options: &Options,
) -> Result<Reports, NoMemory>
    ensures { IfOk result (λ reports. reports ≡ filter (selected options.now) (use_reports repo.now walk.now)) }
{
    let flags = all_iuse(alloc, repo.pkgs.items())?;
    reports_in(alloc, repo, walk, &flags, options, repo.profiles.items())
}

fn reports_in(
    alloc: Global,
    repo: &Repo,
    walk: &Walk,
    flags: &Texts,
    options: &Options,
    profiles: &[Profile],
) -> Result<Reports, NoMemory>
    requires { flags.now ≡ all_iuse repo.now.pkgs }
    ensures { IfOk result (λ reports. reports ≡ flat_map (selected_in options.now repo.now walk.now) profiles.now) }
{
    let mut reports = Reports::new(alloc);
    for profile in profiles {
        add_selected(alloc, repo, walk, flags, options, profile, &mut reports)?;
    }
    Ok(reports)
}

// Whether the options select the profile and the keyword.
fn is_told(options: &Options, profile: &Profile) -> bool
    ensures { result ≡ is_told options.now profile.now }
{
    if !options.keywords.has(Keyword::RequiredUseDefaults) {
        return false;
    }
    match &options.profiles {
        Some(paths) => paths.has(profile.path.bytes()),
        None => true,
    }
}

fn add_selected(
    alloc: Global,
    repo: &Repo,
    walk: &Walk,
    flags: &Texts,
    options: &Options,
    profile: &Profile,
    reports: &mut Reports,
) -> Result<(), NoMemory>
    requires { flags.now ≡ all_iuse repo.now.pkgs }
    ensures { OnOk result (reports.new ≡ reports.old ++ selected_in options.now repo.now walk.now profile.now) }
{
    if is_told(options, profile) {
        return add_profile(alloc, repo, walk, flags, profile, reports);
    }
    Ok(())
}

fn add_profile(
    alloc: Global,
    repo: &Repo,
    walk: &Walk,
    flags: &Texts,
    profile: &Profile,
    reports: &mut Reports,
) -> Result<(), NoMemory>
    requires { flags.now ≡ all_iuse repo.now.pkgs }
    ensures { OnOk result (reports.new ≡ reports.old ++ profile_reports repo.now walk.now profile.now) }
{
    let defaults = defaults_at(alloc, walk, flags, profile.line)?;
    add_members(
        alloc,
        profile,
        &defaults,
        repo.pkgs.items(),
        repo.bodies.items(),
        reports,
    )
}

fn add_members(
    alloc: Global,
    profile: &Profile,
    defaults: &UseDefaults,
    pkgs: &[Pkg],
    bodies: &[Body],
    reports: &mut Reports,
) -> Result<(), NoMemory>
    ensures { OnOk result (reports.new ≡ reports.old ++ told_among profile.now defaults.now pkgs.now bodies.now) }
{
    for (i, pkg) in pkgs.iter().enumerate() {
        if i >= bodies.len() {
            return Ok(());
        }
        add_member(alloc, profile, defaults, pkg, &bodies[i], reports)?;
    }
    Ok(())
}

fn add_member(
    alloc: Global,
    profile: &Profile,
    defaults: &UseDefaults,
    pkg: &Pkg,
    body: &Body,
    reports: &mut Reports,
) -> Result<(), NoMemory>
    ensures { OnOk result (reports.new ≡ reports.old ++ option_to_list (told_of profile.now defaults.now pkg.now body.now)) }
{
    match (judged(pkg, profile), &body.required) {
        (Some(level), Some(required)) => {
            let asked = Asked {
                pkg,
                profile,
                level,
                defaults,
            };
            add_unmet(alloc, &asked, required, reports)
        }
        _ => Ok(()),
    }
}

fn add_unmet(
    alloc: Global,
    asked: &Asked<'_>,
    required: &UseExpr,
    reports: &mut Reports,
) -> Result<(), NoMemory>
    ensures { OnOk result (reports.new ≡ reports.old ++ option_to_list (unmet asked.now.pkg.now asked.now.profile.now asked.now.level (on_of asked.now) required.now)) }
{
    if all_hold(required, asked, empty_holds(asked.pkg.eapi)) {
        return Ok(());
    }
    reports.add(use_report(alloc, asked, required)?)
}

fn subject_of(alloc: Global, pkg: &Pkg) -> Result<Subject, NoMemory>
    ensures { IfOk result (λ subject. subject ≡ Subject.Package pkg.now.category pkg.now.name pkg.now.version pkg.now.pf) }
{
    Ok(Subject::Package {
        category: pkg.category.copy(alloc)?,
        name: pkg.name.copy(alloc)?,
        version: pkg.version.copy(alloc)?,
        pf: pkg.pf.copy(alloc)?,
    })
}

fn context_in(alloc: Global, profile: &Profile, level: Level) -> Result<ContextName, NoMemory>
    ensures { IfOk result (λ context. context ≡ context_in profile.now level) }
{
    Ok(ContextName {
        line: profile.line,
        arch: profile.arch.copy(alloc)?,
        path: profile.path.copy(alloc)?,
        level,
    })
}

// A flag, with `-` before it where it is off.
fn witness_word(alloc: Global, asked: &Asked<'_>, flag: &Text) -> Result<Text, NoMemory>
    ensures { IfOk result (λ word. word ≡ witness_word (on_of asked.now) flag.now) }
{
    if asked.on(flag) {
        return flag.copy(alloc);
    }
    let mut word = Text::of(alloc, b"-")?;
    word.append(flag.bytes())?;
    Ok(word)
}

fn witness_words(alloc: Global, asked: &Asked<'_>, flags: &[Text]) -> Result<Texts, NoMemory>
    ensures { IfOk result (λ words. words ≡ map (witness_word (on_of asked.now)) flags.now) }
{
    let mut words = Texts::new(alloc);
    for flag in flags {
        words.add(witness_word(alloc, asked, flag)?)?;
    }
    Ok(words)
}

fn witness_of(alloc: Global, asked: &Asked<'_>, flags: &Texts) -> Result<Text, NoMemory>
    ensures { IfOk result (λ text. text ≡ witness_of (on_of asked.now) flags.now) }
{
    let words = witness_words(alloc, asked, flags.items())?;
    words.joined(alloc, b' ')
}

fn use_report(alloc: Global, asked: &Asked<'_>, required: &UseExpr) -> Result<Report, NoMemory>
    ensures { IfOk result (λ report. report ≡ use_report asked.now.pkg.now asked.now.profile.now asked.now.level (on_of asked.now) required.now) }
{
    let flags = mentioned_required(alloc, required)?;
    Ok(Report {
        subject: subject_of(alloc, asked.pkg)?,
        keyword: Keyword::RequiredUseDefaults,
        class: None,
        context: Some(context_in(alloc, asked.profile, asked.level)?),
        witness: Some(witness_of(alloc, asked, &flags)?),
        detail: Some(print_required(alloc, required)?),
    })
}
