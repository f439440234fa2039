//! The reports that need no query.
//!
//! For each package its classes are gone through once, and each profile that judges it costs what `unstated` costs there.
ghost use Rattle.std.specs.Prelude.{◌≡◌, ◌++◌, None, Some, map, filter, flat_map, slice_get, IfOk, IfSome, MatchOption, OnOk};
ghost use Rattle.gv_report.specs.Selecting.{selected};
ghost use Rattle.gv_plain.specs.Cases.{case_in, cases_of, members_from};
ghost use Rattle.gv_plain.specs.Context.{case_of, listed};
ghost use Rattle.gv_plain.specs.Plain.{other_flags, told_case, told_in, told_live, told_member};
ghost use Rattle.gv_plain.specs.PlainReports.{live, plain_reports, readable_classes};
ghost use Rattle.gv_plain.specs.Seen.{seen};
ghost use Rattle.gv_plain.specs.Telling.{numbered, plain_of, told_at, told_of_class_at};

use crate::context::{JudgedPkg, ListedPkg};
use crate::nonexistent::{add_nonexistent, add_nonexistent_in};
use crate::telling::{context_of, is_told, subject_of};
use crate::unstated::{OtherFlags, add_unstated, other_flags};
use crate::viewed::ViewedRepo;
use crate::views::ProfileView;
use gv_base::NoMemory;
use gv_entry::Body;
use gv_facts::{Class, Pkg, Pkgs};
use gv_load::Repo;
use gv_report::{Keyword, Options, Report, Reports, selected};
use std::alloc::Global;

// `plain` over the views of the profiles.
#[tactic(auto, using(crate::proofs::PlainLemmas::all_told))]
fn plain_over(
    alloc: Global,
    viewed: &ViewedRepo<'_>,
    repo: &Repo,
    options: &Options,
) -> Result<Reports, NoMemory>
    requires repo { repo.now ≡ viewed.now.repo }
    requires options { options.now ≡ viewed.now.options }
    ensures { IfOk result (λ reports. reports ≡ filter (selected options.now) (plain_reports repo.now)) }
{
    let mut reports = noted(alloc, repo, options)?;
    add_members(
        alloc,
        viewed,
        repo.pkgs.items(),
        repo.bodies.items(),
        &mut reports,
    )?;
    Ok(reports)
}

/// The selected reports that need no query: what was noted in reading, atoms that match no package, flags that a class
/// mentions and that aren't effective, and live packages. Packages are numbered by 32 bits, and more of them find no
/// memory.
pub fn plain(alloc: Global, repo: &Repo, options: &Options) -> Result<Reports, NoMemory>
    ensures { IfOk result (λ reports. reports ≡ filter (selected options.now) (plain_reports repo.now)) }
{
    plain_by(alloc, &*repo, &*options)
}

fn plain_by<'a>(alloc: Global, repo: &'a Repo, options: &'a Options) -> Result<Reports, NoMemory>
    ensures { IfOk result (λ reports. reports ≡ filter (selected options.now) (plain_reports repo.now)) }
{
    let viewed = ViewedRepo::new(alloc, repo, options)?;
    plain_over(alloc, &viewed, repo, options)
}

/// Those of them that are told of the package of this number, from 0, which has no notes; of a number that no package has, none.
pub fn plain_one(
    alloc: Global,
    repo: &Repo,
    package: u32,
    options: &Options,
) -> Result<Reports, NoMemory>
    ensures { IfOk result (λ reports. reports ≡ filter (selected options.now) (plain_of repo.now «package»)) }
{
    plain_one_by(alloc, &*repo, package, &*options)
}

#[tactic(auto, using(crate::proofs::PlainLemmas::plain_told))]
fn plain_one_by<'a>(
    alloc: Global,
    repo: &'a Repo,
    package: u32,
    options: &'a Options,
) -> Result<Reports, NoMemory>
    ensures { IfOk result (λ reports. reports ≡ filter (selected options.now) (plain_of repo.now «package»)) }
{
    let viewed = ViewedRepo::few(alloc, repo, options)?;
    let mut reports = Reports::new(alloc);
    viewed.tell(alloc, package, &mut reports)?;
    Ok(reports)
}

impl<'a> ViewedRepo<'a> {
    /// Adds what is told of the package of this number, from 0, without a query; where there is none, nothing.
    pub fn tell(&self, alloc: Global, number: u32, reports: &mut Reports) -> Result<(), NoMemory>
        ensures { OnOk result (reports.new ≡ reports.old ++ told_at self.now.options self.now.repo number) }
    {
        match numbered(self.repo(), number) {
            Some(one) => self.tell_member(alloc, &one, reports),
            None => Ok(()),
        }
    }

    /// The same of a package that was come to.
    pub fn tell_member(
        &self,
        alloc: Global,
        one: &ListedPkg<'_>,
        reports: &mut Reports,
    ) -> Result<(), NoMemory>
        requires numbered { slice_get self.now.repo.pkgs one.now.number ≡ Some one.now.pkg.now }
        ensures { OnOk result (reports.new ≡ reports.old ++ told_member self.now.options self.now.repo (listed one.now)) }
    {
        let views = self.views();
        add_told(alloc, self.options(), self.repo(), views, one, reports)
    }

    /// Adds of that only which atoms of this class match no package.
    pub fn tell_of_class(
        &self,
        alloc: Global,
        number: u32,
        class: Class,
        reports: &mut Reports,
    ) -> Result<(), NoMemory>
        ensures { OnOk result (reports.new ≡ reports.old ++ told_of_class_at class self.now.options self.now.repo number) }
    {
        let repo = self.repo();
        match numbered(repo, number) {
            Some(one) => {
                add_nonexistent_in(alloc, self.options(), &one, &repo.pkgs, class, reports)
            }
            None => Ok(()),
        }
    }
}

// The package of this number.
fn numbered(repo: &Repo, number: u32) -> Option<ListedPkg<'_>>
    ensures member { MatchOption result (numbered repo.now number ≡ None) (λ one. numbered repo.now number ≡ Some (listed one)) }
    ensures pkg { IfSome result (λ one. slice_get repo.now.pkgs one.number ≡ Some one.pkg.now) }
{
    let place = number as usize;
    let Some(pkg) = repo.pkgs.items().get(place) else {
        return None;
    };
    let Some(body) = repo.bodies.items().get(place) else {
        return None;
    };
    Some(ListedPkg { number, pkg, body })
}

/// The notes of reading that are selected.
pub fn noted(alloc: Global, repo: &Repo, options: &Options) -> Result<Reports, NoMemory>
    ensures { IfOk result (λ reports. reports ≡ filter (selected options.now) repo.now.notes) }
{
    selected_of(alloc, repo.notes.items(), options)
}

/// Those of the reports that are selected.
pub fn selected_of(alloc: Global, others: &[Report], options: &Options) -> Result<Reports, NoMemory>
    ensures { IfOk result (λ reports. reports ≡ filter (selected options.now) others.now) }
{
    let mut reports = Reports::new(alloc);
    add_selected(alloc, options, others, &mut reports)?;
    Ok(reports)
}

fn add_selected(
    alloc: Global,
    options: &Options,
    others: &[Report],
    reports: &mut Reports,
) -> Result<(), NoMemory>
    ensures { OnOk result (reports.new ≡ reports.old ++ filter (selected options.now) others.now) }
{
    for report in others {
        if selected(options, report) {
            reports.add(report.copy(alloc)?)?;
        }
    }
    Ok(())
}

fn live(alloc: Global, judged: &JudgedPkg<'_>) -> Result<Report, NoMemory>
    ensures { IfOk result (λ report. report ≡ live (case_of judged.now)) }
{
    Ok(Report {
        subject: subject_of(alloc, judged.pkg)?,
        keyword: Keyword::VisibleVcsPkg,
        class: None,
        context: Some(context_of(alloc, judged)?),
        witness: None,
        detail: None,
    })
}

fn add_live(
    alloc: Global,
    options: &Options,
    judged: &JudgedPkg<'_>,
    reports: &mut Reports,
) -> Result<(), NoMemory>
    ensures { OnOk result (reports.new ≡ reports.old ++ told_live options.now (case_of judged.now)) }
{
    if judged.pkg.live && is_told(options, judged, Keyword::VisibleVcsPkg) {
        reports.add(live(alloc, judged)?)?;
    }
    Ok(())
}

// Adds those of a package in a context.
fn add_case(
    alloc: Global,
    options: &Options,
    judged: &JudgedPkg<'_>,
    others: &[OtherFlags],
    reports: &mut Reports,
) -> Result<(), NoMemory>
    requires { others.now ≡ map (other_flags judged.now.pkg.now judged.now.body.now) (readable_classes judged.now.pkg.now judged.now.body.now) }
    ensures { OnOk result (reports.new ≡ reports.old ++ told_case options.now (case_of judged.now)) }
{
    add_unstated(alloc, options, judged, others, reports)?;
    add_live(alloc, options, judged, reports)
}

// Adds those of a package in a profile, at the level at which it judges the package, if it does.
fn add_judged(
    alloc: Global,
    options: &Options,
    pkgs: &Pkgs,
    view: &ProfileView<'_>,
    one: &ListedPkg<'_>,
    others: &[OtherFlags],
    reports: &mut Reports,
) -> Result<(), NoMemory>
    requires view { view.now ≡ seen pkgs.now view.now.profile }
    requires numbered { slice_get pkgs.now one.now.number ≡ Some one.now.pkg.now }
    requires others { others.now ≡ map (other_flags one.now.pkg.now one.now.body.now) (readable_classes one.now.pkg.now one.now.body.now) }
    ensures { OnOk result (reports.new ≡ reports.old ++ told_in options.now (case_in pkgs.now (listed one.now) view.now.profile)) }
{
    match view.judged(one.number, one.pkg) {
        None => Ok(()),
        Some(level) => {
            let judged = JudgedPkg {
                number: one.number,
                pkg: one.pkg,
                body: one.body,
                profile: view.profile(),
                level,
                pkgs,
            };
            add_case(alloc, options, &judged, others, reports)
        }
    }
}

// Adds those of a package in each context.
fn add_cases(
    alloc: Global,
    options: &Options,
    repo: &Repo,
    views: &[ProfileView<'_>],
    one: &ListedPkg<'_>,
    others: &[OtherFlags],
    reports: &mut Reports,
) -> Result<(), NoMemory>
    requires views { views.now ≡ map (seen repo.now.pkgs) repo.now.profiles }
    requires numbered { slice_get repo.now.pkgs one.now.number ≡ Some one.now.pkg.now }
    requires others { others.now ≡ map (other_flags one.now.pkg.now one.now.body.now) (readable_classes one.now.pkg.now one.now.body.now) }
    ensures { OnOk result (reports.new ≡ reports.old ++ flat_map (told_case options.now) (cases_of repo.now (listed one.now))) }
{
    for view in views {
        add_judged(alloc, options, &repo.pkgs, view, one, others, reports)?;
    }
    Ok(())
}

// Adds those of a package over these views.
fn add_told(
    alloc: Global,
    options: &Options,
    repo: &Repo,
    views: &[ProfileView<'_>],
    one: &ListedPkg<'_>,
    reports: &mut Reports,
) -> Result<(), NoMemory>
    requires views { views.now ≡ map (seen repo.now.pkgs) repo.now.profiles }
    requires numbered { slice_get repo.now.pkgs one.now.number ≡ Some one.now.pkg.now }
    ensures { OnOk result (reports.new ≡ reports.old ++ told_member options.now repo.now (listed one.now)) }
{
    add_nonexistent(alloc, options, &repo.pkgs, one.pkg, one.body, reports)?;
    let others = other_flags(alloc, one.pkg, one.body)?;
    add_cases(alloc, options, repo, views, one, &others, reports)
}

fn add_members(
    alloc: Global,
    viewed: &ViewedRepo<'_>,
    pkgs: &[Pkg],
    bodies: &[Body],
    reports: &mut Reports,
) -> Result<(), NoMemory>
    requires pkgs { pkgs.now ≡ viewed.now.repo.pkgs }
    ensures { OnOk result (reports.new ≡ reports.old ++ flat_map (told_member viewed.now.options viewed.now.repo) (members_from 0 pkgs.now bodies.now)) }
{
    for (i, pkg) in pkgs.iter().enumerate() {
        if i >= bodies.len() {
            return Ok(());
        }
        let Ok(number) = u32::try_from(i) else {
            return Err(NoMemory);
        };
        let one = ListedPkg {
            number,
            pkg,
            body: &bodies[i],
        };
        viewed.tell_member(alloc, &one, reports)?;
    }
    Ok(())
}
