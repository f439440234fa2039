//! All queries of a repository, in order: by package, by profile line, by class; and those of them that are chosen, judged.
//!
//! A package of which no query can be chosen costs O(1), and any other O(profiles) and
//! finding what its classes ask about, and each context in which it is judged the keys of its chosen queries. What is lowered in one
//! context of a package is shared by the others. A package's reports that need no query are made just before its queries, since both
//! look up the same names.
ghost use Rattle.std.specs.Prelude.{◌≡◌, ◌++◌, [], ◌∷◌, Some, slice_get, length, map, filter, flat_map, filter_map, IfOk, IfErr, OnOk};
ghost use Rattle.std.specs.List.{AllByRecursion};
ghost use Rattle.gv_usestate.specs.Kinds.{IsOneOf};
ghost use Rattle.gv_checks.specs.Answers.{AreAnswers, StopsAt};
ghost use Rattle.gv_plain.specs.Cases.{case_in, cases_of, members, members_from};
ghost use Rattle.gv_checks.specs.Certs.{CountsAtMost};
ghost use Rattle.gv_checks.specs.Chosen.{chosen, told_chosen, told_of};
ghost use Rattle.gv_plain.specs.Context.{IsNumbered, case_of, listed};
ghost use Rattle.gv_checks.specs.Keys.{ArePartsOf, AreSitesOf, HasSites};
ghost use Rattle.gv_checks.specs.Named.{HasNamed};
ghost use Rattle.gv_checks.specs.Progress.{IsSomewhere};
ghost use Rattle.gv_checks.specs.Queries.{case_asks, case_queries, class_queries, queries, query_name};
ghost use Rattle.gv_checks.specs.Shared.{AreKept, AreReady};
ghost use Rattle.gv_plain.specs.Seen.{seen};
ghost use Rattle.gv_checks.specs.Walks.{Goes};

use crate::chosen::Asking;
use crate::judging::{Progress, add_names, is_asked, judge_query};
use crate::keys::{PkgSites, make_required_key};
use crate::shared::Shared;
use crate::spot::Spot;
use crate::used::Used;
use crate::walk::Walk;
use crate::{JudgeFault, QueryNames};
use gv_base::{Ledger, NoMemory, Steps, next_number};
use gv_cert::Known;
use gv_entry::Body;
use gv_facts::{Class, Pkg, Profile};
use gv_load::Repo;
use gv_plain::{JudgedPkg, ListedPkg, ProfileView, class_order};
use gv_report::{Options, Reports};
use gv_visible::judged;
use std::alloc::Global;

/// What a walk answers.
#[derive(Drop)]
pub struct Answers {
    /// What is told without a query, by package.
    pub plain: Reports,
    /// The reports of the queries, in their order.
    pub reports: Reports,
    /// One record for each distinct query, in the order of first use.
    pub certs: Known,
    /// The number of queries.
    pub queries: u32,
}

/// Why a walk ended early, and behind how many queries.
#[derive(Drop)]
pub struct Stopped {
    pub fault: JudgeFault,
    pub behind: u32,
}

/// How far a walk has come: the queries that were judged, and how many were come to.
#[derive(Drop)]
pub(crate) struct Going {
    pub(crate) progress: Progress,
    pub(crate) place: u32,
}

/// A walk that is gone: over what, what is asked of it, and where memory is taken from.
#[derive(Clone, Copy)]
pub(crate) struct Errand<'a> {
    pub(crate) alloc: Global,
    pub(crate) walk: &'a Walk<'a>,
    pub(crate) asking: &'a Asking<'a>,
}

impl<'a> Walk<'a> {
    /// Judges the queries that are chosen, in order, and tells what is chosen of what needs none. A query has the answer of the
    /// first backed record among the given ones where there is one; with no budget only these answer. Whatever it answers, no more
    /// are lowered than are chosen, and no more solved; each distinct one without such a record is solved once. The first query
    /// that is refused ends it.
    pub fn judge<L: Ledger>(
        &self,
        alloc: Global,
        asking: &Asking<'_>,
        steps: &mut Steps<L>,
    ) -> Result<Answers, Stopped>
        ensures plain { IfOk result (λ answers. answers.plain ≡ told_chosen asking.now.chosen self.now.options self.now.repo) }
        ensures answers { IfOk result (AreAnswers asking.now.budget asking.now.given.now (chosen asking.now.chosen (queries self.now.options self.now.repo)) steps.old steps.new) }
        ensures stopped { IfErr result (StopsAt asking.now.budget asking.now.given.now (chosen asking.now.chosen (queries self.now.options self.now.repo))) }
        ensures few { CountsAtMost (length (chosen asking.now.chosen (queries self.now.options self.now.repo))) steps.old steps.new }
        ensures unsolved { asking.now.budget ≡ 0 → steps.new.solve ≡ steps.old.solve }
    {
        let mut plain = Reports::new(alloc);
        let mut going = Going {
            progress: Progress {
                used: Used::new(alloc),
                reports: Reports::new(alloc),
                queries: 0,
            },
            place: 0,
        };
        let errand = Errand {
            alloc,
            walk: &*self,
            asking: &*asking,
        };
        match judge_all(&errand, &mut plain, &mut going, steps) {
            Ok(()) => {}
            Err(fault) => {
                let behind = going.progress.queries;
                drop(plain);
                drop(going);
                return Err(Stopped { fault, behind });
            }
        }
        let Going {
            progress: Progress {
                used: Used { certs, found },
                reports,
                queries,
            },
            place: _,
        } = going;
        drop(found);
        Ok(Answers {
            plain,
            reports,
            certs,
            queries,
        })
    }
}

// Goes over all queries.
fn judge_all<L: Ledger>(
    errand: &Errand<'_>,
    plain: &mut Reports,
    going: &mut Going,
    steps: &mut Steps<L>,
) -> Result<(), JudgeFault>
    requires somewhere { IsSomewhere errand.now.asking.now.budget errand.now.asking.now.given.now going.old.progress steps.old }
    ensures goes { Goes errand.now.asking.now (queries errand.now.walk.now.options errand.now.walk.now.repo) going.old going.new steps.old steps.new result }
    ensures plain { OnOk result (plain.new ≡ plain.old ++ told_chosen errand.now.asking.now.chosen errand.now.walk.now.options errand.now.walk.now.repo) }
{
    let repo = errand.walk.repo();
    judge_members(
        errand,
        repo.pkgs.items(),
        repo.bodies.items(),
        plain,
        going,
        steps,
    )
}

fn judge_members<'a, L: Ledger>(
    errand: &Errand<'a>,
    pkgs: &'a [Pkg],
    bodies: &'a [Body],
    plain: &mut Reports,
    going: &mut Going,
    steps: &mut Steps<L>,
) -> Result<(), JudgeFault>
    requires pkgs { pkgs.now ≡ errand.now.walk.now.repo.pkgs }
    requires somewhere { IsSomewhere errand.now.asking.now.budget errand.now.asking.now.given.now going.old.progress steps.old }
    ensures goes { Goes errand.now.asking.now (flat_map (case_queries errand.now.walk.now.options) (flat_map (cases_of errand.now.walk.now.repo) (members_from 0 pkgs.now bodies.now))) going.old going.new steps.old steps.new result }
    ensures plain { OnOk result (plain.new ≡ plain.old ++ flat_map (told_of errand.now.asking.now.chosen errand.now.walk.now.options errand.now.walk.now.repo) (members_from 0 pkgs.now bodies.now)) }
{
    for (i, pkg) in pkgs.iter().enumerate() {
        if i >= bodies.len() {
            return Ok(());
        }
        let Ok(number) = u32::try_from(i) else {
            return Err(JudgeFault::NoMemory);
        };
        let one = ListedPkg {
            number,
            pkg,
            body: &bodies[i],
        };
        match judge_member(errand, &one, plain, going, steps) {
            Ok(()) => {}
            Err(fault) => return Err(fault),
        }
    }
    Ok(())
}

// Tells of a package what needs no query, and judges its queries, as far as they are chosen.
fn judge_member<'a, L: Ledger>(
    errand: &Errand<'a>,
    one: &ListedPkg<'a>,
    plain: &mut Reports,
    going: &mut Going,
    steps: &mut Steps<L>,
) -> Result<(), JudgeFault>
    requires numbered { slice_get errand.now.walk.now.repo.pkgs one.now.number ≡ Some one.now.pkg.now }
    requires somewhere { IsSomewhere errand.now.asking.now.budget errand.now.asking.now.given.now going.old.progress steps.old }
    ensures goes { Goes errand.now.asking.now (flat_map (case_queries errand.now.walk.now.options) (cases_of errand.now.walk.now.repo (listed one.now))) going.old going.new steps.old steps.new result }
    ensures plain { OnOk result (plain.new ≡ plain.old ++ told_of errand.now.asking.now.chosen errand.now.walk.now.options errand.now.walk.now.repo (listed one.now)) }
{
    tell_member(errand, one, plain)?;
    if errand.asking.chosen.passes(one.number) {
        return Ok(());
    }
    judge_pkg(errand, one, going, steps)
}

// Adds what needs no query, where that is told of the package.
fn tell_member(
    errand: &Errand<'_>,
    one: &ListedPkg<'_>,
    plain: &mut Reports,
) -> Result<(), NoMemory>
    requires numbered { slice_get errand.now.walk.now.repo.pkgs one.now.number ≡ Some one.now.pkg.now }
    ensures { OnOk result (plain.new ≡ plain.old ++ told_of errand.now.asking.now.chosen errand.now.walk.now.options errand.now.walk.now.repo (listed one.now)) }
{
    if errand.asking.chosen.tells(one.number) {
        return errand.walk.tell_member(errand.alloc, one, plain);
    }
    Ok(())
}

// Judges the chosen queries of a package.
fn judge_pkg<'a, L: Ledger>(
    errand: &Errand<'a>,
    one: &ListedPkg<'a>,
    going: &mut Going,
    steps: &mut Steps<L>,
) -> Result<(), JudgeFault>
    requires numbered { slice_get errand.now.walk.now.repo.pkgs one.now.number ≡ Some one.now.pkg.now }
    requires somewhere { IsSomewhere errand.now.asking.now.budget errand.now.asking.now.given.now going.old.progress steps.old }
    ensures { Goes errand.now.asking.now (flat_map (case_queries errand.now.walk.now.options) (cases_of errand.now.walk.now.repo (listed one.now))) going.old going.new steps.old steps.new result }
{
    let alloc = errand.alloc;
    let walk = errand.walk;
    let repo = walk.repo();
    let sites = PkgSites::new(alloc, walk.ruled(), &repo.pkgs, one.pkg, one.body)?;
    let mut shared = Shared::new(alloc);
    let outcome = judge_views(errand, walk.views(), one, &sites, going, &mut shared, steps);
    drop(shared);
    drop(sites);
    outcome
}

fn judge_views<L: Ledger>(
    errand: &Errand<'_>,
    views: &[ProfileView<'_>],
    one: &ListedPkg<'_>,
    sites: &PkgSites<'_>,
    going: &mut Going,
    shared: &mut Shared,
    steps: &mut Steps<L>,
) -> Result<(), JudgeFault>
    requires views { views.now ≡ map (seen errand.now.walk.now.repo.pkgs) errand.now.walk.now.repo.profiles }
    requires numbered { slice_get errand.now.walk.now.repo.pkgs one.now.number ≡ Some one.now.pkg.now }
    requires sites { AreSitesOf errand.now.walk.now.repo.profiles one.now.pkg.now errand.now.walk.now.repo.pkgs one.now.body.now sites.now }
    requires somewhere { IsSomewhere errand.now.asking.now.budget errand.now.asking.now.given.now going.old.progress steps.old }
    requires shared { AreKept one.now.pkg.now one.now.body.now going.old.progress.used.certs shared.old.queries.items }
    ensures { Goes errand.now.asking.now (flat_map (case_queries errand.now.walk.now.options) (filter_map (case_in errand.now.walk.now.repo.pkgs (listed one.now)) errand.now.walk.now.repo.profiles)) going.old going.new steps.old steps.new result }
{
    for view in views {
        match judge_view(errand, &*view, one, sites, going, shared, steps) {
            Ok(()) => {}
            Err(fault) => return Err(fault),
        }
    }
    Ok(())
}

// Judges the chosen queries of a package in a profile, where that judges it.
fn judge_view<'a, L: Ledger>(
    errand: &Errand<'_>,
    view: &'a ProfileView<'a>,
    one: &ListedPkg<'_>,
    sites: &PkgSites<'_>,
    going: &mut Going,
    shared: &mut Shared,
    steps: &mut Steps<L>,
) -> Result<(), JudgeFault>
    requires view { view.now ≡ seen errand.now.walk.now.repo.pkgs view.now.profile }
    requires one { IsOneOf errand.now.walk.now.repo.profiles view.now.profile }
    requires numbered { slice_get errand.now.walk.now.repo.pkgs one.now.number ≡ Some one.now.pkg.now }
    requires sites { AreSitesOf errand.now.walk.now.repo.profiles one.now.pkg.now errand.now.walk.now.repo.pkgs one.now.body.now sites.now }
    requires somewhere { IsSomewhere errand.now.asking.now.budget errand.now.asking.now.given.now going.old.progress steps.old }
    requires shared { AreKept one.now.pkg.now one.now.body.now going.old.progress.used.certs shared.old.queries.items }
    ensures goes { Goes errand.now.asking.now (case_asks errand.now.walk.now.options (case_in errand.now.walk.now.repo.pkgs (listed one.now) view.now.profile)) going.old going.new steps.old steps.new result }
    ensures shared { OnOk result (AreKept one.now.pkg.now one.now.body.now going.new.progress.used.certs shared.new.queries.items) }
{
    match view.judged(one.number, one.pkg) {
        None => Ok(()),
        Some(level) => {
            let repo = errand.walk.repo();
            let judged = JudgedPkg {
                number: one.number,
                pkg: one.pkg,
                body: one.body,
                profile: view.profile(),
                level,
                pkgs: &repo.pkgs,
            };
            let spot = Spot {
                judged,
                view,
                sites: &*sites,
            };
            judge_case(errand, &spot, going, shared, steps)
        }
    }
}

// Judges the chosen queries of a package in a context.
fn judge_case<L: Ledger>(
    errand: &Errand<'_>,
    spot: &Spot<'_>,
    going: &mut Going,
    shared: &mut Shared,
    steps: &mut Steps<L>,
) -> Result<(), JudgeFault>
    requires numbered { IsNumbered spot.now.judged }
    requires view { spot.now.view.now ≡ seen spot.now.judged.pkgs.now spot.now.judged.profile.now }
    requires sites { HasSites spot.now.judged spot.now.sites.now }
    requires somewhere { IsSomewhere errand.now.asking.now.budget errand.now.asking.now.given.now going.old.progress steps.old }
    requires shared { AreKept spot.now.judged.pkg.now spot.now.judged.body.now going.old.progress.used.certs shared.old.queries.items }
    ensures goes { Goes errand.now.asking.now (case_queries errand.now.walk.now.options (case_of spot.now.judged)) going.old going.new steps.old steps.new result }
    ensures shared { OnOk result (AreKept spot.now.judged.pkg.now spot.now.judged.body.now going.new.progress.used.certs shared.new.queries.items) }
{
    make_required_key(
        &spot.judged,
        spot.view.states(),
        spot.sites,
        &mut shared.required,
    )?;
    shared.begin();
    judge_classes(errand, spot, &class_order(), going, shared, steps)
}

fn judge_classes<L: Ledger>(
    errand: &Errand<'_>,
    spot: &Spot<'_>,
    classes: &[Class],
    going: &mut Going,
    shared: &mut Shared,
    steps: &mut Steps<L>,
) -> Result<(), JudgeFault>
    requires numbered { IsNumbered spot.now.judged }
    requires view { spot.now.view.now ≡ seen spot.now.judged.pkgs.now spot.now.judged.profile.now }
    requires parts { ArePartsOf spot.now.judged spot.now.judged.profile.now spot.now.sites.now shared.old.required.items }
    requires somewhere { IsSomewhere errand.now.asking.now.budget errand.now.asking.now.given.now going.old.progress steps.old }
    requires shared { AreReady spot.now.judged going.old.progress.used.certs shared.old }
    ensures goes { Goes errand.now.asking.now (class_queries errand.now.walk.now.options classes.now (case_of spot.now.judged)) going.old going.new steps.old steps.new result }
    ensures shared { OnOk result (AreReady spot.now.judged going.new.progress.used.certs shared.new) }
{
    for class in classes {
        match judge_class(errand, spot, *class, going, shared, steps) {
            Ok(()) => {}
            Err(fault) => return Err(fault),
        }
    }
    Ok(())
}

// Judges the query of a class, if there is one and it is chosen.
fn judge_class<L: Ledger>(
    errand: &Errand<'_>,
    spot: &Spot<'_>,
    class: Class,
    going: &mut Going,
    shared: &mut Shared,
    steps: &mut Steps<L>,
) -> Result<(), JudgeFault>
    requires numbered { IsNumbered spot.now.judged }
    requires view { spot.now.view.now ≡ seen spot.now.judged.pkgs.now spot.now.judged.profile.now }
    requires parts { ArePartsOf spot.now.judged spot.now.judged.profile.now spot.now.sites.now shared.old.required.items }
    requires somewhere { IsSomewhere errand.now.asking.now.budget errand.now.asking.now.given.now going.old.progress steps.old }
    requires shared { AreReady spot.now.judged going.old.progress.used.certs shared.old }
    ensures goes { Goes errand.now.asking.now (class_queries errand.now.walk.now.options (class ∷ []) (case_of spot.now.judged)) going.old going.new steps.old steps.new result }
    ensures shared { OnOk result (AreReady spot.now.judged going.new.progress.used.certs shared.new) }
    ensures required { shared.new.required.items ≡ shared.old.required.items }
{
    if !is_asked(errand.walk.options(), &spot.judged, class) {
        return Ok(());
    }
    let is_chosen = errand
        .asking
        .chosen
        .has(going.place, spot.judged.number, class);
    going.place = next_number(going.place)?;
    if is_chosen {
        return judge_query(errand, spot, class, &mut going.progress, shared, steps);
    }
    Ok(())
}

/// The names of the queries of a repository under options, in their order. Packages are numbered by 32 bits, and more of
/// them find no memory.
#[tactic(auto, using(crate::proofs::NamedLemmas::names_named))]
pub fn queries(alloc: Global, repo: &Repo, options: &Options) -> Result<QueryNames, NoMemory>
    ensures names { IfOk result (λ names. names ≡ map query_name (queries options.now repo.now)) }
    ensures named { IfOk result (AllByRecursion (HasNamed options.now repo.now)) }
{
    let mut names = QueryNames::new(alloc);
    add_all_names(
        repo,
        repo.pkgs.items(),
        repo.bodies.items(),
        options,
        &mut names,
    )?;
    Ok(names)
}

fn add_pkg_names(
    repo: &Repo,
    number: u32,
    pkg: &Pkg,
    body: &Body,
    profiles: &[Profile],
    options: &Options,
    names: &mut QueryNames,
) -> Result<(), NoMemory>
    ensures { OnOk result (names.new ≡ names.old ++ map query_name (flat_map (case_queries options.now) (filter_map (case_in repo.now.pkgs (record { number = number; pkg = pkg.now; body = body.now })) profiles.now))) }
{
    for profile in profiles {
        if let Some(level) = judged(pkg, profile) {
            let judged = JudgedPkg {
                number,
                pkg,
                body,
                profile,
                level,
                pkgs: &repo.pkgs,
            };
            add_names(options, &judged, &class_order(), names)?;
        }
    }
    Ok(())
}

fn add_all_names(
    repo: &Repo,
    pkgs: &[Pkg],
    bodies: &[Body],
    options: &Options,
    names: &mut QueryNames,
) -> Result<(), NoMemory>
    ensures { OnOk result (names.new ≡ names.old ++ map query_name (flat_map (case_queries options.now) (flat_map (cases_of repo.now) (members_from 0 pkgs.now bodies.now)))) }
{
    let profiles = repo.profiles.items();
    for (i, pkg) in pkgs.iter().enumerate() {
        if i >= bodies.len() {
            return Ok(());
        }
        let Ok(number) = u32::try_from(i) else {
            return Err(NoMemory);
        };
        add_pkg_names(repo, number, pkg, &bodies[i], profiles, options, names)?;
    }
    Ok(())
}
