//! A repository with what each profile shows of its packages and says of flags, over whose queries a walk goes.
//!
//! It costs what `ViewedRepo` of `gv_plain` says.
ghost use Rattle.std.specs.Prelude.{◌≡◌, ◌++◌, map, Some, slice_get, IfOk, OnOk};
ghost use Rattle.gv_plain.specs.Context.{listed};
ghost use Rattle.gv_plain.specs.Plain.{told_member};
ghost use Rattle.gv_plain.specs.Seen.{seen};
ghost use Rattle.gv_plain.specs.Telling.{told_at, told_of_class_at};

use gv_base::NoMemory;
use gv_facts::Class;
use gv_load::Repo;
use gv_plain::{ListedPkg, ProfileView, ViewedRepo};
use gv_report::{Options, Reports};
use gv_usestate::RuledFlags;
use std::alloc::Global;
use std::marker::Model;

/// A repository under options, with the view of each of its profiles.
#[derive(Drop)]
pub struct Walk<'a> {
    viewed: ViewedRepo<'a>,
}

impl<'a> Model for Walk<'a> {
    ghost use Rattle.std.specs.Coded.{codes};
    ghost use Rattle.gv_load.specs.contracts.loading.Repo as repository;
    ghost use Rattle.gv_checks.specs.Views.{Walk};

    ghost Value = { Walk };

    ghost coded = { Prim.hlevel (codes, repository.the_row.coded) };

    ghost view = { λ w. record { repo = w.viewed.repo; options = w.viewed.options } };
}

impl<'a> Walk<'a> {
    /// Over all packages, or the most of them.
    pub fn new(alloc: Global, repo: &'a Repo, options: &'a Options) -> Result<Walk<'a>, NoMemory>
        ensures { IfOk result (λ walk. walk ≡ record { repo = repo.now; options = options.now }) }
    {
        let viewed = ViewedRepo::new(alloc, repo, options)?;
        Ok(Walk { viewed })
    }

    /// Over few packages.
    pub fn few(alloc: Global, repo: &'a Repo, options: &'a Options) -> Result<Walk<'a>, NoMemory>
        ensures { IfOk result (λ walk. walk ≡ record { repo = repo.now; options = options.now }) }
    {
        let viewed = ViewedRepo::few(alloc, repo, options)?;
        Ok(Walk { viewed })
    }

    /// The repository.
    pub fn repo(&self) -> &'a Repo
        ensures { result.now ≡ self.now.repo }
    {
        self.viewed.repo()
    }

    /// What is reported and how.
    pub fn options(&self) -> &'a Options
        ensures { result.now ≡ self.now.options }
    {
        self.viewed.options()
    }

    /// Adds what is told of the package of this number, from 0, without a query; where there is none, nothing.
    pub fn tell(&self, alloc: Global, number: u32, reports: &mut Reports) -> Result<(), NoMemory>
        ensures { OnOk result (reports.new ≡ reports.old ++ told_at self.now.options self.now.repo number) }
    {
        self.viewed.tell(alloc, number, reports)
    }

    /// Adds of that only which atoms of this class match no package.
    pub fn tell_of_class(
        &self,
        alloc: Global,
        number: u32,
        class: Class,
        reports: &mut Reports,
    ) -> Result<(), NoMemory>
        ensures { OnOk result (reports.new ≡ reports.old ++ told_of_class_at class self.now.options self.now.repo number) }
    {
        self.viewed.tell_of_class(alloc, number, class, reports)
    }

    /// Adds what is told of a package that was come to.
    pub(crate) fn tell_member(
        &self,
        alloc: Global,
        one: &ListedPkg<'_>,
        reports: &mut Reports,
    ) -> Result<(), NoMemory>
        requires numbered { slice_get self.now.repo.pkgs one.now.number ≡ Some one.now.pkg.now }
        ensures { OnOk result (reports.new ≡ reports.old ++ told_member self.now.options self.now.repo (listed one.now)) }
    {
        self.viewed.tell_member(alloc, one, reports)
    }

    /// What rules of the profiles name.
    pub(crate) fn ruled(&self) -> &RuledFlags<'a>
        ensures { result.now ≡ self.now.repo.profiles }
    {
        self.viewed.ruled()
    }

    /// The view of each profile.
    pub(crate) fn views(&self) -> &[ProfileView<'a>]
        ensures { result.now ≡ map (seen self.now.repo.pkgs) self.now.repo.profiles }
    {
        self.viewed.views()
    }
}
