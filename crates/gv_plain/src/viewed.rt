//! A repository with what each profile shows of its packages and says of flags: what all queries, and all that is told without
//! one, are made over.
//!
//! Where many packages are come to (`new`), making it costs the sets of each profile's flags and a test of each package in each
//! profile; where few are (`few`), O(profiles). The other calls cost O(1) and take no memory.
ghost use Rattle.std.specs.Prelude.{◌≡◌, map, IfOk};
ghost use Rattle.gv_plain.specs.Seen.{seen};

use crate::views::{Asked, ProfileView, all_views, ruled};
use gv_base::NoMemory;
use gv_load::Repo;
use gv_report::Options;
use gv_usestate::RuledFlags;
use std::alloc::Global;
use std::marker::Model;

/// A repository under options, with the view of each of its profiles.
#[derive(Drop)]
pub struct ViewedRepo<'a> {
    repo: &'a Repo,
    options: &'a Options,
    ruled: RuledFlags<'a>,
    views: Vec<ProfileView<'a>>,
}

impl<'a> Model for ViewedRepo<'a> {
    ghost use Rattle.std.specs.Coded.{codes};
    ghost use Rattle.gv_load.specs.contracts.loading.Repo as repository;
    ghost use Rattle.gv_plain.specs.Views.{HasViews, ViewedRepo};

    ghost Value = { ViewedRepo };

    ghost coded = { Prim.hlevel (codes, repository.the_row.coded) };

    ghost view = { λ w. record { repo = w.repo.now; options = w.options.now } };

    ghost invariant = { λ w. HasViews w.repo.now w.ruled w.views.items };
}

impl<'a> ViewedRepo<'a> {
    /// Over all packages, or the most of them.
    pub fn new(
        alloc: Global,
        repo: &'a Repo,
        options: &'a Options,
    ) -> Result<ViewedRepo<'a>, NoMemory>
        ensures { IfOk result (λ viewed. viewed ≡ record { repo = repo.now; options = options.now }) }
    {
        ViewedRepo::made(alloc, repo, options, Asked::Many)
    }

    /// Over few packages.
    pub fn few(
        alloc: Global,
        repo: &'a Repo,
        options: &'a Options,
    ) -> Result<ViewedRepo<'a>, NoMemory>
        ensures { IfOk result (λ viewed. viewed ≡ record { repo = repo.now; options = options.now }) }
    {
        ViewedRepo::made(alloc, repo, options, Asked::Few)
    }

    fn made(
        alloc: Global,
        repo: &'a Repo,
        options: &'a Options,
        asked: Asked,
    ) -> Result<ViewedRepo<'a>, NoMemory>
        ensures { IfOk result (λ viewed. viewed ≡ record { repo = repo.now; options = options.now }) }
    {
        let ruled = ruled(alloc, repo.profiles.items(), asked)?;
        let views = all_views(alloc, &repo.pkgs, repo.profiles.items(), asked)?;
        Ok(ViewedRepo {
            repo,
            options,
            ruled,
            views,
        })
    }

    /// The repository.
    pub fn repo(&self) -> &'a Repo
        ensures { result.now ≡ self.now.repo }
    {
        self.repo
    }

    /// What is reported and how.
    pub fn options(&self) -> &'a Options
        ensures { result.now ≡ self.now.options }
    {
        self.options
    }

    /// What rules of the profiles name.
    pub fn ruled(&self) -> &RuledFlags<'a>
        ensures { result.now ≡ self.now.repo.profiles }
    {
        &self.ruled
    }

    /// The view of each profile.
    pub fn views(&self) -> &[ProfileView<'a>]
        ensures { result.now ≡ map (seen self.now.repo.pkgs) self.now.repo.profiles }
    {
        &self.views
    }
}
