//! Where a query is judged.
use crate::keys::PkgSites;
use gv_plain::{JudgedPkg, ProfileView};

/// A package in a profile that judges it, with the view of the profile and what the package's classes ask about.
#[derive(Clone, Copy)]
pub(crate) struct Spot<'a> {
    pub(crate) judged: JudgedPkg<'a>,
    pub(crate) view: &'a ProfileView<'a>,
    pub(crate) sites: &'a PkgSites<'a>,
}
