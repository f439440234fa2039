//! A package with its number, and in a profile that judges it.
use gv_entry::Body;
use gv_facts::{Level, Pkg, Pkgs, Profile};

/// A package with its number and its body.
#[derive(Clone, Copy)]
pub struct ListedPkg<'a> {
    /// From 0.
    pub number: u32,
    pub pkg: &'a Pkg,
    pub body: &'a Body,
}

/// A package with its number and its body, the profile and the level at which it is judged, and all packages of its
/// repository.
#[derive(Clone, Copy)]
pub struct JudgedPkg<'a> {
    pub number: u32,
    pub pkg: &'a Pkg,
    pub body: &'a Body,
    pub profile: &'a Profile,
    pub level: Level,
    pub pkgs: &'a Pkgs,
}
